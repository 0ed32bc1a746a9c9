//! Edits of a pool.

ghost use Rattle.std.specs.Prelude.{◌≡◌, IfOk};

use crate::name::Name;
use crate::query::Query;
use crate::row::Row;
use std::alloc::{AllocError, Allocator, Global};

/// What is asked of a pool, over what holds names, queries and rows. Contracts see an edit as an
/// `EditKind` over the bytes of names and the records of queries and rows.
#[derive(Drop)]
pub enum EditKind<N, Q, R> {
    /// Makes the query pending under the name, after those that are pending.
    Post {
        /// The query's name.
        name: N,
        /// The query.
        query: Q,
    },
    /// Takes a pending query back.
    Withdraw {
        /// The query's name.
        name: N,
    },
    /// Adds a row.
    Insert {
        /// The row.
        row: R,
    },
    /// Takes a row out.
    Delete {
        /// The row.
        row: R,
    },
}

/// An edit.
pub type Edit<A = Global> = EditKind<Name<A>, Query<A>, Row<A>>;

impl<A: Allocator + Clone> EditKind<Name<A>, Query<A>, Row<A>> {
    /// An equal edit, which shares its query or row with this one.
    ///
    /// # Errors
    /// `AllocError` where the allocation failed, or where 2^63 - 1 equal ones share the query or the row already.
    pub fn copy(&self) -> Result<Edit<A>, AllocError>
        ensures { IfOk result (λ edit. edit ≡ self.now) }
    {
        match self {
            EditKind::Post { name, query } => {
                let name = name.copy()?;
                let query = query.copy()?;
                Ok(EditKind::Post { name, query })
            }
            EditKind::Withdraw { name } => Ok(EditKind::Withdraw { name: name.copy()? }),
            EditKind::Insert { row } => Ok(EditKind::Insert { row: row.copy()? }),
            EditKind::Delete { row } => Ok(EditKind::Delete { row: row.copy()? }),
        }
    }
}
