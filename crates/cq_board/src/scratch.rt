//! Boards from scratch.

ghost use Rattle.std.specs.Prelude.{◌≡◌, [], ◌∷◌, map};
ghost use Rattle.cq_atom.specs.declared.edit.EditKind.TheVariants.{Insert, Post};
ghost use Rattle.cq_board.specs.declared.scratch.ScratchFault.TheVariants.{NoMemory};
ghost use Rattle.cq_board.specs.Pool.{opening_pool};
ghost use Rattle.cq_board.specs.Scratch.{scratch_edits, scratch_of, Makes};
ghost use Rattle.cq_board.specs.Steps.Scratch.{Continues};

use crate::board::Board;
use crate::edit::Why;
use crate::limits::Limits;
use crate::work::Work;
use cq_atom::{Name, Query, Row};
use cq_rel::Catalog;
use std::alloc::{AllocError, AllocFailed, Allocator};
use thiserror::Error;

/// Why no board could be made from scratch.
#[derive(Clone, Copy, Debug, PartialEq, Eq, Error)]
pub enum ScratchFault {
    /// A row or a query was refused, the first of them for this reason.
    #[error("refused: {0:?}")]
    Refused(Why),
    /// An allocation failed.
    #[error("out of memory")]
    NoMemory,
}

impl From<AllocError> for ScratchFault {
    ghost from_gives = { λ _ e. e ≡ NoMemory };

    fn from(_e: AllocError) -> ScratchFault {
        ScratchFault::NoMemory
    }
}

impl<T: Drop> From<AllocFailed<T>> for ScratchFault {
    ghost from_gives = { λ _ e. e ≡ NoMemory };

    fn from(_e: AllocFailed<T>) -> ScratchFault {
        ScratchFault::NoMemory
    }
}

impl<A: Allocator + Copy> Board<A> {
    /// Inserts a copy of the row. A refusal is an error.
    fn insert_one(&mut self, row: &Row<A>) -> Result<(), ScratchFault>
        ensures { Continues (scratch_of self.old (Insert row.now ∷ [])) self.new result }
    {
        if let Some(why) = self.insert_why(row) {
            return Err(ScratchFault::Refused(why));
        }
        self.insert(row, &mut Work::new())?;
        Ok(())
    }

    /// Posts a copy of the query. A refusal is an error.
    fn post_one(&mut self, name: &Name<A>, query: &Query<A>) -> Result<(), ScratchFault>
        ensures { Continues (scratch_of self.old (Post name.now query.now ∷ [])) self.new result }
    {
        if let Some(why) = self.post_why(name, query) {
            return Err(ScratchFault::Refused(why));
        }
        self.stores
            .post(&self.tables, name, query, &mut Work::new())?;
        Ok(())
    }

    /// Inserts the rows, one after another.
    fn insert_all(&mut self, rows: &[Row<A>]) -> Result<(), ScratchFault>
        ensures { Continues (scratch_of self.old (map Insert rows.now)) self.new result }
    {
        for row in rows {
            self.insert_one(row)?;
        }
        Ok(())
    }

    /// Posts the queries under their names, one after another.
    fn post_all(&mut self, queries: &[(Name<A>, Query<A>)]) -> Result<(), ScratchFault>
        ensures { Continues (scratch_of self.old (map (λ q. Post q.0 q.1) queries.now)) self.new result }
    {
        for (name, query) in queries {
            self.post_one(name, query)?;
        }
        Ok(())
    }

    /// The board of these rows and queries: all rows are inserted, and then all queries are posted,
    /// in the order in which they stand.
    ///
    /// # Errors
    /// `Refused` tells why the first row or query that is refused is refused, and `NoMemory` that an
    /// allocation failed.
    pub fn scratch(
        alloc: A,
        catalog: Catalog<A>,
        limits: Limits,
        queries: &[(Name<A>, Query<A>)],
        rows: &[Row<A>],
    ) -> Result<Board<A>, ScratchFault>
        ensures { Makes (scratch_of (opening_pool catalog limits) (scratch_edits queries.now rows.now)) result }
    {
        let mut board = Board::begin(alloc, catalog, limits)?;
        board.insert_all(rows)?;
        board.post_all(queries)?;
        Ok(board)
    }
}
