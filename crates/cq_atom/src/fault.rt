//! Why something is no name, value, atom, row or query.

use std::alloc::{AllocError, AllocFailed};
use thiserror::Error;

/// A part of a query `{posts} heads <- body`.
#[derive(Clone, Copy, Debug, PartialEq, Eq)]
pub enum Part {
    /// The postconditions, which heads of pending queries must supply.
    Posts,
    /// The heads, which the query offers.
    Heads,
    /// The body, which reads rows.
    Body,
}

/// What a constructor refuses. Each one says which of these it answers, and in which order;
/// `NoMemory` always comes last.
#[derive(Clone, Copy, Debug, PartialEq, Eq, Error)]
pub enum Bad {
    /// The bytes are no name, or no name of the kind that was asked for.
    #[error("not a name")]
    BadName,
    /// The bytes are no text.
    #[error("not a text")]
    BadText,
    /// An atom or a row has no term, or more than sixteen.
    #[error("an atom has 1 to 16 terms")]
    BadArity,
    /// A part of a query has more than sixteen atoms.
    #[error("more than 16 atoms in {part:?}")]
    TooMany {
        /// The first such part.
        part: Part,
    },
    /// A query offers nothing.
    #[error("no head")]
    NoHead,
    /// A variable of the postconditions or heads is not in the body.
    #[error("in {part:?}, atom {atom}, term {term}: a variable that is not in the body")]
    Unbound {
        /// The part that the variable stands in.
        part: Part,
        /// The place of the atom in that part, from 0.
        atom: usize,
        /// The place of the term in that atom, from 0.
        term: usize,
    },
    /// An allocation failed.
    #[error("out of memory")]
    NoMemory,
}

impl From<AllocError> for Bad {
    ghost use Rattle.std.specs.Prelude.{◌≡◌};
    ghost use Rattle.cq_atom.specs.declared.fault.Bad.TheVariants.{NoMemory};

    ghost from_gives = { λ _ e. e ≡ NoMemory };

    fn from(_e: AllocError) -> Bad {
        Bad::NoMemory
    }
}

impl<T: Drop> From<AllocFailed<T>> for Bad {
    ghost use Rattle.std.specs.Prelude.{◌≡◌};
    ghost use Rattle.cq_atom.specs.declared.fault.Bad.TheVariants.{NoMemory};

    ghost from_gives = { λ _ e. e ≡ NoMemory };

    fn from(_e: AllocFailed<T>) -> Bad {
        Bad::NoMemory
    }
}
