//! What is wrong with a text.

use std::alloc::{AllocError, AllocFailed};
use thiserror::Error;

/// The kind of a fault.
#[derive(Clone, Copy, Debug, PartialEq, Eq)]
pub enum Kind {
    /// A byte that begins no token.
    Token,
    /// A quoted text that is not good.
    Text,
    /// A number that is not good.
    Number,
    /// A token that the grammar does not allow at its place, or an end where it needs more.
    Shape,
    /// A text, an identifier, a list or a count that is over its limit.
    Limit,
    /// A variable of postconditions or heads that the body lacks.
    Unbound,
}

/// Why a text stands for nothing, or was not read.
#[derive(Clone, Copy, Debug, PartialEq, Eq, Error)]
pub enum TextFault {
    /// The first fault of the text.
    #[error("{kind:?} at {offset}")]
    At {
        /// Its kind.
        kind: Kind,
        /// Where it stands, in bytes from the text's first.
        offset: usize,
    },
    /// An allocation failed.
    #[error("out of memory")]
    NoMemory,
}

impl From<AllocError> for TextFault {
    ghost use Rattle.std.specs.Prelude.{◌≡◌};
    ghost use Rattle.cq_text.specs.declared.fault.TextFault.TheVariants.{NoMemory};

    ghost from_gives = { λ _ e. e ≡ NoMemory };

    fn from(_e: AllocError) -> TextFault {
        TextFault::NoMemory
    }
}

impl<T: Drop> From<AllocFailed<T>> for TextFault {
    ghost use Rattle.std.specs.Prelude.{◌≡◌};
    ghost use Rattle.cq_text.specs.declared.fault.TextFault.TheVariants.{NoMemory};

    ghost from_gives = { λ _ e. e ≡ NoMemory };

    fn from(_e: AllocFailed<T>) -> TextFault {
        TextFault::NoMemory
    }
}
