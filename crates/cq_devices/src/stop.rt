//! Why a run stops before its end.

use crate::source::Failed;
use std::alloc::{AllocError, AllocFailed};
use thiserror::Error;

/// Why a call that reads or writes stops before its end.
#[derive(Clone, Copy, Debug, PartialEq, Eq, Error)]
pub enum Stop {
    /// A read failed, or the source gave no end.
    #[error("read failed at turn {turn}")]
    Read {
        /// The number of that read, from 1.
        turn: u64,
    },
    /// A write failed.
    #[error("write failed")]
    Write,
    /// An allocation failed.
    #[error("out of memory")]
    NoMemory,
}

impl From<AllocError> for Stop {
    ghost use Rattle.std.specs.Prelude.{◌≡◌};
    ghost use Rattle.cq_devices.specs.declared.stop.Stop.TheVariants.{NoMemory};

    ghost from_gives = { λ _ e. e ≡ NoMemory };

    fn from(_e: AllocError) -> Stop {
        Stop::NoMemory
    }
}

impl<T: Drop> From<AllocFailed<T>> for Stop {
    ghost use Rattle.std.specs.Prelude.{◌≡◌};
    ghost use Rattle.cq_devices.specs.declared.stop.Stop.TheVariants.{NoMemory};

    ghost from_gives = { λ _ e. e ≡ NoMemory };

    fn from(_e: AllocFailed<T>) -> Stop {
        Stop::NoMemory
    }
}

impl From<Failed> for Stop {
    ghost use Rattle.std.specs.Prelude.{◌≡◌};
    ghost use Rattle.cq_devices.specs.declared.stop.Stop.TheVariants.{Write};

    ghost from_gives = { λ _ e. e ≡ Write };

    fn from(_e: Failed) -> Stop {
        Stop::Write
    }
}
