//! Why files are not served.

ghost use Rattle.std.specs.Prelude.{◌≡◌, ◌≤◌, ◌⊎◌, Some, IfSome};
ghost use Rattle.cq_sessions.specs.Steps.Rooms.{rank};

use cq_room::RoomFault;
use std::alloc::{AllocError, AllocFailed};
use thiserror::Error;

/// Why SETUP and files were not served, or their script was not written whole.
#[derive(Clone, Copy, Debug, PartialEq, Eq, Error)]
pub enum SessionsFault {
    /// The writer failed.
    #[error("write failed")]
    Write,
    /// A session got no place among the readers, or a look was refused.
    #[error("no reader place")]
    Places,
    /// A thread was not started.
    #[error("no thread")]
    Thread,
    /// An allocation failed.
    #[error("out of memory")]
    NoMemory,
}

/// Why SETUP and files were not served. Nothing is written then.
#[derive(Clone, Copy, Debug, PartialEq, Eq)]
pub(crate) enum ServeFault {
    /// A session got no place among the readers, a look was refused, or the journal held other entries than those that were told.
    Places,
    /// A thread was not started.
    Thread,
    /// An allocation failed.
    NoMemory,
}

impl ServeFault {
    /// How a room that was not begun or opened is reported. There are as many sessions as files, so their number is right.
    pub(crate) fn of_room(fault: RoomFault) -> ServeFault {
        match fault {
            RoomFault::Places => ServeFault::Places,
            RoomFault::Sessions | RoomFault::NoMemory => ServeFault::NoMemory,
        }
    }

    /// Which of two faults is answered: `Places` before `Thread`, and that before out of memory.
    pub(crate) fn or_before(self, other: Option<ServeFault>) -> ServeFault
        ensures one { (result ≡ self) ⊎ (other ≡ Some result) }
        ensures this { rank result ≤ rank self }
        ensures that { IfSome other (λ fault. rank result ≤ rank fault) }
    {
        match (self, other) {
            (ServeFault::Places, _) | (_, Some(ServeFault::Places)) => ServeFault::Places,
            (ServeFault::Thread, _) | (_, Some(ServeFault::Thread)) => ServeFault::Thread,
            _ => ServeFault::NoMemory,
        }
    }
}

impl From<AllocError> for ServeFault {
    ghost use Rattle.cq_sessions.specs.declared.fault.ServeFault.TheVariants.{NoMemory};

    ghost from_gives = { λ _ e. e ≡ NoMemory };

    fn from(_e: AllocError) -> ServeFault {
        ServeFault::NoMemory
    }
}

impl<T: Drop> From<AllocFailed<T>> for ServeFault {
    ghost use Rattle.cq_sessions.specs.declared.fault.ServeFault.TheVariants.{NoMemory};

    ghost from_gives = { λ _ e. e ≡ NoMemory };

    fn from(_e: AllocFailed<T>) -> ServeFault {
        ServeFault::NoMemory
    }
}

impl From<ServeFault> for SessionsFault {
    ghost use Rattle.cq_sessions.specs.Steps.Rooms.{sessions_fault};

    ghost from_gives = { λ fault e. e ≡ sessions_fault fault };

    fn from(fault: ServeFault) -> SessionsFault {
        match fault {
            ServeFault::Places => SessionsFault::Places,
            ServeFault::Thread => SessionsFault::Thread,
            ServeFault::NoMemory => SessionsFault::NoMemory,
        }
    }
}
