//! States that take edits.

ghost use Rattle.std.specs.Prelude.{◌≡◌, Option, Some, IfOk, OnOk, OnErr};

use std::alloc::{AllocError, AllocFailed};
use thiserror::Error;

/// An allocation failed.
#[derive(Clone, Copy, Debug, PartialEq, Eq, Error)]
#[error("out of memory")]
pub struct NoMemory;

impl From<AllocError> for NoMemory {
    ghost from_gives = { λ _ e. e ≡ record {} };

    fn from(_e: AllocError) -> NoMemory {
        NoMemory
    }
}

impl<T: Drop> From<AllocFailed<T>> for NoMemory {
    ghost from_gives = { λ _ e. e ≡ record {} };

    fn from(_e: AllocFailed<T>) -> NoMemory {
        NoMemory
    }
}

/// A state that takes edits one by one, and refuses some.
pub trait Live: Drop {
    /// What is asked of the state.
    type Edit: Drop;
    /// Why an edit is refused.
    type Why: Drop;
    /// What contracts see of a state. No value of it is made.
    type Content;

    // The content of a state.
    ghost content: { Self → Self.Content };

    // Why a content refuses an edit.
    ghost why: { Self.Content → Self.Edit → Option Self.Why };

    // The content after an edit.
    ghost after: { Self.Content → Self.Edit → Self.Content };

    /// Takes the edit, or tells why it is refused.
    ///
    /// # Errors
    /// `NoMemory` where an allocation failed. Nothing has changed then.
    fn admit(&mut self, edit: &Self::Edit) -> Result<Option<Self::Why>, NoMemory>
        ensures answer { IfOk result (λ answer. answer ≡ why (content self.old) edit.now) }
        ensures ok { OnOk result (content self.new ≡ after (content self.old) edit.now) }
        ensures err { OnErr result (content self.new ≡ content self.old) };

    /// A state of equal content.
    ///
    /// # Errors
    /// `NoMemory` where an allocation failed.
    fn copy(&self) -> Result<Self, NoMemory>
        ensures { IfOk result (λ state. content state ≡ content self.now) };

    /// An equal edit.
    ///
    /// # Errors
    /// `NoMemory` where an allocation failed.
    fn copy_edit(edit: &Self::Edit) -> Result<Self::Edit, NoMemory>
        ensures { IfOk result (λ copy. copy ≡ edit.now) };

    // A refused edit changes nothing.
    ghost refused: { (c : Self.Content) (e : Self.Edit) (reason : Self.Why) → why c e ≡ Some reason → after c e ≡ c };
}
