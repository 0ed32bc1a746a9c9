//! What a thread passes before it goes on, and what a submit passes before its publish.

ghost use Rattle.std.specs.Prelude.{ℕ, length, ⊤};
ghost use Rattle.cq_desk.specs.History.{edits_of};

use crate::desk::Desk;
use crate::live::Live;
use crate::publisher::Publisher;
use std::alloc::Allocator;

/// What holds a thread before it goes on. It may wait.
pub trait Gate: Sync {
    /// Returns where the thread may go on.
    fn pass(&self);
}

/// What a submit passes between its last entry and its publish. A checkpoint may wait, and look at the
/// desk, of which it changes nothing.
pub trait Checkpoint {
    // What it is made of a checkpoint to let one submit pass, by how many entries the journal has, and how many of them are published.
    ghost passed: { Self → ℕ → ℕ → Self → Type 0 };

    /// Returns where the submit may go on.
    fn let_pass<L: Live, P: Publisher<L>, A: Allocator + Copy>(&mut self, desk: &Desk<L, P, A>)
        ensures { passed self.old (length desk.now.journal) (length (edits_of (P.shown desk.now.publisher))) self.new };
}

/// A gate and a checkpoint that holds nobody.
#[derive(Clone, Copy, Debug)]
pub struct OpenGate;

impl Gate for OpenGate {
    fn pass(&self) {}
}

impl Checkpoint for OpenGate {
    ghost passed = { λ _ _ _ _. ⊤ };

    fn let_pass<L: Live, P: Publisher<L>, A: Allocator + Copy>(&mut self, _desk: &Desk<L, P, A>) {}
}
