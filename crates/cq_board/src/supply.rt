//! Which head supplies which postcondition.

ghost use Rattle.std.specs.Prelude.{◌≡◌, ◌+◌, min};
ghost use Rattle.cq_board.specs.Steps.Supply.{unifies};

use cq_atom::{Atom, Meter, unify};
use std::alloc::Allocator;

/// Whether the head supplies the postcondition, by the test by which the edges of a pool are
/// defined. The meter counts the test.
pub(crate) fn supplies<A: Allocator>(head: &Atom<A>, post: &Atom<A>, tests: &mut Meter) -> bool
    ensures test { result ≡ unifies head.now post.now }
    ensures ticks { tests.new ≡ min (tests.old + 1) u64.MAX }
{
    unify(head, post, tests)
}
