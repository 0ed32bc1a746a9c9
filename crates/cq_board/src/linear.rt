//! Atoms in which no variable stands twice.

ghost use Rattle.std.specs.Prelude.{◌≡◌, ◌<◌, ℕ, length, slice_index_or, false, IsTrue, IsFalse};
ghost use Rattle.cq_atom.specs.Atom.{TermContent};
ghost use Rattle.cq_board.specs.Steps.Linear.{is_one_variable, IsSoundTerm, IsLinear};

use cq_atom::Term;
use std::alloc::Allocator;

fn is_one_variable<A: Allocator>(one: &Term<A>, other: &Term<A>) -> bool
    ensures same { result ≡ is_one_variable one.now other.now }
{
    match (one.as_variable(), other.as_variable()) {
        (Some(x), Some(y)) => x == y,
        _ => false,
    }
}

/// Whether a term before the place is the variable there.
fn stands_before<A: Allocator>(terms: &[Term<A>], place: usize) -> bool
    requires { place < length terms.now }
    ensures { IsFalse result → (i : ℕ) (d : TermContent) → i < place → is_one_variable (slice_index_or terms.now i d) (slice_index_or terms.now place d) ≡ false }
{
    for before in 0..place {
        if is_one_variable(&terms[before], &terms[place]) {
            return true;
        }
    }
    false
}

/// Lets it be known that a constant is a value.
fn know<A: Allocator>(term: &Term<A>)
    ensures { IsSoundTerm term.now }
{
    let _known = term.as_constant();
}

/// Whether no variable stands at two places.
pub(crate) fn is_linear<A: Allocator>(terms: &[Term<A>]) -> bool
    ensures { IsTrue result → IsLinear terms.now }
{
    for place in 0..terms.len() {
        if stands_before(terms, place) {
            return false;
        }
        know(&terms[place]);
    }
    true
}
