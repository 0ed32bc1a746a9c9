//! Which need is to be supplied next.

ghost use Rattle.std.specs.Prelude.{◌≡◌, ◌≤◌, ◌<◌, ◌↔◌, ℕ, true, false, List, IsTrue, MatchOption, nat_eq, take, length, slice_index, ◌+◌, ◌^◌};
ghost use Rattle.std.specs.HashMap.{get};
ghost use Rattle.std.specs.List.{All, Contains};
ghost use Rattle.cq_select.specs.Selection.{IsSupplied, IsSelection};
ghost use Rattle.cq_select.specs.Steps.Facts.{asker, asked_by, chosen_of, AreSeats, IsFirstUnmet, IsScanning, IsChoosing};

use crate::supply::{Supply, needs_of, owner_of, suppliers_of};
use crate::trail::{Choice, Frame, Seats, Trail, seat_of};
use std::alloc::Allocator;

/// Whether the candidate is one of those chosen.
fn is_chosen<A: Allocator>(supply: &Supply<A>, seats: &Seats<A>, candidate: usize) -> bool
    ensures { (below : List ℕ) → AreSeats supply.now below (get nat_eq seats.now) → IsTrue result ↔ Contains below candidate }
{
    match owner_of(supply, candidate) {
        Some(owner) => match seat_of(seats, owner) {
            Some(member) => member == candidate,
            None => false,
        },
        None => false,
    }
}

/// Whether one of those chosen supplies the atom.
fn is_supplied<A: Allocator>(supply: &Supply<A>, seats: &Seats<A>, atom: usize) -> bool
    ensures { (below : List ℕ) → AreSeats supply.now below (get nat_eq seats.now) → IsTrue result ↔ IsSupplied supply.now below atom }
{
    let suppliers = suppliers_of(supply, atom);
    for candidate in suppliers {
        if is_chosen(supply, seats, *candidate) {
            return true;
        }
    }
    false
}

/// The first place, from there on, of an atom that nobody chosen supplies.
fn first_unmet<A: Allocator>(
    supply: &Supply<A>,
    seats: &Seats<A>,
    atoms: &[usize],
    from: usize,
) -> Option<usize>
    ensures { (below : List ℕ) → AreSeats supply.now below (get nat_eq seats.now) → All (IsSupplied supply.now below) (take from atoms.now) → MatchOption result (All (IsSupplied supply.now below) atoms.now) (IsFirstUnmet supply.now below atoms.now) }
{
    for place in from..atoms.len() {
        if !is_supplied(supply, seats, atoms[place]) {
            return Some(place);
        }
    }
    None
}

/// Who asks by the list of that number. `None` asks for what is wanted.
fn asker<A: Allocator>(frames: &[Frame<A>], list: usize) -> Option<usize>
    requires { list ≤ length frames.now }
    ensures { result ≡ asker (chosen_of frames.now) list }
{
    if list == 0 {
        None
    } else {
        Some(frames[list - 1].member)
    }
}

/// The atoms that the member asks for.
fn asked_by<'a, A: Allocator>(
    supply: &'a Supply<A>,
    wanted: &'a [usize],
    asker: Option<usize>,
) -> &'a [usize]
    ensures { result.now ≡ asked_by supply.now wanted.now asker }
{
    match asker {
        Some(member) => needs_of(supply, member),
        None => wanted,
    }
}

/// Opens the choice of the need at that place of the list.
fn open<A: Allocator>(choice: &mut Choice<A>, atoms: &[usize], place: usize, cause: Option<usize>)
    requires { place < length atoms.now }
    ensures { choice.new ≡ record choice.old { place = place; atom = slice_index atoms.now place; cause = cause } }
{
    choice.atom = atoms[place];
    choice.place = place;
    choice.cause = cause;
}

/// Goes on to the next list.
fn skip<A: Allocator>(choice: &mut Choice<A>)
    requires { choice.old.list + 1 < 2 ^ 64 }
    ensures { choice.new ≡ record choice.old { list = choice.old.list + 1; place = 0 } }
{
    choice.list += 1;
    choice.place = 0;
}

/// Opens the choice of the first need that is not met. There is none where all are met.
pub fn next_need<A: Allocator>(trail: &mut Trail<A>, supply: &Supply<A>, wanted: &[usize]) -> bool
    requires { IsScanning supply.now wanted.now trail.old }
    ensures choice { result ≡ true → IsChoosing supply.now wanted.now trail.new }
    ensures complete { result ≡ false → IsSelection supply.now wanted.now (chosen_of trail.new.frames.items) }
{
    while trail.choice.list <= trail.frames.len() {
        let cause = asker(&trail.frames, trail.choice.list);
        let atoms = asked_by(supply, wanted, cause);
        match first_unmet(supply, &trail.seats, atoms, trail.choice.place) {
            Some(place) => {
                open(&mut trail.choice, atoms, place, cause);
                return true;
            }
            None => skip(&mut trail.choice),
        }
    }
    false
}
