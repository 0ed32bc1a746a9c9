//! What a roster keeps.

ghost use Rattle.std.specs.Prelude.{◌≡◌, ◌++◌, ◌∷◌, [], false, OnOk, OnErr, None};
ghost use Rattle.std.specs.Map.{values_of};
ghost use Rattle.cq_roster.specs.Roster.{seat_of, place_named, is_taken_place, without};
ghost use Rattle.cq_roster.specs.Steps.Kept.{IsKept};

use crate::seat::Seat;
use cq_atom::Name;
use indexmap::IndexMap;
use std::alloc::{AllocError, Allocator};
use std::collections::BTreeMap;
use std::hash::{BuildHasherDefault, FoldHasher};

/// Seats by their numbers, which rise in the order in which they came.
pub type Order<A> = BTreeMap<u64, Seat<Name<A>>, A>;

/// The number of the seat of each name.
pub type Numbers<A> = IndexMap<Name<A>, u64, BuildHasherDefault<FoldHasher>, A>;

/// The seats by their numbers, the numbers by their names, and a number above all of them.
#[derive(Drop)]
pub struct Kept<A: Allocator> {
    pub order: Order<A>,
    pub numbers: Numbers<A>,
    pub next: u64,
}

/// The place of the seat of that name.
pub fn place_of<A: Allocator + Copy>(kept: &Kept<A>, name: &Name<A>) -> Option<usize>
    requires { IsKept kept.now.order.entries kept.now.numbers.entries kept.now.next }
    ensures { result ≡ place_named name.now (values_of kept.now.order.entries) }
{
    match kept.numbers.get(name) {
        Some(number) => {
            let seat = kept.order.get(number).unwrap();
            Some(seat.place)
        }
        None => None,
    }
}

/// Keeps a seat after all others, or changes nothing that is seen.
pub fn keep<A: Allocator + Copy>(
    kept: &mut Kept<A>,
    name: &Name<A>,
    place: usize,
) -> Result<(), AllocError>
    requires kept { IsKept kept.old.order.entries kept.old.numbers.entries kept.old.next }
    requires absent { place_named name.now (values_of kept.old.order.entries) ≡ None }
    requires free { is_taken_place place (values_of kept.old.order.entries) ≡ false }
    ensures kept { IsKept kept.new.order.entries kept.new.numbers.entries kept.new.next }
    ensures ok { OnOk result (values_of kept.new.order.entries ≡ values_of kept.old.order.entries ++ seat_of name.now place ∷ []) }
    ensures err { OnErr result (values_of kept.new.order.entries ≡ values_of kept.old.order.entries) }
{
    if kept.next == u64::MAX {
        return Err(AllocError);
    }
    kept.numbers.reserve(1)?;
    let key = name.copy()?;
    let name = name.copy()?;
    kept.order.insert(kept.next, Seat { name, place })?;
    let _none = kept.numbers.insert(key, kept.next).unwrap();
    kept.next += 1;
    Ok(())
}

/// Lets go of the seat of that name, and answers its place. Takes no memory.
pub fn forget<A: Allocator + Copy>(kept: &mut Kept<A>, name: &Name<A>) -> Option<usize>
    requires { IsKept kept.old.order.entries kept.old.numbers.entries kept.old.next }
    ensures kept { IsKept kept.new.order.entries kept.new.numbers.entries kept.new.next }
    ensures place { result ≡ place_named name.now (values_of kept.old.order.entries) }
    ensures out { values_of kept.new.order.entries ≡ without name.now (values_of kept.old.order.entries) }
{
    match kept.numbers.swap_remove(name) {
        Some(number) => {
            let seat = kept.order.remove(&number).unwrap();
            Some(seat.place)
        }
        None => None,
    }
}
