//! What is kept at each place.

ghost use Rattle.std.specs.Prelude.{◌≡◌, OnOk, OnErr, Some, None, IsSome};
ghost use Rattle.cq_index.specs.Steps.Kept.{AreIndexed, atom_at, Sets};

use crate::buckets::{Buckets, put_both, take_both};
use cq_atom::Atom;
use indexmap::IndexMap;
use std::alloc::{AllocError, Allocator};
use std::hash::{BuildHasherDefault, FoldHasher};

/// The atom at each place.
pub type Places<A> = IndexMap<usize, Atom<A>, BuildHasherDefault<FoldHasher>, A>;

/// Keeps a copy of the atom at the place, or changes nothing that is seen.
pub fn keep<A: Allocator + Copy>(
    alloc: A,
    places: &mut Places<A>,
    buckets: &mut Buckets<A>,
    place: usize,
    atom: &Atom<A>,
) -> Result<(), AllocError>
    requires indexed { AreIndexed places.old.entries buckets.old.entries }
    requires absent { atom_at places.old.entries place ≡ None }
    ensures indexed { AreIndexed places.new.entries buckets.new.entries }
    ensures ok { OnOk result (Sets places.old.entries place (Some atom.now) places.new.entries) }
    ensures err { OnErr result (places.new.entries ≡ places.old.entries) }
{
    places.reserve(1)?;
    let kept = atom.copy()?;
    put_both(alloc, buckets, atom, place)?;
    let _none = places.insert(place, kept).unwrap();
    Ok(())
}

/// Lets go of what is kept at the place. Takes no memory.
pub fn forget<A: Allocator + Copy>(places: &mut Places<A>, buckets: &mut Buckets<A>, place: usize)
    requires indexed { AreIndexed places.old.entries buckets.old.entries }
    requires present { IsSome (atom_at places.old.entries place) }
    ensures indexed { AreIndexed places.new.entries buckets.new.entries }
    ensures out { Sets places.old.entries place None places.new.entries }
{
    let atom = places.swap_remove(&place).unwrap();
    take_both(buckets, &atom, place);
}
