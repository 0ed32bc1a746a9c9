//! Blocks of keys: the atoms of one side of a query stand at keys that follow one another.

ghost use Rattle.std.specs.Prelude.{◌≡◌, ℕ, ◌+◌, ◌*◌, ◌<◌, ◌≤◌, ◌^◌, length, slice_get, OnOk, OnErr, None};
ghost use Rattle.std.specs.FinMap as map;
ghost use Rattle.cq_links.specs.Steps.Blocks.{PutsBlock, TakesBlock};

use cq_atom::{Atom, MAX_ATOMS};
use cq_index::AtomIndex;
use std::alloc::{AllocError, Allocator};

/// The atoms of each place below this one have keys.
pub const PLACES: usize = usize::MAX / MAX_ATOMS;

/// Takes the atoms of one side of the query at the place out. Takes no memory.
pub fn take_all<A: Allocator + Copy>(index: &mut AtomIndex<A>, place: usize, atoms: &[Atom<A>])
    requires fits { place * MAX_ATOMS + MAX_ATOMS < 2 ^ 64 }
    requires few { length atoms.now ≤ MAX_ATOMS }
    requires there { (i : ℕ) → i < length atoms.now → map.get index.old (place * MAX_ATOMS + i) ≡ slice_get atoms.now i }
    ensures { TakesBlock (place * MAX_ATOMS) (length atoms.now) index.old index.new }
{
    let first = place * MAX_ATOMS;
    for (i, atom) in atoms.iter().enumerate() {
        index.remove(first + i, atom);
    }
}

/// Puts the atoms of one side of a query in at the place, or changes nothing.
pub fn put_all<A: Allocator + Copy>(
    index: &mut AtomIndex<A>,
    place: usize,
    atoms: &[Atom<A>],
) -> Result<(), AllocError>
    requires fits { place * MAX_ATOMS + MAX_ATOMS < 2 ^ 64 }
    requires few { length atoms.now ≤ MAX_ATOMS }
    requires free { (i : ℕ) → i < length atoms.now → map.get index.old (place * MAX_ATOMS + i) ≡ None }
    ensures ok { OnOk result (PutsBlock (place * MAX_ATOMS) atoms.now index.old index.new) }
    ensures err { OnErr result (index.new ≡ index.old) }
{
    let first = place * MAX_ATOMS;
    for (i, atom) in atoms.iter().enumerate() {
        if let Err(refused) = index.add(first + i, atom) {
            take_all(index, place, &atoms[..i]);
            return Err(refused);
        }
    }
    Ok(())
}
