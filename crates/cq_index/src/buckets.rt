//! Buckets of places.

ghost use Rattle.std.specs.Prelude.{◌≡◌, ◌||◌, ◌&&◌, ℕ, false, not, nat_eq, IsTrue, IsFalse, IfOk, OnOk, OnErr};
ghost use Rattle.std.specs.HashSet.{contains};
ghost use Rattle.cq_index.specs.Steps.Keys.{asked_key, key_at, key_of, group_of};
ghost use Rattle.cq_index.specs.Steps.Buckets.{Adds, IsBut, holds, is_in, Puts, Takes, Keeps, IsNowhere, PutsBoth, TakesBoth};

use crate::key::{Asked, Key, Reach, asked_of};
use cq_atom::Atom;
use indexmap::{IndexMap, IndexSet};
use std::alloc::{AllocError, Allocator};
use std::hash::{BuildHasherDefault, FoldHasher};

/// A set of places.
type Places<A> = IndexSet<usize, BuildHasherDefault<FoldHasher>, A>;

/// Places, in no order that anyone asks for. One that is alone takes no memory; more stand apart, so that most buckets are
/// small.
#[derive(Drop)]
pub enum Bucket<A: Allocator> {
    One(usize),
    Many(Box<Places<A>, A>),
}

/// Under each key the places of the atoms that belong there. A key without places has no bucket.
pub type Buckets<A> = IndexMap<Key<A>, Bucket<A>, BuildHasherDefault<FoldHasher>, A>;

/// The set of both places.
fn both_of<A: Allocator + Copy>(
    alloc: A,
    one: usize,
    other: usize,
) -> Result<Box<Places<A>, A>, AllocError>
    ensures { IfOk result (λ places. (p : ℕ) → contains nat_eq places.value p ≡ (nat_eq other p || nat_eq p one)) }
{
    let mut places = IndexSet::new(alloc);
    places.insert(one)?;
    places.insert(other)?;
    Ok(Box::new(alloc, places)?)
}

/// Takes the place out of the set. Answers whether none is left.
fn take_from<A: Allocator + Copy>(places: &mut Places<A>, place: usize) -> bool
    ensures left { (p : ℕ) → contains nat_eq places.new p ≡ (not (nat_eq place p) && contains nat_eq places.old p) }
    ensures none { IsTrue result → (p : ℕ) → contains nat_eq places.new p ≡ false }
{
    places.swap_remove(&place);
    places.is_empty()
}

impl<A: Allocator + Copy> Bucket<A> {
    /// Puts the place in.
    fn put(&mut self, alloc: A, place: usize) -> Result<(), AllocError>
        ensures ok { OnOk result ((p : ℕ) → is_in self.new p ≡ (nat_eq place p || is_in self.old p)) }
        ensures err { OnErr result ((p : ℕ) → is_in self.new p ≡ is_in self.old p) }
    {
        match self {
            Bucket::One(only) => {
                let both = both_of(alloc, *only, place)?;
                *self = Bucket::Many(both);
            }
            Bucket::Many(places) => {
                places.insert(place)?;
            }
        }
        Ok(())
    }

    /// Takes the place out, where others are left. Answers whether none is left.
    fn take(&mut self, place: usize) -> bool
        ensures left { IsFalse result → (p : ℕ) → is_in self.new p ≡ (not (nat_eq place p) && is_in self.old p) }
        ensures none { IsTrue result → (p : ℕ) → (not (nat_eq place p) && is_in self.old p) ≡ false }
    {
        match self {
            Bucket::One(only) => *only == place,
            Bucket::Many(places) => take_from(places, place),
        }
    }
}

/// Begins a bucket with the place under a key that has none.
fn begin_bucket<A: Allocator + Copy>(
    buckets: &mut Buckets<A>,
    atom: &Atom<A>,
    reach: Reach,
    place: usize,
) -> Result<(), AllocError>
    requires { (p : ℕ) → holds buckets.old.entries (key_at reach atom.now) p ≡ false }
    ensures ok { OnOk result (Puts buckets.old.entries (key_at reach atom.now) place buckets.new.entries) }
    ensures err { OnErr result (Keeps buckets.old.entries buckets.new.entries) }
{
    let key = Key::of(atom, reach)?;
    buckets.insert(key, Bucket::One(place))?;
    Ok(())
}

/// Puts the place into the bucket of the key.
fn put<A: Allocator + Copy>(
    alloc: A,
    buckets: &mut Buckets<A>,
    atom: &Atom<A>,
    reach: Reach,
    place: usize,
) -> Result<(), AllocError>
    ensures ok { OnOk result (Puts buckets.old.entries (key_at reach atom.now) place buckets.new.entries) }
    ensures err { OnErr result (Keeps buckets.old.entries buckets.new.entries) }
{
    match buckets.get_mut(asked_of(atom, reach)) {
        Some(bucket) => bucket.put(alloc, place),
        None => begin_bucket(buckets, atom, reach, place),
    }
}

/// Takes the place out of the bucket of the key, where others are left there. Answers whether none is left.
fn take_place<A: Allocator + Copy>(
    buckets: &mut Buckets<A>,
    asked: Asked<'_, A>,
    place: usize,
) -> bool
    ensures rest { IsBut buckets.old.entries (asked_key asked.entry) buckets.new.entries }
    ensures left { IsFalse result → Takes buckets.old.entries (asked_key asked.entry) place buckets.new.entries }
    ensures none { IsTrue result → (p : ℕ) → (not (nat_eq place p) && holds buckets.old.entries (asked_key asked.entry) p) ≡ false }
{
    match buckets.get_mut(asked) {
        Some(bucket) => bucket.take(place),
        None => false,
    }
}

/// Takes the place out of the bucket of the key, and drops a bucket that is left empty. Takes no
/// memory.
fn take<A: Allocator + Copy>(buckets: &mut Buckets<A>, asked: Asked<'_, A>, place: usize)
    ensures { Takes buckets.old.entries (asked_key asked.entry) place buckets.new.entries }
{
    if take_place(buckets, asked, place) {
        let _empty = buckets.swap_remove(asked);
    }
}

/// Puts the place into the buckets of the atom: that of its relation, arity and first argument, and that of its
/// relation and arity. Or into none.
pub fn put_both<A: Allocator + Copy>(
    alloc: A,
    buckets: &mut Buckets<A>,
    atom: &Atom<A>,
    place: usize,
) -> Result<(), AllocError>
    requires { IsNowhere buckets.old.entries place }
    ensures ok { OnOk result (PutsBoth buckets.old.entries (key_of atom.now) (group_of atom.now) place buckets.new.entries) }
    ensures err { OnErr result (Keeps buckets.old.entries buckets.new.entries) }
{
    put(alloc, buckets, atom, Reach::Own, place)?;
    match put(alloc, buckets, atom, Reach::Group, place) {
        Ok(()) => Ok(()),
        Err(refused) => {
            take(buckets, asked_of(atom, Reach::Own), place);
            Err(refused)
        }
    }
}

/// Takes the place out of the buckets of the atom. Takes no memory.
pub fn take_both<A: Allocator + Copy>(buckets: &mut Buckets<A>, atom: &Atom<A>, place: usize)
    ensures { TakesBoth buckets.old.entries (key_of atom.now) (group_of atom.now) place buckets.new.entries }
{
    take(buckets, asked_of(atom, Reach::Own), place);
    take(buckets, asked_of(atom, Reach::Group), place);
}

/// Adds the places in the bucket of the key.
pub fn add_places<A: Allocator + Copy>(
    places: &mut Vec<usize, A>,
    buckets: &Buckets<A>,
    asked: Asked<'_, A>,
) -> Result<(), AllocError>
    ensures { OnOk result (Adds places.old.items (holds buckets.now.entries (asked_key asked.entry)) places.new.items) }
{
    match buckets.get(asked) {
        Some(Bucket::One(place)) => places.push(*place)?,
        Some(Bucket::Many(many)) => places.extend_from_slice(many.as_slice())?,
        None => {}
    }
    Ok(())
}
