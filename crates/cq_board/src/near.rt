//! Which heads nearly supply a postcondition.

ghost use Rattle.std.specs.Prelude.{◌≡◌, ◌<◌, ◌≤◌, ◌++◌, ◌∷◌, [], ℕ, List, length, map, not, true, IsTrue, IfOk, OnOk};
ghost use Rattle.std.specs.List.{All, AllPairs, flat_map, prefix_len};
ghost use Rattle.cq_board.specs.Pool.{PendingQuery, name_of};
ghost use Rattle.cq_board.specs.Near.{differ, differences, misses, AreNearest, miss_named, miss_read};
ghost use Rattle.cq_board.specs.Steps.Nearest.{head_read, is_nearer, IsEarlier, miss_at};

use crate::supply::supplies;
use crate::views::name_of;
use cq_atom::{Atom, Meter, Name, Term};
use std::alloc::{AllocError, Allocator};

/// A head that does not unify with a postcondition of its relation and arity, over what holds a name.
#[derive(Clone, Copy, Drop)]
pub struct NearMiss<N> {
    /// The name of the query that offers.
    pub provider: N,
    /// The place of the head among the provider's heads, from 0.
    pub head: u8,
    /// At how many places two constants differ. There may be none, where a variable cannot be both of two constants.
    pub differences: usize,
}

/// How many near misses are reported at most.
const MOST: usize = 3;

fn differ<A: Allocator>(a: &Term<A>, b: &Term<A>) -> bool
    ensures { result ≡ differ a.now b.now }
{
    match (a.as_constant(), b.as_constant()) {
        (Some(c), Some(d)) => !c.is_same(d),
        _ => false,
    }
}

/// At how many places two constants differ.
fn differences<A: Allocator>(head: &[Term<A>], wanted: &[Term<A>]) -> usize
    requires { length head.now ≡ length wanted.now }
    ensures { result ≡ differences head.now wanted.now }
{
    let mut count = 0;
    for place in 0..head.len() {
        if differ(&head[place], &wanted[place]) {
            count += 1;
        }
    }
    count
}

/// Whether the head has the relation and the arity of the postcondition, and does not unify with it.
fn misses<A: Allocator>(wanted: &Atom<A>, head: &Atom<A>) -> bool
    ensures { result ≡ misses wanted.now head.now }
{
    head.relation() == wanted.relation()
        && head.terms().len() == wanted.terms().len()
        && !supplies(head, wanted, &mut Meter::new())
}

/// A head of a pending query, over what holds an atom: the number of the query in posting order, and the place among its heads.
#[derive(Clone, Copy, Drop)]
pub(crate) struct Head<T> {
    pub(crate) number: usize,
    pub(crate) place: u8,
    pub(crate) atom: T,
}

/// Whether the one miss comes before the other: by differences, then by posting, then by head.
fn is_nearer(one: &(usize, usize, u8), other: &(usize, usize, u8)) -> bool
    ensures { result ≡ is_nearer one.now other.now }
{
    one < other
}

/// The place of a miss among sorted ones: after those that it is not nearer than.
fn place_for(kept: &[(usize, usize, u8)], miss: &(usize, usize, u8)) -> usize
    ensures { result ≡ prefix_len (λ other. not (is_nearer miss.now other)) kept.now }
{
    kept.iter()
        .take_while(|other| !is_nearer(miss, other))
        .count()
}

/// Keeps the nearest of those that are kept and of one more.
fn keep_miss<A: Allocator>(
    kept: &mut Vec<(usize, usize, u8), A>,
    miss: (usize, usize, u8),
) -> Result<(), AllocError>
    ensures { (all : List (ℕ × ℕ × ℕ)) → AreNearest all kept.old.items → OnOk result (AreNearest (all ++ miss ∷ []) kept.new.items) }
{
    let place = place_for(kept, &miss);
    kept.insert(place, miss)?;
    kept.truncate(MOST);
    Ok(())
}

/// The same, where the head misses the postcondition.
fn keep_head<A: Allocator>(
    kept: &mut Vec<(usize, usize, u8), A>,
    wanted: &Atom<A>,
    head: &Head<&Atom<A>>,
) -> Result<(), AllocError>
    ensures { (all : List (ℕ × ℕ × ℕ)) → AreNearest all kept.old.items → OnOk result (AreNearest (all ++ miss_at wanted.now (head_read head.now)) kept.new.items) }
{
    if misses(wanted, head.atom) {
        let differences = differences(head.atom.terms(), wanted.terms());
        keep_miss(kept, (differences, head.number, head.place))?;
    }
    Ok(())
}

/// Whether as many misses are kept as are reported, each with so few differences.
fn is_settled(kept: &[(usize, usize, u8)], least: usize) -> bool
    ensures many { IsTrue result → length kept.now ≡ 3 }
    ensures few { IsTrue result → All (λ miss. miss.0 ≤ least) kept.now }
{
    kept.len() == MOST && kept.iter().all(|miss| miss.0 <= least)
}

/// The nearest of the heads that miss the postcondition. The heads stand in posting order, and each that misses differs at
/// so many places at least: so heads that come later are not looked at once those that are kept differ at no more.
pub(crate) fn nearest_of<A: Allocator>(
    alloc: A,
    wanted: &Atom<A>,
    heads: &[Head<&Atom<A>>],
    least: usize,
) -> Result<Vec<(usize, usize, u8), A>, AllocError>
    requires rising { AllPairs (λ g h. IsEarlier (head_read g) (head_read h)) heads.now }
    requires least { All (λ h. misses wanted.now h.atom.now ≡ true → least ≤ differences h.atom.now.terms wanted.now.terms) heads.now }
    ensures { IfOk result (λ kept. AreNearest (flat_map (miss_at wanted.now) (map head_read heads.now)) kept.items) }
{
    let mut kept = Vec::with_capacity(alloc, MOST + 1)?;
    for head in heads {
        if is_settled(&kept, least) {
            break;
        }
        keep_head(&mut kept, wanted, head)?;
    }
    Ok(kept)
}

/// The misses by the names of their queries.
pub(crate) fn named<'a, A: Allocator>(
    alloc: A,
    names: &[&'a Name<A>],
    found: &[(usize, usize, u8)],
) -> Result<Vec<NearMiss<&'a Name<A>>, A>, AllocError>
    requires { All (λ miss. miss.1 < length names.now) found.now }
    ensures { (pending : List PendingQuery) → map (λ name. name.now) names.now ≡ map name_of pending → IfOk result (λ near. map (miss_read (λ name. name.now)) near.items ≡ map (miss_named pending) found.now) }
{
    let mut near = Vec::new(alloc);
    for miss in found {
        near.push(NearMiss {
            provider: name_of(names, miss.1),
            head: miss.2,
            differences: miss.0,
        })?;
    }
    Ok(near)
}
