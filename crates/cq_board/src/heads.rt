//! The heads of the pending queries by relation and arity, and which of them nearly supply a postcondition.

ghost use Rattle.std.specs.Prelude.{◌≡◌, ◌≤◌, ◌++◌, ◌∷◌, [], ℕ, List, Some, length, map, true, IsTrue, IfOk, OnOk};
ghost use Rattle.std.specs.List.{All, flat_map, enumerate_from};
ghost use Rattle.std.specs.Option.{option_copied};
ghost use Rattle.cq_atom.specs.declared.limits.TheConstants.{MAX_ATOMS};
ghost use Rattle.cq_board.specs.Near.{differences, misses, misses_of, AreNearest, miss_named, miss_read, post_named, misses_named};
ghost use Rattle.cq_board.specs.Steps.Heads.{AreTold, head_if, heads_at, heads_in, heads_of, IsTold, kept_under};
ghost use Rattle.cq_board.specs.Steps.Linear.{IsLinear};
ghost use Rattle.cq_board.specs.Steps.Nearest.{head_read};

use crate::board::Board;
use crate::linear::is_linear;
use crate::near::{Head, NearMiss, named, nearest_of};
use cq_atom::{Atom, Name};
use cq_grounded::GroundedQueries;
use cq_roster::Seat;
use std::alloc::{AllocError, Allocator, Global};
use std::collections::HashMap;
use std::hash::{BuildHasherDefault, FoldHasher};
use std::marker::Model;
use std::mem;

/// Heads of one relation and arity, in posting order, over what holds an atom.
#[derive(Drop)]
pub(crate) struct Group<T, A: Allocator> {
    heads: Vec<Head<T>, A>,
    /// Whether no variable stands twice in any of them.
    linear: bool,
}

/// Under each relation and arity its heads. One without heads has no group.
type Groups<'a, A> = HashMap<
    (&'a str, usize),
    Group<&'a Atom<A>, A>,
    BuildHasherDefault<FoldHasher>,
    A,
>;

/// Whether that was so before, and no variable stands twice in the atom.
fn is_still_linear<A: Allocator>(linear: bool, atom: &Atom<A>) -> bool
    ensures before { IsTrue result → linear ≡ true }
    ensures atom { IsTrue result → IsLinear atom.now.terms }
{
    linear && is_linear(atom.terms())
}

/// Puts the head after the others of its group.
fn push<'a, A: Allocator>(
    group: &mut Group<&'a Atom<A>, A>,
    head: &Head<&'a Atom<A>>,
) -> Result<(), AllocError>
    ensures heads { OnOk result (heads_in (Some group.new) ≡ heads_in (Some group.old) ++ head_read head.now ∷ []) }
    ensures told { OnOk result (IsTold group.old → IsTold group.new) }
{
    group.heads.push(*head)?;
    group.linear = is_still_linear(group.linear, head.atom);
    Ok(())
}

/// At how many places a head of the group that misses the postcondition differs at least. Where no variable stands twice,
/// only constants keep two atoms of one relation and arity apart.
fn least<A: Allocator>(group: &Group<&Atom<A>, A>, wanted: &Atom<A>) -> usize
    requires { IsTold group.now }
    ensures { All (λ h. misses wanted.now h.atom.now ≡ true → result ≤ differences h.atom.now.terms wanted.now.terms) group.now.heads.items }
{
    if is_still_linear(group.linear, wanted) {
        1
    } else {
        0
    }
}

/// The relation and the arity of an atom.
fn key_of<A: Allocator>(atom: &Atom<A>) -> (&str, usize)
    ensures relation { result.0.now ≡ atom.now.relation }
    ensures arity { result.1 ≡ length atom.now.terms }
{
    (atom.relation(), atom.terms().len())
}

/// Begins the group of a head whose relation and arity have none.
fn begin_group<'a, A: Allocator + Copy>(
    alloc: A,
    groups: &mut Groups<'a, A>,
    head: &Head<&'a Atom<A>>,
) -> Result<(), AllocError>
    requires { kept_under groups.old head.now.atom.now.relation (length head.now.atom.now.terms) ≡ [] }
    ensures heads { OnOk result ((relation : List ℕ) (arity : ℕ) → kept_under groups.new relation arity ≡ kept_under groups.old relation arity ++ head_if relation arity head.now.number (head.now.place, head.now.atom.now)) }
    ensures told { OnOk result (AreTold groups.old → AreTold groups.new) }
{
    let mut group = Group {
        heads: Vec::new(alloc),
        linear: true,
    };
    push(&mut group, head)?;
    groups.insert(key_of(head.atom), group)?;
    Ok(())
}

/// Puts the head into the group of its relation and arity.
fn put<'a, A: Allocator + Copy>(
    alloc: A,
    groups: &mut Groups<'a, A>,
    head: &Head<&'a Atom<A>>,
) -> Result<(), AllocError>
    ensures heads { OnOk result ((relation : List ℕ) (arity : ℕ) → kept_under groups.new relation arity ≡ kept_under groups.old relation arity ++ head_if relation arity head.now.number (head.now.place, head.now.atom.now)) }
    ensures told { OnOk result (AreTold groups.old → AreTold groups.new) }
{
    match groups.get_mut(&key_of(head.atom)) {
        Some(group) => push(group, head),
        None => begin_group(alloc, groups, head),
    }
}

/// Puts the heads of the query of that number in.
fn put_heads<'a, A: Allocator + Copy>(
    alloc: A,
    groups: &mut Groups<'a, A>,
    number: usize,
    heads: &'a [Atom<A>],
) -> Result<(), AllocError>
    requires { length heads.now ≤ MAX_ATOMS }
    ensures heads { OnOk result ((relation : List ℕ) (arity : ℕ) → kept_under groups.new relation arity ≡ kept_under groups.old relation arity ++ flat_map (head_if relation arity number) (enumerate_from 0 heads.now)) }
    ensures told { OnOk result (AreTold groups.old → AreTold groups.new) }
{
    for place in 0..heads.len() {
        let head = Head {
            number,
            place: place as u8,
            atom: &heads[place],
        };
        put(alloc, groups, &head)?;
    }
    Ok(())
}

/// Puts the heads of the query at the place in, which has that number.
fn put_heads_at<'a, A: Allocator + Copy>(
    alloc: A,
    groups: &mut Groups<'a, A>,
    grounded: &'a GroundedQueries<A>,
    number: usize,
    place: usize,
) -> Result<(), AllocError>
    ensures heads { OnOk result ((relation : List ℕ) (arity : ℕ) → kept_under groups.new relation arity ≡ kept_under groups.old relation arity ++ heads_at relation arity grounded.now (number, place)) }
    ensures told { OnOk result (AreTold groups.old → AreTold groups.new) }
{
    match grounded.query(place) {
        Some(query) => put_heads(alloc, groups, number, query.heads()),
        None => Ok(()),
    }
}

/// The heads of the queries at the places of the seats.
fn groups_of<'a, A: Allocator + Copy>(
    alloc: A,
    grounded: &'a GroundedQueries<A>,
    seats: &[&Seat<Name<A>>],
) -> Result<Groups<'a, A>, AllocError>
    ensures heads { IfOk result (λ groups. (relation : List ℕ) (arity : ℕ) → kept_under groups relation arity ≡ flat_map (heads_at relation arity grounded.now) (enumerate_from 0 (map (λ s. s.now.place) seats.now))) }
    ensures told { IfOk result (λ groups. AreTold groups) }
{
    let mut groups = HashMap::new(alloc);
    for number in 0..seats.len() {
        put_heads_at(alloc, &mut groups, grounded, number, seats[number].place)?;
    }
    Ok(groups)
}

/// The heads of the pending queries of a board, by relation and arity. Contracts see the pool of the board.
pub struct Heads<'a, A: Allocator = Global> {
    board: &'a Board<A>,
    names: Vec<&'a Name<A>, A>,
    groups: Groups<'a, A>,
}

impl<'a, A: Allocator> Model for Heads<'a, A> {
    ghost use Rattle.std.specs.Prelude.{map};
    ghost use Rattle.cq_board.specs.Pool.{PoolRecord};
    ghost use Rattle.cq_board.specs.Steps.Heads.{AreHeads};

    ghost Value = { PoolRecord };

    ghost view = { λ h. h.board.now };

    ghost invariant = { λ h. AreHeads h.board.now.pending (map (λ name. name.now) h.names.items) h.groups };
}

// By hand, so that who lets it go calls this, and does not take its groups apart.
impl<'a, A: Allocator> Drop for Heads<'a, A> {
    fn drop(self) {
        let Heads {
            board: _,
            names,
            groups,
        } = self;
        mem::drop(names);
        mem::drop(groups);
    }
}

impl<A: Allocator + Copy> Board<A> {
    /// The postcondition of the pending query of that name, counted from 0.
    fn post_of(&self, name: &Name<A>, post: u8) -> Option<&Atom<A>>
        ensures { option_copied result ≡ post_named name.now post self.now.pending }
    {
        let query = self.query(name)?;
        query.posts().get(usize::from(post))
    }

    /// The heads of the pending queries, in groups.
    fn groups(&self) -> Result<Groups<'_, A>, AllocError>
        ensures heads { IfOk result (λ groups. (relation : List ℕ) (arity : ℕ) → kept_under groups relation arity ≡ heads_of relation arity self.now.pending) }
        ensures told { IfOk result (λ groups. AreTold groups) }
    {
        let stores = self.stores();
        let seats = stores.roster.in_order()?;
        groups_of(self.allocator(), &stores.grounded, &seats)
    }

    /// The heads of the pending queries, by relation and arity: what [`Heads::near_misses`] looks at. One pass over the heads
    /// of the pool.
    ///
    /// # Errors
    /// `AllocError` where an allocation failed.
    pub fn heads(&self) -> Result<Heads<'_, A>, AllocError>
        ensures { IfOk result (λ heads. heads ≡ self.now) }
    {
        let names = self.names()?;
        let groups = self.groups()?;
        Ok(Heads {
            board: self,
            names,
            groups,
        })
    }

    /// What looks like a typing error at a postcondition of the pending query of that name, counted from 0: of the heads of
    /// pending queries that have its relation and arity and do not unify with it, the first three, by the number of places
    /// where two constants differ, then by posting, then by head. None where no such query is pending or it has no such
    /// postcondition. One pass over the heads of the pool; for more than one postcondition [`Board::heads`] is made once.
    ///
    /// # Errors
    /// `AllocError` where an allocation failed.
    pub fn near_misses(
        &self,
        name: &Name<A>,
        post: u8,
    ) -> Result<Vec<NearMiss<&Name<A>>, A>, AllocError>
        ensures { IfOk result (λ near. (nearest : List (ℕ × ℕ × ℕ)) × AreNearest (misses_named name.now post self.now.pending) nearest × (map (miss_read (λ name. name.now)) near.items ≡ map (miss_named self.now.pending) nearest)) }
    {
        let heads = self.heads()?;
        heads.near_misses(name, post)
    }
}

impl<'a, A: Allocator + Copy> Heads<'a, A> {
    /// The nearest of the heads that miss the postcondition.
    fn nearest_to(&self, wanted: &Atom<A>) -> Result<Vec<(usize, usize, u8), A>, AllocError>
        ensures { IfOk result (λ kept. AreNearest (misses_of wanted.now self.now.pending) kept.items) }
    {
        let alloc = self.board.allocator();
        match self.groups.get(&key_of(wanted)) {
            Some(group) => nearest_of(alloc, wanted, &group.heads, least(group, wanted)),
            None => Ok(Vec::new(alloc)),
        }
    }

    /// The same of the postcondition of the pending query of that name; none where there is no such postcondition.
    fn nearest(&self, name: &Name<A>, post: u8) -> Result<Vec<(usize, usize, u8), A>, AllocError>
        ensures { IfOk result (λ kept. AreNearest (misses_named name.now post self.now.pending) kept.items) }
    {
        match self.board.post_of(name, post) {
            Some(wanted) => self.nearest_to(wanted),
            None => Ok(Vec::new(self.board.allocator())),
        }
    }

    /// What [`Board::near_misses`] tells of the board of which these are the heads. The time is that of the heads of the
    /// postcondition's relation and arity, in posting order up to where no later one can be among the first three: after
    /// three with no difference; and where no variable stands twice in the postcondition or in one of these heads, after
    /// three with one.
    ///
    /// # Errors
    /// `AllocError` where an allocation failed.
    pub fn near_misses(
        &self,
        name: &Name<A>,
        post: u8,
    ) -> Result<Vec<NearMiss<&'a Name<A>>, A>, AllocError>
        ensures { IfOk result (λ near. (nearest : List (ℕ × ℕ × ℕ)) × AreNearest (misses_named name.now post self.now.pending) nearest × (map (miss_read (λ name. name.now)) near.items ≡ map (miss_named self.now.pending) nearest)) }
    {
        let nearest = self.nearest(name, post)?;
        named(self.board.allocator(), &self.names, &nearest)
    }
}
