//! The links: heads and postconditions of queries at places.

ghost use Rattle.std.specs.Prelude.{◌≡◌, ◌↔◌, ℕ, ◌+◌, ◌*◌, ◌<◌, ◌≤◌, ◌^◌, ◌≢◌, min, length, Some, None, IfOk, OnOk, OnErr};
ghost use Rattle.std.specs.FinMap as map;
ghost use Rattle.std.specs.List.{Contains, AllPairs};
ghost use Rattle.cq_atom.specs.declared.edge.Edge.{Edge};
ghost use Rattle.cq_links.specs.Links.{ends_of, IsLink, Touches, candidate_pairs};
ghost use Rattle.cq_links.specs.Steps.Blocks.{PutsBlock};
ghost use Rattle.cq_links.specs.Steps.Asking.{AnswersBoth, pairs_tested};

use crate::asking::{Side, ask_all};
use crate::block::{PLACES, put_all, take_all};
use cq_atom::{Edge, MAX_ATOMS, Meter, Query};
use cq_index::AtomIndex;
use std::alloc::{AllocError, Allocator, Global};
use std::marker::Model;

/// The heads and postconditions of queries at places, and who of them is linked to whom. Contracts see
/// the finite map from places to heads and postconditions.
#[derive(Drop)]
pub struct Links<A: Allocator = Global> {
    heads: AtomIndex<A>,
    posts: AtomIndex<A>,
    alloc: A,
}

impl<A: Allocator> Model for Links<A> {
    ghost use Rattle.std.specs.Ordering.{nat_cmp};
    ghost use Rattle.std.specs.FinMap.{FinMap, code};
    ghost use Rattle.std.specs.Coded.{coded_ℕ, codes};
    ghost use Rattle.cq_links.specs.Links.{Ends};

    ghost Value = { FinMap nat_cmp Ends };

    ghost coded = { code coded_ℕ (Prim.hlevel codes) };

    ghost use Rattle.cq_links.specs.Steps.Kept.{links_of, IsKept};

    ghost view = { λ l. links_of l.heads l.posts };

    ghost invariant = { λ l. IsKept (links_of l.heads l.posts) l.heads l.posts };
}

/// The edges between the query's own atoms and all that are there.
fn edges_of<A: Allocator + Copy>(
    alloc: A,
    heads: &AtomIndex<A>,
    posts: &AtomIndex<A>,
    place: usize,
    query: &Query<A>,
    tests: &mut Meter,
) -> Result<Vec<Edge, A>, AllocError>
    ensures edges { IfOk result (λ edges. AnswersBoth place query.now.posts query.now.heads heads.now posts.now edges.items) }
    ensures ticks { OnOk result (tests.new ≡ min (tests.old + pairs_tested query.now.posts query.now.heads heads.now posts.now) u64.MAX) }
{
    let mut edges = Vec::new(alloc);
    ask_all(&mut edges, heads, Side::Posts, place, query.posts(), tests)?;
    ask_all(&mut edges, posts, Side::Heads, place, query.heads(), tests)?;
    Ok(edges)
}

/// Finds the edges and then puts the query's postconditions in, or changes none.
fn link<A: Allocator + Copy>(
    alloc: A,
    heads: &AtomIndex<A>,
    posts: &mut AtomIndex<A>,
    place: usize,
    query: &Query<A>,
    tests: &mut Meter,
) -> Result<Vec<Edge, A>, AllocError>
    requires fits { place * MAX_ATOMS + MAX_ATOMS < 2 ^ 64 }
    requires free { (i : ℕ) → i < MAX_ATOMS → map.get posts.old (place * MAX_ATOMS + i) ≡ None }
    ensures edges { IfOk result (λ edges. AnswersBoth place query.now.posts query.now.heads heads.now posts.old edges.items) }
    ensures ticks { OnOk result (tests.new ≡ min (tests.old + pairs_tested query.now.posts query.now.heads heads.now posts.old) u64.MAX) }
    ensures ok { OnOk result (PutsBlock (place * MAX_ATOMS) query.now.posts posts.old posts.new) }
    ensures few { OnOk result (length query.now.posts ≤ MAX_ATOMS) }
    ensures err { OnErr result (posts.new ≡ posts.old) }
{
    let edges = edges_of(alloc, heads, posts, place, query, tests)?;
    put_all(posts, place, query.posts())?;
    Ok(edges)
}

impl<A: Allocator + Copy> Links<A> {
    /// No queries at all. Takes no memory.
    pub fn begin(alloc: A) -> Links<A>
        ensures { result ≡ map.empty }
    {
        Links {
            heads: AtomIndex::begin(alloc),
            posts: AtomIndex::begin(alloc),
            alloc,
        }
    }

    /// Whether a query stands at the place. Constant expected time.
    pub fn has(&self, place: usize) -> bool
        ensures { result ≡ map.contains_key self.now place }
    {
        let heads = &self.heads;
        place < PLACES && heads.has(place * MAX_ATOMS)
    }

    /// Puts the query at the place, where none stands, and gives the edges that this makes, in no order
    /// that anyone is told of. The meter counts one test for each pair of atoms that is tested. Constant
    /// expected time for each atom of the query beside the tests, up to sorting what is tested.
    ///
    /// # Errors
    /// `AllocError` where an allocation failed, and where the place is so great that its atoms have no
    /// numbers, which no pool reaches. Then nothing has changed, but the meter may have counted some tests.
    pub fn add(
        &mut self,
        place: usize,
        query: &Query<A>,
        tests: &mut Meter,
    ) -> Result<Vec<Edge, A>, AllocError>
        requires { map.get self.old place ≡ None }
        ensures ok { OnOk result (self.new ≡ map.insert self.old place (ends_of query.now)) }
        ensures exact { IfOk result (λ edges. (edge : Edge) → Contains edges.items edge ↔ (IsLink self.new edge × Touches place edge)) }
        ensures once { IfOk result (λ edges. AllPairs (λ a b. a ≢ b) edges.items) }
        ensures ticks { OnOk result (tests.new ≡ min (tests.old + candidate_pairs self.old place (ends_of query.now)) u64.MAX) }
        ensures err { OnErr result (self.new ≡ self.old) }
    {
        if place >= PLACES {
            return Err(AllocError);
        }
        put_all(&mut self.heads, place, query.heads())?;
        let linked = link(
            self.alloc,
            &self.heads,
            &mut self.posts,
            place,
            query,
            tests,
        );
        if linked.is_err() {
            take_all(&mut self.heads, place, query.heads());
        }
        linked
    }

    /// Takes the query away that stands at the place. Takes no memory, and constant expected time for each of its atoms.
    pub fn remove(&mut self, place: usize, query: &Query<A>)
        requires { map.get self.old place ≡ Some (ends_of query.now) }
        ensures { self.new ≡ map.remove self.old place }
    {
        take_all(&mut self.heads, place, query.heads());
        take_all(&mut self.posts, place, query.posts());
    }

    /// Links with the same queries at the same places, on the same allocator. Constant expected time for each atom.
    ///
    /// # Errors
    /// `AllocError` where an allocation failed.
    pub fn copy(&self) -> Result<Links<A>, AllocError>
        ensures { IfOk result (λ copy. copy ≡ self.now) }
    {
        let heads = self.heads.copy()?;
        let posts = self.posts.copy()?;
        Ok(Links {
            heads,
            posts,
            alloc: self.alloc,
        })
    }
}
