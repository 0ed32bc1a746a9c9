//! The matched nodes of a graph, kept while its nodes come and go.

ghost use Rattle.std.specs.Prelude.{◌≡◌, ℕ, Bool, true, false, ◌+◌, ◌<◌, ◌↔◌, IfOk, OnOk, OnErr, nat_eq, filter, count_by, length, vec_capacity, min, List, [], ◌∷◌, if◌then◌else◌};
ghost use Rattle.std.specs.List.{All, Any, Contains};
ghost use Rattle.std.specs.List.Sorted.{IsPermutation, IsSorted};
ghost use Rattle.std.specs.Set.{is_member};
ghost use Rattle.cq_match.specs.Graph.{provider_count};
ghost use Rattle.cq_atom.specs.declared.edge.Edge.{Edge};
ghost use Rattle.cq_match.specs.Matched.{is_matched, numbers};
ghost use Rattle.cq_match.specs.Matcher.{nothing, has_node, with_flag, without, with_number, is_apart, lost, leaves, waiter_cmp};
ghost use Rattle.cq_match.specs.Steps.Kept.{is_able, nodes_from, edges_from, marked_from, IsKept};

use crate::counts::Counts;
use crate::graph::{Graph, Leaving, Out, Place, lower_totals};
use crate::marks::Marks;
use crate::showing::{copied_graph, copied_marks, waiters_of};
use cq_atom::{Edge, Meter};
use std::alloc::{AllocError, Allocator, Global};
use std::marker::Model;
use std::mem::{drop, replace};

/// A place where no node stands.
const FREE: Place = Place {
    taken: false,
    able: false,
    posts: 0,
    stamp: 0,
};

/// A graph whose matched nodes are kept while nodes come, go, and become able or not.
///
/// A node's number is its place, as a slab gives it: what is kept takes memory in proportion to the greatest
/// number. The matched nodes are always those that [`greatest`](crate::greatest) finds.
#[derive(Drop)]
pub struct Matcher<A: Allocator = Global> {
    graph: Graph<A>,
    marks: Marks<A>,
    /// At least as many as there are edges: how many have come.
    number: usize,
    /// The stamp of the next node.
    next: u64,
    alloc: A,
}

impl<A: Allocator> Model for Matcher<A> {
    ghost use Rattle.std.specs.Prelude.{vec_capacity};
    ghost use Rattle.cq_match.specs.Matcher.{MatcherRecord};

    ghost Value = { MatcherRecord };

    ghost use Rattle.cq_match.specs.Steps.Kept.{nodes_from, edges_from, marked_from, IsKept};

    ghost view = { λ m. record { nodes = nodes_from 0 m.graph.places.items; edges = edges_from m.graph.places.items 0 m.graph.leaving.items; matched = marked_from 0 m.marks.matched.items } };

    ghost invariant = { λ m. IsKept m.graph.places.items m.graph.leaving.items m.graph.totals.items m.marks.matched.items m.marks.raised.items m.marks.counts.items m.marks.waiting.items m.marks.reached.items (vec_capacity m.marks.waiting) m.number m.next };
}

impl<A: Allocator + Copy> Matcher<A> {
    /// A matcher without nodes. Takes no memory.
    pub fn begin(alloc: A) -> Matcher<A>
        ensures { result ≡ nothing }
    {
        Matcher {
            graph: Graph {
                places: Vec::new(alloc),
                leaving: Vec::new(alloc),
                totals: Vec::new(alloc),
            },
            marks: Marks {
                matched: Vec::new(alloc),
                raised: Vec::new(alloc),
                counts: Vec::new(alloc),
                waiting: Vec::new(alloc),
                reached: Vec::new(alloc),
            },
            number: 0,
            next: 1,
            alloc,
        }
    }
}

/// Makes one place more, which is free. Each list doubles its room where it is full, so a place takes constant time on average.
fn grow<A: Allocator + Copy>(
    graph: &mut Graph<A>,
    marks: &mut Marks<A>,
    alloc: A,
) -> Result<(), AllocError>
    ensures kept { (number next : ℕ) → IsKept graph.old.places.items graph.old.leaving.items graph.old.totals.items marks.old.matched.items marks.old.raised.items marks.old.counts.items marks.old.waiting.items marks.old.reached.items (vec_capacity marks.old.waiting) number next → IsKept graph.new.places.items graph.new.leaving.items graph.new.totals.items marks.new.matched.items marks.new.raised.items marks.new.counts.items marks.new.waiting.items marks.new.reached.items (vec_capacity marks.new.waiting) number next }
    ensures nodes { nodes_from 0 graph.new.places.items ≡ nodes_from 0 graph.old.places.items }
    ensures edges { edges_from graph.new.places.items 0 graph.new.leaving.items ≡ edges_from graph.old.places.items 0 graph.old.leaving.items }
    ensures matched { marked_from 0 marks.new.matched.items ≡ marked_from 0 marks.old.matched.items }
    ensures longer { OnOk result (length graph.new.places.items ≡ length graph.old.places.items + 1) }
{
    graph.reserve_place()?;
    marks.reserve_place(graph.places.len() + 1)?;
    graph.places.push_reserved(FREE);
    graph.leaving.push_reserved(Leaving::new(alloc));
    graph.totals.push_reserved(Counts::none());
    marks.matched.push_reserved(false);
    marks.raised.push_reserved(false);
    marks.counts.push_reserved(Counts::none());
    Ok(())
}

/// Makes the place of the node, and those before it that are not there yet, one by one.
fn make_room<A: Allocator + Copy>(
    graph: &mut Graph<A>,
    marks: &mut Marks<A>,
    node: usize,
    alloc: A,
) -> Result<(), AllocError>
    ensures kept { (number next : ℕ) → IsKept graph.old.places.items graph.old.leaving.items graph.old.totals.items marks.old.matched.items marks.old.raised.items marks.old.counts.items marks.old.waiting.items marks.old.reached.items (vec_capacity marks.old.waiting) number next → IsKept graph.new.places.items graph.new.leaving.items graph.new.totals.items marks.new.matched.items marks.new.raised.items marks.new.counts.items marks.new.waiting.items marks.new.reached.items (vec_capacity marks.new.waiting) number next }
    ensures nodes { nodes_from 0 graph.new.places.items ≡ nodes_from 0 graph.old.places.items }
    ensures edges { edges_from graph.new.places.items 0 graph.new.leaving.items ≡ edges_from graph.old.places.items 0 graph.old.leaving.items }
    ensures matched { marked_from 0 marks.new.matched.items ≡ marked_from 0 marks.old.matched.items }
    ensures placed { OnOk result (node < length graph.new.places.items) }
{
    while graph.places.len() <= node {
        grow(graph, marks, alloc)?;
    }
    Ok(())
}

impl<A: Allocator + Copy> Matcher<A> {
    /// Puts a node that is not able, without edges.
    fn put(&mut self, node: usize, posts: u8) -> Result<(), AllocError>
        requires { has_node node self.old ≡ false }
        ensures node { OnOk result (with_number node self.new.nodes ≡ (node, posts, false) ∷ []) }
        ensures others { OnOk result (without node self.new.nodes ≡ self.old.nodes) }
        ensures edges { self.new.edges ≡ self.old.edges }
        ensures apart { OnOk result (filter (is_apart node) self.new.edges ≡ self.old.edges) }
        ensures matched { self.new.matched ≡ self.old.matched }
        ensures exact { OnOk result ((n : ℕ) → is_member nat_eq self.new.matched n ≡ is_matched self.new.nodes self.new.edges n) }
        ensures err { OnErr result (self.new ≡ self.old) }
    {
        if self.next == u64::MAX {
            return Err(AllocError);
        }
        make_room(&mut self.graph, &mut self.marks, node, self.alloc)?;
        let totals = Counts::zeros(self.alloc, posts)?;
        let counts = Counts::zeros(self.alloc, posts)?;
        self.graph.places[node] = Place {
            taken: true,
            able: false,
            posts,
            stamp: self.next,
        };
        drop(replace(&mut self.graph.totals[node], totals));
        drop(replace(&mut self.marks.counts[node], counts));
        self.next += 1;
        Ok(())
    }
}

impl<A: Allocator + Copy> Matcher<A> {
    /// Puts a node that is not there, with edges that leave it or lead to it. An edge that is given twice counts twice.
    ///
    /// Taken over many calls, work is in proportion to the edges; and where the node is able and has an edge to each postcondition, also to the
    /// able and unmatched nodes that its edges reach, with their edges. A number beyond all that were there before takes memory and work for each place up to it, once.
    ///
    /// # Errors
    /// `AllocError` where an allocation failed; and where so many nodes or edges have come that their counters are at
    /// their ends, which 2^64 of them would take. Then nothing has changed.
    pub fn add(
        &mut self,
        node: usize,
        posts: u8,
        able: bool,
        edges: &[Edge],
    ) -> Result<(), AllocError>
        requires absent { has_node node self.old ≡ false }
        requires touch { All (λ edge. is_apart node edge ≡ false) edges.now }
        requires ends { All (λ edge. Contains (numbers ((node, posts, able) ∷ self.old.nodes)) edge.provider × Any (λ node. (node.0 ≡ edge.waiter) × (edge.post < node.1)) ((node, posts, able) ∷ self.old.nodes)) edges.now }
        ensures node { OnOk result (with_number node self.new.nodes ≡ (node, posts, able) ∷ []) }
        ensures others { OnOk result (without node self.new.nodes ≡ self.old.nodes) }
        ensures edges { OnOk result ((test : Edge → Bool) → count_by test self.new.edges ≡ count_by test self.old.edges + count_by test edges.now) }
        ensures matched { OnOk result ((n : ℕ) → is_member nat_eq self.new.matched n ≡ is_matched self.new.nodes self.new.edges n) }
        ensures err { OnErr result (self.new ≡ self.old) }
    {
        self.put(node, posts)?;
        let filled = self.fill(node, able, edges);
        if filled.is_err() {
            self.erase(node);
        }
        filled
    }
}

impl<A: Allocator> Matcher<A> {
    /// Whether the node is there.
    pub fn has(&self, node: usize) -> bool
        ensures { result ≡ has_node node self.now }
    {
        match self.graph.places.get(node) {
            Some(place) => place.taken,
            None => false,
        }
    }

    /// Whether the node is matched; one that is not there is not.
    pub fn is_matched(&self, node: usize) -> bool
        ensures kept { result ≡ is_member nat_eq self.now.matched node }
        ensures exact { result ≡ is_matched self.now.nodes self.now.edges node }
    {
        match self.marks.matched.get(node) {
            Some(matched) => *matched,
            None => false,
        }
    }

    /// How many edges lead to the postcondition, 0 where the node or the postcondition is not there.
    pub fn providers(&self, node: usize, post: u8) -> usize
        ensures { result ≡ provider_count node post self.now.edges }
    {
        match self.graph.totals.get(node) {
            Some(counts) => counts.at(usize::from(post)),
            None => 0,
        }
    }

    /// Lets the node be able, also where it was so already.
    ///
    /// Where it was so, or a postcondition of it has no edge, no other node is looked at. Else those are looked at that
    /// are able and unmatched and that its edges reach, with their edges, and no others.
    ///
    /// # Errors
    /// `AllocError` where an allocation failed; then nothing has changed.
    pub fn enable(&mut self, node: usize) -> Result<(), AllocError>
        requires { has_node node self.old ≡ true }
        ensures nodes { OnOk result (self.new.nodes ≡ with_flag node true self.old.nodes) }
        ensures edges { OnOk result (self.new.edges ≡ self.old.edges) }
        ensures matched { (n : ℕ) → is_member nat_eq self.new.matched n ≡ is_matched self.new.nodes self.new.edges n }
        ensures err { OnErr result (self.new ≡ self.old) }
    {
        if self.graph.places[node].able {
            return Ok(());
        }
        self.make_able(node)
    }

    /// Lets the node be able that was not. Where a postcondition of it has no edge, it looks at no other node.
    fn make_able(&mut self, node: usize) -> Result<(), AllocError>
        requires there { has_node node self.old ≡ true }
        requires unable { is_able node self.old.nodes ≡ false }
        ensures nodes { OnOk result (self.new.nodes ≡ with_flag node true self.old.nodes) }
        ensures edges { OnOk result (self.new.edges ≡ self.old.edges) }
        ensures matched { (n : ℕ) → is_member nat_eq self.new.matched n ≡ is_matched self.new.nodes self.new.edges n }
        ensures err { OnErr result (self.new ≡ self.old) }
    {
        if !self.graph.totals[node].has_none() {
            return self.make_able_and_revive(node);
        }
        self.graph.places[node].able = true;
        Ok(())
    }

    /// Lets the node be able that was not, and looks at all nodes that may be matched by that.
    fn make_able_and_revive(&mut self, node: usize) -> Result<(), AllocError>
        requires there { has_node node self.old ≡ true }
        requires unable { is_able node self.old.nodes ≡ false }
        ensures nodes { OnOk result (self.new.nodes ≡ with_flag node true self.old.nodes) }
        ensures edges { OnOk result (self.new.edges ≡ self.old.edges) }
        ensures matched { (n : ℕ) → is_member nat_eq self.new.matched n ≡ is_matched self.new.nodes self.new.edges n }
        ensures err { OnErr result (self.new ≡ self.old) }
    {
        self.marks.reached.reserve(self.graph.places.len())?;
        self.graph.places[node].able = true;
        self.marks.revive(&self.graph, node);
        Ok(())
    }

    /// Lets the node be able no longer, also where it was not so before: then nothing else is looked at. Takes no memory.
    ///
    /// The meter counts each edge whose provider stops being matched. Other work is in proportion to these and to the
    /// edges beside them whose waiters have gone: a provider drops these as others come, so that it never keeps more than
    /// in proportion to the edges that left it when it dropped some last.
    pub fn disable(&mut self, node: usize, meter: &mut Meter)
        requires { has_node node self.old ≡ true }
        ensures nodes { self.new.nodes ≡ with_flag node false self.old.nodes }
        ensures edges { self.new.edges ≡ self.old.edges }
        ensures matched { (n : ℕ) → is_member nat_eq self.new.matched n ≡ is_matched self.new.nodes self.new.edges n }
        ensures counted { meter.new ≡ min (meter.old + lost self.old self.new) u64.MAX }
    {
        let _counted = meter.count();
        if self.graph.places[node].able {
            self.graph.places[node].able = false;
            self.marks.fell(&self.graph, node, meter);
        }
    }

    /// Drops edges whose waiters have gone, where the node keeps many of them.
    fn tidy(&mut self, node: usize)
        requires { Contains (numbers self.old.nodes) node }
        ensures { self.new ≡ self.old }
    {
        self.graph.leaving[node].tidy(&self.graph.places);
    }

    /// Puts an edge that touches the node, which is not able.
    fn link(&mut self, node: usize, edge: Edge) -> Result<(), AllocError>
        requires unable { is_able node self.old.nodes ≡ false }
        requires touches { is_apart node edge ≡ false }
        requires provider { Contains (numbers self.old.nodes) edge.provider }
        requires waiter { Any (λ node. (node.0 ≡ edge.waiter) × (edge.post < node.1)) self.old.nodes }
        ensures nodes { self.new.nodes ≡ self.old.nodes }
        ensures edges { OnOk result ((test : Edge → Bool) → count_by test self.new.edges ≡ count_by test self.old.edges + count_by test (edge ∷ [])) }
        ensures apart { filter (is_apart node) self.new.edges ≡ filter (is_apart node) self.old.edges }
        ensures matched { self.new.matched ≡ self.old.matched }
        ensures exact { OnOk result ((n : ℕ) → is_member nat_eq self.new.matched n ≡ is_matched self.new.nodes self.new.edges n) }
    {
        if self.number == usize::MAX {
            return Err(AllocError);
        }
        let out = Out {
            head: edge.head,
            waiter: edge.waiter,
            post: edge.post,
            stamp: self.graph.places[edge.waiter].stamp,
        };
        self.graph.leaving[edge.provider].push(out)?;
        self.number += 1;
        self.graph.totals[edge.waiter].raise(usize::from(edge.post));
        if self.marks.raised[edge.provider] {
            self.marks.counts[edge.waiter].raise(usize::from(edge.post));
        }
        Ok(())
    }

    /// Puts edges that touch the node, which is not able: all of them, or some where an allocation failed.
    fn link_all(&mut self, node: usize, edges: &[Edge]) -> Result<(), AllocError>
        requires unable { is_able node self.old.nodes ≡ false }
        requires touch { All (λ edge. is_apart node edge ≡ false) edges.now }
        requires ends { All (λ edge. Contains (numbers self.old.nodes) edge.provider × Any (λ node. (node.0 ≡ edge.waiter) × (edge.post < node.1)) self.old.nodes) edges.now }
        requires exact { (n : ℕ) → is_member nat_eq self.old.matched n ≡ is_matched self.old.nodes self.old.edges n }
        ensures nodes { self.new.nodes ≡ self.old.nodes }
        ensures edges { OnOk result ((test : Edge → Bool) → count_by test self.new.edges ≡ count_by test self.old.edges + count_by test edges.now) }
        ensures apart { filter (is_apart node) self.new.edges ≡ filter (is_apart node) self.old.edges }
        ensures matched { self.new.matched ≡ self.old.matched }
        ensures exact { OnOk result ((n : ℕ) → is_member nat_eq self.new.matched n ≡ is_matched self.new.nodes self.new.edges n) }
    {
        for edge in edges {
            self.tidy(edge.provider);
            self.link(node, *edge)?;
        }
        Ok(())
    }

    /// Puts edges that touch the node, which is not able, and lets it be able where it is to be so. Where an allocation
    /// failed, some of the edges are there, and nothing else has changed.
    fn fill(&mut self, node: usize, able: bool, edges: &[Edge]) -> Result<(), AllocError>
        requires there { has_node node self.old ≡ true }
        requires unable { is_able node self.old.nodes ≡ false }
        requires touch { All (λ edge. is_apart node edge ≡ false) edges.now }
        requires ends { All (λ edge. Contains (numbers self.old.nodes) edge.provider × Any (λ node. (node.0 ≡ edge.waiter) × (edge.post < node.1)) self.old.nodes) edges.now }
        requires exact { (n : ℕ) → is_member nat_eq self.old.matched n ≡ is_matched self.old.nodes self.old.edges n }
        ensures nodes { OnOk result (self.new.nodes ≡ (if able then with_flag node true self.old.nodes else self.old.nodes)) }
        ensures edges { OnOk result ((test : Edge → Bool) → count_by test self.new.edges ≡ count_by test self.old.edges + count_by test edges.now) }
        ensures apart { filter (is_apart node) self.new.edges ≡ filter (is_apart node) self.old.edges }
        ensures exact { OnOk result ((n : ℕ) → is_member nat_eq self.new.matched n ≡ is_matched self.new.nodes self.new.edges n) }
        ensures err_nodes { OnErr result (self.new.nodes ≡ self.old.nodes) }
        ensures err_matched { OnErr result (self.new.matched ≡ self.old.matched) }
    {
        self.link_all(node, edges)?;
        if able {
            self.make_able(node)?;
        }
        Ok(())
    }

    /// Lets the node go that is not able, with its edges.
    fn erase(&mut self, node: usize)
        requires there { has_node node self.old ≡ true }
        requires unable { is_able node self.old.nodes ≡ false }
        ensures nodes { self.new.nodes ≡ without node self.old.nodes }
        ensures edges { self.new.edges ≡ filter (is_apart node) self.old.edges }
        ensures kept { self.new.matched ≡ self.old.matched }
        ensures matched { (n : ℕ) → is_member nat_eq self.new.matched n ≡ is_matched self.new.nodes self.new.edges n }
    {
        lower_totals(
            &self.graph.places,
            &self.graph.leaving,
            node,
            &mut self.graph.totals,
        );
        self.graph.places[node] = FREE;
        self.graph.leaving[node].clear();
        self.graph.totals[node].clear();
        self.marks.counts[node].clear();
    }

    /// Lets the node go, with the edges that leave it and those that lead to it. Takes no memory.
    ///
    /// The meter counts each edge whose provider stops being matched, and other work is in proportion to these and
    /// to the edges that leave the node; it is not in proportion to the edges of its neighbours. Edges whose waiters
    /// have gone may be looked at too, as `disable` says.
    pub fn remove(&mut self, node: usize, meter: &mut Meter)
        requires { has_node node self.old ≡ true }
        ensures nodes { self.new.nodes ≡ without node self.old.nodes }
        ensures edges { self.new.edges ≡ filter (is_apart node) self.old.edges }
        ensures matched { (n : ℕ) → is_member nat_eq self.new.matched n ≡ is_matched self.new.nodes self.new.edges n }
        ensures counted { meter.new ≡ min (meter.old + lost self.old self.new) u64.MAX }
    {
        self.disable(node, meter);
        self.erase(node);
    }
}

impl<A: Allocator + Copy> Matcher<A> {
    /// The edges that leave the node, by waiter, among these by postcondition, and among these by head; none where the
    /// node is not there.
    ///
    /// The edges that leave the node are sorted. Some whose waiters have gone may be looked at too, as `disable` says. No
    /// clause says so.
    ///
    /// # Errors
    /// `AllocError` where an allocation failed.
    pub fn waiters(&self, node: usize) -> Result<Vec<Edge, A>, AllocError>
        ensures permutation { IfOk result (λ waiters. IsPermutation (filter (leaves node) self.now.edges) waiters.items) }
        ensures ordered { IfOk result (λ waiters. IsSorted waiter_cmp waiters.items) }
        ensures absent { IfOk result (λ waiters. has_node node self.now ≡ false → waiters.items ≡ []) }
    {
        waiters_of(self.alloc, &self.graph, node)
    }

    /// A matcher of equal content, on the same allocator. It has room enough that the calls which take no memory take
    /// none on it either. All nodes and edges are copied, and all places up to the greatest number.
    ///
    /// # Errors
    /// `AllocError` where an allocation failed.
    pub fn copy(&self) -> Result<Matcher<A>, AllocError>
        ensures { IfOk result (λ copy. copy ≡ self.now) }
    {
        let graph = copied_graph(self.alloc, &self.graph)?;
        let marks = copied_marks(self.alloc, &self.marks, self.graph.places.len())?;
        Ok(Matcher {
            graph,
            marks,
            number: self.number,
            next: self.next,
            alloc: self.alloc,
        })
    }
}
