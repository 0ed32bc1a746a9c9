//! Which nodes are matched, and how many matched providers each postcondition has.

ghost use Rattle.std.specs.Prelude.{◌≡◌, ℕ, ◌+◌, ◌-◌, ◌==◌, ◌<◌, ◌≤◌, ◌≢◌, Bool, ◌++◌, ◌∷◌, ◌&&◌, not, [], List, count_by, length, false, true, replicate, IfOk, OnOk, slice_index, slice_index_or, slice_set, if◌then◌else◌, vec_len, vec_capacity, min};
ghost use Rattle.std.specs.List.{list_any};
ghost use Rattle.cq_match.specs.Steps.Settle.{stands};
ghost use Rattle.cq_match.specs.Steps.Kept.{place_at, count_at, edges_left, edges_from, feeds_post, busy, was_raised, OutsFit, Pruning, Counting, Grown, Reaches, Reaching, Settled, Closed};

use crate::counts::Counts;
use crate::graph::{Graph, is_live};
use cq_atom::Meter;
use std::alloc::{AllocError, Allocator};

/// What is known of the nodes by their places.
#[derive(Drop)]
pub(crate) struct Marks<A: Allocator> {
    /// Whether the node is matched.
    pub(crate) matched: Vec<bool, A>,
    /// Whether the edges that leave the node are counted.
    pub(crate) raised: Vec<bool, A>,
    /// How many edges to each postcondition are counted.
    pub(crate) counts: Vec<Counts<A>, A>,
    /// The nodes that are matched no longer, and whose edges are counted still.
    pub(crate) waiting: Vec<usize, A>,
    /// The nodes that were taken as matched, and are yet to be looked at.
    pub(crate) reached: Vec<usize, A>,
}

impl<A: Allocator> Marks<A> {
    /// Makes room for one place more, and for so many nodes that wait.
    pub(crate) fn reserve_place(&mut self, waiting: usize) -> Result<(), AllocError>
        ensures matched { self.new.matched.items ≡ self.old.matched.items }
        ensures raised { self.new.raised.items ≡ self.old.raised.items }
        ensures counts { self.new.counts.items ≡ self.old.counts.items }
        ensures waiting { self.new.waiting.items ≡ self.old.waiting.items }
        ensures reached { self.new.reached ≡ self.old.reached }
        ensures capacity { vec_capacity self.old.waiting ≤ vec_capacity self.new.waiting }
        ensures matched_room { OnOk result (vec_len self.new.matched < vec_capacity self.new.matched) }
        ensures raised_room { OnOk result (vec_len self.new.raised < vec_capacity self.new.raised) }
        ensures counts_room { OnOk result (vec_len self.new.counts < vec_capacity self.new.counts) }
        ensures waiting_room { OnOk result (waiting ≤ vec_capacity self.new.waiting) }
    {
        self.waiting.reserve(waiting)?;
        self.matched.reserve(1)?;
        self.raised.reserve(1)?;
        self.counts.reserve(1)
    }

    /// Counts an edge to the postcondition no longer. Where it was the last one, the waiter is matched no longer.
    fn lower(&mut self, waiter: usize, post: usize)
        requires waiter_within { waiter < length self.old.counts.items }
        requires waiter_marked { waiter < length self.old.matched.items }
        requires post_within { post < length (slice_index_or self.old.counts.items waiter []) }
        requires counted { 1 ≤ count_at self.old.counts.items waiter post }
        requires room { busy self.old.matched.items self.old.waiting.items ≤ vec_capacity self.old.waiting }
        ensures counts { self.new.counts.items ≡ slice_set self.old.counts.items waiter (slice_set (slice_index_or self.old.counts.items waiter []) post (count_at self.old.counts.items waiter post - 1)) }
        ensures matched { self.new.matched.items ≡ (if (count_at self.old.counts.items waiter post - 1 == 0) && stands self.old.matched.items waiter then slice_set self.old.matched.items waiter false else self.old.matched.items) }
        ensures waiting { self.new.waiting.items ≡ (if (count_at self.old.counts.items waiter post - 1 == 0) && stands self.old.matched.items waiter then self.old.waiting.items ++ waiter ∷ [] else self.old.waiting.items) }
        ensures raised { self.new.raised ≡ self.old.raised }
        ensures reached { self.new.reached ≡ self.old.reached }
        ensures capacity { vec_capacity self.new.waiting ≡ vec_capacity self.old.waiting }
    {
        let none = self.counts[waiter].lower(post);
        if none && self.matched[waiter] {
            self.matched[waiter] = false;
            self.waiting.push_reserved(waiter);
        }
    }

    /// Counts an edge to the postcondition. A waiter that is able is taken as matched.
    fn raise(&mut self, able: bool, waiter: usize, post: usize)
        requires waiter_within { waiter < length self.old.counts.items }
        requires waiter_marked { waiter < length self.old.matched.items }
        requires post_within { post < length (slice_index_or self.old.counts.items waiter []) }
        requires fits { count_at self.old.counts.items waiter post < usize.MAX }
        requires room { able ≡ true → stands self.old.matched.items waiter ≡ false → length self.old.reached.items < vec_capacity self.old.reached }
        ensures counts { self.new.counts.items ≡ slice_set self.old.counts.items waiter (slice_set (slice_index_or self.old.counts.items waiter []) post (count_at self.old.counts.items waiter post + 1)) }
        ensures matched { self.new.matched.items ≡ (if able && not (stands self.old.matched.items waiter) then slice_set self.old.matched.items waiter true else self.old.matched.items) }
        ensures reached { self.new.reached.items ≡ (if able && not (stands self.old.matched.items waiter) then self.old.reached.items ++ waiter ∷ [] else self.old.reached.items) }
        ensures raised { self.new.raised ≡ self.old.raised }
        ensures waiting { self.new.waiting ≡ self.old.waiting }
        ensures capacity { vec_capacity self.new.reached ≡ vec_capacity self.old.reached }
    {
        self.counts[waiter].raise(post);
        if able && !self.matched[waiter] {
            self.matched[waiter] = true;
            self.reached.push_reserved(waiter);
        }
    }

    /// Counts the edges that leave the node, and takes their waiters as matched that are able.
    fn raise_all(&mut self, graph: &Graph<A>, node: usize)
        requires fit { OutsFit graph.now.places.items graph.now.leaving.items }
        requires within { node < length graph.now.leaving.items }
        requires few { length (edges_from graph.now.places.items 0 graph.now.leaving.items) ≤ usize.MAX }
        requires lists { length self.old.matched.items ≡ length graph.now.places.items }
        requires counting { Counting graph.now.places.items (edges_from graph.now.places.items 0 graph.now.leaving.items) self.old.raised.items self.old.counts.items (edges_left graph.now.places.items node (slice_index_or graph.now.leaving.items node [])) }
        requires room { length self.old.reached.items + length graph.now.places.items ≤ vec_capacity self.old.reached + count_by (λ mark. mark) self.old.matched.items }
        ensures counting { Counting graph.now.places.items (edges_from graph.now.places.items 0 graph.now.leaving.items) self.new.raised.items self.new.counts.items [] }
        ensures grown { Grown graph.now.places.items self.old.matched.items self.old.reached.items self.new.matched.items self.new.reached.items }
        ensures reaches { Reaches graph.now.places.items self.new.matched.items (edges_left graph.now.places.items node (slice_index_or graph.now.leaving.items node [])) }
        ensures raised { self.new.raised.items ≡ self.old.raised.items }
        ensures waiting { self.new.waiting ≡ self.old.waiting }
        ensures capacity { vec_capacity self.new.reached ≡ vec_capacity self.old.reached }
    {
        let outs = graph.leaving[node].outs();
        for out in outs {
            if is_live(&graph.places, *out) {
                let able = graph.places[out.waiter].able;
                self.raise(able, out.waiter, usize::from(out.post));
            }
        }
    }

    /// Counts the edges that leave the node no longer.
    fn lower_all(&mut self, graph: &Graph<A>, node: usize, meter: &mut Meter)
        requires fit { OutsFit graph.now.places.items graph.now.leaving.items }
        requires within { node < length graph.now.leaving.items }
        requires pruning { Pruning graph.now.places.items (edges_from graph.now.places.items 0 graph.now.leaving.items) self.old.matched.items self.old.raised.items self.old.counts.items self.old.waiting.items (edges_left graph.now.places.items node (slice_index_or graph.now.leaving.items node [])) }
        requires room { busy self.old.matched.items self.old.waiting.items ≤ vec_capacity self.old.waiting }
        ensures pruning { Pruning graph.now.places.items (edges_from graph.now.places.items 0 graph.now.leaving.items) self.new.matched.items self.new.raised.items self.new.counts.items self.new.waiting.items [] }
        ensures raised { self.new.raised.items ≡ self.old.raised.items }
        ensures busy { busy self.new.matched.items self.new.waiting.items ≡ busy self.old.matched.items self.old.waiting.items }
        ensures capacity { vec_capacity self.new.waiting ≡ vec_capacity self.old.waiting }
        ensures reached { self.new.reached ≡ self.old.reached }
        ensures counted { meter.new ≡ min (meter.old + length (edges_left graph.now.places.items node (slice_index_or graph.now.leaving.items node []))) u64.MAX }
    {
        let _counted = meter.count();
        let outs = graph.leaving[node].outs();
        for out in outs {
            if is_live(&graph.places, *out) {
                self.lower(out.waiter, usize::from(out.post));
                meter.tick();
            }
        }
    }

    /// Takes as matched the node, and the able nodes that edges reach from it by way of such nodes, and counts their edges.
    fn reach(&mut self, graph: &Graph<A>, node: usize)
        requires fit { OutsFit graph.now.places.items graph.now.leaving.items }
        requires lists { length graph.now.leaving.items ≡ length graph.now.places.items }
        requires few { length (edges_from graph.now.places.items 0 graph.now.leaving.items) ≤ usize.MAX }
        requires marks { length self.old.matched.items ≡ length graph.now.places.items }
        requires same { self.old.raised.items ≡ self.old.matched.items }
        requires none { self.old.reached.items ≡ [] }
        requires counting { Counting graph.now.places.items (edges_from graph.now.places.items 0 graph.now.leaving.items) self.old.matched.items self.old.counts.items [] }
        requires able { (n : ℕ) → stands self.old.matched.items n ≡ true → (place_at graph.now.places.items n).able ≡ true }
        requires placed { node < length graph.now.places.items }
        requires can { (place_at graph.now.places.items node).able ≡ true }
        requires down { stands self.old.matched.items node ≡ false }
        requires room { length graph.now.places.items ≤ vec_capacity self.old.reached }
        ensures reaching { Reaching graph.now.places.items graph.now.leaving.items (edges_from graph.now.places.items 0 graph.now.leaving.items) self.old.matched.items self.new.matched.items self.new.raised.items self.new.counts.items self.new.reached.items (length self.new.reached.items) }
        ensures up { stands self.new.matched.items node ≡ true }
        ensures waiting { self.new.waiting ≡ self.old.waiting }
        ensures capacity { vec_capacity self.new.reached ≡ vec_capacity self.old.reached }
    {
        self.matched[node] = true;
        self.reached.push_reserved(node);
        let mut index = 0;
        while index < self.reached.len() {
            let next = self.reached[index];
            index += 1;
            if !self.raised[next] {
                self.raised[next] = true;
                self.raise_all(graph, next);
            }
        }
    }

    /// Lets the node wait where it is taken as matched and a postcondition of it has no counted edge.
    fn check(&mut self, node: usize)
        requires marked { node < length self.old.matched.items }
        requires within { node < length self.old.counts.items }
        requires room { busy self.old.matched.items self.old.waiting.items ≤ vec_capacity self.old.waiting }
        ensures matched { self.new.matched.items ≡ (if stands self.old.matched.items node && list_any (λ count. count == 0) (slice_index_or self.old.counts.items node []) then slice_set self.old.matched.items node false else self.old.matched.items) }
        ensures waiting { self.new.waiting.items ≡ (if stands self.old.matched.items node && list_any (λ count. count == 0) (slice_index_or self.old.counts.items node []) then self.old.waiting.items ++ node ∷ [] else self.old.waiting.items) }
        ensures raised { self.new.raised ≡ self.old.raised }
        ensures counts { self.new.counts.items ≡ self.old.counts.items }
        ensures reached { self.new.reached ≡ self.old.reached }
        ensures capacity { vec_capacity self.new.waiting ≡ vec_capacity self.old.waiting }
    {
        if self.matched[node] && self.counts[node].has_none() {
            self.matched[node] = false;
            self.waiting.push_reserved(node);
        }
    }

    /// Lets the nodes fall that wait, and those that fall with them.
    pub(crate) fn prune(&mut self, graph: &Graph<A>, meter: &mut Meter)
        requires fit { OutsFit graph.now.places.items graph.now.leaving.items }
        requires lists { length graph.now.leaving.items ≡ length graph.now.places.items }
        requires pruning { Pruning graph.now.places.items (edges_from graph.now.places.items 0 graph.now.leaving.items) self.old.matched.items self.old.raised.items self.old.counts.items self.old.waiting.items [] }
        requires room { busy self.old.matched.items self.old.waiting.items ≤ vec_capacity self.old.waiting }
        ensures pruning { Pruning graph.now.places.items (edges_from graph.now.places.items 0 graph.now.leaving.items) self.new.matched.items self.new.raised.items self.new.counts.items self.new.waiting.items [] }
        ensures none { self.new.waiting.items ≡ [] }
        ensures capacity { vec_capacity self.new.waiting ≡ vec_capacity self.old.waiting }
        ensures reached { self.new.reached ≡ self.old.reached }
        ensures counted { meter.new ≡ min (meter.old + count_by (was_raised (stands self.old.raised.items) (stands self.new.raised.items)) (edges_from graph.now.places.items 0 graph.now.leaving.items)) u64.MAX }
    {
        let _counted = meter.count();
        while let Some(node) = self.waiting.pop() {
            if self.raised[node] {
                self.raised[node] = false;
                self.lower_all(graph, node, meter);
            }
        }
    }

    /// Takes as matched what can be matched, now that the node is able.
    pub(crate) fn revive(&mut self, graph: &Graph<A>, node: usize)
        requires fit { OutsFit graph.now.places.items graph.now.leaving.items }
        requires lists { length graph.now.leaving.items ≡ length graph.now.places.items }
        requires few { length (edges_from graph.now.places.items 0 graph.now.leaving.items) ≤ usize.MAX }
        requires none_waits { self.old.waiting.items ≡ [] }
        requires none_reached { self.old.reached.items ≡ [] }
        requires marks { length self.old.matched.items ≡ length graph.now.places.items }
        requires same { self.old.raised.items ≡ self.old.matched.items }
        requires counting { Counting graph.now.places.items (edges_from graph.now.places.items 0 graph.now.leaving.items) self.old.matched.items self.old.counts.items [] }
        requires closed { Closed graph.now.places.items (edges_from graph.now.places.items 0 graph.now.leaving.items) (stands self.old.matched.items) }
        requires others { (set : ℕ → Bool) → set node ≡ false → Closed graph.now.places.items (edges_from graph.now.places.items 0 graph.now.leaving.items) set → (n : ℕ) → set n ≡ true → stands self.old.matched.items n ≡ true }
        requires placed { node < length graph.now.places.items }
        requires can { (place_at graph.now.places.items node).able ≡ true }
        requires down { stands self.old.matched.items node ≡ false }
        requires waiting_room { length graph.now.places.items ≤ vec_capacity self.old.waiting }
        requires reached_room { length graph.now.places.items ≤ vec_capacity self.old.reached }
        ensures settled { Settled graph.now.places.items (edges_from graph.now.places.items 0 graph.now.leaving.items) self.new.matched.items self.new.raised.items self.new.counts.items }
        ensures none_waits { self.new.waiting.items ≡ [] }
        ensures none_reached { self.new.reached.items ≡ [] }
        ensures waiting_capacity { vec_capacity self.new.waiting ≡ vec_capacity self.old.waiting }
        ensures reached_capacity { vec_capacity self.new.reached ≡ vec_capacity self.old.reached }
    {
        self.reach(graph, node);
        for index in 0..self.reached.len() {
            let next = self.reached[index];
            self.check(next);
        }
        self.reached.clear();
        self.prune(graph, &mut Meter::new());
    }

    /// Lets the node be matched no longer, and those that need it.
    pub(crate) fn fell(&mut self, graph: &Graph<A>, node: usize, meter: &mut Meter)
        requires fit { OutsFit graph.now.places.items graph.now.leaving.items }
        requires lists { length graph.now.leaving.items ≡ length graph.now.places.items }
        requires none_waits { self.old.waiting.items ≡ [] }
        requires marks { length self.old.matched.items ≡ length graph.now.places.items }
        requires same { self.old.raised.items ≡ self.old.matched.items }
        requires counting { Counting graph.now.places.items (edges_from graph.now.places.items 0 graph.now.leaving.items) self.old.matched.items self.old.counts.items [] }
        requires able { (n : ℕ) → n ≢ node → stands self.old.matched.items n ≡ true → (place_at graph.now.places.items n).able ≡ true }
        requires fed { (n k : ℕ) → stands self.old.matched.items n ≡ true → k < (place_at graph.now.places.items n).posts → list_any (feeds_post (stands self.old.matched.items) n k) (edges_from graph.now.places.items 0 graph.now.leaving.items) ≡ true }
        requires unable { (place_at graph.now.places.items node).able ≡ false }
        requires most { (set : ℕ → Bool) → Closed graph.now.places.items (edges_from graph.now.places.items 0 graph.now.leaving.items) set → (n : ℕ) → set n ≡ true → stands self.old.matched.items n ≡ true }
        requires placed { node < length graph.now.places.items }
        requires room { length graph.now.places.items ≤ vec_capacity self.old.waiting }
        ensures settled { Settled graph.now.places.items (edges_from graph.now.places.items 0 graph.now.leaving.items) self.new.matched.items self.new.raised.items self.new.counts.items }
        ensures none_waits { self.new.waiting.items ≡ [] }
        ensures capacity { vec_capacity self.new.waiting ≡ vec_capacity self.old.waiting }
        ensures reached { self.new.reached ≡ self.old.reached }
        ensures counted { meter.new ≡ min (meter.old + count_by (was_raised (stands self.old.matched.items) (stands self.new.matched.items)) (edges_from graph.now.places.items 0 graph.now.leaving.items)) u64.MAX }
    {
        if self.matched[node] {
            self.matched[node] = false;
            self.waiting.push_reserved(node);
        }
        self.prune(graph, meter);
    }
}
