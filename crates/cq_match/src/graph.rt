//! Nodes by their places, and edges with the nodes that they leave.

ghost use Rattle.std.specs.Prelude.{OnOk, vec_len, vec_capacity, ◌≡◌, ℕ, true, ◌+◌, ◌<◌, ◌≤◌, ◌++◌, ◌∷◌, ◌⊎◌, [], List, length, filter, count_by, slice_index_or, if◌then◌else◌};
ghost use Rattle.std.specs.List.{All};
ghost use Rattle.std.specs.Result.{is_ok};
ghost use Rattle.cq_match.specs.Graph.{leads_to};
ghost use Rattle.cq_match.specs.Steps.Kept.{is_live, edges_left, count_at};

use crate::counts::Counts;
use std::alloc::{AllocError, Allocator};
use std::marker::Model;

/// A place for a node.
#[derive(Clone, Copy)]
pub(crate) struct Place {
    /// Whether a node stands here.
    pub(crate) taken: bool,
    /// Whether that node is able.
    pub(crate) able: bool,
    /// How many postconditions it has.
    pub(crate) posts: u8,
    /// Tells it from the nodes that stood here before.
    pub(crate) stamp: u64,
}

/// An edge as the node keeps it that it leaves. Where the waiter that it was made for has gone it is an edge no longer.
#[derive(Clone, Copy)]
pub(crate) struct Out {
    /// The place of the head.
    pub(crate) head: u8,
    /// The place of the node that waits.
    pub(crate) waiter: usize,
    /// The place of the postcondition.
    pub(crate) post: u8,
    /// The stamp of the waiter.
    pub(crate) stamp: u64,
}

/// The edges that leave a node.
#[derive(Drop)]
pub(crate) struct Leaving<A: Allocator> {
    outs: Vec<Out, A>,
    /// How many were left when those that had gone were dropped last.
    left: usize,
}

impl<A: Allocator> Model for Leaving<A> {
    ghost use Rattle.std.specs.Prelude.{List};
    ghost use Rattle.cq_match.specs.declared.graph.Out.{Out};

    ghost Value = { List Out };

    ghost view = { λ leaving. leaving.outs.items };
}

impl<A: Allocator> Leaving<A> {
    /// No edges.
    pub(crate) fn new(alloc: A) -> Leaving<A>
        ensures { result ≡ [] }
    {
        Leaving {
            outs: Vec::new(alloc),
            left: 0,
        }
    }

    /// The edges, those that have gone among them.
    pub(crate) fn outs(&self) -> &[Out]
        ensures { result.now ≡ self.now }
    {
        self.outs.as_slice()
    }

    /// Drops the edges that have gone, where the list is more than twice as long as when they were dropped last.
    ///
    /// So the list is never longer than twice what was left then, and two; and the work is paid by the edges that have
    /// come since.
    pub(crate) fn tidy(&mut self, places: &[Place])
        ensures { (self.new ≡ self.old) ⊎ (self.new ≡ filter (is_live places.now) self.old) }
    {
        if self.outs.len() / 2 > self.left {
            self.outs.retain(|out| is_live(places, *out));
            self.left = self.outs.len();
        }
    }

    /// Puts an edge to the end.
    pub(crate) fn push(&mut self, out: Out) -> Result<(), AllocError>
        ensures { self.new ≡ (if is_ok result then self.old ++ out ∷ [] else self.old) }
    {
        self.outs.push(out)?;
        Ok(())
    }

    /// Lets all edges go, and keeps the room.
    pub(crate) fn clear(&mut self)
        ensures { self.new ≡ [] }
    {
        self.outs.clear();
        self.left = 0;
    }
}

impl<A: Allocator + Clone> Clone for Leaving<A> {
    ghost use Rattle.std.specs.Prelude.{◌≡◌};

    ghost is_clone = { λ a b. b ≡ a };

    fn clone(&self) -> Result<Leaving<A>, AllocError> {
        let outs = self.outs.clone()?;
        Ok(Leaving {
            outs,
            left: self.left,
        })
    }
}

/// Whether the edge is one still: its waiter is there.
pub(crate) fn is_live(places: &[Place], out: Out) -> bool
    ensures { result ≡ is_live places.now out }
{
    match places.get(out.waiter) {
        Some(place) => place.taken && place.stamp == out.stamp,
        None => false,
    }
}

/// Nodes and edges.
#[derive(Drop)]
pub(crate) struct Graph<A: Allocator> {
    /// The places, some of which are free.
    pub(crate) places: Vec<Place, A>,
    /// For each place, the edges that leave its node.
    pub(crate) leaving: Vec<Leaving<A>, A>,
    /// For each place, how many edges lead to each postcondition of its node.
    pub(crate) totals: Vec<Counts<A>, A>,
}

impl<A: Allocator> Graph<A> {
    /// Makes room for one place more.
    pub(crate) fn reserve_place(&mut self) -> Result<(), AllocError>
        ensures places { self.new.places.items ≡ self.old.places.items }
        ensures leaving { self.new.leaving.items ≡ self.old.leaving.items }
        ensures totals { self.new.totals.items ≡ self.old.totals.items }
        ensures places_room { OnOk result (vec_len self.new.places < vec_capacity self.new.places) }
        ensures leaving_room { OnOk result (vec_len self.new.leaving < vec_capacity self.new.leaving) }
        ensures totals_room { OnOk result (vec_len self.new.totals < vec_capacity self.new.totals) }
    {
        self.places.reserve(1)?;
        self.leaving.reserve(1)?;
        self.totals.reserve(1)
    }
}

/// Counts the edges that leave the node no longer.
pub(crate) fn lower_totals<A: Allocator>(
    places: &[Place],
    leaving: &[Leaving<A>],
    node: usize,
    totals: &mut Vec<Counts<A>, A>,
)
    requires within { node < length leaving.now }
    requires fit { All (λ out. is_live places.now out ≡ true → out.post < length (slice_index_or totals.old.items out.waiter [])) (slice_index_or leaving.now node []) }
    requires counted { (n k : ℕ) → count_by (leads_to n k) (edges_left places.now node (slice_index_or leaving.now node [])) ≤ count_at totals.old.items n k }
    ensures len { length totals.new.items ≡ length totals.old.items }
    ensures rows { (n : ℕ) → length (slice_index_or totals.new.items n []) ≡ length (slice_index_or totals.old.items n []) }
    ensures lowered { (n k : ℕ) → count_at totals.new.items n k + count_by (leads_to n k) (edges_left places.now node (slice_index_or leaving.now node [])) ≡ count_at totals.old.items n k }
{
    let outs = leaving[node].outs();
    for out in outs {
        if is_live(places, *out) {
            totals[out.waiter].lower(usize::from(out.post));
        }
    }
}
