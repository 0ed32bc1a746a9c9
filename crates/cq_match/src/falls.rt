//! Which nodes fall, why, and in which order.
//!
//! All places stand at first, as in `settle`, and fall in rounds: in each all those of which a slot is fed by no
//! standing place. Their offers are counted no longer once the round is reported, so that the reasons of a round are
//! those that the rounds before it make.

ghost use Rattle.std.specs.Prelude.{◌≡◌, ◌==◌, ◌++◌, ◌<◌, ◌≤◌, ◌+◌, ◌↔◌, ◌⊎◌, ◌&&◌, not, ℕ, Bool, true, false, List, length, sum, count_by, slice_index, vec_len, IfOk, OnOk, SomeIndex, nat_eq};
ghost use Rattle.std.specs.List.{All, AllZip, Any, Contains, IsDistinct};
ghost use Rattle.std.specs.List.Sorted.{IsNonDecreasingBy, IsStrictlyIncreasing};
ghost use Rattle.cq_atom.specs.declared.edge.Edge.{Edge};
ghost use Rattle.cq_match.specs.Falling.{fallen, IsFirstReason, IsFalling, IsUnmatched, CanFall, AreAllRounds};
ghost use Rattle.cq_match.specs.Matched.{numbers};
ghost use Rattle.std.specs.Set.{is_member};
ghost use Rattle.cq_match.specs.Steps.Falls.{IsFallOf};
ghost use Rattle.cq_match.specs.Steps.Places.{slots_of_node, slots_at, IsRanked, AreSlots, AreOffersOf};
ghost use Rattle.cq_match.specs.Steps.Settle.{stands, is_into, feeds};

use crate::matched::{Slots, offers_of, ranked, slots_of};
use crate::settle::{Offer, counts_of, drop_offers, offers_from, unfed};
use cq_atom::Edge;
use std::alloc::{AllocError, Allocator};

/// Why a node falls.
#[derive(Clone, Copy, Debug, PartialEq, Eq)]
pub enum Reason {
    /// It is not able.
    NotAble,
    /// All edges to that postcondition, counted from 0, come from nodes that fall earlier. There may be none.
    Unmet(u8),
}

/// A node that falls, and why.
#[derive(Clone, Copy, Debug, PartialEq, Eq)]
pub struct Fall {
    /// The node's number.
    pub node: usize,
    /// Why it falls.
    pub reason: Reason,
}

/// Whether the place has not fallen.
fn stands(standing: &[bool], place: usize) -> bool
    ensures { result ≡ stands standing.now place }
{
    match standing.get(place) {
        Some(up) => *up,
        None => false,
    }
}

/// The first reason for which the node falls whose slots begin there.
fn reason_of(node: (usize, u8, bool), start: usize, counts: &[usize]) -> Reason
    requires within { start + slots_of_node node ≤ length counts.now }
    requires empty { (slot : ℕ) × (slot < slots_of_node node) × (slice_index counts.now (start + slot) ≡ 0) }
    ensures { IsFirstReason (λ post. slice_index counts.now (start + post) == 0) node result }
{
    if !node.2 {
        return Reason::NotAble;
    }
    for post in 0..node.1 {
        if counts[start + usize::from(post)] == 0 {
            return Reason::Unmet(post);
        }
    }
    unreachable!()
}

/// Keeps the places that stand, rising, each once.
fn keep_round<A: Allocator>(waiting: &mut Vec<usize, A>, standing: &[bool])
    ensures rising { IsStrictlyIncreasing waiting.new.items }
    ensures kept { (place : ℕ) → Contains waiting.new.items place ↔ (Contains waiting.old.items place × (stands standing.now place ≡ true)) }
{
    waiting.retain(|place| stands(standing, *place));
    waiting.sort_unstable();
    waiting.dedup();
}

/// The falls of the places of a round.
fn falls_of<A: Allocator>(
    alloc: A,
    ranked: &[(usize, u8, bool)],
    starts: &[usize],
    counts: &[usize],
    round: &[usize],
) -> Result<Vec<Fall, A>, AllocError>
    requires starts_len { length starts.now ≡ length ranked.now }
    requires low { All (λ place. place < length ranked.now) round.now }
    requires within { All (λ place. slice_index starts.now place + slots_at ranked.now place ≤ length counts.now) round.now }
    requires empty { All (λ place. (slot : ℕ) × (slot < slots_at ranked.now place) × (slice_index counts.now (slice_index starts.now place + slot) ≡ 0)) round.now }
    ensures { IfOk result (λ falls. AllZip (IsFallOf ranked.now starts.now counts.now) round.now falls.items) }
{
    let mut falls = Vec::new(alloc);
    for place in round {
        let node = ranked[*place];
        falls.push(Fall {
            node: node.0,
            reason: reason_of(node, starts[*place], counts),
        })?;
    }
    Ok(falls)
}

/// Lets the places of a round fall. The answer has the owners of slots that lose their last offer.
fn drop_round<A: Allocator>(
    alloc: A,
    counts: &mut [usize],
    standing: &mut [bool],
    owners: &[usize],
    offers: &[Offer],
    round: &[usize],
) -> Result<Vec<usize, A>, AllocError>
    requires same_len { length counts.old ≡ length owners.now }
    requires low { All (λ offer. offer.slot < length owners.now) offers.now }
    requires grouped { IsNonDecreasingBy (λ offer. offer.provider) offers.now }
    requires counted { (slot : ℕ) → slot < length owners.now → slice_index counts.old slot ≡ count_by (feeds (stands standing.old) slot) offers.now }
    requires rising { IsStrictlyIncreasing round.now }
    requires up { All (λ place. stands standing.old place ≡ true) round.now }
    ensures fell { OnOk result ((place : ℕ) → stands standing.new place ≡ (stands standing.old place && not (is_member nat_eq round.now place))) }
    ensures counted { OnOk result ((slot : ℕ) → slot < length owners.now → slice_index counts.new slot ≡ count_by (feeds (stands standing.new) slot) offers.now) }
    ensures each { IfOk result (λ waiting. (slot : ℕ) → slot < length owners.now → slice_index counts.new slot ≡ 0 → (slice_index counts.old slot ≡ 0) ⊎ Contains waiting.items (slice_index owners.now slot)) }
    ensures only { IfOk result (λ waiting. All (λ place. SomeIndex owners.now (λ slot. (slice_index counts.new slot ≡ 0) × (slice_index owners.now slot ≡ place))) waiting.items) }
    ensures fewer { IfOk result (λ waiting. sum counts.new + vec_len waiting ≤ sum counts.old) }
{
    let mut waiting = Vec::new(alloc);
    for place in round {
        standing[*place] = false;
        drop_offers(counts, &mut waiting, owners, offers_from(offers, *place))?;
    }
    Ok(waiting)
}

/// All rounds of falls.
fn rounds_of<A: Allocator + Copy>(
    alloc: A,
    ranked: &[(usize, u8, bool)],
    slots: &Slots<A>,
    offers: &[Offer],
) -> Result<Vec<Fall, A>, AllocError>
    requires rising { IsRanked ranked.now }
    requires slots { AreSlots ranked.now slots.now.starts.items slots.now.owners.items }
    requires low { All (λ offer. (offer.provider < length ranked.now) × (offer.slot < length slots.now.owners.items)) offers.now }
    requires grouped { IsNonDecreasingBy (λ offer. offer.provider) offers.now }
    ensures { IfOk result (λ falls. (edges : List Edge) → All (λ edge. Contains (numbers ranked.now) edge.provider × Any (λ node. (node.0 ≡ edge.waiter) × (edge.post < node.1)) ranked.now) edges → AreOffersOf ranked.now slots.now.starts.items (length slots.now.owners.items) edges offers.now → AreAllRounds ranked.now edges falls.items) }
{
    let mut counts = counts_of(alloc, slots.owners.len(), offers)?;
    let mut waiting = unfed(alloc, &slots.owners, &counts)?;
    let mut standing = vec![in alloc; true; ranked.len()]?;
    let mut falls = Vec::new(alloc);
    while !waiting.is_empty() {
        keep_round(&mut waiting, &standing);
        let round = falls_of(alloc, ranked, &slots.starts, &counts, &waiting)?;
        falls.extend_from_slice(&round)?;
        waiting = drop_round(
            alloc,
            &mut counts,
            &mut standing,
            &slots.owners,
            offers,
            &waiting,
        )?;
    }
    Ok(falls)
}

/// The nodes that are not matched, each with the reason why it falls.
///
/// A list of nodes with reasons is falling if each node is not able, or has the named postcondition, all of whose
/// edges come from nodes that stand earlier in the list; there may be none. A node is not matched exactly where some
/// falling list has it, and the answer is one that has all these nodes, each once. It goes in rounds: first those that fall
/// by themselves, then those that fall by these, and so on, rising by their numbers in each round. The reason of a
/// node is the first that it has when its round begins: not able, if it is not able, and else its lowest postcondition
/// all of whose edges come from nodes of earlier rounds. Falling lists and their order are this project's profile.
///
/// `nodes` gives each node's number, how many postconditions it has, and whether it is able, in any order.
///
/// Each edge is looked at once, and each postcondition of a node that falls; besides that, nodes, edges and those that
/// fall in a round are sorted and nodes looked up by halving. No clause says so.
///
/// # Errors
/// `AllocError` where an allocation failed.
pub fn falling<A: Allocator + Copy>(
    alloc: A,
    nodes: &[(usize, u8, bool)],
    edges: &[Edge],
) -> Result<Vec<Fall, A>, AllocError>
    requires distinct { IsDistinct nat_eq (numbers nodes.now) }
    requires ends { All (λ edge. Contains (numbers nodes.now) edge.provider × Any (λ node. (node.0 ≡ edge.waiter) × (edge.post < node.1)) nodes.now) edges.now }
    ensures falls { IfOk result (λ falls. IsFalling nodes.now edges.now falls.items) }
    ensures unmatched { IfOk result (λ falls. (n : ℕ) → Contains (fallen falls.items) n ↔ IsUnmatched nodes.now edges.now n) }
    ensures once { IfOk result (λ falls. IsDistinct nat_eq (fallen falls.items)) }
    ensures rounds { IfOk result (λ falls. AreAllRounds nodes.now edges.now falls.items) }
    ensures law { (n : ℕ) → IsUnmatched nodes.now edges.now n ↔ CanFall nodes.now edges.now n }
{
    let ranked = ranked(alloc, nodes)?;
    let slots = slots_of(alloc, &ranked)?;
    let offers = offers_of(alloc, &ranked, &slots, edges)?;
    rounds_of(alloc, &ranked, &slots, &offers)
}
