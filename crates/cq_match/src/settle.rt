//! The greatest set of places that feeds itself.
//!
//! All places stand at first. A place falls when one of its slots is fed by no standing place, and each
//! offer from it then counts no longer. Each place falls once, so each offer is looked at once.

ghost use Rattle.std.specs.Prelude.{◌≡◌, ◌==◌, ◌+◌, ◌<◌, ◌≤◌, ◌⊎◌, ℕ, Bool, true, length, filter, sum, count_by, slice_index, vec_len, EachIndex, SomeIndex, IfOk, OnOk};
ghost use Rattle.std.specs.List.{All, Contains};
ghost use Rattle.std.specs.List.Sorted.{IsNonDecreasingBy};
ghost use Rattle.cq_match.specs.Steps.Settle.{stands, is_into, FeedsItself};

use std::alloc::{AllocError, Allocator};

/// An edge between places: from the place of its provider to the slot of its postcondition.
#[derive(Clone, Copy)]
pub struct Offer {
    /// The place that offers.
    pub provider: usize,
    /// The slot of the postcondition that it supplies.
    pub slot: usize,
}

/// How many offers lead to each slot.
pub fn counts_of<A: Allocator>(
    alloc: A,
    slots: usize,
    offers: &[Offer],
) -> Result<Vec<usize, A>, AllocError>
    requires { All (λ offer. offer.slot < slots) offers.now }
    ensures len { IfOk result (λ counts. vec_len counts ≡ slots) }
    ensures counted { IfOk result (λ counts. (slot : ℕ) → slot < slots → slice_index counts.items slot ≡ count_by (is_into slot) offers.now) }
{
    let mut counts = vec![in alloc; 0usize; slots]?;
    for offer in offers {
        counts[offer.slot] += 1;
    }
    Ok(counts)
}

/// The owners of the slots that nothing feeds.
pub fn unfed<A: Allocator>(
    alloc: A,
    owners: &[usize],
    counts: &[usize],
) -> Result<Vec<usize, A>, AllocError>
    requires { length counts.now ≡ length owners.now }
    ensures each { IfOk result (λ found. (slot : ℕ) → slot < length owners.now → slice_index counts.now slot ≡ 0 → Contains found.items (slice_index owners.now slot)) }
    ensures only { IfOk result (λ found. All (λ place. SomeIndex owners.now (λ slot. (slice_index counts.now slot ≡ 0) × (slice_index owners.now slot ≡ place))) found.items) }
{
    let mut found = Vec::new(alloc);
    for slot in 0..owners.len() {
        if counts[slot] == 0 {
            found.push(owners[slot])?;
        }
    }
    Ok(found)
}

/// The offers from a place, which stand side by side.
pub fn offers_from(offers: &[Offer], place: usize) -> &[Offer]
    requires { IsNonDecreasingBy (λ offer. offer.provider) offers.now }
    ensures { result.now ≡ filter (λ offer. offer.provider == place) offers.now }
{
    let below = offers.partition_point(|offer| offer.provider < place);
    let (_, rest) = offers.split_at(below);
    let count = rest.partition_point(|offer| offer.provider <= place);
    let (at, _) = rest.split_at(count);
    at
}

/// Counts the offers no longer. The owners of slots that lose their last offer are put to those that wait
/// to fall.
pub fn drop_offers<A: Allocator>(
    counts: &mut [usize],
    waiting: &mut Vec<usize, A>,
    owners: &[usize],
    offers: &[Offer],
) -> Result<(), AllocError>
    requires same_len { length counts.old ≡ length owners.now }
    requires low { All (λ offer. offer.slot < length owners.now) offers.now }
    requires counted { (slot : ℕ) → slot < length owners.now → count_by (is_into slot) offers.now ≤ slice_index counts.old slot }
    ensures lowered { OnOk result ((slot : ℕ) → slice_index counts.new slot + count_by (is_into slot) offers.now ≡ slice_index counts.old slot) }
    ensures each { OnOk result ((slot : ℕ) → slot < length owners.now → slice_index counts.new slot ≡ 0 → (slice_index counts.old slot ≡ 0) ⊎ Contains waiting.new.items (slice_index owners.now slot)) }
    ensures kept { OnOk result ((place : ℕ) → Contains waiting.old.items place → Contains waiting.new.items place) }
    ensures only { OnOk result (All (λ place. Contains waiting.old.items place ⊎ SomeIndex owners.now (λ slot. (slice_index counts.new slot ≡ 0) × (slice_index owners.now slot ≡ place))) waiting.new.items) }
    ensures fewer { OnOk result (sum counts.new + vec_len waiting.new ≤ sum counts.old + vec_len waiting.old) }
{
    for offer in offers {
        counts[offer.slot] -= 1;
        if counts[offer.slot] == 0 {
            waiting.push(owners[offer.slot])?;
        }
    }
    Ok(())
}

/// Which places stand in the end: the greatest set that feeds itself.
pub fn settled<A: Allocator + Copy>(
    alloc: A,
    places: usize,
    owners: &[usize],
    offers: &[Offer],
) -> Result<Vec<bool, A>, AllocError>
    requires owners_low { All (λ place. place < places) owners.now }
    requires offers_low { All (λ offer. (offer.provider < places) × (offer.slot < length owners.now)) offers.now }
    requires grouped { IsNonDecreasingBy (λ offer. offer.provider) offers.now }
    ensures len { IfOk result (λ standing. vec_len standing ≡ places) }
    ensures itself { IfOk result (λ standing. FeedsItself owners.now offers.now (stands standing.items)) }
    ensures greatest { IfOk result (λ standing. (set : ℕ → Bool) → FeedsItself owners.now offers.now set → (place : ℕ) → place < places → set place ≡ true → stands standing.items place ≡ true) }
{
    let mut counts = counts_of(alloc, owners.len(), offers)?;
    let mut waiting = unfed(alloc, owners, &counts)?;
    let mut standing = vec![in alloc; true; places]?;
    while let Some(place) = waiting.pop() {
        if standing[place] {
            standing[place] = false;
            drop_offers(
                &mut counts,
                &mut waiting,
                owners,
                offers_from(offers, place),
            )?;
        }
    }
    Ok(standing)
}
