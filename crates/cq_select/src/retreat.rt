//! How a search goes back over its choices, by the members because of which a need could not be supplied.

ghost use Rattle.std.specs.Prelude.{◌≡◌, ◌<◌, ◌++◌, ◌↔◌, ◌⊎◌, ℕ, true, false, List, [], ◌∷◌, OnOk, MatchOption, nat_eq, length, slice_index_or, if◌then◌else◌, ◌==◌};
ghost use Rattle.std.specs.HashMap.{get};
ghost use Rattle.std.specs.List.{Contains};
ghost use Rattle.cq_select.specs.Selection.{IsSelection, member_count, owner_of};
ghost use Rattle.cq_select.specs.declared.supply.Supply.{Supply};
ghost use Rattle.cq_select.specs.Steps.Facts.{chosen_of, IsTrail, IsFrame, IsChoosing, IsExhausted, IsBlocked};

use crate::supply::{Supply, owner_of};
use crate::trail::{Frame, Seats, Trail, leave_seat};
use std::alloc::{AllocError, Allocator};

/// Adds more members to a reason, each once.
fn add_reasons<A: Allocator>(reason: &mut Vec<usize, A>, more: &[usize]) -> Result<(), AllocError>
    ensures { OnOk result ((m : ℕ) → Contains reason.new.items m ↔ (Contains reason.old.items m ⊎ Contains more.now m)) }
{
    reason.extend_from_slice(more)?;
    reason.sort_unstable();
    reason.dedup();
    Ok(())
}

/// Marks the atom as one that no selection supplies, where its suppliers were refuted for no reason but themselves.
fn mark_lost<A: Allocator>(trail: &mut Trail<A>)
    ensures frames { trail.new.frames ≡ trail.old.frames }
    ensures exhausted { (supply : Supply A) (wanted : List ℕ) → IsExhausted supply wanted trail.old → IsExhausted supply wanted trail.new }
{
    mark(&mut trail.lost, &trail.choice.reason, trail.choice.atom);
}

/// Adds the member that needs the atom to the reason.
fn add_cause<A: Allocator>(trail: &mut Trail<A>) -> Result<(), AllocError>
    ensures frames { trail.new.frames ≡ trail.old.frames }
    ensures blocked { OnOk result ((supply : Supply A) (wanted : List ℕ) → IsExhausted supply wanted trail.old → IsBlocked supply wanted trail.new) }
{
    match trail.choice.cause {
        Some(cause) => {
            trail.choice.reason.push(cause)?;
            Ok(())
        }
        None => Ok(()),
    }
}

/// Notes that the member is chosen no longer.
fn leave<A: Allocator>(seats: &mut Seats<A>, supply: &Supply<A>, member: usize)
    ensures { member < member_count supply.now → (q : ℕ) → get nat_eq seats.new q ≡ (if owner_of supply.now member == q then None else get nat_eq seats.old q) }
{
    match owner_of(supply, member) {
        Some(owner) => leave_seat(seats, owner),
        None => {}
    }
}

/// Takes back the last choice. There is none where none was made.
fn take_back<A: Allocator>(trail: &mut Trail<A>, supply: &Supply<A>) -> Option<Frame<A>>
    ensures choice { trail.new.choice ≡ trail.old.choice }
    ensures frames { MatchOption result (trail.old.frames.items ≡ []) (λ frame. trail.old.frames.items ≡ trail.new.frames.items ++ frame ∷ []) }
    ensures good { (wanted : List ℕ) → IsTrail supply.now wanted trail.old → MatchOption result (trail.old.frames.items ≡ []) (λ frame. IsTrail supply.now wanted trail.new × IsFrame supply.now wanted (chosen_of trail.new.frames.items) frame) }
{
    match trail.frames.pop() {
        Some(frame) => {
            leave(&mut trail.seats, supply, frame.member);
            Some(frame)
        }
        None => None,
    }
}

/// Takes the member out of a conflict.
fn leave_out<A: Allocator>(conflict: &mut Vec<usize, A>, member: usize)
    ensures { (m : ℕ) → Contains conflict.new.items m ↔ (Contains conflict.old.items m × (m ≡ member → ⊥)) }
{
    conflict.retain(|other| *other != member);
}

/// Marks the member, or the atom, where nobody else is in the reason.
fn mark<A: Allocator>(marks: &mut Vec<bool, A>, others: &[usize], number: usize)
    ensures len { length marks.new.items ≡ length marks.old.items }
    ensures marks { (m : ℕ) → slice_index_or marks.new.items m false ≡ true → (slice_index_or marks.old.items m false ≡ true) ⊎ ((m ≡ number) × (others.now ≡ [])) }
{
    if others.is_empty() && number < marks.len() {
        marks[number] = true;
    }
}

/// Opens the choice again whose member is in the conflict: the others in it are a reason against that member.
fn reopen<A: Allocator>(trail: &mut Trail<A>, frame: Frame<A>) -> Result<(), AllocError>
    ensures frames { trail.new.frames ≡ trail.old.frames }
    ensures seats { trail.new.seats ≡ trail.old.seats }
    ensures choice { OnOk result (trail.new.choice ≡ record frame.choice { reason = trail.new.choice.reason }) }
    ensures reason { OnOk result ((m : ℕ) → Contains trail.new.choice.reason.items m ↔ (Contains frame.choice.reason.items m ⊎ (Contains trail.old.choice.reason.items m × (m ≡ frame.member → ⊥)))) }
    ensures lost { trail.new.lost ≡ trail.old.lost }
    ensures dead_len { length trail.new.dead.items ≡ length trail.old.dead.items }
    ensures dead { (m : ℕ) → slice_index_or trail.new.dead.items m false ≡ true → (slice_index_or trail.old.dead.items m false ≡ true) ⊎ ((m ≡ frame.member) × ((other : ℕ) → Contains trail.old.choice.reason.items other → (other ≡ frame.member → ⊥) → ⊥)) }
{
    let Frame { mut choice, member } = frame;
    leave_out(&mut trail.choice.reason, member);
    mark(&mut trail.dead, &trail.choice.reason, member);
    add_reasons(&mut choice.reason, &trail.choice.reason)?;
    trail.choice = choice;
    Ok(())
}

/// Goes back to the last choice whose member has a part in it that a need could not be supplied, and opens that choice
/// again. There is none only where there is no selection.
///
/// That the need could not be supplied rests on the members of the reason and on the one that has the need, and on no others.
/// So what was chosen after the last of these is taken back without trying anything else there (conflict-directed
/// backjumping: Prosser, 1993).
pub fn retreat<A: Allocator>(trail: &mut Trail<A>, supply: &Supply<A>) -> Result<bool, AllocError>
    ensures back { result ≡ Ok true → (wanted : List ℕ) → IsExhausted supply.now wanted trail.old → IsChoosing supply.now wanted trail.new }
    ensures fewer { result ≡ Ok true → length trail.new.frames.items < length trail.old.frames.items }
    ensures none { result ≡ Ok false → (wanted : List ℕ) → IsExhausted supply.now wanted trail.old → (chosen : List ℕ) → IsSelection supply.now wanted chosen → ⊥ }
{
    mark_lost(trail);
    add_cause(trail)?;
    while let Some(frame) = take_back(trail, supply) {
        if trail.choice.reason.contains(&frame.member) {
            reopen(trail, frame)?;
            return Ok(true);
        }
    }
    Ok(false)
}
