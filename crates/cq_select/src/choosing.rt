//! How a member is chosen for a need, and what is noted of those that cannot be.

ghost use Rattle.std.specs.Prelude.{◌≡◌, ◌+◌, ◌<◌, ◌≤◌, ◌^◌, ◌++◌, ℕ, true, false, List, [], ◌∷◌, OnOk, nat_eq, length, slice_index, slice_index_or, if◌then◌else◌, ◌==◌};
ghost use Rattle.std.specs.HashMap.{get};
ghost use Rattle.cq_select.specs.Selection.{IsSelection};
ghost use Rattle.cq_select.specs.Steps.Facts.{IsVerdict, IsScanning, IsChoosing, IsLooking, IsExhausted};

use crate::retreat::retreat;
use crate::supply::{Supply, owner_of, suppliers_of};
use crate::trail::{Choice, Frame, Trail, seat_of, take_seat};
use std::alloc::{AllocError, Allocator};
use std::mem::replace;

/// What is found of a candidate.
pub enum Verdict {
    /// It may be chosen, for that owner.
    Free(usize),
    /// No selection has it.
    Never,
    /// That member of its owner is chosen.
    Taken(usize),
}

/// How looking for a member ended.
pub enum Trial {
    /// One was chosen.
    Chosen,
    /// None is left.
    Exhausted,
    /// The budget is used up.
    Stopped,
}

/// Takes the next supplier as the candidate, and counts it as a step.
fn next_candidate<A: Allocator>(
    choice: &mut Choice<A>,
    suppliers: &[usize],
    steps: &mut u64,
) -> usize
    requires left { choice.old.tried < length suppliers.now }
    requires fits { steps.old + 1 < 2 ^ 64 }
    ensures candidate { result ≡ slice_index suppliers.now choice.old.tried }
    ensures next { choice.new ≡ record choice.old { tried = choice.old.tried + 1 } }
    ensures counted { steps.new ≡ steps.old + 1 }
{
    let candidate = suppliers[choice.tried];
    choice.tried += 1;
    *steps += 1;
    candidate
}

/// Whether the member, or the atom, is marked.
fn is_marked(marks: &[bool], number: usize) -> bool
    ensures { result ≡ slice_index_or marks.now number false }
{
    match marks.get(number) {
        Some(mark) => *mark,
        None => false,
    }
}

/// Passes over all suppliers of the atom, where it is marked as one that no selection supplies.
fn pass_over<A: Allocator>(trail: &mut Trail<A>, supply: &Supply<A>)
    ensures frames { trail.new.frames ≡ trail.old.frames }
    ensures atom { trail.new.choice.atom ≡ trail.old.choice.atom }
    ensures choosing { (wanted : List ℕ) → IsChoosing supply.now wanted trail.old → IsChoosing supply.now wanted trail.new }
{
    if is_marked(&trail.lost, trail.choice.atom) {
        trail.choice.tried = suppliers_of(supply, trail.choice.atom).len();
    }
}

/// Whether the candidate may be chosen.
fn judge<A: Allocator>(trail: &Trail<A>, supply: &Supply<A>, candidate: usize) -> Verdict
    ensures { IsVerdict supply.now trail.now candidate result }
{
    let owner = match owner_of(supply, candidate) {
        Some(owner) => owner,
        None => return Verdict::Never,
    };
    if is_marked(&trail.dead, candidate) {
        return Verdict::Never;
    }
    match seat_of(&trail.seats, owner) {
        Some(other) => Verdict::Taken(other),
        None => Verdict::Free(owner),
    }
}

/// Makes the open choice: the member is chosen for the owner. The next choice begins at the same place.
fn close<A: Allocator + Copy>(
    trail: &mut Trail<A>,
    owner: usize,
    member: usize,
) -> Result<(), AllocError>
    ensures frames { OnOk result (trail.new.frames.items ≡ trail.old.frames.items ++ record { choice = trail.old.choice; member = member } ∷ []) }
    ensures list { trail.new.choice.list ≡ trail.old.choice.list }
    ensures place { trail.new.choice.place ≡ trail.old.choice.place }
    ensures fresh { trail.new.choice.tried ≡ 0 }
    ensures clear { trail.new.choice.reason.items ≡ [] }
    ensures seats { OnOk result ((q : ℕ) → get nat_eq trail.new.seats q ≡ (if owner == q then Some member else get nat_eq trail.old.seats q)) }
    ensures dead { trail.new.dead ≡ trail.old.dead }
    ensures lost { trail.new.lost ≡ trail.old.lost }
{
    let next = Choice {
        list: trail.choice.list,
        place: trail.choice.place,
        atom: trail.choice.atom,
        cause: trail.choice.cause,
        tried: 0,
        reason: Vec::new(trail.alloc),
    };
    let choice = replace(&mut trail.choice, next);
    trail.frames.push(Frame { choice, member })?;
    take_seat(&mut trail.seats, owner, member)
}

/// Chooses the candidate where it may be, and else notes because of whom not.
fn take<A: Allocator + Copy>(
    trail: &mut Trail<A>,
    supply: &Supply<A>,
    candidate: usize,
) -> Result<bool, AllocError>
    ensures chosen { result ≡ Ok true → (wanted : List ℕ) → IsLooking supply.now wanted trail.old candidate → IsScanning supply.now wanted trail.new }
    ensures refused { result ≡ Ok false → (wanted : List ℕ) → IsLooking supply.now wanted trail.old candidate → IsChoosing supply.now wanted trail.new }
    ensures frames { result ≡ Ok false → trail.new.frames ≡ trail.old.frames }
    ensures atom { result ≡ Ok false → trail.new.choice.atom ≡ trail.old.choice.atom }
    ensures tried { result ≡ Ok false → trail.new.choice.tried ≡ trail.old.choice.tried }
{
    match judge(trail, supply, candidate) {
        Verdict::Free(owner) => {
            close(trail, owner, candidate)?;
            Ok(true)
        }
        Verdict::Never => Ok(false),
        Verdict::Taken(other) => {
            trail.choice.reason.push(other)?;
            Ok(false)
        }
    }
}

/// Tries the suppliers that are left, one by one.
fn try_suppliers<A: Allocator + Copy>(
    trail: &mut Trail<A>,
    supply: &Supply<A>,
    steps: &mut u64,
    budget: u64,
) -> Result<Trial, AllocError>
    requires { steps.old ≤ budget }
    ensures within { steps.new ≤ budget }
    ensures rising { steps.old ≤ steps.new }
    ensures counted { result ≡ Ok Trial.Chosen → steps.old < steps.new }
    ensures stopped { result ≡ Ok Trial.Stopped → steps.new ≡ budget }
    ensures chosen { result ≡ Ok Trial.Chosen → (wanted : List ℕ) → IsChoosing supply.now wanted trail.old → IsScanning supply.now wanted trail.new }
    ensures exhausted { result ≡ Ok Trial.Exhausted → (wanted : List ℕ) → IsChoosing supply.now wanted trail.old → IsExhausted supply.now wanted trail.new }
    ensures frames { result ≡ Ok Trial.Exhausted → trail.new.frames ≡ trail.old.frames }
{
    let suppliers = suppliers_of(supply, trail.choice.atom);
    while trail.choice.tried < suppliers.len() {
        if *steps == budget {
            return Ok(Trial::Stopped);
        }
        let candidate = next_candidate(&mut trail.choice, suppliers, steps);
        if take(trail, supply, candidate)? {
            return Ok(Trial::Chosen);
        }
    }
    Ok(Trial::Exhausted)
}

/// Chooses a member for the open choice, or for an earlier one where that has none. None is left only where there is no
/// selection.
pub fn choose<A: Allocator + Copy>(
    trail: &mut Trail<A>,
    supply: &Supply<A>,
    steps: &mut u64,
    budget: u64,
) -> Result<Trial, AllocError>
    requires { steps.old ≤ budget }
    ensures within { steps.new ≤ budget }
    ensures counted { result ≡ Ok Trial.Chosen → steps.old < steps.new }
    ensures stopped { result ≡ Ok Trial.Stopped → steps.new ≡ budget }
    ensures chosen { result ≡ Ok Trial.Chosen → (wanted : List ℕ) → IsChoosing supply.now wanted trail.old → IsScanning supply.now wanted trail.new }
    ensures none { result ≡ Ok Trial.Exhausted → (wanted : List ℕ) → IsChoosing supply.now wanted trail.old → (chosen : List ℕ) → IsSelection supply.now wanted chosen → ⊥ }
{
    loop {
        pass_over(trail, supply);
        match try_suppliers(trail, supply, steps, budget)? {
            Trial::Chosen => return Ok(Trial::Chosen),
            Trial::Stopped => return Ok(Trial::Stopped),
            Trial::Exhausted => {}
        }
        if !retreat(trail, supply)? {
            return Ok(Trial::Exhausted);
        }
    }
}
