//! What has been chosen so far, and why.

ghost use Rattle.std.specs.Prelude.{◌≡◌, ◌==◌, ℕ, nat_eq, OnOk, if◌then◌else◌};
ghost use Rattle.std.specs.HashMap.{get};

use std::alloc::{AllocError, Allocator, Global};
use std::collections::HashMap;
use std::hash::{BuildHasherDefault, FoldHasher};

/// The member that is chosen of each owner.
pub type Seats<A> = HashMap<usize, usize, BuildHasherDefault<FoldHasher>, A>;

/// A need that is to be supplied, and how far its suppliers were tried.
///
/// What is asked for stands in lists of atoms: the first has those that are wanted, and each after it those that a chosen
/// member needs, in the order in which they were chosen. All in earlier lists, and before the place in this one, is supplied.
#[derive(Drop)]
pub struct Choice<A: Allocator = Global> {
    /// The number of the list, from 0.
    pub list: usize,
    /// The place of the need in that list.
    pub place: usize,
    /// The atom that is needed.
    pub atom: usize,
    /// The member that needs it. `None` where it is wanted.
    pub cause: Option<usize>,
    /// How many of its suppliers were tried.
    pub tried: usize,
    /// Members chosen earlier because of which those that were tried cannot be chosen.
    pub reason: Vec<usize, A>,
}

/// A choice that was made.
#[derive(Drop)]
pub struct Frame<A: Allocator = Global> {
    /// What was to be supplied. The member is the last that was tried.
    pub choice: Choice<A>,
    /// The member that was chosen.
    pub member: usize,
}

/// The state of a search.
#[derive(Drop)]
pub struct Trail<A: Allocator = Global> {
    /// The choice that is to be made next.
    pub choice: Choice<A>,
    /// The choices that were made, the last one on top.
    pub frames: Vec<Frame<A>, A>,
    /// Who was chosen of each owner.
    pub seats: Seats<A>,
    /// Which members no selection has.
    pub dead: Vec<bool, A>,
    /// Which atoms no selection supplies.
    pub lost: Vec<bool, A>,
    /// Where memory comes from.
    pub alloc: A,
}

/// Who was chosen of the owner.
pub fn seat_of<A: Allocator>(seats: &Seats<A>, owner: usize) -> Option<usize>
    ensures { result ≡ get nat_eq seats.now owner }
{
    match seats.get(&owner) {
        Some(member) => Some(*member),
        None => None,
    }
}

/// Notes who was chosen of the owner.
pub fn take_seat<A: Allocator + Copy>(
    seats: &mut Seats<A>,
    owner: usize,
    member: usize,
) -> Result<(), AllocError>
    ensures { OnOk result ((q : ℕ) → get nat_eq seats.new q ≡ (if owner == q then Some member else get nat_eq seats.old q)) }
{
    seats.insert(owner, member)?;
    Ok(())
}

/// Notes that nobody is chosen of the owner.
pub fn leave_seat<A: Allocator>(seats: &mut Seats<A>, owner: usize)
    ensures { (q : ℕ) → get nat_eq seats.new q ≡ (if owner == q then None else get nat_eq seats.old q) }
{
    let _ = seats.remove(&owner);
}
