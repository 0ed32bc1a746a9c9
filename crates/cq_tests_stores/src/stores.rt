//! Stores that tables of calls drive. What drives them is generic in the store, since what is known of a store that is
//! owned would be too much.

use crate::texts::command;
use cq_refusing::Outcome;
use cq_text::Command;
use std::alloc::{AllocError, Allocator};
use std::mem::{drop, replace};

/// A store, or what is asked as one.
pub trait Store<A: Allocator + Copy>: Drop {
    /// A call as a table has it, with what it is to show.
    type Call;

    /// The store before the first call.
    fn begin(alloc: A) -> Result<Self, AllocError>;

    /// The text of the command that the call is made with, empty where there is none.
    fn text(call: &Self::Call) -> &'static str;

    /// Makes the call with the command, and answers whether it is allowed and shows what it is to show.
    fn make(&mut self, alloc: A, call: &Self::Call, given: &Command<A>) -> Result<bool, AllocError>;
}

/// What can be copied.
pub trait Copied: Drop {
    fn copied(&self) -> Result<Self, AllocError>;
}

/// Goes on with a copy in place of the store.
pub fn go_on_with_copy<S: Copied>(store: &mut S) -> Result<bool, AllocError> {
    let copy = store.copied()?;
    drop(replace(store, copy));
    Ok(true)
}

fn is_right<A: Allocator + Copy, S: Store<A>>(
    alloc: A,
    store: &mut S,
    call: &S::Call,
) -> Result<bool, AllocError> {
    let given = command(alloc, S::text(call))?;
    store.make(alloc, call, &given)
}

/// The place of the first call that shows something else.
fn other_in<A: Allocator + Copy, S: Store<A>>(
    alloc: A,
    store: &mut S,
    calls: &[S::Call],
) -> Result<Option<usize>, AllocError> {
    for (place, call) in calls.iter().enumerate() {
        if !is_right(alloc, store, call)? {
            return Ok(Some(place));
        }
    }
    Ok(None)
}

/// The same of calls in parts: the place of the part, and that in it.
fn other_call<A: Allocator + Copy, S: Store<A>>(
    alloc: A,
    store: &mut S,
    parts: &[&[S::Call]],
) -> Result<Option<(usize, usize)>, AllocError> {
    for (part, calls) in parts.iter().enumerate() {
        if let Some(place) = other_in(alloc, store, calls)? {
            return Ok(Some((part, place)));
        }
    }
    Ok(None)
}

/// The same of a store that begins.
fn other_of<A: Allocator + Copy, S: Store<A>>(
    alloc: A,
    parts: &[&[S::Call]],
) -> Result<Option<(usize, usize)>, AllocError> {
    let mut store = S::begin(alloc)?;
    other_call(alloc, &mut store, parts)
}

/// The same of cases, for each of which a store begins: the place of the case, that of the part, and that in it.
pub fn other_case<A: Allocator + Copy, S: Store<A>>(
    alloc: A,
    cases: &[&[&[S::Call]]],
) -> Result<Option<(usize, usize, usize)>, AllocError> {
    for (place, case) in cases.iter().enumerate() {
        if let Some((part, call)) = other_of::<A, S>(alloc, case)? {
            return Ok(Some((place, part, call)));
        }
    }
    Ok(None)
}

/// A call whose allocations are refused, and calls that show what stands: before it and where it was refused, and after it.
pub struct Trial<'t, C> {
    pub before: &'t [&'t [C]],
    pub tried: C,
    pub shown: &'t [&'t [C]],
    pub after: &'t [&'t [C]],
}

/// What came of the call. After one that was refused all stands as before, and the call made again is right. What is
/// refused after the call is no refusal of it.
fn outcome<A: Allocator + Copy, S: Store<A>>(
    alloc: A,
    store: &mut S,
    trial: &Trial<S::Call>,
    given: &Command<A>,
) -> Outcome {
    match store.make(alloc, &trial.tried, given) {
        Ok(right) => Outcome::done_if(
            right && matches!(other_call(alloc, store, trial.after), Ok(None) | Err(_)),
        ),
        Err(_) => Outcome::refused_if(
            other_call(alloc, store, trial.shown) == Ok(None)
                && store.make(alloc, &trial.tried, given) == Ok(true)
                && other_call(alloc, store, trial.after) == Ok(None),
        ),
    }
}

/// Whether the calls before it, and those that show what stands, are right.
fn is_ready<A: Allocator + Copy, S: Store<A>>(
    alloc: A,
    store: &mut S,
    trial: &Trial<S::Call>,
) -> Result<bool, AllocError> {
    Ok(
        other_call(alloc, store, trial.before)?.is_none()
            && other_call(alloc, store, trial.shown)?.is_none(),
    )
}

fn tried_behind<A: Allocator + Copy, S: Store<A>>(
    alloc: A,
    store: &mut S,
    trial: &Trial<S::Call>,
) -> Result<Outcome, AllocError> {
    if !is_ready(alloc, store, trial)? {
        return Ok(Outcome::Wrong);
    }
    let given = command(alloc, S::text(&trial.tried))?;
    Ok(outcome(alloc, store, trial, &given))
}

fn tried_once<A: Allocator + Copy, S: Store<A>>(
    alloc: A,
    trial: &Trial<S::Call>,
) -> Result<Outcome, AllocError> {
    let mut store = S::begin(alloc)?;
    tried_behind(alloc, &mut store, trial)
}

/// What came of the trial at the place.
pub fn tried_at<A: Allocator + Copy, S: Store<A>>(
    alloc: A,
    trials: &[Trial<S::Call>],
    place: usize,
) -> Outcome {
    match trials.get(place) {
        Some(trial) => tried_once::<A, S>(alloc, trial).unwrap_or(Outcome::Unready),
        None => Outcome::Wrong,
    }
}
