//! Whether the entries of a journal are those that its sessions were told.

ghost use Rattle.std.specs.Prelude.{◌≡◌, ℕ, ◌<◌, ◌≤◌, ◌==◌, ◌++◌, ◌∷◌, [], map, length, slice_index_or, if◌then◌else◌, IfOk, IfSome, MatchBool, ⊤};
ghost use Rattle.cq_sessions.specs.Sessions.{entered_by};
ghost use Rattle.cq_sessions.specs.Steps.Sheets.{numbers_of};
ghost use Rattle.cq_sessions.specs.Steps.Rooms.{AreTold, numbers_told};

use crate::sheet::Sheet;
use cq_atom::Edit;
use cq_desk::Entry;
use std::alloc::{AllocError, Allocator};

/// What is left of a session's numbers after an entry: all where it is another's, and those after the first where that is the
/// entry's. Else nothing.
fn left_after<'a>(numbers: &'a [u64], own: bool, number: u64) -> Option<&'a [u64]>
    ensures { IfSome result (λ rest. numbers.now ≡ (if own then number ∷ rest.now else rest.now)) }
{
    if !own {
        return Some(numbers);
    }
    match numbers.split_first() {
        Some((first, rest)) if *first == number => Some(rest),
        _ => None,
    }
}

/// Whether the session's entries have these numbers, in order, and no others.
fn has_numbers<A: Allocator>(journal: &[Entry<Edit<A>>], session: usize, numbers: &[u64]) -> bool
    ensures { MatchBool result (numbers_of (entered_by session 1 journal.now) ≡ numbers.now) ⊤ }
{
    let mut left = numbers;
    for place in 0..journal.len() {
        let own = journal[place].author == session;
        let Some(rest) = left_after(left, own, place as u64 + 1) else {
            return false;
        };
        left = rest;
    }
    left.is_empty()
}

/// Whether each entry is of one of so many sessions.
fn has_authors<A: Allocator>(journal: &[Entry<Edit<A>>], sessions: usize) -> bool
    ensures { MatchBool result ((session : ℕ) → sessions ≤ session → entered_by session 1 journal.now ≡ []) ⊤ }
{
    for place in 0..journal.len() {
        if journal[place].author >= sessions {
            return false;
        }
    }
    true
}

/// The numbers that the session of that place was told, where the first was told these.
fn numbers_at<'a, A: Allocator + Copy>(
    place: usize,
    first: &'a [u64],
    sheet: &'a Sheet<A>,
) -> &'a [u64]
    ensures { result.now ≡ (if place == 0 then first.now else sheet.now.numbers) }
{
    if place == 0 { first } else { sheet.numbers() }
}

/// Whether the entries of each session have the numbers of its sheet; those of the first have these.
fn have_numbers<A: Allocator + Copy>(
    journal: &[Entry<Edit<A>>],
    first: &[u64],
    sheets: &[Sheet<A>],
) -> bool
    ensures { MatchBool result ((session : ℕ) → session < length sheets.now → numbers_of (entered_by session 1 journal.now) ≡ (if session == 0 then first.now else slice_index_or (map (λ sheet. sheet.numbers) sheets.now) session [])) ⊤ }
{
    for place in 0..sheets.len() {
        if !has_numbers(journal, place, numbers_at(place, first, &sheets[place])) {
            return false;
        }
    }
    true
}

/// The numbers of SETUP's sheet, and after them those of the first file.
fn first_numbers<A: Allocator + Copy>(
    alloc: A,
    setup: &Sheet<A>,
    sheets: &[Sheet<A>],
) -> Result<Vec<u64, A>, AllocError>
    ensures { IfOk result (λ numbers. numbers.items ≡ setup.now.numbers ++ slice_index_or (map (λ sheet. sheet.numbers) sheets.now) 0 []) }
{
    let mut numbers = Vec::from_slice(alloc, setup.numbers())?;
    if let Some(sheet) = sheets.first() {
        numbers.extend_from_slice(sheet.numbers())?;
    }
    Ok(numbers)
}

/// Whether each session's entries stand in the journal at the numbers that it was told, on SETUP's sheet and on those of the
/// files, and there are no others.
pub(crate) fn is_told<A: Allocator + Copy>(
    alloc: A,
    journal: &[Entry<Edit<A>>],
    setup: &Sheet<A>,
    sheets: &[Sheet<A>],
) -> Result<bool, AllocError>
    ensures { IfOk result (λ told. MatchBool told (AreTold journal.now (numbers_told setup.now.numbers (map (λ sheet. sheet.numbers) sheets.now))) ⊤) }
{
    if !has_authors(journal, sheets.len()) {
        return Ok(false);
    }
    let first = first_numbers(alloc, setup, sheets)?;
    Ok(have_numbers(journal, &first, sheets))
}
