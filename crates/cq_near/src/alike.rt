//! How alike words, values and atoms are.

ghost use Rattle.std.specs.Prelude.{◌≡◌, ◌≤◌, ◌*◌, ◌+◌, map, length, string_bytes, IfOk};
ghost use Rattle.std.specs.Option.{option_copied};
ghost use Rattle.cq_atom.specs.Limits.{max_arity};
ghost use Rattle.cq_atom.specs.Atom.{constant_of};
ghost use Rattle.cq_near.specs.Alike.{distance, letters, is_alike, apart_at, apart, likeness};

use cq_atom::{Atom, Term, Value};
use std::alloc::{AllocError, Allocator};
use strsim::levenshtein;

/// How many letters are to be changed, put in or left out, so that the one word becomes the other one (Levenshtein). Time in proportion to the product of
/// their lengths.
///
/// # Errors
/// `AllocError` where an allocation failed.
pub fn distance<A: Allocator + Copy>(alloc: A, one: &str, other: &str) -> Result<usize, AllocError>
    ensures { IfOk result (λ changes. changes ≡ distance one.now other.now) }
{
    levenshtein(alloc, one, other)
}

/// A number in decimal, or the text itself.
fn letters<A: Allocator + Copy>(alloc: A, value: &Value<A>) -> Result<String<A>, AllocError>
    ensures { IfOk result (λ text. string_bytes text ≡ letters value.now) }
{
    if let Some(text) = value.as_text() {
        return String::from_str(alloc, text);
    }
    match value.as_num() {
        Some(number) => format!(in alloc; "{number}"),
        None => unreachable!(),
    }
}

/// How far the letters of two values are apart.
fn letters_apart<A: Allocator + Copy>(
    alloc: A,
    one: &Value<A>,
    other: &Value<A>,
) -> Result<usize, AllocError>
    ensures { IfOk result (λ changes. changes ≡ distance (letters one.now) (letters other.now)) }
{
    let one = letters(alloc, one)?;
    let other = letters(alloc, other)?;
    distance(alloc, &one, &other)
}

/// The same. Texts are compared as they are.
fn values_apart<A: Allocator + Copy>(
    alloc: A,
    one: &Value<A>,
    other: &Value<A>,
) -> Result<usize, AllocError>
    ensures { IfOk result (λ changes. changes ≡ distance (letters one.now) (letters other.now)) }
{
    match (one.as_text(), other.as_text()) {
        (Some(one), Some(other)) => distance(alloc, one, other),
        _ => letters_apart(alloc, one, other),
    }
}

/// How far what stands at two places is apart, where both are constants.
pub(crate) fn apart_at<A: Allocator + Copy>(
    alloc: A,
    wanted: Option<&Value<A>>,
    there: Option<&Value<A>>,
) -> Result<usize, AllocError>
    ensures { IfOk result (λ changes. changes ≡ apart_at (option_copied wanted.entry) (option_copied there.entry)) }
{
    match (wanted, there) {
        (Some(wanted), Some(there)) => values_apart(alloc, wanted, there),
        _ => Ok(0),
    }
}

/// How far the constants of a head are apart from those of an atom, place by place.
fn terms_apart<A: Allocator + Copy>(
    alloc: A,
    wanted: &[Term<A>],
    there: &[Term<A>],
) -> Result<u128, AllocError>
    requires wanted { length wanted.now ≤ max_arity }
    requires there { length there.now ≤ max_arity }
    ensures value { IfOk result (λ changes. changes ≡ apart (map constant_of wanted.now) (map constant_of there.now)) }
    ensures few { IfOk result (λ changes. changes ≤ 16 * u64.MAX + 16) }
{
    let mut changes = wanted.len().abs_diff(there.len()) as u128;
    for place in 0..wanted.len().min(there.len()) {
        let (one, other) = (wanted[place].as_constant(), there[place].as_constant());
        changes += apart_at(alloc, one, other)? as u128;
    }
    Ok(changes)
}

/// Whether no more than a third of the name's letters are to be changed.
fn is_alike(changes: usize, wanted: &str) -> bool
    ensures { result ≡ is_alike changes wanted.now }
{
    changes <= wanted.len() / 3
}

/// How many letters of the names and constants of an atom are to be changed, so that it is like a head; nothing where the names of their relations are not
/// alike: where more than a third of the wanted one's letters are to be changed. A term that has none opposite counts as one. Time in proportion to the product
/// of the lengths of what is compared.
///
/// # Errors
/// `AllocError` where an allocation failed.
pub fn likeness<A: Allocator + Copy>(
    alloc: A,
    wanted: &Atom<A>,
    head: &Atom<A>,
) -> Result<Option<u128>, AllocError>
    ensures { IfOk result (λ found. found ≡ likeness wanted.now head.now) }
{
    let renamed = distance(alloc, wanted.relation(), head.relation())?;
    if !is_alike(renamed, wanted.relation()) {
        return Ok(None);
    }
    let changes = terms_apart(alloc, wanted.terms(), head.terms())?;
    Ok(Some(renamed as u128 + changes))
}
