//! What a body lacks that has no grounding.

ghost use Rattle.std.specs.Prelude.{◌≡◌, ◌++◌, ◌<◌, codes, length, map, string_bytes, IfOk, OnOk};
ghost use Rattle.std.specs.List.{flat_map};
ghost use Rattle.cq_text.specs.Print.{printed_value};
ghost use Rattle.cq_near.specs.Unfit.{unfit_read};
ghost use Rattle.cq_near.specs.Clash.{clash_read};
ghost use Rattle.cq_render.specs.Hints.{rows_word, near_values, unfit_words, clash_words, body_lack, lack_words};

use crate::walking::Listing;
use cq_atom::{Atom, Query, Value};
use cq_near::{Clash, Unfit, first_clash, first_unfit};
use cq_rel::Tables;
use cq_text::{print_atom, push_escaped};
use std::alloc::{AllocError, Allocator};

/// The value in its printed form.
fn value_words<A: Allocator + Copy>(alloc: A, value: &Value<A>) -> Result<String<A>, AllocError>
    ensures { IfOk result (λ text. string_bytes text ≡ printed_value value.now) }
{
    let mut words = String::new(alloc);
    if let Some(number) = value.as_num() {
        write!(words, "{number}")?;
    }
    if let Some(text) = value.as_text() {
        words.push('"')?;
        push_escaped(&mut words, text)?;
        words.push('"')?;
    }
    Ok(words)
}

/// The values in their printed form.
fn each_value<A: Allocator + Copy>(
    alloc: A,
    values: &[&Value<A>],
) -> Result<Vec<String<A>, A>, AllocError>
    ensures { IfOk result (λ words. map string_bytes words.items ≡ map printed_value (map (λ value. value.now) values.now)) }
{
    let mut words = Vec::new(alloc);
    for value in values {
        words.push(value_words(alloc, value)?)?;
    }
    Ok(words)
}

/// For which values the nearest row does not fit.
fn near_values<A: Allocator + Copy>(alloc: A, values: &[&Value<A>]) -> Result<String<A>, AllocError>
    ensures { IfOk result (λ text. string_bytes text ≡ near_values (map (λ value. value.now) values.now)) }
{
    if values.is_empty() {
        return Ok(String::new(alloc));
    }
    let words = each_value(alloc, values)?;
    let joined = words.join(alloc, ", ")?;
    let joined = joined.as_str();
    format!(in alloc; "; near {joined}")
}

fn rows_word(count: usize) -> &'static str
    ensures { result.now ≡ rows_word count }
{
    if count == 1 { "row" } else { "rows" }
}

fn unfit_words<A: Allocator + Copy>(
    alloc: A,
    found: &Unfit<&Atom<A>, Vec<&Value<A>, A>>,
) -> Result<String<A>, AllocError>
    ensures { IfOk result (λ text. string_bytes text ≡ unfit_words (unfit_read (λ atom. atom.now) (λ values. map (λ v. v.now) values.items) found.now)) }
{
    let atom = print_atom(alloc, found.atom)?;
    let near = near_values(alloc, &found.near)?;
    let atom = atom.as_str();
    let count = found.rows;
    let rows = rows_word(count);
    let near = near.as_str();
    format!(in alloc; ": {atom}: 0 of {count} {rows}{near}")
}

fn clash_words<A: Allocator + Copy>(
    alloc: A,
    found: &Clash<&Atom<A>>,
) -> Result<String<A>, AllocError>
    ensures { IfOk result (λ text. string_bytes text ≡ clash_words (clash_read (λ atom. atom.now) found.now)) }
{
    let atom = print_atom(alloc, found.atom)?;
    let atom = atom.as_str();
    let count = found.rows;
    let rows = rows_word(count);
    format!(in alloc; ": {atom}: 0 of {count} {rows} with the atoms before it")
}

/// What a body lacks.
fn body_lack<A: Allocator + Copy>(
    alloc: A,
    tables: &Tables<A>,
    query: &Query<A>,
) -> Result<String<A>, AllocError>
    ensures { IfOk result (λ text. string_bytes text ≡ body_lack tables.now query.now.body) }
{
    if let Some(found) = first_unfit(alloc, tables, query.body())? {
        return unfit_words(alloc, &found);
    }
    match first_clash(alloc, tables, query)? {
        Some(found) => clash_words(alloc, &found),
        None => Ok(String::new(alloc)),
    }
}

/// What the body of the query of that number lacks.
pub(crate) fn lack_words<A: Allocator + Copy>(
    alloc: A,
    listing: &Listing<'_, A>,
    number: usize,
) -> Result<String<A>, AllocError>
    requires { number < length listing.now.queries.items }
    ensures { IfOk result (λ text. string_bytes text ≡ lack_words listing.now.board.now number) }
{
    body_lack(alloc, listing.board.tables(), listing.queries[number].query)
}
