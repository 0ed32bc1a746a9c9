//! What `find` asks for.

ghost use Rattle.std.specs.Prelude.{◌≡◌, ◌++◌, ◌≤◌, length, map, string_bytes, IfOk};
ghost use Rattle.cq_text.specs.Fault.{FirstQueryFault};
ghost use Rattle.cq_text.specs.Grammar.{StandsForQuery};
ghost use Rattle.cq_text.specs.Views.{IfFault};
ghost use Rattle.cq_text.specs.Field.{value_of_field};
ghost use Rattle.cq_ask.specs.Ask.{words_of};
ghost use Rattle.cq_ask.specs.Find.{count_in, fault_place, find_front, find_parts, first_in, found_line, found_text, tail_len, variables_text};

use crate::reading::{is_word, words_of};
use cq_atom::{Query, Value};
use cq_render::{JsonText, put_values, put_variables};
use cq_text::{Form, TextFault, push_values, read_field, read_query};
use std::alloc::{AllocError, Allocator};
use std::marker::Model;

/// A body is read as that of a query that offers one constant.
const FRONT: &str = "{} Find(1) <- ";

/// What `find` asks for: a query that has the body, and how many groundings are wanted at most.
#[derive(Drop)]
pub struct Search<A: Allocator> {
    query: Query<A>,
    most: Option<u64>,
}

impl<A: Allocator> Model for Search<A> {
    ghost use Rattle.cq_ask.specs.Find.{SearchRecord};

    ghost Value = { SearchRecord };

    ghost view = { λ s. record { query = s.query; most = s.most } };
}

impl<A: Allocator> Search<A> {
    /// Returns a query that has the body.
    pub fn query(&self) -> &Query<A>
        ensures { result.now ≡ self.now.query }
    {
        &self.query
    }

    /// Returns how many groundings are wanted at most, if a number says so.
    pub fn most(&self) -> Option<u64>
        ensures { result ≡ self.now.most }
    {
        self.most
    }
}

/// Returns how many bytes come after the last `)`.
fn tail_len(text: &[u8]) -> usize
    ensures len { result ≡ tail_len text.now }
    ensures within { result ≤ length text.now }
{
    text.iter().rev().take_while(|byte| **byte != b')').count()
}

/// Returns the number that a word is, unless it is negative.
fn count_in<A: Allocator>(alloc: A, word: &[u8]) -> Result<Option<u64>, AllocError>
    ensures { IfOk result (λ count. count ≡ count_in (value_of_field word.now)) }
{
    match read_field(alloc, word) {
        Ok(value) => match value.as_num() {
            Some(number) => Ok(u64::try_from(number).ok()),
            None => Ok(None),
        },
        Err(TextFault::NoMemory) => Err(AllocError),
        Err(_) => Ok(None),
    }
}

/// Returns the number that a text names, if its words are `first` and a number.
fn first_in<A: Allocator + Copy>(alloc: A, text: &[u8]) -> Result<Option<u64>, AllocError>
    ensures { IfOk result (λ count. count ≡ first_in (words_of text.now)) }
{
    let words = words_of(alloc, text)?;
    if words.len() != 2 || !is_word(words[0], "first") {
        return Ok(None);
    }
    count_in(alloc, words[1])
}

/// Returns the body in a text, and how many groundings are wanted at most.
fn find_parts<A: Allocator + Copy>(
    alloc: A,
    text: &[u8],
) -> Result<(&[u8], Option<u64>), AllocError>
    ensures { IfOk result (λ parts. (parts.0.now, parts.1) ≡ find_parts text.now) }
{
    let (body, tail) = text.split_at(text.len() - tail_len(text));
    if body.is_empty() {
        return Ok((text, None));
    }
    match first_in(alloc, tail)? {
        Some(most) => Ok((body, Some(most))),
        None => Ok((text, None)),
    }
}

/// Returns the text of a query that has the body.
fn query_text<A: Allocator>(alloc: A, body: &[u8]) -> Result<Vec<u8, A>, AllocError>
    ensures { IfOk result (λ text. text.items ≡ find_front ++ body.now) }
{
    let mut text = Vec::from_slice(alloc, FRONT.as_bytes())?;
    text.extend_from_slice(body)?;
    Ok(text)
}

/// Reads a body behind the front.
fn read_body<A: Allocator + Copy>(alloc: A, form: Form, body: &[u8]) -> Result<Query<A>, TextFault>
    ensures body { IfOk result (λ query. StandsForQuery form (find_front ++ body.now) query) }
    ensures fault { IfFault result (λ kind offset. FirstQueryFault form (find_front ++ body.now) kind offset) }
{
    let text = query_text(alloc, body)?;
    read_query(alloc, &text, form)
}

/// Reads what `find` asks for, from the text after that word.
///
/// # Errors
/// The first fault of the body, with its kind and with an offset of which [`fault_place`] says the byte of the line; `NoMemory` if an
/// allocation fails.
pub fn read_find<A: Allocator + Copy>(
    alloc: A,
    form: Form,
    text: &[u8],
) -> Result<Search<A>, TextFault>
    ensures body { IfOk result (λ search. StandsForQuery form (find_front ++ (find_parts text.now).0) search.query) }
    ensures most { IfOk result (λ search. search.most ≡ (find_parts text.now).1) }
    ensures fault { IfFault result (λ kind offset. FirstQueryFault form (find_front ++ (find_parts text.now).0) kind offset) }
{
    let (body, most) = find_parts(alloc, text)?;
    match read_body(alloc, form, body) {
        Ok(query) => Ok(Search { query, most }),
        Err(fault) => Err(fault),
    }
}

/// Returns the byte of the line at which a fault is, of a body that begins at this place of it.
pub fn fault_place(place: usize, offset: usize) -> usize
    ensures { result ≡ fault_place place offset }
{
    place.saturating_add(offset.saturating_sub(FRONT.len()))
}

// ---- groundings

/// Returns copies of the values.
fn copies<A: Allocator + Copy>(
    alloc: A,
    values: &[&Value<A>],
) -> Result<Vec<Value<A>, A>, AllocError>
    ensures { IfOk result (λ copies. copies.items ≡ map (λ value. value.now) values.now) }
{
    let mut copies = Vec::with_capacity(alloc, values.len())?;
    for value in values {
        copies.push(value.copy()?)?;
    }
    Ok(copies)
}

/// Returns a grounding in a line.
///
/// # Errors
/// `AllocError` if an allocation fails.
pub fn found_line<A: Allocator + Copy>(
    alloc: A,
    values: &[&Value<A>],
) -> Result<String<A>, AllocError>
    ensures { IfOk result (λ text. string_bytes text ≡ found_line (map (λ value. value.now) values.now)) }
{
    let values = copies(alloc, values)?;
    let mut text = String::new(alloc);
    push_values(&mut text, &values)?;
    text.push('\n')?;
    Ok(text)
}

/// Returns a grounding as JSON.
///
/// # Errors
/// `AllocError` if an allocation fails.
pub fn found_text<A: Allocator + Copy>(
    alloc: A,
    values: &[&Value<A>],
) -> Result<String<A>, AllocError>
    ensures { IfOk result (λ text. string_bytes text ≡ found_text (map (λ value. value.now) values.now)) }
{
    let values = copies(alloc, values)?;
    let mut sheet = JsonText::begin(alloc);
    put_values(&mut sheet, &values)?;
    Ok(sheet.into_text())
}

/// Returns what comes before the groundings of the query in JSON: the variables of its body.
///
/// # Errors
/// `AllocError` if an allocation fails.
pub fn variables_text<A: Allocator + Copy>(
    alloc: A,
    query: &Query<A>,
) -> Result<String<A>, AllocError>
    ensures { IfOk result (λ text. string_bytes text ≡ variables_text query.now) }
{
    let mut sheet = JsonText::begin(alloc);
    put_variables(&mut sheet, query.variables())?;
    let names = sheet.into_text();
    let names = names.as_str();
    format!(in alloc; ",\"find\":{{\"variables\":{names},\"groundings\":[")
}
