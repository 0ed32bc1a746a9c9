//! What is wrong at a place of a line.

ghost use Rattle.std.specs.Prelude.{◌≡◌, ◌++◌, ◌&&◌, List, ℕ, true, false, map, codes, string_bytes, OnOk, IfOk, Some, option_map};
ghost use Rattle.std.specs.List.{list_any};
ghost use Rattle.std.specs.Str.{bytes_eq};
ghost use Rattle.cq_why.specs.Why.{is_lower, found, found_words, one_of, separator, meant, no_command_words, limit_words, expected_words, unexpected_words, is_no_command, is_mark, token_words, IsHint};

use crate::closest::closest;
use crate::found::{first_bytes, put_found, word_len};
use crate::samples::{expected, is_first};
use cq_text::{Form, Kind};
use std::alloc::{AllocError, Allocator};

fn separator(count: usize, place: usize) -> &'static str
    ensures { result.now ≡ separator count place }
{
    if place == 0 {
        ""
    } else if count.saturating_sub(place) == 1 {
        " or "
    } else {
        ", "
    }
}

/// Puts the words as one of several.
fn put_one_of<A: Allocator>(page: &mut String<A>, words: &[&str]) -> Result<(), AllocError>
    ensures { OnOk result (string_bytes page.new ≡ string_bytes page.old ++ one_of (map (λ word. word.now) words.now)) }
{
    for (place, word) in words.iter().enumerate() {
        page.push_str(separator(words.len(), place))?;
        page.push_str(word)?;
    }
    Ok(())
}

fn is_lower(rest: &[u8]) -> bool
    ensures { result ≡ is_lower rest.now }
{
    match rest.first() {
        Some(byte) => byte.is_ascii_lowercase(),
        None => false,
    }
}

/// Whether a constant may stand there.
fn has_text(words: &[&str]) -> bool
    ensures { result ≡ list_any (λ word. bytes_eq (codes "a \"text\"") word.now) words.now }
{
    words.iter().any(|word| "a \"text\"" == *word)
}

/// Puts what is found there, and words behind it.
fn put_found_and<A: Allocator>(
    page: &mut String<A>,
    rest: &[u8],
    words: &str,
) -> Result<(), AllocError>
    ensures { OnOk result (string_bytes page.new ≡ string_bytes page.old ++ (found rest.now ++ words.now)) }
{
    put_found(page, rest)?;
    page.push_str(words)
}

/// Whether a variable stands there, where a constant may.
fn is_variable(words: &[&str], rest: &[u8]) -> bool
    ensures { result ≡ (is_lower rest.now && list_any (λ word. bytes_eq (codes "a \"text\"") word.now) words.now) }
{
    is_lower(rest) && has_text(words)
}

/// Puts words, and what is found there behind them.
fn put_front_and<A: Allocator>(
    page: &mut String<A>,
    words: &str,
    rest: &[u8],
) -> Result<(), AllocError>
    ensures { OnOk result (string_bytes page.new ≡ string_bytes page.old ++ (words.now ++ found rest.now)) }
{
    page.push_str(words)?;
    put_found(page, rest)
}

/// Puts what was found at the front of the rest of a line.
fn put_found_words<A: Allocator>(
    page: &mut String<A>,
    words: &[&str],
    rest: &[u8],
) -> Result<(), AllocError>
    ensures { OnOk result (string_bytes page.new ≡ string_bytes page.old ++ found_words (map (λ word. word.now) words.now) rest.now) }
{
    if rest.is_empty() {
        page.push_str("the line ends")?;
        return Ok(());
    }
    if is_variable(words, rest) {
        put_found_and(page, rest, " is a variable")
    } else {
        put_front_and(page, "found ", rest)
    }
}

/// Puts that this name was meant.
fn put_name<A: Allocator>(page: &mut String<A>, name: &str) -> Result<(), AllocError>
    ensures { OnOk result (string_bytes page.new ≡ string_bytes page.old ++ meant (Some name.now)) }
{
    page.push_str("; did you mean ")?;
    page.push_str(name)?;
    page.push_str("?")?;
    Ok(())
}

/// Puts which name was meant, if one is known.
pub(crate) fn put_meant<A: Allocator>(
    page: &mut String<A>,
    name: Option<&str>,
) -> Result<(), AllocError>
    ensures { OnOk result (string_bytes page.new ≡ string_bytes page.old ++ meant (option_map (λ name. name.now) name.entry)) }
{
    match name {
        Some(name) => put_name(page, name),
        None => Ok(()),
    }
}

/// Puts that a word is no command, and which one was meant.
fn put_no_command<A: Allocator + Copy>(
    alloc: A,
    words: &[&str],
    rest: &[u8],
    page: &mut String<A>,
) -> Result<(), AllocError>
    ensures { OnOk result (string_bytes page.new ≡ string_bytes page.old ++ no_command_words (map (λ word. word.now) words.now) rest.now) }
{
    let mut word = String::new(alloc);
    put_found(&mut word, rest)?;
    page.push_str(word.as_str())?;
    page.push_str(": no such command")?;
    put_meant(page, closest(alloc, word.as_str(), words)?)
}

fn limit_words(form: Form) -> &'static str
    ensures { result.now ≡ limit_words form }
{
    match form {
        Form::One =>
            "form 1 has names of up to 32 characters, up to 8 terms to an atom, 8 atoms to a part of a query, 131072 bytes to a line, and counts from 1",
        Form::Two =>
            "form 2 has names of up to 32 characters, up to 16 terms to an atom, 16 atoms to a part of a query, 524288 bytes to a line, and counts from 1",
    }
}

/// Writes which tokens are accepted there, or that none is, and the limits of the form.
fn put_expected<A: Allocator>(
    page: &mut String<A>,
    form: Form,
    words: &[&str],
) -> Result<(), AllocError>
    ensures { OnOk result (string_bytes page.new ≡ string_bytes page.old ++ expected_words form (map (λ word. word.now) words.now)) }
{
    if words.is_empty() {
        page.push_str("nothing may follow: ")?;
        page.push_str(limit_words(form))
    } else {
        page.push_str("expected ")?;
        put_one_of(page, words)
    }
}

/// Writes what was expected, and what was found.
fn put_unexpected<A: Allocator>(
    page: &mut String<A>,
    form: Form,
    words: &[&str],
    rest: &[u8],
) -> Result<(), AllocError>
    ensures { OnOk result (string_bytes page.new ≡ string_bytes page.old ++ unexpected_words form (map (λ word. word.now) words.now) rest.now) }
{
    put_expected(page, form, words)?;
    page.push_str("; ")?;
    put_found_words(page, words, rest)
}

/// Whether a word stands at the front of a line.
fn is_no_command(front: &[u8], rest: &[u8]) -> bool
    ensures { result ≡ is_no_command front.now rest.now }
{
    is_first(front) && word_len(rest) != 0
}

/// Puts what is wrong with a token that may not stand there.
fn put_shape<A: Allocator + Copy>(
    alloc: A,
    form: Form,
    front: &[u8],
    rest: &[u8],
    page: &mut String<A>,
) -> Result<(), AllocError>
    ensures { OnOk result ((words : List ℕ) × IsHint form Kind.Shape front.now rest.now words × (string_bytes page.new ≡ string_bytes page.old ++ words)) }
{
    let words = expected(alloc, form, front)?;
    if is_no_command(front, rest) {
        put_no_command(alloc, &words, rest, page)
    } else {
        put_unexpected(page, form, &words, rest)
    }
}

/// Whether a byte order mark stands in front of the line.
fn is_mark(front: &[u8], rest: &[u8]) -> bool
    ensures { result ≡ is_mark front.now rest.now }
{
    front.is_empty() && first_bytes(rest, 3) == b"\xef\xbb\xbf".as_slice()
}

/// Puts what is wrong with a byte that begins no token.
fn put_token<A: Allocator>(
    page: &mut String<A>,
    front: &[u8],
    rest: &[u8],
) -> Result<(), AllocError>
    ensures { OnOk result (string_bytes page.new ≡ string_bytes page.old ++ token_words (is_mark front.now rest.now) rest.now) }
{
    if is_mark(front, rest) {
        page.push_str("a byte order mark, with which no script begins")
    } else {
        put_found_and(page, rest, ": begins no token")
    }
}

/// Puts what is wrong at a place of a line, between its front and its rest.
///
/// # Errors
/// `AllocError` where an allocation failed. A part of the words may be put then.
pub(crate) fn put_hint<A: Allocator + Copy>(
    alloc: A,
    form: Form,
    kind: Kind,
    front: &[u8],
    rest: &[u8],
    page: &mut String<A>,
) -> Result<(), AllocError>
    ensures { OnOk result ((words : List ℕ) × IsHint form kind front.now rest.now words × (string_bytes page.new ≡ string_bytes page.old ++ words)) }
{
    match kind {
        Kind::Token => put_token(page, front, rest),
        Kind::Text => page.push_str(
            "a text ends with \", has up to 255 bytes of UTF-8 without control characters, and \\ before \" and \\ alone",
        ),
        Kind::Number => page.push_str(
            "a number is from -9223372036854775808 to 9223372036854775807, without + or a zero in front",
        ),
        Kind::Shape => put_shape(alloc, form, front, rest, page),
        Kind::Limit => page.push_str(limit_words(form)),
        Kind::Unbound => put_found_and(page, rest, ": no atom of the body has this variable"),
    }
}
