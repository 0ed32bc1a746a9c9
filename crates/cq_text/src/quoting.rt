//! Quoted texts.

ghost use Rattle.std.specs.Prelude.{◌≡◌, ◌<◌, ◌≤◌, ◌+◌, length, IfOk, IfErr, MatchOption};
ghost use Rattle.std.specs.Option.{option_map};
ghost use Rattle.std.specs.List.{prefix_len};
ghost use Rattle.cq_text.specs.Lexing.{content, quoted_token};
ghost use Rattle.cq_text.specs.Steps.Lexing.{text_of, is_verbatim, closes, escaped_byte};

use crate::fault::{Kind, TextFault};
use crate::token::{TextToken, Token};
use cq_atom::{Bad, MAX_TEXT, Value};
use std::alloc::{AllocError, Allocator};
use std::str;

/// For how many bytes a text has room at first: none that is good grows beyond it.
const ROOM: usize = MAX_TEXT;

/// Whether a byte between quotes stands for itself.
fn is_verbatim(byte: u8) -> bool
    ensures { result ≡ is_verbatim byte }
{
    byte != b'"' && byte != b'\\'
}

/// How many bytes at the front stand for themselves.
fn verbatim_len(bytes: &[u8]) -> usize
    ensures len { result ≡ prefix_len is_verbatim bytes.now }
    ensures within { result ≤ length bytes.now }
{
    bytes.iter().take_while(|byte| is_verbatim(**byte)).count()
}

/// Whether the closing quote comes.
fn closes(bytes: &[u8]) -> bool
    ensures { result ≡ closes bytes.now }
{
    match bytes {
        [] => false,
        [first, ..] => *first == b'"',
    }
}

/// The byte that the escape at the front stands for, if one comes.
fn escaped_byte(bytes: &[u8]) -> Option<u8>
    ensures { result ≡ escaped_byte bytes.now }
{
    match bytes {
        [first, byte, ..] if *first == b'\\' && !is_verbatim(*byte) => Some(*byte),
        _ => None,
    }
}

/// What the bytes after an opening quote stand for, and how many they are with the closing quote. A byte after
/// a backslash is put with the run after it.
fn content<A: Allocator>(alloc: A, bytes: &[u8]) -> Result<Option<(Vec<u8, A>, usize)>, AllocError>
    ensures content { IfOk result (λ found. option_map (λ x. (x.0.items, x.1)) found ≡ content bytes.now) }
    ensures within { IfOk result (λ found. MatchOption found (Unit {0}) (λ x. x.1 ≤ length bytes.now)) }
{
    let mut text = Vec::with_capacity(alloc, ROOM)?;
    let mut at = 0;
    let mut seen = 0;
    'runs: loop {
        let end = seen + verbatim_len(&bytes[seen..]);
        text.extend_from_slice(&bytes[at..end])?;
        let rest = &bytes[end..];
        if closes(rest) {
            return Ok(Some((text, end + 1)));
        }
        let Some(_byte) = escaped_byte(rest) else {
            return Ok(None);
        };
        at = end + 1;
        seen = end + 2;
    }
}

/// The text that bytes are, if they are one.
pub(crate) fn text_of<A: Allocator>(alloc: A, bytes: &[u8]) -> Result<Option<Value<A>>, TextFault>
    ensures text { IfOk result (λ found. found ≡ text_of bytes.now) }
    ensures memory { IfErr result (λ fault. fault ≡ TextFault.NoMemory) }
{
    let Ok(text) = str::from_utf8(bytes) else {
        return Ok(None);
    };
    match Value::text(alloc, text) {
        Ok(value) => Ok(Some(value)),
        Err(Bad::NoMemory) => Err(TextFault::NoMemory),
        Err(_) => Ok(None),
    }
}

/// The token of the quoted text whose bytes stand after its opening quote.
pub(crate) fn quoted_token<'a, A: Allocator + Copy>(
    alloc: A,
    bytes: &[u8],
) -> Result<(TextToken<'a, A>, usize), TextFault>
    ensures token { IfOk result (λ x. quoted_token (content bytes.now) ≡ (x.0, x.1)) }
    ensures within { IfOk result (λ x. (0 < x.1) × (x.1 ≤ length bytes.now + 1)) }
    ensures memory { IfErr result (λ fault. fault ≡ TextFault.NoMemory) }
{
    let Some((text, len)) = content(alloc, bytes)? else {
        return Ok((Token::Bad(Kind::Text), 1));
    };
    match text_of(alloc, &text)? {
        Some(value) => Ok((Token::Literal(value), len + 1)),
        None => Ok((Token::Bad(Kind::Text), 1)),
    }
}
