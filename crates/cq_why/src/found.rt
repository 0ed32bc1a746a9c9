//! What stands at a place of a line, as it is shown.

ghost use Rattle.std.specs.Prelude.{◌≡◌, ◌++◌, ◌∷◌, [], not, take, string_bytes, OnOk};
ghost use Rattle.std.specs.List.{position};
ghost use Rattle.cq_why.specs.Why.{is_word_byte, word_len, shown_byte, shown, found, excerpt};

use std::alloc::{AllocError, Allocator};

/// How many bytes of a line are shown on each side of a place.
const MOST_SHOWN: usize = 40;

fn is_word_byte(byte: u8) -> bool
    ensures { result ≡ is_word_byte byte }
{
    matches!(byte, b'0'..=b'9' | b'A'..=b'Z' | b'a'..=b'z' | b'_')
}

/// Where the word ends that begins the rest of a line, if anything stands behind it.
fn word_end(rest: &[u8]) -> Option<usize>
    ensures { result ≡ position (λ byte. not (is_word_byte byte)) rest.now }
{
    rest.iter().position(|byte| !is_word_byte(*byte))
}

/// How many bytes the word has that begins the rest of a line.
pub(crate) fn word_len(rest: &[u8]) -> usize
    ensures { result ≡ word_len rest.now }
{
    word_end(rest).unwrap_or(rest.len())
}

/// The first bytes, so many if there are as many.
pub(crate) fn first_bytes(bytes: &[u8], count: usize) -> &[u8]
    ensures { result.now ≡ take count bytes.now }
{
    if bytes.len() < count {
        return bytes;
    }
    let (front, _) = bytes.split_at(count);
    front
}

/// The byte as it is shown.
fn shown_byte(byte: u8) -> u8
    ensures { result ≡ shown_byte byte }
{
    if byte >= 32 && byte <= 126 {
        byte
    } else {
        b'?'
    }
}

/// Puts the byte as it is shown.
fn put_byte<A: Allocator>(page: &mut String<A>, byte: u8) -> Result<(), AllocError>
    ensures { OnOk result (string_bytes page.new ≡ string_bytes page.old ++ (shown_byte byte ∷ [])) }
{
    page.push(char::from(shown_byte(byte)))
}

/// Puts the bytes as they are shown.
pub(crate) fn put_shown<A: Allocator>(page: &mut String<A>, bytes: &[u8]) -> Result<(), AllocError>
    ensures { OnOk result (string_bytes page.new ≡ string_bytes page.old ++ shown bytes.now) }
{
    for byte in bytes {
        put_byte(page, *byte)?;
    }
    Ok(())
}

/// Puts the word that begins the rest of a line, or else its first byte.
pub(crate) fn put_found<A: Allocator>(page: &mut String<A>, rest: &[u8]) -> Result<(), AllocError>
    ensures { OnOk result (string_bytes page.new ≡ string_bytes page.old ++ found rest.now) }
{
    let len = word_len(rest).max(1);
    put_shown(page, &rest[..len.min(rest.len())])
}

/// The first bytes, as many as are shown.
pub(crate) fn shortened(rest: &[u8]) -> &[u8]
    ensures { result.now ≡ take 40 rest.now }
{
    if rest.len() < MOST_SHOWN {
        return rest;
    }
    let (front, _) = rest.split_at(MOST_SHOWN);
    front
}

/// Puts the line around a place, which `^` marks.
pub(crate) fn put_excerpt<A: Allocator>(
    page: &mut String<A>,
    front: &[u8],
    rest: &[u8],
) -> Result<(), AllocError>
    ensures { OnOk result (string_bytes page.new ≡ string_bytes page.old ++ excerpt front.now rest.now) }
{
    let (_, before) = front.split_at(front.len().saturating_sub(MOST_SHOWN));
    put_shown(page, before)?;
    page.push_str("^")?;
    put_shown(page, shortened(rest))
}
