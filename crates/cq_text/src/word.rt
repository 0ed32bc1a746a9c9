//! Identifiers.

ghost use Rattle.std.specs.Prelude.{◌≡◌, ◌≤◌, IsTrue, length};
ghost use Rattle.std.specs.List.{prefix_len};
ghost use Rattle.cq_atom.specs.Text.{is_word_byte, begins_with_letter, begins_with_upper, begins_with_lower};
ghost use Rattle.cq_text.specs.Steps.Words.{is_identifier};

use std::marker::Model;
use std::str;

/// An identifier: a letter, and then letters, digits and `_`.
#[derive(Drop)]
pub(crate) struct Identifier<'a> {
    text: &'a str,
}

impl<'a> Model for Identifier<'a> {
    ghost use Rattle.std.specs.Prelude.{List, ℕ, IsTrue};
    ghost use Rattle.cq_text.specs.Steps.Words.{is_identifier};

    ghost Value = { List ℕ };

    ghost view = { λ w. w.text.now };

    ghost invariant = { λ w. IsTrue (is_identifier w.text.now) };
}

/// Most bytes of identifiers are lower-case letters, so these take the fewest tests.
fn is_word_byte(byte: u8) -> bool
    ensures { result ≡ is_word_byte byte }
{
    if byte >= b'a' {
        byte <= b'z'
    } else if byte >= b'A' {
        byte <= b'Z' || byte == b'_'
    } else {
        byte.is_ascii_digit()
    }
}

/// How many bytes at the front may stand after an identifier's letter.
pub(crate) fn word_len(bytes: &[u8]) -> usize
    ensures len { result ≡ prefix_len is_word_byte bytes.now }
    ensures within { result ≤ length bytes.now }
{
    bytes.iter().take_while(|byte| is_word_byte(**byte)).count()
}

impl<'a> Identifier<'a> {
    pub(crate) fn new(bytes: &'a [u8]) -> Identifier<'a>
        requires { IsTrue (is_identifier bytes.now) }
        ensures { result ≡ bytes.now }
    {
        // SAFETY: the bytes are ASCII, which the proof shows.
        let text = unsafe { str::from_utf8_unchecked(bytes) };
        Identifier { text }
    }

    pub(crate) fn as_str(&self) -> &'a str
        ensures value { result.now ≡ self.now }
        ensures valid { IsTrue (is_identifier self.now) }
    {
        self.text
    }

    pub(crate) fn is_upper(&self) -> bool
        ensures { result ≡ begins_with_upper self.now }
    {
        match self.text.as_bytes() {
            [] => false,
            [first, ..] => first.is_ascii_uppercase(),
        }
    }

    pub(crate) fn is_lower(&self) -> bool
        ensures { result ≡ begins_with_lower self.now }
    {
        match self.text.as_bytes() {
            [] => false,
            [first, ..] => first.is_ascii_lowercase(),
        }
    }
}
