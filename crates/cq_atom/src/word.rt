//! The tests of bytes that the constructors share.

ghost use Rattle.std.specs.Prelude.{◌≡◌, fold, true, IsTrue};
ghost use Rattle.std.specs.List.{list_all};
ghost use Rattle.std.specs.Str.{bytes_eq};
ghost use Rattle.cq_atom.specs.Text.{is_word_byte, begins_with_letter, is_name, is_variable_name, is_relation_name, begins_with_lower, begins_with_upper, is_plain_byte, is_text};
ghost use Rattle.cq_atom.specs.Steps.Plain.{still_plain};

use crate::limits::{MAX_NAME, MAX_TEXT};

fn is_word_byte_at(byte: u8) -> bool
    ensures { result ≡ is_word_byte byte }
{
    byte.is_ascii_alphanumeric() || byte == b'_'
}

fn are_word_bytes(text: &str) -> bool
    ensures { result ≡ list_all is_word_byte text.now }
{
    text.as_bytes().iter().all(|byte| is_word_byte_at(*byte))
}

fn begins_with_letter_in(text: &str) -> bool
    ensures { result ≡ begins_with_letter text.now }
{
    match text.as_bytes() {
        [] => false,
        [first, ..] => first.is_ascii_alphabetic(),
    }
}

pub(crate) fn is_name_text(text: &str) -> bool
    ensures { result ≡ is_name text.now }
{
    begins_with_letter_in(text) && text.len() <= MAX_NAME && are_word_bytes(text)
}

fn begins_with_lower_in(text: &str) -> bool
    ensures { result ≡ begins_with_lower text.now }
{
    match text.as_bytes() {
        [] => false,
        [first, ..] => first.is_ascii_lowercase(),
    }
}

fn begins_with_upper_in(text: &str) -> bool
    ensures { result ≡ begins_with_upper text.now }
{
    match text.as_bytes() {
        [] => false,
        [first, ..] => first.is_ascii_uppercase(),
    }
}

pub(crate) fn is_variable_text(text: &str) -> bool
    ensures { result ≡ is_variable_name text.now }
{
    is_name_text(text) && begins_with_lower_in(text)
}

/// Whether the bytes are a relation's name: a name that begins with an upper-case letter.
pub fn is_relation_text(text: &str) -> bool
    ensures { result ≡ is_relation_name text.now }
{
    is_name_text(text) && begins_with_upper_in(text)
}

fn is_plain_byte_at(byte: u8) -> bool
    ensures { result ≡ is_plain_byte byte }
{
    (byte >= 32) & (byte != 127)
}

/// Each byte is looked at, whatever the others are, so that the machine may look at many at once.
fn are_plain_bytes(bytes: &[u8]) -> bool
    ensures { result ≡ fold still_plain true bytes.now }
{
    bytes.iter().fold(true, |are_plain, byte| are_plain & is_plain_byte_at(*byte))
}

fn is_plain(text: &str) -> bool
    ensures { result ≡ list_all is_plain_byte text.now }
{
    are_plain_bytes(text.as_bytes())
}

pub(crate) fn is_text_content(text: &str) -> bool
    ensures { result ≡ is_text text.now }
{
    text.len() <= MAX_TEXT && is_plain(text)
}

/// Whether the names have one length and one last byte: few that differ do.
fn are_alike(name: &str, other: &str) -> bool
    ensures { name.now ≡ other.now → IsTrue result }
{
    let (name, other) = (name.as_bytes(), other.as_bytes());
    let len = name.len();
    len == other.len() && (len == 0 || name[len - 1] == other[len - 1])
}

/// Whether the names are one: the test `==`, at less cost where they are short or differ, as most names are and do.
pub fn same_name(name: &str, other: &str) -> bool
    ensures { result ≡ bytes_eq name.now other.now }
{
    if !are_alike(name, other) {
        return false;
    }
    if name.len() < 8 {
        return name.as_bytes() == other.as_bytes();
    }
    name == other
}
