//! Tokens at the front of bytes.

ghost use Rattle.std.specs.Prelude.{◌≡◌, ◌<◌, ◌≤◌, ◌+◌, ◌*◌, ◌^◌, length, take, slice_index, IfOk, IfErr, IsTrue, MatchOption};
ghost use Rattle.std.specs.List.{prefix_len};
ghost use Rattle.std.specs.Char.{is_ascii_digit};
ghost use Rattle.cq_atom.specs.Text.{begins_with_letter};
ghost use Rattle.cq_atom.specs.declared.value.Content.{Content};
ghost use Rattle.cq_text.specs.Lexing.{is_space, is_blank, magnitude, is_plain, positive, negative, negative_token, arrow_token, sign_token};
ghost use Rattle.cq_text.specs.Steps.Lexing.{word_of, positive_of, front_of, number_or_bad, sign_of};

use crate::fault::{Kind, TextFault};
use crate::quoting::quoted_token;
use crate::token::{Sign, TextToken, Token};
use crate::word::{Identifier, word_len};
use cq_atom::Value;
use std::alloc::Allocator;

/// A number up to this one has room for one more digit.
const SHORT: u64 = 1_000_000_000_000_000_000;

fn is_space(byte: u8) -> bool
    ensures { result ≡ is_space byte }
{
    byte == b' ' || byte == b'\t' || byte == b'\r'
}

/// How many bytes at the front may stand between tokens.
pub(crate) fn spaces_len(bytes: &[u8]) -> usize
    ensures len { result ≡ prefix_len is_space bytes.now }
    ensures within { result ≤ length bytes.now }
{
    bytes.iter().take_while(|byte| is_space(**byte)).count()
}

/// Whether a line has no token: it is spaces alone, or a comment.
pub(crate) fn is_blank(bytes: &[u8]) -> bool
    ensures { result ≡ is_blank bytes.now }
{
    match &bytes[spaces_len(bytes)..] {
        [] => true,
        [first, ..] => *first == b'#',
    }
}

fn digits_len(bytes: &[u8]) -> usize
    ensures len { result ≡ prefix_len is_ascii_digit bytes.now }
    ensures within { result ≤ length bytes.now }
{
    bytes
        .iter()
        .take_while(|byte| byte.is_ascii_digit())
        .count()
}

/// A number with one more digit, where it fits. Up to `SHORT` each does.
fn with_digit(number: u64, digit: u64) -> Option<u64>
    requires { digit < 256 }
    ensures { MatchOption result (2 ^ 64 ≤ 10 * number + digit) (λ v. v ≡ 10 * number + digit) }
{
    if number <= SHORT {
        Some(number * 10 + digit)
    } else {
        number.checked_mul(10)?.checked_add(digit)
    }
}

/// The number that digits stand for, where it fits.
fn magnitude(digits: &[u8]) -> Option<u64>
    ensures { MatchOption result (2 ^ 64 ≤ magnitude digits.now) (λ v. v ≡ magnitude digits.now) }
{
    let mut value = 0u64;
    for digit in digits {
        value = with_digit(value, u64::from(digit.saturating_sub(b'0')))?;
    }
    Some(value)
}

/// Whether no zero stands before other digits.
fn is_plain(digits: &[u8]) -> bool
    ensures { result ≡ is_plain digits.now }
{
    match digits {
        [] => false,
        [_] => true,
        [first, ..] => *first > b'0',
    }
}

/// The number that digits alone are, which stand for this value, where it is a good one.
fn number_of(digits: &[u8], value: u64) -> Option<i64>
    requires { value ≡ magnitude digits.now }
    ensures { number_or_bad result ≡ positive digits.now }
{
    if !is_plain(digits) {
        return None;
    }
    i64::try_from(value).ok()
}

/// The number that digits alone are, where it is a good one.
pub(crate) fn positive(digits: &[u8]) -> Option<i64>
    ensures { number_or_bad result ≡ positive digits.now }
{
    let magnitude = magnitude(digits)?;
    number_of(digits, magnitude)
}

/// The number that digits are after a minus, where it is a good one.
pub(crate) fn negative(digits: &[u8]) -> Option<i64>
    ensures { number_or_bad result ≡ negative digits.now }
{
    let magnitude = magnitude(digits)?;
    if magnitude == 0 || !is_plain(digits) {
        return None;
    }
    0i64.checked_sub_unsigned(magnitude)
}

fn number_token<'a, A: Allocator>(number: Option<i64>) -> TextToken<'a, A>
    ensures { result ≡ number_or_bad number }
{
    match number {
        Some(number) => Token::Literal(Value::num(number)),
        None => Token::Bad(Kind::Number),
    }
}

/// The identifier at the front, and how many bytes it takes.
pub(crate) fn front_word(bytes: &[u8]) -> (Identifier<'_>, usize)
    requires { IsTrue (begins_with_letter bytes.now) }
    ensures token { word_of bytes.now ≡ (Token.Word result.0, result.1) }
    ensures within { (0 < result.1) × (result.1 ≤ length bytes.now) }
{
    let len = word_len(&bytes[1..]) + 1;
    (Identifier::new(&bytes[..len]), len)
}

fn positive_token<'a, A: Allocator>(bytes: &[u8]) -> (TextToken<'a, A>, usize)
    requires { 0 < length bytes.now }
    ensures token { positive_of bytes.now ≡ (result.0, result.1) }
    ensures within { (0 < result.1) × (result.1 ≤ length bytes.now) }
{
    let len = digits_len(&bytes[1..]) + 1;
    (number_token(positive(&bytes[..len])), len)
}

/// What the digits at the front stand for, where it fits, and how many they are.
fn front_digits(bytes: &[u8]) -> Option<(u64, usize)>
    ensures { MatchOption result (Unit {0}) (λ x. (x.1 ≡ prefix_len is_ascii_digit bytes.now) × (x.0 ≡ magnitude (take x.1 bytes.now))) }
{
    let mut value = 0u64;
    for (len, byte) in bytes.iter().enumerate() {
        if !byte.is_ascii_digit() {
            return Some((value, len));
        }
        value = with_digit(value, u64::from(*byte - b'0'))?;
    }
    Some((value, bytes.len()))
}

/// The number without a minus at the front, where it is a good one, and how many bytes it takes.
pub(crate) fn front_number(bytes: &[u8]) -> Option<(i64, usize)>
    ensures digit { MatchOption result (Unit {0}) (λ x. IsTrue (is_ascii_digit (slice_index bytes.now 0))) }
    ensures token { MatchOption result (Unit {0}) (λ x. positive_of bytes.now ≡ (Token.Literal (Content.Number x.0), x.1)) }
    ensures within { MatchOption result (Unit {0}) (λ x. (0 < x.1) × (x.1 ≤ length bytes.now)) }
{
    let (value, len) = front_digits(bytes)?;
    let number = number_of(&bytes[..len], value)?;
    Some((number, len))
}

/// The number whose digits stand after a minus.
fn negative_token<'a, A: Allocator>(bytes: &[u8]) -> (TextToken<'a, A>, usize)
    ensures token { negative_token bytes.now ≡ (result.0, result.1) }
    ensures within { (0 < result.1) × (result.1 ≤ length bytes.now + 1) }
{
    let len = digits_len(bytes);
    if len == 0 {
        return (Token::Bad(Kind::Token), 1);
    }
    (number_token(negative(&bytes[..len])), len + 1)
}

/// The arrow whose rest stands after `<`.
fn arrow_token<'a, A: Allocator>(bytes: &[u8]) -> (TextToken<'a, A>, usize)
    ensures token { arrow_token bytes.now ≡ (result.0, result.1) }
    ensures within { (0 < result.1) × (result.1 ≤ length bytes.now + 1) }
{
    match bytes {
        [b'-', ..] => (Token::Mark(Sign::Arrow), 2),
        _ => (Token::Bad(Kind::Token), 1),
    }
}

/// The sign that a byte is.
pub(crate) fn sign_of(byte: u8) -> Option<Sign>
    ensures { result ≡ sign_of byte }
{
    match byte {
        b'{' => Some(Sign::OpenBrace),
        b'}' => Some(Sign::CloseBrace),
        b'(' => Some(Sign::OpenParen),
        b')' => Some(Sign::CloseParen),
        b',' => Some(Sign::Comma),
        _ => None,
    }
}

fn sign_token<'a, A: Allocator>(byte: u8) -> TextToken<'a, A>
    ensures { result ≡ sign_token byte }
{
    match sign_of(byte) {
        Some(sign) => Token::Mark(sign),
        None => Token::Bad(Kind::Token),
    }
}

/// The token at the front of bytes, and how many bytes it takes.
pub(crate) fn front<'a, A: Allocator + Copy>(
    alloc: A,
    bytes: &'a [u8],
) -> Result<(TextToken<'a, A>, usize), TextFault>
    requires { 0 < length bytes.now }
    ensures token { IfOk result (λ x. front_of bytes.now ≡ (x.0, x.1)) }
    ensures within { IfOk result (λ x. (0 < x.1) × (x.1 ≤ length bytes.now)) }
    ensures memory { IfErr result (λ fault. fault ≡ TextFault.NoMemory) }
{
    let first = bytes[0];
    if first.is_ascii_alphabetic() {
        let (word, len) = front_word(bytes);
        Ok((Token::Word(word), len))
    } else if first.is_ascii_digit() {
        Ok(positive_token(bytes))
    } else if first == b'-' {
        Ok(negative_token(&bytes[1..]))
    } else if first == b'<' {
        Ok(arrow_token(&bytes[1..]))
    } else if first == b'"' {
        quoted_token(alloc, &bytes[1..])
    } else {
        Ok((sign_token(first), 1))
    }
}
