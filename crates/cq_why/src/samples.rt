//! Tokens that are tried at a place of a line, and those that may stand there.

ghost use Rattle.std.specs.Prelude.{◌≡◌, ◌++◌, List, ℕ, map, IfOk, OnOk};
ghost use Rattle.cq_render.specs.Explain.{ArePieces};
ghost use Rattle.cq_report.specs.Reading.{Reading, Reads, Faulty, IsReading};
ghost use Rattle.cq_why.specs.Why.{is_gap, is_first, samples, trial, is_of_unbound, passes, IsTried, AreExpected};

use cq_text::{Form, Kind, TextFault, read_command};
use std::alloc::{AllocError, Allocator};

/// A token, and the words for it.
type Sample = (&'static str, &'static str);

const COMMANDS: &[Sample] = &[
    ("board", "board"),
    ("relation", "relation"),
    ("limits", "limits"),
    ("post", "post"),
    ("withdraw", "withdraw"),
    ("insert", "insert"),
    ("delete", "delete"),
    ("publish", "publish"),
    ("show", "show"),
];

const TOKENS: &[Sample] = &[
    ("1", "a number"),
    ("\"a\"", "a \"text\""),
    ("A", "a Capitalised name"),
    ("a", "a lower-case name"),
    ("{", "{"),
    ("}", "}"),
    ("(", "("),
    (")", ")"),
    (",", ","),
    ("<-", "<-"),
    ("", "the end of the line"),
];

fn is_gap(byte: u8) -> bool
    ensures { result ≡ is_gap byte }
{
    byte == b' ' || byte == b'\t' || byte == b'\r'
}

/// Whether nothing but gaps stands in front of a place.
pub(crate) fn is_first(front: &[u8]) -> bool
    ensures { result ≡ is_first front.now }
{
    front.iter().all(|byte| is_gap(*byte))
}

fn samples(is_first: bool) -> &'static [Sample]
    ensures { map (λ sample. (sample.0.now, sample.1.now)) result.now ≡ samples is_first }
{
    if is_first { COMMANDS } else { TOKENS }
}

fn is_of_unbound(kind: Kind) -> bool
    ensures { result ≡ is_of_unbound kind }
{
    match kind {
        Kind::Token | Kind::Text | Kind::Number | Kind::Shape | Kind::Limit => false,
        Kind::Unbound => true,
    }
}

/// The front of a line, and the token behind it.
fn trial<A: Allocator + Copy>(alloc: A, front: &[u8], token: &str) -> Result<Vec<u8, A>, AllocError>
    ensures { IfOk result (λ text. text.items ≡ trial front.now token.now) }
{
    let mut text = Vec::from_slice(alloc, front)?;
    text.extend_from_slice(b" ")?;
    text.extend_from_slice(token.as_bytes())?;
    Ok(text)
}

/// Returns true if a trial with this first fault has it after the first byte of the token, or if it lacks only an atom of the body with a variable. Such an
/// atom may follow a token, but not the end of the line.
fn passes(front: &[u8], token: &str, kind: Kind, offset: usize) -> bool
    ensures { result ≡ passes front.now token.now (Faulty kind offset) }
{
    (is_of_unbound(kind) && !token.is_empty()) || offset.saturating_sub(front.len()) > 1
}

/// Whether the token may stand behind the front.
fn may_stand<A: Allocator + Copy>(
    alloc: A,
    form: Form,
    front: &[u8],
    token: &str,
) -> Result<bool, AllocError>
    ensures { IfOk result (λ may. (reading : Reading) × IsReading form (trial front.now token.now) reading × (may ≡ passes front.now token.now reading)) }
{
    let text = trial(alloc, front, token)?;
    match read_command(alloc, &text, form) {
        Ok(_command) => Ok(true),
        Err(TextFault::At { kind, offset }) => Ok(passes(front, token, kind, offset)),
        Err(TextFault::NoMemory) => Err(AllocError),
    }
}

/// Puts the words of the token, where it may stand there.
fn put_if_expected<A: Allocator + Copy>(
    alloc: A,
    form: Form,
    front: &[u8],
    sample: &Sample,
    words: &mut Vec<&'static str, A>,
) -> Result<(), AllocError>
    ensures { OnOk result ((piece : List (List ℕ)) × IsTried form front.now (sample.now.0.now, sample.now.1.now) piece × (map (λ word. word.now) words.new.items ≡ map (λ word. word.now) words.old.items ++ piece)) }
{
    let may = may_stand(alloc, form, front, sample.0)?;
    if may {
        words.push(sample.1)?;
    }
    Ok(())
}

/// The words of the tokens that may stand behind the front of a line.
///
/// # Errors
/// `AllocError` where an allocation failed.
pub(crate) fn expected<A: Allocator + Copy>(
    alloc: A,
    form: Form,
    front: &[u8],
) -> Result<Vec<&'static str, A>, AllocError>
    ensures { IfOk result (λ words. AreExpected form front.now (map (λ word. word.now) words.items)) }
{
    let mut words = Vec::new(alloc);
    let samples = samples(is_first(front));
    for sample in samples {
        put_if_expected(alloc, form, front, sample, &mut words)?;
    }
    Ok(words)
}
