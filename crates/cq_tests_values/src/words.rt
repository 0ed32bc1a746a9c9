//! Names, values and terms.

use crate::samples::{Sample, row};
use cq_atom::{Bad, Name, Term, Value, is_relation_text};
use std::alloc::Global;

const LETTERS_32: &str = "abcdefghijklmnopqrstuvwxyzABCDEF";

const LETTERS_33: &str = "abcdefghijklmnopqrstuvwxyzABCDEFG";

/// As many bytes as a text may have.
const BYTES_255: &str =
    "aaaaaaaaaaaaaaaaaaaaaaaaaaaaaaaaaaaaaaaaaaaaaaaaaaaaaaaaaaaaaaaaaaaaaaaaaaaaaaaaaaaaaaaaaaaaaaaaaaaaaaaaaaaaaaaaaaaaaaaaaaaaaaaaaaaaaaaaaaaaaaaaaaaaaaaaaaaaaaaaaaaaaaaaaaaaaaaaaaaaaaaaaaaaaaaaaaaaaaaaaaaaaaaaaaaaaaaaaaaaaaaaaaaaaaaaaaaaaaaaaaaaaaaaaaaaaaa";

const BYTES_256: &str =
    "aaaaaaaaaaaaaaaaaaaaaaaaaaaaaaaaaaaaaaaaaaaaaaaaaaaaaaaaaaaaaaaaaaaaaaaaaaaaaaaaaaaaaaaaaaaaaaaaaaaaaaaaaaaaaaaaaaaaaaaaaaaaaaaaaaaaaaaaaaaaaaaaaaaaaaaaaaaaaaaaaaaaaaaaaaaaaaaaaaaaaaaaaaaaaaaaaaaaaaaaaaaaaaaaaaaaaaaaaaaaaaaaaaaaaaaaaaaaaaaaaaaaaaaaaaaaaaaa";

/// What a text is: a name, a relation's name, a variable's name, the text of a value. Where something is made of it,
/// whether that reads as the text, or why nothing is.
type Kinds = [Result<bool, Bad>; 4];

const NO_NAME: Result<bool, Bad> = Err(Bad::BadName);

const OF_VARIABLE: Kinds = [Ok(true), Ok(false), Ok(true), Ok(true)];

const OF_RELATION: Kinds = [Ok(true), Ok(true), NO_NAME, Ok(true)];

const OF_VALUE: Kinds = [NO_NAME, Ok(false), NO_NAME, Ok(true)];

const OF_NOTHING: Kinds = [NO_NAME, Ok(false), NO_NAME, Err(Bad::BadText)];

const VARIABLES: [&str; 6] = ["a", "r", "a_1", "x_1", "post", LETTERS_32];

const RELATIONS: [&str; 4] = ["Z", "R", "X", "Flights_2"];

const TEXTS: [&str; 13] = [
    "",
    "_a",
    "_R",
    "1",
    "1a",
    "a-b",
    "a b",
    " ~",
    "\u{e9}",
    "\u{80}\u{e9}",
    LETTERS_33,
    BYTES_255,
    "0123456789abcdef",
];

const NOTHINGS: [&str; 5] = ["\n", "\u{0}", "a\u{1f}", "\u{7f}", BYTES_256];

fn is_name(alloc: Global, text: &str) -> Result<bool, Bad> {
    Ok(Name::new(alloc, text)?.as_str() == text)
}

fn is_variable(alloc: Global, text: &str) -> Result<bool, Bad> {
    Ok(Term::variable(alloc, text)?.as_variable() == Some(text))
}

fn is_text(alloc: Global, text: &str) -> Result<bool, Bad> {
    Ok(Value::text(alloc, text)?.as_text() == Some(text))
}

/// The place of the first of the texts that is something else.
fn other_kind(alloc: Global, texts: &[&str], wanted: Kinds) -> Option<usize> {
    for (place, text) in texts.iter().enumerate() {
        let told = [
            is_name(alloc, text),
            Ok(is_relation_text(text)),
            is_variable(alloc, text),
            is_text(alloc, text),
        ];
        if told != wanted {
            return Some(place);
        }
    }
    None
}

#[test]
fn kinds_of_texts(rt: HostRuntime) {
    for (texts, wanted) in [
        (VARIABLES.as_slice(), OF_VARIABLE),
        (RELATIONS.as_slice(), OF_RELATION),
        (TEXTS.as_slice(), OF_VALUE),
        (NOTHINGS.as_slice(), OF_NOTHING),
    ] {
        let other = other_kind(rt.alloc(), texts, wanted);
        assert!(rt; other.is_none(), "{other:?}");
    }
}

/// Values in their order: numbers come before texts, and texts go by bytes.
const RISING: [Sample; 4] = [
    Sample::Number(-3),
    Sample::Number(20),
    Sample::Text("-3"),
    Sample::Text("a"),
];

/// The place of the first value that is compared with others otherwise than their places are.
fn other_order(values: &[Value]) -> Option<usize> {
    for i in 0..values.len() {
        for j in 0..values.len() {
            let (first, other) = (&values[i], &values[j]);
            if [first.is_before(other), first.is_same(other)] != [i < j, i == j] {
                return Some(i);
            }
        }
    }
    None
}

fn other_of_rising(alloc: Global) -> Result<Option<usize>, Bad> {
    let row = row(alloc, "T", RISING.as_slice())?;
    Ok(other_order(row.values()))
}

#[test]
fn order_of_values(rt: HostRuntime) {
    let other = other_of_rising(rt.alloc());
    assert!(rt; other == Ok(None), "{other:?}");
}
