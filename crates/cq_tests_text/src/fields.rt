//! A field of CSV, read as a value. What other fields are stands in the tests of rows from CSV.

use cq_atom::Value;
use cq_refusing::{Outcome, Tried, refusals};
use cq_text::{TextFault, read_field};
use std::alloc::Allocator;

fn is_text<A: Allocator>(value: &Value<A>, text: &[u8]) -> bool {
    match value.as_text() {
        Some(found) => found.as_bytes() == text,
        None => false,
    }
}

// A text of more than 22 bytes takes memory of its own.
const CITY: &[u8] = b"Paris, the city of light";

/// A field read.
struct ReadingField;

impl Tried for ReadingField {
    fn tried<A: Allocator + Copy>(alloc: A) -> Outcome {
        match read_field(alloc, CITY) {
            Ok(value) => Outcome::done_if(is_text(&value, CITY)),
            Err(fault) => Outcome::refused_if(
                fault == TextFault::NoMemory && read_field(alloc, CITY).is_ok(),
            ),
        }
    }
}

#[test]
fn failed_allocation_in_reading_fields(rt: HostRuntime) {
    assert!(rt; matches!(refusals::<ReadingField>(rt.alloc()), Ok(1..)));
}
