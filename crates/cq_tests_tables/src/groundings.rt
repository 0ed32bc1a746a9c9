//! Groundings: the worked rows by calls. Those of other scripts stand in the cases.

use crate::samples::{pairs, travel};
use cq_atom::Meter;
use cq_ground::{Groundings, has_grounding, reads};
use cq_rel::Tables;
use cq_text::{Form, print_values, read_ground_atom, read_query};
use std::alloc::{AllocError, Allocator, Global};
use std::test::Fail;

/// The body of the worked query of Jerry.
pub const JERRY: &str = "{} R(Jerry, y) <- Flights(y, Paris), Airlines(y, United)";

/// The groundings of the query of that text; a text of no query counts as out of memory.
pub fn all<A: Allocator + Copy>(
    alloc: A,
    tables: &Tables<A>,
    text: &str,
    meter: &mut Meter,
) -> Result<Groundings<A>, AllocError> {
    match read_query(alloc, text.as_bytes(), Form::One) {
        Ok(query) => Groundings::all(alloc, &query, tables, meter),
        Err(_) => Err(AllocError),
    }
}

/// The lists of the groundings in their order, each printed in brackets.
fn printed(alloc: Global, found: &Groundings) -> Result<String, AllocError> {
    let mut told = String::new(alloc);
    for values in found.list() {
        told.push_str(print_values(alloc, values)?.as_str())?;
    }
    Ok(told)
}

/// Whether the groundings are printed so, and as many as counted.
fn are(alloc: Global, found: &Groundings, count: usize, wanted: &str) -> bool {
    match printed(alloc, found) {
        Ok(told) => found.count() == count && told.as_str() == wanted,
        Err(_) => false,
    }
}

/// The same of the query of that text.
fn are_of(alloc: Global, tables: &Tables, text: &str, count: usize, wanted: &str) -> bool {
    match all(alloc, tables, text, &mut Meter::new()) {
        Ok(found) => are(alloc, &found, count, wanted),
        Err(_) => false,
    }
}

/// The first of the queries that has other groundings than so many, printed so.
fn other_worked(
    alloc: Global,
    tables: &Tables,
    told: &[(&'static str, usize, &'static str)],
) -> Option<&'static str> {
    for (text, count, wanted) in told {
        if !are_of(alloc, tables, text, *count, wanted) {
            return Some(*text);
        }
    }
    None
}

const WORKED: [(&str, usize, &str); 7] = [
    ("{} R(Kramer, x) <- Flights(x, Paris)", 3, "(122)(123)(134)"),
    (JERRY, 2, "(122)(123)"),
    ("{} R(A, x) <- Flights(x, Rome)", 1, "(136)"),
    ("{} R(1) <-", 1, "()"),
    // A body that no board accepts, by its arity or its relation, finds no row.
    ("{} R(x) <- Flights(x)", 0, ""),
    ("{} R(x) <- Flights(x, y), Trains(x, y)", 0, ""),
    // A number is no text.
    ("{} R(y) <- Flights(\"122\", y)", 0, ""),
];

#[test]
fn worked_rows(rt: HostRuntime) -> Result<(), Fail> {
    let tables = travel(rt.alloc())?;
    let other = other_worked(rt.alloc(), &tables, WORKED.as_slice());
    assert!(rt; other.is_none(), "{other:?}");
    Ok(())
}

/// Whether the values of the row of that text are a grounding; `None` where the text is none of a row.
fn has(alloc: Global, found: &Groundings, text: &str) -> Option<bool> {
    match read_ground_atom(alloc, text.as_bytes(), Form::One) {
        Ok(row) => Some(found.has(row.values())),
        Err(_) => None,
    }
}

/// The first of the texts whose row is a grounding where it is said to be none, or the other way round.
fn other_grounding(
    alloc: Global,
    found: &Groundings,
    told: &[(&'static str, bool)],
) -> Option<&'static str> {
    for (text, is_one) in told {
        if has(alloc, found, text) != Some(*is_one) {
            return Some(*text);
        }
    }
    None
}

const JERRYS: [(&str, bool); 6] = [
    ("T(121)", false),
    ("T(122)", true),
    ("T(123)", true),
    ("T(134)", false),
    ("T(\"122\")", false),
    ("T(122, 122)", false),
];

#[test]
fn kramer_and_jerry(rt: HostRuntime) -> Result<(), Fail> {
    let tables = travel(rt.alloc())?;
    let found = all(rt.alloc(), &tables, JERRY, &mut Meter::new())?;
    let other = other_grounding(rt.alloc(), &found, JERRYS.as_slice());
    assert!(rt; other.is_none() && !found.has(&[]), "{other:?}");
    Ok(())
}

#[test]
fn repeated_variables(rt: HostRuntime) -> Result<(), Fail> {
    let rows = ["T(1, 1)", "T(1, 2)", "T(2, 1)", "T(3, 3)"];
    let tables = pairs(rt.alloc(), rows.as_slice())?;
    let same = "{} R(x) <- T(x, x)";
    let fixed = "{} R(y) <- T(1, y), T(y, x)";
    assert!(rt; are_of(rt.alloc(), &tables, same, 2, "(1)(3)"));
    assert!(rt; are_of(rt.alloc(), &tables, fixed, 3, "(1, 1)(1, 2)(2, 1)"));
    Ok(())
}

/// Whether the query of that text reads the relation; `None` where the text is none of a query.
fn query_reads(alloc: Global, text: &str, relation: &str) -> Option<bool> {
    match read_query(alloc, text.as_bytes(), Form::One) {
        Ok(query) => Some(reads(&query, relation)),
        Err(_) => None,
    }
}

/// The first relation that the query of that text reads where it is said not to, or the other way round.
fn other_read(alloc: Global, text: &str, told: &[(&'static str, bool)]) -> Option<&'static str> {
    for (relation, is_read) in told {
        if query_reads(alloc, text, relation) != Some(*is_read) {
            return Some(*relation);
        }
    }
    None
}

const READ: [(&str, bool); 4] = [
    ("Flights", true),
    ("Trains", true),
    ("R", false),
    ("Flight", false),
];

#[test]
fn relations_read(rt: HostRuntime) {
    let text = "{} R(x) <- Flights(x, y), Trains(x, y)";
    let other = other_read(rt.alloc(), text, READ.as_slice());
    assert!(rt; other.is_none(), "{other:?}");
    assert!(rt; query_reads(rt.alloc(), "{} R(1) <-", "T") == Some(false));
}

/// Whether so many atoms of the body of the query of that text have a grounding by themselves; a text of no query counts as out of memory.
pub fn holds<A: Allocator + Copy>(
    alloc: A,
    tables: &Tables<A>,
    text: &str,
    count: usize,
) -> Result<bool, AllocError> {
    match read_query(alloc, text.as_bytes(), Form::One) {
        Ok(query) => has_grounding(alloc, &query, tables, count),
        Err(_) => Err(AllocError),
    }
}

/// The place of the first front of a body that has a grounding where it is said to have none, or the other way round.
fn other_front(
    alloc: Global,
    tables: &Tables,
    told: &[(&str, usize, bool)],
) -> Result<Option<usize>, AllocError> {
    for (place, (text, count, wanted)) in told.iter().enumerate() {
        if holds(alloc, tables, text, *count)? != *wanted {
            return Ok(Some(place));
        }
    }
    Ok(None)
}

const APART: &str = "{} R(x) <- Flights(x, Rome), Flights(x, y), Flights(x, Paris)";

const FRONTS: [(&str, usize, bool); 6] = [
    (APART, 0, true),
    (APART, 1, true),
    (APART, 2, true),
    (APART, 3, false),
    // All atoms, where there are no more.
    (APART, 4, false),
    (JERRY, 2, true),
];

#[test]
fn fronts_of_bodies(rt: HostRuntime) -> Result<(), Fail> {
    let tables = travel(rt.alloc())?;
    let other = other_front(rt.alloc(), &tables, FRONTS.as_slice())?;
    assert!(rt; other.is_none(), "{other:?}");
    Ok(())
}
