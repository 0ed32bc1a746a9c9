//! Groundings kept under row changes: the worked row by calls, after each of which they are those that `all` finds, and
//! each allocation refused in turn.

use crate::samples::{delete, insert, pairs};
use cq_atom::{Meter, Query, Row};
use cq_ground::Groundings;
use cq_refusing::{Outcome, Tried, refusals};
use cq_rel::Tables;
use cq_text::{Form, print_values, read_ground_atom, read_query};
use std::alloc::{AllocError, Allocator, Global};
use std::test::Fail;

/// Both ways of a pair.
const WAYS: &str = "{} R(x, y) <- T(x, y), T(y, x)";

/// Brings the groundings up to the row of the text, which the tables have got.
fn gain<A: Allocator + Copy>(
    alloc: A,
    query: &Query<A>,
    tables: &Tables<A>,
    found: &mut Groundings<A>,
    text: &str,
    meter: &mut Meter,
) -> Result<(), AllocError> {
    match read_ground_atom(alloc, text.as_bytes(), Form::One) {
        Ok(row) => {
            found.gain(query, tables, &row, meter)?;
            Ok(())
        }
        Err(_) => Err(AllocError),
    }
}

/// Takes the row of the text, which the tables still have, away from the groundings; false for a text of no row.
fn lose<A: Allocator + Copy>(
    alloc: A,
    query: &Query<A>,
    tables: &Tables<A>,
    found: &mut Groundings<A>,
    text: &str,
    meter: &mut Meter,
) -> bool {
    match read_ground_atom(alloc, text.as_bytes(), Form::One) {
        Ok(row) => {
            found.lose(query, tables, &row, meter);
            true
        }
        Err(_) => false,
    }
}

/// Whether the row of the text came, where the tables did not have it, and the groundings after it, or else went, and the
/// groundings before it.
fn change<A: Allocator + Copy>(
    alloc: A,
    query: &Query<A>,
    tables: &mut Tables<A>,
    found: &mut Groundings<A>,
    text: &str,
    meter: &mut Meter,
) -> bool {
    if insert(alloc, tables, text) == Ok(()) {
        return gain(alloc, query, tables, found, text, meter) == Ok(());
    }
    lose(alloc, query, tables, found, text, meter) && delete(alloc, tables, text) == Ok(())
}

/// Whether the groundings are those that `all` finds.
fn are_all<A: Allocator + Copy>(
    alloc: A,
    query: &Query<A>,
    tables: &Tables<A>,
    found: &Groundings<A>,
) -> bool {
    match Groundings::all(alloc, query, tables, &mut Meter::new()) {
        Ok(all) => found.list().eq(all.list()),
        Err(_) => false,
    }
}

/// Whether the groundings in their order are printed so.
fn are(alloc: Global, found: &Groundings, wanted: &str) -> Result<bool, AllocError> {
    let mut told = String::new(alloc);
    for values in found.list() {
        told.push_str(print_values(alloc, values)?.as_str())?;
    }
    Ok(told.as_str() == wanted)
}

/// The first change after which the groundings or the visits are others than told, or the groundings others than those that
/// `all` finds.
fn other_change(
    alloc: Global,
    query: &Query,
    tables: &mut Tables,
    found: &mut Groundings,
    told: &[(&'static str, u64, &'static str)],
) -> Result<Option<&'static str>, AllocError> {
    let mut meter = Meter::new();
    for (text, visits, wanted) in told {
        if !change(alloc, query, tables, found, text, &mut meter)
            || meter.count() != *visits
            || !are(alloc, found, wanted)?
            || !are_all(alloc, query, tables, found)
        {
            return Ok(Some(*text));
        }
    }
    Ok(None)
}

/// The same of the query of that text, over tables that begin without rows.
fn other_change_of(
    alloc: Global,
    text: &str,
    told: &[(&'static str, u64, &'static str)],
) -> Result<Option<&'static str>, AllocError> {
    let (Ok(query), Ok(mut tables)) = (
        read_query(alloc, text.as_bytes(), Form::One),
        pairs(alloc, [].as_slice()),
    ) else {
        return Err(AllocError);
    };
    let mut found = Groundings::all(alloc, &query, &tables, &mut Meter::new())?;
    other_change(alloc, &query, &mut tables, &mut found, told)
}

const BOTH_WAYS: [(&str, u64, &str); 4] = [
    ("T(1, 2)", 1, ""),
    ("T(2, 1)", 2, "(1, 2)(2, 1)"),
    ("T(1, 1)", 3, "(1, 1)(1, 2)(2, 1)"),
    // The row goes again.
    ("T(1, 2)", 4, "(1, 1)"),
];

#[test]
fn both_ways(rt: HostRuntime) -> Result<(), Fail> {
    let other = other_change_of(rt.alloc(), WAYS, BOTH_WAYS.as_slice())?;
    assert!(rt; other.is_none(), "{other:?}");
    Ok(())
}

/// Groundings brought up to a row that both atoms can be at once, before those that were there.
struct Gaining;

const PATHS: &str = "{} R(x, z) <- T(x, y), T(y, z)";

const PATH_ROWS: [&str; 2] = ["T(1, 2)", "T(3, 1)"];

const LOOP: &str = "T(1, 1)";

/// Whether a refused gain left the groundings as they were, and the same call then succeeds.
fn gain_again<A: Allocator + Copy>(
    alloc: A,
    query: &Query<A>,
    tables: &Tables<A>,
    row: &Row<A>,
    found: &mut Groundings<A>,
    before: &Groundings<A>,
) -> bool {
    found.list().eq(before.list())
        && found.gain(query, tables, row, &mut Meter::new()) == Ok(true)
        && found.count() == 4
        && are_all(alloc, query, tables, found)
}

fn gain_refused<A: Allocator + Copy>(
    alloc: A,
    query: &Query<A>,
    tables: &Tables<A>,
    row: &Row<A>,
    found: &mut Groundings<A>,
) -> Outcome {
    let Ok(before) = found.copy() else {
        return Outcome::Unready;
    };
    match found.gain(query, tables, row, &mut Meter::new()) {
        Ok(is_new) => Outcome::done_if(is_new && found.count() == 4),
        Err(_) => Outcome::refused_if(gain_again(alloc, query, tables, row, found, &before)),
    }
}

fn gain_a_loop<A: Allocator + Copy>(
    alloc: A,
    query: &Query<A>,
    tables: &mut Tables<A>,
    row: &Row<A>,
) -> Outcome {
    let Ok(mut found) = Groundings::all(alloc, query, tables, &mut Meter::new()) else {
        return Outcome::Unready;
    };
    match insert(alloc, tables, LOOP) {
        Ok(()) => gain_refused(alloc, query, tables, row, &mut found),
        Err(_) => Outcome::Unready,
    }
}

impl Tried for Gaining {
    fn tried<A: Allocator + Copy>(alloc: A) -> Outcome {
        let (Ok(query), Ok(mut tables), Ok(row)) = (
            read_query(alloc, PATHS.as_bytes(), Form::One),
            pairs(alloc, PATH_ROWS.as_slice()),
            read_ground_atom(alloc, LOOP.as_bytes(), Form::One),
        ) else {
            return Outcome::Unready;
        };
        gain_a_loop(alloc, &query, &mut tables, &row)
    }
}

#[test]
fn failed_allocation_in_gain(rt: HostRuntime) {
    assert!(rt; matches!(refusals::<Gaining>(rt.alloc()), Ok(8..)));
}
