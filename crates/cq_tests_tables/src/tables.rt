//! Tables: the worked setup, the order of rows, and the refusals in order.

use crate::samples::{delete, insert, of_arity, travel};
use cq_atom::{Row, Value};
use cq_rel::{CatalogFault, RowFault, Tables};
use cq_text::{Form, print_row, read_ground_atom};
use std::alloc::Global;
use std::test::Fail;

/// Whether the row of the text is there; `None` where the text is none of a row.
fn has(alloc: Global, tables: &Tables, text: &str) -> Option<bool> {
    match read_ground_atom(alloc, text.as_bytes(), Form::One) {
        Ok(row) => Some(tables.has(&row)),
        Err(_) => None,
    }
}

/// Whether the row is printed so.
fn is_printed(alloc: Global, row: &Row, text: &str) -> bool {
    match print_row(alloc, row) {
        Ok(printed) => printed.as_str() == text,
        Err(_) => false,
    }
}

/// Whether the rows of the relation, in their order, are printed so.
fn are_rows(alloc: Global, tables: &Tables, relation: &str, texts: &[&str]) -> bool {
    let Some(rows) = tables.rows_of(relation) else {
        return false;
    };
    if tables.count(relation) != Some(texts.len()) {
        return false;
    }
    for (row, text) in rows.zip(texts) {
        if !is_printed(alloc, row, text) {
            return false;
        }
    }
    true
}

const FLIGHTS: [&str; 4] = [
    "Flights(122, \"Paris\")",
    "Flights(123, \"Paris\")",
    "Flights(134, \"Paris\")",
    "Flights(136, \"Rome\")",
];

/// Whether these are the worked tables.
fn are_worked(alloc: Global, tables: &Tables) -> bool {
    are_rows(alloc, tables, "Flights", FLIGHTS.as_slice())
        && tables.count("Airlines") == Some(4)
        && tables.catalog().len() == 2
        && tables.count("Trains").is_none()
        && tables.rows_of("Trains").is_none()
}

/// The first of the texts whose row is there where it is said not to be, or the other way round.
fn other_there(
    alloc: Global,
    tables: &Tables,
    told: &[(&'static str, bool)],
) -> Option<&'static str> {
    for (text, is_there) in told {
        if has(alloc, tables, text) != Some(*is_there) {
            return Some(*text);
        }
    }
    None
}

const THERE: [(&str, bool); 4] = [
    ("Flights(123, Paris)", true),
    ("Flights(123, Rome)", false),
    ("Flights(123)", false),
    ("Trains(123, Paris)", false),
];

#[test]
fn travel_setup(rt: HostRuntime) -> Result<(), Fail> {
    let tables = travel(rt.alloc())?;
    assert!(rt; are_worked(rt.alloc(), &tables));
    let other = other_there(rt.alloc(), &tables, THERE.as_slice());
    assert!(rt; other.is_none(), "{other:?}");
    Ok(())
}

/// Whether the row is printed as one of the texts.
fn is_one_of(alloc: Global, row: &Row, texts: &[&str]) -> bool {
    for text in texts {
        if is_printed(alloc, row, text) {
            return true;
        }
    }
    false
}

/// Whether the rows of `T` that have the values from the column on are those of the texts, in some order. Tables have each
/// row once, so it is enough that they are as many.
fn are_found(
    alloc: Global,
    tables: &Tables,
    column: usize,
    values: &[&Value],
    texts: &[&str],
) -> bool {
    let mut left = texts.len();
    for row in tables.rows_with("T", column, values) {
        if left == 0 || !is_one_of(alloc, row, texts) {
            return false;
        }
        left -= 1;
    }
    left == 0
}

const THREES: [&str; 6] = [
    "T(1, 2, 3)",
    "T(1, 5, 3)",
    "T(1, 2, 4)",
    "T(2, 2, 3)",
    "T(3, 2, 1)",
    "T(4, 1, 3)",
];

/// A column, the numbers that are looked for from it on, and the rows that have them.
type Found = (usize, &'static [i64], &'static [&'static str]);

// The first and the last of three columns are a run that goes round.
const THREES_FOUND: [Found; 5] = [
    (2, &[3, 1], &["T(1, 5, 3)", "T(1, 2, 3)"]),
    (
        1,
        &[2],
        &["T(1, 2, 3)", "T(1, 2, 4)", "T(2, 2, 3)", "T(3, 2, 1)"],
    ),
    (1, &[2, 3], &["T(2, 2, 3)", "T(1, 2, 3)"]),
    (1, &[2, 3, 1], &["T(1, 2, 3)"]),
    (0, &[], &THREES),
];

const ONES: [&str; 2] = ["T(1)", "T(2)"];

// A column beyond the arity turns nothing.
const ONES_FOUND: [Found; 3] = [
    (0, &[2], &["T(2)"]),
    (1, &[2], &["T(2)"]),
    (0, &[2, 1], &[]),
];

/// The number at that place; 0 where there is none.
fn value_at(numbers: &[i64], place: usize) -> Value {
    Value::num(numbers.get(place).copied().unwrap_or(0))
}

/// Whether the rows that have at most three numbers from the column on are those of the texts.
fn is_found(alloc: Global, tables: &Tables, found: Found) -> bool {
    let (column, numbers, texts) = found;
    let values = [
        value_at(numbers, 0),
        value_at(numbers, 1),
        value_at(numbers, 2),
    ];
    let wanted = [&values[0], &values[1], &values[2]];
    are_found(
        alloc,
        tables,
        column,
        &wanted[..numbers.len().min(3)],
        texts,
    )
}

/// The place of the first that finds other rows.
fn other_found(alloc: Global, tables: &Tables, found: &[Found]) -> Option<usize> {
    for (place, one) in found.iter().enumerate() {
        if !is_found(alloc, tables, *one) {
            return Some(place);
        }
    }
    None
}

/// The same over tables of that arity with these rows.
fn other_found_of(
    alloc: Global,
    arity: usize,
    rows: &[&str],
    found: &[Found],
) -> Result<Option<usize>, CatalogFault> {
    let tables = of_arity(alloc, arity, rows)?;
    Ok(other_found(alloc, &tables, found))
}

#[test]
fn rows_are_found_by_a_run_of_columns(rt: HostRuntime) {
    let threes = other_found_of(rt.alloc(), 3, THREES.as_slice(), THREES_FOUND.as_slice());
    assert!(rt; threes == Ok(None), "{threes:?}");
    let ones = other_found_of(rt.alloc(), 1, ONES.as_slice(), ONES_FOUND.as_slice());
    assert!(rt; ones == Ok(None), "{ones:?}");
}

/// The first of the texts whose row is not refused so, where it is inserted or deleted.
fn other_refused(
    alloc: Global,
    tables: &mut Tables,
    told: &[(&'static str, RowFault, RowFault)],
) -> Option<&'static str> {
    for (text, inserted, deleted) in told {
        if insert(alloc, tables, text) != Err(*inserted) {
            return Some(*text);
        }
        if delete(alloc, tables, text) != Err(*deleted) {
            return Some(*text);
        }
    }
    None
}

const UNFIT: [(&str, RowFault, RowFault); 2] = [
    ("Flights(122)", RowFault::Arity, RowFault::Arity),
    (
        "Trains(122)",
        RowFault::UnknownRelation,
        RowFault::UnknownRelation,
    ),
];

#[test]
fn refusals_of_rows(rt: HostRuntime) -> Result<(), Fail> {
    let mut tables = travel(rt.alloc())?;
    let other = other_refused(rt.alloc(), &mut tables, UNFIT.as_slice());
    assert!(rt; other.is_none(), "{other:?}");
    let present = insert(rt.alloc(), &mut tables, "Flights(122, Paris)");
    let absent = delete(rt.alloc(), &mut tables, "Flights(122, Rome)");
    assert!(rt; present == Err(RowFault::RowPresent) && absent == Err(RowFault::RowAbsent));
    assert!(rt; are_worked(rt.alloc(), &tables));
    Ok(())
}
