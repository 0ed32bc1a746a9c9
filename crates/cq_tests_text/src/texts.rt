//! Queries, rows and values, read and printed.

use cq_text::{
    Form, TextFault, one_reading, print_query, print_row, print_values, read_ground_atom,
    read_query,
};
use std::alloc::Global;

/// Whether the text is read as a query that is printed so.
fn is_query(alloc: Global, text: &str, printed: &str) -> Result<bool, TextFault> {
    let query = read_query(alloc, text.as_bytes(), Form::One)?;
    let told = print_query(alloc, &query)?;
    Ok(told.as_str() == printed)
}

/// The first of the texts that is not read as a query which is printed so.
fn other_query(alloc: Global, told: &[(&'static str, &str)]) -> Option<&'static str> {
    for (text, printed) in told {
        if is_query(alloc, text, printed) != Ok(true) {
            return Some(*text);
        }
    }
    None
}

const QUERIES: [(&str, &str); 6] = [
    ("{} R(1) <-", "{} R(1) <-"),
    (
        "{R(Jerry, x)} R(Kramer, x) <- Flights(x, Paris)",
        r#"{R("Jerry", x)} R("Kramer", x) <- Flights(x, "Paris")"#,
    ),
    (
        "{}R(y),S(x)<-T(x,y),U(y),V(1)",
        "{} R(y), S(x) <- T(x, y), U(y), V(1)",
    ),
    (
        r#" {A(X,"a\"b\\",-5)}R(Jerry,-9223372036854775808) <- "#,
        r#"{A("X", "a\"b\\", -5)} R("Jerry", -9223372036854775808) <-"#,
    ),
    (
        "{A(1), B(x)} R(x) <- T(x), U(x, \"a\")\r",
        r#"{A(1), B(x)} R(x) <- T(x), U(x, "a")"#,
    ),
    (
        "{} R(1) <- T(1), T(2), T(3), T(4), T(5), T(6), T(7), T(8)",
        "{} R(1) <- T(1), T(2), T(3), T(4), T(5), T(6), T(7), T(8)",
    ),
];

#[test]
fn queries(rt: HostRuntime) {
    // Each text has one reading, so it is printed in one way.
    one_reading();
    let other = other_query(rt.alloc(), QUERIES.as_slice());
    assert!(rt; other.is_none(), "{other:?}");
}

/// Whether the text is read as a row that is printed so, as its relation and its values in brackets.
fn is_row(
    alloc: Global,
    text: &str,
    relation: &str,
    values: &str,
    printed: &str,
) -> Result<bool, TextFault> {
    let row = read_ground_atom(alloc, text.as_bytes(), Form::One)?;
    let told = print_row(alloc, &row)?;
    let told_values = print_values(alloc, row.values())?;
    Ok(row.relation() == relation && told.as_str() == printed && told_values.as_str() == values)
}

/// A text, the relation of its row, and how the values and the row are printed.
type Told = (&'static str, &'static str, &'static str, &'static str);

/// The first of the texts that is not read as such a row.
fn other_row(alloc: Global, told: &[Told]) -> Option<&'static str> {
    for (text, relation, values, printed) in told {
        if is_row(alloc, text, relation, values, printed) != Ok(true) {
            return Some(*text);
        }
    }
    None
}

const ROWS: [Told; 5] = [
    (
        " T(Paris, -5, \"x y\")\r",
        "T",
        r#"("Paris", -5, "x y")"#,
        r#"T("Paris", -5, "x y")"#,
    ),
    (
        r#"Flights(123, "Pa\"ris")"#,
        "Flights",
        r#"(123, "Pa\"ris")"#,
        r#"Flights(123, "Pa\"ris")"#,
    ),
    ("T(\"007\", \"\")", "T", r#"("007", "")"#, r#"T("007", "")"#),
    (
        r#"T(-9223372036854775808, "a\\")"#,
        "T",
        r#"(-9223372036854775808, "a\\")"#,
        r#"T(-9223372036854775808, "a\\")"#,
    ),
    (
        "T(0, \"\u{e9}\u{1f600}\")",
        "T",
        "(0, \"\u{e9}\u{1f600}\")",
        "T(0, \"\u{e9}\u{1f600}\")",
    ),
];

#[test]
fn rows(rt: HostRuntime) {
    let other = other_row(rt.alloc(), ROWS.as_slice());
    assert!(rt; other.is_none(), "{other:?}");
}
