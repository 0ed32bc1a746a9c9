//! Groundings one after another: those that `all` finds, in their order.

use crate::groundings::JERRY;
use crate::samples::{pairs, travel};
use cq_atom::{Meter, Query, Value};
use cq_ground::{Finder, Groundings};
use cq_refusing::{Outcome, Tried, refusals};
use cq_rel::Tables;
use cq_text::{Form, read_query};
use std::alloc::{AllocError, Allocator, Global};
use std::test::Fail;

fn are_same<A: Allocator>(left: &[&Value<A>], right: &[Value<A>]) -> bool {
    left.len() == right.len() && left.iter().zip(right).all(|(a, b)| a.is_same(b))
}

/// Whether the finder gives these groundings in turn, and then no more.
fn gives<A: Allocator + Copy>(finder: &mut Finder<'_, A>, found: &Groundings<A>) -> bool {
    for values in found.list() {
        if !finder.advance() || !are_same(finder.values(), values) {
            return false;
        }
    }
    !finder.advance() && !finder.advance()
}

fn gives_all<A: Allocator + Copy>(
    alloc: A,
    query: &Query<A>,
    tables: &Tables<A>,
) -> Result<bool, AllocError> {
    let found = Groundings::all(alloc, query, tables, &mut Meter::new())?;
    let mut finder = Finder::begin(alloc, query.body(), query.variables(), tables)?;
    Ok(gives(&mut finder, &found))
}

/// The same of the query of that text; a text of no query counts as out of memory.
fn gives_all_of<A: Allocator + Copy>(
    alloc: A,
    tables: &Tables<A>,
    text: &str,
) -> Result<bool, AllocError> {
    match read_query(alloc, text.as_bytes(), Form::One) {
        Ok(query) => gives_all(alloc, &query, tables),
        Err(_) => Err(AllocError),
    }
}

/// The first of the queries whose groundings a finder does not give.
fn other_found(alloc: Global, tables: &Tables, texts: &[&'static str]) -> Option<&'static str> {
    for text in texts {
        if gives_all_of(alloc, tables, *text) != Ok(true) {
            return Some(*text);
        }
    }
    None
}

const TRAVELS: [&str; 6] = [
    JERRY,
    "{} R(1) <-",
    "{} R(x) <- Flights(y, x)",
    "{} R(x) <- Flights(x, y), Airlines(z, United), Flights(z, y)",
    "{} R(x) <- Flights(x, Paris), Trains(x, y)",
    "{} R(x) <- Flights(x, x)",
];

#[test]
fn found_in_turn(rt: HostRuntime) -> Result<(), Fail> {
    let tables = travel(rt.alloc())?;
    let other = other_found(rt.alloc(), &tables, TRAVELS.as_slice());
    assert!(rt; other.is_none(), "{other:?}");
    Ok(())
}

const PAIRS: [&str; 4] = [
    "{} R(x) <- T(x, x)",
    "{} R(x) <- T(y, x), T(x, y)",
    "{} R(x) <- T(x, y), T(z, x), T(y, z)",
    "{} R(y) <- T(1, y), T(y, x)",
];

#[test]
fn pairs_in_turn(rt: HostRuntime) -> Result<(), Fail> {
    let rows = [
        "T(1, 1)", "T(1, 2)", "T(2, 1)", "T(2, 3)", "T(3, 1)", "T(3, 3)",
    ];
    let tables = pairs(rt.alloc(), rows.as_slice())?;
    let other = other_found(rt.alloc(), &tables, PAIRS.as_slice());
    assert!(rt; other.is_none(), "{other:?}");
    Ok(())
}

/// All groundings of the query of Jerry, one after another.
struct Finding;

impl Tried for Finding {
    fn tried<A: Allocator + Copy>(alloc: A) -> Outcome {
        let Ok(tables) = travel(alloc) else {
            return Outcome::Unready;
        };
        match gives_all_of(alloc, &tables, JERRY) {
            Ok(right) => Outcome::done_if(right),
            Err(_) => Outcome::refused_if(gives_all_of(alloc, &tables, JERRY) == Ok(true)),
        }
    }
}

#[test]
fn failed_allocation_in_finders(rt: HostRuntime) {
    assert!(rt; matches!(refusals::<Finding>(rt.alloc()), Ok(9..)));
}
