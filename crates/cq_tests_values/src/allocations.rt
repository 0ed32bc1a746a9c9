//! Each allocation of a call refused in turn.
//!
//! Names and texts of up to 22 bytes take no memory, and so longer ones stand here.

use crate::queries::has;
use crate::samples::{ONE, Sample, query, row};
use cq_atom::{Atom, Bad, Edit, EditKind, Name, Query, Row, Term, Valuation, Value};
use cq_refusing::{Outcome, Tried, refusals};
use std::alloc::{AllocError, Allocator};

const CITY: &str = "Rome, the city on seven hills";

const LONG_NAME: &str = "kramer_who_flies_to_Rome_1";

const ROME_AND_ONE: [Sample; 2] = [Sample::Text(CITY), ONE];

/// What some calls told: whether each came out right, or why it was refused. How many were refused memory, where the
/// others came out right.
fn refused(told: &[Result<bool, Bad>]) -> Option<u8> {
    let mut count = 0u8;
    for one in told {
        match one {
            Ok(true) => {}
            Err(Bad::NoMemory) => count = count.saturating_add(1),
            _ => return None,
        }
    }
    Some(count)
}

/// A name, a row and a query made, and a variable bound.
struct Making;

fn makes_name<A: Allocator + Copy>(alloc: A) -> Result<bool, Bad> {
    Ok(Name::new(alloc, LONG_NAME)?.as_str() == LONG_NAME)
}

fn is_rome<A: Allocator>(value: &Value<A>) -> bool {
    value.as_text() == Some(CITY)
}

/// Whether the values are Rome and 1.
fn are_rome<A: Allocator>(values: &[Value<A>]) -> bool {
    match values {
        [city, number] => is_rome(city) && number.as_num() == Some(1),
        _ => false,
    }
}

fn makes_row<A: Allocator + Copy>(alloc: A) -> Result<bool, Bad> {
    let made = row(alloc, "T", ROME_AND_ONE.as_slice())?;
    Ok(are_rome(made.values()))
}

fn makes_query<A: Allocator + Copy>(alloc: A) -> Result<bool, Bad> {
    let made = query(alloc, 1, 2, 2)?;
    Ok(has(&made, 1, 2, 2))
}

const VARIABLE: &str = "where_kramer_flies_to_in_May";

fn has_one<A: Allocator>(valuation: &Valuation<A>) -> bool {
    match valuation.get(VARIABLE) {
        Some(value) => value.as_num() == Some(1),
        None => false,
    }
}

fn bind_one<A: Allocator + Copy>(valuation: &mut Valuation<A>) -> Option<Bad> {
    valuation.bind(VARIABLE, Value::num(1)).err()
}

/// Binds a variable that has no value. Where that is refused, it still has none, and the call again gives it the value.
fn binds<A: Allocator + Copy>(valuation: &mut Valuation<A>) -> Result<bool, Bad> {
    let Some(bad) = bind_one(valuation) else {
        return Ok(has_one(valuation));
    };
    let is_free = valuation.get(VARIABLE).is_none();
    let is_bound = bind_one(valuation).is_none();
    if is_free && is_bound && has_one(valuation) {
        return Err(bad);
    }
    Ok(false)
}

fn makes<A: Allocator + Copy>(alloc: A) -> Option<u8> {
    let told = [
        makes_name(alloc),
        makes_row(alloc),
        makes_query(alloc),
        binds(&mut Valuation::empty(alloc)),
    ];
    refused(told.as_slice())
}

impl Tried for Making {
    fn tried<A: Allocator + Copy>(alloc: A) -> Outcome {
        match makes(alloc) {
            Some(0) => Outcome::Done,
            Some(1) => Outcome::refused_if(makes(alloc) == Some(0)),
            _ => Outcome::Wrong,
        }
    }
}

#[test]
fn failed_allocation_in_constructors(rt: HostRuntime) {
    // Four of the name and the row, eleven of the query, two of the variable.
    assert!(rt; matches!(refusals::<Making>(rt.alloc()), Ok(17..)));
}

/// Copies of an edit with its name, its query and an atom of it, and of a row and its first value; and the atom under a
/// valuation.
struct Copying;

fn copies_edit<A: Allocator + Copy>(edit: &Edit<A>) -> Result<bool, Bad> {
    Ok(is_posting(&edit.copy()?))
}

/// Whether the edit posts a query of as many atoms under the name.
fn is_posting<A: Allocator>(edit: &Edit<A>) -> bool {
    match edit {
        EditKind::Post { name, query } => name.as_str() == LONG_NAME && has(query, 1, 2, 2),
        _ => false,
    }
}

fn copies_name<A: Allocator + Copy>(name: &Name<A>) -> Result<bool, Bad> {
    Ok(name.copy()?.as_str() == LONG_NAME)
}

fn copies_query<A: Allocator + Copy>(query: &Query<A>) -> Result<bool, Bad> {
    Ok(has(&query.copy()?, 1, 2, 2))
}

fn copies_row<A: Allocator + Copy>(row: &Row<A>) -> Result<bool, Bad> {
    Ok(are_rome(row.copy()?.values()))
}

fn copies_value<A: Allocator + Copy>(row: &Row<A>) -> Result<bool, Bad> {
    match row.values() {
        [city, _] => Ok(is_rome(&city.copy()?)),
        _ => Ok(false),
    }
}

fn copies_atom<A: Allocator + Copy>(atom: &Atom<A>) -> Result<bool, Bad> {
    let copy = atom.copy()?;
    Ok(copy.relation() == "T" && copy.terms().len() == 2)
}

/// Whether the terms are Rome and `y`.
fn are_rome_and_y<A: Allocator>(terms: &[Term<A>]) -> bool {
    match terms {
        [first, second] => is_constant_rome(first) && second.as_variable() == Some("y"),
        _ => false,
    }
}

fn is_constant_rome<A: Allocator>(term: &Term<A>) -> bool {
    match term.as_constant() {
        Some(value) => is_rome(value),
        None => false,
    }
}

/// Whether the atom is `T(Rome, y)` where `x` is Rome.
fn is_put_under<A: Allocator + Copy>(atom: &Atom<A>, rome: &Valuation<A>) -> Result<bool, Bad> {
    let made = atom.under(rome)?;
    Ok(made.relation() == "T" && are_rome_and_y(made.terms()))
}

fn copies_of_atoms<A: Allocator + Copy>(
    atoms: &[Atom<A>],
    rome: &Valuation<A>,
) -> [Result<bool, Bad>; 2] {
    match atoms {
        [first, _] => [copies_atom(first), is_put_under(first, rome)],
        _ => [Ok(false), Ok(false)],
    }
}

fn copies<A: Allocator + Copy>(edit: &Edit<A>, row: &Row<A>, rome: &Valuation<A>) -> Option<u8> {
    let EditKind::Post { name, query } = edit else {
        return None;
    };
    let [of_atom, under] = copies_of_atoms(query.body(), rome);
    let told = [
        copies_edit(edit),
        copies_name(name),
        copies_query(query),
        of_atom,
        under,
        copies_row(row),
        copies_value(row),
    ];
    refused(told.as_slice())
}

fn copied<A: Allocator + Copy>(edit: &Edit<A>, row: &Row<A>, rome: &Valuation<A>) -> Outcome {
    match copies(edit, row, rome) {
        Some(0) => Outcome::Done,
        Some(1) => Outcome::refused_if(copies(edit, row, rome) == Some(0)),
        _ => Outcome::Wrong,
    }
}

fn posting<A: Allocator + Copy>(alloc: A) -> Result<Edit<A>, Bad> {
    let name = Name::new(alloc, LONG_NAME)?;
    let query = query(alloc, 1, 2, 2)?;
    Ok(EditKind::Post { name, query })
}

/// Gives `x` the value Rome.
fn bind_rome<A: Allocator + Copy>(alloc: A, valuation: &mut Valuation<A>) -> Result<(), Bad> {
    valuation.bind("x", Value::text(alloc, CITY)?)?;
    Ok(())
}

impl Tried for Copying {
    fn tried<A: Allocator + Copy>(alloc: A) -> Outcome {
        let mut rome = Valuation::empty(alloc);
        match (
            posting(alloc),
            row(alloc, "T", ROME_AND_ONE.as_slice()),
            bind_rome(alloc, &mut rome),
        ) {
            (Ok(edit), Ok(row), Ok(())) => copied(&edit, &row, &rome),
            _ => Outcome::Unready,
        }
    }
}

#[test]
fn failed_allocation_in_copies(rt: HostRuntime) {
    // The edit's name, the name and the value take memory, and the atom under the valuation takes it for itself, for its terms and
    // for the text. Query, atom and row share what they hold.
    assert!(rt; refusals::<Copying>(rt.alloc()) == Ok(6));
}
