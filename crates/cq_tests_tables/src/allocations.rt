//! Each allocation of a call refused in turn.

use crate::groundings::{JERRY, all, holds};
use crate::samples::{travel, travel_begun, travel_catalog};
use cq_atom::{Meter, Row, Value};
use cq_ground::Groundings;
use cq_refusing::{Outcome, Tried, refusals};
use cq_rel::{Catalog, CatalogFault, RowFault, Tables};
use cq_text::{Form, read_ground_atom};
use std::alloc::{AllocError, Allocator};

// Names of more than 16 bytes take memory of their own.
const LONG: &str = "FlightsThatLeaveInTheMorning";

const LONGER: &str = "AirlinesThatHaveSuchFlights";

/// A relation declared in a catalog without relations.
struct Declaring;

impl Tried for Declaring {
    fn tried<A: Allocator + Copy>(alloc: A) -> Outcome {
        let mut catalog = Catalog::empty(alloc);
        match catalog.declare(LONG, 2) {
            Ok(()) => Outcome::done_if(catalog.entry(0) == Some((LONG, 2))),
            Err(fault) => Outcome::refused_if(
                fault == CatalogFault::NoMemory
                    && catalog.len() == 0
                    && catalog.declare(LONG, 2) == Ok(())
                    && catalog.entry(0) == Some((LONG, 2)),
            ),
        }
    }
}

#[test]
fn failed_allocation_in_declare(rt: HostRuntime) {
    assert!(rt; matches!(refusals::<Declaring>(rt.alloc()), Ok(2..)));
}

/// Tables over a catalog.
struct Beginning;

fn is_begun<A: Allocator + Copy>(catalog: Result<Catalog<A>, CatalogFault>) -> bool {
    match catalog {
        Ok(catalog) => Tables::begin(catalog).is_ok(),
        Err(_) => false,
    }
}

impl Tried for Beginning {
    fn tried<A: Allocator + Copy>(alloc: A) -> Outcome {
        let Ok(catalog) = travel_catalog(alloc) else {
            return Outcome::Unready;
        };
        match Tables::begin(catalog) {
            Ok(tables) => Outcome::done_if(tables.count("Flights") == Some(0)),
            Err(_) => Outcome::refused_if(is_begun(travel_catalog(alloc))),
        }
    }
}

#[test]
fn failed_allocation_in_begin(rt: HostRuntime) {
    assert!(rt; matches!(refusals::<Beginning>(rt.alloc()), Ok(1..)));
}

/// A row inserted into tables without rows.
struct Inserting;

const FLIGHT: &str = "Flights(122, Paris)";

fn insert_again<A: Allocator + Copy>(alloc: A, tables: &mut Tables<A>) -> bool {
    match read_ground_atom(alloc, FLIGHT.as_bytes(), Form::One) {
        Ok(row) => tables.insert(row) == Ok(()),
        Err(_) => false,
    }
}

fn insert_row<A: Allocator + Copy>(alloc: A, tables: &mut Tables<A>, row: Row<A>) -> Outcome {
    match tables.insert(row) {
        Ok(()) => Outcome::done_if(tables.count("Flights") == Some(1)),
        Err(fault) => Outcome::refused_if(
            fault == RowFault::NoMemory
                && tables.count("Flights") == Some(0)
                && insert_again(alloc, tables)
                && tables.count("Flights") == Some(1),
        ),
    }
}

impl Tried for Inserting {
    fn tried<A: Allocator + Copy>(alloc: A) -> Outcome {
        let Ok(mut tables) = travel_begun(alloc) else {
            return Outcome::Unready;
        };
        match read_ground_atom(alloc, FLIGHT.as_bytes(), Form::One) {
            Ok(row) => insert_row(alloc, &mut tables, row),
            Err(_) => Outcome::Unready,
        }
    }
}

#[test]
fn failed_allocation_in_insert(rt: HostRuntime) {
    assert!(rt; matches!(refusals::<Inserting>(rt.alloc()), Ok(1..)));
}

/// A copy of the worked tables.
struct Copying;

fn copied<A: Allocator + Copy>(tables: &Tables<A>) -> Outcome {
    match tables.copy() {
        Ok(copy) => Outcome::done_if(copy.count("Flights") == Some(4)),
        Err(_) => Outcome::refused_if(tables.copy().is_ok()),
    }
}

impl Tried for Copying {
    fn tried<A: Allocator + Copy>(alloc: A) -> Outcome {
        match travel(alloc) {
            Ok(tables) => copied(&tables),
            Err(_) => Outcome::Unready,
        }
    }
}

#[test]
fn failed_allocation_in_copies(rt: HostRuntime) {
    assert!(rt; matches!(refusals::<Copying>(rt.alloc()), Ok(4..)));
}

/// A copy of a catalog of two relations.
struct CopyingCatalog;

fn long_catalog<A: Allocator + Copy>(alloc: A) -> Result<Catalog<A>, CatalogFault> {
    let mut catalog = Catalog::empty(alloc);
    catalog.declare(LONG, 2)?;
    catalog.declare(LONGER, 2)?;
    Ok(catalog)
}

fn is_catalog_copied<A: Allocator + Clone>(catalog: &Catalog<A>) -> Result<bool, AllocError> {
    let copy = catalog.copy()?;
    Ok(copy.len() == 2 && copy.entry(0) == Some((LONG, 2)) && copy.entry(1) == Some((LONGER, 2)))
}

impl Tried for CopyingCatalog {
    fn tried<A: Allocator + Copy>(alloc: A) -> Outcome {
        let Ok(catalog) = long_catalog(alloc) else {
            return Outcome::Unready;
        };
        match is_catalog_copied(&catalog) {
            Ok(right) => Outcome::done_if(right),
            Err(_) => Outcome::refused_if(is_catalog_copied(&catalog) == Ok(true)),
        }
    }
}

#[test]
fn failed_allocation_in_copies_of_catalogs(rt: HostRuntime) {
    assert!(rt; matches!(refusals::<CopyingCatalog>(rt.alloc()), Ok(3..)));
}

/// All groundings of a query over the worked tables.
struct Grounding;

fn is_number<A: Allocator>(values: &[Value<A>], number: i64) -> bool {
    match values {
        [value] => value.as_num() == Some(number),
        _ => false,
    }
}

fn are_jerrys<A: Allocator>(found: &Groundings<A>) -> bool {
    let mut list = found.list();
    match (list.next(), list.next(), list.next()) {
        (Some(first), Some(second), None) => is_number(first, 122) && is_number(second, 123),
        _ => false,
    }
}

fn are_again<A: Allocator + Copy>(alloc: A, tables: &Tables<A>) -> bool {
    match all(alloc, tables, JERRY, &mut Meter::new()) {
        Ok(found) => are_jerrys(&found),
        Err(_) => false,
    }
}

fn grounded<A: Allocator + Copy>(alloc: A, tables: &Tables<A>) -> Outcome {
    match all(alloc, tables, JERRY, &mut Meter::new()) {
        Ok(found) => Outcome::done_if(are_jerrys(&found)),
        Err(_) => Outcome::refused_if(are_again(alloc, tables)),
    }
}

impl Tried for Grounding {
    fn tried<A: Allocator + Copy>(alloc: A) -> Outcome {
        match travel(alloc) {
            Ok(tables) => grounded(alloc, &tables),
            Err(_) => Outcome::Unready,
        }
    }
}

#[test]
fn failed_allocation_in_all(rt: HostRuntime) {
    assert!(rt; matches!(refusals::<Grounding>(rt.alloc()), Ok(6..)));
}

/// Whether the first atom of the same body has a grounding.
struct Holding;

impl Tried for Holding {
    fn tried<A: Allocator + Copy>(alloc: A) -> Outcome {
        let Ok(tables) = travel(alloc) else {
            return Outcome::Unready;
        };
        match holds(alloc, &tables, JERRY, 1) {
            Ok(found) => Outcome::done_if(found),
            Err(_) => Outcome::refused_if(holds(alloc, &tables, JERRY, 1) == Ok(true)),
        }
    }
}

#[test]
fn failed_allocation_in_has_grounding(rt: HostRuntime) {
    assert!(rt; matches!(refusals::<Holding>(rt.alloc()), Ok(5..)));
}

/// A copy of these groundings.
struct CopyingGroundings;

fn are_copied<A: Allocator + Clone>(found: &Groundings<A>) -> Result<bool, AllocError> {
    let copy = found.copy()?;
    Ok(are_jerrys(&copy))
}

impl Tried for CopyingGroundings {
    fn tried<A: Allocator + Copy>(alloc: A) -> Outcome {
        let Ok(tables) = travel(alloc) else {
            return Outcome::Unready;
        };
        let Ok(found) = all(alloc, &tables, JERRY, &mut Meter::new()) else {
            return Outcome::Unready;
        };
        match are_copied(&found) {
            Ok(right) => Outcome::done_if(right),
            Err(_) => Outcome::refused_if(are_copied(&found) == Ok(true)),
        }
    }
}

#[test]
fn failed_allocation_in_copies_of_groundings(rt: HostRuntime) {
    assert!(rt; matches!(refusals::<CopyingGroundings>(rt.alloc()), Ok(3..)));
}
