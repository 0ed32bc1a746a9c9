//! Tables that several tests use.

use cq_rel::{Catalog, CatalogFault, RowFault, Tables};
use cq_text::{Form, read_ground_atom};
use std::alloc::Allocator;

/// The rows of the worked travel setup.
pub const TRAVEL: [&str; 8] = [
    "Flights(136, Rome)",
    "Airlines(122, United)",
    "Flights(122, Paris)",
    "Flights(134, Paris)",
    "Airlines(136, Alitalia)",
    "Flights(123, Paris)",
    "Airlines(134, Lufthansa)",
    "Airlines(123, United)",
];

/// `Flights` and `Airlines`, both of arity 2.
pub fn travel_catalog<A: Allocator + Copy>(alloc: A) -> Result<Catalog<A>, CatalogFault> {
    let mut catalog = Catalog::empty(alloc);
    catalog.declare("Flights", 2)?;
    catalog.declare("Airlines", 2)?;
    Ok(catalog)
}

/// Why the row of the text is not inserted; a text of no row counts as out of memory.
pub fn insert<A: Allocator + Copy>(
    alloc: A,
    tables: &mut Tables<A>,
    text: &str,
) -> Result<(), RowFault> {
    match read_ground_atom(alloc, text.as_bytes(), Form::One) {
        Ok(row) => tables.insert(row),
        Err(_) => Err(RowFault::NoMemory),
    }
}

/// Why the row of the text is not deleted.
pub fn delete<A: Allocator + Copy>(
    alloc: A,
    tables: &mut Tables<A>,
    text: &str,
) -> Result<(), RowFault> {
    match read_ground_atom(alloc, text.as_bytes(), Form::One) {
        Ok(row) => tables.delete(&row),
        Err(_) => Err(RowFault::NoMemory),
    }
}

/// Inserts the rows of the texts.
pub fn insert_all<A: Allocator + Copy>(
    alloc: A,
    tables: &mut Tables<A>,
    texts: &[&str],
) -> Result<(), RowFault> {
    for text in texts {
        insert(alloc, tables, text)?;
    }
    Ok(())
}

/// The tables over `Flights` and `Airlines`, without rows.
pub fn travel_begun<A: Allocator + Copy>(alloc: A) -> Result<Tables<A>, CatalogFault> {
    Ok(Tables::begin(travel_catalog(alloc)?)?)
}

/// The same with the rows of the worked travel setup.
pub fn travel<A: Allocator + Copy>(alloc: A) -> Result<Tables<A>, CatalogFault> {
    let mut tables = travel_begun(alloc)?;
    match insert_all(alloc, &mut tables, TRAVEL.as_slice()) {
        Ok(()) => Ok(tables),
        Err(_) => Err(CatalogFault::NoMemory),
    }
}

/// The tables over `T` of arity 2, with the rows of the texts.
pub fn pairs<A: Allocator + Copy>(alloc: A, texts: &[&str]) -> Result<Tables<A>, CatalogFault> {
    of_arity(alloc, 2, texts)
}

/// The tables over `T` of that arity, with the rows of the texts.
pub fn of_arity<A: Allocator + Copy>(
    alloc: A,
    arity: usize,
    texts: &[&str],
) -> Result<Tables<A>, CatalogFault> {
    let mut catalog = Catalog::empty(alloc);
    catalog.declare("T", arity)?;
    let mut tables = Tables::begin(catalog)?;
    match insert_all(alloc, &mut tables, texts) {
        Ok(()) => Ok(tables),
        Err(_) => Err(CatalogFault::NoMemory),
    }
}
