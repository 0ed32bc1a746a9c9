//! Catalogs: the worked setup, and the refusals in order.

use crate::samples::travel_catalog;
use cq_rel::{Catalog, CatalogFault, MAX_RELATIONS};
use std::alloc::Global;
use std::test::Fail;

/// 33 letters.
const LETTERS_33: &str = "Abcdefghijklmnopqrstuvwxyzabcdefg";

/// Whether the catalog is that of the worked travel setup.
fn is_travel(catalog: &Catalog) -> bool {
    catalog.len() == 2
        && catalog.arity_of("Airlines") == Some(2)
        && catalog.arity_of("Trains").is_none()
        && catalog.entry(0) == Some(("Flights", 2))
        && catalog.entry(1) == Some(("Airlines", 2))
        && catalog.entry(2).is_none()
}

/// The first name whose declaration with that arity is not refused so.
fn other_declared(
    catalog: &mut Catalog,
    told: &[(&'static str, usize, CatalogFault)],
) -> Option<&'static str> {
    for (name, arity, fault) in told {
        if catalog.declare(name, *arity) != Err(*fault) {
            return Some(*name);
        }
    }
    None
}

const REFUSED: [(&str, usize, CatalogFault); 5] = [
    ("flights", 0, CatalogFault::BadName),
    (LETTERS_33, 2, CatalogFault::BadName),
    ("Flights", 0, CatalogFault::BadArity),
    ("Flights", 17, CatalogFault::BadArity),
    ("Flights", 3, CatalogFault::Declared),
];

#[test]
fn refusals_of_a_declaration(rt: HostRuntime) -> Result<(), Fail> {
    let mut catalog = travel_catalog(rt.alloc())?;
    let other = other_declared(&mut catalog, REFUSED.as_slice());
    assert!(rt; other.is_none(), "{other:?}");
    assert!(rt; is_travel(&catalog));
    Ok(())
}

/// Declares the relation of that number.
fn declare_numbered(
    alloc: Global,
    catalog: &mut Catalog,
    number: usize,
) -> Result<(), CatalogFault> {
    let name = format!(in alloc; "R{number}")?;
    catalog.declare(name.as_str(), 1)
}

const REFUSED_WHERE_FULL: [(&str, usize, CatalogFault); 3] = [
    ("S", 17, CatalogFault::BadArity),
    ("R63", 1, CatalogFault::Declared),
    ("S", 1, CatalogFault::CatalogFull),
];

#[test]
fn full_catalog(rt: HostRuntime) {
    let mut catalog = Catalog::empty(rt.alloc());
    for number in 0..MAX_RELATIONS {
        let told = declare_numbered(rt.alloc(), &mut catalog, number);
        assert!(rt; told == Ok(()), "{number}");
    }
    let other = other_declared(&mut catalog, REFUSED_WHERE_FULL.as_slice());
    assert!(rt; other.is_none(), "{other:?}");
    assert!(rt; catalog.len() == 64 && catalog.entry(63) == Some(("R63", 1)));
}
