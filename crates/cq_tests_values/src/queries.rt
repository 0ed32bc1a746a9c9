//! Queries.

use crate::samples::query;
use cq_atom::{Atom, Bad, Part, Query, Variables, binds, value_place};
use std::alloc::{Allocator, Global};

/// How many atoms a query's postconditions, heads and body have, and whether it has them, or why there is none.
type Counts = (usize, usize, usize, Result<bool, Bad>);

/// The refusals stand in their order.
const COUNTS: [Counts; 9] = [
    (17, 17, 17, Err(Bad::TooMany { part: Part::Posts })),
    (16, 17, 17, Err(Bad::TooMany { part: Part::Heads })),
    (16, 0, 17, Err(Bad::TooMany { part: Part::Body })),
    (16, 0, 0, Err(Bad::NoHead)),
    (
        1,
        1,
        0,
        Err(Bad::Unbound {
            part: Part::Posts,
            atom: 0,
            term: 1,
        }),
    ),
    (
        0,
        2,
        0,
        Err(Bad::Unbound {
            part: Part::Heads,
            atom: 0,
            term: 1,
        }),
    ),
    (0, 1, 1, Ok(true)),
    (1, 2, 3, Ok(true)),
    (16, 16, 16, Ok(true)),
];

/// Whether the parts have as many atoms, and the variables are `x` and `y`, in this order.
pub fn has<A: Allocator>(query: &Query<A>, posts: usize, heads: usize, body: usize) -> bool {
    let names = query.variables();
    let counts = [
        query.posts().len(),
        query.heads().len(),
        query.body().len(),
        names.len(),
    ];
    let places = [value_place(names, "x"), value_place(names, "y")];
    counts == [posts, heads, body, 2] && places == [Some(0), Some(1)]
}

/// Whether the query of as many atoms in its parts has them.
fn is_query(alloc: Global, posts: usize, heads: usize, body: usize) -> Result<bool, Bad> {
    let made = query(alloc, posts, heads, body)?;
    Ok(has(&made, posts, heads, body))
}

/// The place of the first query that has other parts.
fn other_query(alloc: Global) -> Option<usize> {
    for (place, (posts, heads, body, wanted)) in COUNTS.iter().enumerate() {
        if is_query(alloc, *posts, *heads, *body) != *wanted {
            return Some(place);
        }
    }
    None
}

#[test]
fn parts_of_a_query(rt: HostRuntime) {
    let other = other_query(rt.alloc());
    assert!(rt; other.is_none(), "{other:?}");
}

/// A name, whether the body binds it as a variable, and the place of its value among those of all variables.
const FOUND: [(&str, bool, Option<usize>); 3] = [
    ("x", true, Some(0)),
    ("y", true, Some(1)),
    ("z", false, None),
];

/// The place of the first of the names that is found otherwise.
fn other_found(query: &Query) -> Option<usize> {
    for (place, (name, is_bound, value)) in FOUND.iter().enumerate() {
        let told = (
            binds(query.body(), name),
            value_place(query.variables(), name),
        );
        if told != (*is_bound, *value) {
            return Some(place);
        }
    }
    None
}

/// Whether the variables of the first atoms bind those of the others.
fn bind_all(alloc: Global, atoms: &[Atom], others: &[Atom]) -> Result<bool, Bad> {
    Ok(Variables::of(alloc, atoms)?.bind_all(others))
}

/// The place of the first name that is found otherwise; whether the body's variables bind the heads, and the other way round.
type Told = (Option<usize>, Result<bool, Bad>, Result<bool, Bad>);

fn found(alloc: Global) -> Result<Told, Bad> {
    let query = query(alloc, 1, 2, 2)?;
    let (heads, body) = (query.heads(), query.body());
    Ok((
        other_found(&query),
        bind_all(alloc, body, heads),
        bind_all(alloc, heads, body),
    ))
}

#[test]
fn variables_of_a_body(rt: HostRuntime) {
    // The heads have no `y`.
    assert!(rt; found(rt.alloc()) == Ok((None, Ok(true), Ok(false))));
}
