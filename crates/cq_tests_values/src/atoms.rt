//! Atoms, rows, valuations and `unify`.

use crate::samples::{ONE, Sample, TWO, U, X, Y, atom, row};
use cq_atom::{Atom, Bad, Meter, Valuation, Value, unify};
use std::alloc::Global;

/// Whether the atom over the samples has the relation and as many terms.
fn is_atom(alloc: Global, relation: &str, samples: &[Sample]) -> Result<bool, Bad> {
    let made = atom(alloc, relation, samples)?;
    Ok(made.relation() == relation && made.terms().len() == samples.len())
}

/// The same of a row.
fn is_row(alloc: Global, relation: &str, samples: &[Sample]) -> Result<bool, Bad> {
    let made = row(alloc, relation, samples)?;
    Ok(made.relation() == relation && made.values().len() == samples.len())
}

const FLIGHT: [Sample; 2] = [Sample::Number(122), Sample::Text("Paris")];

const NO_NAME: Result<bool, Bad> = Err(Bad::BadName);

const NO_ARITY: Result<bool, Bad> = Err(Bad::BadArity);

/// Relations and samples, and what is made of them.
const MADE: [(&str, &[Sample], Result<bool, Bad>); 6] = [
    ("Flights", &FLIGHT, Ok(true)),
    ("R", &[ONE; 16], Ok(true)),
    ("R", &[ONE; 17], NO_ARITY),
    ("R", &[], NO_ARITY),
    ("r", &[], NO_NAME),
    ("_R", &[ONE; 17], NO_NAME),
];

/// The place of the first relation and samples of which something else is made.
fn other_made(alloc: Global) -> Option<usize> {
    for (place, (relation, samples, wanted)) in MADE.iter().enumerate() {
        let told = [
            is_atom(alloc, relation, samples),
            is_row(alloc, relation, samples),
        ];
        if told != [*wanted, *wanted] {
            return Some(place);
        }
    }
    None
}

#[test]
fn atoms_and_rows(rt: HostRuntime) {
    let other = other_made(rt.alloc());
    assert!(rt; other.is_none(), "{other:?}");
}

/// The number that the variable has.
fn number_at(valuation: &Valuation, name: &str) -> Option<i64> {
    match valuation.get(name) {
        Some(value) => value.as_num(),
        None => None,
    }
}

/// Gives the variable the number, and answers the one that it had.
fn bind(valuation: &mut Valuation, name: &str, number: i64) -> Result<Option<i64>, Bad> {
    match valuation.bind(name, Value::num(number))? {
        Some(value) => Ok(value.as_num()),
        None => Ok(None),
    }
}

/// A variable, the number that it is given, what the valuation then tells of the one before, and what it has after it.
type Bound = (&'static str, i64, Result<Option<i64>, Bad>, Option<i64>);

const BOUND: [Bound; 5] = [
    ("x", 1, Ok(None), Some(1)),
    ("y", 2, Ok(None), Some(2)),
    ("x", 3, Ok(Some(1)), Some(3)),
    ("X", 4, Err(Bad::BadName), None),
    ("y", 5, Ok(Some(2)), Some(5)),
];

/// The place of the first of the variables that is bound otherwise.
fn other_bound(valuation: &mut Valuation) -> Option<usize> {
    for (place, (name, number, told, after)) in BOUND.iter().enumerate() {
        if bind(valuation, name, *number) != *told || number_at(valuation, name) != *after {
            return Some(place);
        }
    }
    None
}

#[test]
fn valuations(rt: HostRuntime) {
    let other = other_bound(&mut Valuation::empty(rt.alloc()));
    assert!(rt; other.is_none(), "{other:?}");
}

/// Whether the atom unifies with the one of the relation over the samples.
fn unified_with(
    alloc: Global,
    left: &Atom,
    relation: &str,
    samples: &[Sample],
    meter: &mut Meter,
) -> Result<bool, Bad> {
    let right = atom(alloc, relation, samples)?;
    Ok(unify(left, &right, meter))
}

/// Terms of an atom of `R`, a relation, terms of an atom of it, and whether the two atoms unify.
type Pair = (&'static [Sample], &'static str, &'static [Sample], bool);

const PAIRS: [Pair; 6] = [
    // Two constants that a shared variable ties.
    (&[X, X, Y, Y], "R", &[ONE, U, U, TWO], false),
    (&[X, X], "R", &[Y, TWO], true),
    // The variables of two atoms are apart, also where they have one name.
    (&[ONE, X], "R", &[X, TWO], true),
    // A number is no text, and atoms of two relations or arities never unify.
    (&[ONE], "R", &[Sample::Text("1")], false),
    (&[ONE], "S", &[X], false),
    (&[ONE], "R", &[ONE, X], false),
];

/// Whether the two atoms unify.
fn unified(alloc: Global, pair: Pair, meter: &mut Meter) -> Result<bool, Bad> {
    let left = atom(alloc, "R", pair.0)?;
    unified_with(alloc, &left, pair.1, pair.2, meter)
}

/// The place of the first of the pairs that is said otherwise.
fn other_unified(alloc: Global, meter: &mut Meter) -> Option<usize> {
    for (place, pair) in PAIRS.iter().enumerate() {
        if unified(alloc, *pair, meter) != Ok(pair.3) {
            return Some(place);
        }
    }
    None
}

#[test]
fn unify_each_once(rt: HostRuntime) {
    let mut meter = Meter::new();
    let other = other_unified(rt.alloc(), &mut meter);
    assert!(rt; other.is_none() && meter.count() == 6, "{other:?}");
    meter.tick();
    meter.add(3);
    assert!(rt; meter.count() == 10);
}
