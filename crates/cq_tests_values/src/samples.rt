//! Small values that several tests use.

use cq_atom::{Atom, Bad, Query, Row, Term, Value};
use std::alloc::Allocator;

/// A term of a sample.
#[derive(Clone, Copy)]
pub enum Sample {
    Number(i64),
    Text(&'static str),
    Variable(&'static str),
}

pub const ONE: Sample = Sample::Number(1);

pub const TWO: Sample = Sample::Number(2);

pub const U: Sample = Sample::Variable("u");

pub const X: Sample = Sample::Variable("x");

pub const Y: Sample = Sample::Variable("y");

pub fn value<A: Allocator + Copy>(alloc: A, sample: Sample) -> Result<Value<A>, Bad> {
    match sample {
        Sample::Number(number) => Ok(Value::num(number)),
        Sample::Text(text) => Value::text(alloc, text),
        Sample::Variable(_) => Err(Bad::BadText),
    }
}

pub fn term<A: Allocator + Copy>(alloc: A, sample: Sample) -> Result<Term<A>, Bad> {
    match sample {
        Sample::Variable(name) => Term::variable(alloc, name),
        _ => Ok(Term::constant(value(alloc, sample)?)),
    }
}

pub fn atom<A: Allocator + Copy>(
    alloc: A,
    relation: &str,
    samples: &[Sample],
) -> Result<Atom<A>, Bad> {
    let mut terms = Vec::new(alloc);
    for sample in samples {
        terms.push(term(alloc, *sample)?)?;
    }
    Atom::new(alloc, relation, terms)
}

pub fn row<A: Allocator + Copy>(
    alloc: A,
    relation: &str,
    samples: &[Sample],
) -> Result<Row<A>, Bad> {
    let mut values = Vec::new(alloc);
    for sample in samples {
        values.push(value(alloc, *sample)?)?;
    }
    Row::new(alloc, relation, values)
}

/// As many atoms of the relation over the samples.
fn atoms<A: Allocator + Copy>(
    alloc: A,
    count: usize,
    relation: &str,
    samples: &[Sample],
) -> Result<Vec<Atom<A>, A>, Bad> {
    let mut made = Vec::new(alloc);
    for _ in 0..count {
        made.push(atom(alloc, relation, samples)?)?;
    }
    Ok(made)
}

/// The query with as many atoms in its postconditions, its heads and its body: `R(1, x)`, and `T(x, y)` in the
/// body.
pub fn query<A: Allocator + Copy>(
    alloc: A,
    posts: usize,
    heads: usize,
    body: usize,
) -> Result<Query<A>, Bad> {
    let posts = atoms(alloc, posts, "R", [ONE, X].as_slice())?;
    let heads = atoms(alloc, heads, "R", [ONE, X].as_slice())?;
    let body = atoms(alloc, body, "T", [X, Y].as_slice())?;
    Query::new(alloc, posts, heads, body)
}
