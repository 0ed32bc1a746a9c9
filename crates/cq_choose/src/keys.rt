//! What members of a choice offer and await, and how it is told apart.

ghost use Rattle.std.specs.Prelude.{◌≡◌, fold, map};
ghost use Rattle.std.specs.Option.{option_copied};
ghost use Rattle.cq_atom.specs.Valuation.{value_at, term_under};
ghost use Rattle.cq_board.specs.Choice.{bound};
ghost use Rattle.cq_choose.specs.Steps.Goods.{atom_input, atom_of, good_of, same_atom, same_term, same_terms, term_input, term_of, terms_input, value_input};

use cq_atom::{Atom, Name, Query, Term, Value, value_place};
use std::alloc::Allocator;
use std::hash::{Hash, Hasher};
use std::marker::Model;

/// What is offered and awaited.
#[derive(Drop)]
pub(crate) enum Good<N, T> {
    /// That the query of that name is chosen for.
    Query(N),
    /// An atom.
    Atom(T),
}

/// An atom of a query, under values for the variables of the query's body.
#[derive(Drop)]
pub(crate) struct Instance<'a, A: Allocator> {
    pub(crate) query: &'a Query<A>,
    pub(crate) values: &'a [Value<A>],
    pub(crate) atom: &'a Atom<A>,
}

/// What a term is under the values.
#[derive(Drop)]
pub(crate) enum Part<V, N> {
    /// A value.
    Fixed(V),
    /// A variable that has none, by its name.
    Open(N),
}

/// A good by which suppliers are looked up. It borrows all that it is made of, and takes no memory.
#[derive(Drop)]
pub(crate) struct Key<'a, A: Allocator> {
    good: Good<&'a Name<A>, Instance<'a, A>>,
}

impl<'a, A: Allocator> Model for Key<'a, A> {
    ghost use Rattle.cq_choose.specs.Steps.Goods.{GoodContent, good_of};

    ghost Value = { GoodContent };

    ghost view = { λ k. good_of k.good };
}

impl<'a, A: Allocator> Key<'a, A> {
    pub(crate) fn of(good: Good<&'a Name<A>, Instance<'a, A>>) -> Key<'a, A>
        ensures { result ≡ good_of good.entry }
    {
        Key { good }
    }
}

/// The value of the variable of that name, where it has one.
fn value_of<'a, A: Allocator>(instance: &Instance<'a, A>, name: &str) -> Option<&'a Value<A>>
    ensures { option_copied result ≡ value_at (bound instance.now.query.now instance.now.values.now) name.now }
{
    let place = value_place(instance.query.variables(), name)?;
    instance.values.get(place)
}

/// What the term is under the values.
fn part_of<'a, A: Allocator>(
    instance: &Instance<'a, A>,
    term: &'a Term<A>,
) -> Part<&'a Value<A>, &'a str>
    ensures { term_of result ≡ term_under (bound instance.now.query.now instance.now.values.now) term.now }
{
    match term.as_variable() {
        Some(name) => match value_of(instance, name) {
            Some(value) => Part::Fixed(value),
            None => Part::Open(name),
        },
        None => match term.as_constant() {
            Some(value) => Part::Fixed(value),
            // A term is one of both.
            None => unreachable!(),
        },
    }
}

fn is_same_part<A: Allocator>(one: Part<&Value<A>, &str>, other: Part<&Value<A>, &str>) -> bool
    ensures { result ≡ same_term (term_of one.entry) (term_of other.entry) }
{
    match (one, other) {
        (Part::Fixed(v), Part::Fixed(w)) => v == w,
        (Part::Open(x), Part::Open(y)) => x == y,
        _ => false,
    }
}

/// Whether the terms are the same under the values of both.
fn are_same_terms<'a, A: Allocator>(
    left: &Instance<'a, A>,
    terms: &'a [Term<A>],
    right: &Instance<'a, A>,
    others: &'a [Term<A>],
) -> bool
    ensures { result ≡ same_terms (map (term_under (bound left.now.query.now left.now.values.now)) terms.now) (map (term_under (bound right.now.query.now right.now.values.now)) others.now) }
{
    if terms.len() != others.len() {
        return false;
    }
    for i in 0..terms.len() {
        if !is_same_part(part_of(left, &terms[i]), part_of(right, &others[i])) {
            return false;
        }
    }
    true
}

/// Whether both are one atom.
fn is_same_atom<'a, A: Allocator>(left: &Instance<'a, A>, right: &Instance<'a, A>) -> bool
    ensures { result ≡ same_atom (atom_of left.now) (atom_of right.now) }
{
    left.atom.relation() == right.atom.relation()
        && are_same_terms(left, left.atom.terms(), right, right.atom.terms())
}

fn hash_value<A: Allocator, H: Hasher>(value: &Value<A>, state: &mut H)
    ensures { state.new ≡ fold H.write state.old (value_input value.now) }
{
    match (value.as_num(), value.as_text()) {
        (Some(number), _) => number.hash(state),
        (None, Some(text)) => text.hash(state),
        (None, None) => unreachable!(),
    }
}

fn hash_part<A: Allocator, H: Hasher>(part: Part<&Value<A>, &str>, state: &mut H)
    ensures { state.new ≡ fold H.write state.old (term_input (term_of part.entry)) }
{
    match part {
        Part::Fixed(value) => hash_value(value, state),
        Part::Open(name) => name.hash(state),
    }
}

fn hash_terms<'a, A: Allocator, H: Hasher>(
    instance: &Instance<'a, A>,
    terms: &'a [Term<A>],
    state: &mut H,
)
    ensures { state.new ≡ fold H.write state.old (terms_input (map (term_under (bound instance.now.query.now instance.now.values.now)) terms.now)) }
{
    for term in terms {
        hash_part(part_of(instance, term), state);
    }
}

fn hash_atom<A: Allocator, H: Hasher>(instance: &Instance<'_, A>, state: &mut H)
    ensures { state.new ≡ fold H.write state.old (atom_input (atom_of instance.now)) }
{
    instance.atom.relation().hash(state);
    hash_terms(instance, instance.atom.terms(), state);
}

impl<'a, A: Allocator> PartialEq for Key<'a, A> {
    ghost use Rattle.std.specs.Cmp.{partial_equiv_from_equiv};
    ghost use Rattle.cq_choose.specs.Steps.Goods.{same_good};
    ghost use Rattle.cq_choose.specs.Steps.Same.{same_good_equiv};

    ghost eq = { same_good };

    ghost laws = { partial_equiv_from_equiv same_good_equiv };

    fn eq(&self, other: &Key<'a, A>) -> bool {
        match (&self.good, &other.good) {
            (Good::Query(one), Good::Query(another)) => one.as_str() == another.as_str(),
            (Good::Atom(one), Good::Atom(another)) => is_same_atom(one, another),
            _ => false,
        }
    }
}

impl<'a, A: Allocator> Eq for Key<'a, A> {
    ghost use Rattle.cq_choose.specs.Steps.Same.{same_good_equiv};

    ghost laws = { same_good_equiv };
}

impl<'a, A: Allocator> Hash for Key<'a, A> {
    ghost use Rattle.std.proofs.Common.{ap};
    ghost use Rattle.cq_choose.specs.Steps.Goods.{good_input};
    ghost use Rattle.cq_choose.specs.Steps.Same.{same_good-is};

    ghost hash_input = { good_input };

    ghost respects_eq = { λ k l t. ap good_input (same_good-is k l t) };

    fn hash<H: Hasher>(&self, state: &mut H) {
        match &self.good {
            Good::Query(name) => name.as_str().hash(state),
            Good::Atom(instance) => hash_atom(instance, state),
        }
    }
}
