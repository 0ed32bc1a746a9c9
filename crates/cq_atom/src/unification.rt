//! When two atoms unify.
//!
//! The places of both atoms get labels, equal ones where one variable ties two places of one atom.
//! The atoms unify exactly where the constants under each label agree.

ghost use Rattle.std.specs.Prelude.{◌≡◌, ◌↔◌, ◌+◌, ◌<◌, ◌≤◌, length, min, IsTrue};
ghost use Rattle.cq_atom.specs.Steps.Labels.{AreOwn, Merged, SameVariable, Ties, EndsAt, EndsBelow, AgreesWith, Agree, AreValid};
ghost use Rattle.cq_atom.specs.Steps.Meets.{CanMeet, MayMeet};
ghost use Rattle.cq_atom.specs.Unify.{Unify};

use crate::atom::Atom;
use crate::limits::MAX_ARITY;
use crate::meter::Meter;
use crate::term::Term;
use crate::value::Value;
use std::alloc::Allocator;

/// Gives each place a label of its own.
fn number(labels: &mut [usize])
    ensures { AreOwn labels.new }
{
    for (place, label) in labels.iter_mut().enumerate() {
        *label = place;
    }
}

/// Gives each place with the one label the other.
fn merge(labels: &mut [usize], from: usize, to: usize)
    ensures { Merged labels.old labels.new from to }
{
    for label in labels.iter_mut() {
        if *label == from {
            *label = to;
        }
    }
}

fn is_same_variable<A: Allocator>(a: &Term<A>, b: &Term<A>) -> bool
    ensures { IsTrue result ↔ SameVariable a.now b.now }
{
    match (a.as_variable(), b.as_variable()) {
        (Some(x), Some(y)) => x == y,
        _ => false,
    }
}

// One label for the place `j` and each earlier one with the same variable.
fn tie_to_earlier<A: Allocator>(labels: &mut [usize], terms: &[Term<A>], j: usize)
    requires inside { j < length terms.now }
    requires fits { length terms.now ≤ length labels.old }
    ensures { Ties labels.old labels.new terms.now (EndsAt j j) }
{
    for i in 0..j {
        if is_same_variable(&terms[i], &terms[j]) {
            let from = labels[j];
            let to = labels[i];
            merge(labels, from, to);
        }
    }
}

fn tie<A: Allocator>(labels: &mut [usize], terms: &[Term<A>])
    requires fits { length terms.now ≤ length labels.old }
    ensures { Ties labels.old labels.new terms.now (EndsBelow (length terms.now)) }
{
    for j in 0..terms.len() {
        tie_to_earlier(labels, terms, j);
    }
}

fn agrees_with<A: Allocator>(
    labels: &[usize],
    label: usize,
    value: &Value<A>,
    terms: &[Term<A>],
) -> bool
    requires fits { length terms.now ≤ length labels.now }
    ensures { IsTrue result ↔ AgreesWith labels.now label value.now terms.now }
{
    for j in 0..terms.len() {
        if labels[j] == label {
            if let Some(other) = terms[j].as_constant() {
                if !value.is_same(other) {
                    return false;
                }
            }
        }
    }
    true
}

fn agree<A: Allocator>(labels: &[usize], a: &[Term<A>], b: &[Term<A>]) -> bool
    requires fits_a { length a.now ≤ length labels.now }
    requires fits_b { length b.now ≤ length labels.now }
    ensures tells { IsTrue result ↔ Agree labels.now a.now b.now }
    ensures valid { IsTrue result → AreValid a.now }
{
    for i in 0..a.len() {
        if let Some(value) = a[i].as_constant() {
            if !agrees_with(labels, labels[i], value, b) {
                return false;
            }
        }
    }
    true
}

/// Whether the terms are not two different constants.
fn may_meet<A: Allocator>(a: &Term<A>, b: &Term<A>) -> bool
    ensures { IsTrue result ↔ MayMeet a.now b.now }
{
    match (a.as_constant(), b.as_constant()) {
        (Some(value), Some(other)) => value.is_same(other),
        _ => true,
    }
}

/// Whether there is no place with two different constants: the test that most pairs fail, before any label is given.
fn may_meet_all<A: Allocator>(a: &[Term<A>], b: &[Term<A>]) -> bool
    requires alike { length a.now ≡ length b.now }
    ensures { CanMeet a.now b.now → IsTrue result }
{
    for i in 0..a.len() {
        if !may_meet(&a[i], &b[i]) {
            return false;
        }
    }
    true
}

fn can_meet<A: Allocator>(a: &[Term<A>], b: &[Term<A>]) -> bool
    requires few { length a.now ≤ MAX_ARITY }
    ensures { IsTrue result ↔ CanMeet a.now b.now }
{
    if a.len() != b.len() {
        return false;
    }
    if !may_meet_all(a, b) {
        return false;
    }
    let mut labels = [0usize; MAX_ARITY];
    number(&mut labels);
    tie(&mut labels, a);
    tie(&mut labels, b);
    agree(&labels, a, a) && agree(&labels, a, b) && agree(&labels, b, b)
}

/// Whether some values for the variables of `a`, and some for those of `b`, make them equal.
pub fn unify<A: Allocator>(a: &Atom<A>, b: &Atom<A>, meter: &mut Meter) -> bool
    ensures unifies { IsTrue result ↔ Unify a.now b.now }
    ensures ticks { meter.new ≡ min (meter.old + 1) u64.MAX }
{
    meter.tick();
    a.relation() == b.relation() && can_meet(a.terms(), b.terms())
}
