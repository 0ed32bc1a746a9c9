//! Coordinating choices.

ghost use Rattle.std.specs.Prelude.{◌≡◌, ◌↔◌, map, IsTrue, Some, true};
ghost use Rattle.std.specs.List.{All, Any, IsDistinct, list_any};
ghost use Rattle.std.specs.Option.{option_copied};
ghost use Rattle.std.specs.Str.{bytes_eq};
ghost use Rattle.cq_atom.specs.Atom.{constant_of};
ghost use Rattle.cq_atom.specs.Valuation.{value_at, term_under, under};
ghost use Rattle.cq_atom.specs.Unify.{Unify};
ghost use Rattle.cq_board.specs.Choice.{chosen_name, bound, IsGrounded, IsCoordinating};
ghost use Rattle.cq_board.specs.Named.{query_named, matched_named};
ghost use Rattle.cq_board.specs.Steps.Choices.{IsValid, SameVariable, AreValid, IsOfferedBy, HasHead, IsOffered, IsSupplied, IsServed, HasSuppliers, AreServed, HaveSuppliers};

use crate::board::Board;
use cq_atom::{Atom, Name, Query, Term, Value, value_place};
use std::alloc::{Allocator, Global};
use std::marker::Model;

/// Values that are chosen for a pending query.
#[derive(Drop)]
pub struct Choice<A: Allocator = Global> {
    /// The query's name.
    pub name: Name<A>,
    /// A value for each variable of the query's body, in the order of the variables.
    pub values: Vec<Value<A>, A>,
}

impl<A: Allocator> Model for Choice<A> {
    ghost use Rattle.cq_board.specs.Choice.{ChoiceRecord};

    ghost Value = { ChoiceRecord };

    ghost view = { λ c. record { name = c.name; values = c.values.items } };
}

impl<A: Allocator> Choice<A> {
    fn name(&self) -> &Name<A>
        ensures { result.now ≡ self.now.name }
    {
        &self.name
    }

    fn values(&self) -> &[Value<A>]
        ensures { result.now ≡ self.now.values }
    {
        self.values.as_slice()
    }
}

/// A query with values for the variables of its body.
#[derive(Drop)]
struct Member<'a, A: Allocator> {
    query: &'a Query<A>,
    values: &'a [Value<A>],
}

/// The value of the variable of that name, where it has one.
fn value_of<'a, A: Allocator>(member: &Member<'a, A>, name: &str) -> Option<&'a Value<A>>
    ensures { option_copied result ≡ value_at (bound member.now.query.now member.now.values.now) name.now }
{
    let place = value_place(member.query.variables(), name)?;
    member.values.get(place)
}

/// The value of the term, where it has one.
fn value_under<'a, A: Allocator>(member: &Member<'a, A>, term: &'a Term<A>) -> Option<&'a Value<A>>
    ensures value { option_copied result ≡ constant_of (term_under (bound member.now.query.now member.now.values.now) term.now) }
    ensures valid { IsValid term.now }
{
    match term.as_variable() {
        Some(name) => value_of(member, name),
        None => term.as_constant(),
    }
}

/// Whether the two terms are one variable.
fn is_same_variable<A: Allocator>(term: &Term<A>, other: &Term<A>) -> bool
    ensures { IsTrue result ↔ SameVariable term.now other.now }
{
    match (term.as_variable(), other.as_variable()) {
        (Some(x), Some(y)) => x == y,
        _ => false,
    }
}

/// Whether the two terms are one under the values.
fn terms_agree<A: Allocator>(
    left: &Member<'_, A>,
    term: &Term<A>,
    right: &Member<'_, A>,
    other: &Term<A>,
) -> bool
    ensures same { IsTrue result ↔ (term_under (bound left.now.query.now left.now.values.now) term.now ≡ term_under (bound right.now.query.now right.now.values.now) other.now) }
    ensures valid_left { IsValid term.now }
    ensures valid_right { IsValid other.now }
{
    match (value_under(left, term), value_under(right, other)) {
        (Some(value), Some(wanted)) => value.is_same(wanted),
        (None, None) => is_same_variable(term, other),
        _ => false,
    }
}

/// Whether the two lists of terms are one under the values.
fn all_agree<A: Allocator>(
    left: &Member<'_, A>,
    terms: &[Term<A>],
    right: &Member<'_, A>,
    others: &[Term<A>],
) -> bool
    ensures same { IsTrue result ↔ (map (term_under (bound left.now.query.now left.now.values.now)) terms.now ≡ map (term_under (bound right.now.query.now right.now.values.now)) others.now) }
    ensures valid_left { IsTrue result → AreValid terms.now }
    ensures valid_right { IsTrue result → AreValid others.now }
{
    if terms.len() != others.len() {
        return false;
    }
    for i in 0..terms.len() {
        if !terms_agree(left, &terms[i], right, &others[i]) {
            return false;
        }
    }
    true
}

/// Whether the head and the postcondition are one atom under the values. Then they unify.
fn atoms_agree<A: Allocator>(
    offering: &Member<'_, A>,
    head: &Atom<A>,
    waiting: &Member<'_, A>,
    post: &Atom<A>,
) -> bool
    ensures same { IsTrue result ↔ (under (bound offering.now.query.now offering.now.values.now) head.now ≡ under (bound waiting.now.query.now waiting.now.values.now) post.now) }
    ensures unify { IsTrue result → Unify head.now post.now }
{
    head.relation() == post.relation() && all_agree(offering, head.terms(), waiting, post.terms())
}

/// Whether some head is the postcondition under the values.
fn has_head<A: Allocator>(offering: &Member<'_, A>, waiting: &Member<'_, A>, post: &Atom<A>) -> bool
    ensures same { IsTrue result ↔ Any (λ head. under (bound offering.now.query.now offering.now.values.now) head ≡ under (bound waiting.now.query.now waiting.now.values.now) post.now) offering.now.query.now.heads }
    ensures unify { IsTrue result → Any (λ head. Unify head post.now) offering.now.query.now.heads }
{
    for head in offering.query.heads() {
        if atoms_agree(offering, head, waiting, post) {
            return true;
        }
    }
    false
}

/// Whether all names differ.
fn names_differ<A: Allocator>(choices: &[Choice<A>]) -> bool
    ensures { IsTrue result ↔ IsDistinct bytes_eq (map chosen_name choices.now) }
{
    for (place, choice) in choices.iter().enumerate() {
        let (_, later) = choices.split_at(place + 1);
        if has_name(later, choice.name()) {
            return false;
        }
    }
    true
}

fn is_named<A: Allocator>(name: &Name<A>, choice: &Choice<A>) -> bool
    ensures { result ≡ bytes_eq name.now choice.now.name }
{
    name.as_str() == choice.name().as_str()
}

/// Whether one of the choices is for that name.
fn has_name<A: Allocator>(choices: &[Choice<A>], name: &Name<A>) -> bool
    ensures { result ≡ list_any (λ c. bytes_eq name.now c.name) choices.now }
{
    choices.iter().any(|choice| is_named(name, choice))
}

impl<A: Allocator + Copy> Board<A> {
    /// Whether the choice's query offers the postcondition.
    fn offers(&self, choice: &Choice<A>, waiting: &Member<'_, A>, post: &Atom<A>) -> bool
        ensures same { IsTrue result ↔ IsOfferedBy (query_named choice.now.name self.now.pending) choice.now.values (under (bound waiting.now.query.now waiting.now.values.now) post.now) }
        ensures unify { IsTrue result → HasHead (query_named choice.now.name self.now.pending) post.now }
    {
        match self.query(choice.name()) {
            None => false,
            Some(query) => {
                let offering = Member {
                    query,
                    values: choice.values(),
                };
                has_head(&offering, waiting, post)
            }
        }
    }

    /// Whether one of the choices offers the postcondition.
    fn is_offered(&self, choices: &[Choice<A>], waiting: &Member<'_, A>, post: &Atom<A>) -> bool
        ensures same { IsTrue result ↔ IsOffered self.now.pending choices.now (under (bound waiting.now.query.now waiting.now.values.now) post.now) }
        ensures unify { IsTrue result → IsSupplied self.now.pending choices.now post.now }
    {
        for choice in choices {
            if self.offers(choice, waiting, post) {
                return true;
            }
        }
        false
    }

    /// Whether each postcondition is offered by one of the choices.
    fn has_each_post(&self, choices: &[Choice<A>], waiting: &Member<'_, A>) -> bool
        ensures same { IsTrue result ↔ IsServed self.now.pending choices.now (Some waiting.now.query.now) waiting.now.values.now }
        ensures unify { IsTrue result → HasSuppliers self.now.pending choices.now (Some waiting.now.query.now) }
    {
        for post in waiting.query.posts() {
            if !self.is_offered(choices, waiting, post) {
                return false;
            }
        }
        true
    }

    /// Whether what the choice's query awaits is offered by one of the choices.
    fn is_served(&self, choices: &[Choice<A>], choice: &Choice<A>) -> bool
        ensures same { IsTrue result ↔ IsServed self.now.pending choices.now (query_named choice.now.name self.now.pending) choice.now.values }
        ensures unify { IsTrue result → HasSuppliers self.now.pending choices.now (query_named choice.now.name self.now.pending) }
    {
        match self.query(choice.name()) {
            None => true,
            Some(query) => {
                let waiting = Member {
                    query,
                    values: choice.values(),
                };
                self.has_each_post(choices, &waiting)
            }
        }
    }

    /// Whether the choices serve one another.
    fn are_served(&self, choices: &[Choice<A>]) -> bool
        ensures same { IsTrue result ↔ AreServed self.now.pending choices.now }
        ensures unify { IsTrue result → HaveSuppliers self.now.pending choices.now }
    {
        for choice in choices {
            if !self.is_served(choices, choice) {
                return false;
            }
        }
        true
    }

    /// Whether the choice is of a pending query and of a grounding of it.
    fn is_grounded(&self, choice: &Choice<A>) -> bool
        ensures { IsTrue result ↔ IsGrounded self.now choice.now }
    {
        match self.groundings(choice.name()) {
            None => false,
            Some(groundings) => {
                let _known = groundings.list();
                groundings.has(choice.values())
            }
        }
    }

    fn are_grounded(&self, choices: &[Choice<A>]) -> bool
        ensures { IsTrue result ↔ All (IsGrounded self.now) choices.now }
    {
        for choice in choices {
            if !self.is_grounded(choice) {
                return false;
            }
        }
        true
    }

    /// Whether the choices coordinate: they are of distinct pending queries, each of a grounding of
    /// its query, and each postcondition equals a head of one of them under the chosen values. Then
    /// each of the queries is matched. It takes no memory.
    pub fn check_choice(&self, choices: &[Choice<A>]) -> bool
        ensures choice { IsTrue result ↔ IsCoordinating self.now choices.now }
        ensures matched { IsTrue result → All (λ c. matched_named c.name self.now ≡ Some true) choices.now }
    {
        if !names_differ(choices) {
            return false;
        }
        self.are_grounded(choices) && self.are_served(choices)
    }
}
