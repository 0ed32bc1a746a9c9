//! Valuations.

ghost use Rattle.std.specs.Prelude.{◌≡◌, ℕ, List, [], map, zip, position, string_bytes, IfOk, OnErr, OnOk, if◌then◌else◌, Some, None};
ghost use Rattle.std.specs.List.{slice_get};
ghost use Rattle.std.specs.Option.{option_copied, option_and_then};
ghost use Rattle.std.specs.Str.{bytes_eq};
ghost use Rattle.cq_atom.specs.Answer.{Answers};
ghost use Rattle.cq_atom.specs.Text.{is_variable_name};
ghost use Rattle.cq_atom.specs.Value.{ValueContent};
ghost use Rattle.cq_atom.specs.Valuation.{value_at, term_under};

use crate::fault::Bad;
use crate::name::Name;
use crate::term::Term;
use crate::value::Value;
use crate::word::{is_variable_text, same_name};
use std::alloc::{AllocError, Allocator, Global};
use std::marker::Model;
use std::mem;

/// A valuation: values for finitely many variables. Contracts see it as the list of its pairs, of
/// which only `value_at` speaks.
#[derive(Drop)]
pub struct Valuation<A: Allocator = Global> {
    bindings: Vec<(Name<A>, Value<A>), A>,
}

impl<A: Allocator> Model for Valuation<A> {
    ghost use Rattle.cq_atom.specs.Valuation.{Bindings};

    ghost Value = { Bindings };

    ghost view = { λ v. v.bindings.items };
}

impl<A: Allocator> Valuation<A> {
    /// The valuation that knows no variable. It keeps the allocator for `bind`.
    pub fn empty(alloc: A) -> Valuation<A>
        ensures { result ≡ [] }
    {
        Valuation {
            bindings: Vec::new(alloc),
        }
    }

    /// The value of the variable, where it has one.
    pub fn get(&self, name: &str) -> Option<&Value<A>>
        ensures { option_copied result ≡ value_at self.now name.now }
    {
        for (bound, value) in &self.bindings {
            if name == bound.as_str() {
                return Some(value);
            }
        }
        None
    }
}

impl<A: Allocator> Valuation<A> {
    /// Where the variable's pair stands.
    fn place_of(&self, name: &str) -> Option<usize>
        ensures { result ≡ position (λ binding. bytes_eq name.now binding.0) self.now }
    {
        self.bindings
            .iter()
            .position(|binding| binding.0.as_str() == name)
    }
}

impl<A: Allocator + Clone> Valuation<A> {
    /// Gives the variable the value, and answers the value that it had.
    ///
    /// # Errors
    /// `BadName` unless the bytes are a name that begins with a lower-case letter; else `NoMemory`
    /// where an allocation failed. The value is dropped then, and the valuation stays as it was.
    pub fn bind(&mut self, name: &str, value: Value<A>) -> Result<Option<Value<A>>, Bad>
        ensures answer { Answers Bad.NoMemory (if is_variable_name name.now then None else Some Bad.BadName) (value_at self.old name.now) result }
        ensures ok { OnOk result ((x : List ℕ) → value_at self.new x ≡ (if bytes_eq x name.now then Some value else value_at self.old x)) }
        ensures err { OnErr result (self.new ≡ self.old) }
    {
        if !is_variable_text(name) {
            return Err(Bad::BadName);
        }
        if let Some(place) = self.place_of(name) {
            return Ok(Some(mem::replace(&mut self.bindings[place].1, value)));
        }
        let alloc = self.bindings.allocator().clone()?;
        let name = Name::new(alloc, name)?;
        self.bindings.push((name, value))?;
        Ok(None)
    }
}

/// The terms under the valuation.
pub(crate) fn terms_under<A: Allocator + Clone>(
    alloc: A,
    terms: &[Term<A>],
    valuation: &Valuation<A>,
) -> Result<Vec<Term<A>, A>, AllocError>
    ensures { IfOk result (λ v. v.items ≡ map (term_under valuation.now) terms.now) }
{
    let mut made = Vec::with_capacity(alloc, terms.len())?;
    for term in terms {
        made.push(term.under(valuation)?)?;
    }
    Ok(made)
}

/// The first place at which the name stands.
fn first_place<A: Allocator>(names: &[String<A>], name: &str) -> Option<usize>
    ensures { result ≡ position (λ other. bytes_eq name.now (string_bytes other)) names.now }
{
    names
        .iter()
        .position(|other| same_name(name, other.as_str()))
}

/// The first place of the name among the names: that of the value that it has, where the names are bound
/// to values in order.
pub fn value_place<A: Allocator>(names: &[String<A>], name: &str) -> Option<usize>
    ensures first { result ≡ position (λ other. bytes_eq name.now (string_bytes other)) names.now }
    ensures value { (values : List ValueContent) → value_at (zip (map string_bytes names.now) values) name.now ≡ option_and_then (slice_get values) result }
{
    first_place(names, name)
}
