//! Terms: constants and variables.

ghost use Rattle.std.specs.Prelude.{◌≡◌, IfOk, IfSome, IsTrue, if◌then◌else◌, Option, Some, None};
ghost use Rattle.std.specs.Option.{option_copied};
ghost use Rattle.cq_atom.specs.Answer.{Answers};
ghost use Rattle.cq_atom.specs.Text.{is_variable_name};
ghost use Rattle.cq_atom.specs.Value.{IsValue};
ghost use Rattle.cq_atom.specs.Atom.{constant_of, variable_of};
ghost use Rattle.cq_atom.specs.Valuation.{term_under};

use crate::fault::Bad;
use crate::name::Name;
use crate::valuation::Valuation;
use crate::value::Value;
use crate::word::is_variable_text;
use std::alloc::{AllocError, Allocator, Global};
use std::marker::Model;

/// What a term is, over values and names. Contracts see a term as a `TermKind` over what a value
/// is and the bytes of a name.
#[derive(Drop)]
pub enum TermKind<V, N> {
    /// A constant.
    Constant(V),
    /// A variable, by its name.
    Variable(N),
}

/// A term: a constant, or a variable whose name begins with a lower-case letter.
#[derive(Drop)]
pub struct Term<A: Allocator = Global> {
    kind: TermKind<Value<A>, Name<A>>,
}

impl<A: Allocator> Model for Term<A> {
    ghost use Rattle.std.specs.Prelude.{List, ℕ, IsTrue};
    ghost use Rattle.cq_atom.specs.Atom.{TermContent, is_term};

    ghost Value = { TermContent };

    ghost view = { λ t. t.kind };

    ghost invariant = { λ t. IsTrue (is_term t.kind) };
}

impl<A: Allocator> Term<A> {
    /// The value as a term.
    pub fn constant(value: Value<A>) -> Term<A>
        ensures { result ≡ TermKind.Constant value }
    {
        Term {
            kind: TermKind::Constant(value),
        }
    }

    /// The variable of that name.
    ///
    /// # Errors
    /// `BadName` unless the bytes are a name that begins with a lower-case letter; else `NoMemory`
    /// where the allocation failed.
    pub fn variable(alloc: A, name: &str) -> Result<Term<A>, Bad>
        ensures { Answers Bad.NoMemory (if is_variable_name name.now then None else Some Bad.BadName) (TermKind.Variable name.now) result }
    {
        if !is_variable_text(name) {
            return Err(Bad::BadName);
        }
        Ok(Term::known_variable(alloc, name)?)
    }

    /// The variable of that name, which is known to be a variable's.
    ///
    /// # Errors
    /// `AllocError` where the allocation failed.
    pub fn known_variable(alloc: A, name: &str) -> Result<Term<A>, AllocError>
        requires { IsTrue (is_variable_name name.now) }
        ensures { IfOk result (λ term. term ≡ TermKind.Variable name.now) }
    {
        Ok(Term {
            kind: TermKind::Variable(Name::known(alloc, name)?),
        })
    }

    /// The constant, where the term is one.
    pub fn as_constant(&self) -> Option<&Value<A>>
        ensures value { option_copied result ≡ constant_of self.now }
        ensures valid { IfSome result (λ v. IsValue v.now) }
    {
        match &self.kind {
            TermKind::Constant(value) => {
                let _known = value.as_num();
                Some(value)
            }
            TermKind::Variable(_) => None,
        }
    }

    /// The variable's name, where the term is one.
    pub fn as_variable(&self) -> Option<&str>
        ensures value { option_copied result ≡ variable_of self.now }
        ensures valid { IfSome result (λ name. IsTrue (is_variable_name name.now)) }
    {
        match &self.kind {
            TermKind::Constant(_) => None,
            TermKind::Variable(name) => Some(name.as_str()),
        }
    }
}

impl<A: Allocator + Clone> Clone for Term<A> {
    ghost use Rattle.std.specs.Prelude.{◌≡◌};

    ghost is_clone = { λ a b. b ≡ a };

    fn clone(&self) -> Result<Term<A>, AllocError> {
        let kind = match &self.kind {
            TermKind::Constant(value) => TermKind::Constant(value.clone()?),
            TermKind::Variable(name) => TermKind::Variable(name.clone()?),
        };
        Ok(Term { kind })
    }
}

impl<A: Allocator + Clone> Term<A> {
    /// The term's value, where the valuation gives it one; else a copy of the term.
    pub(crate) fn under(&self, valuation: &Valuation<A>) -> Result<Term<A>, AllocError>
        ensures { IfOk result (λ t. t ≡ term_under valuation.now self.now) }
    {
        match self.as_variable() {
            None => self.clone(),
            Some(name) => match valuation.get(name) {
                Some(bound) => Ok(Term::constant(bound.clone()?)),
                None => self.clone(),
            },
        }
    }
}
