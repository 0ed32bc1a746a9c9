//! The variables of a body.

ghost use Rattle.std.specs.Prelude.{◌≡◌, List, map, fold, string_bytes, IfOk, OnOk};
ghost use Rattle.std.specs.List.{list_any, list_all};
ghost use Rattle.std.specs.Str.{bytes_eq};
ghost use Rattle.cq_atom.specs.Atom.{AtomRecord};
ghost use Rattle.cq_atom.specs.Query.{occurrences, variables_of, binds_all};
ghost use Rattle.cq_atom.specs.Steps.Variables.{with_variable, is_among};

use crate::atom::Atom;
use crate::term::Term;
use crate::word::same_name;
use std::alloc::{AllocError, Allocator, Global};
use std::marker::Model;

/// The names of the variables of a body, each once, in order of first occurrence. Contracts see the list of the names.
#[derive(Drop)]
pub struct Variables<A: Allocator = Global> {
    names: Vec<String<A>, A>,
}

impl<A: Allocator> Model for Variables<A> {
    ghost use Rattle.std.specs.Prelude.{List, ℕ, map, string_bytes};

    ghost Value = { List (List ℕ) };

    ghost view = { λ v. map string_bytes v.names.items };
}

fn is_listed<A: Allocator>(variables: &[String<A>], name: &str) -> bool
    ensures { result ≡ list_any (λ v. bytes_eq name.now (string_bytes v)) variables.now }
{
    variables
        .iter()
        .any(|variable| same_name(name, variable.as_str()))
}

/// Puts the name at the end, where it is not there yet.
fn add_variable<A: Allocator + Clone>(
    variables: &mut Vec<String<A>, A>,
    name: &str,
) -> Result<(), AllocError>
    ensures { OnOk result (map string_bytes variables.new.items ≡ with_variable (map string_bytes variables.old.items) name.now) }
{
    if !is_listed(variables, name) {
        let alloc = variables.allocator().clone()?;
        variables.push(String::from_str(alloc, name)?)?;
    }
    Ok(())
}

fn add_variables<A: Allocator + Clone>(
    variables: &mut Vec<String<A>, A>,
    atom: &Atom<A>,
) -> Result<(), AllocError>
    ensures { OnOk result (map string_bytes variables.new.items ≡ fold with_variable (map string_bytes variables.old.items) (occurrences atom.now)) }
{
    for term in atom.terms() {
        if let Some(name) = term.as_variable() {
            add_variable(variables, name)?;
        }
    }
    Ok(())
}

fn variables_in<A: Allocator + Clone>(
    alloc: A,
    body: &[Atom<A>],
) -> Result<Vec<String<A>, A>, AllocError>
    ensures { IfOk result (λ v. map string_bytes v.items ≡ variables_of body.now) }
{
    let mut variables = Vec::new(alloc);
    for atom in body {
        add_variables(&mut variables, atom)?;
    }
    Ok(variables)
}

fn is_among<A: Allocator>(names: &[String<A>], term: &Term<A>) -> bool
    ensures { result ≡ is_among (map string_bytes names.now) term.now }
{
    match term.as_variable() {
        None => true,
        Some(name) => is_listed(names, name),
    }
}

fn are_among<A: Allocator>(names: &[String<A>], atom: &Atom<A>) -> bool
    ensures { result ≡ list_all (is_among (map string_bytes names.now)) atom.now.terms }
{
    atom.terms().iter().all(|term| is_among(names, term))
}

fn all_among<A: Allocator>(names: &[String<A>], atoms: &[Atom<A>]) -> bool
    ensures { result ≡ list_all (λ a. list_all (is_among (map string_bytes names.now)) a.terms) atoms.now }
{
    atoms.iter().all(|atom| are_among(names, atom))
}

impl<A: Allocator + Clone> Variables<A> {
    /// The variables of a body. Each occurrence is compared with the names before it.
    ///
    /// # Errors
    /// `AllocError` where an allocation failed.
    pub fn of(alloc: A, body: &[Atom<A>]) -> Result<Variables<A>, AllocError>
        ensures { IfOk result (λ variables. variables ≡ variables_of body.now) }
    {
        let names = variables_in(alloc, body)?;
        Ok(Variables { names })
    }
}

impl<A: Allocator> Variables<A> {
    /// The names, in order.
    pub(crate) fn names(&self) -> &[String<A>]
        ensures { map string_bytes result.now ≡ self.now }
    {
        self.names.as_slice()
    }

    /// Whether a body with these variables has each variable of the atoms. Each occurrence is compared with the names.
    pub fn bind_all(&self, atoms: &[Atom<A>]) -> bool
        ensures { (body : List AtomRecord) → self.now ≡ variables_of body → result ≡ binds_all body atoms.now }
    {
        all_among(self.names(), atoms)
    }
}
