//! The keys of buckets.

ghost use Rattle.std.specs.Prelude.{◌≡◌, fold, is_some, IfOk};
ghost use Rattle.cq_index.specs.Index.{first_constant};
ghost use Rattle.cq_index.specs.Steps.Keys.{asked_first, asked_key, first_at, first_input, key_at, same_first, value_input};

use cq_atom::{Atom, Value};
use indexmap::Equivalent;
use std::alloc::{AllocError, Allocator};
use std::hash::{Hash, Hasher};
use std::marker::Model;

/// Which first arguments the atoms of a bucket have.
#[derive(Clone, Copy)]
pub enum First<V> {
    /// Any at all.
    Any,
    /// A variable, whatever its name.
    Variable,
    /// This constant.
    Constant(V),
}

/// A key that is looked up: whose places stand in a bucket, which are those of the atoms with this relation, arity and
/// first argument.
#[derive_where(Clone, Copy)]
pub struct Asked<'a, A: Allocator> {
    relation: &'a str,
    arity: usize,
    first: First<&'a Value<A>>,
}

/// How far a bucket goes by the first argument of an atom.
#[derive(Clone, Copy)]
pub enum Reach {
    /// By what it is.
    Own,
    /// As if it were a variable.
    Open,
    /// Not at all.
    Group,
}

/// A key that is kept. It holds an atom that belongs there, and takes no memory of its own.
#[derive(Drop)]
pub struct Key<A: Allocator> {
    atom: Atom<A>,
    reach: Reach,
}

impl<A: Allocator> Model for Key<A> {
    ghost use Rattle.cq_index.specs.Steps.Keys.{KeyContent, key_at};

    ghost Value = { KeyContent };

    ghost view = { λ k. key_at k.reach k.atom };
}

/// The first argument of the atom, as far as the bucket goes by it.
fn first_of<A: Allocator>(atom: &Atom<A>, reach: Reach) -> First<&Value<A>>
    ensures { asked_first result ≡ first_at reach atom.now }
{
    match reach {
        Reach::Own => match atom.terms()[0].as_constant() {
            Some(value) => First::Constant(value),
            None => First::Variable,
        },
        Reach::Open => First::Variable,
        Reach::Group => First::Any,
    }
}

/// The key of a bucket for atoms like this one.
pub fn asked_of<A: Allocator>(atom: &Atom<A>, reach: Reach) -> Asked<'_, A>
    ensures { asked_key result ≡ key_at reach atom.now }
{
    Asked {
        relation: atom.relation(),
        arity: atom.terms().len(),
        first: first_of(atom, reach),
    }
}

impl<A: Allocator> Key<A> {
    /// The same key, to be kept.
    ///
    /// # Errors
    /// `AllocError` where the copy of the atom was refused.
    pub fn of(atom: &Atom<A>, reach: Reach) -> Result<Key<A>, AllocError>
    where
        A: Clone,
        ensures { IfOk result (λ key. key ≡ key_at reach atom.now) }
    {
        let atom = atom.copy()?;
        Ok(Key { atom, reach })
    }

    /// The key as it is looked up.
    fn asked(&self) -> Asked<'_, A>
        ensures { asked_key result ≡ self.now }
    {
        asked_of(&self.atom, self.reach)
    }
}

fn is_same_first<A: Allocator>(one: First<&Value<A>>, other: First<&Value<A>>) -> bool
    ensures { result ≡ same_first (asked_first one.entry) (asked_first other.entry) }
{
    match (one, other) {
        (First::Any, First::Any) | (First::Variable, First::Variable) => true,
        (First::Constant(v), First::Constant(w)) => v == w,
        _ => false,
    }
}

fn hash_value<A: Allocator, H: Hasher>(value: &Value<A>, state: &mut H)
    ensures { state.new ≡ fold H.write state.old (value_input value.now) }
{
    match (value.as_num(), value.as_text()) {
        (Some(number), _) => number.hash(state),
        (None, Some(text)) => text.hash(state),
        (None, None) => unreachable!(),
    }
}

fn hash_first<A: Allocator, H: Hasher>(first: First<&Value<A>>, state: &mut H)
    ensures { state.new ≡ fold H.write state.old (first_input (asked_first first.entry)) }
{
    match first {
        First::Any => false.hash(state),
        First::Variable => true.hash(state),
        First::Constant(value) => hash_value(value, state),
    }
}

impl<'a, A: Allocator> PartialEq for Asked<'a, A> {
    ghost use Rattle.std.specs.Cmp.{partial_equiv_from_equiv};
    ghost use Rattle.cq_index.specs.Steps.Keys.{same_asked};
    ghost use Rattle.cq_index.specs.Steps.Same.{same_asked_equiv};

    ghost eq = { same_asked };

    ghost laws = { partial_equiv_from_equiv same_asked_equiv };

    fn eq(&self, other: &Asked<'a, A>) -> bool {
        self.relation == other.relation
            && self.arity == other.arity
            && is_same_first(self.first, other.first)
    }
}

impl<'a, A: Allocator> Eq for Asked<'a, A> {
    ghost use Rattle.cq_index.specs.Steps.Same.{same_asked_equiv};

    ghost laws = { same_asked_equiv };
}

impl<'a, A: Allocator> Hash for Asked<'a, A> {
    ghost use Rattle.std.proofs.Common.{ap};
    ghost use Rattle.cq_index.specs.Steps.Keys.{asked_key, key_input};
    ghost use Rattle.cq_index.specs.Steps.Same.{same_key-is};

    ghost hash_input = { λ q. key_input (asked_key q) };

    ghost respects_eq = { λ q r t. ap key_input (same_key-is (asked_key q) (asked_key r) t) };

    fn hash<H: Hasher>(&self, state: &mut H) {
        self.relation.hash(state);
        self.arity.hash(state);
        hash_first(self.first, state);
    }
}

impl<A: Allocator> PartialEq for Key<A> {
    ghost use Rattle.std.specs.Cmp.{partial_equiv_from_equiv};
    ghost use Rattle.cq_index.specs.Steps.Keys.{same_key};
    ghost use Rattle.cq_index.specs.Steps.Same.{same_key_equiv};

    ghost eq = { same_key };

    ghost laws = { partial_equiv_from_equiv same_key_equiv };

    fn eq(&self, other: &Key<A>) -> bool {
        self.asked() == other.asked()
    }
}

impl<A: Allocator> Eq for Key<A> {
    ghost use Rattle.cq_index.specs.Steps.Same.{same_key_equiv};

    ghost laws = { same_key_equiv };
}

impl<A: Allocator> Hash for Key<A> {
    ghost use Rattle.std.proofs.Common.{ap};
    ghost use Rattle.cq_index.specs.Steps.Keys.{key_input};
    ghost use Rattle.cq_index.specs.Steps.Same.{same_key-is};

    ghost hash_input = { key_input };

    ghost respects_eq = { λ k l t. ap key_input (same_key-is k l t) };

    fn hash<H: Hasher>(&self, state: &mut H) {
        self.asked().hash(state);
    }
}

impl<'a, A: Allocator> Equivalent<Key<A>> for Asked<'a, A> {
    ghost use Rattle.std.proofs.Common.{ap};
    ghost use Rattle.cq_index.specs.Steps.Keys.{asked_key, key_input, same_key};
    ghost use Rattle.cq_index.specs.Steps.Same.{same_key-is, same_key_equiv};

    ghost equivalent = { λ q k. same_key (asked_key q) k };

    ghost respects_hash = { λ q k t. ap key_input (same_key-is (asked_key q) k t) };

    ghost respects_eq = { λ q k l. same_key_equiv.congr (asked_key q) k l };

    fn equivalent(&self, key: &Key<A>) -> bool {
        *self == key.asked()
    }
}

/// Whether the atom begins with a constant.
pub fn begins_with_constant<A: Allocator>(atom: &Atom<A>) -> bool
    ensures { result ≡ is_some (first_constant atom.now) }
{
    atom.terms()[0].as_constant().is_some()
}
