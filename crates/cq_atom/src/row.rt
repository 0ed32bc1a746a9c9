//! Rows.

ghost use Rattle.std.specs.Prelude.{◌≡◌, ◌≤◌, length, IfOk, IsTrue};
ghost use Rattle.cq_atom.specs.Answer.{Answers};
ghost use Rattle.cq_atom.specs.Limits.{max_arity};
ghost use Rattle.cq_atom.specs.Text.{is_relation_name};
ghost use Rattle.cq_atom.specs.Atom.{RowRecord, arity_fault};

use crate::atom::arity_fault;
use crate::fault::Bad;
use crate::name::Name;
use crate::value::Value;
use std::alloc::{AllocError, Allocator, Global};
use std::marker::Model;
use std::sync::Arc;

/// A row: a relation's name over 1 to 16 values, so an atom without variables.
#[derive(Drop)]
pub struct Row<A: Allocator = Global> {
    parts: Arc<RowParts<A>, A>,
}

/// What a row is made of, which nothing changes once it is made.
#[derive(Drop)]
struct RowParts<A: Allocator> {
    relation: Name<A>,
    values: Vec<Value<A>, A>,
}

impl<A: Allocator> Model for Row<A> {
    ghost use Rattle.std.specs.Prelude.{◌≡◌, length, None};
    ghost use Rattle.std.specs.Arc.{arc_value};
    ghost use Rattle.cq_atom.specs.Atom.{RowRecord, arity_fault};

    ghost Value = { RowRecord };

    ghost view = { λ r. record { relation = (arc_value r.parts).relation; values = (arc_value r.parts).values.items } };

    ghost invariant = { λ r. arity_fault (arc_value r.parts).relation (length (arc_value r.parts).values.items) ≡ None };
}

impl<A: Allocator + Clone> Row<A> {
    /// The row of a relation's name over values.
    ///
    /// # Errors
    /// `BadName` unless the bytes are a name that begins with an upper-case letter; then `BadArity`
    /// unless there are 1 to 16 values; else `NoMemory` where the allocation failed.
    pub fn new(alloc: A, relation: &str, values: Vec<Value<A>, A>) -> Result<Row<A>, Bad>
        ensures { let row : RowRecord = record { relation = relation.now; values = values.items } in
            Answers Bad.NoMemory (arity_fault relation.now (length values.items)) row result }
    {
        if let Some(bad) = arity_fault(relation, values.len()) {
            return Err(bad);
        }
        let relation = Name::known(alloc.clone()?, relation)?;
        let parts = Arc::new(alloc, RowParts { relation, values })?;
        Ok(Row { parts })
    }
}

impl<A: Allocator> Row<A> {
    /// The relation's name.
    pub fn relation(&self) -> &str
        ensures value { result.now ≡ self.now.relation }
        ensures valid { IsTrue (is_relation_name result.now) }
    {
        self.parts.relation.as_str()
    }

    /// The values, in order.
    pub fn values(&self) -> &[Value<A>]
        ensures value { result.now ≡ self.now.values }
        ensures some { 1 ≤ length self.now.values }
        ensures few { length self.now.values ≤ max_arity }
    {
        self.parts.values.as_slice()
    }
}

impl<A: Allocator + Clone> Clone for Row<A> {
    ghost use Rattle.std.specs.Prelude.{◌≡◌};

    ghost is_clone = { λ a b. b ≡ a };

    fn clone(&self) -> Result<Row<A>, AllocError> {
        Ok(Row {
            parts: Arc::try_clone(&self.parts)?,
        })
    }
}

impl<A: Allocator + Clone> Row<A> {
    /// An equal row, which shares what the row holds: it takes no memory.
    ///
    /// # Errors
    /// `AllocError` where 2^63 - 1 equal ones share it already.
    pub fn copy(&self) -> Result<Row<A>, AllocError>
        ensures { IfOk result (λ row. row ≡ self.now) }
    {
        self.clone()
    }
}
