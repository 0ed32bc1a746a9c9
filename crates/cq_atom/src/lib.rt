//! Values, names, atoms, rows, queries and edits: the words in which every other crate speaks.
//!
//! The crates above use one contract of this one most: `unify` is true exactly where one valuation
//! for each of two atoms makes the same row of both. The constructors (`Name::new`, `Value::text`,
//! `Term::variable`, `Atom::new`, `Row::new`, `Query::new`) are the only way to the types, and
//! accept exactly what `specs/` says, so whoever holds a value of a type holds a good one.
//!
//! Everything that allocates is generic in its allocator, and contracts see pure data: a name is the
//! list of its bytes, an atom is an `AtomRecord`, a query a `QueryRecord`.
//!
//! Not here: tables and groundings, the text form of a query, and who supplies whom in a pool.
#![tactic(auto)]

mod atom;
mod bytes;
mod edge;
mod edit;
mod fault;
mod limits;
mod meter;
mod name;
mod query;
mod row;
mod term;
mod unification;
mod valuation;
mod value;
mod variables;
mod word;

pub use atom::Atom;
pub use edge::Edge;
pub use edit::{Edit, EditKind};
pub use fault::{Bad, Part};
pub use limits::{MAX_ARITY, MAX_ATOMS, MAX_NAME, MAX_TEXT};
pub use meter::Meter;
pub use name::Name;
pub use query::{Query, binds};
pub use row::Row;
pub use term::{Term, TermKind};
pub use unification::unify;
pub use valuation::{Valuation, value_place};
pub use value::{Content, Value};
pub use variables::Variables;
pub use word::{is_relation_text, same_name};
