//! Why an edit of a pool is refused.

use cq_atom::Part;

/// Why an edit is refused. Of the tests of one edit the first that holds is answered, in the order
/// in which they stand here. Places count from 0.
#[derive(Clone, Copy, Debug, PartialEq, Eq)]
pub enum Why {
    /// As many queries are pending as the pool may hold.
    PoolFull,
    /// A query of that name is pending.
    NameTaken,
    /// A postcondition or a head is over a database relation.
    NotAnswer {
        /// Whether it is a postcondition or a head.
        part: Part,
        /// Its place among the postconditions or heads.
        place: usize,
    },
    /// A body atom or a row is over a relation that is not declared.
    UnknownRelation {
        /// The place of the atom in the body; 0 for a row.
        place: usize,
    },
    /// A body atom or a row has another arity than its relation.
    Arity {
        /// The place of the atom in the body; 0 for a row.
        place: usize,
    },
    /// No query of that name is pending.
    NoSuchName,
    /// The row that is to be inserted is there.
    RowPresent,
    /// The row that is to be deleted is not there.
    RowAbsent,
}
