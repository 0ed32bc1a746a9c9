//! What is told beside a reason.

/// What is told beside a reason that rests on no other query.
#[derive(Clone, Copy)]
pub(crate) enum Hints {
    /// The heads of a postcondition's relation and arity that miss it in the fewest constants.
    Misses,
    /// The heads of other queries that are most like a postcondition, and what a body lacks.
    Likes,
}
