//! Limits of a board.

/// How much a board and its journal hold at most. A board looks at `pool` alone.
#[derive(Clone, Copy, Debug, PartialEq, Eq)]
pub struct Limits {
    /// The most pending queries.
    pub pool: usize,
    /// The most journal entries.
    pub journal: usize,
}
