//! The limits of a script that names none. Definitions have them as numerals, in `specs/Limits`.

/// The most pending queries.
pub const POOL_LIMIT: usize = 1_000;

/// The most journal entries.
pub const JOURNAL_LIMIT: usize = 100_000;
