//! The limits of texts. Definitions have them as numerals, in `specs/Limits`.

/// The most bytes of a line or of a query's text in any form.
pub const MAX_BYTES: usize = 524_288;

/// The greatest number of a form that `board` may name.
pub const MAX_FORM: usize = 2;

/// The most that `limits` may name, of pending queries and of journal entries.
pub const MAX_COUNT: usize = 1_000_000;
