//! The limits of names, texts, atoms and queries. Definitions have them as numerals, in `specs/Limits`.

/// The most bytes of a name.
pub const MAX_NAME: usize = 32;

/// The most bytes of a text.
pub const MAX_TEXT: usize = 255;

/// The most terms of an atom, and values of a row.
pub const MAX_ARITY: usize = 16;

/// The most atoms of each part of a query.
pub const MAX_ATOMS: usize = 16;
