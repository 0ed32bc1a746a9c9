//! The limit of a catalog. Definitions have it as a numeral, in `specs/Limits`.

/// The most relations that a catalog declares.
pub const MAX_RELATIONS: usize = 64;
