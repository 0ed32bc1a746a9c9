//! The limits of reads. Definitions have them as numerals, in `specs/Limits`.

/// The most reads of one call that reads a source to its end.
pub const MAX_READS: u32 = 1_048_576;

/// The most bytes that one read of such a call asks for.
pub const MAX_PIECE: usize = 4096;
