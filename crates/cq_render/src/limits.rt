//! Limits. Definitions have them as numerals, in `specs/Limits`.

/// All readers of JSON keep whole numbers from minus this to this, which is 2 to the power of 53, as they are. Many read
/// others as the nearest number that they can hold.
pub const MOST_KEPT: u64 = 9_007_199_254_740_992;
