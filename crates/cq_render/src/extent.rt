//! Which reasons are told.

/// Of the reasons why queries wait, those that are told.
#[derive(Clone, Copy, Debug, PartialEq, Eq)]
pub enum Extent {
    /// All of them.
    All,
    /// Those that rest on no other query: no row was found for a body, or nobody supplies a postcondition, whether it is matched or waits.
    Causes,
}
