//! Edges: who supplies whom.

/// A head of the provider supplies a postcondition of the waiter. Provider and waiter may be one node.
#[derive(Clone, Copy, Debug, PartialEq, Eq)]
pub struct Edge {
    /// The node that offers.
    pub provider: usize,
    /// The place of the head among the provider's heads, from 0.
    pub head: u8,
    /// The node that waits.
    pub waiter: usize,
    /// The place of the postcondition among the waiter's postconditions, from 0.
    pub post: u8,
}
