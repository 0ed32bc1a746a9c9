//! What a board shows of its edges.

/// An edge by the names of its ends, over what holds a name. Contracts see it over the names' bytes.
#[derive(Clone, Copy, Drop)]
pub struct Link<N> {
    /// The name of the query that offers.
    pub provider: N,
    /// The place of the head among the provider's heads, from 0.
    pub head: u8,
    /// The name of the query that waits.
    pub waiter: N,
    /// The place of the postcondition among the waiter's postconditions, from 0.
    pub post: u8,
}

/// A crowded postcondition, over what holds a name.
#[derive(Clone, Copy, Drop)]
pub struct Crowd<N> {
    /// The name of the query that waits.
    pub waiter: N,
    /// The place of the postcondition among the waiter's postconditions, from 0.
    pub post: u8,
    /// How many edges lead to the postcondition: two or more.
    pub providers: usize,
}
