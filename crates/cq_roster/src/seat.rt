//! Seats.

/// A name with its place, over what holds a name. Contracts see it over the name's bytes.
#[derive(Clone, Drop)]
pub struct Seat<N> {
    /// The name, which no other seat of the roster has.
    pub name: N,
    /// The place, which no other seat of the roster has.
    pub place: usize,
}
