//! Journals.

/// An accepted edit, and the session that entered it.
#[derive(Drop)]
pub struct Entry<E> {
    /// The number of the session.
    pub author: usize,
    /// What was accepted.
    pub edit: E,
}
