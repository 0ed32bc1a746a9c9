//! Marks of a history.

use cq_desk::Entry;

/// What is added to a history at one step.
#[derive(Drop)]
pub enum Mark<E> {
    /// An edit that was entered, with its author.
    Entered(Entry<E>),
    /// The end of a publication, whose entries stand between it and the end before.
    Cut,
}
