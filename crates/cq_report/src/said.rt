//! What lines say.

use cq_text::Kind;

/// What a line says, over what holds a question and what holds a command.
#[derive(Drop)]
pub(crate) enum Said<Q, C> {
    /// It asks.
    Asks(Q),
    /// It is a command.
    Says(C),
    /// It has a fault of text, at the byte of that offset.
    Faulty {
        /// Which one.
        kind: Kind,
        /// The offset.
        at: usize,
    },
    /// It was not read, since an allocation failed.
    Lost,
}
