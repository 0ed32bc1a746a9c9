//! What a script has come to.

/// What serves the next line, over what holds a setup and what serves after it.
#[derive(Drop)]
pub enum Stage<S, F> {
    /// Relations and limits are still taken.
    Setup(S),
    /// The floor serves.
    Serving(F),
}
