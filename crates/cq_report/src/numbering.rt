//! How replies are numbered.

/// How the replies to lines have the numbers of their lines. Lines count from 1.
#[derive(Clone, Copy, Debug, PartialEq, Eq)]
pub enum Numbering {
    /// Not at all.
    Plain,
    /// The number and `: ` are in front of a reply that is not empty.
    Numbered,
    /// Number and reply are members of a JSON object, in a line of its own.
    Json,
}
