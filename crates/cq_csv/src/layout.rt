//! How CSV is laid out.

/// How CSV is laid out.
#[derive(Clone, Copy, Debug, PartialEq, Eq)]
pub struct Layout {
    /// The byte that stands between two fields of a record.
    pub delimiter: u8,
    /// Whether the first record is a header, which is no row.
    pub has_header: bool,
}
