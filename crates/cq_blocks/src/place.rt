//! Places in a list in blocks.

/// A place in a list in blocks: before an element, or after the last one of a block. It is a place of the list as it stands:
/// an insertion or a removal can make it another one.
#[derive(Clone, Copy)]
pub struct Place {
    pub(crate) block: usize,
    pub(crate) index: usize,
}
