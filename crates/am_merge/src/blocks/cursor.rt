//! Places in a list of blocks.

/// A place in a list: before the item with this offset in the block with this number.
///
/// It is valid until the list changes.
#[derive(Clone, Copy, PartialEq, Eq)]
pub struct Cursor {
    /// The number of the block.
    pub block: usize,
    /// The number of the block's items before the place.
    pub offset: usize,
}
