//! An iterator over the items of a list.

ghost use Rattle.std.specs.Prelude.{◌≡◌, []};
ghost use Rattle.std.specs.Iterator.{YieldsFirst, item_count};

use crate::blocks::block::Block;
use std::marker::Model;

/// An iterator over the items of a list, in order and by value.
///
/// Contracts see it as the list of the items to come.
#[derive(Drop)]
pub struct Walk<'a, T: Copy> {
    // The rest of the current block.
    pub(crate) items: &'a [T],
    pub(crate) blocks: &'a [Block<T>],
}

impl<'a, T: Copy> Model for Walk<'a, T> {
    ghost use Rattle.std.specs.Prelude.{List, ◌++◌};
    ghost use Rattle.am_merge.specs.Rows.{AreSound, joined};

    ghost Value = { List T };

    ghost view = { λ walk. walk.items.now ++ joined walk.blocks.now };

    ghost invariant = { λ walk. AreSound walk.blocks.now };
}

impl<'a, T: Copy> Walk<'a, T> {
    /// Returns an iterator over nothing.
    pub fn none() -> Self
        ensures { result ≡ [] }
    {
        Walk {
            items: &[],
            blocks: &[],
        }
    }
}

impl<'a, T: Copy> Iterator for Walk<'a, T> {
    type Item = T;

    ghost next_gives = { YieldsFirst (λ rest. rest) };

    ghost remaining = { item_count (λ rest. rest) };

    fn next(&mut self) -> Option<T> {
        if let Some((item, items)) = self.items.split_first() {
            self.items = items;
            return Some(*item);
        }
        let (block, blocks) = self.blocks.split_first()?;
        let (item, items) = block.as_slice().split_first()?;
        self.items = items;
        self.blocks = blocks;
        Some(*item)
    }
}
