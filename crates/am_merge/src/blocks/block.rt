//! Blocks of items.

ghost use Rattle.std.specs.Prelude.{◌≡◌, ◌<◌, ◌≤◌, [], length, take, drop, IfOk};
ghost use Rattle.std.specs.List.{insert, remove};

use std::alloc::{AllocError, Global};
use std::marker::Model;

/// The number of items for which a block has room. It is cut once it has that many.
pub const FULL: usize = 128;

/// The maximum number of items in a block that is made from several at once, which leaves room for one more.
pub const FILLED: usize = FULL - 1;

/// A part of a list's items, with room for 128 from the start.
///
/// Contracts see it as the list of its items.
#[derive(Drop)]
pub struct Block<T: Copy> {
    items: Vec<T>,
}

impl<T: Copy> Model for Block<T> {
    ghost use Rattle.std.specs.Prelude.{◌≤◌, List, vec_capacity};

    ghost Value = { List T };

    ghost view = { λ block. block.items.items };

    ghost invariant = { λ block. 128 ≤ vec_capacity block.items };
}

impl<T: Copy> Block<T> {
    /// Returns an empty block, or [`AllocError`] if memory runs out.
    pub fn new(alloc: Global) -> Result<Self, AllocError>
        ensures { IfOk result (λ block. block ≡ []) }
    {
        let items = Vec::with_capacity(alloc, FULL)?;
        Ok(Block { items })
    }

    /// Returns a block of these items, or [`AllocError`] if memory runs out.
    pub fn of(alloc: Global, items: &[T]) -> Result<Self, AllocError>
        requires { length items.now < 128 }
        ensures { IfOk result (λ block. block ≡ items.now) }
    {
        let mut block = Block::new(alloc)?;
        let _copied = block.items.extend_from_slice(items);
        Ok(block)
    }

    /// Returns the items.
    pub fn as_slice(&self) -> &[T]
        ensures { result.now ≡ self.now }
    {
        self.items.as_slice()
    }

    /// Returns the number of items.
    pub fn len(&self) -> usize
        ensures { result ≡ length self.now }
    {
        self.items.len()
    }

    /// Inserts an item before the one at an offset, or behind the last one, without allocating.
    pub fn insert(&mut self, offset: usize, item: T)
        requires room { length self.old < 128 }
        requires within { offset ≤ length self.old }
        ensures { self.new ≡ insert self.old offset item }
    {
        let _inserted = self.items.insert(offset, item);
    }

    /// Removes the item at an offset.
    pub fn remove(&mut self, offset: usize)
        requires { offset < length self.old }
        ensures { self.new ≡ remove self.old offset }
    {
        self.items.remove(offset);
    }

    /// Moves the items from an offset on into an empty block, without allocating.
    pub fn cut(&mut self, offset: usize, upper: &mut Block<T>)
        requires full { length self.old ≤ 128 }
        requires within { offset ≤ length self.old }
        requires empty { upper.old ≡ [] }
        ensures lower { self.new ≡ take offset self.old }
        ensures upper { upper.new ≡ drop offset self.old }
    {
        let _moved = upper.items.extend_from_slice(&self.items[offset..]);
        self.items.truncate(offset);
    }
}
