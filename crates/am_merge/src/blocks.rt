//! Ordered lists of small items, kept in blocks so that an insertion moves few of them.

ghost use Rattle.std.specs.Prelude.{◌≡◌, ℕ, ◌+◌, [], length, drop, slice_get, Some, IsOk, IfOk, IfErr, IfSome, OnOk};
ghost use Rattle.std.specs.List.{HoldsAt, insert, remove};
ghost use Rattle.std.specs.declared.cmp.Ordering.TheVariants.{Less, Greater};

mod block;
mod cursor;
mod parts;
mod probe;
mod searches;
mod walk;

use block::{Block, FILLED};
pub use cursor::Cursor;
use parts::{fill, put, take_out};
pub use probe::Probe;
use searches::{leading, leading_items, search_block};
use std::alloc::{AllocError, Global};
use std::cmp::Ordering;
use std::marker::Model;
pub use walk::Walk;

/// An ordered list of small items, in blocks of fewer than 128.
///
/// An insertion or a removal moves fewer than 128 items. It moves blocks only if one is cut or removed.
///
/// Contracts see it as `Rows`: the items, block by block, and the room there is.
#[derive(Drop)]
pub struct Blocks<T: Copy> {
    blocks: Vec<Block<T>>,
    // Empty blocks in reserve.
    spares: Vec<Block<T>>,
    alloc: Global,
}

impl<T: Copy> Model for Blocks<T> {
    ghost use Rattle.std.specs.Prelude.{vec_len, vec_capacity};
    ghost use Rattle.am_merge.specs.Rows.{Rows, rows_code, AreSound, AreEmpty};

    ghost Value = { Rows T };

    ghost coded = { rows_code T.code };

    ghost view = { λ list. record {
      blocks = list.blocks.items;
      spare = vec_len list.spares;
      capacity = vec_capacity list.blocks;
    } };

    ghost invariant = { λ list. AreSound list.blocks.items × AreEmpty list.spares.items };
}

impl<T: Copy> Blocks<T> {
    ghost use Rattle.am_merge.specs.Rows.{HasRoom, entries};
    ghost use Rattle.am_merge.specs.Cursors.{IsWithin, IsItem, place};
    ghost use Rattle.am_merge.specs.Searches.{IsRising, IsFound, IsMissing};

    /// Returns an empty list, without allocating.
    pub fn new(alloc: Global) -> Self
        ensures { result.blocks ≡ [] }
    {
        Blocks {
            blocks: Vec::new(alloc),
            spares: Vec::new(alloc),
            alloc,
        }
    }

    /// Returns a list of these items.
    ///
    /// # Errors
    ///
    /// [`AllocError`] if memory runs out.
    pub fn from_slice(alloc: Global, items: &[T]) -> Result<Self, AllocError>
        ensures { IfOk result (λ list. entries list ≡ items.now) }
    {
        let mut blocks = Vec::new(alloc);
        for chunk in items.chunks(FILLED) {
            blocks.push(Block::of(alloc, chunk)?)?;
        }
        Ok(Blocks {
            blocks,
            spares: Vec::new(alloc),
            alloc,
        })
    }

    /// Makes room for `additional` insertions, which can't fail then.
    ///
    /// This keeps as many empty blocks in reserve, since each insertion may need one: reserve for few at a time.
    ///
    /// # Errors
    ///
    /// [`AllocError`] if memory runs out. The items are unchanged then.
    pub fn reserve(&mut self, additional: usize) -> Result<(), AllocError>
        ensures room { OnOk result (HasRoom self.new additional) }
        ensures items { self.new.blocks ≡ self.old.blocks }
        ensures kept { (n : ℕ) → HasRoom self.old n → HasRoom self.new n }
        // If there is room already, nothing is allocated.
        ensures succeeds { HasRoom self.old additional → IsOk result }
        ensures had_room { HasRoom self.old additional → self.new ≡ self.old }
    {
        if self.blocks.capacity() - self.blocks.len() < additional {
            self.blocks.reserve(additional)?;
        }
        fill(&mut self.spares, additional, self.alloc)
    }

    /// Searches for an item by bisection, and returns its place, or the place at which it would be inserted.
    pub fn search<P: Probe<T>>(&self, probe: &P) -> Result<Cursor, Cursor>
        requires { IsRising (P.order probe.now) (entries self.now) }
        ensures found { IfOk result (IsFound (P.order probe.now) self.now) }
        ensures missing { IfErr result (IsMissing (P.order probe.now) self.now) }
    {
        let leading = leading(&self.blocks, probe);
        if leading == 0 {
            return Err(Cursor {
                block: 0,
                offset: 0,
            });
        }
        let block = leading - 1;
        match search_block(self.blocks[block].as_slice(), probe) {
            Ok(offset) => Ok(Cursor { block, offset }),
            Err(offset) => Err(Cursor { block, offset }),
        }
    }

    /// Searches for an item as `search` does. If its place is at the guess or next to it, two comparisons are enough; otherwise
    /// this bisects.
    pub fn search_near<P: Probe<T>>(&self, guess: Cursor, probe: &P) -> Result<Cursor, Cursor>
        requires { IsRising (P.order probe.now) (entries self.now) }
        ensures found { IfOk result (IsFound (P.order probe.now) self.now) }
        ensures missing { IfErr result (IsMissing (P.order probe.now) self.now) }
    {
        match self.near(guess, probe) {
            Some(place) => place,
            None => self.search(probe),
        }
    }

    /// Searches for an item as `search` does, with the help of a cheaper probe, which need not be right: if it follows the same
    /// order, two comparisons by the other probe are enough.
    pub fn search_by<H: Probe<T>, P: Probe<T>>(&self, hint: &H, probe: &P) -> Result<Cursor, Cursor>
        requires { IsRising (P.order probe.now) (entries self.now) }
        ensures found { IfOk result (IsFound (P.order probe.now) self.now) }
        ensures missing { IfErr result (IsMissing (P.order probe.now) self.now) }
    {
        let block = leading(&self.blocks, hint).saturating_sub(1);
        let offset = match self.blocks.get(block) {
            Some(block) => leading_items(block.as_slice(), hint).saturating_sub(1),
            None => 0,
        };
        self.search_near(Cursor { block, offset }, probe)
    }

    /// Returns the place of an item, or the place at which it would be inserted, if that is at the guess or next to it.
    fn near<P: Probe<T>>(&self, guess: Cursor, probe: &P) -> Option<Result<Cursor, Cursor>>
        requires { IsRising (P.order probe.now) (entries self.now) }
        ensures found { IfSome result (λ place. IfOk place (IsFound (P.order probe.now) self.now)) }
        ensures missing { IfSome result (λ place. IfErr place (IsMissing (P.order probe.now) self.now)) }
    {
        let last = self.blocks.len().checked_sub(1)?;
        let block = guess.block.min(last);
        let offset = guess.offset.min(self.blocks[block].len() - 1);
        let cursor = Cursor { block, offset };
        match probe.compare(&self.get(cursor)) {
            Ordering::Equal => Some(Ok(cursor)),
            Ordering::Less => Some(Err(self.gap_behind(cursor, probe)?)),
            Ordering::Greater => Some(Err(self.gap_before(cursor, probe)?)),
        }
    }

    /// Returns the place behind the item at the cursor, which precedes what is searched for, if that would be inserted there.
    fn gap_behind<P: Probe<T>>(&self, cursor: Cursor, probe: &P) -> Option<Cursor>
        requires rising { IsRising (P.order probe.now) (entries self.now) }
        requires item { IsItem self.now cursor }
        requires less { HoldsAt (λ x. P.order probe.now x ≡ Less) (entries self.now) (place self.now cursor) }
        ensures { IfSome result (IsMissing (P.order probe.now) self.now) }
    {
        // A block has fewer than 128 items.
        let _items = &self.blocks;
        let next = Cursor {
            block: cursor.block,
            offset: cursor.offset + 1,
        };
        let is_gap = match self.walk_from(next).next() {
            Some(item) => probe.compare(&item).is_gt(),
            None => true,
        };
        if is_gap { Some(next) } else { None }
    }

    /// Returns the place of the item at the cursor, which follows what is searched for, if that would be inserted there. The
    /// block before isn't examined.
    fn gap_before<P: Probe<T>>(&self, cursor: Cursor, probe: &P) -> Option<Cursor>
        requires rising { IsRising (P.order probe.now) (entries self.now) }
        requires item { IsItem self.now cursor }
        requires greater { HoldsAt (λ x. P.order probe.now x ≡ Greater) (entries self.now) (place self.now cursor) }
        ensures { IfSome result (IsMissing (P.order probe.now) self.now) }
    {
        let is_gap = match cursor.offset.checked_sub(1) {
            Some(offset) => {
                let before = self.get(Cursor {
                    block: cursor.block,
                    offset,
                });
                probe.compare(&before).is_lt()
            }
            None => cursor.block == 0,
        };
        if is_gap { Some(cursor) } else { None }
    }

    /// Returns the item at a cursor.
    pub fn get(&self, cursor: Cursor) -> T
        requires { IsItem self.now cursor }
        ensures { slice_get (entries self.now) (place self.now cursor) ≡ Some result }
    {
        self.blocks[cursor.block].as_slice()[cursor.offset]
    }

    /// Returns the first item, or `None` if there is none.
    pub fn first(&self) -> Option<T>
        ensures { result ≡ slice_get (entries self.now) 0 }
    {
        let block = self.blocks.first()?;
        block.as_slice().first().copied()
    }

    /// Returns the place behind the last item.
    pub fn end(&self) -> Cursor
        ensures within { IsWithin self.now result }
        ensures end { place self.now result ≡ length (entries self.now) }
    {
        match self.blocks.last() {
            Some(block) => Cursor {
                block: self.blocks.len() - 1,
                offset: block.len(),
            },
            None => Cursor {
                block: 0,
                offset: 0,
            },
        }
    }

    /// Returns an iterator over all items in order.
    pub fn walk(&self) -> Walk<'_, T>
        ensures { result ≡ entries self.now }
    {
        Walk {
            items: &[],
            blocks: &self.blocks,
        }
    }

    /// Returns an iterator over the items from a place on, in order.
    pub fn walk_from(&self, cursor: Cursor) -> Walk<'_, T>
        requires { IsWithin self.now cursor }
        ensures { result ≡ drop (place self.now cursor) (entries self.now) }
    {
        if cursor.block == self.blocks.len() {
            return Walk::none();
        }
        Walk {
            items: &self.blocks[cursor.block].as_slice()[cursor.offset..],
            blocks: &self.blocks[cursor.block + 1..],
        }
    }

    /// Inserts an item at a place, without allocating.
    pub fn insert(&mut self, cursor: Cursor, item: T)
        requires room { HasRoom self.old 1 }
        requires within { IsWithin self.old cursor }
        ensures items { entries self.new ≡ insert (entries self.old) (place self.old cursor) item }
        ensures room { (n : ℕ) → HasRoom self.old (n + 1) → HasRoom self.new n }
    {
        put(&mut self.blocks, &mut self.spares, cursor, item);
    }

    /// Removes the item at a cursor, without allocating.
    pub fn remove(&mut self, cursor: Cursor)
        requires { IsItem self.old cursor }
        ensures items { entries self.new ≡ remove (entries self.old) (place self.old cursor) }
        ensures room { (n : ℕ) → HasRoom self.old n → HasRoom self.new n }
    {
        take_out(&mut self.blocks, &mut self.spares, cursor);
    }
}
