//! The operations on a list's blocks and on the empty ones in reserve.

ghost use Rattle.std.specs.Prelude.{◌≡◌, ◌+◌, ◌<◌, ◌≤◌, [], length, slice_index_or, IsOk, OnOk, vec_len, vec_capacity};
ghost use Rattle.std.specs.List.{insert, remove};
ghost use Rattle.am_merge.specs.Rows.{AreSound, AreEmpty, joined};
ghost use Rattle.am_merge.specs.Cursors.{block_at, place_in};
ghost use Rattle.am_merge.specs.Cuts.{cut_at};

use crate::blocks::block::{Block, FULL};
use crate::blocks::cursor::Cursor;
use std::alloc::{AllocError, Global};

/// Makes spare blocks until there are `count`.
pub fn fill<T: Copy>(
    spares: &mut Vec<Block<T>>,
    count: usize,
    alloc: Global,
) -> Result<(), AllocError>
    requires { AreEmpty spares.old.items }
    ensures empty { AreEmpty spares.new.items }
    ensures count { OnOk result (count ≤ vec_len spares.new) }
    ensures kept { vec_len spares.old ≤ vec_len spares.new }
    // If there are as many already, nothing is allocated.
    ensures succeeds { count ≤ vec_len spares.old → IsOk result }
    ensures had_enough { count ≤ vec_len spares.old → vec_len spares.new ≡ vec_len spares.old }
{
    if count <= spares.len() {
        return Ok(());
    }
    for _made in spares.len()..count {
        spares.push(Block::new(alloc)?)?;
    }
    Ok(())
}

/// Returns the offset at which a full block is cut, after an item was inserted at `offset`. An item behind all others begins
/// a block of its own, so that items inserted in order leave full blocks.
fn cut_offset(is_last: bool, offset: usize) -> usize
    ensures lower { 0 < result }
    ensures upper { result < 128 }
{
    if is_last && offset == FULL - 1 {
        FULL - 1
    } else {
        FULL / 2
    }
}

/// Cuts a block in two before an offset.
fn cut<T: Copy>(blocks: &mut Vec<Block<T>>, spares: &mut Vec<Block<T>>, block: usize, offset: usize)
    requires block { block < vec_len blocks.old }
    requires full { length (slice_index_or blocks.old.items block []) ≤ 128 }
    requires within { offset ≤ length (slice_index_or blocks.old.items block []) }
    requires room { vec_len blocks.old < vec_capacity blocks.old }
    requires spare { 0 < vec_len spares.old }
    requires empty { AreEmpty spares.old.items }
    ensures blocks { blocks.new.items ≡ cut_at blocks.old.items block offset }
    ensures grown { vec_len blocks.new ≡ vec_len blocks.old + 1 }
    ensures capacity { vec_capacity blocks.new ≡ vec_capacity blocks.old }
    ensures spares { vec_len spares.new + 1 ≡ vec_len spares.old }
    ensures empty { AreEmpty spares.new.items }
{
    let mut upper = spares.take_last();
    let lower = &mut blocks[block];
    lower.cut(offset, &mut upper);
    let _inserted = blocks.insert(block + 1, upper);
}

/// Inserts an item at a place.
pub fn put<T: Copy>(blocks: &mut Vec<Block<T>>, spares: &mut Vec<Block<T>>, cursor: Cursor, item: T)
    requires sound { AreSound blocks.old.items }
    requires empty { AreEmpty spares.old.items }
    requires block { cursor.block ≤ vec_len blocks.old }
    requires offset { cursor.offset ≤ length (block_at blocks.old.items cursor) }
    requires room { vec_len blocks.old < vec_capacity blocks.old }
    requires spare { 0 < vec_len spares.old }
    ensures sound { AreSound blocks.new.items }
    ensures empty { AreEmpty spares.new.items }
    ensures items { joined blocks.new.items
        ≡ insert (joined blocks.old.items) (place_in blocks.old.items cursor) item }
    ensures grown { vec_len blocks.new ≤ vec_len blocks.old + 1 }
    ensures capacity { vec_capacity blocks.new ≡ vec_capacity blocks.old }
    ensures spares { vec_len spares.old ≤ vec_len spares.new + 1 }
{
    if cursor.block == blocks.len() {
        let mut block = spares.take_last();
        block.insert(0, item);
        blocks.push_reserved(block);
        return;
    }
    let is_last = cursor.block + 1 == blocks.len();
    let block = &mut blocks[cursor.block];
    block.insert(cursor.offset, item);
    if block.len() == FULL {
        cut(
            blocks,
            spares,
            cursor.block,
            cut_offset(is_last, cursor.offset),
        );
    }
}

/// Removes the item at a cursor. A block that becomes empty is kept in reserve if there is room for it.
pub fn take_out<T: Copy>(blocks: &mut Vec<Block<T>>, spares: &mut Vec<Block<T>>, cursor: Cursor)
    requires sound { AreSound blocks.old.items }
    requires empty { AreEmpty spares.old.items }
    requires offset { cursor.offset < length (block_at blocks.old.items cursor) }
    ensures sound { AreSound blocks.new.items }
    ensures empty { AreEmpty spares.new.items }
    ensures items { joined blocks.new.items
        ≡ remove (joined blocks.old.items) (place_in blocks.old.items cursor) }
    ensures shrunk { vec_len blocks.new ≤ vec_len blocks.old }
    ensures capacity { vec_capacity blocks.new ≡ vec_capacity blocks.old }
    ensures spares { vec_len spares.old ≤ vec_len spares.new }
{
    let block = &mut blocks[cursor.block];
    block.remove(cursor.offset);
    if block.len() == 0 {
        let empty = blocks.remove(cursor.block);
        if spares.len() < spares.capacity() {
            spares.push_reserved(empty);
        }
    }
}
