//! Bisections.

ghost use Rattle.std.specs.Prelude.{◌≡◌, ◌≢◌, ◌-◌, ◌<◌, ◌≤◌, [], length, take, drop, slice_index_or, IfOk, IfErr};
ghost use Rattle.std.specs.List.{All, HoldsAt};
ghost use Rattle.std.specs.declared.cmp.Ordering.TheVariants.{Less, Equal, Greater};
ghost use Rattle.am_merge.specs.Rows.{AreSound};
ghost use Rattle.am_merge.specs.Searches.{IsRising};

use crate::blocks::block::Block;
use crate::blocks::probe::Probe;

/// Returns the number of leading blocks whose first item isn't behind what is searched for. If the items are in rising
/// order, these are all such blocks.
pub fn leading<T: Copy, P: Probe<T>>(blocks: &[Block<T>], probe: &P) -> usize
    requires { AreSound blocks.now }
    ensures within { result ≤ length blocks.now }
    ensures before { (d : T) → 0 < result
        → P.order probe.now (slice_index_or (slice_index_or blocks.now (result - 1) []) 0 d) ≢ Greater }
    ensures behind { (d : T) → result < length blocks.now
        → P.order probe.now (slice_index_or (slice_index_or blocks.now result []) 0 d) ≡ Greater }
{
    let mut low = 0;
    let mut high = blocks.len();
    while low < high {
        let middle = low + (high - low) / 2;
        if probe.compare(&blocks[middle].as_slice()[0]).is_gt() {
            high = middle;
        } else {
            low = middle + 1;
        }
    }
    low
}

/// Returns the number of a block's items that aren't behind what is searched for, if they are in rising order.
pub fn leading_items<T: Copy, P: Probe<T>>(items: &[T], probe: &P) -> usize
    ensures { result ≤ length items.now }
{
    items.partition_point(|item| !probe.compare(item).is_gt())
}

/// Searches for an item in a block, and returns its offset, or the offset at which it would be inserted.
pub fn search_block<T: Copy, P: Probe<T>>(items: &[T], probe: &P) -> Result<usize, usize>
    requires { IsRising (P.order probe.now) items.now }
    ensures inside { IfOk result (λ offset. offset < length items.now) }
    ensures equal { IfOk result (HoldsAt (λ x. P.order probe.now x ≡ Equal) items.now) }
    ensures within { IfErr result (λ offset. offset ≤ length items.now) }
    ensures before { IfErr result (λ offset.
        All (λ x. P.order probe.now x ≡ Less) (take offset items.now)) }
    ensures behind { IfErr result (λ offset.
        All (λ x. P.order probe.now x ≡ Greater) (drop offset items.now)) }
{
    items.binary_search_by(|item| probe.compare(item))
}
