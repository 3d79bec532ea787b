//! Rows of versions that are read in stretches.

ghost use Rattle.std.specs.Prelude.{ℕ, List, Option, Ok, true, false, ◌≡◌, IfErr, IfSome};
ghost use Rattle.am_merge.specs.Views.{HoldsBest};
ghost use Rattle.am_wire.specs.declared.unknown.Unknown.{Unknown};
ghost use Rattle.am_wire.specs.Inputs.{AreMessages, StopsAfter};
ghost use Rattle.am_alertmanager.specs.Reading.{IsReadFrom};

use am_merge::Held;
use am_version_order::{Moment, Version};
use am_wire::{Message, RowFault, RowReader, Unknown};
use std::alloc::Global;
use std::io::Read;

/// Returns a reader of a row from its first byte on, and an empty map for the versions that it reads.
pub fn begin_row<V: Version + Message>(alloc: Global) -> (RowReader<V>, Held<V>)
    ensures { (unknown : Unknown) (start : Option (List ℕ)) → IsReadFrom (V.reads unknown) V.seen V.Key.cmp start start result.0 result.1 }
{
    let rows = RowReader::new(alloc);
    let held = Held::new(alloc);
    (rows, held)
}

/// Reads on in a row that was begun by [`begin_row`], by a number of versions and by the policy for unknown fields, and takes
/// each, live or not. Returns whether the row has ended.
///
/// # Errors
///
/// The first fault of the row, or [`RowFault::Memory`].
pub fn read_some<V: Version + Message, R: Read>(
    unknown: Unknown,
    rows: &mut RowReader<V>,
    reader: &mut R,
    held: &mut Held<V>,
    count: usize,
) -> Result<bool, RowFault>
    // PROMISE: A row that is read in stretches is read as one that is read at once: of each key the greatest version is held.
    ensures goes_on { (start : Option (List ℕ)) → IsReadFrom (V.reads unknown) V.seen V.Key.cmp start (R.remaining reader.old) rows.old held.old
        → result ≡ Ok false → IsReadFrom (V.reads unknown) V.seen V.Key.cmp start (R.remaining reader.new) rows.new held.new }
    ensures ends { (start : Option (List ℕ)) → IsReadFrom (V.reads unknown) V.seen V.Key.cmp start (R.remaining reader.old) rows.old held.old
        → result ≡ Ok true → IfSome start (λ input. (versions : List V) × AreMessages (V.reads unknown) input versions × HoldsBest V.seen versions held.new) }
    ensures stops { IfErr result (λ fault. (start : Option (List ℕ))
        → IsReadFrom (V.reads unknown) V.seen V.Key.cmp start (R.remaining reader.old) rows.old held.old
        → IfSome start (λ input. (versions : List V) × StopsAfter (V.reads unknown) input versions (R.remaining reader.new) fault)) }
{
    for _ in 0..count {
        let Some(version) = rows.next_by(unknown, reader)? else {
            return Ok(true);
        };
        held.take(version, Moment::LEAST)?;
    }
    Ok(false)
}
