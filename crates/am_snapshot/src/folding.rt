//! Folding rows of versions.

ghost use Rattle.std.specs.Prelude.{◌≡◌, ◌≢◌, ◌≤◌, ℕ, List, length, IfOk, OnOk, IfErr, IfSome};
ghost use Rattle.std.specs.Io.KnownBytes.{Appends};
ghost use Rattle.am_wire.specs.Limits.{most};
ghost use Rattle.am_snapshot.specs.Folds.{IsFold, StopsFold, fold_fault};
ghost use Rattle.am_snapshot.specs.declared.error.SnapshotError.TheVariants.{DuplicateKey};

use crate::error::{FoldError, SnapshotError};
use crate::reading::take_row;
use crate::saving::save;
use am_merge::Held;
use am_version_order::{Moment, Version};
use am_wire::{Message, Unknown};
use std::alloc::Global;
use std::io::{Read, Write};

/// Reads every version of a row, and then writes the row of the best version of each key, live or not, in the order of
/// the keys, without unknown fields. Returns the number of bytes that went out. The moment makes no difference.
///
/// # Errors
///
/// Returns the first fault of the input, with nothing written. Returns [`FoldError::Write`] if a write fails or takes nothing:
/// exactly the first `written` bytes of the row went out, and the write is not retried. Also returns [`FoldError::TooLarge`] if
/// the row would have more than [`MOST_MESSAGE_BYTES`](am_wire::MOST_MESSAGE_BYTES), with nothing written, and
/// [`FoldError::Memory`] if memory runs out.
pub fn fold<V: Version + Message, R: Read, W: Write>(
    alloc: Global,
    reader: &mut R,
    writer: &mut W,
    _now: Moment,
) -> Result<u64, FoldError>
    // PROMISE: A fold writes the last write of each key in its input.
    ensures row { IfOk result (λ written. (row : List ℕ) × (written ≡ length row) ×
        Appends (W.contents writer.old) (W.contents writer.new) row ×
        IfSome (R.remaining reader.old) (λ input. IsFold V.seen V.Key.cmp (V.reads Unknown.Drop) input row)) }
    ensures size { OnOk result (IfSome (R.remaining reader.old) (λ input. length input ≤ most)) }
    ensures room { IfOk result (λ written. written ≤ most) }

    // PROMISE: If its input has a fault, a fold writes nothing.
    ensures stopped { IfErr result (λ fault. StopsFold V.seen V.Key.cmp (V.reads Unknown.Drop) (R.remaining reader.old)
        (R.remaining reader.new) W.contents writer.old writer.new (fold_fault fault)) }
{
    match fold_row::<V, R, W>(alloc, reader, writer) {
        Ok(written) => Ok(written),
        Err(fault) => Err(fold_error(fault)),
    }
}

// Converts a snapshot's fault that can be one of folding.
fn fold_error(fault: SnapshotError) -> FoldError
    requires { fault ≢ DuplicateKey }
    ensures { fold_fault result ≡ fault }
{
    match fault {
        SnapshotError::Read { at } => FoldError::Read { at },
        SnapshotError::Write { written } => FoldError::Write { written },
        SnapshotError::Wire(e) => FoldError::Wire(e),
        SnapshotError::TooLarge => FoldError::TooLarge,
        SnapshotError::Memory => FoldError::Memory,
        SnapshotError::DuplicateKey => unreachable!(),
    }
}

/// Folds as [`fold`] does, and tells a fault as that of a snapshot.
fn fold_row<V: Version + Message, R: Read, W: Write>(
    alloc: Global,
    reader: &mut R,
    writer: &mut W,
) -> Result<u64, SnapshotError>
    ensures row { IfOk result (λ written. (row : List ℕ) × (written ≡ length row) ×
        Appends (W.contents writer.old) (W.contents writer.new) row ×
        IfSome (R.remaining reader.old) (λ input. IsFold V.seen V.Key.cmp (V.reads Unknown.Drop) input row)) }
    ensures size { OnOk result (IfSome (R.remaining reader.old) (λ input. length input ≤ most)) }
    ensures room { IfOk result (λ written. written ≤ most) }
    ensures stopped { IfErr result (StopsFold V.seen V.Key.cmp (V.reads Unknown.Drop) (R.remaining reader.old)
        (R.remaining reader.new) W.contents writer.old writer.new) }
{
    let held: Held<V> = take_row(alloc, Unknown::Drop, reader)?;
    save(alloc, &held, writer)
}
