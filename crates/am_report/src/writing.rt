//! The lines of all differences.

ghost use Rattle.std.specs.Prelude.{◌≡◌, ◌++◌, ℕ, List, map, All, IfOk, IfErr, string_bytes};
ghost use Rattle.std.specs.Io.KnownBytes.{Appends};
ghost use Rattle.am_merge.specs.Maps.{IsMap};
ghost use Rattle.am_report.specs.Sources.{rest_of};
ghost use Rattle.am_report.specs.Written.{AreLines, StopsLines};
ghost use Rattle.am_report.specs.Less.{less_word};

use crate::compared::Compared;
use crate::difference::append_difference;
use crate::differences::next_difference;
use crate::format::LineFormat;
use crate::held_source::{HeldSource, sides_of};
use crate::merge_cursor::MergeCursor;
use crate::report_line::ReportLine;
use am_snapshot::SnapshotError;
use am_wire::send;
use std::alloc::{AllocError, Global};
use std::io::Write;

/// Appends the lines of all differences that are left on a walk.
fn append_left<V: ReportLine>(
    out: &mut String,
    sides: &mut [MergeCursor<'_, V>],
    compared: Compared,
    format: &LineFormat,
) -> Result<bool, AllocError>
    requires order { All (λ cursor. IsMap V.seen V.Key.cmp cursor.left) sides.old }
    ensures { IfOk result (λ found. (lines : List ℕ) ×
        AreLines V.seen V.Key.cmp V.begins (V.told format.now) (V.more format.now) (less_word V.seen V.unknown_of V.known_of) compared format.now.moment (map rest_of sides.old) found lines ×
        (string_bytes out.new ≡ string_bytes out.old ++ lines)) }
{
    let mut found = false;
    while next_difference(sides, compared, format.moment) {
        append_difference(out, sides, format)?;
        found = true;
    }
    Ok(found)
}

/// Appends the lines of all differences of these sources: for each key at which not all of them show the same at the moment,
/// or not all hold the same, in the order of the keys, a line for each group of them that hold the same there, the group of
/// the greatest version first. Returns whether there is a difference.
///
/// # Errors
///
/// [`AllocError`] if memory runs out. A part of the lines may have been appended then.
pub fn append_differences<V: ReportLine>(
    alloc: Global,
    out: &mut String,
    replicas: &[HeldSource<'_, V>],
    compared: Compared,
    format: &LineFormat,
) -> Result<bool, AllocError>
    ensures { IfOk result (λ found. (lines : List ℕ) ×
        AreLines V.seen V.Key.cmp V.begins (V.told format.now) (V.more format.now) (less_word V.seen V.unknown_of V.known_of) compared format.now.moment replicas.now found lines ×
        (string_bytes out.new ≡ string_bytes out.old ++ lines)) }
{
    let mut sides = sides_of(alloc, replicas)?;
    append_left(out, &mut sides, compared, format)
}

/// Writes the lines of all differences of these sources, as [`append_differences`] appends them. Returns whether there is a
/// difference.
///
/// # Errors
///
/// [`SnapshotError::Write`] if a write fails or takes nothing: exactly the first `written` bytes of the lines went out,
/// and it is not tried again. [`SnapshotError::Memory`] if memory runs out, before a byte goes out.
pub fn write_differences<V: ReportLine, W: Write>(
    alloc: Global,
    replicas: &[HeldSource<'_, V>],
    compared: Compared,
    format: &LineFormat,
    writer: &mut W,
) -> Result<bool, SnapshotError>
    ensures lines { IfOk result (λ found. (lines : List ℕ) ×
        AreLines V.seen V.Key.cmp V.begins (V.told format.now) (V.more format.now) (less_word V.seen V.unknown_of V.known_of) compared format.now.moment replicas.now found lines ×
        Appends (W.contents writer.old) (W.contents writer.new) lines) }

    ensures stopped { IfErr result (StopsLines V.seen V.Key.cmp V.begins (V.told format.now) (V.more format.now) (less_word V.seen V.unknown_of V.known_of) compared format.now.moment replicas.now
        W.contents writer.old writer.new) }
{
    let mut text = String::new(alloc);
    let found = append_differences(alloc, &mut text, replicas, compared, format)?;
    send(writer, text.as_bytes())?;
    Ok(found)
}
