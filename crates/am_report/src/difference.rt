//! The lines of a difference.

ghost use Rattle.std.specs.Prelude.{◌≡◌, ◌++◌, None, Some, map, drop, flat_map, OnOk, string_bytes};
ghost use Rattle.am_report.specs.Groups.{greatest_within};
ghost use Rattle.am_report.specs.Sources.{holding_of};
ghost use Rattle.am_report.specs.ReportLine.{IsKeyOf, behind_line, difference_lines};
ghost use Rattle.am_report.specs.Ranked.{ranked};
ghost use Rattle.am_report.specs.Less.{less_word};

use crate::format::LineFormat;
use crate::group_lines::{append_behind, append_greatest, append_missing};
use crate::groups::{greatest_of, next_below};
use crate::merge_cursor::MergeCursor;
use crate::report_line::ReportLine;
use std::alloc::AllocError;

/// Appends the lines of the versions that are less than the greatest one.
fn append_others<V: ReportLine>(
    out: &mut String,
    sides: &[MergeCursor<'_, V>],
    greatest: &V,
    format: &LineFormat,
) -> Result<(), AllocError>
    requires { greatest_within V.seen None (map holding_of sides.now) ≡ Some greatest.now }
    ensures { OnOk result (string_bytes out.new ≡ string_bytes out.old
        ++ flat_map (behind_line V.seen V.begins (V.told format.now) (V.more format.now) (less_word V.seen V.unknown_of V.known_of) (V.seen greatest.now).key (map holding_of sides.now) greatest.now)
        (drop 1 (ranked V.seen (map holding_of sides.now)))) }
{
    let mut last = greatest;
    while let Some(version) = next_below(sides, last) {
        append_behind(out, sides, version, greatest, format)?;
        last = version;
    }
    Ok(())
}

/// Appends the lines of a difference: of what the sources hold at the key that the walk has reached.
///
/// # Errors
///
/// [`AllocError`] if memory runs out. A part of the lines may be left.
pub fn append_difference<V: ReportLine>(
    out: &mut String,
    sides: &[MergeCursor<'_, V>],
    format: &LineFormat,
) -> Result<(), AllocError>
    ensures { OnOk result ((key : V.Key) → IsKeyOf V.seen (map holding_of sides.now) key →
        string_bytes out.new ≡ string_bytes out.old
        ++ difference_lines V.seen V.begins (V.told format.now) (V.more format.now) (less_word V.seen V.unknown_of V.known_of) (record { key = key; holdings = map holding_of sides.now })) }
{
    let Some(greatest) = greatest_of(sides) else {
        return Ok(());
    };
    append_greatest(out, sides, greatest, format)?;
    append_others(out, sides, greatest, format)?;
    append_missing(out, sides, greatest.key())?;
    Ok(())
}
