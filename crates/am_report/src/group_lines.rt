//! The lines of the groups of a difference.

ghost use Rattle.std.specs.Prelude.{◌≡◌, ◌++◌, true, map, OnOk, string_bytes};
ghost use Rattle.am_version_order.specs.Versions.{is_below};
ghost use Rattle.am_report.specs.Sources.{holding_of};
ghost use Rattle.am_report.specs.ReportLine.{behind_line, greatest_line, group_words, missing_line};
ghost use Rattle.am_report.specs.Less.{less_word};

use crate::format::LineFormat;
use crate::less::less_by;
use crate::merge_cursor::MergeCursor;
use crate::names::{append_names, is_held, nothing};
use crate::report_line::ReportLine;
use std::alloc::AllocError;

/// Appends the words, behind those of the key, of a line about the sources that have this version, in their relation to the
/// others.
fn append_group<V: ReportLine>(
    out: &mut String,
    sides: &[MergeCursor<'_, V>],
    relation: &str,
    version: &V,
    format: &LineFormat,
) -> Result<(), AllocError>
    ensures { OnOk result (string_bytes out.new ≡ string_bytes out.old
        ++ group_words V.seen (V.told format.now) relation.now (map holding_of sides.now) version.now) }
{
    write!(out, " {relation} ")?;
    append_names(out, sides, Some(version))?;
    write!(out, " ")?;
    version.append_told(out, format)
}

/// Appends the line of the sources that have the greatest version.
pub fn append_greatest<V: ReportLine>(
    out: &mut String,
    sides: &[MergeCursor<'_, V>],
    greatest: &V,
    format: &LineFormat,
) -> Result<(), AllocError>
    ensures { OnOk result (string_bytes out.new ≡ string_bytes out.old
        ++ greatest_line V.seen V.begins (V.told format.now) (V.more format.now) (V.seen greatest.now).key (map holding_of sides.now) greatest.now) }
{
    V::append_key(out, greatest.key())?;
    append_group(out, sides, "greatest", greatest, format)?;
    writeln!(out)?;
    greatest.append_more(out, greatest, format)
}

/// Appends the line of the sources that have a lesser version.
pub fn append_behind<V: ReportLine>(
    out: &mut String,
    sides: &[MergeCursor<'_, V>],
    version: &V,
    greatest: &V,
    format: &LineFormat,
) -> Result<(), AllocError>
    requires { is_below (V.seen version.now) (V.seen greatest.now) ≡ true }
    ensures { OnOk result (string_bytes out.new ≡ string_bytes out.old
        ++ behind_line V.seen V.begins (V.told format.now) (V.more format.now) (less_word V.seen V.unknown_of V.known_of) (V.seen greatest.now).key (map holding_of sides.now) greatest.now version.now) }
{
    let part = less_by(*out.allocator(), version, greatest)?;
    V::append_key(out, greatest.key())?;
    append_group(out, sides, "behind", version, format)?;
    writeln!(out, " by {part}")?;
    version.append_more(out, greatest, format)
}

/// Appends the line of the sources that hold nothing, if there are any.
pub fn append_missing<V: ReportLine>(
    out: &mut String,
    sides: &[MergeCursor<'_, V>],
    key: &V::Key,
) -> Result<(), AllocError>
    ensures { OnOk result (string_bytes out.new ≡ string_bytes out.old
        ++ missing_line V.seen V.begins key.now (map holding_of sides.now)) }
{
    let nothing = nothing(sides);
    if !is_held(sides, nothing) {
        return Ok(());
    }
    V::append_key(out, key)?;
    write!(out, " missing ")?;
    append_names(out, sides, nothing)?;
    writeln!(out)
}
