//! The names of sources that hold the same.

ghost use Rattle.std.specs.Prelude.{◌≡◌, ◌++◌, [], ◌&&◌, None, not, map, IfOk, OnOk, string_bytes, if◌then◌else◌};
ghost use Rattle.std.specs.List.{list_any};
ghost use Rattle.std.specs.Option.{option_copied};
ghost use Rattle.am_report.specs.Differences.{is_same};
ghost use Rattle.am_report.specs.Sources.{holding_of};
ghost use Rattle.am_report.specs.ReportLine.{holders, names_word, next_name};

use crate::differences::is_same;
use crate::merge_cursor::MergeCursor;
use crate::words::ListedWord;
use am_version_order::Version;
use std::alloc::AllocError;

/// Returns no version, with the type of those that the sources hold.
pub fn nothing<'a, V: Version>(_sides: &[MergeCursor<'a, V>]) -> Option<&'a V>
    ensures { option_copied result ≡ None }
{
    None
}

/// Returns whether a source holds this at the key that the walk has reached.
pub fn is_held<V: Version>(sides: &[MergeCursor<'_, V>], here: Option<&V>) -> bool
    ensures { result ≡ list_any (λ holding. is_same V.seen holding.here (option_copied here.entry)) (map holding_of sides.now) }
{
    for cursor in sides {
        if is_same(cursor.here(), here) {
            return true;
        }
    }
    false
}

/// Appends a name as a word of a list, after a comma unless it is the first one.
fn append_name(out: &mut String, name: &str, is_first: bool) -> Result<(), AllocError>
    ensures { OnOk result (string_bytes out.new ≡ string_bytes out.old ++ next_name is_first name.now) }
{
    let name = ListedWord(name.as_bytes());
    if is_first {
        write!(out, "{name}")
    } else {
        write!(out, ",{name}")
    }
}

/// Appends the name of a source if it holds this there, and returns whether the next name is still the first one.
fn append_holder<V: Version>(
    out: &mut String,
    cursor: &MergeCursor<'_, V>,
    here: Option<&V>,
    is_first: bool,
) -> Result<bool, AllocError>
    ensures name { OnOk result (string_bytes out.new ≡ string_bytes out.old
        ++ (if is_same V.seen cursor.now.here (option_copied here.entry) then next_name is_first cursor.now.name else [])) }
    ensures first { IfOk result (λ still. still ≡ (is_first && not (is_same V.seen cursor.now.here (option_copied here.entry)))) }
{
    if !is_same(cursor.here(), here) {
        return Ok(is_first);
    }
    append_name(out, cursor.name(), is_first)?;
    Ok(false)
}

/// Appends the names of the sources that hold this there, in their order, with commas between them.
///
/// # Errors
///
/// [`AllocError`] if memory runs out. A part of the names may be left.
pub fn append_names<V: Version>(
    out: &mut String,
    sides: &[MergeCursor<'_, V>],
    here: Option<&V>,
) -> Result<(), AllocError>
    ensures { OnOk result (string_bytes out.new
        ≡ string_bytes out.old ++ names_word (holders V.seen (option_copied here.entry) (map holding_of sides.now))) }
{
    let mut is_first = true;
    for source in sides {
        is_first = append_holder(out, source, here, is_first)?;
    }
    Ok(())
}
