//! The names of sources that hold the same.

ghost use Rattle.std.specs.Prelude.{[], ◌∷◌, map, OnOk, codes, if◌then◌else◌};
ghost use Rattle.std.specs.Option.{option_copied};
ghost use Rattle.json.specs.Token as tokens;
ghost use Rattle.serde_json.specs.Data.{string};
ghost use Rattle.am_report.specs.Differences.{is_same};
ghost use Rattle.am_report.specs.Sources.{holding_of};
ghost use Rattle.am_report.specs.ReportLine.{holders};
ghost use Rattle.am_silence_json.specs.Tokens.{Adds, data_tokens, row_tokens};
ghost use Rattle.am_report.specs.Json.Groups.{sources_data};

use crate::differences::is_same;
use crate::merge_cursor::MergeCursor;
use am_silence_json::tokens::add;
use am_version_order::Version;
use json::{Token, Writer};
use std::alloc::AllocError;

/// Adds the name of a source that holds this there.
fn add_holder<V: Version>(
    out: &mut Writer,
    cursor: &MergeCursor<'_, V>,
    here: Option<&V>,
) -> Result<(), AllocError>
    ensures { OnOk result (Adds out.old out.new
        (row_tokens (if is_same V.seen cursor.now.here (option_copied here.entry) then string cursor.now.name ∷ [] else []))) }
{
    if is_same(cursor.here(), here) {
        add(out, Token::String(cursor.name()))?;
    }
    Ok(())
}

/// Adds the names of the sources that hold this there, without brackets.
fn add_holders<V: Version>(
    out: &mut Writer,
    sides: &[MergeCursor<'_, V>],
    here: Option<&V>,
) -> Result<(), AllocError>
    ensures { OnOk result (Adds out.old out.new
        (row_tokens (map string (holders V.seen (option_copied here.entry) (map holding_of sides.now))))) }
{
    for cursor in sides {
        add_holder(out, cursor, here)?;
    }
    Ok(())
}

/// Adds the member that lists the sources that hold this there.
pub fn add_sources<V: Version>(
    out: &mut Writer,
    sides: &[MergeCursor<'_, V>],
    here: Option<&V>,
) -> Result<(), AllocError>
    ensures { OnOk result (Adds out.old out.new (tokens.key (codes "sources")
        ∷ data_tokens (sources_data V.seen (option_copied here.entry) (map holding_of sides.now)))) }
{
    add(out, Token::Key("sources"))?;
    add(out, Token::BeginArray)?;
    add_holders(out, sides, here)?;
    add(out, Token::EndArray)?;
    Ok(())
}
