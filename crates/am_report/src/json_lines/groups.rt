//! The groups of a difference.

ghost use Rattle.std.specs.Prelude.{◌≡◌, ◌∷◌, true, map, OnOk};
ghost use Rattle.json.specs.Token.{key};
ghost use Rattle.am_version_order.specs.Versions.{is_below};
ghost use Rattle.am_report.specs.Sources.{holding_of};
ghost use Rattle.am_silence_json.specs.Tokens.{Adds, data_tokens, row_tokens};
ghost use Rattle.am_report.specs.Json.Groups.{behind_data, greatest_data, missing_group};
ghost use Rattle.am_report.specs.Less.{less_word};

use crate::json_lines::sources::add_sources;
use crate::json_lines::values::InJson;
use crate::less::less_by;
use crate::merge_cursor::MergeCursor;
use crate::names::{is_held, nothing};
use am_silence_json::tokens::{add, add_text};
use am_version_order::{Moment, Version};
use json::{Token, Writer};
use std::alloc::{AllocError, Global};

/// Adds the member that is a version.
fn add_version<V: InJson>(
    alloc: Global,
    out: &mut Writer,
    version: &V,
    now: Moment,
) -> Result<(), AllocError>
    ensures { OnOk result (Adds out.old out.new (key V.named ∷ data_tokens (V.value now version.now))) }
{
    add(out, Token::Key(V::name()))?;
    version.add_value(alloc, out, now)?;
    Ok(())
}

/// Adds the group of the sources that have the greatest version.
pub fn add_greatest<V: InJson>(
    alloc: Global,
    out: &mut Writer,
    sides: &[MergeCursor<'_, V>],
    greatest: &V,
    now: Moment,
) -> Result<(), AllocError>
    ensures { OnOk result (Adds out.old out.new
        (data_tokens (greatest_data V.seen V.named (V.value now) (map holding_of sides.now) greatest.now))) }
{
    add(out, Token::BeginObject)?;
    add_sources(out, sides, Some(greatest))?;
    add_text(out, "relation", "greatest")?;
    add_version(alloc, out, greatest, now)?;
    add(out, Token::EndObject)?;
    Ok(())
}

/// Adds the group of the sources that have a version that is less.
pub fn add_behind<V: InJson>(
    alloc: Global,
    out: &mut Writer,
    sides: &[MergeCursor<'_, V>],
    version: &V,
    greatest: &V,
    now: Moment,
) -> Result<(), AllocError>
    requires { is_below (V.seen version.now) (V.seen greatest.now) ≡ true }
    ensures { OnOk result (Adds out.old out.new
        (data_tokens (behind_data V.seen V.named (V.value now) (less_word V.seen V.unknown_of V.known_of) (map holding_of sides.now) greatest.now version.now))) }
{
    let by = less_by(alloc, version, greatest)?;
    add(out, Token::BeginObject)?;
    add_sources(out, sides, Some(version))?;
    add_text(out, "relation", "behind")?;
    add_text(out, "by", by.as_str())?;
    add_version(alloc, out, version, now)?;
    add(out, Token::EndObject)?;
    Ok(())
}

/// Adds the group of the sources that hold nothing, if there are any.
pub fn add_missing<V: Version>(
    out: &mut Writer,
    sides: &[MergeCursor<'_, V>],
) -> Result<(), AllocError>
    ensures { OnOk result (Adds out.old out.new (row_tokens (missing_group V.seen (map holding_of sides.now)))) }
{
    let nothing = nothing(sides);
    if !is_held(sides, nothing) {
        return Ok(());
    }
    add(out, Token::BeginObject)?;
    add_sources(out, sides, nothing)?;
    add_text(out, "relation", "missing")?;
    add(out, Token::EndObject)?;
    Ok(())
}
