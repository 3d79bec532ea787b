//! A difference.

ghost use Rattle.std.specs.Prelude.{◌≡◌, ◌++◌, None, Some, map, drop, OnOk};
ghost use Rattle.am_report.specs.Groups.{greatest_within};
ghost use Rattle.am_report.specs.Sources.{holding_of};
ghost use Rattle.am_report.specs.Ranked.{ranked};
ghost use Rattle.am_report.specs.ReportLine.{IsKeyOf};
ghost use Rattle.am_silence_json.specs.Tokens.{Adds, data_tokens, row_tokens};
ghost use Rattle.am_report.specs.Json.Groups.{behind_data, difference_data, groups_data};
ghost use Rattle.am_report.specs.Less.{less_word};

use crate::groups::{greatest_of, next_below};
use crate::json_lines::groups::{add_behind, add_greatest, add_missing};
use crate::json_lines::values::InJson;
use crate::merge_cursor::MergeCursor;
use am_silence_json::tokens::add;
use am_version_order::{Moment, Version};
use json::{Token, Writer};
use std::alloc::{AllocError, Global};

/// Adds the groups of the versions that are less than the greatest one.
fn add_others<V: InJson>(
    alloc: Global,
    out: &mut Writer,
    sides: &[MergeCursor<'_, V>],
    greatest: &V,
    now: Moment,
) -> Result<(), AllocError>
    requires { greatest_within V.seen None (map holding_of sides.now) ≡ Some greatest.now }
    ensures { OnOk result (Adds out.old out.new (row_tokens
        (map (behind_data V.seen V.named (V.value now) (less_word V.seen V.unknown_of V.known_of) (map holding_of sides.now) greatest.now)
        (drop 1 (ranked V.seen (map holding_of sides.now)))))) }
{
    let mut last = greatest;
    while let Some(version) = next_below(sides, last) {
        add_behind(alloc, out, sides, version, greatest, now)?;
        last = version;
    }
    Ok(())
}

/// Adds all groups, without brackets.
fn add_groups<V: InJson>(
    alloc: Global,
    out: &mut Writer,
    sides: &[MergeCursor<'_, V>],
    greatest: &V,
    now: Moment,
) -> Result<(), AllocError>
    requires { greatest_within V.seen None (map holding_of sides.now) ≡ Some greatest.now }
    ensures { OnOk result (Adds out.old out.new
        (row_tokens (groups_data V.seen V.named (V.value now) (less_word V.seen V.unknown_of V.known_of) (map holding_of sides.now)))) }
{
    add_greatest(alloc, out, sides, greatest, now)?;
    add_others(alloc, out, sides, greatest, now)?;
    add_missing(out, sides)?;
    Ok(())
}

/// Adds a difference: what the sources hold at the key where the walk is.
///
/// # Errors
///
/// [`AllocError`] if memory runs out. A part of it may be left.
pub fn add_difference<V: InJson>(
    alloc: Global,
    out: &mut Writer,
    sides: &[MergeCursor<'_, V>],
    now: Moment,
) -> Result<(), AllocError>
    ensures before { OnOk result (out.new.before ≡ out.old.before) }
    ensures tokens { OnOk result ((key : V.Key) → IsKeyOf V.seen (map holding_of sides.now) key →
        out.new.tokens ≡ out.old.tokens ++ data_tokens (difference_data V.seen V.named (V.value now) (less_word V.seen V.unknown_of V.known_of) V.key_data
        (record { key = key; holdings = map holding_of sides.now }))) }
{
    let Some(greatest) = greatest_of(sides) else {
        return Ok(());
    };
    add(out, Token::BeginObject)?;
    add(out, Token::Key("key"))?;
    V::add_key(alloc, out, greatest.key())?;
    add(out, Token::Key("groups"))?;
    add(out, Token::BeginArray)?;
    add_groups(alloc, out, sides, greatest, now)?;
    add(out, Token::EndArray)?;
    add(out, Token::EndObject)?;
    Ok(())
}
