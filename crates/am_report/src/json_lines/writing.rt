//! All differences, written.

ghost use Rattle.std.specs.Prelude.{◌≡◌, ℕ, List, map, All, IfOk, IfErr};
ghost use Rattle.std.specs.Io.KnownBytes.{Appends};
ghost use Rattle.am_merge.specs.Maps.{IsMap};
ghost use Rattle.am_report.specs.Sources.{rest_of};
ghost use Rattle.am_report.specs.Json.Written.{AreAdded, IsLine, StopsLine};
ghost use Rattle.am_report.specs.Less.{less_word};

use crate::compared::Compared;
use crate::differences::next_difference;
use crate::held_source::{HeldSource, sides_of};
use crate::json_lines::difference::add_difference;
use crate::json_lines::tokens::line_of;
use crate::json_lines::values::InJson;
use crate::merge_cursor::MergeCursor;
use am_silence_json::tokens::add;
use am_snapshot::SnapshotError;
use am_version_order::Moment;
use am_wire::send;
use json::{Token, Writer};
use std::alloc::{AllocError, Global};
use std::io::Write;

/// Adds what is left of all differences on a walk, without brackets. Answers whether there is one.
fn add_left<V: InJson>(
    alloc: Global,
    out: &mut Writer,
    sides: &mut [MergeCursor<'_, V>],
    compared: Compared,
    now: Moment,
) -> Result<bool, AllocError>
    requires order { All (λ cursor. IsMap V.seen V.Key.cmp cursor.left) sides.old }
    ensures { IfOk result (λ found.
        AreAdded V.seen V.Key.cmp V.key_data V.named (V.value now) (less_word V.seen V.unknown_of V.known_of) compared now (map rest_of sides.old) found out.old out.new) }
{
    let mut found = false;
    while next_difference(sides, compared, now) {
        add_difference(alloc, out, sides, now)?;
        found = true;
    }
    Ok(found)
}

/// Adds all differences of these sources, without brackets. Answers whether there is one.
fn add_differences<V: InJson>(
    alloc: Global,
    out: &mut Writer,
    replicas: &[HeldSource<'_, V>],
    compared: Compared,
    now: Moment,
) -> Result<bool, AllocError>
    ensures { IfOk result (λ found.
        AreAdded V.seen V.Key.cmp V.key_data V.named (V.value now) (less_word V.seen V.unknown_of V.known_of) compared now replicas.now found out.old out.new) }
{
    let mut sides = sides_of(alloc, replicas)?;
    add_left(alloc, out, &mut sides, compared, now)
}

/// The line of all differences, and whether there is one.
#[derive(Drop)]
struct Differences {
    found: bool,
    line: Vec<u8>,
}

/// Returns the line of all differences of these sources.
fn differences_of<V: InJson>(
    alloc: Global,
    replicas: &[HeldSource<'_, V>],
    compared: Compared,
    now: Moment,
) -> Result<Differences, AllocError>
    ensures { IfOk result (λ d.
        IsLine V.seen V.Key.cmp V.key_data V.named (V.value now) (less_word V.seen V.unknown_of V.known_of) compared now replicas.now d.found d.line.items) }
{
    let mut out = Writer::new(Vec::new(alloc));
    add(&mut out, Token::BeginArray)?;
    let found = add_differences(alloc, &mut out, replicas, compared, now)?;
    add(&mut out, Token::EndArray)?;
    let line = line_of(out)?;
    Ok(Differences { found, line })
}

/// Writes all differences of these sources as JSON without blank space, and a line feed: an array with an object for each
/// key at which not all of them show the same at the moment, or not all hold the same, in the order of the keys. It has the
/// key, and a group for each set of sources that hold the same there, the group of the greatest version first. Answers
/// whether there is a difference.
///
/// # Errors
///
/// [`SnapshotError::Write`] if a write fails or takes nothing: exactly the first `written` bytes of the line went out,
/// and it is not tried again. [`SnapshotError::Memory`] if memory runs out, before a byte goes out.
pub fn write_differences_json<V: InJson, W: Write>(
    alloc: Global,
    replicas: &[HeldSource<'_, V>],
    compared: Compared,
    now: Moment,
    writer: &mut W,
) -> Result<bool, SnapshotError>
    ensures line { IfOk result (λ found. (line : List ℕ) ×
        IsLine V.seen V.Key.cmp V.key_data V.named (V.value now) (less_word V.seen V.unknown_of V.known_of) compared now replicas.now found line ×
        Appends (W.contents writer.old) (W.contents writer.new) line) }
    ensures stopped { IfErr result (StopsLine V.seen V.Key.cmp V.key_data V.named (V.value now) (less_word V.seen V.unknown_of V.known_of) compared now replicas.now
        W.contents writer.old writer.new) }
{
    let differences = differences_of(alloc, replicas, compared, now)?;
    send(writer, &differences.line)?;
    Ok(differences.found)
}
