//! Views, written.

ghost use Rattle.std.specs.Prelude.{◌≡◌, length, map, IfOk, IfErr, OnOk};
ghost use Rattle.std.specs.Io.KnownBytes.{Appends};
ghost use Rattle.serde_json.specs.Data.{array};
ghost use Rattle.serde_json.specs.View.{items_of};
ghost use Rattle.am_merge.specs.Maps.{swept};
ghost use Rattle.am_silence_json.specs.Tokens.{Adds, data_tokens, row_tokens};
ghost use Rattle.am_report.specs.Views.{StopsWriting};
ghost use Rattle.am_report.specs.Json.Views.{view_line};

use crate::json_lines::tokens::line_of;
use crate::json_lines::values::InJson;
use am_merge::Held;
use am_silence_json::tokens::add;
use am_snapshot::SnapshotError;
use am_version_order::{Moment, Version};
use am_wire::send;
use json::{Token, Writer};
use std::alloc::{AllocError, Global};
use std::io::Write;

/// Adds the versions in view, without brackets.
fn add_live<V: InJson>(
    alloc: Global,
    out: &mut Writer,
    held: &Held<V>,
    now: Moment,
) -> Result<(), AllocError>
    ensures { OnOk result (Adds out.old out.new (row_tokens (map (V.value now) (swept V.seen now held.now)))) }
{
    for version in held.iter() {
        if now < version.expires() {
            version.add_value(alloc, out, now)?;
        }
    }
    Ok(())
}

/// Adds the list of the versions in view.
fn add_view<V: InJson>(
    alloc: Global,
    out: &mut Writer,
    held: &Held<V>,
    now: Moment,
) -> Result<(), AllocError>
    ensures { OnOk result (Adds out.old out.new (data_tokens (array (items_of (map (V.value now) (swept V.seen now held.now)))))) }
{
    add(out, Token::BeginArray)?;
    add_live(alloc, out, held, now)?;
    add(out, Token::EndArray)?;
    Ok(())
}

/// Returns the line of the versions in view.
fn view_line<V: InJson>(alloc: Global, held: &Held<V>, now: Moment) -> Result<Vec<u8>, AllocError>
    ensures { IfOk result (λ line. line.items ≡ view_line V.seen V.value now held.now) }
{
    let mut out = Writer::new(Vec::new(alloc));
    add_view(alloc, &mut out, held, now)?;
    let line = line_of(out)?;
    Ok(line)
}

/// Writes the view of a map at a moment: the list of the held versions that are live, in the order of their keys, as JSON
/// without blank space, and a line feed. Answers how many bytes went out.
///
/// # Errors
///
/// [`SnapshotError::Write`] if a write fails or takes nothing: exactly the first `written` bytes went out, and it is
/// not tried again. [`SnapshotError::Memory`] if memory runs out, before a byte goes out.
pub fn write_view_json<V: InJson, W: Write>(
    alloc: Global,
    held: &Held<V>,
    now: Moment,
    writer: &mut W,
) -> Result<u64, SnapshotError>
    ensures line { OnOk result (Appends (W.contents writer.old) (W.contents writer.new) (view_line V.seen V.value now held.now)) }
    ensures count { IfOk result (λ written. written ≡ length (view_line V.seen V.value now held.now)) }
    ensures stopped { IfErr result (StopsWriting W.contents writer.old writer.new (view_line V.seen V.value now held.now)) }
{
    let line = view_line(alloc, held, now)?;
    send(writer, &line)?;
    Ok(line.len() as u64)
}
