//! A connection over any reader and writer.

ghost use Rattle.std.specs.Prelude.{◌≡◌};
ghost use Rattle.am_http.specs.Sessions.{spoken};
ghost use Rattle.am_member.specs.Lives.{Tells};
ghost use Rattle.am_connection.specs.Connections.{GoesOut, IsConnection, IsConversed, IsTurn, came_of, stand};

use crate::ended::{Ended, add, no_effects};
use am_api_silences::ReplyBuilder;
use am_http::session::{Session, SessionOutput};
use am_instance::Instance;
use am_member::{SessionAnswer, StepEffects, apply_session_output};
use am_peers::ConnectionFault;
use am_version_order::Moment;
use std::alloc::Global;
use std::io;

/// The maximum number of bytes that are asked for at once.
const PIECE: usize = 16_384;

/// The maximum number of bytes of a connection.
const MOST_BYTES: u64 = 134_217_728;

/// Returns what a piece of a connection says; an empty one is the end of its input.
fn tell(session: &mut Session, piece: &[u8]) -> SessionOutput
    ensures { Tells session.old (came_of piece.now) (spoken result) session.new }
{
    if piece.is_empty() {
        session.end()
    } else {
        session.feed(piece)
    }
}

/// Writes a reply, if there is one.
fn write_reply<W: io::Write>(
    alloc: Global,
    writer: &mut W,
    reply: Option<ReplyBuilder>,
) -> Option<ConnectionFault>
    ensures { GoesOut reply (W.contents writer.old) (W.contents writer.new) result }
{
    let Some(making) = reply else {
        return None;
    };
    match am_wire::send(writer, making.finish(alloc).as_slice()) {
        Ok(()) => None,
        Err(fault) => Some(ConnectionFault::Write {
            written: fault.written,
        }),
    }
}

/// Hears a piece: makes the steps of what it says at `now`, and writes the reply to a request.
fn hear<W: io::Write>(
    alloc: Global,
    instance: &mut Instance,
    session: &mut Session,
    effects: &mut StepEffects,
    piece: &[u8],
    writer: &mut W,
    bits: u128,
    now: Moment,
) -> Option<ConnectionFault>
    ensures { IsTurn bits now piece.now (stand session.old instance.old effects.old (W.contents writer.old))
        (stand session.new instance.new effects.new (W.contents writer.new)) result }
{
    let said = tell(session, piece);
    let SessionAnswer {
        reply,
        effects: more,
        fault,
    } = apply_session_output(alloc, instance, session, said, bits, now);
    add(effects, more);
    let stop = write_reply(alloc, writer, reply);
    fault.or(stop)
}

/// Reads and hears one piece after the other, until nothing more is heard. Returns the fault that ended it, if any.
fn converse<R: io::Read, W: io::Write>(
    alloc: Global,
    instance: &mut Instance,
    session: &mut Session,
    effects: &mut StepEffects,
    reader: &mut R,
    writer: &mut W,
    bits: u128,
    now: Moment,
) -> Option<ConnectionFault>
    ensures { IsConversed bits now (R.remaining reader.old) (R.remaining reader.new)
        (stand session.old instance.old effects.old (W.contents writer.old))
        (stand session.new instance.new effects.new (W.contents writer.new)) result }
{
    let mut piece = [0u8; PIECE];
    let mut count = 0;
    loop {
        let Ok(size) = reader.read(&mut piece) else {
            return Some(ConnectionFault::Read { at: count });
        };
        let fault = hear(
            alloc,
            instance,
            session,
            effects,
            &piece[..size],
            writer,
            bits,
            now,
        );
        if size == 0 || fault.is_some() || session.is_over() {
            return fault;
        }
        count += size as u64;
        if count > MOST_BYTES {
            return Some(ConnectionFault::TooLarge);
        }
    }
}

/// Serves a connection: one whose first byte is under 0x20 begins with a peer's greeting, behind which each frame is a step at
/// `now`; any other is a request, which is answered by a step at `now` and a reply. `bits` are random: a silence that the request
/// makes gets its identifier from them.
///
/// The first fault ends the connection; the steps before it stand. An end inside a greeting or a frame drops the bytes that are not
/// whole, and is no fault, nor is input without a byte. No read or write is tried again after it failed.
pub fn connection<R: io::Read, W: io::Write>(
    alloc: Global,
    instance: &mut Instance,
    reader: &mut R,
    writer: &mut W,
    bits: u128,
    now: Moment,
) -> Ended
    // PROMISE: A connection makes the steps of what its bytes say, piece by piece, up to its first fault.
    ensures { IsConnection bits now (R.remaining reader.old) (R.remaining reader.new) instance.old instance.new
        (W.contents writer.old) (W.contents writer.new) result }
{
    let mut session = Session::new(alloc);
    let mut effects = no_effects(alloc);
    let fault = converse(
        alloc,
        instance,
        &mut session,
        &mut effects,
        reader,
        writer,
        bits,
        now,
    );
    Ended::new(effects, fault)
}
