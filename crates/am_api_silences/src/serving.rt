//! A request from any reader, answered to any writer.

ghost use Rattle.std.specs.Prelude.{◌≡◌, Ok, Some, List, ℕ, Option, option_map};
ghost use Rattle.am_http.specs.Requests.{IsUnfinished};
ghost use Rattle.am_instance.specs.InstanceStates.{InstanceState};
ghost use Rattle.am_api_silences.specs.Answers.{answer_in};
ghost use Rattle.am_api_silences.specs.Replies.{HasSomeStatus, HasStatus, bytes_of};
ghost use Rattle.am_api_silences.specs.Serving.{GoesOut, IsHandedOn, IsReadBy, IsServed, IsSilent, Serves};

use crate::answering::{Answered, answer, refuse};
use am_gossip::Frame;
use am_http::{Cause, Read, read_request};
use am_instance::{Instance, Place, Unsent};
use am_version_order::Moment;
use am_wire::{Stop, read_some, send};
use http::StatusCode;
use std::alloc::Global;
use std::io;

/// The maximum size of a request in bytes: a head and a body.
const MOST_BYTES: usize = 16_384 + 1_048_576;

/// The reason why a request wasn't read, or its reply not written to its end.
#[derive(Clone, Copy, Debug, PartialEq, Eq)]
pub enum ServeFault {
    /// A read failed, after `at` bytes had come; no step was made.
    Read { at: u64 },
    /// A write failed or took nothing, after `written` bytes had gone out; the step stands.
    Write { written: u64 },
}

/// The outcome of a request.
#[derive(Drop)]
pub struct Served {
    /// The status of the reply, if one was made.
    pub status: Option<u16>,
    /// The frames to be sent, in order, each with the place of the peer to which it goes.
    pub frames: Vec<(Place, Frame)>,
    /// The number of frames that were left out.
    pub unsent: Unsent,
    pub fault: Option<ServeFault>,
}

/// Reads a request, up to the piece in which it is decided. If the input ends before its first byte, the result is [`Read::More`].
fn receive<R: io::Read>(alloc: Global, reader: &mut R) -> Result<Read, ServeFault>
    ensures { IsReadBy (R.remaining reader.old) (R.remaining reader.new) result }
{
    let mut bytes = Vec::new(alloc);
    loop {
        match read_request(alloc, &bytes, false) {
            Read::More => {}
            read => return Ok(read),
        }
        match read_some(reader, &mut bytes, MOST_BYTES) {
            Ok(true) => {}
            Ok(false) => return Ok(read_request(alloc, &bytes, true)),
            Err(Stop::Read) => {
                return Err(ServeFault::Read {
                    at: bytes.len() as u64,
                });
            }
            Err(Stop::Memory) => return Ok(Read::Refused(Cause::Memory.refusal())),
        }
    }
}

/// Returns the outcome without a reply.
fn silent(alloc: Global, fault: Option<ServeFault>) -> Served
    ensures { (stand : InstanceState) (out : Option (List ℕ)) → IsSilent fault stand stand out out result }
{
    Served {
        status: None,
        frames: Vec::new(alloc),
        unsent: Unsent {
            memory: 0,
            limit: 0,
        },
        fault,
    }
}

/// Returns the status of a reply, by its first line.
fn status_of(bytes: &[u8]) -> Option<u16>
    ensures { (status : ℕ) → HasStatus status bytes.now → result ≡ Some status }
{
    let digits = bytes.get(9..12)?;
    match StatusCode::from_bytes(digits) {
        Ok(code) => Some(code.as_u16()),
        Err(_) => None,
    }
}

/// Writes a reply.
fn write<W: io::Write>(writer: &mut W, bytes: &[u8]) -> Option<ServeFault>
    ensures { GoesOut (W.contents writer.old) (W.contents writer.new) bytes.now result }
{
    match send(writer, bytes) {
        Ok(()) => None,
        Err(fault) => Some(ServeFault::Write {
            written: fault.written,
        }),
    }
}

/// Writes the reply of an answer, and hands on the rest.
fn hand_on<W: io::Write>(writer: &mut W, answered: Answered) -> Served
    requires { HasSomeStatus (bytes_of answered.reply) }
    ensures { IsHandedOn (W.contents writer.old) (W.contents writer.new) (answer_in answered) result }
{
    let fault = write(writer, answered.reply.as_slice());
    Served {
        status: status_of(answered.reply.as_slice()),
        frames: answered.frames,
        unsent: answered.unsent,
        fault,
    }
}

/// Answers what was read, and writes the reply.
fn reply_to<W: io::Write>(
    alloc: Global,
    instance: &mut Instance,
    writer: &mut W,
    read: Read,
    bits: u128,
    now: Moment,
) -> Served
    ensures { IsServed (Ok read) bits now instance.old instance.new (W.contents writer.old) (W.contents writer.new) result }
{
    match read {
        Read::Whole(request) => hand_on(writer, answer(alloc, instance, &request, bits, now)),
        Read::Refused(refusal) => hand_on(writer, refuse(alloc, &refusal).finish(alloc)),
        Read::More => silent(alloc, None),
    }
}

/// Reads a request, answers it by one step at `now`, and writes the reply. `bits` are random: a silence that the request makes gets
/// its identifier from them.
///
/// If no step is made, the instance is as it was, and nothing is sent. Input that ends before its first byte gets no reply.
/// No read or write is tried again after it failed.
pub fn serve<R: io::Read, W: io::Write>(
    alloc: Global,
    instance: &mut Instance,
    reader: &mut R,
    writer: &mut W,
    bits: u128,
    now: Moment,
) -> Served
    // PROMISE: What a reader gives is answered by one step and its reply, up to a read or a write that fails.
    ensures { Serves bits now (R.remaining reader.old) (R.remaining reader.new) instance.old instance.new (W.contents writer.old)
        (W.contents writer.new) result }
{
    match receive(alloc, reader) {
        Ok(read) => reply_to(alloc, instance, writer, read, bits, now),
        Err(fault) => silent(alloc, Some(fault)),
    }
}
