//! Requests and connections that come to a member, and the bytes that are sent to a peer.

use crate::members::{copied, name_at, posted, print_held};
use am_api_silences::{ServeFault, Served, serve};
use am_connection::{Ended, SendError, connection, send};
use am_gossip::{Feeder, Frame, FrameError};
use am_instance::{Instance, StepError};
use am_part_cases::common::{
    Brittle, Case, CaseFault, Cut, How, Pieces, Printed, TriedCall, cut, phrase,
};
use am_part_cases::{given, put, say};
use am_peers::ConnectionFault as Cause;
use am_version_order::Moment;
use std::io::Read;

/// A connection that comes to a copy of a member.
#[derive(Clone, Copy)]
struct Coming<'a> {
    instance: &'a Instance,
    now: Moment,
    bits: u128,
    /// True if only one request comes. Then nothing but the reply is printed if the request has no other effect.
    is_request: bool,
    /// True if the status is printed, too.
    has_status: bool,
}

/// The outcome of a connection beside the reply.
#[derive(Drop)]
struct Seen {
    ended: Ended,
    status: Option<u16>,
}

/// Returns the outcome of a request as that of its connection.
fn served(served: Served) -> Seen {
    let Served {
        status,
        frames,
        unsent,
        fault,
    } = served;
    let fault = fault.map(|fault| match fault {
        ServeFault::Read { at } => Cause::Read { at },
        ServeFault::Write { written } => Cause::Write { written },
    });
    let ended = Ended {
        frames,
        unsent,
        ticked: false,
        fault,
    };
    Seen { ended, status }
}

impl Coming<'_> {
    /// Makes the connection to the member.
    fn come<R: Read>(
        &self,
        case: &Case,
        member: &mut Instance,
        reader: &mut R,
        writer: &mut Brittle,
    ) -> Seen {
        let (bits, now) = (self.bits, self.now);
        if self.is_request {
            return served(serve(case.alloc, member, reader, writer, bits, now));
        }
        Seen {
            ended: connection(case.alloc, member, reader, writer, bits, now),
            status: None,
        }
    }

    fn print_seen(&self, case: &Case, member: &Instance, seen: &Seen) {
        if let (true, Some(status)) = (self.has_status, seen.status) {
            put!(case; status, ", ");
        }
        print_held(case, "holds ", member);
        let frames = seen.ended.frames.as_slice();
        if let Some((place, _)) = frames.first() {
            put!(case; ", sends ", frames.len(), ", first to ", name_at(member.config(), *place));
        }
        case.put(if seen.ended.ticked { ", ticked" } else { "" });
        match &seen.ended.fault {
            Some(Cause::Step(StepError::MomentBack { last })) => {
                put!(case; ", MomentBack ", @last);
            }
            Some(Cause::Step(error)) => put!(case; ", ", ?error),
            Some(Cause::Read { .. } | Cause::Write { .. }) => case.put(", "),
            Some(other) => put!(case; ", ", ?other),
            None => {}
        }
    }
}

/// Notes a fault if memory ran out for a step, for frames to peers, or for the reply.
fn fail_without_memory(case: &Case, seen: &Seen, reply: &[u8]) {
    let is_memory = match seen.ended.fault {
        Some(Cause::Frame(FrameError::Memory) | Cause::Step(StepError::Memory { .. })) => true,
        _ => seen.ended.unsent.memory > 0 || reply.ends_with(b"\"out of memory\""),
    };
    if is_memory {
        case.fail(CaseFault::Memory);
    }
}

impl TriedCall for Coming<'_> {
    fn make(&self, case: &Case, reader: &mut Pieces<'_>, writer: &mut Brittle) -> Option<Cut> {
        let mut member = copied(case, self.instance)?;
        let seen = self.come(case, &mut member, reader, writer);
        fail_without_memory(case, &seen, writer.taken.as_slice());
        self.print_seen(case, &member, &seen);
        match seen.ended.fault {
            Some(Cause::Read { at }) => Some(("Read", at)),
            Some(Cause::Write { written }) => Some(("Write", written)),
            _ => None,
        }
    }
}

/// Answers `ask PHRASES: TEXT` and `connect PHRASES: TEXT` with a text, and `hear PHRASES: BYTES`.
pub fn connect(case: &Case, instance: &mut Instance, is_whole: bool, verb: &str, rest: &str) {
    let (phrases, text) = cut(rest, ":");
    let text = text.strip_prefix(' ').unwrap_or(text);
    let bytes = match verb {
        "hear" => case.bytes(text),
        _ if phrases.contains("post") => posted(case, "/api/v2/silences", text),
        _ => case.unescaped(text),
    };
    let coming = Coming {
        instance: &*instance,
        now: case.moment(phrase(phrases, "at ")),
        bits: match phrase(phrases, "bits ") {
            "all ones" => u128::MAX,
            word => word.parse::<u128>().unwrap_or(0),
        },
        is_request: verb == "ask",
        has_status: phrases.contains("status"),
    };
    let how = case.how(phrases, bytes.as_slice());
    if !how.each.is_empty() {
        return case.say_text(case.make(&coming, &how).taken.as_slice());
    }
    let mut reader = Pieces::new(how.input, how.step, 0);
    given!((answer, member) = tried(case, &coming, &how, &mut reader));
    case.put(answer.as_str());
    if phrases.contains("counted") {
        say!(case; reader.calls, " reads, ", reader.left.len(), " bytes left");
    }
    if !is_whole {
        say_differences(case, &coming, &how, answer.as_str());
    }
    if case.is_fine() {
        *instance = member;
    }
}

/// Returns the answer of a copy of the member, and the copy after it.
fn tried<R: Read>(
    case: &Case,
    coming: &Coming<'_>,
    how: &How<'_>,
    reader: &mut R,
) -> Option<(String, Instance)> {
    let part = Case::new(case.alloc);
    let mut member = copied(case, coming.instance)?;
    let mut writer = part.writer(how, 0);
    let seen = coming.come(&part, &mut member, reader, &mut writer);
    let reply = writer.taken.as_slice();
    fail_without_memory(&part, &seen, reply);
    if matches!(seen.ended.fault, Some(Cause::Write { .. })) {
        part.fail(CaseFault::Memory);
    }
    part.say_text(reply);
    let is_quiet = seen.ended.frames.is_empty() && seen.ended.fault.is_none();
    if !coming.is_request || coming.has_status || reply.is_empty() || !is_quiet {
        coming.print_seen(&part, &member, &seen);
        part.put("\n");
    }
    case.fail_as(&part);
    Some((part.into_text(), member))
}

/// Prints where copies answer differently if the bytes come in two pieces, or byte by byte (place 0). Of more than 600 bytes
/// only a few places are tried.
fn say_differences(case: &Case, coming: &Coming<'_>, how: &How<'_>, whole: &str) {
    let bytes = how.input;
    let few = bytes.len() / 7;
    let every = if bytes.len() > 600 { few } else { 1 };
    for first in (0..bytes.len()).step_by(every.max(1)) {
        let step = if first == 0 { 1 } else { usize::MAX };
        let (front, rest) = bytes.split_at(first);
        let front = Pieces::new(front, usize::MAX, 0);
        let mut reader = front.chain(Pieces::new(rest, step, 0));
        given!((answer, _member) = tried(case, coming, how, &mut reader));
        if answer.as_str() != whole {
            say!(case; "in pieces: at ", first, " ", answer);
        }
    }
}

/// A call that sends bytes to a peer.
#[derive(Clone, Copy)]
struct Sending<'a> {
    name: &'a str,
    frames: &'a [Frame],
}

impl TriedCall for Sending<'_> {
    fn make(&self, case: &Case, _reader: &mut Pieces<'_>, writer: &mut Brittle) -> Option<Cut> {
        match send(case.alloc, self.name, self.frames, writer) {
            Ok(count) => put!(case; count, " bytes"),
            Err(SendError::Write { written }) => return Some(("Write", written)),
            Err(SendError::Length) => case.put("Length"),
            Err(SendError::Memory) => case.fail(CaseFault::Memory),
        }
        None
    }
}

/// Answers `send NAME: FRAMES` and `send NAME, PHRASES: FRAMES`.
pub fn say_sent(case: &Case, rest: &str) {
    let (phrases, digits) = cut(rest, ": ");
    let (name, phrases) = cut(phrases, ", ");
    let fed = Feeder::new(case.alloc).feed(case.bytes(digits).as_slice());
    given!(fed = case.sound(fed, FrameError::Memory));
    let frames = fed.frames.as_slice();
    let sent = case.make(&Sending { name, frames }, &case.how(phrases, &[]));
    case.say_bytes(sent.taken.as_slice());
}
