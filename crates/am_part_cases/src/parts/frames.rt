//! Frames as they are read, in any pieces, and as they are made and written; and sessions, piece by piece.

use crate::common::{Brittle, Case, CaseFault, Cut, Pieces, Spelled, TriedCall, cut, first};
use crate::parts::gossip;
use crate::parts::requests::print_read;
use am_gossip::{
    Bytes, Feeder, Frame, FrameError, FrameKind, FullState, Part, StateKey, encode_frame,
    read_hello,
};
use am_http::Read;
use am_http::session::{Session, SessionFault, SessionOutput};
use std::slice;

/// Answers cases of frames and sessions.
pub fn answer(case: &Case, verb: &str, rest: &str) {
    match verb {
        "feed" => feed(case, rest),
        "frame" => frame(case, rest),
        "hello" => {
            let bytes = case.bytes(rest);
            given!(hello = case.got(read_hello(bytes.as_slice()), FrameError::Memory));
            match hello {
                Some((name, len)) => say!(case; name, " in ", len),
                None => case.put("more is wanted\n"),
            }
        }
        "kind" => say_some!(case; kind = FrameKind::from_code((case.number(rest) % 256) as u8);
            ?kind, " ", kind.code(), ", at most ", kind.limit()),
        "key" => say_some!(case; key = StateKey::from_text(rest); ?key, " ", key.as_str()),
        "session" => session(case, rest),
        "receive" => receive(case, rest),
        _ => gossip::answer(case, verb, rest),
    }
}

/// Answers `feed PIECE | PIECE ..`: feeds the pieces of a stream, with a line for each.
fn feed(case: &Case, pieces: &str) {
    let mut feeder = Feeder::new(case.alloc);
    for pairs in pieces.split('|') {
        let piece = case.bytes(pairs.trim());
        feed_piece(case, &mut feeder, piece.as_slice());
    }
}

/// Prints on a line what a piece brings: its frames, the fault after them, and how many bytes then wait.
fn feed_piece(case: &Case, feeder: &mut Feeder, piece: &[u8]) {
    given!(fed = case.got(feeder.feed(piece), FrameError::Memory));
    for frame in &fed.frames {
        print_frame(case, frame, " +", "");
        case.put(", ");
    }
    if let Some(fault) = fed.fault {
        put!(case; ?fault, ", ");
    }
    put!(case; feeder.waiting(), " wait");
    if fed.fault.is_some() {
        print_end(case, feeder, &[0x04, 0x00]);
        print_end(case, feeder, &[]);
    }
    case.put("\n");
}

fn print_end(case: &Case, feeder: &mut Feeder, piece: &[u8]) {
    if let Err(fault) = feeder.feed(piece) {
        put!(case; ", ", ?fault);
    }
}

/// Prints a frame and its parts, with a mark between them, and a word for a part without bytes.
pub fn print_frame(case: &Case, frame: &Frame, mark: &str, none: &str) {
    case.debug(frame.kind());
    match frame {
        Frame::Tick => {}
        Frame::Delta(part) => print_parts(case, slice::from_ref(part), mark, none),
        Frame::Push(state) | Frame::Pull(state) => print_parts(case, state.parts(), mark, none),
    }
}

fn print_parts(case: &Case, parts: &[Part], mark: &str, none: &str) {
    for (place, part) in parts.iter().enumerate() {
        put!(case; if place > 0 { mark } else { "" }, " ", part.key.as_str());
        case.print_bytes(" ", part.bytes.as_slice(), none);
    }
}

/// Answers `frame KIND PART + PART ..`: writes a frame, and prints its bytes.
fn frame(case: &Case, rest: &str) {
    given!(frame = Frame::spelled(case, rest));
    given!(bytes = case.got(encode_frame(case.alloc, &frame), FrameError::Memory));
    case.say_bytes(bytes.as_slice());
}

impl Spelled for Frame {
    fn spelled(case: &Case, words: &str) -> Option<Frame> {
        match first(words) {
            ("Tick", _) => Some(Frame::Tick),
            ("Delta", what) => Some(Frame::Delta(Part::spelled(case, what)?)),
            ("Push", what) => Some(Frame::Push(FullState::new(case.list(what, " + ")))),
            _ => case.wanted(None),
        }
    }
}

/// A key, and its bytes as pairs, or `of zeros N`.
impl Spelled for Part {
    fn spelled(case: &Case, what: &str) -> Option<Part> {
        let (key, what) = first(what);
        let key = case.wanted(StateKey::from_text(key))?;
        let bytes = match what.strip_prefix("of zeros ") {
            Some(count) => case.made(vec![in case.alloc; 0; case.number(count) as usize])?,
            None => case.bytes(what),
        };
        let bytes = Bytes::new(bytes);
        Some(Part { key, bytes })
    }
}

/// Answers `session PIECE | PIECE ..`: feeds a session pieces, which are bytes, a text in quotes, `end` or `stop`, with a line
/// for each.
fn session(case: &Case, pieces: &str) {
    let mut session = Session::new(case.alloc);
    for word in pieces.split('|') {
        print_said(case, &said_of(case, &mut session, word.trim()));
        if let Some(name) = session.name() {
            put!(case; ", of ", name);
        }
        case.put(if session.is_over() { ", over\n" } else { "\n" });
    }
}

fn said_of(case: &Case, session: &mut Session, word: &str) -> SessionOutput {
    match word {
        "end" => session.end(),
        "stop" => {
            session.stop();
            SessionOutput::nothing(case.alloc)
        }
        _ => {
            let piece = match word.strip_prefix('"') {
                Some(text) => case.spelled(text.strip_suffix('"').unwrap_or(text)),
                None => case.bytes(word),
            };
            session.feed(piece.as_slice())
        }
    }
}

/// Prints the frames, the request and the fault, with `, ` between them.
fn print_said(case: &Case, said: &SessionOutput) {
    let mut mark = "";
    for frame in &said.frames {
        case.put(mark);
        print_frame(case, frame, " +", "");
        mark = ", ";
    }
    if let Some(read) = &said.request {
        case.put(mark);
        print_read(case, read, true);
        mark = ", ";
    }
    match said.fault {
        Some(SessionFault::Frame(FrameError::Memory)) => case.fail(CaseFault::Memory),
        Some(fault) => put!(case; mark, ?fault),
        None if mark.is_empty() => case.put("nothing"),
        None => {}
    }
}

/// A call that gives pieces to a session until it hears no more, and then the end.
#[derive(Clone, Copy)]
struct Receiving {
    /// True if the parts of the request are printed, and what is left of the pieces.
    in_full: bool,
}

impl TriedCall for Receiving {
    fn make(&self, case: &Case, reader: &mut Pieces<'_>, _writer: &mut Brittle) -> Option<Cut> {
        let (mut session, step) = (Session::new(case.alloc), reader.step);
        let mut said = SessionOutput::nothing(case.alloc);
        for _ in 0..=reader.left.len() {
            if session.is_over() {
                break;
            }
            said = reader.feed(&mut session, step);
        }
        print_read(case, &said.request.unwrap_or(Read::More), self.in_full);
        if self.in_full {
            put!(case; "\ncalls ", reader.calls, ", left ", reader.left.len());
        }
        None
    }
}

/// Answers `receive HOW: TEXT` with what a request that comes in pieces is read as, and what is then left of the pieces.
fn receive(case: &Case, rest: &str) {
    let (phrases, text) = cut(rest, ": ");
    let bytes = case.spelled(text);
    let how = case.how(phrases, bytes.as_slice());
    let in_full = how.each.is_empty();
    case.make(&Receiving { in_full }, &how);
}
