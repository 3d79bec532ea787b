//! Rows that are saved, loaded, taken, folded and shown, and bytes that are sent: calls over readers and writers.

use crate::common::{Brittle, Case, CaseFault, Cut, Pieces, TriedCall, behind, cut, first};
use am_merge::Held;
use am_nflog::MeshEntry;
use am_report::write_view;
use am_silence::MeshSilence;
use am_snapshot::laws::what_is_saved_is_loaded;
use am_snapshot::{SnapshotError, fold, load, load_within, save, take_row};
use am_version_order::{Moment, Version};
use am_wire::{MOST_MESSAGE_BYTES, Message, Unknown, send};
use std::alloc::Global;

/// The verbs of calls.
const VERBS: [&str; 7] = ["load", "take_row", "save", "copy", "fold", "show", "send"];

/// Answers `VERB STATE HOW: ROW` or `VERB STATE ROW`; `fold STATE at MOMENT, HOW: ROW`; `show HOW: STATE at MOMENT: ROW`; `send
/// HOW: TEXT`. Rows are read without their unknown fields, unless HOW has the phrase `with unknown fields`.
pub fn answer(case: &Case, verb: &str, rest: &str) {
    if !VERBS.contains(&verb) {
        return case.fail(CaseFault::Words);
    }
    let (how, text) = rest.split_once(": ").unwrap_or(first(rest));
    let (of, row) = match verb {
        "show" => cut(text, ":"),
        _ => (how, text),
    };
    let bytes = match verb {
        "send" => case.unescaped(row),
        _ => case.bytes(row),
    };
    let now = case.moment(cut(behind(of, " at ", "least"), ",").0);
    let state = first(of).0;
    let unknown = if how.contains("with unknown fields") {
        Unknown::Keep
    } else {
        Unknown::Drop
    };
    let call = Calling {
        verb,
        state,
        now,
        unknown,
    };
    let writer = case.make(&call, &case.how(how, bytes.as_slice()));
    if writer.calls > 0 {
        put!(case; writer.calls, " calls: ");
        match verb {
            "send" | "show" => case.say_text(writer.taken.as_slice()),
            _ => case.say_bytes(writer.taken.as_slice()),
        }
    }
}

/// A call with a row of silences or of the log, which may fold or show it at a moment.
#[derive(Clone, Copy)]
struct Calling<'a> {
    verb: &'a str,
    state: &'a str,
    now: Moment,
    unknown: Unknown,
}

type Outcome = Result<u64, SnapshotError>;

impl TriedCall for Calling<'_> {
    fn make(&self, case: &Case, reader: &mut Pieces<'_>, writer: &mut Brittle) -> Option<Cut> {
        match self.done(case.alloc, reader, writer) {
            Err(SnapshotError::Read { at }) => return Some(("Read", at as u64)),
            Err(SnapshotError::Write { written }) => return Some(("Write", written)),
            Err(SnapshotError::Memory) => case.fail(CaseFault::Memory),
            other => case.debug(other),
        }
        None
    }
}

impl Calling<'_> {
    fn done(&self, alloc: Global, reader: &mut Pieces<'_>, writer: &mut Brittle) -> Outcome {
        match (self.verb, self.state) {
            ("show", "nfl") => {
                let log: Held<MeshEntry> = load(alloc, reader)?;
                write_view(alloc, &Held::new(alloc), &log, None, self.now, writer)
            }
            ("show", _) => {
                let silences: Held<MeshSilence> = load(alloc, reader)?;
                write_view(alloc, &silences, &Held::new(alloc), None, self.now, writer)
            }
            ("send", _) => {
                send(writer, reader.left)?;
                Ok(reader.left.len() as u64)
            }
            (_, "nfl") => done_with::<MeshEntry>(alloc, self, reader, writer),
            _ => {
                what_is_saved_is_loaded::<MeshSilence>();
                done_with::<MeshSilence>(alloc, self, reader, writer)
            }
        }
    }
}

fn done_with<V: Version + Message>(
    alloc: Global,
    call: &Calling<'_>,
    reader: &mut Pieces<'_>,
    writer: &mut Brittle,
) -> Outcome {
    let unknown = call.unknown;
    if call.verb == "take_row" {
        return Ok(take_row::<V, _>(alloc, unknown, reader)?.len() as u64);
    }
    if call.verb == "fold" {
        return match unknown {
            Unknown::Drop => Ok(fold::<V, _, _>(alloc, reader, writer, call.now)?),
            Unknown::Keep => save(alloc, &take_row::<V, _>(alloc, unknown, reader)?, writer),
        };
    }
    let held: Held<V> = match unknown {
        Unknown::Drop => load(alloc, reader)?,
        Unknown::Keep => load_within(alloc, unknown, reader, MOST_MESSAGE_BYTES as u32)?,
    };
    match call.verb {
        "save" => save(alloc, &held, writer),
        "copy" => save(alloc, &held.try_clone()?, writer),
        _ => Ok(held.len() as u64),
    }
}
