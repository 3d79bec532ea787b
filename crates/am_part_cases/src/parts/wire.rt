//! Moments and intervals; varints, fields, timestamps and rows, also over readers that give few bytes or fail.

use crate::common::{
    Brittle, Case, CaseFault, Cut, Pieces, Printed, TriedCall, cut, first, moment_of,
};
use crate::parts::versions;
use am_silence::MeshSilence;
use am_version_order::{Interval, Moment};
use am_wire::reading::{AnyField, Scan, Schema, TimestampDraft};
use am_wire::writing::append_text;
use am_wire::{
    Message, RowFault, RowReader, Rows, Unknown, Value, WireError, read_varint, write_varint,
};

/// Answers cases of moments, and of bytes on the wire.
pub fn answer(case: &Case, verb: &str, rest: &str) {
    let (one, other) = first(rest);
    match verb {
        "parts" => say_some!(case; moment = moment_of(rest); ?moment.parts()),
        "order" => say!(case; ?case.moment(one).cmp(&case.moment(other))),
        "interval" => say!(case; Interval::from_nanos(case.number(rest)).is_some()),
        "sum" | "sums" => sum(case, case.moment(one), other),
        "wire" => wire(case, rest),
        "put" => put(case, rest),
        "timestamps" => messages(case, false, rest),
        "silences" => messages(case, true, rest),
        _ => versions::answer(case, verb, rest),
    }
}

/// Answers `sum MOMENT NANOSECONDS` with the sum, and the one that is capped at the last moment; `sums MOMENT NANOSECONDS
/// COUNT` with that many of them.
fn sum(case: &Case, start: Moment, rest: &str) {
    let (length, count) = first(rest);
    given!(length = case.wanted(Interval::from_nanos(case.number(length))));
    if count.is_empty() {
        say_some!(case; sum = start.checked_add(length); @sum);
        say!(case; @start.capped_add(length));
    } else {
        say_some!(case; sum = start.checked_add_times(length, case.number(count)); @sum);
    }
}

/// Answers `wire WHAT: BYTES` with what the words say is read; `timestamp at 5` reads one whose bytes begin at that offset.
fn wire(case: &Case, rest: &str) {
    let (what, pairs) = cut(rest, ": ");
    let bytes = case.bytes(pairs);
    let bytes = bytes.as_slice();
    match first(what) {
        ("varint", _) => {
            given!((value, len) = case.got(read_varint(bytes), WireError::Memory));
            say!(case; value, " in ", len);
        }
        ("fields", "") => say_fields::<AnyField>(case, bytes),
        ("fields", _) => say_fields::<TimestampDraft>(case, bytes),
        ("rows", _) => say_rows(case, bytes),
        (_, which) => {
            let at = case.number(which.strip_prefix("at ").unwrap_or("0")) as usize % (1 << 32);
            let read = Moment::decode_at(case.alloc, Unknown::Drop, bytes, at);
            given!(moment = case.got(read, WireError::Memory));
            say!(case; @moment);
        }
    }
}

fn say_fields<K: Schema>(case: &Case, bytes: &[u8]) {
    for field in Scan::<K>::new(bytes) {
        if let Some(field) = case.got(field, WireError::Memory) {
            put!(case; field.number, " at ", field.at, ", payload at ", field.inside, ": ");
            match field.value {
                Value::Bytes(bytes) => case.say_bytes(bytes),
                value => say!(case; ?value),
            }
        }
    }
}

fn say_rows(case: &Case, bytes: &[u8]) {
    for row in Rows::new(bytes) {
        if let Some(message) = case.got(row, WireError::Memory) {
            case.say_bytes(message);
        }
    }
}

/// Answers `put PART; PART ..`: writes `append BYTES`, which were written before, `varint NUMBER` and `timestamp MOMENT`.
fn put(case: &Case, rest: &str) {
    let mut out = Vec::new(case.alloc);
    for part in rest.split("; ") {
        match first(part) {
            ("append", what) => {
                let bytes = case.bytes(what);
                case.made(append_text(&mut out, bytes.as_slice()));
            }
            ("varint", what) => case.append(&mut out, write_varint(case.number(what)).as_slice()),
            (_, what) => {
                case.made(case.moment(what).encode(&mut out));
            }
        }
    }
    case.say_bytes(out.as_slice());
}

/// Answers `timestamps PHRASES: BYTES` and `silences PHRASES: BYTES` with the messages of a row.
fn messages(case: &Case, of_silences: bool, rest: &str) {
    let (how, pairs) = cut(rest, ": ");
    let bytes = case.bytes(pairs);
    case.make(
        &RowReading { of_silences },
        &case.how(how, bytes.as_slice()),
    );
}

/// A call that reads a row to its end or its first fault.
#[derive(Clone, Copy)]
struct RowReading {
    of_silences: bool,
}

impl TriedCall for RowReading {
    fn make(&self, case: &Case, reader: &mut Pieces<'_>, _writer: &mut Brittle) -> Option<Cut> {
        match self.of_silences {
            true => read_row::<MeshSilence>(case, reader),
            false => read_row::<Moment>(case, reader),
        }
    }
}

/// Prints the messages of a row, and how it ends. After its end or a fault nothing may come.
fn read_row<M: Message + Printed>(case: &Case, reader: &mut Pieces<'_>) -> Option<Cut> {
    let mut rows = RowReader::<M>::new(case.alloc);
    for _ in 0..1_000 {
        match rows.next(reader) {
            Ok(Some(message)) => put!(case; @message, ", "),
            Ok(None) => {
                let is_over = matches!(rows.next(reader), Ok(None));
                case.put(if is_over { "the end" } else { "no end" });
                break;
            }
            Err(RowFault::Memory) => {
                case.fail(CaseFault::Memory);
                break;
            }
            Err(fault) => {
                let is_over = matches!(rows.next(reader), Err(RowFault::Ended));
                case.put(if is_over { "" } else { "not ended, " });
                if let RowFault::Read { at } = fault {
                    return Some(("Read", at as u64));
                }
                case.debug(fault);
                break;
            }
        }
    }
    None
}
