//! Calls over readers and writers that give or take few bytes at a time, or fail, made once or in a row of tries
//! (docs/CASES.md).

ghost use Rattle.std.specs.Prelude.{Some};

use crate::common::case::{Case, ROOM};
use crate::common::words::{first, phrase};
use am_http::session::{Session, SessionOutput};
use std::io::{self, Read, Write};

/// A reader over bytes that gives at most `step` bytes per call, and fails at the call `fails_at` (0: at none).
#[derive(Clone, Copy)]
pub struct Pieces<'a> {
    pub left: &'a [u8],
    pub step: usize,
    pub calls: usize,
    pub fails_at: usize,
}

impl<'a> Pieces<'a> {
    pub fn new(left: &'a [u8], step: usize, fails_at: usize) -> Pieces<'a> {
        Pieces {
            left,
            step,
            calls: 0,
            fails_at,
        }
    }

    /// Feeds a session the next piece, of at least one and at most `most` bytes, or the end if all bytes were given.
    pub fn feed(&mut self, session: &mut Session, most: usize) -> SessionOutput {
        if self.left.is_empty() {
            return session.end();
        }
        self.calls = self.calls.saturating_add(1);
        let (piece, left) = self.left.split_at(most.max(1).min(self.left.len()));
        self.left = left;
        session.feed(piece)
    }
}

impl Read for Pieces<'_> {
    ghost remaining = { λ r. Some r.left.now };

    fn read(&mut self, buf: &mut [u8]) -> io::Result<usize> {
        self.calls = self.calls.saturating_add(1);
        if self.calls == self.fails_at {
            return Err(io::Error::from(io::ErrorKind::ConnectionReset));
        }
        let n = self.step.max(1).min(buf.len()).min(self.left.len());
        buf[..n].copy_from_slice(&self.left[..n]);
        self.left = &self.left[n..];
        Ok(n)
    }
}

/// A writer into memory that takes at most `step` bytes per call, and at one call fails or takes nothing (0: at none).
#[derive(Drop)]
pub struct Brittle {
    pub taken: Vec<u8>,
    pub step: usize,
    pub calls: usize,
    pub stops_at: usize,
    pub takes_nothing: bool,
}

impl Write for Brittle {
    ghost contents = { λ w. Some w.taken.items };

    fn write(&mut self, buf: &[u8]) -> io::Result<usize> {
        self.calls = self.calls.saturating_add(1);
        let n = self.step.min(buf.len());
        match self.calls == self.stops_at {
            true if self.takes_nothing => return Ok(0),
            true => return Err(io::Error::from(io::ErrorKind::BrokenPipe)),
            false => self.taken.extend_from_slice(&buf[..n])?,
        }
        Ok(n)
    }

    fn flush(&mut self) -> io::Result<()> {
        Ok(())
    }
}

/// The input of a call, and the way that the call is made.
#[derive(Clone, Copy)]
pub struct How<'a> {
    pub input: &'a [u8],
    /// The maximum number of bytes that a read gives or a write takes.
    pub step: usize,
    /// The kind of tries that are made in a row: none, `read fails`, `write fails`, `write takes nothing`, `front` or `size of
    /// pieces`.
    pub each: &'a str,
    /// True if a call that failed is made once more, over the same reader and writer.
    pub again: bool,
}

impl<'a> How<'a> {
    /// Returns the reader of a try.
    fn reader(&self, number: usize) -> Pieces<'a> {
        let input = self.input;
        match self.each {
            "read fails" => Pieces::new(input, self.step, number),
            "front" => Pieces::new(&input[..number.min(input.len())], self.step, 0),
            "size of pieces" => Pieces::new(input, number, 0),
            _ => Pieces::new(input, self.step, 0),
        }
    }

    /// Returns the number of calls of the kind of which one was to fail.
    fn calls(&self, reader: &Pieces<'_>, writer: &Brittle, number: usize) -> usize {
        match self.each {
            "front" | "size of pieces" => number,
            "read fails" => reader.calls,
            _ => writer.calls,
        }
    }
}

/// A call over a reader and a writer.
pub trait TriedCall {
    /// Makes the call, and prints its answer. A fault that has a number of bytes is returned instead.
    fn make(&self, case: &Case, reader: &mut Pieces<'_>, writer: &mut Brittle) -> Option<Cut>;
}

/// The name of a read or a write that failed, and the number of bytes that came or went out before it.
pub type Cut = (&'static str, u64);

impl Case {
    /// Reads the way that a call is made from the words before `: `, which are phrases with `, ` between them.
    pub fn how<'a>(&self, phrases: &'a str, input: &'a [u8]) -> How<'a> {
        let size = phrase(phrases, "in pieces of ");
        How {
            input,
            step: size.parse::<usize>().unwrap_or(usize::MAX),
            each: phrase(phrases, "each "),
            again: phrases.contains("again"),
        }
    }

    /// Returns the writer of a try.
    pub fn writer(&self, how: &How<'_>, stops_at: usize) -> Brittle {
        let taken = self.made(Vec::with_capacity(self.alloc, ROOM));
        Brittle {
            taken: taken.unwrap_or(Vec::new(self.alloc)),
            step: how.step,
            calls: 0,
            stops_at,
            takes_nothing: how.each.ends_with("nothing"),
        }
    }

    /// Prints a cut, and whether its number of bytes is right.
    fn print_cut(&self, cut: Option<Cut>, right: usize) {
        match cut {
            Some((name, number)) if number == right as u64 => put!(self; name, " where it failed"),
            Some((name, number)) => put!(self; name, " at ", number),
            None => {}
        }
    }

    /// Prints how much of the whole output went out. If it is the front of it and a number was told, nothing is printed.
    fn print_out(&self, taken: &[u8], whole: &[u8], is_cut: bool) {
        match (taken.len(), whole.starts_with(taken)) {
            (0, _) => {}
            (size, true) if size == whole.len() => self.put(", all out"),
            (_, true) if is_cut => {}
            (size, true) => put!(self; ", the first ", size, " bytes out"),
            (size, false) => put!(self; ", ", size, " other bytes out"),
        }
    }

    /// Makes a try, and prints its outcome; returns whether the read or the write that was to fail was made.
    fn is_tried<C: TriedCall>(&self, call: &C, how: &How<'_>, whole: &[u8], number: usize) -> bool {
        let is_write = how.each.starts_with("write");
        let mut reader = how.reader(number);
        let mut writer = self.writer(how, if is_write { number } else { 0 });
        let size = reader.left.len();
        let cut = call.make(self, &mut reader, &mut writer);
        let came = size.saturating_sub(reader.left.len());
        self.print_cut(cut, if is_write { writer.taken.len() } else { came });
        let calls = how.calls(&reader, &writer, number);
        self.put(if calls > number { ", tried again" } else { "" });
        self.print_out(writer.taken.as_slice(), whole, cut.is_some());
        if how.again && calls >= number {
            let rest = if is_write { how.input } else { reader.left };
            self.put(", then ");
            call.make(self, &mut Pieces::new(rest, how.step, 0), &mut writer);
        }
        calls >= number
    }

    fn say_tries<C: TriedCall>(&self, call: &C, how: &How<'_>, whole: &[u8]) {
        let (name, start, end) = match how.each {
            "front" => ("front", 0, how.input.len().saturating_add(1)),
            "size of pieces" => ("pieces of", 1, 51),
            each => (first(each).0, 1, 100_000),
        };
        let mut answer = String::new(self.alloc);
        let (mut from, mut to) = (start, start);
        for number in start..end {
            let row = Case::new(self.alloc);
            if !row.is_tried(call, how, whole, number) || !row.is_fine() {
                self.fail_as(&row);
                break;
            }
            let row = row.into_text();
            if row != answer {
                self.say_row(name, from, to, answer.as_str());
                (answer, from) = (row, number);
            }
            to = number;
        }
        self.say_row(name, from, to, answer.as_str());
    }

    fn say_row(&self, name: &str, from: usize, to: usize, answer: &str) {
        match answer {
            "" => {}
            _ if from == to => say!(self; name, " ", from, ": ", answer),
            _ => say!(self; name, " ", from, " to ", to, ": ", answer),
        }
    }

    /// Makes the tries that are asked for, prints the answer to the call without them, and returns what was written then.
    pub fn make<C: TriedCall>(&self, call: &C, how: &How<'_>) -> Brittle {
        let mut writer = self.writer(how, 0);
        let answer = Case::new(self.alloc);
        let mut reader = Pieces::new(how.input, how.step, 0);
        let cut = call.make(&answer, &mut reader, &mut writer);
        answer.print_cut(cut, usize::MAX);
        self.fail_as(&answer);
        if !how.each.is_empty() {
            self.say_tries(call, how, writer.taken.as_slice());
        }
        say!(self; answer.into_text());
        writer
    }
}
