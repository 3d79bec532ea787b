//! The lines of faults that a member prints: only so many of each kind a second, with a count of those left out; and none that
//! would have to wait until somebody reads.

use crate::fault::{Fault, FaultKind, print, print_count};
use crate::occasion::Occasion;
use crate::standard_error::StandardError;
use am_gossip::Place;
use am_peers::{later_moment, shown_name};
use am_version_order::Moment;
use am_wire::Text;
use std::alloc::{AllocError, Global};
use std::mem;
use std::net::Net;
use std::rt::Clock;
use std::time::{Duration, Instant};

/// A fault of a member that runs, and the place of the peer that it is about, if it is about one.
#[derive(Clone, Copy)]
pub struct Diagnostic {
    pub fault: Fault,
    pub peer: Option<Place>,
}

impl Diagnostic {
    /// Returns the occasion of the fault: now, and the name of its peer among those of the members.
    fn occasion<'a, R: Clock>(&self, rt: &R, members: &'a [Text]) -> Occasion<'a> {
        let peer = match self.peer {
            Some(place) => members
                .get(place as usize)
                .map(|name| shown_name(name.as_str())),
            None => None,
        };
        let moment = match rt.since_1970() {
            Ok(since_1970) => Some(later_moment(since_1970, Moment::LEAST)),
            Err(_) => None,
        };
        Occasion { peer, moment }
    }
}

/// A line that is printed of faults.
#[derive(Clone, Copy)]
enum ReportedLine {
    /// A fault.
    One(Diagnostic),
    /// A count of more faults like this one.
    Count(u64, Diagnostic),
}

impl ReportedLine {
    /// Prints the line. The members' names are in the order of their places.
    fn print<R: Clock + Eprint>(&self, rt: &R, members: &[Text]) {
        match self {
            ReportedLine::One(told) => print(rt, &told.fault, &told.occasion(rt, members)),
            ReportedLine::Count(count, last) => {
                print_count(rt, *count, &last.fault, &last.occasion(rt, members));
            }
        }
    }

    /// Returns the number of faults that the line tells.
    fn count(&self) -> u64 {
        match self {
            ReportedLine::One(_) => 1,
            ReportedLine::Count(count, _) => *count,
        }
    }
}

/// The tally of the lines of one kind in a second.
#[derive(Clone, Copy)]
struct LineWindow {
    /// The moment when the second is over.
    end: Option<Instant>,
    printed: u32,
    left_out: u64,
    /// The last fault that was left out.
    last: Option<Diagnostic>,
}

/// The lines of all kinds.
#[derive(Drop)]
pub struct DiagnosticPrinter {
    /// The most lines of a kind in a second.
    most: u32,
    tallies: [LineWindow; FaultKind::COUNT],
    output: StandardError,
    /// The number of faults that weren't told, since nobody read the lines before.
    lost: u64,
}

/// The time in milliseconds after which a member looks again whether somebody reads.
const LOOK_EVERY: u64 = 500;

/// A tally of no lines.
const NONE: LineWindow = LineWindow {
    end: None,
    printed: 0,
    left_out: 0,
    last: None,
};

impl LineWindow {
    /// Returns whether a second has begun that is over by now.
    fn is_over(&self, now: Instant) -> bool {
        match self.end {
            Some(end) => end <= now,
            None => false,
        }
    }

    /// Counts a fault, and returns whether it is printed.
    fn count(&mut self, told: Diagnostic, most: u32, now: Instant) -> bool {
        if self.end.is_none() {
            self.end = now.checked_add(Duration::from_secs(1));
        }
        if self.printed < most {
            self.printed = self.printed.saturating_add(1);
            return true;
        }
        self.left_out = self.left_out.saturating_add(1);
        self.last = Some(told);
        false
    }

    /// Returns the line that counts the faults that were left out, if any were, and begins anew.
    fn settle(&mut self) -> Option<ReportedLine> {
        let LineWindow { left_out, last, .. } = mem::replace(self, NONE);
        Some(ReportedLine::Count(left_out, last?))
    }
}

impl DiagnosticPrinter {
    /// Begins with no line printed.
    ///
    /// # Errors
    ///
    /// [`AllocError`] if memory runs out.
    pub fn new<R: Net>(alloc: Global, rt: &R, most: u32) -> Result<DiagnosticPrinter, AllocError> {
        Ok(DiagnosticPrinter {
            most,
            tallies: [NONE; FaultKind::COUNT],
            output: StandardError::new(alloc, rt)?,
            lost: 0,
        })
    }

    /// Prints a fault, or counts it as left out. The members' names are in the order of their places.
    pub fn tell<R: Clock + Eprint>(&mut self, rt: &R, members: &[Text], told: Diagnostic) {
        let Ok(now) = Instant::now(rt) else {
            return self.print(rt, members, Some(ReportedLine::One(told)));
        };
        let kind = told.fault.kind();
        self.settle_kind(rt, members, kind, Some(now));
        let tally = &mut self.tallies[kind as usize];
        if tally.count(told, self.most, now) {
            self.print(rt, members, Some(ReportedLine::One(told)));
        }
    }

    /// Returns whether a line of at most 4,096 bytes finds room.
    pub fn has_room(&mut self) -> bool {
        self.output.has_room()
    }

    /// Returns whether a line finds room, after printing how many faults weren't told.
    fn makes_room<R: Clock + Eprint>(&mut self, rt: &R, members: &[Text]) -> bool {
        if !self.output.has_room() {
            return false;
        }
        if self.lost == 0 {
            return true;
        }
        let lost = Diagnostic {
            fault: Fault::LinesLost(mem::replace(&mut self.lost, 0)),
            peer: None,
        };
        ReportedLine::One(lost).print(rt, members);
        self.output.has_room()
    }

    /// Prints a line, if there is one and it finds room.
    fn print<R: Clock + Eprint>(&mut self, rt: &R, members: &[Text], line: Option<ReportedLine>) {
        let Some(line) = line else {
            return;
        };
        if self.makes_room(rt, members) {
            line.print(rt, members);
        } else {
            self.lost = self.lost.saturating_add(line.count());
        }
    }

    /// Prints how many faults of a kind were left out, if its second is over by `now`, or in any case if `now` is none.
    fn settle_kind<R: Clock + Eprint>(
        &mut self,
        rt: &R,
        members: &[Text],
        kind: FaultKind,
        now: Option<Instant>,
    ) {
        let tally = &mut self.tallies[kind as usize];
        let is_due = match now {
            Some(now) => tally.is_over(now),
            None => true,
        };
        if is_due {
            let line = tally.settle();
            self.print(rt, members, line);
        }
    }

    /// Prints how many faults were left out of each kind whose second is over by now, and how many faults weren't told.
    pub fn settle<R: Clock + Eprint>(&mut self, rt: &R, members: &[Text], now: Instant) {
        for kind in &FaultKind::ALL {
            self.settle_kind(rt, members, *kind, Some(now));
        }
        if self.lost > 0 {
            self.makes_room(rt, members);
        }
    }

    /// Prints how many faults were left out of each kind.
    pub fn settle_all<R: Clock + Eprint>(&mut self, rt: &R, members: &[Text]) {
        for kind in &FaultKind::ALL {
            self.settle_kind(rt, members, *kind, None);
        }
    }

    /// Returns the time until a count of faults that were left out is due, or until the next look for room.
    pub fn left(&self, now: Instant) -> Option<Duration> {
        let mut left = (self.lost > 0).then_some(Duration::from_millis(LOOK_EVERY));
        for tally in &self.tallies {
            if let (Some(end), Some(_)) = (tally.end, tally.last) {
                let due = end.saturating_duration_since(now);
                left = Some(left.unwrap_or(due).min(due));
            }
        }
        left
    }
}
