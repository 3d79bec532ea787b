//! The progress of playing a schedule, for people.

use crate::play::PlayerRuntime;
use am_diagnostics::Audience;
use am_replay::Observer;
use std::time::{Duration, Instant};

/// The time, in milliseconds, for which nothing is shown.
const FIRST: u64 = 1_000;

/// The time between two updates, in milliseconds.
const NEXT: u64 = 200;

/// A display on standard error that shows a person the progress of the playing if it takes more than a second.
#[derive(Drop)]
pub struct Display<'a, H> {
    rt: &'a H,
    /// The moment of the next update, if there is to be one.
    due: Option<Instant>,
    is_shown: bool,
}

/// Returns the moment that is `millis` milliseconds from now, if the clock can be read.
fn moment_after<H: PlayerRuntime>(rt: &H, millis: u64) -> Option<Instant> {
    match Instant::now(rt) {
        Ok(now) => now.checked_add(Duration::from_millis(millis)),
        Err(_) => None,
    }
}

impl<'a, H: PlayerRuntime> Display<'a, H> {
    /// Returns the display of a replay. It shows something only to a person, and only once the replay has taken a while.
    pub fn new(rt: &'a H) -> Display<'a, H> {
        let due = match rt.audience() {
            Audience::Person => moment_after(rt, FIRST),
            Audience::Program => None,
        };
        Display {
            rt,
            due,
            is_shown: false,
        }
    }

    /// Removes what is shown.
    pub fn clear(&mut self) {
        if self.is_shown {
            let _ = eprint!(self.rt; "\r\x1b[K");
        }
        self.is_shown = false;
    }

    /// Returns whether the display is to be updated now.
    fn is_due(&self) -> bool {
        match (self.due, Instant::now(self.rt)) {
            (Some(due), Ok(now)) => now >= due,
            _ => false,
        }
    }
}

impl<H: PlayerRuntime> Observer for Display<'_, H> {
    fn is_at(&mut self, lines: usize, all: usize) {
        if self.due.is_none() {
            return;
        }
        if lines == all {
            self.clear();
        } else if self.is_due() {
            let _ = eprint!(self.rt; "\ram_tool: {lines} of {all} lines played");
            self.is_shown = true;
            self.due = moment_after(self.rt, NEXT);
        }
    }
}
