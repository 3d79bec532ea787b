//! The watch on a clock that is behind the moment of the last event.

use crate::fault::Fault;
use am_peers::{is_behind, later_moment};
use am_version_order::Moment;
use std::time::{Duration, Instant};

/// The time in seconds after which a member tells again that its clock is behind.
const AGAIN: u64 = 60;

/// The watch on a clock.
#[derive(Clone, Copy)]
pub struct ClockWatch {
    /// The moment when the member tells next that the clock is behind, while it is.
    next: Option<Instant>,
}

/// Returns the number of seconds by which a clock is behind a moment.
fn seconds_behind(since_1970: Duration, last: Moment) -> u64 {
    let clock = later_moment(since_1970, Moment::LEAST);
    let (last, _) = last.parts();
    let (now, _) = clock.parts();
    last.saturating_sub(now).unsigned_abs()
}

/// Returns whether a moment is before another one, if there is one.
pub(crate) fn is_before(now: Instant, next: Option<Instant>) -> bool {
    match next {
        Some(next) => now < next,
        None => false,
    }
}

impl ClockWatch {
    /// Returns a watch that has told nothing yet.
    pub fn new() -> ClockWatch {
        ClockWatch { next: None }
    }

    /// Compares what the clock says, as the time since 1970, with the moment of the last event, and returns the fault to tell, if
    /// there is one.
    pub fn look(&mut self, since_1970: Duration, last: Moment, now: Instant) -> Option<Fault> {
        let next = self.next;
        if !is_behind(since_1970, last) {
            self.next = None;
            return match next {
                Some(_) => Some(Fault::ClockCaughtUp),
                None => None,
            };
        }
        if is_before(now, next) {
            return None;
        }
        self.next = now.checked_add(Duration::from_secs(AGAIN));
        Some(Fault::ClockBehind(seconds_behind(since_1970, last)))
    }
}
