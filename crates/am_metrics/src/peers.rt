//! The counts of what is sent to peers and of what comes from them.

use crate::counters::Counters;
use crate::words::{CauseLabel, CounterLabel};
use std::alloc::{AllocError, Global};
use std::time::Duration;

/// A peer and its place among the members.
#[derive(Clone, Copy)]
pub struct PeerName<'a> {
    pub place: usize,
    pub name: &'a str,
}

/// The counts of what is sent to the members and of what comes from them, by place.
#[derive(Drop)]
pub struct PeerCounts {
    /// The number of frames handed to links.
    pub sent: Counters,
    /// The number of those that are not known to have gone out.
    flying: Counters,
    /// The number that was handed on last.
    latest: Counters,
    /// The number of lost frames, by cause.
    lost: Counters,
    /// The number of frames that came.
    pub taken: Counters,
    /// The moment when something was last taken, in nanoseconds since 1970; 0 if nothing was.
    last: Counters,
}

/// Returns the place of the counter for a member and a cause.
fn counter_of(place: usize, cause: CauseLabel) -> usize {
    let first = place.saturating_mul(CauseLabel::ALL.len());
    first.saturating_add(cause.place())
}

impl PeerCounts {
    /// Creates the counts of `members` members, all at 0.
    pub fn new(alloc: Global, members: usize) -> Result<PeerCounts, AllocError> {
        let causes = members.saturating_mul(CauseLabel::ALL.len());
        Ok(PeerCounts {
            sent: Counters::new(alloc, members)?,
            flying: Counters::new(alloc, members)?,
            latest: Counters::new(alloc, members)?,
            lost: Counters::new(alloc, causes)?,
            taken: Counters::new(alloc, members)?,
            last: Counters::new(alloc, members)?,
        })
    }

    /// Counts frames handed to the link of a member.
    pub fn hand_on(&mut self, place: usize, count: u64) {
        self.sent.add(place, count);
        self.flying.add(place, count);
        let _ = self.latest.clear(place);
        self.latest.add(place, count);
    }

    /// Notes that all frames handed to the link of a member went out.
    pub fn all_out(&mut self, place: usize) {
        let _ = self.flying.clear(place);
    }

    /// Counts the frames that waited for a member as lost. If a link takes no more, these are the ones handed on last.
    pub fn lose(&mut self, place: usize, cause: CauseLabel) {
        let flying = self.flying.clear(place);
        let latest = self.latest.get(place).min(flying);
        let lost = if matches!(cause, CauseLabel::Full) {
            self.flying.add(place, flying - latest);
            latest
        } else {
            flying
        };
        self.add_lost(place, cause, lost);
    }

    /// Counts lost frames for a member.
    pub fn add_lost(&mut self, place: usize, cause: CauseLabel, count: u64) {
        self.lost.add(counter_of(place, cause), count);
    }

    /// Returns the number of frames for a member that were lost by a cause.
    pub fn lost(&self, place: usize, cause: CauseLabel) -> u64 {
        self.lost.get(counter_of(place, cause))
    }

    /// Counts frames from a member.
    pub fn take(&mut self, place: usize, count: u64) {
        self.taken.add(place, count);
    }

    /// Notes that something from a member was taken now: a frame, or a whole answer.
    pub fn hear(&mut self, place: usize, since_1970: Duration) {
        let nanos = u64::try_from(since_1970.as_nanos()).unwrap_or(u64::MAX);
        let _ = self.last.clear(place);
        self.last.add(place, nanos);
    }

    /// Returns the moment when something from a member was last taken, in nanoseconds since 1970, or 0 if nothing was.
    pub fn last(&self, place: usize) -> u64 {
        self.last.get(place)
    }
}
