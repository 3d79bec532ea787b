//! The counts of a member.

ghost use Rattle.std.specs.Prelude.{◌≡◌};

use crate::beside::AlertmanagerCounts;
use crate::counters::Counters;
use crate::peers::PeerCounts;
use crate::saves::Save;
use crate::times::RequestTimes;
use crate::words::{
    CounterLabel, DecisionLabel, Failing, RequestLabel, STATUSES, SavedState, StepLabel,
    VersionKind, status_place,
};
use std::alloc::{AllocError, Global};
use std::time::{Duration, Instant};

/// The counts of a member.
pub struct Metrics {
    /// The moment when the member was started, as the time since 1970.
    pub start: Duration,
    requests: Counters,
    pub times: RequestTimes,
    pub steps: Counters,
    pub decisions: Counters,
    /// The frames that were sent, and those that came, by kind.
    pub sent: Counters,
    pub taken: Counters,
    pub heard: PeerCounts,
    pub beside: AlertmanagerCounts,
    /// The numbers of frames lost before a link took them, for want of memory and by the limit of a frame.
    pub unsent_memory: u64,
    pub unsent_limit: u64,
    /// The numbers of connections that began and that ended.
    pub begun: u64,
    pub ended: u64,
    pub failings: Counters,
    /// The number of connections that weren't accepted.
    pub not_accepted: u64,
    /// The saves of the silences and of the log.
    pub silences: Save,
    pub log: Save,
}

// Crates that use the figures cite this one drop, and need not prove those of their parts.
impl Drop for Metrics {
    fn drop(self) {
        let Metrics {
            start: _,
            requests: _,
            times: _,
            steps: _,
            decisions: _,
            sent: _,
            taken: _,
            heard: _,
            beside: _,
            unsent_memory: _,
            unsent_limit: _,
            begun: _,
            ended: _,
            failings: _,
            not_accepted: _,
            silences: _,
            log: _,
        } = self;
    }
}

/// Returns the place of the counter for a call and a status, which is at a place of [`STATUSES`].
fn counter_of(request: RequestLabel, status: usize) -> usize {
    let first = request.place().saturating_mul(STATUSES.len());
    first.saturating_add(status)
}

impl Metrics {
    /// Creates the figures of a member of `members`, all at 0.
    ///
    /// # Errors
    ///
    /// Returns [`AllocError`] if memory runs out.
    pub fn new(alloc: Global, members: usize, start: Duration) -> Result<Metrics, AllocError> {
        Ok(Metrics {
            start,
            requests: Counters::new(
                alloc,
                RequestLabel::ALL.len().saturating_mul(STATUSES.len()),
            )?,
            times: RequestTimes::new(alloc)?,
            steps: Counters::new(alloc, StepLabel::ALL.len())?,
            decisions: Counters::new(alloc, DecisionLabel::ALL.len())?,
            sent: Counters::new(alloc, VersionKind::ALL.len())?,
            taken: Counters::new(alloc, VersionKind::ALL.len())?,
            heard: PeerCounts::new(alloc, members)?,
            beside: AlertmanagerCounts::new(alloc, members)?,
            unsent_memory: 0,
            unsent_limit: 0,
            begun: 0,
            ended: 0,
            failings: Counters::new(alloc, Failing::ALL.len())?,
            not_accepted: 0,
            silences: Save::none(),
            log: Save::none(),
        })
    }

    /// Counts a request that was answered with a status, in three digits, and the time that it took.
    pub fn answer(&mut self, request: RequestLabel, status: &[u8], time: Duration)
        ensures memory { self.new.unsent_memory ≡ self.old.unsent_memory }
        ensures limit { self.new.unsent_limit ≡ self.old.unsent_limit }
    {
        self.requests
            .add(counter_of(request, status_place(status)), 1);
        self.times.add(request, time);
    }

    /// Returns the number of requests that were answered with the status at a place of [`STATUSES`].
    pub fn answered(&self, request: RequestLabel, status: usize) -> u64 {
        self.requests.get(counter_of(request, status))
    }

    /// Counts steps.
    pub fn step(&mut self, step: StepLabel, count: u64)
        ensures memory { self.new.unsent_memory ≡ self.old.unsent_memory }
        ensures limit { self.new.unsent_limit ≡ self.old.unsent_limit }
    {
        self.steps.add(step.place(), count);
    }

    /// Counts a decision that was answered.
    pub fn decide(&mut self, decision: DecisionLabel)
        ensures memory { self.new.unsent_memory ≡ self.old.unsent_memory }
        ensures limit { self.new.unsent_limit ≡ self.old.unsent_limit }
    {
        self.decisions.add(decision.place(), 1);
    }

    /// Counts a frame handed to a link.
    pub fn send(&mut self, kind: VersionKind) {
        self.sent.add(kind.place(), 1);
    }

    /// Counts a frame that came.
    pub fn take(&mut self, kind: VersionKind)
        ensures memory { self.new.unsent_memory ≡ self.old.unsent_memory }
        ensures limit { self.new.unsent_limit ≡ self.old.unsent_limit }
    {
        self.taken.add(kind.place(), 1);
    }

    /// Counts a connection closed before its end.
    pub fn fail(&mut self, failing: Failing)
        ensures memory { self.new.unsent_memory ≡ self.old.unsent_memory }
        ensures limit { self.new.unsent_limit ≡ self.old.unsent_limit }
    {
        self.failings.add(failing.place(), 1);
    }

    /// Counts a connection that began.
    pub fn begin(&mut self)
        ensures memory { self.new.unsent_memory ≡ self.old.unsent_memory }
        ensures limit { self.new.unsent_limit ≡ self.old.unsent_limit }
    {
        self.begun = self.begun.saturating_add(1);
    }

    /// Counts a connection that ended.
    pub fn end(&mut self)
        ensures memory { self.new.unsent_memory ≡ self.old.unsent_memory }
        ensures limit { self.new.unsent_limit ≡ self.old.unsent_limit }
    {
        self.ended = self.ended.saturating_add(1);
    }

    /// Counts a connection that wasn't accepted.
    pub fn miss(&mut self)
        ensures memory { self.new.unsent_memory ≡ self.old.unsent_memory }
        ensures limit { self.new.unsent_limit ≡ self.old.unsent_limit }
    {
        self.not_accepted = self.not_accepted.saturating_add(1);
    }

    /// Notes the beginning of a save.
    pub fn begin_save(&mut self, state: SavedState, now: Option<Instant>) {
        match state {
            SavedState::Silences => self.silences.begin(now),
            SavedState::Log => self.log.begin(now),
        }
    }

    /// Notes the end of a save.
    pub fn end_save(&mut self, state: SavedState, now: Option<Instant>, since_1970: Duration) {
        match state {
            SavedState::Silences => self.silences.end(now, since_1970),
            SavedState::Log => self.log.end(now, since_1970),
        }
    }

    /// Counts a failed save.
    pub fn fail_save(&mut self, state: SavedState) {
        match state {
            SavedState::Silences => self.silences.fail(),
            SavedState::Log => self.log.fail(),
        }
    }

    /// Counts frames that were lost before a link took them.
    pub fn unsent(&mut self, memory: usize, limit: usize) {
        self.unsent_memory = self.unsent_memory.saturating_add(memory as u64);
        self.unsent_limit = self.unsent_limit.saturating_add(limit as u64);
    }
}
