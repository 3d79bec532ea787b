//! The duties of a member, and when they are due.

use std::time::{Duration, Instant};

/// The time in milliseconds between two checks whether the member is told to end.
const SIGNAL_EVERY: u64 = 100;

/// The time in milliseconds between two checks whether the clock is behind the member's last moment.
const CLOCK_EVERY: u64 = 1_000;

/// The time in milliseconds after which a member asks its peers again for everything they have, as long as none has answered.
const ASK_EVERY: u64 = 1_000;

/// The least time in milliseconds between two Ticks, however many peers ask for one.
const TICK_AT_MOST_EVERY: u64 = 1_000;

/// The most milliseconds between two looks for requests that wait for the first pull and whose time is nearly over.
const HURRY_EVERY: u64 = 100;

/// Returns whether a moment has come; `true` if there is none.
fn is_reached(moment: Option<Instant>, now: Instant) -> bool {
    match moment {
        Some(moment) => moment <= now,
        None => true,
    }
}

/// A timer for something that is done at intervals.
#[derive(Clone, Copy)]
struct Timer {
    every: Duration,
    next: Option<Instant>,
}

impl Timer {
    /// Returns a timer that is first due at a moment, or never if there is none.
    fn from(next: Option<Instant>, every: Duration) -> Timer {
        Timer { every, next }
    }

    /// Returns a timer that is due every `every` from now on, or never if no time is given.
    fn every(now: Instant, every: Option<Duration>) -> Timer {
        match every {
            Some(every) => Timer::from(now.checked_add(every), every),
            None => Timer::from(None, Duration::from_millis(ASK_EVERY)),
        }
    }

    /// Returns whether the timer is due, and sets it anew if it is.
    fn is_due(&mut self, now: Instant) -> bool {
        let Some(next) = self.next else {
            return false;
        };
        if now < next {
            return false;
        }
        self.next = now.checked_add(self.every);
        true
    }

    /// Returns the time until the timer is due, but no more than `most`.
    fn left(&self, now: Instant, most: Option<Duration>) -> Option<Duration> {
        let Some(next) = self.next else {
            return most;
        };
        let left = next.saturating_duration_since(now);
        match most {
            Some(most) => Some(left.min(most)),
            None => Some(left),
        }
    }
}

/// The intervals of a member's duties; none for a duty that the member doesn't do by itself.
#[derive(Clone, Copy)]
pub struct Intervals {
    /// The interval at which the member drops what has expired.
    pub tick: Option<Duration>,
    /// The interval at which the member asks its peers for everything they have.
    pub pull: Option<Duration>,
    /// The interval at which the member saves.
    pub save: Option<Duration>,
    /// The most time for which the member answers nothing before a peer has answered, if it waits for that.
    pub first_pull: Option<Duration>,
}

/// The timers of a member's duties.
#[derive(Clone, Copy)]
pub struct Timers {
    tick: Timer,
    /// True if a peer asked for a Tick.
    is_tick_requested: bool,
    /// The moment before which the member makes no Tick that a peer asks for.
    next_tick: Option<Instant>,
    pull: Timer,
    pull_every: Option<Duration>,
    save: Timer,
    signal: Timer,
    clock: Timer,
    /// The moment until which nothing is answered before a peer has answered.
    first_pull: Option<Instant>,
}

impl Timers {
    /// Starts all timers; `signals` says whether the member is to look for signals.
    pub fn new(intervals: &Intervals, signals: bool, now: Instant) -> Timers {
        let mut duties = Timers {
            tick: Timer::every(now, intervals.tick),
            is_tick_requested: false,
            next_tick: None,
            pull: Timer::every(now, intervals.pull),
            pull_every: intervals.pull,
            save: Timer::every(now, intervals.save),
            signal: Timer::every(now, signals.then_some(Duration::from_millis(SIGNAL_EVERY))),
            clock: Timer::every(now, Some(Duration::from_millis(CLOCK_EVERY))),
            first_pull: None,
        };
        if let Some(limit) = intervals.first_pull {
            duties.pull = Timer::from(Some(now), Duration::from_millis(ASK_EVERY));
            duties.first_pull = now.checked_add(limit);
        }
        duties
    }

    /// Returns whether nothing is answered yet, since no peer has answered.
    pub fn waits_for_pull(&self) -> bool {
        self.first_pull.is_some()
    }

    /// Notes that a peer has answered, or is no longer waited for: from now on the member pulls at its interval.
    pub fn end_first_pull(&mut self, now: Instant) {
        if self.first_pull.is_some() {
            self.first_pull = None;
            self.pull = Timer::every(now, self.pull_every);
        }
    }

    /// Notes that a peer asks for a Tick, if it does.
    pub fn request_tick(&mut self, asks: bool) {
        self.is_tick_requested |= asks;
    }

    /// Returns whether a Tick is due, by its timer or because a peer asked for one.
    pub fn is_tick_due(&mut self, now: Instant) -> bool {
        let own = self.tick.is_due(now);
        let next = self.next_tick;
        if !own && !(self.is_tick_requested && is_reached(next, now)) {
            return false;
        }
        self.is_tick_requested = false;
        self.next_tick = now.checked_add(Duration::from_millis(TICK_AT_MOST_EVERY));
        true
    }

    /// Returns when the Tick is due that a peer asked for, if one did.
    fn requested_tick(&self, now: Instant) -> Option<Instant> {
        if self.is_tick_requested {
            Some(self.next_tick.unwrap_or(now))
        } else {
            None
        }
    }

    /// Returns whether a save is due.
    pub fn is_save_due(&mut self, now: Instant) -> bool {
        self.save.is_due(now)
    }

    /// Returns whether peers are to be asked for everything they have.
    pub fn is_pull_due(&mut self, now: Instant) -> bool {
        self.pull.is_due(now)
    }

    /// Returns whether the member is to look for signals.
    pub fn is_signal_due(&mut self, now: Instant) -> bool {
        self.signal.is_due(now)
    }

    /// Returns whether the member is to look at the clock.
    pub fn is_clock_due(&mut self, now: Instant) -> bool {
        self.clock.is_due(now)
    }

    /// Returns whether no peer has answered in time.
    pub fn is_first_pull_over(&self, now: Instant) -> bool {
        match self.first_pull {
            Some(end) => end <= now,
            None => false,
        }
    }

    /// Returns the time until something is due.
    pub fn left(&self, now: Instant) -> Option<Duration> {
        let requested_tick = Timer::from(self.requested_tick(now), Duration::ZERO);
        let mut left = None;
        for timer in [
            self.tick,
            requested_tick,
            self.pull,
            self.save,
            self.signal,
            self.clock,
        ] {
            left = timer.left(now, left);
        }
        match self.first_pull {
            Some(end) => {
                let most = end
                    .saturating_duration_since(now)
                    .min(Duration::from_millis(HURRY_EVERY));
                Some(left.unwrap_or(most).min(most))
            }
            None => left,
        }
    }
}
