//! The advance of a member's time ahead of the time that has passed, and the Ticks that are held back for it.

ghost use Rattle.std.specs.Prelude.{◌≡◌, ◌-◌, ◌<◌, ◌↔◌, IsSome};
ghost use Rattle.std.specs.Duration.{as_nanos};
ghost use Rattle.std.specs.Time.{instant_nanos};
ghost use Rattle.am_peers.specs.Moments.{before_1970, later_moment};
ghost use Rattle.am_diagnostics.specs.Advances.{IsFarAhead, advance};
ghost use Rattle.am_diagnostics.specs.declared.advance.TickVerdict.TheVariants as verdicts;

use crate::clock::is_before;
use crate::fault::Fault;
use am_peers::later_moment;
use am_version_order::Moment;
use std::rt::Clock;
use std::time::{Duration, Instant};

/// The time in seconds after which a member tells again that its time is far ahead.
const AGAIN: u64 = 60;

/// The verdict on a Tick that is due.
#[derive(Clone, Copy)]
pub enum TickVerdict {
    /// The Tick is made.
    Made,
    /// The Tick isn't made, since its moment is too far ahead of the time that has passed.
    HeldBack,
}

/// Returns the verdict on a Tick whose moment is `ahead` of the time that has passed.
pub fn judge_tick(ahead: Duration, retention: Duration) -> TickVerdict
    // PROMISE: A Tick is held back just if its moment is ahead of the time that has passed by more than the retention.
    ensures held_back { (result ≡ verdicts.HeldBack) ↔ (as_nanos retention < as_nanos ahead) }
{
    if retention.as_nanos() < ahead.as_nanos() {
        TickVerdict::HeldBack
    } else {
        TickVerdict::Made
    }
}

/// Returns the time from 1970 to a moment, or zero for an earlier moment.
fn since_1970(moment: Moment) -> Duration
    ensures { as_nanos result ≡ moment - before_1970 }
{
    let (seconds, nanos) = moment.parts();
    if seconds < 0 {
        Duration::ZERO
    } else {
        Duration::new(seconds as u64, nanos)
    }
}

/// A reading of a clock, as the time since 1970, and the instant of the reading.
#[derive(Clone, Copy)]
struct ClockReading {
    since_1970: Duration,
    at: Instant,
}

impl ClockReading {
    /// Reads both clocks now, if they can be read.
    fn now<C: Clock>(clock: &C) -> Option<ClockReading> {
        let at = Instant::now(clock).ok()?;
        let since_1970 = clock.since_1970().ok()?;
        Some(ClockReading { since_1970, at })
    }

    /// Returns the time by which a moment is ahead of this reading and the time that has passed since.
    fn advance(&self, moment: Moment, now: Instant) -> Duration
        ensures { as_nanos result ≡ advance self.now moment (instant_nanos now) }
    {
        let passed = now.saturating_duration_since(self.at);
        since_1970(moment).saturating_sub(self.since_1970.saturating_add(passed))
    }
}

/// The watch on how far the clock goes ahead.
#[derive(Clone, Copy)]
pub struct Advance {
    /// The most time that the clock may go ahead at once.
    retention: Duration,
    /// The last reading that was believed.
    believed: Option<ClockReading>,
    /// The moment when the member tells next that its time is far ahead, while it is.
    next: Option<Instant>,
}

impl Advance {
    /// Begins with what the clock says now, which is believed.
    pub fn begin<C: Clock>(clock: &C, retention: Duration) -> Advance
        ensures { result.retention ≡ retention }
    {
        Advance {
            retention,
            believed: ClockReading::now(clock),
            next: None,
        }
    }

    /// Returns the verdict on a Tick at a moment.
    pub fn judge(&self, moment: Moment, now: Instant) -> TickVerdict
        ensures held_back { (result ≡ verdicts.HeldBack) ↔ IsFarAhead self.now.believed (as_nanos self.now.retention) moment (instant_nanos now) }
    {
        match &self.believed {
            Some(reading) => judge_tick(reading.advance(moment, now), self.retention),
            None => TickVerdict::Made,
        }
    }

    /// Believes what the clock says, as the time since 1970, unless it went far ahead.
    fn believe(&mut self, since_1970: Duration, now: Instant)
        ensures far { IsFarAhead self.old.believed (as_nanos self.old.retention) (later_moment (as_nanos since_1970) 0) (instant_nanos now) → self.new ≡ self.old }
        ensures near { ¬ IsFarAhead self.old.believed (as_nanos self.old.retention) (later_moment (as_nanos since_1970) 0) (instant_nanos now)
            → self.new ≡ record self.old { believed = Some (record { since_1970 = since_1970; at = now }) } }
    {
        if let TickVerdict::Made = self.judge(later_moment(since_1970, Moment::LEAST), now) {
            self.believed = Some(ClockReading {
                since_1970,
                at: now,
            });
        }
    }

    /// Returns the number of seconds by which a moment is far ahead, if it is.
    fn seconds_far(&self, moment: Moment, now: Instant) -> Option<u64>
        ensures { IsSome result ↔ IsFarAhead self.now.believed (as_nanos self.now.retention) moment (instant_nanos now) }
    {
        let TickVerdict::HeldBack = self.judge(moment, now) else {
            return None;
        };
        let reading = self.believed?;
        Some(reading.advance(moment, now).as_secs())
    }

    /// Compares what the clock says, as the time since 1970, with the moment of the last event, and returns the fault to tell, if
    /// there is one.
    pub fn look(&mut self, since_1970: Duration, last: Moment, now: Instant) -> Option<Fault>
        ensures far { IsSome result → IsFarAhead self.new.believed (as_nanos self.old.retention) (later_moment (as_nanos since_1970) last) (instant_nanos now) }
    {
        self.believe(since_1970, now);
        let Some(seconds) = self.seconds_far(later_moment(since_1970, last), now) else {
            self.next = None;
            return None;
        };
        if is_before(now, self.next) {
            return None;
        }
        self.next = now.checked_add(Duration::from_secs(AGAIN));
        Some(Fault::ClockAhead(seconds))
    }
}
