//! The moment of the next event.

ghost use Rattle.std.specs.Prelude.{◌≡◌, ◌+◌, ◌<◌, ◌≤◌, ◌↔◌, IsTrue};
ghost use Rattle.std.specs.Duration.{as_nanos};
ghost use Rattle.am_peers.specs.Moments.{clock_moment, later_moment};

use am_version_order::{Interval, Moment};
use std::rt::Clock;
use std::time::Duration;

/// Converts a time since 1970 to a moment, or to the last moment if it is past that.
fn clock_moment(since_1970: Duration) -> Moment
    ensures { result ≡ clock_moment (as_nanos since_1970) }
{
    let epoch = Moment::from_parts(0, 0).unwrap();
    let second = Interval::from_seconds(1).unwrap();
    let Some(whole) = epoch.checked_add_times(second, since_1970.as_secs()) else {
        return Moment::GREATEST;
    };
    match Interval::from_nanos(since_1970.subsec_nanos().into()) {
        Some(rest) => whole.capped_add(rest),
        None => whole,
    }
}

/// Returns the later of a clock's time since 1970 and the moment of the last event.
pub fn later_moment(since_1970: Duration, last: Moment) -> Moment
    ensures { result ≡ later_moment (as_nanos since_1970) last }
{
    clock_moment(since_1970).max(last)
}

/// Returns the moment of the next event: the later of the clock's time and the last event's moment, or the last event's moment if
/// the clock can't be read.
pub fn next_moment<C: Clock>(clock: &C, last: Moment) -> Moment
    ensures { last ≤ result }
{
    match clock.since_1970() {
        Ok(since_1970) => later_moment(since_1970, last),
        Err(_) => last,
    }
}

/// Returns whether a clock's time since 1970 is more than a second behind the moment of the last event.
pub fn is_behind(since_1970: Duration, last: Moment) -> bool
    ensures { IsTrue result ↔ (clock_moment (as_nanos since_1970) + 1_000_000_000 < last) }
{
    let second = Interval::from_seconds(1).unwrap();
    clock_moment(since_1970).capped_add(second) < last
}
