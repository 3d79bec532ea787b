//! Moments and intervals.

ghost use Rattle.std.specs.Prelude.{◌≡◌, ℕ, ◌<◌, IfSome};
ghost use Rattle.am_schedule.specs.Numbers.{seconds_in};
ghost use Rattle.am_schedule.specs.Times.{moment_behind, whole_moment_in, fraction_in, moment_in};

use crate::numbers::{count, number_within};
use am_version_order::{Interval, Moment};

/// The number of seconds from 1970-01-01T00:00:00Z to the second of the last moment.
const LAST_SECOND: u64 = 253_402_300_799;

/// Reads an interval of 1 to 999,999,999 seconds.
pub(crate) fn seconds(word: &str) -> Option<Interval>
    ensures { result ≡ seconds_in word.now }
{
    Interval::from_seconds(number_within(1, 999_999_999, word)?)
}

/// Returns the moment `nanos` nanoseconds after a whole number of seconds since 1970.
fn moment_behind(nanos: u32, digits: &str) -> Option<Moment>
    requires { nanos < 1_000_000_000 }
    ensures { result ≡ moment_behind nanos digits.now }
{
    let seconds = number_within(0, LAST_SECOND, digits)?;
    Moment::from_parts(seconds as i64, nanos)
}

/// Reads a moment in whole seconds since 1970.
#[tactic(auto, unfolding(crate::specs::Times::whole_moment_in))]
pub(crate) fn whole_moment(word: &str) -> Option<Moment>
    ensures { result ≡ whole_moment_in word.now }
{
    moment_behind(0, word)
}

/// Returns the nanoseconds of a fraction of 1 to 9 digits.
#[tactic(auto, unfolding(crate::specs::Times::fraction_in))]
fn fraction(digits: &str) -> Option<u32>
    ensures value { result ≡ fraction_in digits.now }
    ensures below_second { IfSome result (λ nanos. nanos < 1_000_000_000) }
{
    if digits.len() > 9 {
        return None;
    }
    let number = count(digits)?;
    let scale = 10u64.pow(9 - digits.len() as u32);
    Some((number * scale) as u32)
}

/// Reads a moment in seconds since 1970, with a fraction of 1 to 9 digits if there is a point.
#[tactic(auto, unfolding(crate::specs::Times::moment_in))]
pub(crate) fn moment(word: &str) -> Option<Moment>
    ensures { result ≡ moment_in word.now }
{
    match word.split_once('.') {
        Some((whole, digits)) => moment_behind(fraction(digits)?, whole),
        None => moment_behind(0, word),
    }
}
