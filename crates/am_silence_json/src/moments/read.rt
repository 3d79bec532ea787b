//! Reading moments from their texts.

ghost use Rattle.std.specs.Prelude.{◌≡◌, ◌<◌, ◌≤◌, ◌*◌, ◌^◌, ℕ, pos, ◌+ℤ◌, IfSome, Some};
ghost use Rattle.jiff_core.specs.Date.{IsYmd};
ghost use Rattle.am_silence_json.specs.Clocks.{clock_seconds, second_of_day};
ghost use Rattle.am_silence_json.specs.declared.moments.read.DateTime.{DateTime};
ghost use Rattle.am_silence_json.specs.Zones.{offset_size};
ghost use Rattle.am_silence_json.specs.Moments.{IsMomentOf, IsDateTime, ReadsMoment, utc_seconds};

use crate::moments::clock::{Clock, read_clock};
use crate::moments::fraction::{Fraction, read_fraction};
use crate::moments::zone::{Offset, read_zone};
use am_version_order::Moment;
use jiff_core::civil::Date;

/// The parts of a moment's text.
#[derive(Clone, Copy)]
struct DateTime {
    clock: Clock,
    fraction: Fraction,
    offset: Offset,
}

/// The number of days from the calendar's first date to 1970-01-01, plus one, so that no offset leads below 0.
const DAYS_BEFORE_1970: u64 = 4_371_588;

/// The number of seconds in those days.
const SECONDS_BEFORE_1970: i64 = 377_705_203_200;

/// Returns the seconds since the midnight `DAYS_BEFORE_1970` days before 1970 at which a clock in UTC has this reading.
fn shown_seconds(date: Date, clock: Clock) -> u64
    requires date_in { IsYmd (pos clock.year) (pos clock.month) (pos clock.day) date }
    requires time_in { second_of_day clock < 86400 }
    ensures value { pos result ≡ clock_seconds clock +ℤ pos (86400 * DAYS_BEFORE_1970) }
    ensures low { 86400 ≤ result }
    ensures high { result < 2 ^ 40 }
{
    let days = date.days_since_min() as u64 + 1;
    days * 86_400 + clock.second_of_day() as u64
}

/// Returns the seconds since 1970 in UTC at which a clock with this offset has this reading.
fn utc_seconds(date: Date, clock: Clock, offset: Offset) -> i64
    requires date_in { IsYmd (pos clock.year) (pos clock.month) (pos clock.day) date }
    requires time_in { second_of_day clock < 86400 }
    requires offset_in { offset_size offset < 86400 }
    ensures { result ≡ utc_seconds clock offset }
{
    let shown = shown_seconds(date, clock);
    let size = offset.size() as u64;
    if offset.behind {
        (shown + size) as i64 - SECONDS_BEFORE_1970
    } else {
        (shown - size) as i64 - SECONDS_BEFORE_1970
    }
}

/// Returns the moment at which a clock with this offset has this reading, if it is one.
fn moment_of(clock: Clock, nanos: u32, offset: Offset) -> Option<Moment>
    requires date_in { (clock.year < 10000) × (clock.month < 100) × (clock.day < 100) }
    requires offset_in { offset_size offset < 86400 }
    ensures value { IfSome result (IsMomentOf clock nanos offset) }
    ensures only { (m : ℕ) → IsMomentOf clock nanos offset m → result ≡ Some m }
{
    if clock.hour >= 24 || clock.minute >= 60 || clock.second >= 60 {
        return None;
    }
    match Date::new(clock.year as i16, clock.month as i8, clock.day as i8) {
        Ok(date) => Moment::from_parts(utc_seconds(date, clock, offset), nanos),
        Err(_) => None,
    }
}

/// Reads the date-time in the text.
fn read_date_time(text: &[u8]) -> Option<DateTime>
    ensures value { IfSome result (IsDateTime text.now) }
    ensures only { (d : DateTime) → IsDateTime text.now d → result ≡ Some d }
    ensures date_in { IfSome result (λ d. (d.clock.year < 10000) × (d.clock.month < 100) × (d.clock.day < 100)) }
    ensures offset_in { IfSome result (λ d. offset_size d.offset < 86400) }
{
    if text.len() < 19 {
        return None;
    }
    let clock = read_clock(text)?;
    let (_, tail) = text.split_at(19);
    let fraction = read_fraction(tail)?;
    let (_, zone) = tail.split_at(fraction.size);
    let offset = read_zone(zone)?;
    Some(DateTime {
        clock,
        fraction,
        offset,
    })
}

/// Reads the moment in a text: `YYYY-MM-DD`, `T` or `t`, `HH:MM:SS`, optionally a point and digits, which count to the
/// nanosecond, and `Z`, `z`, `+HH:MM` or `-HH:MM` (RFC 3339, section 5.6, without leap seconds). Returns `None` if the text is not
/// of
/// this form, or if its moment is before the year 1 or after the year 9999 in UTC. This takes no memory.
pub fn read_moment(text: &str) -> Option<Moment>
    // PROMISE: A moment's text is read as the moment that it spells.
    ensures value { IfSome result (ReadsMoment text.now) }
    ensures only { (m : ℕ) → ReadsMoment text.now m → result ≡ Some m }
{
    let spelled = read_date_time(text.as_bytes())?;
    moment_of(spelled.clock, spelled.fraction.nanos, spelled.offset)
}
