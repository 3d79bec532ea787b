//! Writing the texts of moments.

ghost use Rattle.std.specs.Prelude.{◌≡◌, ◌<◌, ◌≤◌, ◌+◌, ◌*◌, pos, ◌+ℤ◌, ◌*ℤ◌, ◌≤ℤ◌};
ghost use Rattle.jiff_core.specs.Date.{epoch_day};
ghost use Rattle.am_version_order.specs.Moments.{seconds_before_1970};
ghost use Rattle.am_silence_json.specs.Clocks.{IsReal, clock_seconds};
ghost use Rattle.am_silence_json.specs.Written.{WritesMoment, written_text};

use crate::moments::clock::Clock;
use am_version_order::Moment;
use jiff_core::civil::Date;
use std::marker::Model;
use std::str;

/// The number of seconds from the first moment, 0001-01-01T00:00:00Z, to 1970.
const SECONDS_BEFORE_1970: i64 = 62_135_596_800;

/// The number of days from the calendar's first date to 0001-01-01.
const DAYS_BEFORE_YEAR_1: u32 = 3_652_425;

/// The 24 bytes of a moment's text, which contracts see as a list.
#[derive(Clone, Copy)]
pub struct MomentText {
    bytes: [u8; 24],
}

impl Model for MomentText {
    ghost use Rattle.std.specs.Prelude.{List, ℕ};
    ghost use Rattle.std.specs.Str.{IsUtf8};

    ghost Value = { List ℕ };

    ghost view = { λ text. text.bytes };

    ghost invariant = { λ text. IsUtf8 text.bytes };

    ghost inverse = { λ bytes. record { bytes = bytes } };
}

impl MomentText {
    /// Returns the text.
    pub fn as_str(&self) -> &str
        ensures { result.now ≡ self.now }
    {
        // SAFETY: the bytes are UTF-8.
        unsafe { str::from_utf8_unchecked(&self.bytes) }
    }
}

/// Returns the reading of a clock on a date, at a second of the day.
fn clock_of(date: Date, second: u32) -> Clock
    requires year_in { pos 0 ≤ℤ date.year }
    requires second_in { second < 86400 }
    ensures real { IsReal result }
    ensures value { clock_seconds result ≡ (epoch_day date *ℤ pos 86400) +ℤ pos second }
    ensures bound { (result.year < 10000) × (result.month < 100) × (result.day < 100) }
{
    Clock {
        year: date.year as u16,
        month: date.month,
        day: date.day,
        hour: (second / 3600) as u8,
        minute: (second / 60 % 60) as u8,
        second: (second % 60) as u8,
    }
}

/// Returns the reading of a clock in UTC a number of seconds after the first moment.
fn clock_at(seconds: u64) -> Clock
    requires { seconds < 315_537_897_600 }
    ensures real { IsReal result }
    ensures value { clock_seconds result +ℤ pos seconds_before_1970 ≡ pos seconds }
    ensures bound { (result.year < 10000) × (result.month < 100) × (result.day < 100) }
{
    let days = (seconds / 86_400) as u32;
    let second = (seconds % 86_400) as u32;
    clock_of(Date::from_days_since_min(days + DAYS_BEFORE_YEAR_1), second)
}

/// Converts seconds since 1970 into seconds since the first moment.
fn since_least(seconds: i64) -> u64
    requires not_before { pos 0 ≤ℤ (seconds +ℤ pos seconds_before_1970) }
    requires not_after { seconds ≤ℤ pos 253_402_300_799 }
    ensures { pos result ≡ seconds +ℤ pos seconds_before_1970 }
{
    (seconds + SECONDS_BEFORE_1970) as u64
}

/// Returns the digit of a number below 10.
fn digit(n: u8) -> u8
    requires { n < 10 }
    ensures { result ≡ 48 + n }
{
    b'0' + n
}

/// Returns the bytes for the reading of a clock in UTC and milliseconds.
fn bytes_of(clock: Clock, millis: u16) -> [u8; 24]
    requires real { IsReal clock }
    requires millis_in { millis < 1000 }
    requires date_in { (clock.year < 10000) × (clock.month < 100) × (clock.day < 100) }
    ensures { result ≡ written_text clock millis }
{
    let (century, year) = ((clock.year / 100) as u8, (clock.year % 100) as u8);
    let (tenths, rest) = ((millis / 100) as u8, (millis % 100) as u8);
    [
        digit(century / 10),
        digit(century % 10),
        digit(year / 10),
        digit(year % 10),
        b'-',
        digit(clock.month / 10),
        digit(clock.month % 10),
        b'-',
        digit(clock.day / 10),
        digit(clock.day % 10),
        b'T',
        digit(clock.hour / 10),
        digit(clock.hour % 10),
        b':',
        digit(clock.minute / 10),
        digit(clock.minute % 10),
        b':',
        digit(clock.second / 10),
        digit(clock.second % 10),
        b'.',
        digit(tenths),
        digit(rest / 10),
        digit(rest % 10),
        b'Z',
    ]
}

/// Returns the text of a moment: `YYYY-MM-DDTHH:MM:SS.mmmZ`, in UTC, with the nanoseconds cut to milliseconds. This takes no
/// memory.
pub fn write_moment(moment: Moment) -> MomentText
    ensures { WritesMoment moment result }
{
    let (seconds, nanos) = moment.parts();
    let clock = clock_at(since_least(seconds));
    let bytes = bytes_of(clock, (nanos / 1_000_000) as u16);
    MomentText { bytes }
}
