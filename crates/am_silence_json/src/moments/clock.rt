//! Dates and times of day.

ghost use Rattle.std.specs.Prelude.{◌≡◌, ◌↔◌, ◌<◌, IsTrue, IfSome, Some, slice_index};
ghost use Rattle.am_silence_json.specs.declared.moments.clock.Clock.{Clock};
ghost use Rattle.am_silence_json.specs.Clocks.{HasMarks, IsClockText};

use crate::moments::digits::{byte_at, two_at};

/// The reading of a calendar and a clock, to the second.
#[derive(Clone, Copy)]
pub struct Clock {
    pub year: u16,
    pub month: u8,
    pub day: u8,
    pub hour: u8,
    pub minute: u8,
    pub second: u8,
}

impl Clock {
    ghost use Rattle.am_silence_json.specs.Clocks.{second_of_day};

    /// Returns the number of seconds since midnight.
    pub fn second_of_day(self) -> u32
        ensures { result ≡ second_of_day self }
    {
        self.hour as u32 * 3600 + self.minute as u32 * 60 + self.second as u32
    }
}

/// Returns whether the separators of the numbers stand in their places.
fn has_marks(text: &[u8]) -> bool
    ensures { IsTrue result ↔ HasMarks text.now }
{
    byte_at(text, 4) == b'-'
        && byte_at(text, 7) == b'-'
        && matches!(byte_at(text, 10), b'T' | b't')
        && byte_at(text, 13) == b':'
        && byte_at(text, 16) == b':'
}

/// Reads the date and the time of day in the first 19 bytes.
pub fn read_clock(text: &[u8]) -> Option<Clock>
    ensures value { IfSome result (IsClockText text.now) }
    ensures only { (c : Clock) → IsClockText text.now c → result ≡ Some c }
    ensures bound { IfSome result (λ c. (c.year < 10000) × (c.month < 100) × (c.day < 100)) }
{
    if !has_marks(text) {
        return None;
    }
    let century = two_at(text, 0)?;
    let year = two_at(text, 2)?;
    let month = two_at(text, 5)?;
    let day = two_at(text, 8)?;
    let hour = two_at(text, 11)?;
    let minute = two_at(text, 14)?;
    let second = two_at(text, 17)?;
    Some(Clock {
        year: u16::from(century) * 100 + u16::from(year),
        month,
        day,
        hour,
        minute,
        second,
    })
}
