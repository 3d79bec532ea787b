//! Offsets from UTC.

ghost use Rattle.std.specs.Prelude.{◌≡◌, ◌<◌, ℕ, Bool, IfSome, Some};
ghost use Rattle.am_silence_json.specs.declared.moments.zone.Offset.{Offset};
ghost use Rattle.am_silence_json.specs.Zones.{IsZone, IsNumeric, IsSign, offset_size};

use crate::moments::digits::{byte_at, two_at};

/// The offset of a clock ahead of UTC or behind it, less than a day.
#[derive(Clone, Copy)]
pub struct Offset {
    pub behind: bool,
    pub hours: u8,
    pub minutes: u8,
}

impl Offset {
    ghost use Rattle.am_silence_json.specs.Zones.{offset_size};

    /// Returns the number of seconds in the offset, without its sign.
    pub fn size(self) -> u32
        ensures { result ≡ offset_size self }
    {
        self.hours as u32 * 3600 + self.minutes as u32 * 60
    }
}

/// Returns whether the sign says that the clock is behind UTC.
fn read_sign(byte: u8) -> Option<bool>
    ensures value { IfSome result (IsSign byte) }
    ensures only { (b : Bool) → IsSign byte b → result ≡ Some b }
{
    match byte {
        b'+' => Some(false),
        b'-' => Some(true),
        _ => None,
    }
}

/// Reads the text as a sign, hours and minutes.
fn read_numeric(text: &[u8]) -> Option<Offset>
    ensures value { IfSome result (IsNumeric text.now) }
    ensures only { (o : Offset) → IsNumeric text.now o → result ≡ Some o }
    ensures bound { IfSome result (λ o. offset_size o < 86400) }
{
    if text.len() != 6 || byte_at(text, 3) != b':' {
        return None;
    }
    let behind = read_sign(byte_at(text, 0))?;
    let hours = two_at(text, 1)?;
    let minutes = two_at(text, 4)?;
    if hours >= 24 || minutes >= 60 {
        return None;
    }
    Some(Offset {
        behind,
        hours,
        minutes,
    })
}

/// Reads the whole text as an offset.
pub fn read_zone(text: &[u8]) -> Option<Offset>
    ensures value { IfSome result (IsZone text.now) }
    ensures only { (o : Offset) → IsZone text.now o → result ≡ Some o }
    ensures bound { IfSome result (λ o. offset_size o < 86400) }
{
    if text.len() == 1 && matches!(byte_at(text, 0), b'Z' | b'z') {
        return Some(Offset {
            behind: false,
            hours: 0,
            minutes: 0,
        });
    }
    read_numeric(text)
}
