//! Fractions of a second.

ghost use Rattle.std.specs.Prelude.{◌≡◌, ◌+◌, ◌<◌, ◌≤◌, List, All, length, IfSome, Some};
ghost use Rattle.am_silence_json.specs.declared.moments.fraction.Fraction.{Fraction};
ghost use Rattle.am_silence_json.specs.Fractions.{IsFraction, digit_count, fraction_nanos};

use crate::moments::digits::byte_at;

/// A fraction of a second, and the length of its text in bytes.
#[derive(Clone, Copy)]
pub struct Fraction {
    pub nanos: u32,
    pub size: usize,
}

/// Returns the number of digits at the beginning of the text.
fn count_digits(text: &[u8]) -> usize
    ensures value { result ≡ digit_count text.now }
    ensures within { result ≤ length text.now }
{
    text.iter().take_while(|byte| byte.is_ascii_digit()).count()
}

/// Returns the nanoseconds of these digits after the point.
fn nanos_of(digits: &[u8]) -> u32
    requires { All (λ d. (48 ≤ d) × (d ≤ 57)) digits.now }
    ensures { result ≡ fraction_nanos 100_000_000 digits.now }
{
    let mut unit: u32 = 100_000_000;
    let mut nanos: u32 = 0;
    for digit in digits {
        nanos += u32::from(*digit - b'0') * unit;
        unit /= 10;
    }
    nanos
}

/// Reads the fraction at the beginning of the text.
pub fn read_fraction(text: &[u8]) -> Option<Fraction>
    ensures value { IfSome result (IsFraction text.now) }
    ensures only { (f : Fraction) → IsFraction text.now f → result ≡ Some f }
    ensures within { IfSome result (λ f. f.size ≤ length text.now) }
{
    if byte_at(text, 0) != b'.' {
        return Some(Fraction { nanos: 0, size: 0 });
    }
    let digits = &text[1..];
    let count = count_digits(digits);
    if count == 0 {
        return None;
    }
    let nanos = nanos_of(&digits[..count]);
    Some(Fraction {
        nanos,
        size: 1 + count,
    })
}
