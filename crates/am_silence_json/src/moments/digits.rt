//! Decimal digits at a place of a text.

ghost use Rattle.std.specs.Prelude.{◌≡◌, ℕ, ◌+◌, ◌<◌, ◌^◌, IfSome, Some, slice_index};
ghost use Rattle.am_silence_json.specs.Digits.{HasDigit, HasTwo};

/// Returns the byte at a place, or 0 past the end.
pub fn byte_at(text: &[u8], place: usize) -> u8
    ensures { result ≡ slice_index text.now place }
{
    match text.get(place) {
        Some(byte) => *byte,
        None => 0,
    }
}

/// Returns the number whose digit stands at a place.
pub fn digit_at(text: &[u8], place: usize) -> Option<u8>
    ensures value { IfSome result (HasDigit text.now place) }
    ensures only { (n : ℕ) → HasDigit text.now place n → result ≡ Some n }
{
    let byte = byte_at(text, place);
    if byte >= b'0' && byte <= b'9' {
        Some(byte - b'0')
    } else {
        None
    }
}

/// Returns the number whose two digits stand at a place.
pub fn two_at(text: &[u8], place: usize) -> Option<u8>
    requires { place < 64 }
    ensures value { IfSome result (HasTwo text.now place) }
    ensures only { (n : ℕ) → HasTwo text.now place n → result ≡ Some n }
    ensures bound { IfSome result (λ n. n < 100) }
{
    let tens = digit_at(text, place)?;
    let ones = digit_at(text, place + 1)?;
    Some(tens * 10 + ones)
}
