//! Texts in bytes that are mostly ASCII.

ghost use Rattle.std.specs.Prelude.{◌≡◌, true, IsAscii, MatchResult};
ghost use Rattle.std.specs.Str.{IsUtf8};

use std::str::Utf8Error;

/// Returns whether all bytes are ASCII.
fn is_ascii(bytes: &[u8]) -> bool
    ensures { result ≡ true → IsAscii bytes.now }
{
    let mut greatest: u8 = 0;
    for byte in bytes {
        greatest = (*byte).max(greatest);
    }
    greatest < 128
}

/// Returns the bytes as a text if they are UTF-8.
#[tactic(auto, using(crate::proofs::AsciiTexts::ascii_text))]
pub(crate) fn text_of(bytes: &[u8]) -> Result<&str, Utf8Error>
    ensures { MatchResult result (λ text. (text.now ≡ bytes.now) × IsUtf8 bytes.now) (λ _. ¬ (IsUtf8 bytes.now)) }
{
    if is_ascii(bytes) {
        // SAFETY: ASCII is UTF-8.
        return Ok(unsafe { str::from_utf8_unchecked(bytes) });
    }
    str::from_utf8(bytes)
}
