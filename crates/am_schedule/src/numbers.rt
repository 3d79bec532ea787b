//! Whole numbers.

ghost use Rattle.std.specs.Prelude.{◌≡◌, ℕ, ◌≤◌, ◌<◌, IfSome};
ghost use Rattle.std.specs.List.{list_all};
ghost use Rattle.std.specs.Char.{is_ascii_digit};
ghost use Rattle.am_schedule.specs.Numbers.{number_within, count_in, hex_digit_in, bits_in};

/// Returns whether all bytes are ASCII digits.
fn are_digits(bytes: &[u8]) -> bool
    ensures { result ≡ list_all is_ascii_digit bytes.now }
{
    bytes.iter().all(|byte| byte.is_ascii_digit())
}

/// Reads a number below 2^64.
#[tactic(auto, unfolding(crate::specs::Numbers::count_in))]
pub(crate) fn count(word: &str) -> Option<u64>
    ensures { result ≡ count_in word.now }
{
    if word.is_empty() || !are_digits(word.as_bytes()) {
        return None;
    }
    match word.parse::<u64>() {
        Ok(number) => Some(number),
        Err(_) => None,
    }
}

/// Reads a number from `least` to `most`.
#[tactic(auto, unfolding(crate::specs::Numbers::number_within))]
pub(crate) fn number_within(least: u64, most: u64, word: &str) -> Option<u64>
    ensures value { result ≡ number_within least most word.now }
    ensures range { IfSome result (λ n. (least ≤ n) × (n ≤ most)) }
{
    let number = count(word)?;
    if number < least || number > most {
        return None;
    }
    Some(number)
}

/// Returns the value of a lower-case hexadecimal digit.
fn hex_digit(byte: u8) -> Option<u8>
    ensures value { result ≡ hex_digit_in byte }
    ensures small { IfSome result (λ digit. digit < 16) }
{
    match byte {
        b'0'..=b'9' => Some(byte - b'0'),
        b'a'..=b'f' => Some(byte - b'a' + 10),
        _ => None,
    }
}

/// Reads 128 bits, as 32 hexadecimal digits.
#[tactic(auto, unfolding(crate::specs::Numbers::bits_in))]
pub(crate) fn bits(word: &str) -> Option<u128>
    ensures { result ≡ bits_in word.now }
{
    if word.len() != 32 {
        return None;
    }
    let mut bits = 0u128;
    for byte in word.as_bytes() {
        bits = bits * 16 + u128::from(hex_digit(*byte)?);
    }
    Some(bits)
}
