//! Numbers and ports of the command line.

ghost use Rattle.std.specs.Prelude.{◌≡◌, ◌<◌, ◌^◌};
ghost use Rattle.std.specs.List.{list_all};
ghost use Rattle.std.specs.Char.{is_ascii_digit};
ghost use Rattle.std.specs.Option.{SomeIff};
ghost use Rattle.am_peers.specs.Peers.{IsNumber, IsNumberWithin, decimal_of};

/// Returns whether all bytes are ASCII digits.
fn are_digits(bytes: &[u8]) -> bool
    ensures { result ≡ list_all is_ascii_digit bytes.now }
{
    bytes.iter().all(|byte| byte.is_ascii_digit())
}

/// Reads a number below 2^64 that consists of ASCII digits alone.
fn number_of(word: &str) -> Option<u64>
    ensures { SomeIff result (IsNumber word.now × (decimal_of word.now < 2 ^ 64)) (decimal_of word.now) }
{
    if word.is_empty() || !are_digits(word.as_bytes()) {
        return None;
    }
    match word.parse::<u64>() {
        Ok(number) => Some(number),
        Err(_) => None,
    }
}

/// Reads a number from `least` to `most` that consists of ASCII digits alone.
pub fn number_within(least: u64, most: u64, word: &str) -> Option<u64>
    ensures { SomeIff result (IsNumberWithin least most word.now) (decimal_of word.now) }
{
    let number = number_of(word)?;
    if number < least || number > most {
        return None;
    }
    Some(number)
}

/// Reads a port, from 1 to 65,535.
pub fn port_of(word: &str) -> Option<u16>
    ensures { SomeIff result (IsNumberWithin 1 65535 word.now) (decimal_of word.now) }
{
    match number_within(1, 65_535, word) {
        Some(port) => Some(port as u16),
        None => None,
    }
}
