//! Runs of characters.

ghost use Rattle.std.specs.Prelude.{◌≡◌, length, ◌≤◌};
ghost use Rattle.std.specs.Char.{is_ascii_digit, is_ascii_hexdigit};
ghost use Rattle.am_matcher.specs.Re2Spelling.{before};
ghost use Rattle.am_matcher.specs.Re2Pieces.{run, behind, is_word, is_flag};

/// Returns the text in front of its rest.
#[tactic(auto, unfolding(crate::specs::Re2Spelling::before))]
pub fn before<'a>(text: &'a [char], rest: &[char]) -> &'a [char]
    ensures { result.now ≡ before text.now rest.now }
{
    let (front, _) = text.split_at(text.len().saturating_sub(rest.len()));
    front
}

/// Returns the number of digits at the front.
fn digit_count(text: &[char]) -> usize
    ensures { result ≡ length (run is_ascii_digit text.now) }
{
    text.iter().take_while(|c| c.is_ascii_digit()).count()
}

/// Returns the digits at the front, and the text behind them.
#[tactic(auto, using(crate::proofs::Re2Runs::taken))]
pub fn split_digits(text: &[char]) -> (&[char], &[char])
    ensures digits { result.0.now ≡ run is_ascii_digit text.now }
    ensures rest { result.1.now ≡ behind is_ascii_digit text.now }
    ensures shorter { length result.1.now ≤ length text.now }
{
    text.split_at(digit_count(text))
}

/// Returns the number of hexadecimal digits at the front.
fn hex_count(text: &[char]) -> usize
    ensures { result ≡ length (run is_ascii_hexdigit text.now) }
{
    text.iter().take_while(|c| c.is_ascii_hexdigit()).count()
}

/// Returns the hexadecimal digits at the front, and the text behind them.
#[tactic(auto, using(crate::proofs::Re2Runs::taken))]
pub fn split_hex(text: &[char]) -> (&[char], &[char])
    ensures digits { result.0.now ≡ run is_ascii_hexdigit text.now }
    ensures rest { result.1.now ≡ behind is_ascii_hexdigit text.now }
    ensures shorter { length result.1.now ≤ length text.now }
{
    text.split_at(hex_count(text))
}

fn is_word(character: char) -> bool
    ensures { result ≡ is_word character }
{
    character.is_ascii_alphanumeric() || character == '_'
}

/// Returns the number of letters, digits and `_` at the front.
fn word_len(text: &[char]) -> usize
    ensures { result ≡ length (run is_word text.now) }
{
    text.iter().take_while(|c| is_word(**c)).count()
}

/// Returns the letters, digits and `_` at the front, and the text behind them.
#[tactic(auto, using(crate::proofs::Re2Runs::taken))]
pub fn split_word(text: &[char]) -> (&[char], &[char])
    ensures word { result.0.now ≡ run is_word text.now }
    ensures rest { result.1.now ≡ behind is_word text.now }
    ensures shorter { length result.1.now ≤ length text.now }
{
    text.split_at(word_len(text))
}

fn is_flag(character: char) -> bool
    ensures { result ≡ is_flag character }
{
    matches!(character, 'i' | 'm' | 's' | 'U' | '-')
}

/// Returns the number of flag letters and hyphens at the front.
fn flag_count(text: &[char]) -> usize
    ensures { result ≡ length (run is_flag text.now) }
{
    text.iter().take_while(|c| is_flag(**c)).count()
}

/// Returns the flag letters and hyphens at the front, and the text behind them.
#[tactic(auto, using(crate::proofs::Re2Runs::taken))]
pub fn split_flags(text: &[char]) -> (&[char], &[char])
    ensures flags { result.0.now ≡ run is_flag text.now }
    ensures rest { result.1.now ≡ behind is_flag text.now }
    ensures shorter { length result.1.now ≤ length text.now }
{
    text.split_at(flag_count(text))
}
