//! Escapes: characters behind a backslash.

ghost use Rattle.std.specs.Prelude.{◌≡◌, ◌<◌, None, Some, length, MatchOption, IfSome, if◌then◌else◌, nat_lt, ◌+◌, ◌*◌, true};
ghost use Rattle.std.specs.Char.{digit_value, is_ascii_hexdigit};
ghost use Rattle.am_matcher.specs.Re2Pieces.{code, coded, braced_code, short_code, coded_character, escaped_letter, escaped_character, is_perl};

use crate::re2::runs::split_hex;

/// Returns the character that a letter or a sign behind a backslash stands for.
#[tactic(auto, unfolding(crate::specs::Re2Pieces::escaped_letter))]
fn escaped_letter(letter: char) -> Option<char>
    ensures { result ≡ escaped_letter letter }
{
    match letter {
        'a' => Some('\u{7}'),
        'f' => Some('\u{C}'),
        'n' => Some('\n'),
        'r' => Some('\r'),
        't' => Some('\t'),
        'v' => Some('\u{B}'),
        _ if letter.is_ascii_punctuation() => Some(letter),
        _ => None,
    }
}

/// Returns the code with one more hexadecimal digit, or the code itself if it is above that of the last character.
fn with_digit(code: u32, digit: char) -> u32
    ensures { result ≡ (if nat_lt 0x10FFFF code then code else code * 16 + digit_value digit) }
{
    if code > 0x10_FFFF {
        code
    } else {
        code * 16 + digit.to_digit(36).unwrap_or(36)
    }
}

/// Returns the code that the hexadecimal digits write, or a code above those of all characters if it is too great.
#[tactic(auto, unfolding(crate::specs::Re2Pieces::code))]
fn code(digits: &[char]) -> u32
    ensures { result ≡ code digits.now }
{
    digits
        .iter()
        .fold(0, |code, digit| with_digit(code, *digit))
}

/// Returns the character whose code the digits write, or `None` if there is none.
#[tactic(auto, unfolding(crate::specs::Re2Pieces::coded))]
fn coded(digits: &[char]) -> Option<char>
    ensures { result ≡ coded digits.now }
{
    char::from_u32(code(digits))
}

/// Returns the character whose code is written before a brace, and the text behind it.
#[tactic(auto, unfolding(crate::specs::Re2Pieces::braced_code))]
fn braced_code(text: &[char]) -> Option<(char, &[char])>
    ensures value { MatchOption result (braced_code text.now ≡ None)
        (λ found. braced_code text.now ≡ Some (found.0, found.1.now)) }
    ensures shorter { IfSome result (λ found. length found.1.now < length text.now) }
{
    let (digits, rest) = split_hex(text);
    match rest {
        ['}', rest @ ..] if !digits.is_empty() => match coded(digits) {
            Some(character) => Some((character, rest)),
            None => None,
        },
        _ => None,
    }
}

/// Returns the character whose code two digits write, and the text behind it.
#[tactic(auto, unfolding(crate::specs::Re2Pieces::short_code))]
fn short_code(text: &[char]) -> Option<(char, &[char])>
    ensures value { MatchOption result (short_code text.now ≡ None)
        (λ found. short_code text.now ≡ Some (found.0, found.1.now)) }
    ensures shorter { IfSome result (λ found. length found.1.now < length text.now) }
{
    match text {
        [first, second, rest @ ..] if first.is_ascii_hexdigit() && second.is_ascii_hexdigit() => {
            match coded(&[*first, *second]) {
                Some(character) => Some((character, rest)),
                None => None,
            }
        }
        _ => None,
    }
}

/// Returns the character whose code is behind `\x`, and the text behind it.
#[tactic(auto, unfolding(crate::specs::Re2Pieces::coded_character))]
fn coded_character(text: &[char]) -> Option<(char, &[char])>
    ensures value { MatchOption result (coded_character text.now ≡ None)
        (λ found. coded_character text.now ≡ Some (found.0, found.1.now)) }
    ensures shorter { IfSome result (λ found. length found.1.now < length text.now) }
{
    match text {
        ['{', rest @ ..] => braced_code(rest),
        _ => short_code(text),
    }
}

/// Returns the character that is written behind a backslash, and the text behind it.
#[tactic(auto, unfolding(crate::specs::Re2Pieces::escaped_character))]
pub fn escaped_character(text: &[char]) -> Option<(char, &[char])>
    ensures value { MatchOption result (escaped_character text.now ≡ None)
        (λ found. escaped_character text.now ≡ Some (found.0, found.1.now)) }
    ensures shorter { IfSome result (λ found. length found.1.now < length text.now) }
{
    match text {
        ['x', rest @ ..] => coded_character(rest),
        [letter, rest @ ..] => match escaped_letter(*letter) {
            Some(character) => Some((character, rest)),
            None => None,
        },
        [] => None,
    }
}

/// Returns whether the letter behind a backslash stands for a Perl class.
pub fn is_perl(letter: char) -> bool
    ensures { result ≡ is_perl letter }
{
    matches!(letter, 'd' | 'D' | 's' | 'S' | 'w' | 'W')
}
