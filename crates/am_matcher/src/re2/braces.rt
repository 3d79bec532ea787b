//! Counts in braces.

ghost use Rattle.std.specs.Prelude.{◌≡◌, ◌<◌, ◌≤◌, None, Some, length, max, MatchOption, IfSome, if◌then◌else◌, nat_lt, ◌+◌, ◌*◌};
ghost use Rattle.std.specs.Char.{digit_value};
ghost use Rattle.am_matcher.specs.Re2Pieces.{Count, number, is_number, number_at, bounded, count_behind, count_at, skip_lazy, repetition, counted, brace};

use crate::re2::pieces::{PatternPart, PatternPiece, Spelling, outside};
use crate::re2::runs::{before, split_digits};
use std::marker::Model;

/// The maximum number of times that a part is repeated, also by the groups around it.
pub const MOST_TIMES: u32 = 1000;

/// A count: how often a part may come, and the text behind it.
#[derive(Drop)]
struct Bounds<'a> {
    least: u32,
    /// The greatest number, or `least` if the count has none.
    most: u32,
    rest: &'a [char],
}

impl<'a> Model for Bounds<'a> {
    ghost use Rattle.am_matcher.specs.Re2Pieces.{Count};

    ghost Value = { Count };

    ghost view = { λ b. record { least = b.least; most = b.most; rest = b.rest.now } };
}

/// Returns the number with one more digit, or the number itself if it is above [`MOST_TIMES`].
fn with_digit(number: u32, digit: char) -> u32
    ensures { result ≡ (if nat_lt 1000 number then number else number * 10 + digit_value digit) }
{
    if number > MOST_TIMES {
        number
    } else {
        number * 10 + digit.to_digit(36).unwrap_or(36)
    }
}

/// Returns the number that the digits write, or a number above [`MOST_TIMES`] if it is too great.
#[tactic(auto, unfolding(crate::specs::Re2Pieces::number))]
fn number(digits: &[char]) -> u32
    ensures { result ≡ number digits.now }
{
    digits
        .iter()
        .fold(0, |number, digit| with_digit(number, *digit))
}

/// Returns whether the digits are those of a number: there is at least one, and none is a zero before others.
#[tactic(auto, unfolding(crate::specs::Re2Pieces::is_number))]
fn is_number(digits: &[char]) -> bool
    ensures { result ≡ is_number digits.now }
{
    match digits {
        [] => false,
        [_] => true,
        [first, ..] => *first != '0',
    }
}

/// Returns the number at the front and the text behind it, or `None` if no number is there.
#[tactic(auto, unfolding(crate::specs::Re2Pieces::number_at))]
fn number_at(text: &[char]) -> Option<(u32, &[char])>
    ensures value { MatchOption result (number_at text.now ≡ None)
        (λ found. number_at text.now ≡ Some (found.0, found.1.now)) }
    ensures shorter { IfSome result (λ found. length found.1.now ≤ length text.now) }
{
    let (digits, rest) = split_digits(text);
    if is_number(digits) {
        Some((number(digits), rest))
    } else {
        None
    }
}

/// Reads the greatest number of a count, up to the brace.
#[tactic(auto, unfolding(crate::specs::Re2Pieces::bounded))]
fn bounded(least: u32, text: &[char]) -> Option<Bounds<'_>>
    ensures value { result ≡ bounded least text.now }
    ensures shorter { IfSome result (λ found. length found.rest < length text.now) }
{
    match number_at(text) {
        Some((most, ['}', rest @ ..])) => Some(Bounds { least, most, rest }),
        _ => None,
    }
}

/// Reads the rest of a count, behind its least number.
#[tactic(auto, unfolding(crate::specs::Re2Pieces::count_behind))]
fn count_behind(least: u32, text: &[char]) -> Option<Bounds<'_>>
    ensures value { result ≡ count_behind least text.now }
    ensures shorter { IfSome result (λ found. length found.rest < length text.now) }
{
    match text {
        ['}', rest @ ..] | [',', '}', rest @ ..] => Some(Bounds {
            least,
            most: least,
            rest,
        }),
        [',', rest @ ..] => bounded(least, rest),
        _ => None,
    }
}

/// Reads the count at the front, such as `2}`, `2,}` or `2,5}`.
#[tactic(auto, unfolding(crate::specs::Re2Pieces::count_at))]
fn count_at(text: &[char]) -> Option<Bounds<'_>>
    ensures value { result ≡ count_at text.now }
    ensures shorter { IfSome result (λ found. length found.rest < length text.now) }
{
    match number_at(text) {
        Some((least, rest)) => count_behind(least, rest),
        None => None,
    }
}

/// Returns the text without the `?` at the front, if one is there.
#[tactic(auto, unfolding(crate::specs::Re2Pieces::skip_lazy))]
fn skip_lazy(text: &[char]) -> &[char]
    ensures value { result.now ≡ skip_lazy text.now }
    ensures shorter { length result.now ≤ length text.now }
{
    match text {
        ['?', rest @ ..] => rest,
        _ => text,
    }
}

/// Returns the repetition in front of the rest, with the `?` behind it if one is there.
#[tactic(auto, unfolding(crate::specs::Re2Pieces::repetition, crate::specs::Re2Spelling::spelled))]
pub fn repetition<'a>(text: &'a [char], most: u32, rest: &'a [char]) -> PatternPiece<'a>
    ensures value { result ≡ repetition text.now most rest.now }
    ensures shorter { length result.rest ≤ length rest.now }
{
    let rest = skip_lazy(rest);
    let part = PatternPart::Repeat(most.max(1));
    outside(part, Spelling::Source(before(text, rest)), rest)
}

/// Returns the repetition of a count, or `None` if the count is out of order or too great.
#[tactic(auto, unfolding(crate::specs::Re2Pieces::counted))]
fn counted<'a>(text: &'a [char], count: Bounds<'a>) -> Option<PatternPiece<'a>>
    ensures value { result ≡ counted text.now count.entry }
    ensures shorter { IfSome result (λ found. length found.rest ≤ length count.entry.rest) }
{
    if count.least <= count.most && count.most <= MOST_TIMES {
        Some(repetition(text, count.most, count.rest))
    } else {
        None
    }
}

/// Reads the brace at the front of the text: a count, or a character.
#[tactic(auto, unfolding(crate::specs::Re2Pieces::brace, crate::specs::Re2Spelling::spelled))]
pub fn brace<'a>(text: &'a [char], behind: &'a [char]) -> Option<PatternPiece<'a>>
    ensures value { result ≡ brace text.now behind.now }
    ensures shorter { IfSome result (λ found. length found.rest ≤ length behind.now) }
{
    match count_at(behind) {
        None => Some(outside(PatternPart::Atom, Spelling::Character('{'), behind)),
        Some(count) => counted(text, count),
    }
}
