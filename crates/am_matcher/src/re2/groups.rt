//! Groups and flags.

ghost use Rattle.std.specs.Prelude.{◌≡◌, ◌==◌, ◌<◌, ◌≤◌, length, IfSome};
ghost use Rattle.std.specs.List.{list_any};
ghost use Rattle.am_matcher.specs.Re2Pieces.{has_twice, are_flags, is_name, named_group, flagged_group, group};

use crate::re2::pieces::{PatternPart, PatternPiece, PatternPlace, Spelling, outside};
use crate::re2::runs::{before, split_flags, split_word};

/// Returns whether the letter is among these.
fn contains(letters: &[char], letter: char) -> bool
    ensures { result ≡ list_any (λ other. other == letter) letters.now }
{
    letters.iter().any(|other| *other == letter)
}

/// Returns whether a letter comes twice.
#[tactic(auto, unfolding(crate::specs::Re2Pieces::has_twice))]
fn has_twice(letters: &[char]) -> bool
    ensures { result ≡ has_twice letters.now }
{
    match letters {
        [] => false,
        [first, rest @ ..] => contains(rest, *first) || has_twice(rest),
    }
}

/// Returns whether these are flags: there is at least one, none comes twice, and a hyphen has something behind it.
#[tactic(auto, unfolding(crate::specs::Re2Pieces::are_flags))]
fn are_flags(letters: &[char]) -> bool
    ensures { result ≡ are_flags letters.now }
{
    !letters.is_empty()
        && letters.len() <= 5
        && !has_twice(letters)
        && !matches!(letters, [.., '-'])
}

/// Returns whether these characters are the name of a group.
#[tactic(auto, unfolding(crate::specs::Re2Pieces::is_name))]
fn is_name(word: &[char]) -> bool
    ensures { result ≡ is_name word.now }
{
    match word {
        [] => false,
        [first, ..] => !first.is_ascii_digit(),
    }
}

/// Reads the start of a group whose name is at the front.
#[tactic(auto, unfolding(crate::specs::Re2Pieces::named_group, crate::specs::Re2Spelling::spelled))]
fn named_group(text: &[char]) -> Option<PatternPiece<'_>>
    ensures value { result ≡ named_group text.now }
    ensures shorter { IfSome result (λ found. length found.rest < length text.now) }
{
    let (name, rest) = split_word(text);
    match rest {
        ['>', rest @ ..] if is_name(name) => Some(PatternPiece {
            part: Some(PatternPart::Open),
            spelling: Spelling::Group,
            name: Some(name),
            place: PatternPlace::Outside,
            rest,
        }),
        _ => None,
    }
}

/// Reads the start of a group with flags, or flags alone. They are behind the front of the text.
#[tactic(auto, unfolding(crate::specs::Re2Pieces::flagged_group, crate::specs::Re2Spelling::spelled))]
fn flagged_group<'a>(text: &'a [char], behind: &'a [char]) -> Option<PatternPiece<'a>>
    ensures value { result ≡ flagged_group text.now behind.now }
    ensures shorter { IfSome result (λ found. length found.rest < length behind.now) }
{
    let (flags, rest) = split_flags(behind);
    match rest {
        [':', rest @ ..] if flags.is_empty() || are_flags(flags) => {
            Some(outside(
                PatternPart::Open,
                Spelling::Source(before(text, rest)),
                rest,
            ))
        }
        [')', rest @ ..] if are_flags(flags) => {
            Some(outside(
                PatternPart::Fixed,
                Spelling::Source(before(text, rest)),
                rest,
            ))
        }
        _ => None,
    }
}

/// Reads the group or the flags that begin with the parenthesis at the front of the text.
#[tactic(auto, unfolding(crate::specs::Re2Pieces::group, crate::specs::Re2Spelling::spelled))]
pub fn group<'a>(text: &'a [char], behind: &'a [char]) -> Option<PatternPiece<'a>>
    ensures value { result ≡ group text.now behind.now }
    ensures shorter { IfSome result (λ found. length found.rest ≤ length behind.now) }
{
    match behind {
        ['?', 'P', '<', rest @ ..] => named_group(rest),
        ['?', rest @ ..] => flagged_group(text, rest),
        _ => Some(outside(PatternPart::Open, Spelling::Group, behind)),
    }
}
