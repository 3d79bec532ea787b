//! Pieces, depending on the place where they stand.

ghost use Rattle.std.specs.Prelude.{◌≡◌, ◌<◌, ◌≤◌, length, IfSome};
ghost use Rattle.am_matcher.specs.Re2Pieces.{sign, property_outside, character_outside, quotation, quoted_character, quotation_end, escape, outside_piece, quoted, first_piece};

use crate::re2::braces::{brace, repetition};
use crate::re2::classes::{class_item, class_start, later_item, property_at};
use crate::re2::escapes::{escaped_character, is_perl};
use crate::re2::groups::group;
use crate::re2::pieces::{PatternPart, PatternPiece, PatternPlace, Spelling, outside};
use crate::re2::runs::before;

/// Reads a character outside of classes that begins nothing longer.
#[tactic(auto, unfolding(crate::specs::Re2Pieces::sign, crate::specs::Re2Spelling::spelled))]
fn sign<'a>(text: &'a [char], first: char, rest: &'a [char]) -> PatternPiece<'a>
    ensures value { result ≡ sign text.now first rest.now }
    ensures shorter { length result.rest ≤ length rest.now }
{
    match first {
        '*' | '+' | '?' => repetition(text, 1, rest),
        ')' => outside(
            PatternPart::Close,
            Spelling::Source(before(text, rest)),
            rest,
        ),
        '|' => outside(PatternPart::Bar, Spelling::Source(before(text, rest)), rest),
        '.' => outside(
            PatternPart::Atom,
            Spelling::Source(before(text, rest)),
            rest,
        ),
        '^' | '$' => outside(
            PatternPart::Fixed,
            Spelling::Source(before(text, rest)),
            rest,
        ),
        _ => outside(PatternPart::Atom, Spelling::Character(first), rest),
    }
}

/// Reads the set of a property outside of classes.
#[tactic(auto, unfolding(crate::specs::Re2Pieces::property_outside))]
fn property_outside(negated: bool, text: &[char]) -> Option<PatternPiece<'_>>
    ensures value { result ≡ property_outside negated text.now }
    ensures shorter { IfSome result (λ found. length found.rest < length text.now) }
{
    match property_at(negated, text) {
        Some((spelling, rest)) => Some(outside(PatternPart::Atom, spelling, rest)),
        None => None,
    }
}

/// Reads a character that is written behind a backslash.
#[tactic(auto, unfolding(crate::specs::Re2Pieces::character_outside, crate::specs::Re2Spelling::spelled))]
fn character_outside(text: &[char]) -> Option<PatternPiece<'_>>
    ensures value { result ≡ character_outside text.now }
    ensures shorter { IfSome result (λ found. length found.rest < length text.now) }
{
    match escaped_character(text) {
        Some((character, rest)) => Some(outside(
            PatternPart::Atom,
            Spelling::Character(character),
            rest,
        )),
        None => None,
    }
}

/// Returns the start of a quotation.
#[tactic(auto, unfolding(crate::specs::Re2Spelling::spelled))]
fn quotation(rest: &[char]) -> PatternPiece<'_>
    ensures value { result ≡ quotation rest.now }
    ensures shorter { length result.rest ≤ length rest.now }
{
    PatternPiece {
        part: Some(PatternPart::Fixed),
        spelling: Spelling::Nothing,
        name: None,
        place: PatternPlace::Quotation,
        rest,
    }
}

/// Reads an escape outside of classes, whose backslash is at the front of the text.
#[tactic(auto, unfolding(crate::specs::Re2Pieces::escape, crate::specs::Re2Spelling::spelled))]
fn escape<'a>(text: &'a [char], behind: &'a [char]) -> Option<PatternPiece<'a>>
    ensures value { result ≡ escape text.now behind.now }
    ensures shorter { IfSome result (λ found. length found.rest ≤ length behind.now) }
{
    match behind {
        ['p', rest @ ..] => property_outside(false, rest),
        ['P', rest @ ..] => property_outside(true, rest),
        ['b', rest @ ..] => Some(outside(PatternPart::Fixed, Spelling::Boundary, rest)),
        ['A' | 'z', rest @ ..] => {
            Some(outside(
                PatternPart::Fixed,
                Spelling::Source(before(text, rest)),
                rest,
            ))
        }
        ['Q', rest @ ..] => Some(quotation(rest)),
        [letter, rest @ ..] if is_perl(*letter) => {
            Some(outside(PatternPart::Atom, Spelling::Perl(*letter), rest))
        }
        _ => character_outside(behind),
    }
}

/// Reads the first piece outside of classes.
#[tactic(auto, unfolding(crate::specs::Re2Pieces::outside_piece))]
fn outside_piece(text: &[char]) -> Option<PatternPiece<'_>>
    ensures value { result ≡ outside_piece text.now }
    ensures shorter { IfSome result (λ found. length found.rest < length text.now) }
{
    match text {
        ['\\', rest @ ..] => escape(text, rest),
        ['[', rest @ ..] => Some(class_start(text, rest)),
        ['(', rest @ ..] => group(text, rest),
        ['{', rest @ ..] => brace(text, rest),
        [first, rest @ ..] => Some(sign(text, *first, rest)),
        [] => None,
    }
}

/// Returns a piece of a quotation that stands for a character.
#[tactic(auto, unfolding(crate::specs::Re2Spelling::spelled))]
fn quoted_character(character: char, rest: &[char]) -> PatternPiece<'_>
    ensures value { result ≡ quoted_character character rest.now }
{
    PatternPiece {
        part: None,
        spelling: Spelling::Character(character),
        name: None,
        place: PatternPlace::Quotation,
        rest,
    }
}

/// Returns the end of a quotation.
#[tactic(auto, unfolding(crate::specs::Re2Spelling::spelled))]
fn quotation_end(rest: &[char]) -> PatternPiece<'_>
    ensures value { result ≡ quotation_end rest.now }
{
    PatternPiece {
        part: None,
        spelling: Spelling::Nothing,
        name: None,
        place: PatternPlace::Outside,
        rest,
    }
}

/// Reads the first piece between `\Q` and `\E`.
#[tactic(auto, unfolding(crate::specs::Re2Pieces::quoted))]
fn quoted(text: &[char]) -> Option<PatternPiece<'_>>
    ensures value { result ≡ quoted text.now }
    ensures shorter { IfSome result (λ found. length found.rest < length text.now) }
{
    match text {
        ['\\', 'E', rest @ ..] => Some(quotation_end(rest)),
        [character, rest @ ..] => Some(quoted_character(*character, rest)),
        [] => None,
    }
}

/// Reads the first piece of a text.
#[tactic(auto, unfolding(crate::specs::Re2Pieces::first_piece))]
pub fn first_piece(place: PatternPlace, text: &[char]) -> Option<PatternPiece<'_>>
    ensures value { result ≡ first_piece place text.now }
    ensures shorter { IfSome result (λ found. length found.rest < length text.now) }
{
    match place {
        PatternPlace::Outside => outside_piece(text),
        PatternPlace::ClassStart => class_item(text),
        PatternPlace::Class => later_item(text),
        PatternPlace::Quotation => quoted(text),
    }
}
