//! Classes in brackets, and classes of a property.

ghost use Rattle.std.specs.Prelude.{◌≡◌, ◌<◌, ◌≤◌, None, Some, true, false, drop, length, MatchOption, IfSome};
ghost use Rattle.regex_syntax.specs.Reading.{begins};
ghost use Rattle.am_matcher.specs.Re2Spelling.{spelled};
ghost use Rattle.am_matcher.specs.Re2Pieces.{named_property, braced_property, property_at, is_range, skip_negation, named_class, member, range_end, range_of, range_from, range, set_in_class, property_in_class, range_at, escape_in_class, class_item, later_item, class_start};

use crate::re2::escapes::{escaped_character, is_perl};
use crate::re2::names::{is_class, is_property};
use crate::re2::pieces::{PatternPart, PatternPiece, PatternPlace, Spelling, of_class, outside};
use crate::re2::runs::{before, split_word};

/// Returns the spelling of the property with this name, and the text behind it.
#[tactic(auto, unfolding(crate::specs::Re2Pieces::named_property, crate::specs::Re2Spelling::spelled))]
fn named_property<'a>(
    negated: bool,
    name: &'a [char],
    rest: &'a [char],
) -> Option<(Spelling<'a>, &'a [char])>
    ensures value { MatchOption result (named_property negated name.now rest.now ≡ None)
        (λ found. named_property negated name.now rest.now ≡ Some (spelled found.0, found.1.now)) }
    ensures rest { IfSome result (λ found. found.1.now ≡ rest.now) }
{
    if is_property(name) {
        Some((Spelling::Property(negated, name), rest))
    } else {
        None
    }
}

/// Returns the spelling of the property whose name stands before a brace, and the text behind it.
#[tactic(auto, unfolding(crate::specs::Re2Pieces::braced_property))]
fn braced_property(negated: bool, text: &[char]) -> Option<(Spelling<'_>, &[char])>
    ensures value { MatchOption result (braced_property negated text.now ≡ None)
        (λ found. braced_property negated text.now ≡ Some (spelled found.0, found.1.now)) }
    ensures shorter { IfSome result (λ found. length found.1.now < length text.now) }
{
    let (name, rest) = split_word(text);
    match rest {
        ['}', rest @ ..] => named_property(negated, name, rest),
        _ => None,
    }
}

/// Returns the spelling of the property behind `\p` or `\P`, and the text behind it.
#[tactic(auto, unfolding(crate::specs::Re2Pieces::property_at))]
pub fn property_at(negated: bool, text: &[char]) -> Option<(Spelling<'_>, &[char])>
    ensures value { MatchOption result (property_at negated text.now ≡ None)
        (λ found. property_at negated text.now ≡ Some (spelled found.0, found.1.now)) }
    ensures shorter { IfSome result (λ found. length found.1.now < length text.now) }
{
    match text {
        ['{', '^', rest @ ..] => braced_property(!negated, rest),
        ['{', rest @ ..] => braced_property(negated, rest),
        [_, rest @ ..] => named_property(negated, before(text, rest), rest),
        [] => None,
    }
}

/// Returns whether a hyphen is at the front that doesn't end the class.
#[tactic(auto, unfolding(crate::specs::Re2Pieces::is_range))]
fn is_range(text: &[char]) -> bool
    ensures { result ≡ is_range text.now }
{
    match text {
        ['-', ']', ..] => false,
        ['-', ..] => true,
        _ => false,
    }
}

/// Returns the text without the `^` at the front, if one is there.
fn skip_negation(text: &[char]) -> &[char]
    ensures value { result.now ≡ skip_negation text.now }
    ensures shorter { length result.now ≤ length text.now }
{
    match text {
        ['^', rest @ ..] => rest,
        _ => text,
    }
}

/// Returns the text behind the `:]` at the front, or `None` if it isn't there.
fn behind_class(text: &[char]) -> Option<&[char]>
    ensures value { MatchOption result (begins ":]" text.now ≡ false)
        (λ rest. (begins ":]" text.now ≡ true) × (rest.now ≡ drop 2 text.now)) }
    ensures shorter { IfSome result (λ rest. length rest.now < length text.now) }
{
    match text {
        [':', ']', rest @ ..] => Some(rest),
        _ => None,
    }
}

/// Reads a POSIX class in brackets, whose name is behind the front of the text.
#[tactic(auto, unfolding(crate::specs::Re2Pieces::named_class, crate::specs::Re2Spelling::spelled))]
fn named_class<'a>(text: &'a [char], behind: &'a [char]) -> Option<PatternPiece<'a>>
    ensures value { result ≡ named_class text.now behind.now }
    ensures shorter { IfSome result (λ found. length found.rest < length behind.now) }
{
    let (name, rest) = split_word(skip_negation(behind));
    match behind_class(rest) {
        Some(rest) if is_class(name) => Some(of_class(Spelling::Source(before(text, rest)), rest)),
        _ => None,
    }
}

/// Returns the character of a class at the front, and the text behind it.
#[tactic(auto, unfolding(crate::specs::Re2Pieces::member))]
fn member(text: &[char]) -> Option<(char, &[char])>
    ensures value { MatchOption result (member text.now ≡ None)
        (λ found. member text.now ≡ Some (found.0, found.1.now)) }
    ensures shorter { IfSome result (λ found. length found.1.now < length text.now) }
{
    match text {
        ['\\', rest @ ..] => escaped_character(rest),
        [character, rest @ ..] => Some((*character, rest)),
        [] => None,
    }
}

/// Returns the last character of a range, and the text behind it.
#[tactic(auto, unfolding(crate::specs::Re2Pieces::range_end))]
fn range_end(text: &[char]) -> Option<(char, &[char])>
    ensures value { MatchOption result (range_end text.now ≡ None)
        (λ found. range_end text.now ≡ Some (found.0, found.1.now)) }
    ensures shorter { IfSome result (λ found. length found.1.now < length text.now) }
{
    match text {
        ['[' | '-', ..] => None,
        _ => member(text),
    }
}

/// Returns the range of these characters, or `None` if they are out of order.
#[tactic(auto, unfolding(crate::specs::Re2Pieces::range_of, crate::specs::Re2Spelling::spelled))]
fn range_of<'a>(low: char, high: char, rest: &'a [char]) -> Option<PatternPiece<'a>>
    ensures value { result ≡ range_of low high rest.now }
    ensures rest { IfSome result (λ found. found.rest ≡ rest.now) }
{
    if low <= high {
        Some(of_class(Spelling::Range(low, high), rest))
    } else {
        None
    }
}

/// Returns the range that begins with this character and goes on behind a hyphen.
#[tactic(auto, unfolding(crate::specs::Re2Pieces::range_from))]
fn range_from<'a>(low: char, behind: &'a [char]) -> Option<PatternPiece<'a>>
    ensures value { result ≡ range_from low behind.now }
    ensures shorter { IfSome result (λ found. length found.rest < length behind.now) }
{
    match range_end(behind) {
        Some((high, rest)) => range_of(low, high, rest),
        None => None,
    }
}

/// Reads a range that begins with this character, or the character alone.
#[tactic(auto, unfolding(crate::specs::Re2Pieces::range, crate::specs::Re2Pieces::is_range, crate::specs::Re2Spelling::spelled))]
fn range<'a>(low: char, text: &'a [char]) -> Option<PatternPiece<'a>>
    ensures value { result ≡ range low text.now }
    ensures shorter { IfSome result (λ found. length found.rest ≤ length text.now) }
{
    match text {
        ['-', ']', ..] => Some(of_class(Spelling::Character(low), text)),
        ['-', rest @ ..] => range_from(low, rest),
        _ => Some(of_class(Spelling::Character(low), text)),
    }
}

/// Reads a character or a range at the front.
#[tactic(auto, unfolding(crate::specs::Re2Pieces::range_at))]
fn range_at(text: &[char]) -> Option<PatternPiece<'_>>
    ensures value { result ≡ range_at text.now }
    ensures shorter { IfSome result (λ found. length found.rest < length text.now) }
{
    match member(text) {
        Some((low, rest)) => range(low, rest),
        None => None,
    }
}

/// Reads a set in brackets. No range begins with it.
#[tactic(auto, unfolding(crate::specs::Re2Pieces::set_in_class))]
fn set_in_class<'a>(spelling: Spelling<'a>, rest: &'a [char]) -> Option<PatternPiece<'a>>
    ensures value { result ≡ set_in_class (spelled spelling.entry) rest.now }
    ensures rest { IfSome result (λ found. found.rest ≡ rest.now) }
{
    if is_range(rest) {
        None
    } else {
        Some(of_class(spelling, rest))
    }
}

/// Reads the set of a property in brackets.
#[tactic(auto, unfolding(crate::specs::Re2Pieces::property_in_class))]
fn property_in_class(negated: bool, text: &[char]) -> Option<PatternPiece<'_>>
    ensures value { result ≡ property_in_class negated text.now }
    ensures shorter { IfSome result (λ found. length found.rest < length text.now) }
{
    match property_at(negated, text) {
        Some((spelling, rest)) => set_in_class(spelling, rest),
        None => None,
    }
}

/// Reads an escape in brackets, whose backslash is at the front of the text.
#[tactic(auto, unfolding(crate::specs::Re2Pieces::escape_in_class, crate::specs::Re2Spelling::spelled))]
fn escape_in_class<'a>(text: &'a [char], behind: &'a [char]) -> Option<PatternPiece<'a>>
    requires { length behind.now < length text.now }
    ensures value { result ≡ escape_in_class text.now behind.now }
    ensures shorter { IfSome result (λ found. length found.rest < length text.now) }
{
    match behind {
        ['p', rest @ ..] => property_in_class(false, rest),
        ['P', rest @ ..] => property_in_class(true, rest),
        [letter, rest @ ..] if is_perl(*letter) => set_in_class(Spelling::Perl(*letter), rest),
        [_, ..] => range_at(text),
        [] => None,
    }
}

/// Reads the piece at the start of brackets.
#[tactic(auto, unfolding(crate::specs::Re2Pieces::class_item))]
pub fn class_item(text: &[char]) -> Option<PatternPiece<'_>>
    ensures value { result ≡ class_item text.now }
    ensures shorter { IfSome result (λ found. length found.rest < length text.now) }
{
    match text {
        ['[', ':', rest @ ..] => named_class(text, rest),
        ['\\', rest @ ..] => escape_in_class(text, rest),
        _ => range_at(text),
    }
}

/// Reads the next piece in brackets.
#[tactic(auto, unfolding(crate::specs::Re2Pieces::later_item, crate::specs::Re2Spelling::spelled))]
pub fn later_item(text: &[char]) -> Option<PatternPiece<'_>>
    ensures value { result ≡ later_item text.now }
    ensures shorter { IfSome result (λ found. length found.rest < length text.now) }
{
    match text {
        [']', rest @ ..] => Some(outside(
            PatternPart::Atom,
            Spelling::Source(before(text, rest)),
            rest,
        )),
        _ if is_range(text) => None,
        _ => class_item(text),
    }
}

/// Reads the start of a class at the front of the text.
#[tactic(auto, unfolding(crate::specs::Re2Pieces::class_start, crate::specs::Re2Spelling::spelled))]
pub fn class_start<'a>(text: &'a [char], behind: &'a [char]) -> PatternPiece<'a>
    ensures value { result ≡ class_start text.now behind.now }
    ensures shorter { length result.rest ≤ length behind.now }
{
    let rest = skip_negation(behind);
    PatternPiece {
        part: None,
        spelling: Spelling::Source(before(text, rest)),
        name: None,
        place: PatternPlace::ClassStart,
        rest,
    }
}
