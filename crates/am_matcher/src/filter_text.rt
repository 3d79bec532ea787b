//! The parts of a filter's text.

ghost use Rattle.std.specs.Prelude.{◌≡◌, ◌++◌, ℕ, List, true, false, length, reverse, Some, None, MatchOption};
ghost use Rattle.std.specs.List.{take_while};
ghost use Rattle.am_matcher.specs.Filters.{is_blank, is_name_character, begins_name, begins_with, sign_of, sign_at, IsRun, IsSplit};
ghost use Rattle.am_silence.specs.declared.matcher.MatcherKind.{MatcherKind};

use am_silence::MatcherKind;

/// The parts of a filter's text.
#[derive(Clone, Copy)]
pub struct FilterParts<'a> {
    pub kind: MatcherKind,
    pub name: &'a [char],
    pub written: &'a [char],
}

fn is_blank(character: char) -> bool
    ensures { result ≡ is_blank character }
{
    character.is_ascii_whitespace()
}

fn is_name_character(character: char) -> bool
    ensures { result ≡ is_name_character character }
{
    character.is_ascii_alphanumeric() || character == '_' || character == ':'
}

/// Returns the number of blanks at the front.
fn blanks_at_front(characters: &[char]) -> usize
    ensures { result ≡ length (take_while is_blank characters.now) }
{
    characters.iter().take_while(|c| is_blank(**c)).count()
}

/// Returns the number of blanks at the end.
fn blanks_at_end(characters: &[char]) -> usize
    ensures { result ≡ length (take_while is_blank (reverse characters.now)) }
{
    characters
        .iter()
        .rev()
        .take_while(|c| is_blank(**c))
        .count()
}

/// Returns the number of characters of a name at the front.
fn name_len(characters: &[char]) -> usize
    ensures { result ≡ length (take_while is_name_character characters.now) }
{
    characters
        .iter()
        .take_while(|c| is_name_character(**c))
        .count()
}

/// Returns the text without the blanks at the front.
fn skip_blanks(characters: &[char]) -> &[char]
    ensures { (front : List ℕ) × IsRun is_blank characters.now front result.now }
{
    let (_, rest) = characters.split_at(blanks_at_front(characters));
    rest
}

/// Returns the text without the blanks at the end.
fn drop_blanks(characters: &[char]) -> &[char]
    ensures { (behind : List ℕ) × IsRun is_blank (reverse characters.now) behind (reverse result.now) }
{
    let (front, _) = characters.split_at(characters.len() - blanks_at_end(characters));
    front
}

/// Returns whether a name begins at the front.
fn begins_name(characters: &[char]) -> bool
    ensures { result ≡ begins_with begins_name characters.now }
{
    match characters {
        [] => false,
        [first, ..] => is_name_character(*first) && !first.is_ascii_digit(),
    }
}

/// Returns the name at the front and the text behind it, or `None` if no name is there.
fn split_name(characters: &[char]) -> Option<(&[char], &[char])>
    ensures { MatchOption result (begins_with begins_name characters.now ≡ false)
        (λ found. (begins_with begins_name characters.now ≡ true)
        × IsRun is_name_character characters.now found.0.now found.1.now) }
{
    if begins_name(characters) {
        Some(characters.split_at(name_len(characters)))
    } else {
        None
    }
}

/// Returns the kind of the sign at the front and the text behind the sign, or `None` if no sign is there.
fn split_sign(characters: &[char]) -> Option<(MatcherKind, &[char])>
    ensures { MatchOption result (sign_at characters.now ≡ None)
        (λ found. (sign_at characters.now ≡ Some found.0) × (characters.now ≡ sign_of found.0 ++ found.1.now)) }
{
    match characters {
        ['=', '~', rest @ ..] => Some((MatcherKind::Regexp, rest)),
        ['!', '~', rest @ ..] => Some((MatcherKind::NotRegexp, rest)),
        ['!', '=', rest @ ..] => Some((MatcherKind::NotEqual, rest)),
        ['=', rest @ ..] => Some((MatcherKind::Equal, rest)),
        _ => None,
    }
}

/// Returns the parts of a filter, or `None` if the text isn't one.
pub fn parts_of(text: &[char]) -> Option<FilterParts<'_>>
    ensures { MatchOption result ((kind : MatcherKind) (name written : List ℕ) → ¬ IsSplit text.now kind name written)
        (λ parts. IsSplit text.now parts.kind parts.name.now parts.written.now) }
{
    let (name, rest) = split_name(skip_blanks(text))?;
    let (kind, rest) = split_sign(skip_blanks(rest))?;
    Some(FilterParts {
        kind,
        name,
        written: drop_blanks(skip_blanks(rest)),
    })
}
