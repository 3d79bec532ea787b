//! Spellings of pieces for `regex`.

ghost use Rattle.std.specs.Prelude.{◌≡◌, ◌++◌, ◌∷◌, OnOk};
ghost use Rattle.am_matcher.specs.Re2Spelling.{is_meta, literal, perl, property, spelled};

use crate::re2::pieces::Spelling;
use std::alloc::AllocError;

/// Returns whether the character has a meaning of its own somewhere in a pattern.
#[tactic(auto, unfolding(crate::specs::Re2Spelling::is_meta))]
fn is_meta(character: char) -> bool
    ensures { result ≡ is_meta character }
{
    matches!(
        character,
        '\\' | '.'
            | '+'
            | '*'
            | '?'
            | '('
            | ')'
            | '|'
            | '['
            | ']'
            | '{'
            | '}'
            | '^'
            | '$'
            | '#'
            | '&'
            | '-'
            | '~'
    )
}

/// Appends a character that stands for itself.
#[tactic(auto, unfolding(crate::specs::Re2Spelling::literal))]
fn push_character(out: &mut Vec<char>, character: char) -> Result<(), AllocError>
    ensures { OnOk result (out.new.items ≡ out.old.items ++ literal character) }
{
    if is_meta(character) {
        out.push('\\')?;
    }
    out.push(character)?;
    Ok(())
}

/// Appends characters.
fn push_all(out: &mut Vec<char>, characters: &[char]) -> Result<(), AllocError>
    ensures { OnOk result (out.new.items ≡ out.old.items ++ characters.now) }
{
    out.extend_from_slice(characters)?;
    Ok(())
}

/// Returns the class of a Perl letter, over ASCII.
#[tactic(auto, unfolding(crate::specs::Re2Spelling::perl))]
fn perl(letter: char) -> &'static [char]
    ensures { result.now ≡ perl letter }
{
    match letter {
        'd' => &['[', '0', '-', '9', ']'],
        'D' => &['[', '^', '0', '-', '9', ']'],
        's' => &['[', '\\', 't', '\\', 'n', '\\', 'f', '\\', 'r', ' ', ']'],
        'S' => &[
            '[', '^', '\\', 't', '\\', 'n', '\\', 'f', '\\', 'r', ' ', ']',
        ],
        'w' => &['[', '0', '-', '9', 'A', '-', 'Z', 'a', '-', 'z', '_', ']'],
        _ => &[
            '[', '^', '0', '-', '9', 'A', '-', 'Z', 'a', '-', 'z', '_', ']',
        ],
    }
}

/// Appends a range: its first character, a hyphen, and its last character.
#[tactic(auto, unfolding(crate::specs::Re2Spelling::spelled))]
fn push_range(out: &mut Vec<char>, low: char, high: char) -> Result<(), AllocError>
    ensures { OnOk result (out.new.items ≡ out.old.items ++ (literal low ++ 0x2D ∷ literal high)) }
{
    push_character(out, low)?;
    out.push('-')?;
    push_character(out, high)
}

/// Appends the class of a property, or of all characters that lack it.
#[tactic(auto, unfolding(crate::specs::Re2Spelling::property))]
fn push_property(out: &mut Vec<char>, negated: bool, name: &[char]) -> Result<(), AllocError>
    ensures { OnOk result (out.new.items ≡ out.old.items ++ property negated name.now) }
{
    if negated {
        push_all(out, &['\\', 'P', '{'])?;
    } else {
        push_all(out, &['\\', 'p', '{'])?;
    }
    push_all(out, name)?;
    push_all(out, &['}'])
}

/// Appends the spelling of a piece.
#[tactic(auto, unfolding(crate::specs::Re2Spelling::spelled))]
pub fn push_spelling(out: &mut Vec<char>, spelling: Spelling<'_>) -> Result<(), AllocError>
    ensures { OnOk result (out.new.items ≡ out.old.items ++ spelled spelling.entry) }
{
    match spelling {
        Spelling::Source(source) => push_all(out, source),
        Spelling::Character(character) => push_character(out, character),
        Spelling::Range(low, high) => push_range(out, low, high),
        Spelling::Perl(letter) => push_all(out, perl(letter)),
        Spelling::Property(negated, name) => push_property(out, negated, name),
        Spelling::Boundary => push_all(out, &['(', '?', '-', 'u', ':', '\\', 'b', ')']),
        Spelling::Group => push_all(out, &['(']),
        Spelling::Nothing => Ok(()),
    }
}
