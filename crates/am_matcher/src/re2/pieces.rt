//! Pieces of a pattern.

ghost use Rattle.std.specs.Prelude.{◌≡◌, Some, None};
ghost use Rattle.am_matcher.specs.Re2Spelling.{spelled};
ghost use Rattle.am_matcher.specs.Re2Pieces.{outside, of_class};

use std::marker::Model;

/// The place where a piece of a pattern stands.
#[derive(Clone, Copy)]
pub enum PatternPlace {
    /// Outside of classes and quotations.
    Outside,
    /// At the start of a class, where `]` and `-` are characters.
    ClassStart,
    /// Behind the start of a class.
    Class,
    /// Between `\Q` and `\E`.
    Quotation,
}

/// The role of a piece among the pieces beside it.
#[derive(Clone, Copy)]
pub enum PatternPart {
    /// A character or a class, which may be repeated.
    Atom,
    /// An assertion, flags or a quotation, which may not be repeated.
    Fixed,
    /// A repetition of the part before it, up to this number of times, which is 1 if there is no count.
    Repeat(u32),
    Open,
    Close,
    Bar,
}

/// The spelling of a piece for `regex`.
#[derive(Clone, Copy)]
pub enum Spelling<'a> {
    /// The characters of the pattern itself.
    Source(&'a [char]),
    Character(char),
    Range(char, char),
    /// `\d`, `\s` or `\w` over ASCII, or all other characters if the letter is in upper case.
    Perl(char),
    /// The characters that have the property, or all others if the flag is true.
    Property(bool, &'a [char]),
    /// `\b` over ASCII.
    Boundary,
    /// The start of a group.
    Group,
    Nothing,
}

/// A piece at the front of a text. Contracts see the text that is written for it.
#[derive(Drop)]
pub struct PatternPiece<'a> {
    /// The role of the piece, if it isn't inside of a class or of a quotation.
    pub part: Option<PatternPart>,
    pub spelling: Spelling<'a>,
    /// The name of the group that the piece opens.
    pub name: Option<&'a [char]>,
    /// The place of the next piece.
    pub place: PatternPlace,
    pub rest: &'a [char],
}

impl<'a> Model for PatternPiece<'a> {
    ghost use Rattle.std.specs.Prelude.{option_map};
    ghost use Rattle.am_matcher.specs.Re2Spelling.{Read, spelled};

    ghost Value = { Read };

    ghost view = { λ p. record {
      part = p.part;
      written = spelled p.spelling;
      name = option_map (λ name. name.now) p.name;
      place = p.place;
      rest = p.rest.now;
    } };
}

/// Returns a piece outside of classes.
pub fn outside<'a>(part: PatternPart, spelling: Spelling<'a>, rest: &'a [char]) -> PatternPiece<'a>
    ensures { result ≡ outside part (spelled spelling.entry) rest.now }
{
    PatternPiece {
        part: Some(part),
        spelling,
        name: None,
        place: PatternPlace::Outside,
        rest,
    }
}

/// Returns a piece of a class.
pub fn of_class<'a>(spelling: Spelling<'a>, rest: &'a [char]) -> PatternPiece<'a>
    ensures { result ≡ of_class (spelled spelling.entry) rest.now }
{
    PatternPiece {
        part: None,
        spelling,
        name: None,
        place: PatternPlace::Class,
        rest,
    }
}
