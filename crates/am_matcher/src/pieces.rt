//! The values of filters, piece by piece.

ghost use Rattle.std.specs.Prelude.{◌≡◌, ◌≢◌, ◌++◌, ◌∷◌, [], ℕ, List, length, map, IfOk, MatchOption, string_bytes, encode_utf8_all, ◌<◌};
ghost use Rattle.std.specs.List.{list_any};
ghost use Rattle.am_matcher.specs.Filters.{escape_of, pieces, quote, is_quote, IsInside};

use std::alloc::{AllocError, Global};

/// A piece of a value, which stands for one character: an escape, or the character itself.
#[derive(Clone, Copy)]
pub struct Piece {
    pub escaped: bool,
    pub character: char,
}

impl Piece {
    /// Returns whether the piece is a quote that isn't escaped.
    fn is_quote(&self) -> bool
        ensures { result ≡ is_quote self.now }
    {
        !self.escaped && self.character == '"'
    }
}

/// Returns the character that a backslash and this character stand for, or `None` if they have no meaning of their own.
fn escaped(character: char) -> Option<char>
    ensures { result ≡ escape_of character }
{
    match character {
        '"' => Some('"'),
        '\\' => Some('\\'),
        'n' => Some('\n'),
        _ => None,
    }
}

/// Returns the first piece and the characters behind it, or `None` if there are no characters.
fn first_piece(characters: &[char]) -> Option<(Piece, &[char])>
    ensures none { MatchOption result (characters.now ≡ [])
        (λ found. pieces characters.now ≡ found.0 ∷ pieces found.1.now) }
    ensures shorter { MatchOption result (characters.now ≡ [])
        (λ found. length found.1.now < length characters.now) }
{
    match characters {
        [] => None,
        ['\\', next, rest @ ..] if let Some(character) = escaped(*next) => {
            let piece = Piece {
                escaped: true,
                character,
            };
            Some((piece, rest))
        }
        [character, rest @ ..] => {
            let piece = Piece {
                escaped: false,
                character: *character,
            };
            Some((piece, rest))
        }
    }
}

/// Returns the pieces of a value.
pub fn pieces_of(alloc: Global, written: &[char]) -> Result<Vec<Piece>, AllocError>
    ensures { IfOk result (λ found. found.items ≡ pieces written.now) }
{
    let mut found = Vec::new(alloc);
    let mut left = written;
    while let Some((piece, rest)) = first_piece(left) {
        found.push(piece)?;
        left = rest;
    }
    Ok(found)
}

/// Returns the pieces between a quote at the front and another one at the end, or `None` if these aren't there.
fn between_quotes(all: &[Piece]) -> Option<&[Piece]>
    ensures { MatchOption result ((inside : List Piece) → all.now ≢ quote ∷ (inside ++ quote ∷ []))
        (λ inside. all.now ≡ quote ∷ (inside.now ++ quote ∷ [])) }
{
    match all {
        [first, inside @ .., last] if first.is_quote() && last.is_quote() => Some(inside),
        _ => None,
    }
}

/// Returns whether one of the pieces is a quote that isn't escaped.
fn has_quote(all: &[Piece]) -> bool
    ensures { result ≡ list_any is_quote all.now }
{
    all.iter().any(|piece| piece.is_quote())
}

/// Returns the pieces without the quotes around them, or `None` if there is a further quote.
pub fn inside_of(all: &[Piece]) -> Option<&[Piece]>
    ensures { MatchOption result ((inside : List Piece) → ¬ IsInside all.now inside)
        (λ inside. IsInside all.now inside.now) }
{
    let inside = match between_quotes(all) {
        Some(inside) => inside,
        None => all,
    };
    if has_quote(inside) {
        None
    } else {
        Some(inside)
    }
}

/// Returns the text of the characters that the pieces stand for.
pub fn text_of_pieces(alloc: Global, all: &[Piece]) -> Result<String, AllocError>
    ensures { IfOk result (λ text.
        string_bytes text ≡ encode_utf8_all (map (λ piece. piece.character) all.now)) }
{
    all.iter().map(|piece| piece.character).collect(alloc)
}

/// Returns the text of these characters.
pub fn text_of(alloc: Global, characters: &[char]) -> Result<String, AllocError>
    ensures { IfOk result (λ text. string_bytes text ≡ encode_utf8_all characters.now) }
{
    characters.iter().copied().collect(alloc)
}
