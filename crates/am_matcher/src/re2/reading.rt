//! A reader of patterns, piece by piece.

ghost use Rattle.std.specs.Prelude.{◌≡◌, ◌++◌, ℕ, List, map, option_map, string_bytes, encode_utf8_all, OnOk, IfOk, MatchOption, MatchResult};
ghost use Rattle.am_matcher.specs.declared.re2.pieces.PatternPlace.TheVariants as places;
ghost use Rattle.am_matcher.specs.Re2.{Contents, no_contents, join, of_piece, to_list, IsRead, IsSoundContents, IsTranslated};

use crate::pieces::text_of;
use crate::re2::nesting::misplaced;
use crate::re2::outside::first_piece;
use crate::re2::pieces::{PatternPart, PatternPiece, PatternPlace};
use crate::re2::repeats::repeated;
use crate::re2::spelling::push_spelling;
use std::alloc::{AllocError, Global};
use std::marker::Model;

/// The pieces that were read of a pattern. Contracts see their contents.
#[derive(Drop)]
struct PatternReading {
    parts: Vec<PatternPart>,
    /// The number of characters before each part.
    places: Vec<usize>,
    written: Vec<char>,
    names: Vec<String>,
    /// The number of characters before the group of each name.
    name_places: Vec<usize>,
}

impl Model for PatternReading {
    ghost use Rattle.std.specs.Prelude.{map, string_bytes};
    ghost use Rattle.am_matcher.specs.Re2.{Contents};

    ghost Value = { Contents };

    ghost view = { λ r. record { parts = r.parts.items; written = r.written.items; names = map string_bytes r.names.items } };
}

/// Returns a reading before its first piece.
fn at_start(alloc: Global) -> PatternReading
    ensures { result ≡ no_contents }
{
    PatternReading {
        parts: Vec::new(alloc),
        places: Vec::new(alloc),
        written: Vec::new(alloc),
        names: Vec::new(alloc),
        name_places: Vec::new(alloc),
    }
}

/// Appends a value, if there is one.
fn push_part(parts: &mut Vec<PatternPart>, part: Option<PatternPart>) -> Result<(), AllocError>
    ensures { OnOk result (parts.new.items ≡ parts.old.items ++ to_list part) }
{
    if let Some(part) = part {
        parts.push(part)?;
    }
    Ok(())
}

/// Appends a name as a text, if there is one.
fn push_name(
    alloc: Global,
    names: &mut Vec<String>,
    name: Option<&[char]>,
) -> Result<(), AllocError>
    ensures { OnOk result (map string_bytes names.new.items
        ≡ map string_bytes names.old.items ++ to_list (option_map (λ n. encode_utf8_all n.now) name.entry)) }
{
    if let Some(name) = name {
        let name = text_of(alloc, name)?;
        names.push(name)?;
    }
    Ok(())
}

/// Appends a piece that stands behind this number of characters.
fn keep(
    alloc: Global,
    reading: &mut PatternReading,
    piece: &PatternPiece<'_>,
    place: usize,
) -> Result<(), AllocError>
    ensures { OnOk result (reading.new ≡ join reading.old (of_piece piece.now)) }
{
    push_spelling(&mut reading.written, piece.spelling)?;
    push_part(&mut reading.parts, piece.part)?;
    if piece.part.is_some() {
        reading.places.push(place)?;
    }
    push_name(alloc, &mut reading.names, piece.name)?;
    if piece.name.is_some() {
        reading.name_places.push(place)?;
    }
    Ok(())
}

/// Reads all pieces, or returns the number of characters before a fault.
fn read_pieces(
    alloc: Global,
    characters: &[char],
) -> Result<Result<PatternReading, usize>, AllocError>
    ensures { IfOk result (λ found. MatchResult found (IsRead places.Outside characters.now)
        (λ _. (contents : Contents) → ¬ IsRead places.Outside characters.now contents)) }
{
    let mut reading = at_start(alloc);
    let mut left = characters;
    let mut place = PatternPlace::Outside;
    while !left.is_empty() {
        let at = characters.len().saturating_sub(left.len());
        let Some(piece) = first_piece(place, left) else {
            return Ok(Err(at));
        };
        keep(alloc, &mut reading, &piece, at)?;
        left = piece.rest;
        place = piece.place;
    }
    match place {
        PatternPlace::Outside => Ok(Ok(reading)),
        _ => Ok(Err(characters.len())),
    }
}

/// Returns the number at the place, or 0 if there is none.
fn number_at(numbers: &[usize], place: usize) -> usize {
    numbers.get(place).copied().unwrap_or(0)
}

/// Returns the number of characters before a fault in what was read, or `None` if there is none.
fn fault_of(alloc: Global, reading: &PatternReading) -> Result<Option<usize>, AllocError>
    ensures { IfOk result (λ at. MatchOption at (IsSoundContents reading.now) (λ _. ¬ IsSoundContents reading.now)) }
{
    if let Some(place) = repeated(alloc, &reading.names)? {
        return Ok(Some(number_at(&reading.name_places, place)));
    }
    match misplaced(alloc, &reading.parts)? {
        Some(place) => Ok(Some(number_at(&reading.places, place))),
        None => Ok(None),
    }
}

/// Returns the pattern of `regex` for these characters, or the number of characters before a fault.
fn written_of(
    alloc: Global,
    characters: &[char],
    reading: PatternReading,
) -> Result<Result<Vec<char>, usize>, AllocError>
    requires { IsRead places.Outside characters.now reading }
    ensures { IfOk result (λ found. MatchResult found (λ written. IsTranslated characters.now written.items)
        (λ _. (written : List ℕ) → ¬ IsTranslated characters.now written)) }
{
    match fault_of(alloc, &reading)? {
        Some(at) => Ok(Err(at)),
        None => Ok(Ok(reading.written)),
    }
}

/// Reads a pattern, and returns the pattern that is written for it, or the number of characters before a fault.
pub fn translated(
    alloc: Global,
    characters: &[char],
) -> Result<Result<Vec<char>, usize>, AllocError>
    ensures { IfOk result (λ found. MatchResult found (λ written. IsTranslated characters.now written.items)
        (λ _. (written : List ℕ) → ¬ IsTranslated characters.now written)) }
{
    match read_pieces(alloc, characters)? {
        Ok(reading) => written_of(alloc, characters, reading),
        Err(at) => Ok(Err(at)),
    }
}
