//! The part of MessagePack that memberlist writes: maps of scalars with texts as keys. Maps aren't nested.

ghost use Rattle.std.specs.Prelude.{◌≡◌, ◌≤◌};
ghost use Rattle.am_memberlist.specs.Msgpack.{bytes_of, number_width, text_width, blob_width, is_word, long_lead, lead_of, cut_at, number_in, text_in, scalar_at, pair_at, count_at, map_at};
ghost use Rattle.am_memberlist.specs.Seen.{cut_seen, number_seen, scalar_seen, pair_seen, map_seen};
ghost use Rattle.am_memberlist.specs.Answers.{GivesUnlessMemory};

use crate::error::AnswerError;
use crate::number::big_endian;
use std::alloc::Global;

/// A value in a map.
#[derive(Clone, Copy)]
pub enum Scalar<'a> {
    Number(u64),
    /// A text, or bytes.
    Raw(&'a [u8]),
    /// Nil, false or true.
    Word,
}

/// A key with its value.
#[derive(Clone, Copy)]
pub struct MapPair<'a> {
    pub key: &'a [u8],
    pub value: Scalar<'a>,
}

/// The number of bytes of a number.
#[derive(Clone, Copy, PartialEq, Eq)]
pub enum Width {
    One,
    Two,
    Four,
    Eight,
}

impl Width {
    /// Returns the number of bytes.
    fn bytes(self) -> usize
        ensures value { result ≡ bytes_of self }
        ensures few { result ≤ 8 }
    {
        match self {
            Width::One => 1,
            Width::Two => 2,
            Width::Four => 4,
            Width::Eight => 8,
        }
    }
}

/// The meaning of the first byte of a scalar.
#[derive(Clone, Copy, PartialEq, Eq)]
pub enum Lead {
    /// The scalar is this number.
    Number(u8),
    /// The scalar is a word.
    Word,
    /// This many bytes follow.
    Raw(u8),
    /// A number of this width follows.
    NumberOf(Width),
    /// A length of this width follows, and then as many bytes.
    RawOf(Width),
    /// The scalar is not one that memberlist writes here.
    Other,
}

/// Returns the width of the number after the first byte of a scalar, if the scalar is a number.
fn number_width(byte: u8) -> Option<Width>
    ensures { result ≡ number_width byte }
{
    if byte == 204 {
        return Some(Width::One);
    }
    if byte == 205 {
        return Some(Width::Two);
    }
    if byte == 206 {
        return Some(Width::Four);
    }
    if byte == 207 {
        return Some(Width::Eight);
    }
    None
}

/// Returns the width of the length after the first byte of a scalar, if the scalar is a text.
fn text_width(byte: u8) -> Option<Width>
    ensures { result ≡ text_width byte }
{
    if byte == 217 {
        return Some(Width::One);
    }
    if byte == 218 {
        return Some(Width::Two);
    }
    if byte == 219 {
        return Some(Width::Four);
    }
    None
}

/// Returns the width of the length after the first byte of a scalar, if the scalar is bytes and no text.
fn blob_width(byte: u8) -> Option<Width>
    ensures { result ≡ blob_width byte }
{
    if byte == 196 {
        return Some(Width::One);
    }
    if byte == 197 {
        return Some(Width::Two);
    }
    if byte == 198 {
        return Some(Width::Four);
    }
    None
}

/// Returns whether the byte is nil, false or true.
fn is_word(byte: u8) -> bool
    ensures { result ≡ is_word byte }
{
    byte == 192 || byte == 194 || byte == 195
}

/// Returns the meaning of a first byte that is no word and doesn't contain its number.
fn long_lead(byte: u8) -> Lead
    ensures { result ≡ long_lead (number_width byte) (text_width byte) (blob_width byte) }
{
    if let Some(width) = number_width(byte) {
        return Lead::NumberOf(width);
    }
    if let Some(width) = text_width(byte) {
        return Lead::RawOf(width);
    }
    match blob_width(byte) {
        Some(width) => Lead::RawOf(width),
        None => Lead::Other,
    }
}

/// Returns the meaning of the first byte of a scalar.
fn lead_of(byte: u8) -> Lead
    ensures { result ≡ lead_of byte }
{
    if byte < 128 {
        return Lead::Number(byte);
    }
    if is_word(byte) {
        return Lead::Word;
    }
    if byte < 160 {
        return Lead::Other;
    }
    if byte < 192 {
        return Lead::Raw(byte - 160);
    }
    long_lead(byte)
}

/// Returns the first `count` bytes, and those after them.
fn cut_at(bytes: &[u8], count: usize) -> Result<(&[u8], &[u8]), AnswerError>
    ensures { cut_seen result ≡ cut_at count bytes.now }
{
    if bytes.len() < count {
        return Err(AnswerError::Cut);
    }
    Ok(bytes.split_at(count))
}

/// Returns the number in the first bytes, and the bytes after it.
fn number_in(bytes: &[u8], width: Width) -> Result<(u64, &[u8]), AnswerError>
    ensures { number_seen result ≡ number_in width bytes.now }
{
    let (digits, rest) = cut_at(bytes, width.bytes())?;
    Ok((big_endian(digits), rest))
}

/// Returns the bytes after their length, and the bytes after them.
fn text_in(bytes: &[u8], width: Width) -> Result<(&[u8], &[u8]), AnswerError>
    ensures { cut_seen result ≡ text_in width bytes.now }
{
    let (size, rest) = number_in(bytes, width)?;
    cut_at(rest, size as usize)
}

/// Returns the scalar at the front of the bytes, and the bytes after it.
#[tactic(auto, unfolding(crate::specs::Msgpack::scalar_at))]
fn scalar_at(bytes: &[u8]) -> Result<(Scalar<'_>, &[u8]), AnswerError>
    ensures { scalar_seen result ≡ scalar_at bytes.now }
{
    let Some((first, rest)) = bytes.split_first() else {
        return Err(AnswerError::Cut);
    };
    match lead_of(*first) {
        Lead::Number(number) => Ok((Scalar::Number(u64::from(number)), rest)),
        Lead::Word => Ok((Scalar::Word, rest)),
        Lead::Raw(size) => {
            let (raw, rest) = cut_at(rest, usize::from(size))?;
            Ok((Scalar::Raw(raw), rest))
        }
        Lead::NumberOf(width) => {
            let (number, rest) = number_in(rest, width)?;
            Ok((Scalar::Number(number), rest))
        }
        Lead::RawOf(width) => {
            let (raw, rest) = text_in(rest, width)?;
            Ok((Scalar::Raw(raw), rest))
        }
        Lead::Other => Err(AnswerError::Form),
    }
}

/// Returns the key and the value at the front of the bytes, and the bytes after them.
#[tactic(auto, unfolding(crate::specs::Msgpack::pair_at))]
fn pair_at(bytes: &[u8]) -> Result<(MapPair<'_>, &[u8]), AnswerError>
    ensures { pair_seen result ≡ pair_at bytes.now }
{
    let (key, rest) = scalar_at(bytes)?;
    let Scalar::Raw(key) = key else {
        return Err(AnswerError::Form);
    };
    let (value, rest) = scalar_at(rest)?;
    Ok((MapPair { key, value }, rest))
}

/// Returns the number of pairs in the map at the front of the bytes, and the bytes after its first one.
fn count_at(bytes: &[u8]) -> Result<(u8, &[u8]), AnswerError>
    ensures { number_seen result ≡ count_at bytes.now }
{
    let Some((first, rest)) = bytes.split_first() else {
        return Err(AnswerError::Cut);
    };
    if *first < 128 {
        return Err(AnswerError::Form);
    }
    if *first < 144 {
        return Ok((*first - 128, rest));
    }
    Err(AnswerError::Form)
}

/// Returns the pairs of the map at the front of the bytes, and the bytes after it.
pub fn map_at(alloc: Global, bytes: &[u8]) -> Result<(Vec<MapPair<'_>>, &[u8]), AnswerError>
    ensures { GivesUnlessMemory (map_seen result) (map_at bytes.now) }
{
    let (count, mut rest) = count_at(bytes)?;
    let mut pairs = Vec::new(alloc);
    for _ in 0..count {
        let (pair, behind) = pair_at(rest)?;
        pairs.push(pair)?;
        rest = behind;
    }
    Ok((pairs, rest))
}
