//! An iterator over matchers, which reads them from their canonical encoding.

ghost use Rattle.std.specs.Prelude.{◌≡◌, ℕ, ◌==◌, ◌<◌, ◌^◌, ◌++◌, List, All, length};
ghost use Rattle.std.specs.Iterator.{YieldsFirst, item_count};
ghost use Rattle.am_wire.specs.Writing.{writes_text};
ghost use Rattle.am_silence.specs.declared.matcher.Matcher.{Matcher};
ghost use Rattle.am_silence.specs.Matchers.{writes_matcher, IsMatcher};
ghost use Rattle.am_silence.specs.MatcherTexts.{matchers_in, writes_matchers, IsMatchersText, IsMatcherText, Leads};

use crate::matcher::{MatcherKind, MatcherRef};
use am_wire::reading::split_part;
use std::marker::Model;

/// The tags of a matcher's fields: its type, its name and its pattern.
const KIND_TAG: u8 = 8;

const NAME_TAG: u8 = 18;

const PATTERN_TAG: u8 = 26;

/// A value that has matchers, owned or borrowed.
pub trait HasMatchers: Drop {
    /// The matchers.
    ghost listed: { Self → List Matcher };

    /// Returns an iterator over the matchers. Nothing is allocated.
    fn lent(&self) -> MatcherIter<'_>
        ensures { result ≡ listed self.now };
}

/// An iterator over matchers, which reads them from their canonical encoding, and allocates nothing.
///
/// Contracts see the matchers to come.
#[derive(Drop)]
pub struct MatcherIter<'a> {
    rest: &'a [u8],
}

impl<'a> Model for MatcherIter<'a> {
    ghost use Rattle.std.specs.Prelude.{List};
    ghost use Rattle.am_silence.specs.declared.matcher.Matcher.{Matcher};
    ghost use Rattle.am_silence.specs.MatcherTexts.{matchers_in, IsMatchersText};

    ghost Value = { List Matcher };

    ghost view = { λ i. matchers_in i.rest.now };

    ghost invariant = { λ i. IsMatchersText i.rest.now };
}

impl<'a> MatcherIter<'a> {
    /// Returns an iterator over the matchers of a text.
    pub(crate) fn over(text: &'a [u8]) -> MatcherIter<'a>
        requires { IsMatchersText text.now }
        ensures { result ≡ matchers_in text.now }
    {
        MatcherIter { rest: text }
    }

    /// Returns whether there are no more matchers.
    pub fn is_empty(&self) -> bool
        ensures { result ≡ (length self.now == 0) }
    {
        self.rest.is_empty()
    }

    /// Returns the canonical encoding of the matchers to come.
    pub(crate) fn as_text(&self) -> &'a [u8]
        ensures text { result.now ≡ writes_matchers self.now }
        ensures values { All IsMatcher self.now }
        ensures short { length (writes_matchers self.now) < 2 ^ 64 }
    {
        self.rest
    }
}

impl HasMatchers for MatcherIter<'_> {
    ghost listed = { λ matchers. matchers };

    fn lent(&self) -> MatcherIter<'_> {
        MatcherIter { rest: self.rest }
    }
}

impl<'a> Iterator for MatcherIter<'a> {
    type Item = MatcherRef<'a>;

    ghost next_gives = { YieldsFirst (λ rest. rest) };

    ghost remaining = { item_count (λ rest. rest) };

    fn next(&mut self) -> Option<MatcherRef<'a>> {
        if self.rest.is_empty() {
            return None;
        }
        let (text, rest) = split_part(&self.rest[1..]);
        self.rest = rest;
        Some(matcher_of(text))
    }
}

// Returns the matcher with this canonical encoding.
fn matcher_of(text: &[u8]) -> MatcherRef<'_>
    requires { (m : Matcher) × IsMatcherText text.now m }
    ensures { (m : Matcher) → IsMatcherText text.now m → result ≡ m }
{
    let (kind, texts) = split_kind(text);
    let (name, rest) = split_text(texts, NAME_TAG);
    let (pattern, _) = split_text(rest, PATTERN_TAG);
    MatcherRef::new(kind, name, pattern)
}

// Splits a matcher's text into its kind, which is left out if its number is 0, and the rest.
fn split_kind(text: &[u8]) -> (MatcherKind, &[u8])
    ensures { (m : Matcher) → text.now ≡ writes_matcher m →
        (result.0 ≡ m.kind) × (result.1.now ≡ writes_text 2 m.name ++ writes_text 3 m.pattern) }
{
    if text.len() < 2 || text[0] != KIND_TAG {
        return (MatcherKind::Equal, text);
    }
    (MatcherKind::of_number(u64::from(text[1])), &text[2..])
}

// Splits bytes into the text behind a tag, which is left out if it is empty, and the rest.
fn split_text(bytes: &[u8], tag: u8) -> (&str, &[u8])
    requires { (text rest : List ℕ) × Leads tag text rest bytes.now }
    ensures { (text rest : List ℕ) → Leads tag text rest bytes.now → (result.0.now ≡ text) × (result.1.now ≡ rest) }
{
    if bytes.is_empty() || bytes[0] != tag {
        return ("", bytes);
    }
    let (text, rest) = split_part(&bytes[1..]);
    (unsafe { str::from_utf8_unchecked(text) }, rest)
}
