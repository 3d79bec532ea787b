//! The words of a line.

ghost use Rattle.std.specs.Prelude.{◌≡◌, ℕ, List, Option, ◌≤◌, ◌<◌, ◌==◌, map, drop, length, IfOk, string_bytes, string_len};
ghost use Rattle.std.specs.Borrow.{Bor};
ghost use Rattle.std.specs.List.{slice_split};
ghost use Rattle.am_schedule.specs.Readings.{GivesUnlessMemory};
ghost use Rattle.am_schedule.specs.Words.{words_of, word_at, text_in, in_place, is_short};

use crate::error::FaultKind;
use std::alloc::{AllocError, Global};
use std::marker::Model;

/// The maximum number of bytes in a word.
pub(crate) const MAX_WORD: usize = 1024;

/// A word of a line: a text of at most 1,024 bytes. Contracts see its bytes. Only the reading of a schedule makes one.
#[derive(Drop)]
pub struct Word {
    text: String,
}

impl Model for Word {
    ghost use Rattle.std.specs.Prelude.{List, ℕ, ◌≤◌, length, string_bytes};

    ghost Value = { List ℕ };

    ghost view = { λ w. string_bytes w.text };

    ghost invariant = { λ w. length (string_bytes w.text) ≤ 1024 };
}

impl Word {
    /// Returns the word: at most 1,024 bytes.
    pub fn as_str(&self) -> &str
        ensures text { result.now ≡ self.now }
        ensures short { length self.now ≤ 1024 }
    {
        self.text.as_str()
    }

    /// Converts a text that is short enough into a word.
    pub(crate) fn of(alloc: Global, text: &str) -> Result<Word, AllocError>
        requires { length text.now ≤ 1024 }
        ensures { IfOk result (λ word. word ≡ text.now) }
    {
        let text = String::from_str(alloc, text)?;
        Ok(Word { text })
    }

    /// Converts a text into a word, or returns `Name` if it is too long.
    #[tactic(auto, unfolding(crate::specs::Words::text_in))]
    pub(crate) fn read(alloc: Global, text: &str) -> Result<Word, FaultKind>
        ensures { GivesUnlessMemory result (text_in text.now) }
    {
        if text.len() > MAX_WORD {
            return Err(FaultKind::Name);
        }
        let word = Word::of(alloc, text)?;
        Ok(word)
    }

    /// Returns a copy, or [`AllocError`] if memory runs out.
    pub(crate) fn try_clone(&self, alloc: Global) -> Result<Word, AllocError>
        ensures { IfOk result (λ copy. copy ≡ self.now) }
    {
        Word::of(alloc, self.as_str())
    }
}

/// Splits a text at each occurrence of an ASCII character.
pub(crate) fn split_at(alloc: Global, text: &str, separator: char) -> Result<Vec<&str>, AllocError>
    requires { separator < 128 }
    ensures { IfOk result (λ parts. map (λ p. p.now) parts.items ≡ slice_split (λ b. b == separator) text.now) }
{
    text.split(separator).collect(alloc)
}

/// Splits a line into its words, which are separated by one space.
#[tactic(auto, unfolding(crate::specs::Words::words_of))]
pub(crate) fn split_words(alloc: Global, line: &str) -> Result<Vec<&str>, AllocError>
    ensures { IfOk result (λ words. map (λ w. w.now) words.items ≡ words_of line.now) }
{
    split_at(alloc, line, ' ')
}

/// Returns the number of words in a line. This takes no memory.
pub(crate) fn word_count(line: &str) -> usize
    ensures { result ≡ length (words_of line.now) }
{
    line.split(' ').count()
}

/// Returns the word at a place of a line, or the empty text after the last one. This takes no memory.
pub(crate) fn word_of(line: &str, place: usize) -> &str
    ensures { result.now ≡ word_at place (words_of line.now) }
{
    line.split(' ').nth(place).unwrap_or("")
}

/// Returns the words after a place.
pub(crate) fn behind<'a>(words: &'a [&'a str], place: usize) -> &'a [&'a str]
    ensures { map (λ w. w.now) result.now ≡ drop place (map (λ w. w.now) words.now) }
{
    if place <= words.len() {
        &words[place..]
    } else {
        &[]
    }
}

/// Returns the value of the word in a place, as `read` reads it: `Number` if it has none, then `Name` if the word is too long.
#[tactic(auto, unfolding(crate::specs::Words::in_place))]
pub(crate) fn value_at<T: Copy, F: Fn(&str) -> Option<T>>(
    line: &str,
    place: usize,
    read: F,
) -> Result<T, FaultKind>
    requires { F.IsAlwaysCallable read }
    ensures { (word : Bor (List ℕ)) × (value : Option T) × F.post read word value × (word.now ≡ word_at place (words_of line.now))
        × (result ≡ in_place value word.now) }
{
    let word = word_of(line, place);
    let value = read(word).ok_or(FaultKind::Number)?;
    if word.len() > MAX_WORD {
        return Err(FaultKind::Name);
    }
    Ok(value)
}
