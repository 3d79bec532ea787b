//! Texts as words of a line.

ghost use Rattle.std.specs.Prelude.{◌≡◌, ℕ, Bool, unwrap_or};
ghost use Rattle.std.specs.Option.{option_copied};
ghost use Rattle.percent_encoding.specs.Iter.{encoded_text};
ghost use Rattle.am_report.specs.Words.{is_plain, is_plain_at_end, is_plain_in_list, spelled, word_by};

use percent_encoding::{AsciiSet, CONTROLS, PercentEncode, ascii_set, percent_encode};
use std::fmt::{self, Display};

/// The bytes of ASCII that don't stand for themselves in a word.
const SPELLED: AsciiSet = ascii_set!(CONTROLS.add(b' ').add(b'%'));

/// The bytes of ASCII that don't stand for themselves in a word of a list.
const SPELLED_IN_LIST: AsciiSet = ascii_set!(SPELLED.add(b','));

/// The bytes of ASCII that don't stand for themselves at the end of a line.
const SPELLED_AT_END: AsciiSet = ascii_set!(CONTROLS.add(b'%'));

/// A text that is displayed as a word: bytes from `!` to `~` except `%` as they are, each other byte as `%` and two
/// upper-case hexadecimal digits; the empty text as `-`, and the text `-` as `%2D`.
#[derive(Clone, Copy)]
pub struct EscapedWord<'a>(pub &'a [u8]);

impl Display for EscapedWord<'_> {
    ghost use Rattle.std.specs.Prelude.{Some};
    ghost use Rattle.am_report.specs.Words.{word_of};

    ghost output = { λ word. Some (word_of word.0.now) };

    #[tactic(auto, unfolding(crate::specs::Words::word_of))]
    fn fmt<W: fmt::Write>(&self, f: &mut fmt::Formatter<W>) -> fmt::Result {
        match fixed_word(self.0) {
            Some(word) => f.write_str(word),
            None => plain(self.0).fmt(f),
        }
    }
}

/// A text that is displayed as a word of a list, whose words have commas between them: like a [`EscapedWord`], with a comma as
/// `%2C`.
#[derive(Clone, Copy)]
pub struct ListedWord<'a>(pub &'a [u8]);

impl Display for ListedWord<'_> {
    ghost use Rattle.std.specs.Prelude.{Some};
    ghost use Rattle.am_report.specs.Words.{listed_word_of};

    ghost output = { λ word. Some (listed_word_of word.0.now) };

    #[tactic(auto, unfolding(crate::specs::Words::listed_word_of))]
    fn fmt<W: fmt::Write>(&self, f: &mut fmt::Formatter<W>) -> fmt::Result {
        match fixed_word(self.0) {
            Some(word) => f.write_str(word),
            None => plain_in_list(self.0).fmt(f),
        }
    }
}

/// A text that is displayed at the end of a line: like a [`EscapedWord`], but a blank stands for itself.
#[derive(Clone, Copy)]
pub struct Tail<'a>(pub &'a [u8]);

impl Display for Tail<'_> {
    ghost use Rattle.std.specs.Prelude.{Some};
    ghost use Rattle.am_report.specs.Words.{tail_of};

    ghost output = { λ tail. Some (tail_of tail.0.now) };

    #[tactic(auto, unfolding(crate::specs::Words::tail_of))]
    fn fmt<W: fmt::Write>(&self, f: &mut fmt::Formatter<W>) -> fmt::Result {
        match fixed_word(self.0) {
            Some(word) => f.write_str(word),
            None => plain_at_end(self.0).fmt(f),
        }
    }
}

/// Returns the word of a text that isn't spelled byte by byte.
fn fixed_word(text: &[u8]) -> Option<&'static str>
    ensures { (kept : ℕ → Bool) → word_by kept text.now ≡ unwrap_or (option_copied result) (spelled kept text.now) }
{
    if text.is_empty() {
        return Some("-");
    }
    if text == b"-".as_slice() {
        Some("%2D")
    } else {
        None
    }
}

/// Spells a text byte by byte.
fn plain(text: &[u8]) -> PercentEncode<'_>
    ensures { encoded_text result ≡ spelled is_plain text.now }
{
    percent_encode(text, SPELLED)
}

/// Spells a text byte by byte, as in a list.
fn plain_in_list(text: &[u8]) -> PercentEncode<'_>
    ensures { encoded_text result ≡ spelled is_plain_in_list text.now }
{
    percent_encode(text, SPELLED_IN_LIST)
}

/// Spells a text byte by byte, as at the end of a line.
fn plain_at_end(text: &[u8]) -> PercentEncode<'_>
    ensures { encoded_text result ≡ spelled is_plain_at_end text.now }
{
    percent_encode(text, SPELLED_AT_END)
}
