//! The names of labels.

ghost use Rattle.std.specs.Prelude.{◌≡◌, ◌==◌, ◌||◌};
ghost use Rattle.std.specs.List.{list_all};
ghost use Rattle.std.specs.Char.{is_ascii_alphabetic, is_ascii_alphanumeric};
ghost use Rattle.am_matcher.specs.Dialects.{is_label, are_labels, takes_names};

use crate::dialect::Dialect;
use am_silence::MatcherIter;

/// Returns whether the byte may begin the name of a label.
fn begins_label(byte: u8) -> bool
    ensures { result ≡ (is_ascii_alphabetic byte || (byte == 0x5F)) }
{
    byte.is_ascii_alphabetic() || byte == b'_'
}

/// Returns whether the byte may stand in the name of a label.
fn is_in_label(byte: u8) -> bool
    ensures { result ≡ (is_ascii_alphanumeric byte || (byte == 0x5F)) }
{
    byte.is_ascii_alphanumeric() || byte == b'_'
}

/// Returns whether all bytes may stand in the name of a label.
fn are_in_label(bytes: &[u8]) -> bool
    ensures { result ≡ list_all (λ d. is_ascii_alphanumeric d || (d == 0x5F)) bytes.now }
{
    bytes.iter().all(|byte| is_in_label(*byte))
}

/// Returns whether the bytes are the name of a label.
fn is_label(name: &[u8]) -> bool
    ensures { result ≡ is_label name.now }
{
    match name {
        [] => false,
        [first, rest @ ..] => begins_label(*first) && are_in_label(rest),
    }
}

/// Returns whether all matchers have names of labels.
pub fn are_labels(matchers: MatcherIter<'_>) -> bool
    ensures { result ≡ are_labels matchers.entry }
{
    let mut all = true;
    for matcher in matchers {
        all &= is_label(matcher.name().as_bytes());
    }
    all
}

/// Returns whether posted matchers may have their names in the dialect.
pub fn takes_names(dialect: Dialect, matchers: MatcherIter<'_>) -> bool
    ensures { result ≡ takes_names dialect matchers.entry }
{
    match dialect {
        Dialect::Regex => true,
        Dialect::Re2 => are_labels(matchers),
    }
}
