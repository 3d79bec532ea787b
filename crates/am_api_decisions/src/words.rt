//! The words of a query.

ghost use Rattle.std.specs.Prelude.{◌≡◌, ◌≤◌, IfOk, IfSome, option_map, string_bytes};
ghost use Rattle.std.specs.List.{list_all};
ghost use Rattle.std.specs.Char.{is_ascii_digit};
ghost use Rattle.am_http.specs.Queries.{decoded};
ghost use Rattle.am_api_decisions.specs.Words.{number_in, number_or, text_or, truth_of, truth_or, within, word_in};

use am_wire::Text;
use form_urlencoded::{decode, raw_pairs};
use std::alloc::{AllocError, Global};

/// Decodes the bytes of a name or of a value.
fn text_of(alloc: Global, encoded: &[u8]) -> Result<String, AllocError>
    ensures { IfOk result (λ text. string_bytes text ≡ decoded encoded.now) }
{
    decode(alloc, encoded)?.into_owned(alloc)
}

/// Returns the decoded value of the first pair of a query that has the name, if there is one.
///
/// # Errors
///
/// [`AllocError`] if memory runs out.
pub fn word_in(alloc: Global, query: &str, name: &str) -> Result<Option<String>, AllocError>
    ensures { IfOk result (λ word. option_map string_bytes word ≡ word_in name.now query.now) }
{
    for (other, value) in raw_pairs(query.as_bytes()) {
        if text_of(alloc, other)?.as_str() == name {
            return Ok(Some(text_of(alloc, value)?));
        }
    }
    Ok(None)
}

/// Returns whether all bytes are ASCII digits.
fn are_digits(bytes: &[u8]) -> bool
    ensures { result ≡ list_all is_ascii_digit bytes.now }
{
    bytes.iter().all(|byte| byte.is_ascii_digit())
}

/// Reads a number below 2^64, in ASCII digits alone.
#[tactic(auto, unfolding(crate::specs::Words::number_in))]
fn number_in(text: &str) -> Option<u64>
    ensures { result ≡ number_in text.now }
{
    if text.is_empty() || !are_digits(text.as_bytes()) {
        return None;
    }
    match text.parse::<u64>() {
        Ok(number) => Some(number),
        Err(_) => None,
    }
}

/// Reads a number in a text, if it lies between `least` and `most`.
fn number_within(least: u64, most: u64, text: &str) -> Option<u64>
    ensures value { result ≡ within least most (number_in text.now) }
    ensures range { IfSome result (λ n. (least ≤ n) × (n ≤ most)) }
{
    let number = number_in(text)?;
    if number < least || number > most {
        return None;
    }
    Some(number)
}

/// Reads the number in a word, or returns `default` if the word is left out. The number lies between `least` and `most`, or there
/// is none.
pub fn number_or(default: u64, least: u64, most: u64, word: Option<String>) -> Option<u64>
    requires { (least ≤ default) × (default ≤ most) }
    ensures value { result ≡ number_or default least most (option_map string_bytes word) }
    ensures range { IfSome result (λ n. (least ≤ n) × (n ≤ most)) }
{
    match word {
        None => Some(default),
        Some(text) => number_within(least, most, text.as_str()),
    }
}

/// Reads the truth value in a text.
fn truth_of(text: &str) -> Option<bool>
    ensures { result ≡ truth_of text.now }
{
    if text == "true" {
        Some(true)
    } else if text == "false" {
        Some(false)
    } else {
        None
    }
}

/// Reads the truth value in a word, or returns `true` if the word is left out.
pub fn truth_or(word: Option<String>) -> Option<bool>
    ensures { result ≡ truth_or (option_map string_bytes word) }
{
    match word {
        None => Some(true),
        Some(text) => truth_of(text.as_str()),
    }
}

/// Returns the text of a word, or `default` if it is left out.
///
/// # Errors
///
/// [`AllocError`] if memory runs out.
pub fn text_or(alloc: Global, default: &str, word: Option<String>) -> Result<Text, AllocError>
    ensures { IfOk result (λ text. text ≡ text_or default.now (option_map string_bytes word)) }
{
    match word {
        None => Text::copied(alloc, default),
        Some(text) => Ok(Text::new(text)),
    }
}
