//! Hashes of alerts as texts of 16 hexadecimal digits.

ghost use Rattle.std.specs.Prelude.{◌≡◌, ◌<◌, ◌≤◌, length, IfOk, IfSome};
ghost use Rattle.serde_json.specs.View.{view, items_view};
ghost use Rattle.am_api_decisions.specs.Hashes.{hash_text, digit_value, value_after, hash_of, hash_in, hashes_of, hashes_in};

use crate::find::array_in;
use am_nflog::Hashes;
use serde_json::Value;
use std::alloc::{AllocError, Global};
use std::marker::Model;
use std::str;

/// The 16 bytes of a hash's text, which contracts see as their list.
#[derive(Clone, Copy)]
pub struct HashText {
    bytes: [u8; 16],
}

impl Model for HashText {
    ghost use Rattle.std.specs.Prelude.{List, ℕ};
    ghost use Rattle.std.specs.Str.{IsUtf8};

    ghost Value = { List ℕ };

    ghost view = { λ text. text.bytes };

    ghost invariant = { λ text. IsUtf8 text.bytes };

    ghost inverse = { λ bytes. record { bytes = bytes } };
}

impl HashText {
    /// Returns the text of a hash. It takes no memory.
    pub fn new(hash: u64) -> HashText
        ensures { result ≡ hash_text hash }
    {
        let mut bytes = [b'0'; 16];
        let number = hash.to_be_bytes();
        hex::encode_to_slice(number.as_slice(), &mut bytes).unwrap();
        HashText { bytes }
    }

    /// Returns the text.
    pub fn as_str(&self) -> &str
        ensures { result.now ≡ self.now }
    {
        str::from_utf8(&self.bytes).unwrap()
    }
}

/// Returns the value of a digit: `0` to `9`, or `a` to `f`.
fn digit_value(digit: u8) -> Option<u8>
    ensures value { result ≡ digit_value digit }
    ensures below { IfSome result (λ value. value < 16) }
{
    match digit {
        b'0'..=b'9' => Some(digit - b'0'),
        b'a'..=b'f' => Some(digit - b'a' + 10),
        _ => None,
    }
}

/// Returns the number that digits spell, the most significant first.
fn number_of(digits: &[u8]) -> Option<u64>
    requires { length digits.now ≤ 16 }
    ensures { result ≡ value_after 0 digits.now }
{
    let mut number = 0;
    for digit in digits {
        let value = digit_value(*digit)?;
        number = number * 16 + u64::from(value);
    }
    Some(number)
}

/// Returns the hash whose text this is.
pub fn hash_of(text: &str) -> Option<u64>
    ensures { result ≡ hash_of text.now }
{
    let digits = text.as_bytes();
    if digits.len() == 16 {
        number_of(digits)
    } else {
        None
    }
}

/// Returns the hash that a value is.
fn hash_in(value: &Value) -> Option<u64>
    ensures { result ≡ hash_in (view value.now) }
{
    hash_of(value.as_str()?)
}

/// Returns the hashes that the values are.
fn hashes_of(alloc: Global, values: &[Value]) -> Result<Option<Hashes>, AllocError>
    ensures { IfOk result (λ hashes. hashes ≡ hashes_of (items_view values.now)) }
{
    let mut hashes = Vec::with_capacity(alloc, values.len())?;
    for value in values {
        let Some(hash) = hash_in(value) else {
            return Ok(None);
        };
        hashes.push(hash)?;
    }
    Ok(Some(Hashes::new(hashes)))
}

/// Returns the hashes at a key.
pub fn read_hashes(alloc: Global, object: &Value, key: &str) -> Result<Option<Hashes>, AllocError>
    ensures { IfOk result (λ hashes. hashes ≡ hashes_in key.now (view object.now)) }
{
    match array_in(object, key) {
        Some(values) => hashes_of(alloc, values),
        None => Ok(None),
    }
}
