//! Identifiers of new silences.

ghost use Rattle.std.specs.Prelude.{◌≡◌};
ghost use Rattle.am_silence.specs.Ids.{id_text};

use std::marker::Model;
use std::str;
use uuid::Builder;

/// The text of an identifier, of 36 bytes. Contracts see their list.
#[derive(Clone, Copy)]
pub struct IdText {
    bytes: [u8; 36],
}

impl Model for IdText {
    ghost use Rattle.std.specs.Prelude.{List, ℕ};
    ghost use Rattle.std.specs.Str.{IsUtf8};

    ghost Value = { List ℕ };

    ghost view = { λ id. id.bytes };

    ghost invariant = { λ id. IsUtf8 id.bytes };

    ghost inverse = { λ bytes. record { bytes = bytes } };
}

impl IdText {
    /// Returns the identifier, in the form of RFC 9562.
    pub fn as_str(&self) -> &str
        ensures { result.now ≡ self.now }
    {
        str::from_utf8(&self.bytes).unwrap()
    }
}

/// Returns the text of the identifier made of these random bits: RFC 9562, version 4. Nothing is allocated.
pub fn fresh_id(bits: u128) -> IdText
    // PROMISE: A new identifier is a UUID of version 4.
    ensures { result ≡ id_text bits }
{
    let id = Builder::from_random_bytes(bits.to_be_bytes()).into_uuid();
    let mut buffer = [0u8; 36];
    let text = id.hyphenated().encode_lower(&mut buffer);
    let mut bytes = [0u8; 36];
    bytes.copy_from_slice(text.as_bytes());
    IdText { bytes }
}
