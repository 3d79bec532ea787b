//! Versions that are borrowed from their canonical encodings.

ghost use Rattle.std.specs.Prelude.{◌≡◌, ℕ, Ok, ◌+◌, ◌<◌, ◌≤◌, ◌^◌, length, IfSome};
ghost use Rattle.am_wire.specs.declared.unknown.Unknown.{Unknown};
ghost use Rattle.am_wire.specs.Inputs.{message_at};

use crate::message::Message;
use crate::rows::row_from;
use am_version_order::Version;
use std::cmp::Ordering;

/// A version borrowed from its canonical encoding.
pub trait EncodedVersion: Sized + Drop {
    /// The type of such versions that own their content.
    type Owned: Version + Message;

    /// The version.
    ghost version: { Self → Self.Owned };

    /// Returns the canonical encoding.
    fn encoding(&self) -> &[u8]
        ensures { result.now ≡ (Self.Owned.seen (version self.now)).content };

    /// Compares the keys of two versions. Nothing is allocated.
    fn compare_keys(&self, other: &Self) -> Ordering
        ensures { result ≡ Self.Owned.Key.cmp (Self.Owned.seen (version self.now)).key (Self.Owned.seen (version other.now)).key };
}

/// A version that can be read from its canonical encoding.
pub trait FromEncoding<'a>: EncodedVersion {
    /// Returns the version that the encoding spells if it is canonical and has no unknown fields, and `None` otherwise.
    fn read(encoding: &'a [u8]) -> Option<Self>
        ensures spelled { IfSome result (λ found. (unknown : Unknown) (at : ℕ) → Self.Owned.reads unknown at encoding.now ≡ Ok (Self.version found)) }
        ensures canonical { IfSome result (λ found. (Self.Owned.seen (Self.version found)).content ≡ encoding.now) };
}

/// Returns the version in the message at the front of a row, and the number of bytes that the message takes with its length,
/// if its encoding is canonical without unknown fields. The bytes begin at the offset `at` of the outermost input.
pub fn version_from<'a, T: FromEncoding<'a>>(bytes: &'a [u8], at: usize) -> Option<(T, usize)>
    requires { at + length bytes.now < 2 ^ 64 }
    ensures value { IfSome result (λ x. (unknown : Unknown) → message_at (T.Owned.reads unknown) at bytes.now ≡ Ok (T.version x.0, x.1)) }
    ensures within { IfSome result (λ x. (0 < x.1) × (x.1 ≤ length bytes.now)) }
{
    let (encoding, len) = row_from(bytes, at).ok()?;
    let version = T::read(encoding)?;
    Some((version, len))
}
