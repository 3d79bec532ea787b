//! An iterator over alert hashes, which are in a list or packed in a text.

ghost use Rattle.std.specs.Prelude.{◌≡◌, ℕ, List, [], ◌∷◌, ◌==◌, ◌<◌, ◌^◌, length, All, IfSome, IfNone};
ghost use Rattle.std.specs.Iterator.{YieldsFirst, item_count};
ghost use Rattle.std.specs.List.{flat_map};
ghost use Rattle.am_wire.specs.Varint.{shortest};
ghost use Rattle.am_nflog.specs.Packed.{packed_in, IsPacked};

use am_wire::read_varint;
use std::marker::Model;

// The rest of an iteration: a part of a list, or of packed numbers, each in its shortest spelling.
#[derive(Clone, Copy)]
enum Rest<'a> {
    Listed(&'a [u64]),
    Packed(&'a [u8]),
}

/// An iterator over hashes of alerts, in their order. Contracts see the list of those to come.
///
/// Each step takes constant time, however many there are.
#[derive(Drop)]
pub struct HashIter<'a> {
    rest: Rest<'a>,
}

impl<'a> Model for HashIter<'a> {
    ghost use Rattle.std.specs.Prelude.{List, ℕ};
    ghost use Rattle.am_nflog.specs.Packed.{hashes_in, IsSpelled};

    ghost Value = { List ℕ };

    ghost view = { λ iter. hashes_in iter.rest };

    ghost invariant = { λ iter. IsSpelled iter.rest };
}

impl<'a> HashIter<'a> {
    /// Returns an iterator over these hashes.
    pub fn of(hashes: &'a [u64]) -> Self
        ensures { result ≡ hashes.now }
    {
        HashIter {
            rest: Rest::Listed(hashes),
        }
    }

    /// Returns an iterator over the hashes packed in these bytes.
    pub(crate) fn unpacking(bytes: &'a [u8]) -> Self
        requires { (hashes : List ℕ) × (bytes.now ≡ flat_map shortest hashes) × All (λ n. n < 2 ^ 64) hashes }
        ensures { (hashes : List ℕ) → bytes.now ≡ flat_map shortest hashes → All (λ n. n < 2 ^ 64) hashes → result ≡ hashes }
    {
        HashIter {
            rest: Rest::Packed(bytes),
        }
    }

    /// Returns another iterator over the same hashes.
    pub fn again(&self) -> HashIter<'a>
        ensures { result ≡ self.now }
    {
        HashIter { rest: self.rest }
    }

    /// Returns whether there are no more hashes.
    pub fn is_empty(&self) -> bool
        ensures { result ≡ (length self.now == 0) }
    {
        match self.rest {
            Rest::Listed(hashes) => hashes.is_empty(),
            Rest::Packed(bytes) => bytes.is_empty(),
        }
    }
}

// Splits packed numbers into the first one and the bytes of the others.
fn split_packed(bytes: &[u8]) -> Option<(u64, &[u8])>
    requires { IsPacked bytes.now }
    ensures none { IfNone result (packed_in bytes.now ≡ []) }
    ensures first { IfSome result (λ x. packed_in bytes.now ≡ x.0 ∷ packed_in x.1.now) }
    ensures others { IfSome result (λ x. IsPacked x.1.now) }
{
    match read_varint(bytes) {
        Ok((number, len)) => Some((number, &bytes[len..])),
        Err(_) => None,
    }
}

impl<'a> Iterator for HashIter<'a> {
    type Item = u64;

    ghost next_gives = { YieldsFirst (λ rest. rest) };

    ghost remaining = { item_count (λ rest. rest) };

    fn next(&mut self) -> Option<u64> {
        match self.rest {
            Rest::Listed(hashes) => {
                let (hash, others) = hashes.split_first()?;
                self.rest = Rest::Listed(others);
                Some(*hash)
            }
            Rest::Packed(bytes) => {
                let (hash, others) = split_packed(bytes)?;
                self.rest = Rest::Packed(others);
                Some(hash)
            }
        }
    }
}
