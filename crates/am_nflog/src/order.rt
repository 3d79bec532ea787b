//! The order of bytes. Keys of the log have long common prefixes, so whole words are compared first.

ghost use Rattle.std.specs.Prelude.{◌≡◌, ◌≤◌, IfSome, length, take, drop};
ghost use Rattle.std.specs.Int.{w64, from_be_bytes};
ghost use Rattle.std.specs.Ordering.{nat_cmp};
ghost use Rattle.std.specs.Cmp.Lexicographic.{slice_cmp};

use std::cmp::Ordering;

/// The number of bytes in a word.
const WORD: usize = 8;

/// Compares bytes.
pub(crate) fn compare_bytes(a: &[u8], b: &[u8]) -> Ordering
    ensures { result ≡ slice_cmp nat_cmp a.now b.now }
{
    let mut left = a;
    let mut right = b;
    while let (Some((word, rest)), Some((other, others))) = (split_word(left), split_word(right)) {
        if word != other {
            return word.cmp(&other);
        }
        left = rest;
        right = others;
    }
    compare_short(left, right)
}

/// Splits bytes into the first word, as a number that follows the order of its bytes, and the rest.
#[inline(always)]
fn split_word(bytes: &[u8]) -> Option<(u64, &[u8])>
    ensures within { IfSome result (λ parts. 8 ≤ length bytes.now) }
    ensures word { IfSome result (λ parts. parts.0 ≡ from_be_bytes w64 (take 8 bytes.now)) }
    ensures rest { IfSome result (λ parts. parts.1.now ≡ drop 8 bytes.now) }
{
    let (word, rest) = bytes.split_first_chunk::<WORD>()?;
    Some((u64::from_be_bytes(*word), rest))
}

/// Compares bytes one by one.
fn compare_short(a: &[u8], b: &[u8]) -> Ordering
    ensures { result ≡ slice_cmp nat_cmp a.now b.now }
{
    for at in 0..a.len().min(b.len()) {
        if a[at] != b[at] {
            return a[at].cmp(&b[at]);
        }
    }
    a.len().cmp(&b.len())
}
