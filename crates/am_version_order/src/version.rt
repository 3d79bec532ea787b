//! The trait of the values that the merge keeps.

ghost use Rattle.std.specs.Prelude.{◌≡◌, ℕ, List, IfOk};
ghost use Rattle.std.specs.declared.cmp.Ordering.TheVariants.{Equal};
ghost use Rattle.std.specs.Ordering.{nat_cmp, ordering_then};
ghost use Rattle.am_version_order.specs.Versions.{Version, rank_cmp};

use crate::moment::Moment;
use std::alloc::{AllocError, Global};
use std::cmp::Ordering;

/// A version of a key's value. Of two versions of a key the greater one counts: by update moment, then by expiry, then by
/// canonical bytes.
pub trait Version: Drop {
    type Key: Ord;

    /// The version as the merge sees it.
    ghost seen: { Self → Version Self.Key };

    /// The bytes under which the version is looked up; empty if it is tried every time.
    ghost bucket_of: { Self → List ℕ };

    /// A number that follows the order of the keys.
    ghost head_of: { Self.Key → ℕ };

    /// Holds of the values of the type.
    ghost is_value: { Self → Type 0 };

    fn key(&self) -> &Self::Key
        ensures { result.now ≡ (seen self.now).key };

    /// Returns a number that follows the order of the keys, so that most comparisons of two keys need only their numbers. It
    /// is 0 for every key if there is no useful one.
    fn head(key: &Self::Key) -> u64
        ensures { result ≡ head_of key.now };

    /// Returns a copy of the key, or [`AllocError`] if memory runs out.
    fn try_key(&self, alloc: Global) -> Result<Self::Key, AllocError>
        ensures { IfOk result (λ key. key ≡ (seen self.now).key) };

    /// Returns the moment at which the version was made.
    fn updated(&self) -> Moment
        ensures { result ≡ (seen self.now).updated };

    /// Returns the moment from which the version is no longer live.
    fn expires(&self) -> Moment
        ensures { result ≡ (seen self.now).expires };

    /// Returns the canonical bytes of the version.
    fn canonical(&self) -> &[u8]
        ensures content { result.now ≡ (seen self.now).content }
        ensures value { is_value self.now };

    /// Returns the bytes by which a label set finds the version: for a silence, the text of a matcher. If they are empty, the
    /// version has to be tried for every label set.
    fn bucket(&self) -> &[u8]
        ensures { result.now ≡ bucket_of self.now };

    /// Compares two versions of one key, as far as their first difference. Nothing is allocated.
    fn compare(&self, other: &Self) -> Ordering
        ensures { result ≡ rank_cmp (seen self.now) (seen other.now) }
    {
        match self.updated().cmp(&other.updated()) {
            Ordering::Equal => {}
            order => return order,
        }
        match self.expires().cmp(&other.expires()) {
            Ordering::Equal => self.canonical().cmp(other.canonical()),
            order => order,
        }
    }

    /// Returns a copy, or [`AllocError`] if memory runs out.
    fn try_clone(&self, alloc: Global) -> Result<Self, AllocError>
        ensures { IfOk result (λ copy. copy ≡ self.now) };

    /// Keys that compare as equal are the same.
    ghost exact_keys: { (x y : Self.Key) → Self.Key.cmp x y ≡ Equal → x ≡ y };

    /// Keys whose numbers differ are ordered as the numbers are.
    ghost heads: { (x y : Self.Key) →
        ordering_then (nat_cmp (head_of x) (head_of y)) (Self.Key.cmp x y) ≡ Self.Key.cmp x y };

    /// Versions that the merge can't tell apart are the same.
    ghost exact: { (v w : Self) → is_value v → is_value w → seen v ≡ seen w → v ≡ w };
}
