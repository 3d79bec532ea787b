//! The small entries of a map's indexes, and the probes that search among them.

ghost use Rattle.std.specs.Prelude.{◌≡◌};
ghost use Rattle.std.specs.Ordering.{nat_cmp, ordering_then};
ghost use Rattle.std.specs.declared.cmp.Ordering.TheVariants.{Greater};
ghost use Rattle.am_merge.specs.Buckets.{number_of, bytes_order, front_order};
ghost use Rattle.am_merge.specs.Entries.{tie_of, key_order, expiry_order};
ghost use Rattle.slab.specs.Slab.{get};

use crate::blocks::Probe;
use am_version_order::{Moment, Version};
use slab::Slab;
use std::cmp::Ordering;

/// A version's entry in the index by key: the number of its key, and its slot.
#[derive(Clone, Copy)]
pub struct KeyEntry {
    pub head: u64,
    pub slot: usize,
}

/// A version's entry in the index by expiry: its expiry, and its slot.
#[derive(Clone, Copy)]
pub struct ExpiryEntry {
    pub expires: Moment,
    pub slot: usize,
}

/// A probe for a key, with the key's number.
#[derive(Drop)]
pub struct KeyProbe<'a, V: Version> {
    pub table: &'a Slab<V>,
    pub key: &'a V::Key,
    pub head: u64,
}

impl<'a, V: Version> Probe<KeyEntry> for KeyProbe<'a, V> {
    ghost order = { λ probe. key_order V.seen V.Key.cmp (get probe.table.now) probe.head probe.key.now };

    fn compare(&self, item: &KeyEntry) -> Ordering {
        match item.head.cmp(&self.head) {
            Ordering::Equal => compare_key(self.table, item.slot, self.key),
            apart => apart,
        }
    }
}

/// Compares the key of the version in a slot to another; an empty slot is before all keys.
fn compare_key<V: Version>(table: &Slab<V>, slot: usize, key: &V::Key) -> Ordering
    ensures { result ≡ tie_of V.seen V.Key.cmp (get table.now slot) key.now }
{
    match table.get(slot) {
        Some(version) => version.key().cmp(key),
        None => Ordering::Less,
    }
}

/// A probe for an expiry and a slot.
#[derive(Drop)]
pub struct ExpiryProbe {
    pub expires: Moment,
    pub slot: usize,
}

impl Probe<ExpiryEntry> for ExpiryProbe {
    ghost order = { λ probe. expiry_order probe.expires probe.slot };

    fn compare(&self, item: &ExpiryEntry) -> Ordering {
        match item.expires.cmp(&self.expires) {
            Ordering::Equal => item.slot.cmp(&self.slot),
            apart => apart,
        }
    }
}

/// A version's entry in the index by bucket: the number of its bucket, and its entry in the index by key.
#[derive(Clone, Copy)]
pub struct BucketEntry {
    pub number: u64,
    pub key: KeyEntry,
}

/// A probe for the beginning of a bucket's entries, with the bucket's number. No entry compares as equal.
#[derive(Drop)]
pub struct FrontProbe<'a, V: Version> {
    pub table: &'a Slab<V>,
    pub bucket: &'a [u8],
    pub number: u64,
}

impl<'a, V: Version> Probe<BucketEntry> for FrontProbe<'a, V> {
    ghost order = { λ probe. front_order V.bucket_of (get probe.table.now) probe.number probe.bucket.now };

    fn compare(&self, item: &BucketEntry) -> Ordering {
        match compare_bucket(self, item) {
            Ordering::Equal => Ordering::Greater,
            apart => apart,
        }
    }
}

/// A hint for the beginning of a bucket's entries, which treats the numbers of buckets as unique and reads no bytes.
#[derive(Drop)]
pub struct FrontHint {
    pub number: u64,
}

impl Probe<BucketEntry> for FrontHint {
    ghost order = { λ hint e. ordering_then (nat_cmp e.number hint.number) Greater };

    fn compare(&self, item: &BucketEntry) -> Ordering {
        match item.number.cmp(&self.number) {
            Ordering::Equal => Ordering::Greater,
            apart => apart,
        }
    }
}

/// A probe for a key in a bucket.
#[derive(Drop)]
pub struct BucketProbe<'a, V: Version> {
    pub front: FrontProbe<'a, V>,
    pub key: KeyProbe<'a, V>,
}

impl<'a, V: Version> Probe<BucketEntry> for BucketProbe<'a, V> {
    ghost order = { λ probe e. ordering_then
        (bytes_order V.bucket_of (get probe.front.table.now) probe.front.number probe.front.bucket.now e)
        (key_order V.seen V.Key.cmp (get probe.key.table.now) probe.key.head probe.key.key.now e.key) };

    fn compare(&self, item: &BucketEntry) -> Ordering {
        match compare_bucket(&self.front, item) {
            Ordering::Equal => self.key.compare(&item.key),
            apart => apart,
        }
    }
}

/// A hint for a key in a bucket, which treats the numbers of buckets as unique and reads none of their bytes.
#[derive(Drop)]
pub struct NumberHint<'a, 'b, V: Version> {
    pub probe: &'b BucketProbe<'a, V>,
}

impl<'a, 'b, V: Version> Probe<BucketEntry> for NumberHint<'a, 'b, V> {
    ghost order = { λ hint e. ordering_then
        (nat_cmp e.number hint.probe.now.front.number)
        (key_order V.seen V.Key.cmp (get hint.probe.now.key.table.now) hint.probe.now.key.head hint.probe.now.key.key.now e.key) };

    fn compare(&self, item: &BucketEntry) -> Ordering {
        match item.number.cmp(&self.probe.front.number) {
            Ordering::Equal => self.probe.key.compare(&item.key),
            apart => apart,
        }
    }
}

/// Compares the bucket of an entry to another. The bytes are compared only if the numbers are equal, and aren't the empty
/// bucket's.
fn compare_bucket<V: Version>(front: &FrontProbe<'_, V>, item: &BucketEntry) -> Ordering
    ensures { result ≡ bytes_order V.bucket_of (get front.now.table.now) front.now.number front.now.bucket.now item.now }
{
    if item.number != front.number || item.number == 0 {
        return item.number.cmp(&front.number);
    }
    match front.table.get(item.key.slot) {
        Some(version) => version.bucket().cmp(front.bucket),
        None => Ordering::Less,
    }
}

/// Returns a number that is computed from a bucket's bytes, which is 0 for the empty bucket alone.
pub fn bucket_number(bucket: &[u8]) -> u64
    ensures { result ≡ number_of bucket.now }
{
    let mut number: u64 = 0;
    for byte in bucket {
        number = number
            .wrapping_mul(1_099_511_628_211)
            .wrapping_add(u64::from(*byte));
    }
    if number == 0 && !bucket.is_empty() {
        number = 1;
    }
    number
}
