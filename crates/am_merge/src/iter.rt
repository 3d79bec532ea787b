//! Iterators over the versions of a map.

ghost use Rattle.std.specs.Prelude.{◌≡◌};
ghost use Rattle.std.specs.Iterator.{YieldsFirstRef, item_count};
ghost use Rattle.am_merge.specs.Maps.{from_key, in_bucket};
ghost use Rattle.am_merge.specs.Stores.{versions, IsStore};

use crate::blocks::Walk;
use crate::entry::{BucketEntry, KeyEntry};
use crate::store::{Store, bucket_front, key_front};
use am_version_order::Version;
use slab::Slab;
use std::marker::Model;

/// An iterator over the versions of a map, in the order of their keys.
///
/// Contracts see it as the list of the versions to come.
#[derive(Drop)]
pub struct Iter<'a, V> {
    table: &'a Slab<V>,
    walk: Walk<'a, KeyEntry>,
}

impl<'a, V> Model for Iter<'a, V> {
    ghost use Rattle.std.specs.Prelude.{List};
    ghost use Rattle.slab.specs.Slab.{get};
    ghost use Rattle.am_merge.specs.Entries.{versions_of, key_slot, AreThere};

    ghost Value = { List V };

    ghost view = { λ iter. versions_of (get iter.table.now) iter.walk };

    ghost invariant = { λ iter. AreThere key_slot (get iter.table.now) iter.walk };
}

impl<'a, V> Iterator for Iter<'a, V> {
    type Item = &'a V;

    ghost next_gives = { YieldsFirstRef (λ rest. rest) };

    ghost remaining = { item_count (λ rest. rest) };

    fn next(&mut self) -> Option<&'a V> {
        let entry = self.walk.next()?;
        Some(&self.table[entry.slot])
    }
}

/// Returns an iterator over all versions of a store, in the order of their keys.
pub fn walk_store<V: Version>(store: &Store<V>) -> Iter<'_, V>
    requires { IsStore V.seen V.head_of V.Key.cmp V.bucket_of store.now }
    ensures { result ≡ versions store.now }
{
    Iter {
        table: &store.table,
        walk: store.keys.walk(),
    }
}

/// Returns an iterator over the versions of a store from a key on, in the order of their keys.
pub fn walk_store_from<'a, V: Version>(store: &'a Store<V>, key: &V::Key) -> Iter<'a, V>
    requires { IsStore V.seen V.head_of V.Key.cmp V.bucket_of store.now }
    ensures { result ≡ from_key V.seen V.Key.cmp (versions store.now) key.now }
{
    let front = key_front(store, key);
    Iter {
        table: &store.table,
        walk: store.keys.walk_from(front),
    }
}

/// An iterator over the versions of a bucket, in the order of their keys.
///
/// Contracts see it as the list of the versions to come.
#[derive(Drop)]
pub struct InBucket<'a, V: Version> {
    table: &'a Slab<V>,
    // This goes on past the bucket.
    walk: Walk<'a, BucketEntry>,
    bucket: &'a [u8],
}

impl<'a, V: Version> Model for InBucket<'a, V> {
    ghost use Rattle.std.specs.Prelude.{List};
    ghost use Rattle.slab.specs.Slab.{get};
    ghost use Rattle.am_merge.specs.Buckets.{bucket_slot, run_of};
    ghost use Rattle.am_merge.specs.Entries.{AreThere};
    ghost use Rattle.am_merge.specs.Indexes.{filed};

    ghost Value = { List V };

    ghost view = { λ rest. run_of V.bucket_of rest.bucket.now (filed bucket_slot (get rest.table.now) rest.walk) };

    ghost invariant = { λ rest. AreThere bucket_slot (get rest.table.now) rest.walk };
}

impl<'a, V: Version> Iterator for InBucket<'a, V> {
    type Item = &'a V;

    ghost next_gives = { YieldsFirstRef (λ rest. rest) };

    ghost remaining = { item_count (λ rest. rest) };

    fn next(&mut self) -> Option<&'a V> {
        let entry = self.walk.next()?;
        let version = &self.table[entry.key.slot];
        if version.bucket() != self.bucket {
            self.walk = Walk::none();
            return None;
        }
        Some(version)
    }
}

/// Returns an iterator over the versions of a store that have this bucket, in the order of their keys.
pub fn walk_bucket<'a, V: Version>(store: &'a Store<V>, bucket: &'a [u8]) -> InBucket<'a, V>
    requires { IsStore V.seen V.head_of V.Key.cmp V.bucket_of store.now }
    ensures { result ≡ in_bucket V.bucket_of bucket.now (versions store.now) }
{
    let front = bucket_front(store, bucket);
    InBucket {
        table: &store.table,
        walk: store.buckets.walk_from(front),
        bucket,
    }
}
