//! Versions in slots that don't change, and the indexes by which they are found.

ghost use Rattle.std.specs.Prelude.{◌≡◌, ℕ, ◌+◌, [], IfOk, IfErr, IsOk, OnOk, Some, None, slice_index_or, slice_set, insert, drop};
ghost use Rattle.std.specs.List.{HoldsAt};
ghost use Rattle.slab.specs.Slab.{get, slab_len, HasRoomFor, Updates};
ghost use Rattle.am_merge.specs.Maps.{from_key};
ghost use Rattle.am_merge.specs.Rows.{entries, HasRoom};
ghost use Rattle.am_merge.specs.Searches.{IsFound, IsMissing};
ghost use Rattle.am_merge.specs.Cursors.{IsItem, IsWithin, place};
ghost use Rattle.am_merge.specs.Entries.{key_slot, expiry_slot, by_time, time_cmp, with_slots};
ghost use Rattle.am_merge.specs.Buckets.{bucket_slot, bucket_entry, bucket_order, bucket_cmp, by_bucket, number_of};
ghost use Rattle.am_merge.specs.Indexes.{filed};
ghost use Rattle.am_merge.specs.Places.{IsGapFor};
ghost use Rattle.am_merge.specs.Stores.{versions, HasRooms, HasRoomOver, IsSame, IsKeyed, IsStore, IsAbsent, IsBucketIndex};
ghost use Rattle.am_merge.specs.Stores.{IsExpiryIndex, IsKeyCursor, IsGapCursor, IsSlotAt, IsWithout, HasSlot};

use crate::blocks::{Blocks, Cursor};
use crate::entry::{
    BucketEntry, BucketProbe, ExpiryEntry, ExpiryProbe, FrontHint, FrontProbe, KeyEntry, KeyProbe,
    NumberHint, bucket_number,
};
use am_version_order::{Moment, Version};
use slab::Slab;
use std::alloc::{AllocError, Global};

/// A table of versions, and its indexes by key, by expiry and by bucket.
#[derive(Drop)]
pub struct Store<V> {
    pub table: Slab<V>,
    pub keys: Blocks<KeyEntry>,
    pub expiries: Blocks<ExpiryEntry>,
    pub buckets: Blocks<BucketEntry>,
    /// The place in the index by key where the last version was put: the next one is searched for near it.
    pub last: Cursor,
}

/// Returns an empty store, without allocating.
pub fn empty_store<V: Version>(alloc: Global) -> Store<V>
    ensures store { IsStore V.seen V.head_of V.Key.cmp V.bucket_of result }
    ensures empty { versions result ≡ [] }
{
    Store {
        table: Slab::new(alloc),
        keys: Blocks::new(alloc),
        expiries: Blocks::new(alloc),
        buckets: Blocks::new(alloc),
        last: Cursor {
            block: 0,
            offset: 0,
        },
    }
}

/// Returns the place of a key's entry, or the place at which it would be inserted.
pub fn find<V: Version>(store: &Store<V>, key: &V::Key) -> Result<Cursor, Cursor>
    requires { IsKeyed V.seen V.head_of V.Key.cmp store.now }
    ensures found { IfOk result (IsKeyCursor V.seen V.Key.cmp store.now key.now) }
    ensures absent { IfErr result (IsGapCursor V.seen V.Key.cmp store.now key.now) }
{
    let probe = KeyProbe {
        table: &store.table,
        key,
        head: V::head(key),
    };
    store.keys.search_near(store.last, &probe)
}

/// Returns the place at which the entries of a key and of those above it begin.
pub fn key_front<V: Version>(store: &Store<V>, key: &V::Key) -> Cursor
    requires { IsStore V.seen V.head_of V.Key.cmp V.bucket_of store.now }
    ensures within { IsWithin store.now.keys result }
    ensures from { drop (place store.now.keys result) (versions store.now) ≡ from_key V.seen V.Key.cmp (versions store.now) key.now }
{
    match find(store, key) {
        Ok(cursor) => cursor,
        Err(cursor) => cursor,
    }
}

/// Returns the version at a cursor of the index by key.
pub fn version_at<V: Version>(store: &Store<V>, cursor: Cursor) -> &V
    requires keyed { IsKeyed V.seen V.head_of V.Key.cmp store.now }
    requires item { IsItem store.now.keys cursor }
    ensures { result.now ≡ slice_index_or (versions store.now) (place store.now.keys cursor) result.now }
{
    &store.table[store.keys.get(cursor).slot]
}

/// Returns the place, in the index by expiry, of the entry for a slot.
pub fn expiry_cursor<V: Version>(store: &Store<V>, slot: usize) -> Cursor
    requires index { IsExpiryIndex V.seen (get store.now.table) (entries store.now.expiries) }
    requires there { HasSlot store.now.table slot }
    ensures item { IsItem store.now.expiries result }
    ensures own { HoldsAt (λ e. expiry_slot e ≡ slot) (entries store.now.expiries) (place store.now.expiries result) }
{
    let expires = store.table[slot].expires();
    match store.expiries.search(&ExpiryProbe { expires, slot }) {
        Ok(cursor) => cursor,
        Err(_) => unreachable!(),
    }
}

/// Returns the place, in the index by expiry, of a version that is put into an empty slot.
pub fn expiry_gap<V: Version>(store: &Store<V>, expires: Moment, slot: usize) -> Cursor
    requires index { IsExpiryIndex V.seen (get store.now.table) (entries store.now.expiries) }
    requires vacant { get store.now.table slot ≡ None }
    ensures within { IsWithin store.now.expiries result }
    ensures gap { IsGapFor (by_time V.seen) time_cmp
        (filed expiry_slot (with_slots (get store.now.table)) (entries store.now.expiries))
        (expires, slot) (place store.now.expiries result) }
{
    match store.expiries.search(&ExpiryProbe { expires, slot }) {
        Ok(_) => unreachable!(),
        Err(cursor) => cursor,
    }
}

/// Searches the index by bucket for a version's key in its bucket. If the bucket is empty, the search is near a cursor: that
/// of the index by key is exact if no version has another bucket.
fn search_bucket<V: Version>(store: &Store<V>, version: &V, near: Cursor) -> Result<Cursor, Cursor>
    requires { IsBucketIndex V.seen V.head_of V.Key.cmp V.bucket_of (get store.now.table) (entries store.now.buckets) }
    ensures found { IfOk result (IsFound
        (bucket_order V.seen V.bucket_of V.Key.cmp (get store.now.table) (number_of (V.bucket_of version.now)) (V.bucket_of version.now)
        (V.head_of (V.seen version.now).key) (V.seen version.now).key) store.now.buckets) }
    ensures missing { IfErr result (IsMissing
        (bucket_order V.seen V.bucket_of V.Key.cmp (get store.now.table) (number_of (V.bucket_of version.now)) (V.bucket_of version.now)
        (V.head_of (V.seen version.now).key) (V.seen version.now).key) store.now.buckets) }
{
    let table = &store.table;
    let bucket = version.bucket();
    let key = version.key();
    let probe = BucketProbe {
        front: FrontProbe {
            table,
            bucket,
            number: bucket_number(bucket),
        },
        key: KeyProbe {
            table,
            key,
            head: V::head(key),
        },
    };
    if bucket.is_empty() {
        store.buckets.search_near(near, &probe)
    } else {
        store
            .buckets
            .search_by(&NumberHint { probe: &probe }, &probe)
    }
}

/// Returns the place, in the index by bucket, of the entry for a slot. If the bucket is empty, the search is near a cursor.
fn bucket_cursor<V: Version>(store: &Store<V>, slot: usize, near: Cursor) -> Cursor
    requires index { IsBucketIndex V.seen V.head_of V.Key.cmp V.bucket_of (get store.now.table) (entries store.now.buckets) }
    requires there { HasSlot store.now.table slot }
    ensures item { IsItem store.now.buckets result }
    ensures own { HoldsAt (λ e. bucket_slot e ≡ slot) (entries store.now.buckets) (place store.now.buckets result) }
{
    match search_bucket(store, &store.table[slot], near) {
        Ok(cursor) => cursor,
        Err(_) => unreachable!(),
    }
}

/// Returns the place, in the index by bucket, of a version whose key no other has. If the bucket is empty, the search is near
/// a cursor.
fn bucket_gap<V: Version>(store: &Store<V>, version: &V, near: Cursor) -> Cursor
    requires index { IsBucketIndex V.seen V.head_of V.Key.cmp V.bucket_of (get store.now.table) (entries store.now.buckets) }
    requires absent { IsAbsent V.seen (get store.now.table) (V.seen version.now).key }
    ensures within { IsWithin store.now.buckets result }
    ensures gap { IsGapFor (by_bucket V.seen V.bucket_of) (bucket_cmp V.Key.cmp)
        (filed bucket_slot (get store.now.table) (entries store.now.buckets))
        (by_bucket V.seen V.bucket_of version.now).key (place store.now.buckets result) }
{
    match search_bucket(store, version, near) {
        Ok(_) => unreachable!(),
        Err(cursor) => cursor,
    }
}

/// Returns the place at which the entries of a bucket begin, or would begin.
pub fn bucket_front<V: Version>(store: &Store<V>, bucket: &[u8]) -> Cursor
    requires { IsBucketIndex V.seen V.head_of V.Key.cmp V.bucket_of (get store.now.table) (entries store.now.buckets) }
    ensures within { IsWithin store.now.buckets result }
    ensures gap { IsGapFor (by_bucket V.seen V.bucket_of) (bucket_cmp V.Key.cmp)
        (filed bucket_slot (get store.now.table) (entries store.now.buckets))
        (bucket.now, None) (place store.now.buckets result) }
{
    let number = bucket_number(bucket);
    let probe = FrontProbe {
        table: &store.table,
        bucket,
        number,
    };
    match store.buckets.search_by(&FrontHint { number }, &probe) {
        Ok(_) => unreachable!(),
        Err(cursor) => cursor,
    }
}

/// Returns the entry by bucket of a version in a slot.
pub fn entry_of<V: Version>(version: &V, slot: usize) -> BucketEntry
    ensures { result ≡ bucket_entry V.seen V.bucket_of V.head_of slot version.now }
{
    BucketEntry {
        number: bucket_number(version.bucket()),
        key: KeyEntry {
            head: V::head(version.key()),
            slot,
        },
    }
}

/// Removes the version in a slot from the table and the index by expiry. The other indexes still name the slot.
fn take_out<V: Version>(store: &mut Store<V>, slot: usize) -> V
    requires index { IsExpiryIndex V.seen (get store.old.table) (entries store.old.expiries) }
    requires there { HasSlot store.old.table slot }
    ensures index { IsExpiryIndex V.seen (get store.new.table) (entries store.new.expiries) }
    ensures updates { Updates store.old.table store.new.table slot None }
    ensures own { get store.old.table slot ≡ Some result }
    ensures len { slab_len store.new.table + 1 ≡ slab_len store.old.table }
    ensures next { store.new.table.vacant_key ≡ slot }
    ensures keys { store.new.keys ≡ store.old.keys }
    ensures buckets { store.new.buckets ≡ store.old.buckets }
    ensures table { store.new.table.capacity ≡ store.old.table.capacity }
    ensures room { HasRoomFor store.new.table 1 }
    ensures expiries { (n : ℕ) → HasRoom store.old.expiries n → HasRoom store.new.expiries n }
{
    let cursor = expiry_cursor(store, slot);
    store.expiries.remove(cursor);
    store.table.remove(slot)
}

/// Puts a version into the next slot of the table and into the index by expiry, and returns the slot.
fn put_in<V: Version>(store: &mut Store<V>, version: V) -> usize
    requires index { IsExpiryIndex V.seen (get store.old.table) (entries store.old.expiries) }
    requires table { HasRoomFor store.old.table 1 }
    requires expiries { HasRoom store.old.expiries 1 }
    ensures index { IsExpiryIndex V.seen (get store.new.table) (entries store.new.expiries) }
    ensures next { result ≡ store.old.table.vacant_key }
    ensures vacant { get store.old.table result ≡ None }
    ensures updates { Updates store.old.table store.new.table result (Some version) }
    ensures len { slab_len store.new.table ≡ slab_len store.old.table + 1 }
    ensures keys { store.new.keys ≡ store.old.keys }
    ensures buckets { store.new.buckets ≡ store.old.buckets }
    ensures capacity { store.new.table.capacity ≡ store.old.table.capacity }
    ensures room { (n : ℕ) → HasRoom store.old.expiries (n + 1) → HasRoom store.new.expiries n }
{
    let slot = store.table.vacant_key();
    let expires = version.expires();
    let cursor = expiry_gap(store, expires, slot);
    store.expiries.insert(cursor, ExpiryEntry { expires, slot });
    store.table.insert_reserved(version)
}

/// Inserts the first version of a key, without allocating.
pub fn add<V: Version>(store: &mut Store<V>, cursor: Cursor, version: V)
    requires store { IsStore V.seen V.head_of V.Key.cmp V.bucket_of store.old }
    requires cursor { IsGapCursor V.seen V.Key.cmp store.old (V.seen version).key cursor }
    requires room { HasRooms store.old 1 1 }
    ensures store { IsStore V.seen V.head_of V.Key.cmp V.bucket_of store.new }
    ensures added { versions store.new ≡ insert (versions store.old) (place store.old.keys cursor) version }
    ensures room { (n m : ℕ) → HasRooms store.old (n + 1) (m + 1) → HasRooms store.new n m }
{
    store.last = cursor;
    let entry = entry_of(&version, store.table.vacant_key());
    let place = bucket_gap(store, &version, cursor);
    put_in(store, version);
    store.keys.insert(cursor, entry.key);
    store.buckets.insert(place, entry);
}

/// Replaces the version of a version's key, in the same slot, without allocating.
pub fn replace<V: Version>(store: &mut Store<V>, cursor: Cursor, version: V)
    requires store { IsStore V.seen V.head_of V.Key.cmp V.bucket_of store.old }
    requires cursor { IsKeyCursor V.seen V.Key.cmp store.old (V.seen version).key cursor }
    requires room { HasRoomOver V.bucket_of store.old cursor version }
    ensures store { IsStore V.seen V.head_of V.Key.cmp V.bucket_of store.new }
    ensures replaced { versions store.new ≡ slice_set (versions store.old) (place store.old.keys cursor) version }
    ensures room { (n m : ℕ) → HasRooms store.old n (m + 1) → HasRooms store.new n m }
{
    let slot = store.keys.get(cursor).slot;
    if store.table[slot].bucket() == version.bucket() {
        replace_within(store, cursor, slot, version);
    } else {
        replace_across(store, cursor, slot, version);
    }
}

/// Replaces the version of a version's key, in the same slot, if both have the same bucket. The entries by key and by bucket
/// stay.
fn replace_within<V: Version>(store: &mut Store<V>, cursor: Cursor, slot: usize, version: V)
    requires store { IsStore V.seen V.head_of V.Key.cmp V.bucket_of store.old }
    requires cursor { IsKeyCursor V.seen V.Key.cmp store.old (V.seen version).key cursor }
    requires slot { IsSlotAt store.old.keys cursor slot }
    requires there { HasSlot store.old.table slot }
    requires bucket { (v : V) → get store.old.table slot ≡ Some v → V.bucket_of v ≡ V.bucket_of version }
    requires room { HasRoom store.old.expiries 1 }
    ensures store { IsStore V.seen V.head_of V.Key.cmp V.bucket_of store.new }
    ensures replaced { versions store.new ≡ slice_set (versions store.old) (place store.old.keys cursor) version }
    ensures room { (n m : ℕ) → HasRooms store.old n (m + 1) → HasRooms store.new n m }
{
    store.last = cursor;
    let _replaced = take_out(store, slot);
    put_in(store, version);
}

/// Replaces the version of a version's key, in the same slot, if they have different buckets. The entry by key stays, and the
/// entry by bucket moves to the other bucket.
fn replace_across<V: Version>(store: &mut Store<V>, cursor: Cursor, slot: usize, version: V)
    requires store { IsStore V.seen V.head_of V.Key.cmp V.bucket_of store.old }
    requires cursor { IsKeyCursor V.seen V.Key.cmp store.old (V.seen version).key cursor }
    requires slot { IsSlotAt store.old.keys cursor slot }
    requires there { HasSlot store.old.table slot }
    requires expiries { HasRoom store.old.expiries 1 }
    requires buckets { HasRoom store.old.buckets 1 }
    ensures store { IsStore V.seen V.head_of V.Key.cmp V.bucket_of store.new }
    ensures replaced { versions store.new ≡ slice_set (versions store.old) (place store.old.keys cursor) version }
    ensures room { (n m : ℕ) → HasRooms store.old n (m + 1) → HasRooms store.new n m }
{
    store.last = cursor;
    let entry = entry_of(&version, slot);
    let left = bucket_cursor(store, slot, cursor);
    let _replaced = take_out(store, slot);
    store.buckets.remove(left);
    let place = bucket_gap(store, &version, cursor);
    put_in(store, version);
    store.buckets.insert(place, entry);
}

/// Removes the version in a slot.
pub fn drop_at<V: Version>(store: &mut Store<V>, slot: usize)
    requires store { IsStore V.seen V.head_of V.Key.cmp V.bucket_of store.old }
    requires there { HasSlot store.old.table slot }
    ensures store { IsStore V.seen V.head_of V.Key.cmp V.bucket_of store.new }
    ensures gone { (v : V) → get store.old.table slot ≡ Some v →
        IsWithout v (versions store.old) (versions store.new) }
{
    let cursor = key_cursor(store, slot);
    let place = bucket_cursor(store, slot, cursor);
    let _gone = take_out(store, slot);
    store.keys.remove(cursor);
    store.buckets.remove(place);
}

/// Returns the place, in the index by key, of the entry for a slot.
fn key_cursor<V: Version>(store: &Store<V>, slot: usize) -> Cursor
    requires store { IsStore V.seen V.head_of V.Key.cmp V.bucket_of store.now }
    requires there { HasSlot store.now.table slot }
    ensures item { IsItem store.now.keys result }
    ensures own { HoldsAt (λ e. key_slot e ≡ slot) (entries store.now.keys) (place store.now.keys result) }
{
    let key = store.table[slot].key();
    let probe = KeyProbe {
        table: &store.table,
        key,
        head: V::head(key),
    };
    match store.keys.search(&probe) {
        Ok(cursor) => cursor,
        Err(_) => unreachable!(),
    }
}

/// Makes room for `keys` more keys and for `changes` changes: versions that are added, or replace others.
pub fn reserve<V: Version>(
    store: &mut Store<V>,
    keys: usize,
    changes: usize,
) -> Result<(), AllocError>
    requires { IsStore V.seen V.head_of V.Key.cmp V.bucket_of store.old }
    ensures store { IsStore V.seen V.head_of V.Key.cmp V.bucket_of store.new }
    ensures room { OnOk result (HasRooms store.new keys changes) }
    ensures same { IsSame store.old store.new }
    ensures versions { versions store.new ≡ versions store.old }
    ensures kept { (n m : ℕ) → HasRooms store.old n m → HasRooms store.new n m }
    ensures succeeds { HasRooms store.old keys changes → IsOk result }
{
    store.table.reserve(keys)?;
    store.keys.reserve(keys)?;
    store.expiries.reserve(changes)?;
    store.buckets.reserve(changes)
}

/// Makes room for a version that replaces another one. If it stays in its bucket, the index by bucket needs none.
pub fn reserve_over<V: Version>(
    store: &mut Store<V>,
    cursor: Cursor,
    version: &V,
) -> Result<(), AllocError>
    requires store { IsStore V.seen V.head_of V.Key.cmp V.bucket_of store.old }
    requires cursor { IsKeyCursor V.seen V.Key.cmp store.old (V.seen version.now).key cursor }
    ensures store { IsStore V.seen V.head_of V.Key.cmp V.bucket_of store.new }
    ensures room { OnOk result (HasRoomOver V.bucket_of store.new cursor version.now) }
    ensures same { IsSame store.old store.new }
    ensures versions { versions store.new ≡ versions store.old }
    ensures kept { (n m : ℕ) → HasRooms store.old n m → HasRooms store.new n m }
    ensures succeeds { HasRooms store.old 0 1 → IsOk result }
{
    let leaves = version_at(store, cursor).bucket() != version.bucket();
    store.expiries.reserve(1)?;
    if leaves {
        store.buckets.reserve(1)?;
    }
    Ok(())
}
