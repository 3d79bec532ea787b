//! Stores with the index by key alone, into which many versions are put before the other indexes are built.

ghost use Rattle.std.specs.Prelude.{◌≡◌, [], All, filter_map, IfErr, IfOk, OnErr, OnOk, map, slice_set, length, insert};
ghost use Rattle.slab.specs.Slab.{get, entries as slots, HasRoomFor};
ghost use Rattle.am_merge.specs.Cursors.{place};
ghost use Rattle.am_merge.specs.Rows.{entries, HasRoom};
ghost use Rattle.am_merge.specs.Indexes.{IsIndex};
ghost use Rattle.am_merge.specs.Entries.{expiry_entry};
ghost use Rattle.am_merge.specs.Buckets.{bucket_slot, bucket_entry, bucket_at};
ghost use Rattle.am_merge.specs.Maps.{replaces};
ghost use Rattle.am_merge.specs.Takings.{IsPut};
ghost use Rattle.am_merge.specs.Stores.{versions, IsKeyed, IsStore, IsKeyCursor, IsGapCursor, IsKeyIndex, IsExpiryIndex, IsBucketIndex, HasSlot};

use crate::blocks::{Blocks, Cursor};
use crate::changes::is_greater;
use crate::entry::{BucketEntry, ExpiryEntry, KeyEntry, bucket_number};
use crate::orders::{ByBucket, ByExpiry, ByKey, ByNumber, sort};
use crate::store::{Store, find};
use am_version_order::Version;
use slab::Slab;
use std::alloc::{AllocError, Global};

/// Returns a store without its indexes by expiry and by bucket.
pub fn by_key<V: Version>(store: Store<V>, alloc: Global) -> Store<V>
    requires { IsStore V.seen V.head_of V.Key.cmp V.bucket_of store }
    ensures keyed { IsKeyed V.seen V.head_of V.Key.cmp result }
    ensures same { versions result ≡ versions store }
{
    let Store {
        table,
        keys,
        expiries: _,
        buckets: _,
        last,
    } = store;
    Store {
        table,
        keys,
        expiries: Blocks::new(alloc),
        buckets: Blocks::new(alloc),
        last,
    }
}

/// Puts a version in if it is greater than the one of its key, whatever the indexes by expiry and by bucket have.
///
/// # Errors
///
/// [`AllocError`] if memory runs out. The versions are unchanged then.
pub fn put_by_key<V: Version>(store: &mut Store<V>, version: V) -> Result<(), AllocError>
    requires { IsKeyed V.seen V.head_of V.Key.cmp store.old }
    ensures keyed { IsKeyed V.seen V.head_of V.Key.cmp store.new }
    ensures put { OnOk result (IsPut V.seen V.Key.cmp (versions store.old) version (versions store.new)) }
    ensures err { OnErr result (versions store.new ≡ versions store.old) }
{
    match find(store, version.key()) {
        Ok(cursor) => {
            if is_greater(store, cursor, &version) {
                replace_by_key(store, cursor, version);
            }
            Ok(())
        }
        Err(cursor) => add_by_key(store, cursor, version),
    }
}

/// Replaces the version of a version's key, in the same slot.
fn replace_by_key<V: Version>(store: &mut Store<V>, cursor: Cursor, version: V)
    requires keyed { IsKeyed V.seen V.head_of V.Key.cmp store.old }
    requires cursor { IsKeyCursor V.seen V.Key.cmp store.old (V.seen version).key cursor }
    ensures keyed { IsKeyed V.seen V.head_of V.Key.cmp store.new }
    ensures replaced { versions store.new ≡ slice_set (versions store.old) (place store.old.keys cursor) version }
{
    store.last = cursor;
    let slot = store.keys.get(cursor).slot;
    let _replaced = store.table.remove(slot);
    store.table.insert_reserved(version);
}

/// Inserts the first version of a key. All allocation precedes all changes.
///
/// # Errors
///
/// [`AllocError`] if memory runs out. The versions are unchanged then.
pub fn add_by_key<V: Version>(
    store: &mut Store<V>,
    cursor: Cursor,
    version: V,
) -> Result<(), AllocError>
    requires keyed { IsKeyed V.seen V.head_of V.Key.cmp store.old }
    requires cursor { IsGapCursor V.seen V.Key.cmp store.old (V.seen version).key cursor }
    ensures keyed { IsKeyed V.seen V.head_of V.Key.cmp store.new }
    ensures put { OnOk result (IsPut V.seen V.Key.cmp (versions store.old) version (versions store.new)) }
    ensures err { OnErr result (versions store.new ≡ versions store.old) }
{
    reserve_key(store)?;
    insert_by_key(store, cursor, version);
    Ok(())
}

/// Makes room for one more key.
fn reserve_key<V: Version>(store: &mut Store<V>) -> Result<(), AllocError>
    requires { IsKeyed V.seen V.head_of V.Key.cmp store.old }
    ensures keyed { IsKeyed V.seen V.head_of V.Key.cmp store.new }
    ensures table { OnOk result (HasRoomFor store.new.table 1) }
    ensures room { OnOk result (HasRoom store.new.keys 1) }
    ensures blocks { store.new.keys.blocks ≡ store.old.keys.blocks }
    ensures versions { versions store.new ≡ versions store.old }
{
    store.table.reserve(1)?;
    store.keys.reserve(1)
}

/// Inserts the first version of a key, without allocating.
fn insert_by_key<V: Version>(store: &mut Store<V>, cursor: Cursor, version: V)
    requires keyed { IsKeyed V.seen V.head_of V.Key.cmp store.old }
    requires cursor { IsGapCursor V.seen V.Key.cmp store.old (V.seen version).key cursor }
    requires table { HasRoomFor store.old.table 1 }
    requires room { HasRoom store.old.keys 1 }
    ensures keyed { IsKeyed V.seen V.head_of V.Key.cmp store.new }
    ensures added { versions store.new ≡ insert (versions store.old) (place store.old.keys cursor) version }
{
    store.last = cursor;
    let head = V::head(version.key());
    let slot = store.table.vacant_key();
    store.table.insert_reserved(version);
    store.keys.insert(cursor, KeyEntry { head, slot });
}

/// Returns the store with all its indexes, of which that by key is there.
///
/// # Errors
///
/// [`AllocError`] if memory runs out.
pub fn build<V: Version>(store: Store<V>, alloc: Global) -> Result<Store<V>, AllocError>
    requires { IsKeyed V.seen V.head_of V.Key.cmp store }
    ensures store { IfOk result (IsStore V.seen V.head_of V.Key.cmp V.bucket_of) }
    ensures same { IfOk result (λ built. versions built ≡ versions store) }
{
    let Store {
        table,
        keys,
        expiries: _,
        buckets: _,
        last,
    } = store;
    let expiries = build_expiries(&table, alloc)?;
    let list = entries_of(&table, &keys, alloc)?;
    let buckets = build_buckets(&table, list, alloc)?;
    Ok(Store {
        table,
        keys,
        expiries,
        buckets,
        last,
    })
}

/// Returns the entries of a table's versions by bucket, in the order of these keys.
fn entries_of<V: Version>(
    table: &Slab<V>,
    keys: &Blocks<KeyEntry>,
    alloc: Global,
) -> Result<Vec<BucketEntry>, AllocError>
    requires { All (λ e. HasSlot table.now e.slot) (entries keys.now) }
    ensures { IfOk result (λ list. list.items ≡ filter_map (bucket_at V.bucket_of (get table.now)) (entries keys.now)) }
{
    let mut list = Vec::with_capacity(alloc, table.len())?;
    for key in keys.walk() {
        let number = bucket_number(table[key.slot].bucket());
        list.push(BucketEntry { number, key })?;
    }
    Ok(list)
}

/// Returns the index by expiry of a table.
fn build_expiries<V: Version>(
    table: &Slab<V>,
    alloc: Global,
) -> Result<Blocks<ExpiryEntry>, AllocError>
    ensures { IfOk result (λ expiries. IsExpiryIndex V.seen (get table.now) (entries expiries)) }
{
    let mut list = expiries_of(table, alloc)?;
    sort(&mut list, &ByExpiry)?;
    Blocks::from_slice(alloc, list.as_slice())
}

/// Returns a table's entries by expiry, in the order of the slots.
fn expiries_of<V: Version>(table: &Slab<V>, alloc: Global) -> Result<Vec<ExpiryEntry>, AllocError>
    ensures { IfOk result (λ list. list.items ≡ map (λ there. expiry_entry V.seen there.0 there) (slots table.now)) }
{
    let mut list = Vec::with_capacity(alloc, table.len())?;
    for (slot, version) in table.iter() {
        let expires = version.expires();
        list.push(ExpiryEntry { expires, slot })?;
    }
    Ok(list)
}

/// Returns the index by bucket of a table, from its entries in the order of the keys.
fn build_buckets<V: Version>(
    table: &Slab<V>,
    mut list: Vec<BucketEntry>,
    alloc: Global,
) -> Result<Blocks<BucketEntry>, AllocError>
    requires index { IsIndex bucket_slot (bucket_entry V.seen V.bucket_of V.head_of) (get table.now) list.items }
    requires keys { IsKeyIndex V.seen V.head_of V.Key.cmp (get table.now) (map (λ e. e.key) list.items) }
    ensures { IfOk result (λ buckets. IsBucketIndex V.seen V.head_of V.Key.cmp V.bucket_of (get table.now) (entries buckets)) }
{
    // Entries with equal numbers stay in the order of the keys, so if no two buckets have the same number, all are in order then.
    sort(&mut list, &ByNumber)?;
    sort(
        &mut list,
        &ByBucket {
            keys: ByKey { table },
        },
    )?;
    Blocks::from_slice(alloc, list.as_slice())
}
