//! The effects of taking, merging and sweeping on a store.

ghost use Rattle.std.specs.Prelude.{◌≡◌, ℕ, List, ◌+◌, ◌<◌, ◌≤◌, ◌++◌, [], ◌∷◌, length, take, count_by, IfErr, IfOk};
ghost use Rattle.std.specs.Prelude.{IfSome, IfNone, IsOk, OnOk, OnErr, IsTrue, IsPermutation, true, false, ◌↔◌, insert};
ghost use Rattle.std.specs.Prelude.{slice_set};
ghost use Rattle.am_merge.specs.Maps.{IsMap, IsJoin, HasTwice, replaces, swept};
ghost use Rattle.am_merge.specs.Stores.{versions, HasRooms, IsKeyed, IsStore, IsKeyCursor, IsGapCursor, IsExpiredAt};
ghost use Rattle.am_merge.specs.Cursors.{place};
ghost use Rattle.am_merge.specs.Takings.{IsPut, new_keys, new_versions, taken_by};

use crate::blocks::Cursor;
use crate::held::{MergeError, Taken};
use crate::iter::walk_store;
use crate::store::{
    Store, add, drop_at, empty_store, find, replace, reserve, reserve_over, version_at,
};
use am_version_order::{Moment, Version};
use std::alloc::{AllocError, Global};

/// Returns whether a version is greater than the one at the cursor, which has the same key.
pub fn is_greater<V: Version>(store: &Store<V>, cursor: Cursor, version: &V) -> bool
    requires keyed { IsKeyed V.seen V.head_of V.Key.cmp store.now }
    requires cursor { IsKeyCursor V.seen V.Key.cmp store.now (V.seen version.now).key cursor }
    ensures answer { result ≡ replaces V.seen V.Key.cmp (versions store.now) version.now }
    ensures kept { result ≡ false →
        IsPut V.seen V.Key.cmp (versions store.now) version.now (versions store.now) }
    ensures over { result ≡ true → IsPut V.seen V.Key.cmp (versions store.now) version.now
        (slice_set (versions store.now) (place store.now.keys cursor) version.now) }
{
    version_at(store, cursor).compare(version).is_lt()
}

/// Replaces the lesser version of a version's key. All allocation precedes all changes.
fn put_over<V: Version>(store: &mut Store<V>, cursor: Cursor, version: V) -> Result<(), AllocError>
    requires store { IsStore V.seen V.head_of V.Key.cmp V.bucket_of store.old }
    requires cursor { IsKeyCursor V.seen V.Key.cmp store.old (V.seen version).key cursor }
    requires over { IsPut V.seen V.Key.cmp (versions store.old) version
        (slice_set (versions store.old) (place store.old.keys cursor) version) }
    ensures store { IsStore V.seen V.head_of V.Key.cmp V.bucket_of store.new }
    ensures put { OnOk result (IsPut V.seen V.Key.cmp (versions store.old) version (versions store.new)) }
    ensures err { OnErr result (versions store.new ≡ versions store.old) }
    ensures succeeds { HasRooms store.old 0 1 → IsOk result }
    ensures room { (n m : ℕ) → HasRooms store.old n (m + 1) → HasRooms store.new n m }
{
    reserve_over(store, cursor, &version)?;
    replace(store, cursor, version);
    Ok(())
}

/// Inserts the first version of a key. All allocation precedes all changes.
pub fn put_new<V: Version>(
    store: &mut Store<V>,
    cursor: Cursor,
    version: V,
) -> Result<(), AllocError>
    requires store { IsStore V.seen V.head_of V.Key.cmp V.bucket_of store.old }
    requires cursor { IsGapCursor V.seen V.Key.cmp store.old (V.seen version).key cursor }
    ensures store { IsStore V.seen V.head_of V.Key.cmp V.bucket_of store.new }
    ensures put { OnOk result (IsPut V.seen V.Key.cmp (versions store.old) version (versions store.new)) }
    ensures new { replaces V.seen V.Key.cmp (versions store.old) version ≡ true }
    ensures added { OnOk result
        (versions store.new ≡ insert (versions store.old) (place store.old.keys cursor) version) }
    ensures err { OnErr result (versions store.new ≡ versions store.old) }
    ensures succeeds { HasRooms store.old 1 1 → IsOk result }
    ensures room { (n m : ℕ) → HasRooms store.old (n + 1) (m + 1) → HasRooms store.new n m }
{
    reserve(store, 1, 1)?;
    add(store, cursor, version);
    Ok(())
}

/// Returns the number of keys and the number of versions that a version adds.
pub fn needs<V: Version>(store: &Store<V>, version: &V) -> (usize, usize)
    requires { IsStore V.seen V.head_of V.Key.cmp V.bucket_of store.now }
    ensures keys { result.0 ≡ new_keys V.seen V.Key.cmp (versions store.now) version.now }
    ensures versions { result.1 ≡ new_versions V.seen V.Key.cmp (versions store.now) version.now }
{
    match find(store, version.key()) {
        Ok(cursor) => (0, usize::from(is_greater(store, cursor, version))),
        Err(_) => (1, 1),
    }
}

/// Returns the number of keys and the number of versions that a version adds once another one is taken.
pub fn needs_after<V: Version>(store: &Store<V>, before: &V, version: &V) -> (usize, usize)
    requires { IsStore V.seen V.head_of V.Key.cmp V.bucket_of store.now }
    ensures keys { (map : List V) → IsPut V.seen V.Key.cmp (versions store.now) before.now map →
        result.0 ≡ new_keys V.seen V.Key.cmp map version.now }
    ensures versions { (map : List V) → IsPut V.seen V.Key.cmp (versions store.now) before.now map →
        result.1 ≡ new_versions V.seen V.Key.cmp map version.now }
    ensures few_keys { result.0 ≤ 1 }
    ensures few_versions { result.1 ≤ 1 }
{
    let (keys, versions) = needs(store, version);
    if before.key().cmp(version.key()).is_ne() {
        return (keys, versions);
    }
    let (_, came) = needs(store, before);
    if came == 0 {
        return (0, versions);
    }
    (0, usize::from(before.compare(version).is_lt()))
}

/// Puts a version in if it is greater than the one of its key, and returns whether it is. If not, nothing is allocated.
pub fn put<V: Version>(store: &mut Store<V>, version: V) -> Result<bool, AllocError>
    requires { IsStore V.seen V.head_of V.Key.cmp V.bucket_of store.old }
    ensures store { IsStore V.seen V.head_of V.Key.cmp V.bucket_of store.new }
    ensures put { OnOk result (IsPut V.seen V.Key.cmp (versions store.old) version (versions store.new)) }
    ensures answer { IfOk result (λ changed.
        changed ≡ replaces V.seen V.Key.cmp (versions store.old) version) }
    ensures err { OnErr result (versions store.new ≡ versions store.old) }
    ensures succeeds { HasRooms store.old (new_keys V.seen V.Key.cmp (versions store.old) version)
        (new_versions V.seen V.Key.cmp (versions store.old) version) → IsOk result }
    ensures room { (n m : ℕ) →
        HasRooms store.old (n + new_keys V.seen V.Key.cmp (versions store.old) version)
        (m + new_versions V.seen V.Key.cmp (versions store.old) version) →
        HasRooms store.new n m }
{
    match find(store, version.key()) {
        Ok(cursor) => {
            let greater = is_greater(store, cursor, &version);
            if greater {
                put_over(store, cursor, version)?;
            }
            Ok(greater)
        }
        Err(cursor) => {
            put_new(store, cursor, version)?;
            Ok(true)
        }
    }
}

/// Puts a copy of a version in if it is greater than the one of its key, and returns whether it is. If not, it isn't copied.
pub fn put_copy<V: Version>(
    store: &mut Store<V>,
    version: &V,
    alloc: Global,
) -> Result<bool, AllocError>
    requires { IsStore V.seen V.head_of V.Key.cmp V.bucket_of store.old }
    ensures store { IsStore V.seen V.head_of V.Key.cmp V.bucket_of store.new }
    ensures put { OnOk result
        (IsPut V.seen V.Key.cmp (versions store.old) version.now (versions store.new)) }
    ensures answer { IfOk result (λ changed.
        changed ≡ replaces V.seen V.Key.cmp (versions store.old) version.now) }
    ensures err { OnErr result (versions store.new ≡ versions store.old) }
{
    match find(store, version.key()) {
        Ok(cursor) => {
            let greater = is_greater(store, cursor, version);
            if greater {
                put_over(store, cursor, version.try_clone(alloc)?)?;
            }
            Ok(greater)
        }
        Err(cursor) => {
            put_new(store, cursor, version.try_clone(alloc)?)?;
            Ok(true)
        }
    }
}

/// Appends a version whose key is behind all others.
pub fn append<V: Version>(store: &mut Store<V>, version: V) -> Result<(), AllocError>
    requires store { IsStore V.seen V.head_of V.Key.cmp V.bucket_of store.old }
    requires last { IsMap V.seen V.Key.cmp (versions store.old ++ version ∷ []) }
    ensures store { IsStore V.seen V.head_of V.Key.cmp V.bucket_of store.new }
    ensures appended { OnOk result (versions store.new ≡ versions store.old ++ version ∷ []) }
{
    let end = store.keys.end();
    put_new(store, end, version)
}

/// Sorts versions by their keys, and returns whether no two have the same key.
pub fn order_by_key<V: Version>(versions: &mut Vec<V>) -> bool
    ensures same { IsPermutation versions.old.items versions.new.items }
    ensures map { IsTrue result → IsMap V.seen V.Key.cmp versions.new.items }
    ensures twice { (result ≡ false) ↔ HasTwice V.seen versions.old.items }
{
    versions.sort_unstable_by(|one, other| one.key().cmp(other.key()));
    versions.is_sorted_by(|one, next| one.key().cmp(next.key()).is_lt())
}

/// Returns a store of versions that are in the order of their keys.
pub fn from_sorted<V: Version>(alloc: Global, sorted: Vec<V>) -> Result<Store<V>, AllocError>
    requires { IsMap V.seen V.Key.cmp sorted.items }
    ensures store { IfOk result (IsStore V.seen V.head_of V.Key.cmp V.bucket_of) }
    ensures all { IfOk result (λ store. versions store ≡ sorted.items) }
{
    let mut store = empty_store(alloc);
    for version in sorted {
        append(&mut store, version)?;
    }
    Ok(store)
}

/// Returns a store with a copy of each version.
pub fn copy_store<V: Version>(held: &Store<V>, alloc: Global) -> Result<Store<V>, AllocError>
    requires { IsStore V.seen V.head_of V.Key.cmp V.bucket_of held.now }
    ensures store { IfOk result (IsStore V.seen V.head_of V.Key.cmp V.bucket_of) }
    ensures all { IfOk result (λ store. versions store ≡ versions held.now) }
{
    let mut store = empty_store(alloc);
    for version in walk_store(held) {
        append(&mut store, version.try_clone(alloc)?)?;
    }
    Ok(store)
}

/// Takes copies of another store's versions in the order of their keys, and returns how many are held as a result.
pub fn merge_in<V: Version>(
    store: &mut Store<V>,
    other: &Store<V>,
    alloc: Global,
) -> Result<usize, MergeError>
    requires store { IsStore V.seen V.head_of V.Key.cmp V.bucket_of store.old }
    requires other { IsStore V.seen V.head_of V.Key.cmp V.bucket_of other.now }
    ensures store { IsStore V.seen V.head_of V.Key.cmp V.bucket_of store.new }
    ensures joined { OnOk result
        (IsJoin V.seen V.Key.cmp (versions store.old) (versions other.now) (versions store.new)) }
    ensures count { IfOk result (λ changed.
        changed ≡ count_by (replaces V.seen V.Key.cmp (versions store.old)) (versions other.now)) }
    ensures within { IfErr result (λ e. e.taken < length (versions other.now)) }
    ensures stopped { IfErr result (λ e.
        IsJoin V.seen V.Key.cmp (versions store.old) (take e.taken (versions other.now)) (versions store.new)) }
{
    // Neither count below exceeds this one, so no sum overflows.
    let _size = other.table.len();
    let mut changed = 0;
    let mut taken = 0;
    for version in walk_store(other) {
        let Ok(more) = put_copy(store, version, alloc) else {
            return Err(MergeError { taken });
        };
        changed += usize::from(more);
        taken += 1;
    }
    Ok(changed)
}

/// Returns the slot of the version that expires first, if it isn't live.
fn expired<V: Version>(store: &Store<V>, now: Moment) -> Option<usize>
    requires { IsStore V.seen V.head_of V.Key.cmp V.bucket_of store.now }
    ensures first { IfSome result (IsExpiredAt V.seen now store.now.table) }
    ensures none { IfNone result (swept V.seen now (versions store.now) ≡ versions store.now) }
{
    let first = store.expiries.first()?;
    if now < first.expires {
        None
    } else {
        Some(first.slot)
    }
}

/// Drops each version that isn't live, and returns how many were dropped. Nothing is allocated.
pub fn drop_expired<V: Version>(store: &mut Store<V>, now: Moment) -> usize
    requires { IsStore V.seen V.head_of V.Key.cmp V.bucket_of store.old }
    ensures store { IsStore V.seen V.head_of V.Key.cmp V.bucket_of store.new }
    ensures swept { versions store.new ≡ swept V.seen now (versions store.old) }
    ensures went { result + length (versions store.new) ≡ length (versions store.old) }
{
    let before = store.table.len();
    while let Some(slot) = expired(store, now) {
        drop_at(store, slot);
    }
    before - store.table.len()
}

/// Returns the result of taking a version, from whether it is live and whether it is held now.
pub fn taken_as(is_live: bool, changed: bool) -> Taken
    ensures { result ≡ taken_by is_live changed }
{
    match (is_live, changed) {
        (false, _) => Taken::Expired,
        (true, true) => Taken::Changed,
        (true, false) => Taken::Kept,
    }
}
