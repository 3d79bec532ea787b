//! A map from keys to the greatest version of each.

ghost use Rattle.std.specs.Prelude.{All, ◌≡◌, ◌==◌, ◌+◌, ◌<◌, ◌↔◌, [], true, false, length, take, count_by, is_none};
ghost use Rattle.std.specs.Prelude.{MatchOption, IfOk, IfErr, OnOk, OnErr, Ok, IsPermutation};
ghost use Rattle.std.specs.Option.{option_copied};
ghost use Rattle.am_merge.specs.Maps.{IsMap, IsJoin, IsLeastExpiry, HasTwice, at, from_key, if_live, in_bucket, replaces, swept};

use crate::changes::{
    copy_store, drop_expired, from_sorted, merge_in, needs, needs_after, order_by_key, put,
    put_new, taken_as,
};
use crate::iter::{InBucket, Iter, walk_bucket, walk_store, walk_store_from};
use crate::store::{Store, empty_store, find, reserve, version_at};
use am_version_order::{Moment, Version, versions_are_values};
use std::alloc::{AllocError, Global};
use std::marker::Model;

/// The result of taking a version.
#[derive(Clone, Copy, Debug, PartialEq, Eq)]
pub enum Taken {
    /// The version is live, and is held now.
    Changed,
    /// The version is live, and one at least as great stays held.
    Kept,
    /// The version isn't live. If it is greater than the one that was held, it is held all the same.
    Expired,
}

/// The error that memory ran out in a merge, after this many versions of the other map were taken.
#[derive(Clone, Copy, PartialEq, Eq)]
pub struct MergeError {
    pub taken: usize,
}

/// The reason why versions don't make a map.
#[derive(Clone, Copy, Debug, PartialEq, Eq)]
pub enum FromVersionsError {
    /// Two of the versions have the same key.
    DuplicateKey,
    /// Memory ran out.
    Memory,
}

/// A map from keys to versions.
///
/// Contracts see it as the list of its versions in the order of their keys.
pub struct Held<V: Version> {
    pub(crate) store: Store<V>,
    pub(crate) alloc: Global,
}

// With this the crates above cite one drop, and don't prove those of everything inside.
impl<V: Version> Drop for Held<V> {
    fn drop(self) {
        let Held { store: _, alloc: _ } = self;
    }
}

impl<V: Version> Model for Held<V> {
    ghost use Rattle.std.specs.Prelude.{List, All};
    ghost use Rattle.am_merge.specs.Stores.{versions, IsStore};

    ghost Value = { List V };

    ghost view = { λ held. versions held.store };

    ghost invariant = { λ held. IsStore V.seen V.head_of V.Key.cmp V.bucket_of held.store
        × All V.is_value (versions held.store) };
}

impl<V: Version> Held<V> {
    ghost use Rattle.std.specs.declared.alloc.Global.{Global};
    ghost use Rattle.am_merge.specs.Takings.{IsPut, IsTaking, AreTakings};

    /// Returns an empty map, without allocating.
    pub fn new(alloc: Global) -> Self
        ensures { result ≡ [] }
    {
        Held {
            store: empty_store(alloc),
            alloc,
        }
    }

    /// Returns the map of these versions, no two of which have the same key.
    ///
    /// # Errors
    ///
    /// [`FromVersionsError::DuplicateKey`] if two have the same key, and [`FromVersionsError::Memory`] if memory runs out.
    pub fn from_versions(alloc: Global, mut versions: Vec<V>) -> Result<Self, FromVersionsError>
        ensures order { IfOk result (IsMap V.seen V.Key.cmp) }
        ensures members { IfOk result (IsPermutation versions.items) }
        ensures twice { (result ≡ Err FromVersionsError.DuplicateKey)
            ↔ HasTwice V.seen versions.items }
    {
        versions_are_values(&versions);
        if !order_by_key(&mut versions) {
            return Err(FromVersionsError::DuplicateKey);
        }
        match from_sorted(alloc, versions) {
            Ok(store) => Ok(Held { store, alloc }),
            Err(_) => Err(FromVersionsError::Memory),
        }
    }

    /// Returns a copy.
    ///
    /// # Errors
    ///
    /// [`AllocError`] if memory runs out.
    pub fn try_clone(&self) -> Result<Self, AllocError>
        ensures { IfOk result (λ copy. copy ≡ self.now) }
    {
        let alloc = self.alloc;
        let store = copy_store(&self.store, alloc)?;
        Ok(Held { store, alloc })
    }

    /// Returns the allocator that the map was made with. Nothing is allocated.
    pub fn allocator(&self) -> Global
        // There is only one allocator, so it is the one that the map was made with.
        ensures { (alloc : Global) → result ≡ alloc }
    {
        self.alloc
    }

    /// Returns the number of keys.
    pub fn len(&self) -> usize
        ensures { result ≡ length self.now }
    {
        self.store.table.len()
    }

    /// Returns whether the map has no keys.
    pub fn is_empty(&self) -> bool
        ensures { result ≡ (length self.now == 0) }
    {
        self.store.table.is_empty()
    }

    /// Returns the version of a key, live or not.
    pub fn get(&self, key: &V::Key) -> Option<&V>
        ensures { option_copied result ≡ at V.seen V.Key.cmp self.now key.now }
    {
        match find(&self.store, key) {
            Ok(cursor) => Some(version_at(&self.store, cursor)),
            Err(_) => None,
        }
    }

    /// States that the versions are values of their type, in the order of their keys, none of which occurs twice. Calling it
    /// has no effect.
    pub fn has_values(&self)
        ensures values { All V.is_value self.now }
        ensures order { IsMap V.seen V.Key.cmp self.now }
    {
        let _ = &self.store;
    }

    /// Returns an iterator over the versions in the order of their keys.
    pub fn iter(&self) -> Iter<'_, V>
        ensures items { result ≡ self.now }
        ensures order { IsMap V.seen V.Key.cmp self.now }
    {
        walk_store(&self.store)
    }

    /// Returns an iterator over the versions of a key and of all keys above it, in the order of the keys. Nothing is allocated.
    pub fn iter_from(&self, key: &V::Key) -> Iter<'_, V>
        ensures items { result ≡ from_key V.seen V.Key.cmp self.now key.now }
        ensures order { IsMap V.seen V.Key.cmp self.now }
    {
        walk_store_from(&self.store, key)
    }

    /// Returns an iterator over the versions of a bucket, in the order of their keys. Nothing is allocated.
    pub fn in_bucket<'a>(&'a self, bucket: &'a [u8]) -> InBucket<'a, V>
        ensures items { result ≡ in_bucket V.bucket_of bucket.now self.now }
        ensures order { IsMap V.seen V.Key.cmp self.now }
    {
        walk_bucket(&self.store, bucket)
    }

    /// Returns the least expiry of the versions, or `None` if there are none. Nothing is allocated.
    pub fn next_expiry(&self) -> Option<Moment>
        ensures { MatchOption result (self.now ≡ []) (IsLeastExpiry V.seen self.now) }
    {
        match self.store.expiries.first() {
            Some(first) => Some(first.expires),
            None => None,
        }
    }

    /// Takes a version. It is held, live or not, if it is greater than the one of its key.
    ///
    /// # Errors
    ///
    /// [`AllocError`] if memory runs out. Nothing has changed then.
    pub fn take(&mut self, version: V, now: Moment) -> Result<Taken, AllocError>
        // PROMISE: A version that is taken is joined, live or not, and the answer says whether that changed the map.
        ensures taken { IfOk result (IsTaking V.seen V.Key.cmp now self.old version self.new) }
        ensures err { OnErr result (self.new ≡ self.old) }
    {
        let is_live = now < version.expires();
        let _content = version.canonical();
        let changed = put(&mut self.store, version)?;
        Ok(taken_as(is_live, changed))
    }

    /// Takes a version if it is the first one of its key, and returns whether it is. Nothing changes if the key has one already.
    ///
    /// # Errors
    ///
    /// [`AllocError`] if memory runs out. Nothing has changed then.
    pub fn insert_new(&mut self, version: V) -> Result<bool, AllocError>
        ensures answer { IfOk result (λ new.
            new ≡ is_none (at V.seen V.Key.cmp self.old (V.seen version).key)) }
        ensures put { result ≡ Ok true → IsPut V.seen V.Key.cmp self.old version self.new }
        ensures held { result ≡ Ok false → self.new ≡ self.old }
        ensures err { OnErr result (self.new ≡ self.old) }
    {
        match find(&self.store, version.key()) {
            Ok(_) => Ok(false),
            Err(cursor) => {
                let _content = version.canonical();
                put_new(&mut self.store, cursor, version)?;
                Ok(true)
            }
        }
    }

    /// Takes two versions in order, or neither.
    ///
    /// # Errors
    ///
    /// [`AllocError`] if memory runs out. Nothing has changed then.
    pub fn take_pair(
        &mut self,
        first: V,
        second: V,
        now: Moment,
    ) -> Result<(Taken, Taken), AllocError>
        ensures taken { IfOk result (AreTakings V.seen V.Key.cmp now self.old first second self.new) }
        ensures err { OnErr result (self.new ≡ self.old) }
    {
        let is_first_live = now < first.expires();
        let is_second_live = now < second.expires();
        let _content = first.canonical();
        let _content = second.canonical();
        let (first_keys, first_versions) = needs(&self.store, &first);
        let (second_keys, second_versions) = needs_after(&self.store, &first, &second);
        reserve(
            &mut self.store,
            first_keys + second_keys,
            first_versions + second_versions,
        )?;
        let is_first_new = put(&mut self.store, first)?;
        let is_second_new = put(&mut self.store, second)?;
        Ok((
            taken_as(is_first_live, is_first_new),
            taken_as(is_second_live, is_second_new),
        ))
    }

    /// Takes each version of another map, live or not, in the order of the keys, and returns the number of keys whose version
    /// has changed. The moment makes no difference.
    ///
    /// # Errors
    ///
    /// [`MergeError`] if memory runs out. The versions before the one that failed have been taken then.
    pub fn merge(&mut self, other: &Held<V>, _now: Moment) -> Result<usize, MergeError>
        ensures order { IsMap V.seen V.Key.cmp self.new }
        // PROMISE: A merge is the join of both maps.
        ensures joined { OnOk result (IsJoin V.seen V.Key.cmp self.old other.now self.new) }
        ensures count { IfOk result (λ changed.
            changed ≡ count_by (replaces V.seen V.Key.cmp self.old) other.now) }
        ensures within { IfErr result (λ e. e.taken < length other.now) }
        ensures stopped { IfErr result (λ e.
            IsJoin V.seen V.Key.cmp self.old (take e.taken other.now) self.new) }
    {
        merge_in(&mut self.store, &other.store, self.alloc)
    }

    /// Drops each version that isn't live, and returns how many were dropped. Nothing is allocated.
    pub fn sweep(&mut self, now: Moment) -> usize
        // PROMISE: A sweep drops exactly the versions that aren't live.
        ensures swept { self.new ≡ swept V.seen now self.old }
        ensures each { (key : V.Key) →
            at V.seen V.Key.cmp self.new key ≡ if_live V.seen now (at V.seen V.Key.cmp self.old key) }
        ensures went { result + length self.new ≡ length self.old }
    {
        drop_expired(&mut self.store, now)
    }
}
