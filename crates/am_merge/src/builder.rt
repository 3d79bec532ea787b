//! A builder of maps from many versions.

ghost use Rattle.std.specs.Prelude.{◌≡◌, [], Ok, true, false, is_none, IfOk, OnErr, OnOk};
ghost use Rattle.am_merge.specs.Maps.{at};
ghost use Rattle.am_merge.specs.Takings.{IsPut};

use crate::bulk::{add_by_key, build, by_key, put_by_key};
use crate::held::Held;
use crate::store::{Store, empty_store, find};
use am_version_order::Version;
use std::alloc::{AllocError, Global};
use std::marker::Model;
use std::mem;

/// A map that is being made of many versions. It has the index by key alone, until the others are built at once.
///
/// Contracts see it as the list of its versions in the order of their keys.
#[derive(Drop)]
pub struct HeldBuilder<V: Version> {
    store: Store<V>,
    alloc: Global,
}

impl<V: Version> Model for HeldBuilder<V> {
    ghost use Rattle.std.specs.Prelude.{List, All};
    ghost use Rattle.am_merge.specs.Stores.{versions, IsKeyed};

    ghost Value = { List V };

    ghost view = { λ builder. versions builder.store };

    ghost invariant = { λ builder. IsKeyed V.seen V.head_of V.Key.cmp builder.store
        × All V.is_value (versions builder.store) };
}

impl<V: Version> HeldBuilder<V> {
    /// Returns a builder of the empty map, without allocating.
    pub fn new(alloc: Global) -> HeldBuilder<V>
        ensures { result ≡ [] }
    {
        HeldBuilder::of(&mut Held::new(alloc))
    }

    /// Takes all versions out of a map, without allocating.
    pub fn of(held: &mut Held<V>) -> HeldBuilder<V>
        ensures same { result ≡ held.old }
        ensures left { held.new ≡ [] }
    {
        let alloc = held.alloc;
        let store = mem::replace(&mut held.store, empty_store(alloc));
        HeldBuilder {
            store: by_key(store, alloc),
            alloc,
        }
    }

    /// Takes a version. It is kept, live or not, if it is greater than the one of its key.
    ///
    /// # Errors
    ///
    /// [`AllocError`] if memory runs out. Nothing has changed then.
    pub fn take(&mut self, version: V) -> Result<(), AllocError>
        // PROMISE: A map that is built of many versions takes each of them as a map does.
        ensures taken { OnOk result (IsPut V.seen V.Key.cmp self.old version self.new) }
        ensures err { OnErr result (self.new ≡ self.old) }
    {
        let _content = version.canonical();
        put_by_key(&mut self.store, version)
    }

    /// Takes a version if it is the first one of its key, and returns whether it is. Nothing changes if the key has one already.
    ///
    /// # Errors
    ///
    /// [`AllocError`] if memory runs out. Nothing has changed then.
    pub fn insert_new(&mut self, version: V) -> Result<bool, AllocError>
        ensures answer { IfOk result (λ new.
            new ≡ is_none (at V.seen V.Key.cmp self.old (V.seen version).key)) }
        ensures put { result ≡ Ok true → IsPut V.seen V.Key.cmp self.old version self.new }
        ensures held { result ≡ Ok false → self.new ≡ self.old }
        ensures err { OnErr result (self.new ≡ self.old) }
    {
        match find(&self.store, version.key()) {
            Ok(_) => Ok(false),
            Err(cursor) => {
                let _content = version.canonical();
                add_by_key(&mut self.store, cursor, version)?;
                Ok(true)
            }
        }
    }

    /// Builds the map.
    ///
    /// # Errors
    ///
    /// [`AllocError`] if memory runs out.
    pub fn build(self) -> Result<Held<V>, AllocError>
        // PROMISE: A map that is built has just the versions that it took.
        ensures { IfOk result (λ held. held ≡ self) }
    {
        let HeldBuilder { store, alloc } = self;
        let store = build(store, alloc)?;
        Ok(Held { store, alloc })
    }
}
