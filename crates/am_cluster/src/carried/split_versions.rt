//! Versions parted by their state.

ghost use Rattle.std.specs.Prelude.{◌≡◌, ◌++◌, ◌+◌, ◌<◌, ◌≤◌, [], ◌∷◌, map, take, min, length, IfOk};
ghost use Rattle.am_cluster.specs.Contents.{delivery_of, entries_in, silences_in};

use crate::carried::version::AnyVersion;
use am_nflog::MeshEntry;
use am_silence::MeshSilence;
use std::alloc::{AllocError, Global};
use std::marker::Model;

/// Versions of silences and of entries of the log, each in their order. Contracts see both lists, and for how many more
/// versions there is room.
#[derive(Drop)]
pub struct SplitVersions {
    silences: Vec<MeshSilence>,
    log: Vec<MeshEntry>,
}

impl Model for SplitVersions {
    ghost use Rattle.std.specs.Prelude.{◌-◌, min, vec_capacity, vec_len};
    ghost use Rattle.am_cluster.specs.States.{Sorted};

    ghost Value = { Sorted };

    ghost view = { λ s. record {
      silences = s.silences.items;
      log = s.log.items;
      room = min (vec_capacity s.silences - vec_len s.silences) (vec_capacity s.log - vec_len s.log);
    } };
}

impl SplitVersions {
    /// Returns no versions, with room for so many, whichever their state.
    ///
    /// # Errors
    ///
    /// [`AllocError`] if memory runs out.
    pub fn with_room(alloc: Global, count: usize) -> Result<SplitVersions, AllocError>
        ensures silences { IfOk result (λ sorted. sorted.silences ≡ []) }
        ensures log { IfOk result (λ sorted. sorted.log ≡ []) }
        ensures room { IfOk result (λ sorted. sorted.room ≡ count) }
    {
        Ok(SplitVersions {
            silences: Vec::with_capacity(alloc, count)?,
            log: Vec::with_capacity(alloc, count)?,
        })
    }

    /// Puts a version behind those of its state. It takes no memory.
    pub fn put(&mut self, version: AnyVersion)
        requires { 0 < self.old.room }
        ensures silences { self.new.silences ≡ self.old.silences ++ silences_in (delivery_of version ∷ []) }
        ensures log { self.new.log ≡ self.old.log ++ entries_in (delivery_of version ∷ []) }
        ensures room { self.old.room ≤ self.new.room + 1 }
    {
        match version {
            AnyVersion::Silence(silence) => self.silences.push_reserved(silence),
            AnyVersion::Entry(entry) => self.log.push_reserved(entry),
        }
    }

    /// Puts the first `count` versions behind those of their states, or all if they are fewer. It takes no memory.
    pub fn put_first(&mut self, versions: Vec<AnyVersion>, count: usize)
        requires { min count (length versions.items) ≤ self.old.room }
        ensures silences { self.new.silences ≡ self.old.silences ++ silences_in (take count (map delivery_of versions.items)) }
        ensures log { self.new.log ≡ self.old.log ++ entries_in (take count (map delivery_of versions.items)) }
        ensures room { self.old.room ≤ self.new.room + min count (length versions.items) }
    {
        let mut first = versions;
        first.truncate(count);
        for version in first {
            self.put(version);
        }
    }

    /// Returns the versions of both states. It takes no memory.
    pub fn into_parts(self) -> (Vec<MeshSilence>, Vec<MeshEntry>)
        ensures silences { result.0.items ≡ self.silences }
        ensures log { result.1.items ≡ self.log }
    {
        let SplitVersions { silences, log } = self;
        (silences, log)
    }
}
