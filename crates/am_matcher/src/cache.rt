//! Compiled patterns that are kept.

ghost use Rattle.std.specs.Prelude.{◌≡◌, ◌≤◌, ◌+◌, ◌-◌, ◌^◌, min, ℕ, Bool, true, false, List, [], All, Contains, IfOk, OnErr, IsErrOf};
ghost use Rattle.am_matcher.specs.Patterns.{IsSound, IsBroken};
ghost use Rattle.am_matcher.specs.Dialects.{IsAnswer, IsBrokenIn, IsMeaning, IsSoundIn};
ghost use Rattle.am_matcher.specs.Sizes.{long_steps_of_all, size_of, size_of_all};
ghost use Rattle.am_matcher.specs.Uses.{is_used_by, TextsPass};

use crate::compiled::BuildError;
use crate::dialect::Dialect;
use crate::entries::{
    CacheEntry, ask, count, drop_unused, is_broken_in, long_steps, place_of, whole_in,
};
use crate::kept::{Kept, whole_of};
use crate::whole::Whole;
use am_merge::Held;
use am_silence::MeshSilence;
use std::alloc::{AllocError, Global};
use std::marker::Model;

/// The maximum number of bytes that are counted for all patterns.
const MOST_BYTES: usize = 128 << 20;

/// The use of a cache by a call that asks for patterns.
#[derive(Clone, Copy)]
pub(crate) enum CacheUse {
    /// Patterns that are kept are used, and those that are compiled are kept if there is room.
    Fill,
    /// Patterns that are kept are used, and no other one is kept.
    LookUp,
}

/// The result of preparing a pattern.
#[derive(Clone, Copy, PartialEq, Eq)]
pub struct Prepared {
    /// The number of bytes that are counted for what was compiled: those of its text alone if the pattern is broken, and 0
    /// if it was kept before.
    pub bytes: usize,
    /// True if the pattern is refused, by `regex` or as one of RE2.
    pub is_broken: bool,
}

/// Compiled patterns of silences, each of which is compiled once and not at each call.
///
/// Contracts see the patterns that are kept, in the order of their texts. Answers don't depend on which these are. A
/// pattern is built for the call alone if there is no room or no memory for one more, or if its text is kept as a pattern
/// of another dialect.
pub struct PatternCache {
    alloc: Global,
    entries: Vec<CacheEntry>,
    /// The number of bytes that are counted for all patterns.
    bytes: usize,
}

// With this the crates above cite one drop, and don't prove those of everything inside.
impl Drop for PatternCache {
    fn drop(self) {
        let PatternCache {
            alloc: _,
            entries: _,
            bytes: _,
        } = self;
    }
}

impl Model for PatternCache {
    ghost use Rattle.std.specs.Prelude.{◌≡◌, ◌≤◌, List};
    ghost use Rattle.am_matcher.specs.Sizes.{CompiledPattern, size_of_all};

    ghost Value = { List CompiledPattern };

    ghost use Rattle.am_matcher.specs.Entries.{patterns_in};

    ghost view = { λ c. patterns_in c.entries.items };

    ghost invariant = { λ c. (c.bytes ≡ size_of_all (patterns_in c.entries.items)) × (c.bytes ≤ 134_217_728) };
}

impl PatternCache {
    /// Returns a cache that keeps nothing yet. Nothing is allocated.
    pub fn new(alloc: Global) -> PatternCache
        ensures { result ≡ [] }
    {
        PatternCache {
            alloc,
            entries: Vec::new(alloc),
            bytes: 0,
        }
    }

    pub(crate) fn alloc(&self) -> Global {
        self.alloc
    }

    /// Returns the number of bytes that are counted for the patterns: at most 128 MiB.
    pub fn size(&self) -> usize
        ensures size { result ≡ size_of_all self.now }
        // PROMISE: At most 128 MiB of patterns are kept.
        ensures bounded { size_of_all self.now ≤ 134_217_728 }
    {
        self.bytes
    }

    /// Returns the number of steps that searches for the kept patterns take at most in a text of `length` bytes, without those of
    /// short searches.
    pub fn long_steps(&self, length: usize) -> usize
        ensures { result ≡ min (long_steps_of_all length self.now) (2 ^ 64 - 1) }
    {
        long_steps(self.entries.as_slice(), length)
    }

    /// Returns whether the value matches the pattern from end to end.
    pub(crate) fn is_match(
        &mut self,
        dialect: Dialect,
        pattern: &str,
        value: &str,
        cache_use: CacheUse,
    ) -> Result<bool, BuildError>
        ensures answer { IfOk result (IsAnswer dialect pattern.now value.now) }
        ensures broken { IsErrOf result BuildError.BadPattern → IsBrokenIn dialect pattern.now }
        ensures same { cache_use ≡ CacheUse.LookUp → self.new ≡ self.old }
        ensures kept { (test : List ℕ → Bool) → test pattern.now ≡ true → TextsPass test self.old → TextsPass test self.new }
    {
        if let Some(found) = ask(&mut self.entries, dialect, pattern, value) {
            return found;
        }
        let mut built = Kept::build(self.alloc, dialect, pattern)?;
        let found = built.is_match(value);
        match cache_use {
            CacheUse::Fill => {
                let _ = self.keep(built);
            }
            CacheUse::LookUp => {}
        }
        found
    }

    /// Compiles a pattern of `regex`, and keeps it if it isn't kept yet and there is room.
    ///
    /// # Errors
    ///
    /// [`AllocError`] if memory runs out. The cache is unchanged then.
    pub fn prepare(&mut self, pattern: &str) -> Result<Prepared, AllocError>
        ensures sound { IfOk result (λ prepared. prepared.is_broken ≡ false → IsSound pattern.now) }
        ensures broken { IfOk result (λ prepared. prepared.is_broken ≡ true → IsBroken pattern.now) }
        ensures size { IfOk result (λ prepared. size_of_all self.new ≤ size_of_all self.old + prepared.bytes) }
        ensures old { All (Contains self.new) self.old }
        ensures kept { (test : List ℕ → Bool) → test pattern.now ≡ true → TextsPass test self.old → TextsPass test self.new }
        ensures same { OnErr result (self.new ≡ self.old) }
    {
        self.prepare_in(Dialect::Regex, pattern)
    }

    /// Prepares a pattern of the dialect, as [`PatternCache::prepare`] does for one of `regex`.
    ///
    /// # Errors
    ///
    /// [`AllocError`] if memory runs out. The cache is unchanged then.
    pub fn prepare_in(&mut self, dialect: Dialect, pattern: &str) -> Result<Prepared, AllocError>
        ensures sound { IfOk result (λ prepared. prepared.is_broken ≡ false → IsSoundIn dialect pattern.now) }
        ensures broken { IfOk result (λ prepared. prepared.is_broken ≡ true → IsBrokenIn dialect pattern.now) }
        ensures size { IfOk result (λ prepared. size_of_all self.new ≤ size_of_all self.old + prepared.bytes) }
        ensures old { All (Contains self.new) self.old }
        ensures kept { (test : List ℕ → Bool) → test pattern.now ≡ true → TextsPass test self.old → TextsPass test self.new }
        ensures same { OnErr result (self.new ≡ self.old) }
    {
        if let Some(is_broken) = is_broken_in(self.entries.as_slice(), dialect, pattern) {
            return Ok(Prepared {
                bytes: 0,
                is_broken,
            });
        }
        let built = Kept::build(self.alloc, dialect, pattern)?;
        let bytes = built.size();
        let is_broken = built.is_broken();
        self.keep(built)?;
        Ok(Prepared { bytes, is_broken })
    }

    /// Returns the compiled form of the pattern of `regex` that a pattern stands for. It is shared if it is kept, and built
    /// otherwise.
    pub(crate) fn whole(&self, dialect: Dialect, pattern: &str) -> Result<Whole, BuildError>
        ensures meant { IfOk result (λ whole. IsMeaning dialect pattern.now whole.text) }
        ensures sound { IfOk result (λ whole. IsSound whole.text) }
        ensures broken { IsErrOf result BuildError.BadPattern → IsBrokenIn dialect pattern.now }
    {
        match whole_in(self.entries.as_slice(), dialect, pattern) {
            Some(found) => found,
            None => whole_of(self.alloc, dialect, pattern),
        }
    }

    /// Keeps a pattern if there is room.
    ///
    /// # Errors
    ///
    /// [`AllocError`] if memory runs out. The cache is unchanged then.
    fn keep(&mut self, built: Kept) -> Result<(), AllocError>
        ensures size { size_of_all self.new ≤ size_of_all self.old + min (size_of built) (2 ^ 64 - 1) }
        ensures old { All (Contains self.new) self.old }
        ensures kept { (test : List ℕ → Bool) → test built.text ≡ true → TextsPass test self.old → TextsPass test self.new }
        ensures same { OnErr result (self.new ≡ self.old) }
    {
        let size = built.size();
        if size > MOST_BYTES - self.bytes {
            return Ok(());
        }
        let Err(place) = place_of(self.entries.as_slice(), built.text()) else {
            return Ok(());
        };
        let entry = CacheEntry {
            kept: built,
            is_used: false,
        };
        self.entries.insert(place, entry)?;
        self.bytes += size;
        Ok(())
    }

    /// Drops the patterns that no silence of the map has. Nothing is allocated.
    pub fn drop_unused(&mut self, held: &Held<MeshSilence>)
        ensures used { TextsPass (is_used_by held.now) self.new }
        ensures kept { All (Contains self.old) self.new }
    {
        if self.entries.is_empty() {
            return;
        }
        drop_unused(&mut self.entries, held);
        self.bytes = count(self.entries.as_slice());
    }
}
