//! The entries of a cache: patterns that are kept, in the order of their texts.

ghost use Rattle.std.specs.Prelude.{◌≡◌, ℕ, ◌-◌, ◌^◌, ◌<◌, ◌≤◌, Bool, true, false, List, All, Contains, filter, length, min, IfOk, IfErr, IfSome, IsErrOf};
ghost use Rattle.std.specs.List.{HoldsAt};
ghost use Rattle.am_silence.specs.Kinds.{is_regexp};
ghost use Rattle.am_matcher.specs.Patterns.{IsSound};
ghost use Rattle.am_matcher.specs.Dialects.{IsAnswer, IsBrokenIn, IsMeaning, IsSoundIn};
ghost use Rattle.am_matcher.specs.Sizes.{long_steps_of_all, size_of_all};
ghost use Rattle.am_matcher.specs.Uses.{is_used_by, PatternsPass, TextsPass};
ghost use Rattle.am_matcher.specs.Entries.{patterns_in, MarkedPass};

use crate::compiled::BuildError;
use crate::dialect::Dialect;
use crate::kept::Kept;
use crate::whole::Whole;
use am_merge::Held;
use am_silence::{MatcherIter, MatcherRef, MeshSilence};

/// A pattern that is kept.
#[derive(Drop)]
pub struct CacheEntry {
    pub kept: Kept,
    /// True if the pattern is marked as one that a silence has. Marks count only while the unused patterns are dropped.
    pub is_used: bool,
}

/// Returns the place of the pattern with this text, or the place where it would be inserted.
pub fn place_of(entries: &[CacheEntry], text: &str) -> Result<usize, usize>
    ensures found { IfOk result (HoldsAt (λ e. e.kept.text ≡ text.now) entries.now) }
    ensures inside { IfOk result (λ place. place < length entries.now) }
    ensures within { IfErr result (λ place. place ≤ length entries.now) }
{
    entries.binary_search_by(|entry| entry.kept.text().cmp(text))
}

/// Returns the place of the pattern with this text, if it is one of the dialect.
fn place_in(entries: &[CacheEntry], dialect: Dialect, text: &str) -> Option<usize>
    ensures found { IfSome result (HoldsAt (λ e. e.kept.text ≡ text.now) entries.now) }
    ensures dialect { IfSome result (HoldsAt (λ e. e.kept.dialect ≡ dialect) entries.now) }
    ensures inside { IfSome result (λ place. place < length entries.now) }
{
    let Ok(place) = place_of(entries, text) else {
        return None;
    };
    if entries[place].kept.dialect() == dialect {
        Some(place)
    } else {
        None
    }
}

/// Returns whether the value matches the pattern with this text, if that is kept as one of the dialect.
pub fn ask(
    entries: &mut Vec<CacheEntry>,
    dialect: Dialect,
    pattern: &str,
    value: &str,
) -> Option<Result<bool, BuildError>>
    ensures answer { IfSome result (λ found. IfOk found (IsAnswer dialect pattern.now value.now)) }
    ensures broken { IfSome result (λ found. IsErrOf found BuildError.BadPattern → IsBrokenIn dialect pattern.now) }
    ensures same { patterns_in entries.new.items ≡ patterns_in entries.old.items }
{
    let place = place_in(entries.as_slice(), dialect, pattern)?;
    let entry = &mut entries[place];
    Some(entry.kept.is_match(value))
}

/// Returns whether the pattern with this text is broken, if it is kept as one of the dialect.
pub fn is_broken_in(entries: &[CacheEntry], dialect: Dialect, pattern: &str) -> Option<bool>
    ensures sound { IfSome result (λ broken. broken ≡ false → IsSoundIn dialect pattern.now) }
    ensures broken { IfSome result (λ broken. broken ≡ true → IsBrokenIn dialect pattern.now) }
{
    let place = place_in(entries, dialect, pattern)?;
    Some(entries[place].kept.is_broken())
}

/// Returns the compiled form of the pattern with this text, if it is kept as one of the dialect. What is kept is shared.
pub fn whole_in(
    entries: &[CacheEntry],
    dialect: Dialect,
    pattern: &str,
) -> Option<Result<Whole, BuildError>>
    ensures meant { IfSome result (λ found. IfOk found (λ whole. IsMeaning dialect pattern.now whole.text)) }
    ensures sound { IfSome result (λ found. IfOk found (λ whole. IsSound whole.text)) }
    ensures broken { IfSome result (λ found. IsErrOf found BuildError.BadPattern → IsBrokenIn dialect pattern.now) }
{
    let place = place_in(entries, dialect, pattern)?;
    Some(entries[place].kept.whole())
}

/// Returns the number of bytes that are counted for the patterns.
pub fn count(entries: &[CacheEntry]) -> usize
    requires { size_of_all (patterns_in entries.now) < 2 ^ 64 }
    ensures { result ≡ size_of_all (patterns_in entries.now) }
{
    let mut bytes = 0;
    for entry in entries {
        bytes += entry.kept.size();
    }
    bytes
}

/// Returns the number of steps that the long searches for the patterns take at most in a text of `length` bytes.
pub fn long_steps(entries: &[CacheEntry], length: usize) -> usize
    ensures { result ≡ min (long_steps_of_all length (patterns_in entries.now)) (2 ^ 64 - 1) }
{
    let mut steps = 0usize;
    for entry in entries {
        steps = steps.saturating_add(entry.kept.long_steps(length));
    }
    steps
}

/// Drops the patterns that no silence of the map has. Nothing is allocated.
pub fn drop_unused(entries: &mut Vec<CacheEntry>, held: &Held<MeshSilence>)
    ensures used { TextsPass (is_used_by held.now) (patterns_in entries.new.items) }
    ensures kept { All (Contains (patterns_in entries.old.items)) (patterns_in entries.new.items) }
    ensures size { size_of_all (patterns_in entries.new.items) ≤ size_of_all (patterns_in entries.old.items) }
{
    mark_used(entries, held);
    drop_unmarked(entries);
}

/// Marks the patterns that the silences of the map have, and no others.
fn mark_used(entries: &mut Vec<CacheEntry>, held: &Held<MeshSilence>)
    ensures same { patterns_in entries.new.items ≡ patterns_in entries.old.items }
    ensures used { MarkedPass (is_used_by held.now) entries.new.items }
{
    unmark_all(entries);
    for version in held.iter() {
        mark_all(entries, version.matchers());
    }
}

fn unmark_all(entries: &mut Vec<CacheEntry>)
    ensures same { patterns_in entries.new.items ≡ patterns_in entries.old.items }
    ensures none { All (λ e. e.is_used ≡ false) entries.new.items }
{
    for entry in entries.iter_mut() {
        entry.is_used = false;
    }
}

/// Marks the patterns of matchers.
fn mark_all(entries: &mut Vec<CacheEntry>, matchers: MatcherIter<'_>)
    ensures same { patterns_in entries.new.items ≡ patterns_in entries.old.items }
    ensures used { (test : List ℕ → Bool) → PatternsPass test matchers.entry →
        MarkedPass test entries.old.items → MarkedPass test entries.new.items }
{
    for matcher in matchers {
        mark(entries, &matcher);
    }
}

/// Marks the pattern of a matcher, if it is a regular expression and is kept.
fn mark(entries: &mut Vec<CacheEntry>, matcher: &MatcherRef<'_>)
    ensures same { patterns_in entries.new.items ≡ patterns_in entries.old.items }
    ensures used { (test : List ℕ → Bool) → (is_regexp matcher.now.kind ≡ true → test matcher.now.pattern ≡ true) →
        MarkedPass test entries.old.items → MarkedPass test entries.new.items }
{
    if !matcher.kind().is_regexp() {
        return;
    }
    let Ok(place) = place_of(entries.as_slice(), matcher.pattern()) else {
        return;
    };
    let entry = &mut entries[place];
    entry.is_used = true;
}

fn drop_unmarked(entries: &mut Vec<CacheEntry>)
    ensures { entries.new.items ≡ filter (λ e. e.is_used) entries.old.items }
{
    entries.retain(|entry| entry.is_used);
}
