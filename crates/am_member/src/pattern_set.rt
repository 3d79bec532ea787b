//! Patterns, each once.

use am_matcher::PatternCache;
use am_merge::{Held, Iter};
use am_silence::{MatcherRef, Matchers, MeshSilence, Silence};
use am_version_order::Moment;
use am_wire::{Text, WireError};
use std::alloc::{AllocError, Global};

/// The number of bytes that are counted at least for a pattern that is kept, besides those of its text.
const BESIDE_TEXT: usize = 4_096;

/// The least number of bytes, as they are counted for what is kept, of patterns that can't all be kept.
const TOO_MANY_BYTES: usize = 128 << 20;

/// A set of patterns, as silences that have one of them each, since a cache drops the patterns that no silence has.
#[derive(Drop)]
pub struct PatternSet {
    silences: Held<MeshSilence>,
    /// The number of bytes that are counted at least for these patterns.
    bytes: usize,
}

/// Returns a silence that has this matcher alone, and its pattern as the identifier.
fn silence_with(alloc: Global, matcher: &MatcherRef<'_>) -> Result<Silence, AllocError> {
    let mut matchers = Matchers::none(alloc);
    matchers.push(alloc, matcher)?;
    Ok(Silence {
        id: Text::copied(alloc, matcher.pattern())?,
        matchers,
        starts_at: Moment::LEAST,
        ends_at: Moment::LEAST,
        updated_at: Moment::LEAST,
        created_by: Text::copied(alloc, "")?,
        comment: Text::copied(alloc, "")?,
    })
}

impl PatternSet {
    /// Returns an empty set. Nothing is allocated.
    pub fn new(alloc: Global) -> PatternSet {
        PatternSet {
            silences: Held::new(alloc),
            bytes: 0,
        }
    }

    /// Adds the pattern of a matcher, unless it is there, or has over 32 MiB.
    ///
    /// # Errors
    ///
    /// [`AllocError`] if memory runs out.
    pub fn add(&mut self, matcher: &MatcherRef<'_>) -> Result<(), AllocError> {
        let alloc = self.silences.allocator();
        let pattern = Text::copied(alloc, matcher.pattern())?;
        if self.silences.get(&pattern).is_some() {
            return Ok(());
        }
        let bytes = pattern.as_str().len().saturating_add(BESIDE_TEXT);
        match MeshSilence::new(alloc, silence_with(alloc, matcher)?, Moment::LEAST) {
            Ok(version) => {
                self.silences.insert_new(version)?;
                self.bytes = self.bytes.saturating_add(bytes);
                Ok(())
            }
            Err(WireError::TooLarge) => Ok(()),
            Err(_) => Err(AllocError),
        }
    }

    /// Returns whether the patterns are more than can be kept.
    pub fn is_too_large(&self) -> bool {
        self.bytes > TOO_MANY_BYTES
    }

    /// Returns silences with the patterns from one on, or all of them, in the order of the patterns.
    pub fn iter_from(&self, pattern: &Option<Text>) -> Iter<'_, MeshSilence> {
        match pattern {
            Some(pattern) => self.silences.iter_from(pattern),
            None => self.silences.iter(),
        }
    }

    /// Drops all other patterns from a cache. Nothing is allocated.
    pub fn drop_others(&self, patterns: &mut PatternCache) {
        patterns.drop_unused(&self.silences);
    }
}
