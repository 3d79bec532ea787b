//! Patterns that are kept if there is room.

use am_matcher::{Dialect, PatternCache};
use std::alloc::AllocError;

/// The result of keeping a pattern.
#[derive(Clone, Copy, PartialEq, Eq)]
pub enum KeepOutcome {
    /// It is kept. This many bytes were counted for it, which are 0 if it was kept before.
    Kept(usize),
    /// There is no room for it. This many bytes were counted for it.
    Full(usize),
}

/// Compiles a pattern and keeps it if there is room, unless it is kept.
pub fn keep(
    patterns: &mut PatternCache,
    dialect: Dialect,
    pattern: &str,
) -> Result<KeepOutcome, AllocError> {
    let before = patterns.size();
    let prepared = patterns.prepare_in(dialect, pattern)?;
    if prepared.bytes > 0 && patterns.size() <= before {
        Ok(KeepOutcome::Full(prepared.bytes))
    } else {
        Ok(KeepOutcome::Kept(prepared.bytes))
    }
}
