//! Reasons why an Alertmanager can't hold a silence.

ghost use Rattle.std.specs.Prelude.{IfOk};
ghost use Rattle.am_matcher.specs.Hazards.{IsHazard};

use crate::cache::PatternCache;
use crate::compiled::BuildError;
use crate::dialect::Dialect;
use crate::judged::judge_by_no_labels;
use crate::label_names::are_labels;
use am_silence::MeshSilence;
use std::alloc::{AllocError, Global};

/// The reason why an Alertmanager can't hold a silence.
#[derive(Clone, Copy, Debug, PartialEq, Eq)]
pub enum Hazard {
    /// The Alertmanager refuses a pattern, and then it refuses each query of its silences.
    Pattern,
    /// There is no matcher, or a matcher has a name that no label can have, or all matchers match the empty text.
    Matcher,
}

/// Returns the reason why an Alertmanager can't hold the silence, or `None` if it can. The reason is [`Hazard::Pattern`] if
/// it refuses a pattern, or if the pattern of `regex` that stands for it is too big. Otherwise it is [`Hazard::Matcher`] if
/// it refuses the matchers.
///
/// # Errors
///
/// [`AllocError`] if memory runs out.
pub fn hazard_of(alloc: Global, silence: &MeshSilence) -> Result<Option<Hazard>, AllocError>
    // PROMISE: A silence without a hazard has patterns that RE2 reads alike, names of labels, and a matcher that wants a label.
    ensures { IfOk result (IsHazard silence.now.silence.matchers) }
{
    let mut patterns = PatternCache::new(alloc);
    match judge_by_no_labels(&mut patterns, Dialect::Re2, silence.matchers()) {
        Ok(false) if are_labels(silence.matchers()) => Ok(None),
        Ok(_) => Ok(Some(Hazard::Matcher)),
        Err(BuildError::BadPattern) => Ok(Some(Hazard::Pattern)),
        Err(BuildError::Memory) => Err(AllocError),
    }
}
