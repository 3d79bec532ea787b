//! Patterns of RE2 for `regex`.

ghost use Rattle.std.specs.Prelude.{◌≡◌, ◌≤◌, length, IfOk, IfErr};
ghost use Rattle.am_matcher.specs.Re2.{IsTranslation};
ghost use Rattle.am_matcher.specs.Re2Errors.{IsFault};

use crate::filter::characters_of;
use crate::pieces::text_of;
use crate::re2::reading::translated;
use am_wire::Text;
use std::alloc::{AllocError, Global};
use thiserror::Error;

/// The reason why a pattern isn't taken.
#[derive(Clone, Copy, Debug, PartialEq, Eq, Error)]
pub enum Re2Error {
    /// RE2 refuses the pattern, or may read it in another way than `regex` does. The fault is behind this number of bytes.
    #[error("bad pattern at byte {0}")]
    Refused(usize),
    #[error("out of memory")]
    Memory,
}

impl From<AllocError> for Re2Error {
    ghost use Rattle.std.specs.Prelude.{◌≡◌};
    ghost use Rattle.am_matcher.specs.declared.re2.translation.Re2Error.TheVariants.{Memory};

    ghost from_gives = { λ _ e. e ≡ Memory };

    fn from(_: AllocError) -> Re2Error {
        Re2Error::Memory
    }
}

/// Returns the number of bytes of the first characters of a text.
fn offset_of(text: &str, count: usize) -> usize
    ensures { result ≤ length text.now }
{
    match text.char_indices().nth(count) {
        Some((at, _)) => at,
        None => text.len(),
    }
}

/// Returns the pattern of `regex` that matches the same texts as this pattern of RE2 (Go's `regexp`).
///
/// A part of RE2 is taken: patterns that RE2 may refuse, or may read in another way than `regex` does, are refused. A named
/// group of the pattern captures nothing by its name.
///
/// # Errors
///
/// [`Re2Error::Refused`] if and only if the pattern isn't taken, and [`Re2Error::Memory`] if memory runs out.
pub fn re2_of(alloc: Global, pattern: &str) -> Result<Text, Re2Error>
    // PROMISE: A pattern that is taken is one of RE2's grammar, and what is written for it is what the grammar says.
    ensures translated { IfOk result (IsTranslation pattern.now) }
    ensures refused { IfErr result (IsFault pattern.now) }
{
    let characters = characters_of(alloc, pattern)?;
    match translated(alloc, &characters)? {
        Ok(written) => Ok(Text::new(text_of(alloc, &written)?)),
        Err(at) => Err(Re2Error::Refused(offset_of(pattern, at))),
    }
}
