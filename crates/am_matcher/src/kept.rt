//! Patterns that are kept from one call to the next.

ghost use Rattle.std.specs.Prelude.{◌≡◌, ◌-◌, ◌^◌, true, false, min, IfOk, OnOk, IsErrOf};
ghost use Rattle.am_matcher.specs.Patterns.{IsSound};
ghost use Rattle.am_matcher.specs.Dialects.{IsAnswer, IsBrokenIn, IsMeaning, IsSoundIn};
ghost use Rattle.am_matcher.specs.Kept.{pattern_of, IsBuilt};
ghost use Rattle.am_matcher.specs.Sizes.{long_steps, size_of};

use crate::compiled::BuildError;
use crate::counting::{counted, long_steps_with};
use crate::dialect::Dialect;
use crate::re2::re2_of;
use crate::whole::Whole;
use std::alloc::{AllocError, Global};
use std::marker::Model;

/// The result of building a pattern, with the pattern's text.
#[derive(Drop)]
pub enum Built {
    /// A pattern of `regex`, which was compiled.
    Sound(Box<Whole>),
    /// A pattern of RE2, and the pattern that was written for it and compiled.
    Translated { text: String, whole: Box<Whole> },
    Broken { dialect: Dialect, text: String },
}

/// Compiles the pattern of `regex` that is written for a pattern of RE2.
fn whole_of_re2(alloc: Global, pattern: &str) -> Result<Whole, BuildError>
    ensures meant { IfOk result (λ whole. IsMeaning Dialect.Re2 pattern.now whole.text) }
    ensures sound { IfOk result (λ whole. IsSound whole.text) }
    ensures broken { IsErrOf result BuildError.BadPattern → IsBrokenIn Dialect.Re2 pattern.now }
{
    let written = re2_of(alloc, pattern)?;
    Whole::build(alloc, written.as_str())
}

/// Compiles the pattern of `regex` that a pattern stands for.
pub fn whole_of(alloc: Global, dialect: Dialect, pattern: &str) -> Result<Whole, BuildError>
    ensures meant { IfOk result (λ whole. IsMeaning dialect pattern.now whole.text) }
    ensures sound { IfOk result (λ whole. IsSound whole.text) }
    ensures broken { IsErrOf result BuildError.BadPattern → IsBrokenIn dialect pattern.now }
{
    match dialect {
        Dialect::Regex => Whole::build(alloc, pattern),
        Dialect::Re2 => whole_of_re2(alloc, pattern),
    }
}

/// Returns the result for a pattern that was compiled.
fn compiled_of(
    alloc: Global,
    dialect: Dialect,
    pattern: &str,
    whole: Whole,
) -> Result<Built, AllocError>
    requires meant { IsMeaning dialect pattern.now whole.text }
    requires sound { IsSound whole.text }
    ensures text { IfOk result (λ built. (pattern_of built).text ≡ pattern.now) }
    ensures dialect { IfOk result (λ built. (pattern_of built).dialect ≡ dialect) }
    ensures told { IfOk result IsBuilt }
{
    let whole = Box::new(alloc, whole)?;
    match dialect {
        Dialect::Regex => Ok(Built::Sound(whole)),
        Dialect::Re2 => Ok(Built::Translated {
            text: String::from_str(alloc, pattern)?,
            whole,
        }),
    }
}

/// Builds a pattern. The result for a broken pattern says so.
fn built_of(alloc: Global, dialect: Dialect, pattern: &str) -> Result<Built, AllocError>
    ensures text { IfOk result (λ built. (pattern_of built).text ≡ pattern.now) }
    ensures dialect { IfOk result (λ built. (pattern_of built).dialect ≡ dialect) }
    ensures told { IfOk result IsBuilt }
{
    match whole_of(alloc, dialect, pattern) {
        Ok(whole) => compiled_of(alloc, dialect, pattern, whole),
        Err(BuildError::BadPattern) => Ok(Built::Broken {
            dialect,
            text: String::from_str(alloc, pattern)?,
        }),
        Err(BuildError::Memory) => Err(AllocError),
    }
}

/// A pattern, and the result of building it. Contracts see the pattern, and how much was compiled.
#[derive(Drop)]
pub struct Kept {
    built: Built,
}

impl Model for Kept {
    ghost use Rattle.am_matcher.specs.Sizes.{CompiledPattern};

    ghost Value = { CompiledPattern };

    ghost use Rattle.am_matcher.specs.Kept.{pattern_of, IsBuilt};

    ghost view = { λ k. pattern_of k.built };

    ghost invariant = { λ k. IsBuilt k.built };
}

impl Kept {
    /// Builds a pattern. A broken one is kept as such.
    pub fn build(alloc: Global, dialect: Dialect, pattern: &str) -> Result<Kept, AllocError>
        ensures text { IfOk result (λ kept. kept.text ≡ pattern.now) }
        ensures dialect { IfOk result (λ kept. kept.dialect ≡ dialect) }
    {
        let built = built_of(alloc, dialect, pattern)?;
        Ok(Kept { built })
    }

    /// Returns the text of the pattern.
    pub fn text(&self) -> &str
        ensures { result.now ≡ self.now.text }
    {
        match &self.built {
            Built::Sound(whole) => whole.text(),
            Built::Translated { text, .. } => text.as_str(),
            Built::Broken { text, .. } => text.as_str(),
        }
    }

    /// Returns the dialect of the pattern.
    pub fn dialect(&self) -> Dialect
        ensures { result ≡ self.now.dialect }
    {
        match &self.built {
            Built::Sound(_) => Dialect::Regex,
            Built::Translated { .. } => Dialect::Re2,
            Built::Broken { dialect, .. } => *dialect,
        }
    }

    /// Returns the number of bytes that are counted for the pattern.
    pub fn size(&self) -> usize
        ensures { result ≡ min (size_of self.now) (2 ^ 64 - 1) }
    {
        match &self.built {
            Built::Sound(whole) => whole.size(),
            Built::Translated { text, whole } => whole.size().saturating_add(text.len()),
            Built::Broken { text, .. } => counted(text.len(), 0, 0, 0),
        }
    }

    /// Returns the number of steps that a search for the pattern takes at most in a text of `length` bytes, or 0 if it isn't a
    /// long search.
    pub fn long_steps(&self, length: usize) -> usize
        ensures { result ≡ min (long_steps length self.now) (2 ^ 64 - 1) }
    {
        match &self.built {
            Built::Sound(whole) => long_steps_with(whole.states(), length),
            Built::Translated { whole, .. } => long_steps_with(whole.states(), length),
            Built::Broken { .. } => 0,
        }
    }

    /// Returns whether the pattern is broken.
    pub fn is_broken(&self) -> bool
        ensures sound { result ≡ false → IsSoundIn self.now.dialect self.now.text }
        ensures broken { result ≡ true → IsBrokenIn self.now.dialect self.now.text }
    {
        match &self.built {
            Built::Sound(_) => false,
            Built::Translated { .. } => false,
            Built::Broken { .. } => true,
        }
    }

    /// Returns the compiled form of the pattern. What is kept is shared.
    pub fn whole(&self) -> Result<Whole, BuildError>
        ensures meant { IfOk result (λ whole. IsMeaning self.now.dialect self.now.text whole.text) }
        ensures sound { IfOk result (λ whole. IsSound whole.text) }
        ensures broken { IsErrOf result BuildError.BadPattern → IsBrokenIn self.now.dialect self.now.text }
    {
        match &self.built {
            Built::Sound(whole) => Ok(whole.share()?),
            Built::Translated { whole, .. } => Ok(whole.share()?),
            Built::Broken { .. } => Err(BuildError::BadPattern),
        }
    }

    /// Returns whether the value matches the pattern from end to end.
    pub fn is_match(&mut self, value: &str) -> Result<bool, BuildError>
        ensures answer { IfOk result (IsAnswer self.old.dialect self.old.text value.now) }
        ensures broken { IsErrOf result BuildError.BadPattern → IsBrokenIn self.old.dialect self.old.text }
        ensures same { self.new ≡ self.old }
    {
        match &mut self.built {
            Built::Sound(whole) => Ok(whole.matches(value)?),
            Built::Translated { whole, .. } => Ok(whole.matches(value)?),
            Built::Broken { .. } => Err(BuildError::BadPattern),
        }
    }
}
