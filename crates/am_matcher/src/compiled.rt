//! Matchers with their patterns compiled.

ghost use Rattle.std.specs.Prelude.{◌≡◌, true, List, ℕ, IfOk, OnOk, IsErrOf};
ghost use Rattle.am_matcher.specs.Matching.{is_found_by, is_met, matches_value, IsSoundMatcher, IsBrokenMatcher};
ghost use Rattle.am_silence.specs.Kinds.{is_regexp};
ghost use Rattle.am_matcher.specs.Dialects.{IsMeant, IsRefusedMatcher};

use crate::cache::PatternCache;
use crate::dialect::Dialect;
use crate::re2::Re2Error;
use crate::whole::Whole;
use am_silence::{Matcher, MatcherKind};
use am_wire::Text;
use std::alloc::{AllocError, Global};
use std::marker::Model;
use thiserror::Error;

/// The reason why a matcher isn't built.
#[derive(Clone, Copy, Debug, PartialEq, Eq, Error)]
pub enum BuildError {
    /// The pattern is refused by `regex`, by itself or as it is compiled, or isn't taken as one of RE2.
    #[error("bad pattern")]
    BadPattern,
    #[error("out of memory")]
    Memory,
}

impl From<AllocError> for BuildError {
    ghost use Rattle.std.specs.Prelude.{◌≡◌};
    ghost use Rattle.am_matcher.specs.declared.compiled.BuildError.TheVariants.{Memory};

    ghost from_gives = { λ _ e. e ≡ Memory };

    fn from(_: AllocError) -> BuildError {
        BuildError::Memory
    }
}

impl From<regex_syntax::Error> for BuildError {
    ghost use Rattle.std.specs.Prelude.{◌≡◌};
    ghost use Rattle.am_matcher.specs.Errors.{of_parser};

    ghost from_gives = { λ given e. e ≡ of_parser given.kind };

    fn from(error: regex_syntax::Error) -> BuildError {
        match error.kind {
            regex_syntax::ErrorKind::OutOfMemory => BuildError::Memory,
            _ => BuildError::BadPattern,
        }
    }
}

impl From<regex_compile::Error> for BuildError {
    ghost use Rattle.std.specs.Prelude.{◌≡◌};
    ghost use Rattle.am_matcher.specs.Errors.{of_compiler};

    ghost from_gives = { λ given e. e ≡ of_compiler given };

    fn from(error: regex_compile::Error) -> BuildError {
        match error {
            regex_compile::Error::OutOfMemory => BuildError::Memory,
            _ => BuildError::BadPattern,
        }
    }
}

impl From<regex_nfa::BuildError> for BuildError {
    ghost use Rattle.std.specs.Prelude.{◌≡◌};
    ghost use Rattle.am_matcher.specs.Errors.{of_tables};

    ghost from_gives = { λ given e. e ≡ of_tables given };

    fn from(error: regex_nfa::BuildError) -> BuildError {
        match error {
            regex_nfa::BuildError::OutOfMemory => BuildError::Memory,
            regex_nfa::BuildError::Malformed => BuildError::BadPattern,
        }
    }
}

impl From<Re2Error> for BuildError {
    ghost use Rattle.std.specs.Prelude.{◌≡◌};
    ghost use Rattle.am_matcher.specs.Errors.{of_re2};

    ghost from_gives = { λ given e. e ≡ of_re2 given };

    fn from(error: Re2Error) -> BuildError {
        match error {
            Re2Error::Refused(_) => BuildError::BadPattern,
            Re2Error::Memory => BuildError::Memory,
        }
    }
}

/// A matcher with its pattern compiled. Contracts see the matcher as it is meant: with the pattern of `regex` that its own
/// pattern stands for.
pub struct Compiled {
    matcher: Matcher,
    whole: Option<Whole>,
}

// With this the crates above cite one drop, and don't prove those of everything inside.
impl Drop for Compiled {
    fn drop(self) {
        let Compiled {
            matcher: _,
            whole: _,
        } = self;
    }
}

impl Model for Compiled {
    ghost use Rattle.am_silence.specs.declared.matcher.Matcher.{Matcher};
    ghost use Rattle.am_matcher.specs.Matching.{IsCompiled};

    ghost Value = { Matcher };

    ghost view = { λ c. c.matcher };

    ghost invariant = { λ c. IsCompiled c.matcher c.whole };
}

impl Compiled {
    /// Returns the matcher with its pattern compiled.
    ///
    /// # Errors
    ///
    /// [`BuildError::BadPattern`] if `regex` refuses the pattern `p`, by itself or as `^(?:p)$`, for a reason other than
    /// memory, and [`BuildError::Memory`] if memory runs out. Only a regular expression can be a bad pattern.
    pub fn build(alloc: Global, matcher: &Matcher) -> Result<Compiled, BuildError>
        ensures matcher { IfOk result (λ compiled. compiled ≡ matcher.now) }
        ensures sound { OnOk result (IsSoundMatcher matcher.now) }
        ensures broken { IsErrOf result BuildError.BadPattern → IsBrokenMatcher matcher.now }
    {
        Compiled::build_in(Dialect::Regex, &PatternCache::new(alloc), matcher)
    }

    /// Compiles a matcher of the dialect, as [`Compiled::build`] does for one of `regex`. A pattern that is kept is shared,
    /// and isn't compiled again.
    ///
    /// # Errors
    ///
    /// [`BuildError::BadPattern`] if the pattern is broken in the dialect, and [`BuildError::Memory`] if memory runs out.
    pub(crate) fn build_in(
        dialect: Dialect,
        patterns: &PatternCache,
        matcher: &Matcher,
    ) -> Result<Compiled, BuildError>
        ensures meant { IfOk result (IsMeant dialect matcher.now) }
        ensures sound { IfOk result IsSoundMatcher }
        ensures broken { IsErrOf result BuildError.BadPattern → IsRefusedMatcher dialect matcher.now }
    {
        if matcher.kind.is_regexp() {
            Compiled::of_regexp(dialect, patterns, matcher)
        } else {
            let matcher = matcher.try_clone(patterns.alloc())?;
            Ok(Compiled {
                matcher,
                whole: None,
            })
        }
    }

    /// Returns the matcher with its regular expression compiled.
    fn of_regexp(
        dialect: Dialect,
        patterns: &PatternCache,
        matcher: &Matcher,
    ) -> Result<Compiled, BuildError>
        requires { is_regexp matcher.now.kind ≡ true }
        ensures meant { IfOk result (IsMeant dialect matcher.now) }
        ensures sound { IfOk result IsSoundMatcher }
        ensures broken { IsErrOf result BuildError.BadPattern → IsRefusedMatcher dialect matcher.now }
    {
        let whole = patterns.whole(dialect, matcher.pattern.as_str())?;
        let alloc = patterns.alloc();
        let name = matcher.name.try_clone(alloc)?;
        let pattern = Text::copied(alloc, whole.text())?;
        let matcher = Matcher {
            kind: matcher.kind,
            name,
            pattern,
        };
        Ok(Compiled {
            matcher,
            whole: Some(whole),
        })
    }

    /// Returns the matcher. Nothing is allocated.
    pub fn matcher(&self) -> &Matcher
        ensures { result.now ≡ self.now }
    {
        &self.matcher
    }

    /// Returns the number of bytes that are counted for what was compiled, or 0 if nothing was.
    pub(crate) fn size(&self) -> usize {
        match &self.whole {
            Some(whole) => whole.size(),
            None => 0,
        }
    }

    /// Returns whether the label's value matches. An absent label has the empty text.
    ///
    /// # Errors
    ///
    /// [`AllocError`] if memory runs out.
    pub fn matches(&mut self, value: &str) -> Result<bool, AllocError>
        // PROMISE: A matcher answers as `regex` finds its pattern from end to end.
        ensures answer { IfOk result (λ yes. yes ≡ matches_value self.old value.now) }
        ensures same { self.new ≡ self.old }
    {
        let found = match &mut self.whole {
            Some(whole) => whole.matches(value)?,
            None => self.matcher.pattern.as_str() == value,
        };
        Ok(as_wanted(self.matcher.kind, found))
    }
}

/// Returns whether a value satisfies a matcher of the kind. `found` says whether the value matches its pattern.
pub fn as_wanted(kind: MatcherKind, found: bool) -> bool
    ensures { (pattern value : List ℕ) → found ≡ is_found_by kind pattern value → result ≡ is_met kind pattern value }
{
    match kind {
        MatcherKind::Equal | MatcherKind::Regexp => found,
        MatcherKind::NotEqual | MatcherKind::NotRegexp => !found,
    }
}
