//! Matchers that are compared with labels once.

ghost use Rattle.std.specs.Prelude.{◌≡◌, List, ℕ, Bool, [], true, false, All, Any, Ok, Err, IfOk, OnOk, OnErr, IsErrOf, alloc_error};
ghost use Rattle.am_silence.specs.Kinds.{is_regexp};
ghost use Rattle.am_matcher.specs.Matching.{has_regexp, IsSoundMatcher, IsBrokenMatcher, match_all, IsVerdict};
ghost use Rattle.am_matcher.specs.Dialects.{DoMatch, DoesMatch, IsRefusedMatcher, IsVerdictIn};
ghost use Rattle.am_matcher.specs.Uses.{PatternsPass, TextsPass};

use crate::cache::{CacheUse, PatternCache};
use crate::compiled::{BuildError, as_wanted};
use crate::dialect::Dialect;
use crate::label_names::takes_names;
use crate::labels::NamedLabels;
use am_silence::{Matcher, MatcherIter, MatcherRef, Matchers, Verdict};
use std::alloc::{AllocError, Global};

/// Returns whether the label's value satisfies a matcher.
fn judge(
    patterns: &mut PatternCache,
    dialect: Dialect,
    matcher: &MatcherRef<'_>,
    labels: &NamedLabels<'_>,
    cache_use: CacheUse,
) -> Result<bool, BuildError>
    ensures answer { IfOk result (DoesMatch dialect matcher.now labels.now) }
    ensures broken { IsErrOf result BuildError.BadPattern → IsRefusedMatcher dialect matcher.now }
    ensures failed { OnErr result (is_regexp matcher.now.kind ≡ true) }
    ensures same { cache_use ≡ CacheUse.LookUp → patterns.new ≡ patterns.old }
    ensures kept { (test : List ℕ → Bool) → (is_regexp matcher.now.kind ≡ true → test matcher.now.pattern ≡ true) →
        TextsPass test patterns.old → TextsPass test patterns.new }
{
    let value = labels.value(matcher.name());
    let found = if matcher.kind().is_regexp() {
        patterns.is_match(dialect, matcher.pattern(), value, cache_use)?
    } else {
        matcher.pattern() == value
    };
    Ok(as_wanted(matcher.kind(), found))
}

/// Returns whether the labels satisfy all of the matchers. All patterns are judged, whatever the labels are.
pub fn judge_all(
    patterns: &mut PatternCache,
    dialect: Dialect,
    matchers: MatcherIter<'_>,
    labels: &NamedLabels<'_>,
    cache_use: CacheUse,
) -> Result<bool, BuildError>
    ensures answer { IfOk result (DoMatch dialect matchers.entry labels.now) }
    ensures broken { IsErrOf result BuildError.BadPattern → Any (IsRefusedMatcher dialect) matchers.entry }
    ensures failed { OnErr result (has_regexp matchers.entry ≡ true) }
    ensures same { cache_use ≡ CacheUse.LookUp → patterns.new ≡ patterns.old }
    ensures kept { (test : List ℕ → Bool) → PatternsPass test matchers.entry →
        TextsPass test patterns.old → TextsPass test patterns.new }
{
    let mut all = true;
    for matcher in matchers {
        let matches = judge(patterns, dialect, &matcher, labels, cache_use)?;
        all &= matches;
    }
    Ok(all)
}

/// Returns whether the empty text satisfies all of the matchers. All patterns are judged, and none is kept.
pub fn judge_by_no_labels(
    patterns: &mut PatternCache,
    dialect: Dialect,
    matchers: MatcherIter<'_>,
) -> Result<bool, BuildError>
    ensures answer { IfOk result (DoMatch dialect matchers.entry []) }
    ensures broken { IsErrOf result BuildError.BadPattern → Any (IsRefusedMatcher dialect) matchers.entry }
    ensures failed { OnErr result (has_regexp matchers.entry ≡ true) }
    ensures same { patterns.new ≡ patterns.old }
{
    let labels = NamedLabels::none(patterns.alloc());
    judge_all(patterns, dialect, matchers, &labels, CacheUse::LookUp)
}

/// Returns whether the empty text satisfies all of the matchers. All patterns are judged.
fn judge_each(alloc: Global, matchers: &[Matcher]) -> Result<bool, BuildError>
    ensures answer { IfOk result (λ yes. yes ≡ match_all matchers.now []) }
    ensures sound { OnOk result (All IsSoundMatcher matchers.now) }
    ensures broken { IsErrOf result BuildError.BadPattern → Any IsBrokenMatcher matchers.now }
    ensures failed { OnErr result (has_regexp matchers.now ≡ true) }
{
    let mut patterns = PatternCache::new(alloc);
    let labels = NamedLabels::none(alloc);
    let mut every = true;
    for matcher in matchers {
        let matches = judge(
            &mut patterns,
            Dialect::Regex,
            &matcher.borrowed(),
            &labels,
            CacheUse::LookUp,
        )?;
        every &= matches;
    }
    Ok(every)
}

/// Returns the verdict on matchers that were judged by the empty text.
fn verdict_of(judged: Result<bool, BuildError>) -> Result<Verdict, AllocError>
    ensures all { judged ≡ Ok true → result ≡ Ok Verdict.AllEmpty }
    ensures some { judged ≡ Ok false → result ≡ Ok Verdict.Fine }
    ensures broken { judged ≡ Err BuildError.BadPattern → result ≡ Ok Verdict.Bad }
    ensures memory { judged ≡ Err BuildError.Memory → result ≡ Err alloc_error }
{
    match judged {
        Ok(true) => Ok(Verdict::AllEmpty),
        Ok(false) => Ok(Verdict::Fine),
        Err(BuildError::BadPattern) => Ok(Verdict::Bad),
        Err(BuildError::Memory) => Err(AllocError),
    }
}

impl PatternCache {
    /// Returns the verdict on posted matchers, as [`verdict`] does, using the patterns that are kept. No pattern is added,
    /// since no silence has the posted matchers yet.
    ///
    /// # Errors
    ///
    /// [`AllocError`] if memory runs out. Without a regular expression, nothing is allocated.
    pub fn verdict(&mut self, matchers: &Matchers) -> Result<Verdict, AllocError>
        ensures verdict { IfOk result (IsVerdict matchers.now) }
        ensures memory { OnErr result (has_regexp matchers.now ≡ true) }
        ensures same { self.new ≡ self.old }
    {
        self.verdict_in(Dialect::Regex, matchers)
    }

    /// Returns the verdict on posted matchers of the dialect, using the patterns that are kept. The verdict is
    /// [`Verdict::Bad`] if a pattern is broken in the dialect or, for RE2, if a name can't be that of a label. Otherwise it
    /// is the one that [`verdict`] returns for the matchers as they are meant.
    ///
    /// # Errors
    ///
    /// [`AllocError`] if memory runs out. Without a regular expression, nothing is allocated.
    pub fn verdict_in(
        &mut self,
        dialect: Dialect,
        matchers: &Matchers,
    ) -> Result<Verdict, AllocError>
        ensures verdict { IfOk result (IsVerdictIn dialect matchers.now) }
        ensures memory { OnErr result (has_regexp matchers.now ≡ true) }
        ensures same { self.new ≡ self.old }
    {
        if !takes_names(dialect, matchers.iter()) {
            return Ok(Verdict::Bad);
        }
        verdict_of(judge_by_no_labels(self, dialect, matchers.iter()))
    }
}

/// Returns the verdict on the matchers of a posted silence. It is [`Verdict::Bad`] if `regex` refuses one of their
/// patterns. Otherwise it is [`Verdict::AllEmpty`] if the empty text satisfies all of them, or there are none, and
/// [`Verdict::Fine`] if not.
///
/// # Errors
///
/// [`AllocError`] if memory runs out. Without a regular expression, nothing is allocated.
pub fn verdict(alloc: Global, matchers: &[Matcher]) -> Result<Verdict, AllocError>
    ensures verdict { IfOk result (IsVerdict matchers.now) }
    ensures memory { OnErr result (has_regexp matchers.now ≡ true) }
{
    verdict_of(judge_each(alloc, matchers))
}
