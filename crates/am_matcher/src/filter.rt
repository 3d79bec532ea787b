//! The filters of a query.

ghost use Rattle.std.specs.Prelude.{◌≡◌, ◌≢◌, List, ℕ, chars, encode_utf8_all, string_bytes, IfOk, IsErrOf, if◌then◌else◌};
ghost use Rattle.am_silence.specs.declared.matcher.Matcher.{Matcher};
ghost use Rattle.am_matcher.specs.Filters.{IsFilter, IsValue};
ghost use Rattle.am_matcher.specs.Texts.{is_text};
ghost use Rattle.am_matcher.specs.Dialects.{IsFilterIn, IsRefusedMatcher};
ghost use Rattle.am_matcher.specs.Matching.{IsSoundMatcher, IsBrokenMatcher, pattern_in, passes, regexp_of};

use crate::cache::PatternCache;
use crate::compiled::{BuildError, Compiled};
use crate::dialect::Dialect;
use crate::filter_text::parts_of;
use crate::pieces::{inside_of, pieces_of, text_of, text_of_pieces};
use am_silence::{Matcher, MatcherIter, MatcherRef, MeshSilence, Silence};
use am_wire::Text;
use std::alloc::{AllocError, Global};
use std::marker::Model;
use thiserror::Error;

/// The reason why a filter is refused.
#[derive(Clone, Copy, Debug, PartialEq, Eq, Error)]
pub enum FilterError {
    /// The text isn't a filter.
    #[error("bad filter")]
    Syntax,
    /// The pattern is refused by `regex`, or isn't taken as one of RE2.
    #[error("bad pattern")]
    BadPattern,
    #[error("out of memory")]
    Memory,
}

impl From<AllocError> for FilterError {
    ghost use Rattle.std.specs.Prelude.{◌≡◌};
    ghost use Rattle.am_matcher.specs.declared.filter.FilterError.TheVariants.{Memory};

    ghost from_gives = { λ _ e. e ≡ Memory };

    fn from(_: AllocError) -> FilterError {
        FilterError::Memory
    }
}

impl From<BuildError> for FilterError {
    ghost use Rattle.std.specs.Prelude.{◌≡◌};
    ghost use Rattle.am_matcher.specs.Errors.{of_build};

    ghost from_gives = { λ given e. e ≡ of_build given };

    fn from(error: BuildError) -> FilterError {
        match error {
            BuildError::BadPattern => FilterError::BadPattern,
            BuildError::Memory => FilterError::Memory,
        }
    }
}

/// Returns the characters of a text.
pub fn characters_of(alloc: Global, text: &str) -> Result<Vec<char>, AllocError>
    ensures { IfOk result (λ characters. characters.items ≡ chars text.now) }
{
    text.chars().collect(alloc)
}

/// Returns the text that the value of a filter stands for.
fn value_of(alloc: Global, written: &[char]) -> Result<String, FilterError>
    ensures read { IfOk result (λ text. (value : List ℕ) × IsValue written.now value × (string_bytes text ≡ encode_utf8_all value)) }
    ensures syntax { IsErrOf result FilterError.Syntax → (value : List ℕ) → ¬ IsValue written.now value }
    ensures no_pattern { result ≢ Err FilterError.BadPattern }
{
    let pieces = pieces_of(alloc, written)?;
    let Some(inside) = inside_of(&pieces) else {
        return Err(FilterError::Syntax);
    };
    Ok(text_of_pieces(alloc, inside)?)
}

/// Returns the matcher that the text of a filter stands for.
fn read_filter(alloc: Global, text: &str) -> Result<Matcher, FilterError>
    ensures read { IfOk result (IsFilter text.now) }
    ensures syntax { IsErrOf result FilterError.Syntax → (m : Matcher) → ¬ IsFilter text.now m }
    ensures no_pattern { result ≢ Err FilterError.BadPattern }
{
    let characters = characters_of(alloc, text)?;
    let Some(parts) = parts_of(&characters) else {
        return Err(FilterError::Syntax);
    };
    let pattern = value_of(alloc, parts.written)?;
    let name = text_of(alloc, parts.name)?;
    Ok(Matcher {
        kind: parts.kind,
        name: Text::new(name),
        pattern: Text::new(pattern),
    })
}

/// Returns the pattern of the matcher if it has this name, and `before` otherwise.
fn later_pattern<'a>(before: &'a str, matcher: &MatcherRef<'a>, name: &str) -> &'a str
    ensures { result.now ≡ (if is_text matcher.now.name name.now then matcher.now.pattern else before.now) }
{
    if matcher.name() == name {
        matcher.pattern()
    } else {
        before
    }
}

/// Returns the pattern of the last matcher with this name, or the empty text.
fn pattern_of<'a>(matchers: MatcherIter<'a>, name: &str) -> &'a str
    ensures { result.now ≡ pattern_in matchers.entry name.now }
{
    let mut pattern = "";
    for matcher in matchers {
        pattern = later_pattern(pattern, &matcher, name);
    }
    pattern
}

/// A filter of a query, such as `job=~"x|y"`: a matcher that is compared with the matchers of silences.
///
/// Contracts see the matcher that the text stands for, as it is meant: with the pattern of `regex` that its own pattern
/// stands for.
pub struct Filter {
    compiled: Compiled,
}

// With this the crates above cite one drop, and don't prove those of everything inside.
impl Drop for Filter {
    fn drop(self) {
        let Filter { compiled: _ } = self;
    }
}

impl Model for Filter {
    ghost use Rattle.am_silence.specs.declared.matcher.Matcher.{Matcher};

    ghost Value = { Matcher };

    ghost view = { λ f. f.compiled };
}

impl Filter {
    /// Parses the text of a filter.
    ///
    /// # Errors
    ///
    /// [`FilterError::Syntax`] if the text isn't a filter, [`FilterError::BadPattern`] if `regex` refuses its pattern, and
    /// [`FilterError::Memory`] if memory runs out.
    pub fn parse(alloc: Global, text: &str) -> Result<Filter, FilterError>
        ensures read { IfOk result (IsFilter text.now) }
        ensures sound { IfOk result IsSoundMatcher }
        ensures syntax { IsErrOf result FilterError.Syntax → (m : Matcher) → ¬ IsFilter text.now m }
        ensures broken { IsErrOf result FilterError.BadPattern →
            (m : Matcher) × IsFilter text.now m × IsBrokenMatcher m }
    {
        Filter::parse_by(&PatternCache::new(alloc), text)
    }

    /// Parses the text of a filter, as [`Filter::parse`] does. A pattern that is kept is shared, and isn't compiled again.
    ///
    /// # Errors
    ///
    /// The errors of [`Filter::parse`].
    pub fn parse_by(patterns: &PatternCache, text: &str) -> Result<Filter, FilterError>
        ensures read { IfOk result (IsFilter text.now) }
        ensures sound { IfOk result IsSoundMatcher }
        ensures syntax { IsErrOf result FilterError.Syntax → (m : Matcher) → ¬ IsFilter text.now m }
        ensures broken { IsErrOf result FilterError.BadPattern →
            (m : Matcher) × IsFilter text.now m × IsBrokenMatcher m }
    {
        Filter::parse_in(Dialect::Regex, patterns, text)
    }

    /// Parses the text of a filter whose pattern is one of the dialect, as [`Filter::parse_by`] does.
    ///
    /// # Errors
    ///
    /// [`FilterError::Syntax`] if the text isn't a filter, [`FilterError::BadPattern`] if its pattern is broken in the
    /// dialect, and [`FilterError::Memory`] if memory runs out.
    pub fn parse_in(
        dialect: Dialect,
        patterns: &PatternCache,
        text: &str,
    ) -> Result<Filter, FilterError>
        ensures read { IfOk result (IsFilterIn dialect text.now) }
        ensures sound { IfOk result IsSoundMatcher }
        ensures syntax { IsErrOf result FilterError.Syntax → (m : Matcher) → ¬ IsFilter text.now m }
        ensures broken { IsErrOf result FilterError.BadPattern →
            (m : Matcher) × IsFilter text.now m × IsRefusedMatcher dialect m }
    {
        let matcher = read_filter(patterns.alloc(), text)?;
        let compiled = Compiled::build_in(dialect, patterns, &matcher)?;
        Ok(Filter { compiled })
    }

    /// Returns the regular expression of a filter, or `None` if it has none. Nothing is compiled.
    ///
    /// # Errors
    ///
    /// [`FilterError::Syntax`] if the text isn't a filter, and [`FilterError::Memory`] if memory runs out.
    pub fn regexp_of(alloc: Global, text: &str) -> Result<Option<Text>, FilterError>
        ensures read { IfOk result (λ pattern. (m : Matcher) × IsFilter text.now m × (pattern ≡ regexp_of m)) }
        ensures syntax { IsErrOf result FilterError.Syntax → (m : Matcher) → ¬ IsFilter text.now m }
        ensures no_pattern { result ≢ Err FilterError.BadPattern }
    {
        let matcher = read_filter(alloc, text)?;
        let Matcher {
            kind,
            name: _,
            pattern,
        } = matcher;
        if kind.is_regexp() {
            Ok(Some(pattern))
        } else {
            Ok(None)
        }
    }

    /// Returns the number of bytes that are counted for the filter's compiled pattern, or 0 if it has no regular
    /// expression.
    pub fn size(&self) -> usize {
        self.compiled.size()
    }

    /// Returns whether the silence passes the filter. The filter is applied to labels made of the silence's matchers, with
    /// their names and their patterns as values, whatever their kinds are. If several have one name, the last one counts.
    ///
    /// # Errors
    ///
    /// [`AllocError`] if memory runs out.
    pub fn passes(&mut self, silence: &Silence) -> Result<bool, AllocError>
        ensures answer { IfOk result (λ yes. yes ≡ passes self.old silence.now) }
        ensures same { self.new ≡ self.old }
    {
        let name = self.compiled.matcher().name.as_str();
        let pattern = pattern_of(silence.matchers.iter(), name);
        self.compiled.matches(pattern)
    }

    /// Returns whether the silence of a version passes the filter, as [`Filter::passes`] does.
    ///
    /// # Errors
    ///
    /// [`AllocError`] if memory runs out.
    pub fn passes_version(&mut self, version: &MeshSilence) -> Result<bool, AllocError>
        // PROMISE: A filter passes exactly the silences of the rule.
        ensures answer { IfOk result (λ yes. yes ≡ passes self.old version.now.silence) }
        ensures same { self.new ≡ self.old }
    {
        let name = self.compiled.matcher().name.as_str();
        let pattern = pattern_of(version.matchers(), name);
        self.compiled.matches(pattern)
    }
}
