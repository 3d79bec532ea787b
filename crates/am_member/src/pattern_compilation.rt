//! The patterns of a request, which are compiled one at a time before it is answered.

ghost use Rattle.std.specs.Prelude.{◌≡◌, ◌≢◌, ◌≤◌, ◌<◌, ◌+◌, ◌⊎◌, ◌↔◌, [], Ok, IfOk, IfSome, IsTrue};
ghost use Rattle.am_api_silences.specs.Table.{refused_line};
ghost use Rattle.am_http.specs.Lines.{line_of, line_seen};
ghost use Rattle.am_http.specs.declared.cause.Cause.TheVariants as causes;
ghost use Rattle.am_matcher.specs.Sizes.{size_of_all};
ghost use Rattle.am_silence.specs.declared.error.SilenceError.TheVariants as errors;

use crate::keeping::{KeepOutcome, keep};
use am_api_silences::patterns_of;
use am_http::{Cause, Refusal, Request};
use am_matcher::{Dialect, PatternCache};
use am_wire::Text;
use std::alloc::{AllocError, Global};
use std::marker::Model;

/// The maximum number of bytes that the compiled patterns of one request take, as they are counted for patterns that are kept.
pub const MOST_PATTERN_BYTES: usize = 17 << 20;

/// The maximum number of bytes that are counted for all patterns of silences that are kept.
const MOST_KEPT_BYTES: usize = 128 << 20;

/// The progress of a request's patterns.
#[derive(Clone, Copy, PartialEq, Eq)]
pub enum Judged {
    /// Some patterns are still to be compiled.
    More,
    /// All patterns are compiled that the answer asks for.
    Done,
    /// The patterns take too much, and the request is to be refused.
    TooMuch,
}

/// The patterns of a request that are still to be compiled, and those that were. Contracts see the latter.
pub struct PatternCompilation {
    dialect: Dialect,
    is_list: bool,
    left: Vec<Text>,
    /// The number of patterns that were compiled.
    next: usize,
    /// The bytes that are counted for those patterns.
    spent: usize,
    patterns: PatternCache,
    room: Room,
}

/// The room for a request's patterns among those of silences.
#[derive(Clone, Copy, PartialEq, Eq)]
enum Room {
    /// The patterns are those of a list, or one of them is broken, so none is to be kept.
    Needless,
    /// The patterns are those of a post.
    Wanted,
    /// Patterns of silences that have ended were dropped for those of the post.
    Made,
}

// (so that crates above cite one drop, and don't prove those of all that is inside)
impl Drop for PatternCompilation {
    fn drop(self) {
        let PatternCompilation {
            dialect: _,
            is_list: _,
            left: _,
            next: _,
            spent: _,
            patterns: _,
            room: _,
        } = self;
    }
}

impl Model for PatternCompilation {
    ghost use Rattle.std.specs.Prelude.{◌≤◌, List};
    ghost use Rattle.am_matcher.specs.Sizes.{CompiledPattern, size_of_all};

    ghost Value = { List CompiledPattern };

    ghost view = { λ j. j.patterns };

    ghost invariant = { λ j. size_of_all j.patterns ≤ j.spent };
}

impl PatternCompilation {
    /// Returns the patterns of a request in the dialect, before the first of them is compiled, or `None` if it has none.
    ///
    /// # Errors
    ///
    /// [`AllocError`] if memory runs out.
    pub fn of(
        alloc: Global,
        dialect: Dialect,
        request: &Request,
    ) -> Result<Option<PatternCompilation>, AllocError>
        ensures { IfOk result (λ found. IfSome found (λ compilation. compilation ≡ [])) }
    {
        let left = patterns_of(alloc, request)?;
        if left.is_empty() {
            return Ok(None);
        }
        let is_list = request.method.as_str() == "GET";
        Ok(Some(PatternCompilation {
            dialect,
            is_list,
            left,
            next: 0,
            spent: 0,
            patterns: PatternCache::new(alloc),
            room: if is_list {
                Room::Needless
            } else {
                Room::Wanted
            },
        }))
    }

    /// Compiles the next pattern that isn't compiled yet; one that also stands earlier in the request already is. After a broken
    /// one none is compiled, since the request is refused for that one.
    ///
    /// # Errors
    ///
    /// [`AllocError`] if memory runs out.
    pub fn resume(&mut self) -> Result<Judged, AllocError>
        ensures { IfOk result (λ judged. judged ≢ Judged.TooMuch → size_of_all self.new ≤ 17_825_792) }
    {
        for _ in self.next..self.left.len() {
            if self.prepare_next()? {
                break;
            }
        }
        Ok(self.judged())
    }

    /// Compiles the next pattern. Returns whether it wasn't compiled before.
    fn prepare_next(&mut self) -> Result<bool, AllocError> {
        let Some(pattern) = self.left.get(self.next) else {
            return Ok(false);
        };
        let prepared = self.patterns.prepare_in(self.dialect, pattern.as_str())?;
        // (all that is kept was counted as spent)
        let kept = self.patterns.size();
        self.spent = kept.max(self.spent.saturating_add(prepared.bytes));
        if prepared.is_broken {
            self.room = Room::Needless;
            self.next = self.left.len();
        } else {
            self.next = self.next.saturating_add(1);
        }
        Ok(prepared.bytes > 0)
    }

    /// Returns how far the patterns have come.
    fn judged(&self) -> Judged
        ensures { result ≢ Judged.TooMuch → size_of_all self.now ≤ 17_825_792 }
    {
        if self.spent > MOST_PATTERN_BYTES {
            Judged::TooMuch
        } else if self.next < self.left.len() {
            Judged::More
        } else {
            Judged::Done
        }
    }

    /// Returns the refusal of a request whose patterns take too much.
    pub fn refusal(&self) -> Refusal
        ensures { (line_seen result ≡ line_of causes.BadFilter) ⊎ (line_seen result ≡ refused_line errors.BadPattern) }
    {
        if self.is_list {
            Cause::BadFilter.refusal()
        } else {
            Refusal::new(400, "bad pattern")
        }
    }

    /// Returns whether the patterns are those of a post that isn't refused for a broken one.
    pub(crate) fn is_to_be_kept(&self) -> bool {
        self.room != Room::Needless
    }

    /// Returns whether the patterns fit beside these, whether or not they are among them.
    fn fits_beside(&self, patterns: &PatternCache) -> bool
        ensures { IsTrue result ↔ (size_of_all patterns.now + size_of_all self.now ≤ 134_217_728) }
    {
        patterns.size() + self.patterns.size() <= MOST_KEPT_BYTES
    }

    /// Returns whether patterns of silences that have ended are to be dropped from these, since there might not be room. It asks once.
    pub(crate) fn asks_for_room(&mut self, patterns: &PatternCache) -> bool {
        if self.room == Room::Made || self.fits_beside(patterns) {
            return false;
        }
        self.room = Room::Made;
        true
    }

    /// Returns whether room was asked for.
    pub(crate) fn has_asked(&self) -> bool {
        self.room == Room::Made
    }

    /// Keeps the patterns beside others, unless there is too little room. Those that are kept already take none.
    ///
    /// # Errors
    ///
    /// [`AllocError`] if memory runs out.
    pub fn keep_in(&self, patterns: &mut PatternCache) -> Result<Judged, AllocError>
        // PROMISE: A post is refused for too many patterns only if, with those that are kept, they take more than 128 MiB.
        ensures full { result ≡ Ok Judged.TooMuch → 134_217_728 < size_of_all patterns.old + size_of_all self.now }
    {
        let fits = self.fits_beside(patterns);
        for pattern in &self.left {
            let keeping = keep(patterns, self.dialect, pattern.as_str())?;
            if matches!(keeping, KeepOutcome::Full(_)) && !fits {
                return Ok(Judged::TooMuch);
            }
        }
        Ok(Judged::Done)
    }

    /// Returns the patterns that were compiled.
    pub fn into_patterns(self) -> PatternCache
        ensures { result ≡ self }
    {
        let PatternCompilation {
            dialect: _,
            is_list: _,
            left: _,
            next: _,
            spent: _,
            patterns,
            room: _,
        } = self;
        patterns
    }
}
