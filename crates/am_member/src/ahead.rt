//! The patterns of the silences that are held. They are compiled some at a time before alerts are held against the silences, and
//! before a post for whose patterns there might be no room, since a step that has to compile thousands of them would keep everyone
//! else waiting.

ghost use Rattle.std.specs.Prelude.{◌≡◌};

use crate::keeping::{KeepOutcome, keep};
use crate::pattern_compilation::{Judged, PatternCompilation};
use crate::pattern_set::PatternSet;
use crate::unkept::Unkept;
use am_instance::Instance;
use am_matcher::{Dialect, PatternCache};
use am_merge::Iter;
use am_silence::MeshSilence;
use am_version_order::{Moment, Version};
use am_wire::Text;
use std::alloc::{AllocError, Global};
use std::mem;

/// The number of bytes that are looked at in one stretch.
const ENOUGH_LOOKED: usize = 64 << 10;

/// The number of bytes that are counted for a silence or a pattern that is looked at, besides those of its text.
const BESIDE_TEXT: usize = 64;

/// The number of bytes, as they are counted for what is kept, after whose compiling a stretch ends: a few simple patterns.
const ENOUGH_BYTES: usize = 64 << 10;

/// The patterns that a pass compiles: those of the set from the next one on, or all of them. Of the ones before, there is no room
/// for those that aren't kept.
#[derive(Drop)]
struct Compiling {
    found: PatternSet,
    next: Option<Text>,
    unkept: Unkept,
}

/// The stage of a pass over the silences.
#[derive(Drop)]
enum Pass {
    /// None was looked at.
    Due,
    /// Those from an identifier on weren't looked at, and the others have these patterns.
    Looking(PatternSet, Text),
    /// All were looked at, and these patterns are compiled.
    Compiling(Compiling),
    /// All patterns are compiled, and there is no room for some.
    Over(Unkept),
    /// There was no memory to go on.
    Failed,
}

/// The progress of compiling the patterns of the silences that an instance holds. In each pass over the silences, the patterns of those
/// that have ended are dropped.
#[derive(Drop)]
pub struct PatternsAhead {
    pass: Pass,
    /// True if silences came since the first of all silences was looked at.
    has_new: bool,
}

impl PatternsAhead {
    /// Returns the progress before any silence was looked at. Takes no memory.
    pub fn new() -> PatternsAhead {
        PatternsAhead {
            pass: Pass::Due,
            has_new: false,
        }
    }

    /// Notes that silences come whose patterns may not be kept. All are looked at again, once those that are left were.
    pub fn note(&mut self) {
        self.has_new = true;
    }

    /// Returns the number of steps of a search that take as long as compiling, for one alert, the patterns that there is no room for
    /// and searching for them in a text of `length` bytes, at most; or the largest number if that isn't known.
    pub fn steps_beyond(&self, length: usize) -> usize {
        match &self.pass {
            Pass::Over(unkept) => unkept.steps(length),
            _ => usize::MAX,
        }
    }

    /// Compiles some of the patterns that weren't looked at yet, of silences that haven't ended at `now`, and returns whether none is
    /// left. Those that there is no room for are left to the steps that need them. If memory runs out, or the patterns are too many,
    /// so are the rest.
    pub fn resume(&mut self, instance: &mut Instance, now: Moment) -> bool
        ensures same { instance.new ≡ instance.old }
    {
        let pass = self.next_pass();
        let alloc = instance.silences().allocator();
        let mut patterns = instance.swap_patterns(PatternCache::new(alloc));
        self.pass = match resume_pass(alloc, &mut patterns, instance, pass, now) {
            Ok(pass) => pass,
            Err(_) => Pass::Failed,
        };
        let _ = instance.swap_patterns(patterns);
        self.is_over()
    }

    /// Takes the pass that is to go on: a new one if silences came since the last one began, or if that one failed.
    fn next_pass(&mut self) -> Pass {
        match mem::replace(&mut self.pass, Pass::Failed) {
            Pass::Over(unkept) if !self.has_new => Pass::Over(unkept),
            Pass::Due | Pass::Over(_) | Pass::Failed => {
                self.has_new = false;
                Pass::Due
            }
            under_way => under_way,
        }
    }

    /// Returns whether no pass is under way or due.
    fn is_over(&self) -> bool {
        matches!(&self.pass, Pass::Over(_) | Pass::Failed)
    }

    /// Keeps the compiled patterns of a post. After a start, and if they might not fit, the patterns of silences that have ended are
    /// dropped first, and those of the others are compiled, some in each call. Other requests, and posts that are refused for a
    /// broken pattern, have nothing to be kept.
    ///
    /// # Errors
    ///
    /// [`AllocError`] if memory runs out.
    pub fn keep(
        &mut self,
        instance: &mut Instance,
        compilation: &mut PatternCompilation,
        now: Moment,
    ) -> Result<Judged, AllocError>
        ensures same { instance.new ≡ instance.old }
    {
        if !compilation.is_to_be_kept() {
            return Ok(Judged::Done);
        }
        if compilation.asks_for_room(instance.patterns()) {
            self.pass = Pass::Due;
        }
        // (a pass looks at all silences, so posts begin one only after a start, and if there might be too little room)
        if (compilation.has_asked() || !self.is_over()) && !self.resume(instance, now) {
            return Ok(Judged::More);
        }
        let alloc = instance.silences().allocator();
        let mut patterns = instance.swap_patterns(PatternCache::new(alloc));
        let judged = compilation.keep_in(&mut patterns);
        let _ = instance.swap_patterns(patterns);
        judged
    }
}

/// Goes on with a pass for a stretch.
fn resume_pass(
    alloc: Global,
    patterns: &mut PatternCache,
    instance: &Instance,
    pass: Pass,
    now: Moment,
) -> Result<Pass, AllocError> {
    let silences = instance.silences();
    match pass {
        Pass::Due => look_on(
            alloc,
            patterns,
            PatternSet::new(alloc),
            silences.iter(),
            now,
        ),
        Pass::Looking(found, id) => {
            look_on(alloc, patterns, found, silences.iter_from(&id), now)
        }
        Pass::Compiling(compiling) => {
            let dialect = instance.config().dialect();
            compile_on(alloc, patterns, dialect, compiling)
        }
        over => Ok(over),
    }
}

/// Looks at silences for a stretch. After the last one, the patterns are dropped that none of them has.
fn look_on(
    alloc: Global,
    patterns: &mut PatternCache,
    found: PatternSet,
    silences: Iter<'_, MeshSilence>,
    now: Moment,
) -> Result<Pass, AllocError> {
    let mut found = found;
    match look(alloc, &mut found, silences, now)? {
        Some(id) => Ok(Pass::Looking(found, id)),
        None => {
            found.drop_others(patterns);
            let unkept = if found.is_too_large() {
                Unkept::unknown()
            } else {
                Unkept::none()
            };
            Ok(Pass::Compiling(Compiling {
                found,
                next: None,
                unkept,
            }))
        }
    }
}

/// Adds the patterns of silences to a set, until enough were looked at or they are too many. Returns the identifier of the next one
/// that is to be looked at, if there is one.
fn look(
    alloc: Global,
    found: &mut PatternSet,
    silences: Iter<'_, MeshSilence>,
    now: Moment,
) -> Result<Option<Text>, AllocError> {
    let mut looked = 0usize;
    for version in silences {
        if looked >= ENOUGH_LOOKED {
            return Ok(Some(version.key().try_clone(alloc)?));
        }
        looked = looked.saturating_add(look_at(found, version, now)?);
        if found.is_too_large() {
            break;
        }
    }
    Ok(None)
}

/// Adds the patterns of a silence to a set, unless it has ended. Returns the number of bytes that were looked at.
fn look_at(
    found: &mut PatternSet,
    version: &MeshSilence,
    now: Moment,
) -> Result<usize, AllocError> {
    let mut looked = BESIDE_TEXT;
    if version.ends_at() <= now {
        return Ok(looked);
    }
    for matcher in version.matchers() {
        if found.is_too_large() {
            break;
        }
        if matcher.kind().is_regexp() {
            found.add(&matcher)?;
        }
        looked = looked.saturating_add(matcher.pattern().len().saturating_add(BESIDE_TEXT));
    }
    Ok(looked)
}

/// Compiles patterns that were found for a stretch.
fn compile_on(
    alloc: Global,
    patterns: &mut PatternCache,
    dialect: Dialect,
    compiling: Compiling,
) -> Result<Pass, AllocError> {
    let Compiling {
        found,
        next,
        mut unkept,
    } = compiling;
    let left = found.iter_from(&next);
    match compile(alloc, patterns, dialect, left, &mut unkept)? {
        Some(pattern) => Ok(Pass::Compiling(Compiling {
            found,
            next: Some(pattern),
            unkept,
        })),
        None => Ok(Pass::Over(unkept)),
    }
}

/// Compiles patterns, which silences have, until enough were compiled or looked at, and counts those that there is no room for.
/// Returns the next one that is to be compiled, if there is one and not too many have been counted.
fn compile(
    alloc: Global,
    patterns: &mut PatternCache,
    dialect: Dialect,
    silences: Iter<'_, MeshSilence>,
    unkept: &mut Unkept,
) -> Result<Option<Text>, AllocError> {
    let (mut looked, mut bytes) = (0usize, 0usize);
    for version in silences {
        if unkept.are_too_many() {
            break;
        }
        if looked >= ENOUGH_LOOKED || bytes > ENOUGH_BYTES {
            return Ok(Some(version.key().try_clone(alloc)?));
        }
        let pattern = version.key().as_str();
        looked = looked.saturating_add(pattern.len().saturating_add(BESIDE_TEXT));
        let compiled = match keep(patterns, dialect, pattern)? {
            KeepOutcome::Kept(more) => more,
            KeepOutcome::Full(more) => {
                unkept.add(more);
                more
            }
        };
        bytes = bytes.saturating_add(compiled);
    }
    Ok(None)
}
