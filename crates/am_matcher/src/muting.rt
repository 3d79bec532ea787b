//! The silences that mute an alert.

ghost use Rattle.std.specs.Prelude.{◌≡◌, ◌++◌, ◌||◌, ◌↔◌, ℕ, Bool, List, All, map, IsTrue, IfOk, OnOk};
ghost use Rattle.am_silence.specs.Mesh.{Mesh};
ghost use Rattle.am_matcher.specs.Mutes.{is_active, IsEffect, IsUnread, if_mutes, if_broken, AreMuted, AreMutedIn};
ghost use Rattle.am_matcher.specs.Uses.{is_among, is_used_by, PatternsPass, SilencesPass, TextsPass};

use crate::cache::{CacheUse, PatternCache};
use crate::compiled::BuildError;
use crate::dialect::Dialect;
use crate::gathering::{buckets_for, gather};
use crate::judged::judge_all;
use crate::labels::{Label, Labels, NamedLabels};
use crate::muted::{Ids, Mutes};
use am_merge::Held;
use am_silence::MeshSilence;
use am_version_order::{Moment, Version};
use am_wire::Text;
use std::alloc::{AllocError, Global};

/// The effect of a silence on an alert.
#[derive(Clone, Copy)]
pub enum Effect {
    /// The silence isn't active.
    Idle,
    /// All matchers match.
    Mutes,
    /// One of the matchers doesn't match.
    Passes,
    /// A pattern is refused, or unknown fields say what the silence matches.
    Broken,
}

/// The way in which alerts are held against silences: by the dialect of their patterns, at a moment, and with this use of the
/// cache.
#[derive(Drop)]
struct MutingContext {
    dialect: Dialect,
    moment: Moment,
    cache_use: CacheUse,
}

/// Returns whether a silence is in view, has begun and hasn't ended.
fn is_active(version: &MeshSilence, now: Moment) -> bool
    ensures { result ≡ is_active now version.now }
{
    now < version.expires() && version.starts_at() <= now && now < version.ends_at()
}

/// Returns whether a silence has unknown fields and no matcher. The fields say what it matches then.
fn is_unread(version: &MeshSilence) -> bool
    ensures { IsTrue result ↔ IsUnread version.now }
{
    version.matchers().is_empty() && !version.is_plain()
}

/// Returns the effect of a silence on an alert with these labels. Patterns are read only if the silence is active.
fn effect_of(
    patterns: &mut PatternCache,
    judging: &MutingContext,
    version: &MeshSilence,
    labels: &NamedLabels<'_>,
) -> Result<Effect, AllocError>
    ensures effect { IfOk result (IsEffect judging.now.dialect labels.now judging.now.moment version.now) }
    ensures kept { (test : List ℕ → Bool) → PatternsPass test version.now.silence.matchers →
        TextsPass test patterns.old → TextsPass test patterns.new }
{
    if !is_active(version, judging.moment) {
        return Ok(Effect::Idle);
    }
    if is_unread(version) {
        return Ok(Effect::Broken);
    }
    match judge_all(
        patterns,
        judging.dialect,
        version.matchers(),
        labels,
        judging.cache_use,
    ) {
        Ok(true) => Ok(Effect::Mutes),
        Ok(false) => Ok(Effect::Passes),
        Err(BuildError::BadPattern) => Ok(Effect::Broken),
        Err(BuildError::Memory) => Err(AllocError),
    }
}

/// Appends the id of a silence to the list for its effect, if there is one.
fn put_id(
    alloc: Global,
    id: &Text,
    effect: Effect,
    ids: &mut Vec<Text>,
    broken: &mut Vec<Text>,
) -> Result<(), AllocError>
    ensures ids { OnOk result (ids.new.items ≡ ids.old.items ++ if_mutes effect id.now) }
    ensures broken { OnOk result (broken.new.items ≡ broken.old.items ++ if_broken effect id.now) }
{
    match effect {
        Effect::Mutes => ids.push(id.try_clone(alloc)?)?,
        Effect::Broken => broken.push(id.try_clone(alloc)?)?,
        Effect::Idle | Effect::Passes => {}
    }
    Ok(())
}

/// Returns the silences that mute an alert, and the broken ones.
fn mutes_among(
    alloc: Global,
    patterns: &mut PatternCache,
    judging: &MutingContext,
    silences: &[&MeshSilence],
    labels: &NamedLabels<'_>,
) -> Result<Mutes, AllocError>
    ensures muted { IfOk result (λ m. AreMutedIn judging.now.dialect labels.now judging.now.moment (map (λ m. m.now) silences.now) m.ids m.broken) }
    ensures kept { (test : List ℕ → Bool) → SilencesPass test (map (λ m. m.now) silences.now) →
        TextsPass test patterns.old → TextsPass test patterns.new }
{
    let mut ids = Vec::new(alloc);
    let mut broken = Vec::new(alloc);
    for &version in silences {
        let effect = effect_of(patterns, judging, version, labels)?;
        put_id(alloc, version.key(), effect, &mut ids, &mut broken)?;
    }
    Ok(Mutes {
        ids: Ids::new(ids),
        broken: Ids::new(broken),
    })
}

/// Returns the silences of a map that mute an alert, and the broken ones.
fn mutes_by(
    patterns: &mut PatternCache,
    judging: &MutingContext,
    held: &Held<MeshSilence>,
    labels: &[Label],
) -> Result<Mutes, AllocError>
    ensures muted { IfOk result (λ m. AreMutedIn judging.now.dialect labels.now judging.now.moment held.now m.ids m.broken) }
    ensures kept { (test : List ℕ → Bool) → SilencesPass test held.now →
        TextsPass test patterns.old → TextsPass test patterns.new }
{
    let alloc = patterns.alloc();
    let buckets = buckets_for(alloc, labels)?;
    let silences = gather(alloc, held, &buckets)?;
    let named = NamedLabels::new(alloc, labels)?;
    let muted = mutes_among(alloc, patterns, judging, &silences, &named)?;
    Ok(muted)
}

impl PatternCache {
    /// Returns the silences that mute an alert with these labels, as [`mutes`] does. The patterns of the silences are kept
    /// if there is room, so that each is compiled once.
    ///
    /// # Errors
    ///
    /// [`AllocError`] if memory runs out.
    pub fn mutes(
        &mut self,
        held: &Held<MeshSilence>,
        labels: &Labels,
        now: Moment,
    ) -> Result<Mutes, AllocError>
        ensures muted { IfOk result (λ m. AreMuted labels.now now held.now m.ids m.broken) }
        // Each pattern that is kept afterwards was kept before, or belongs to a silence.
        ensures kept { TextsPass (λ text. is_among self.old text || is_used_by held.now text) self.new }
    {
        self.mutes_in(Dialect::Regex, held, labels, now)
    }

    /// Returns the silences that mute an alert with these labels, as [`PatternCache::mutes`] does, with patterns of the
    /// dialect.
    ///
    /// # Errors
    ///
    /// [`AllocError`] if memory runs out.
    pub fn mutes_in(
        &mut self,
        dialect: Dialect,
        held: &Held<MeshSilence>,
        labels: &Labels,
        now: Moment,
    ) -> Result<Mutes, AllocError>
        ensures muted { IfOk result (λ m. AreMutedIn dialect labels.now now held.now m.ids m.broken) }
        // Each pattern that is kept afterwards was kept before, or belongs to a silence.
        ensures kept { TextsPass (λ text. is_among self.old text || is_used_by held.now text) self.new }
    {
        let judging = MutingContext {
            dialect,
            moment: now,
            cache_use: CacheUse::Fill,
        };
        mutes_by(self, &judging, held, labels.as_slice())
    }
}

/// Returns the silences that mute an alert with these labels, and the broken ones: those with a pattern that `regex`
/// refuses, and those that have no matchers, but unknown fields, which say what they match.
///
/// Only silences in view that have begun and haven't ended are considered. One without matchers mutes every alert if it has
/// no unknown fields. Patterns are compiled for this call alone. All patterns of an active silence are compiled, since a
/// broken one is reported whatever the labels are. A silence without a pattern is skipped if it wants a label to have
/// another text.
///
/// # Errors
///
/// [`AllocError`] if memory runs out.
pub fn mutes(
    alloc: Global,
    held: &Held<MeshSilence>,
    labels: &Labels,
    now: Moment,
) -> Result<Mutes, AllocError>
    // PROMISE: An alert is muted by exactly the active silences that can be judged and whose matchers all match.
    ensures { IfOk result (λ m. AreMuted labels.now now held.now m.ids m.broken) }
{
    let judging = MutingContext {
        dialect: Dialect::Regex,
        moment: now,
        cache_use: CacheUse::LookUp,
    };
    mutes_by(
        &mut PatternCache::new(alloc),
        &judging,
        held,
        labels.as_slice(),
    )
}
