//! A map of versions with the moment of its last event.

ghost use Rattle.std.specs.Prelude.{◌≡◌, ◌≢◌, ◌+◌, ◌<◌, ◌≤◌, ◌↔◌, ℕ, [], ◌∷◌, length, IfOk, IfErr, IsOk, OnOk, OnErr};
ghost use Rattle.std.specs.Prelude.{IsOkUnless, IsPermutation};
ghost use Rattle.std.specs.Option.{option_copied};
ghost use Rattle.am_merge.specs.Maps.{IsMap, HasTwice, swept};
ghost use Rattle.am_merge.specs.Takings.{IsTaking, AreTakings};
ghost use Rattle.am_collect.specs.Events.MapEvent.{Delivered, Collected};

use am_merge::{FromVersionsError, Held, Taken};
use am_version_order::{Moment, Version};
use std::alloc::{AllocError, Global};
use std::marker::Model;
use thiserror::Error;

/// A step of a keeper.
#[derive(Drop)]
pub enum Step<V> {
    /// Takes a version.
    Take(V),
    /// Drops each version that isn't live.
    Collect,
}

impl<V: Version> Step<V> {
    /// Copies the step, or returns [`AllocError`] if memory runs out.
    fn try_clone(&self, alloc: Global) -> Result<Self, AllocError>
        ensures copy { IfOk result (λ copy. copy ≡ self.now) }
        ensures none_taken { self.now ≡ Step.Collect → IsOk result }
    {
        Ok(match self {
            Step::Take(version) => Step::Take(version.try_clone(alloc)?),
            Step::Collect => Step::Collect,
        })
    }
}

/// The outcome of a step.
#[derive(Clone, Copy, Debug, PartialEq, Eq)]
pub enum Stepped {
    /// A version was taken.
    Took(Taken),
    /// This many versions were dropped.
    Swept(usize),
}

/// A refusal of a call, or of a step of a run. A refusal changes nothing.
#[derive(Clone, Copy, Debug, PartialEq, Eq, Error)]
pub enum KeeperError {
    /// The moment is before that of the last event.
    #[error("the moment is before the last one")]
    MomentBack { last: Moment },
    /// Two of the versions to start with have the same key.
    #[error("two versions have one key")]
    DuplicateKey,
    /// Memory ran out.
    #[error("out of memory")]
    Memory,
}

impl From<AllocError> for KeeperError {
    ghost use Rattle.std.specs.Prelude.{◌≡◌};
    ghost use Rattle.am_collect.specs.declared.keeper.KeeperError.TheVariants.{Memory};

    ghost from_gives = { λ _ refusal. refusal ≡ Memory };

    fn from(_want: AllocError) -> KeeperError {
        KeeperError::Memory
    }
}

/// A map of versions with the moment of its last event.
///
/// Contracts see it as the list of its versions in the order of their keys, and that moment.
#[derive(Drop)]
pub struct Keeper<V: Version> {
    held: Held<V>,
    last: Moment,
}

impl<V: Version> Model for Keeper<V> {
    ghost use Rattle.am_collect.specs.Kept.{Kept};

    ghost Value = { Kept V };

    ghost view = { λ keeper. record { held = keeper.held; last = keeper.last } };
}

impl<V: Version> Keeper<V> {
    ghost use Rattle.am_collect.specs.Keepers.{IsLeftBy, IsRefusal, IsStepping, IsStop, ShowsBareSet, accepted};
    ghost use Rattle.am_collect.specs.Keepers.{event_of, events_of, view_at};

    /// Creates a keeper of these versions, of which no two may have the same key.
    ///
    /// # Errors
    ///
    /// Returns [`KeeperError::DuplicateKey`] if two have the same key, and [`KeeperError::Memory`] if memory runs out.
    pub fn start(alloc: Global, versions: Vec<V>, now: Moment) -> Result<Self, KeeperError>
        ensures order { IfOk result (λ keeper. IsMap V.seen V.Key.cmp keeper.held) }
        ensures members { IfOk result (λ keeper. IsPermutation versions.items keeper.held) }
        ensures last { IfOk result (λ keeper. keeper.last ≡ now) }
        ensures twice { (result ≡ Err KeeperError.DuplicateKey) ↔ HasTwice V.seen versions.items }
        ensures never_back { (last : ℕ) → result ≢ Err (KeeperError.MomentBack last) }
    {
        match Held::from_versions(alloc, versions) {
            Ok(held) => Ok(Keeper::of(held, now)),
            Err(FromVersionsError::DuplicateKey) => Err(KeeperError::DuplicateKey),
            Err(FromVersionsError::Memory) => Err(KeeperError::Memory),
        }
    }

    /// Creates a keeper of a map. This takes no memory.
    pub fn of(held: Held<V>, now: Moment) -> Self
        ensures held { result.held ≡ held }
        ensures last { result.last ≡ now }
    {
        Keeper { held, last: now }
    }

    /// Returns the map. This takes no memory.
    pub fn held(&self) -> &Held<V>
        ensures { result.now ≡ self.now.held }
    {
        &self.held
    }

    /// Returns the version of a key, if it is live. This takes no memory.
    pub fn view(&self, key: &V::Key, now: Moment) -> Option<&V>
        ensures { option_copied result ≡ view_at V.seen V.Key.cmp self.now now key.now }
    {
        self.held.get(key).filter(|version| now < version.expires())
    }

    /// Drops each version that isn't live, and returns how many were dropped. This takes no memory.
    ///
    /// # Errors
    ///
    /// Returns [`KeeperError::MomentBack`] if the moment is before the last one.
    pub fn collect(&mut self, now: Moment) -> Result<usize, KeeperError>
        ensures back { (result ≡ Err (KeeperError.MomentBack self.old.last)) ↔ (now < self.old.last) }
        ensures only { IsOkUnless result (KeeperError.MomentBack self.old.last) }
        ensures err { OnErr result (self.new ≡ self.old) }

        ensures swept { OnOk result (self.new.held ≡ swept V.seen now self.old.held) }
        ensures went { IfOk result (λ went. went + length self.new.held ≡ length self.old.held) }
        ensures last { OnOk result (self.new.last ≡ now) }
        ensures left { OnOk result (IsLeftBy V.seen V.Key.cmp self.old ((Collected, now) ∷ []) self.new) }
    {
        self.admit(now)?;
        let went = self.held.sweep(now);
        self.last = now;
        Ok(went)
    }

    /// Takes two versions in order, or neither.
    ///
    /// # Errors
    ///
    /// Returns [`KeeperError::MomentBack`] if the moment is before the last one, or else [`KeeperError::Memory`] if memory runs
    /// out.
    pub fn take_pair(
        &mut self,
        first: V,
        second: V,
        now: Moment,
    ) -> Result<(Taken, Taken), KeeperError>
        ensures back { (result ≡ Err (KeeperError.MomentBack self.old.last)) ↔ (now < self.old.last) }
        ensures refusal { IfErr result (IsRefusal (Step.Take first) self.old.last now) }
        ensures err { OnErr result (self.new ≡ self.old) }

        ensures taken { IfOk result (AreTakings V.seen V.Key.cmp now self.old.held first second self.new.held) }
        ensures last { OnOk result (self.new.last ≡ now) }
        ensures left { OnOk result (IsLeftBy V.seen V.Key.cmp self.old ((Delivered first, now) ∷ (Delivered second, now) ∷ []) self.new) }
    {
        self.admit(now)?;
        let taken = self.held.take_pair(first, second, now)?;
        self.last = now;
        Ok(taken)
    }

    /// Does a step and returns its outcome.
    ///
    /// # Errors
    ///
    /// Returns [`KeeperError::MomentBack`] if the moment is before the last one, or else [`KeeperError::Memory`] if memory runs
    /// out. A
    /// refused step changes nothing.
    pub fn step(&mut self, step: Step<V>, now: Moment) -> Result<Stepped, KeeperError>
        ensures back { (result ≡ Err (KeeperError.MomentBack self.old.last)) ↔ (now < self.old.last) }
        ensures refusal { IfErr result (IsRefusal step self.old.last now) }
        ensures err { OnErr result (self.new ≡ self.old) }

        ensures stepped { IfOk result (IsStepping V.seen V.Key.cmp now self.old.held step self.new.held) }
        ensures last { OnOk result (self.new.last ≡ now) }
        ensures left { OnOk result (IsLeftBy V.seen V.Key.cmp self.old ((event_of step, now) ∷ []) self.new) }
    {
        match step {
            Step::Take(version) => Ok(Stepped::Took(self.take(version, now)?)),
            Step::Collect => Ok(Stepped::Swept(self.collect(now)?)),
        }
    }

    /// Does copies of steps in order, until one is refused.
    ///
    /// Steps are calm if no moment is before the last one, and no live version arrives after a greater one of its key was taken and
    /// a
    /// collection came at or after the expiry of the greatest. After calm steps the keeper shows, from its last moment on, the view
    /// of
    /// the bare set of all that it took.
    ///
    /// # Errors
    ///
    /// Returns the place of the first refused step, and its refusal. The steps before it keep their effect.
    pub fn run(&mut self, steps: &[(Step<V>, Moment)]) -> Result<(), (usize, KeeperError)>
        ensures refusal { IfErr result (IsStop self.new.last steps.now) }
        ensures left { IsLeftBy V.seen V.Key.cmp self.old (events_of (accepted steps.now result)) self.new }
        // PROMISE: After calm steps a keeper shows what it would show if it had never forgotten anything.
        ensures shown { ShowsBareSet V.seen V.Key.cmp self.old (events_of (accepted steps.now result)) self.new }
    {
        for (place, (step, now)) in steps.iter().enumerate() {
            if let Err(refusal) = self.step_copy(step, *now) {
                return Err((place, refusal));
            }
        }
        Ok(())
    }

    /// Refuses a moment before the last one.
    fn admit(&self, now: Moment) -> Result<(), KeeperError>
        ensures forward { OnOk result (self.now.last ≤ now) }
        ensures back { IfErr result (λ refusal. (refusal ≡ KeeperError.MomentBack self.now.last) × (now < self.now.last)) }
    {
        if now < self.last {
            return Err(KeeperError::MomentBack { last: self.last });
        }
        Ok(())
    }

    /// Takes a version.
    fn take(&mut self, version: V, now: Moment) -> Result<Taken, KeeperError>
        ensures forward { OnOk result (self.old.last ≤ now) }
        ensures refusal { IfErr result (IsRefusal (Step.Take version) self.old.last now) }
        ensures err { OnErr result (self.new ≡ self.old) }
        ensures taken { IfOk result (IsTaking V.seen V.Key.cmp now self.old.held version self.new.held) }
        ensures last { OnOk result (self.new.last ≡ now) }
    {
        self.admit(now)?;
        let taken = self.held.take(version, now)?;
        self.last = now;
        Ok(taken)
    }

    /// Does a copy of a step.
    fn step_copy(&mut self, step: &Step<V>, now: Moment) -> Result<Stepped, KeeperError>
        ensures refusal { IfErr result (IsRefusal step.now self.old.last now) }
        ensures err { OnErr result (self.new ≡ self.old) }
        ensures left { OnOk result (IsLeftBy V.seen V.Key.cmp self.old ((event_of step.now, now) ∷ []) self.new) }
    {
        self.admit(now)?;
        let copy = step.try_clone(self.held.allocator())?;
        self.step(copy, now)
    }
}
