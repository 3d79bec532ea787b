//! A member of a cluster.

ghost use Rattle.std.specs.Prelude.{◌≡◌, [], true, IfOk};
ghost use Rattle.am_cluster.specs.Lives.{saved, started, stopped};

use am_instance::{Config, Instance};
use am_merge::Held;
use am_nflog::MeshEntry;
use am_silence::MeshSilence;
use am_version_order::Moment;
use std::alloc::{AllocError, Global};
use std::marker::Model;

/// The saved copy of a member's maps.
#[derive(Drop)]
pub(crate) struct Copy {
    silences: Held<MeshSilence>,
    log: Held<MeshEntry>,
}

/// A member: its instance, which runs or is stopped, and its last saved copy.
#[derive(Drop)]
pub(crate) struct ClusterMember {
    pub(crate) instance: Instance,
    pub(crate) runs: bool,
    saved: Copy,
}

impl Model for ClusterMember {
    ghost use Rattle.am_cluster.specs.Worlds.{Replica};

    ghost Value = { Replica };

    ghost view = { λ m. record {
      stand = m.instance;
      runs = m.runs;
      saved_silences = m.saved.silences;
      saved_log = m.saved.log;
    } };
}

impl ClusterMember {
    /// Returns a member that runs and is empty, and of which nothing is saved. Nothing is allocated.
    pub fn new(alloc: Global, config: Config) -> ClusterMember
        ensures stand { result.stand ≡ record { config = config; silences = []; log = []; last = 0 } }
        ensures runs { result.runs ≡ true }
        ensures saved_silences { result.saved_silences ≡ [] }
        ensures saved_log { result.saved_log ≡ [] }
    {
        let instance = Instance::start(config, Held::new(alloc), Held::new(alloc), Moment::LEAST);
        let saved = Copy {
            silences: Held::new(alloc),
            log: Held::new(alloc),
        };
        ClusterMember {
            instance,
            runs: true,
            saved,
        }
    }

    /// Returns a copy of both maps.
    ///
    /// # Errors
    ///
    /// [`AllocError`] if memory runs out.
    pub fn copy(&self) -> Result<Copy, AllocError>
        ensures silences { IfOk result (λ copy. copy.silences ≡ self.now.stand.silences) }
        ensures log { IfOk result (λ copy. copy.log ≡ self.now.stand.log) }
    {
        Ok(Copy {
            silences: self.instance.silences().try_clone()?,
            log: self.instance.log().try_clone()?,
        })
    }

    /// Replaces the saved copy of both maps.
    pub fn keep(&mut self, copy: Copy)
        requires silences { copy.silences ≡ self.old.stand.silences }
        requires log { copy.log ≡ self.old.stand.log }
        ensures { self.new ≡ saved self.old }
    {
        self.saved = copy;
    }

    /// Stops the member.
    pub fn stop(&mut self)
        ensures { self.new ≡ stopped self.old }
    {
        self.runs = false;
    }

    /// Returns an instance with the maps of the saved copy.
    ///
    /// # Errors
    ///
    /// [`AllocError`] if memory runs out.
    pub fn revived(&self, now: Moment) -> Result<Instance, AllocError>
        ensures { IfOk result (λ instance. instance ≡ (started self.now now).stand) }
    {
        let config = self.instance.config().try_clone()?;
        let silences = self.saved.silences.try_clone()?;
        let log = self.saved.log.try_clone()?;
        Ok(Instance::start(config, silences, log, now))
    }

    /// Starts the member with this instance.
    pub fn begin(&mut self, instance: Instance)
        ensures { self.new ≡ record self.old { stand = instance; runs = true } }
    {
        self.instance = instance;
        self.runs = true;
    }
}
