//! The work that a member does on its own state. Only a caller that is handed the instance as mutable makes steps of it.

ghost use Rattle.std.specs.Prelude.{◌≡◌};
ghost use Rattle.am_backend.specs.CommitStates.{disk_of};
ghost use Rattle.am_daemon.specs.Offers.{OnlyCounts, for_peers};
ghost use Rattle.am_daemon.specs.Sending.{MayTick, outlets};

use super::server_state::ServerState;
use am_alertmanager::Replicas;
use am_backend::Backend;
use am_instance::Instance;
use std::time::Instant;

/// A member without its instance.
pub struct Server<'a, U> {
    /// The part that answers those who connect to the member.
    pub state: ServerState<'a, U>,
    /// The exchanges with the Alertmanagers beside the member, and what they answered.
    pub replicas: Replicas,
}

// (so that the start cites one drop, and doesn't prove those of all that is inside)
impl<U: Drop> Drop for Server<'_, U> {
    fn drop(self) {
        let Server {
            state: _,
            replicas: _,
        } = self;
    }
}

impl<U: Backend> Server<'_, U> {
    /// Does what is due.
    pub fn do_duties(&mut self, instance: &mut Instance, now: Instant)
        ensures tick { MayTick instance.old instance.new }
        ensures disk { disk_of (U.store_of self.new.state.backend).commit_state ≡ disk_of (U.store_of self.old.state.backend).commit_state }
        ensures peers { OnlyCounts (for_peers U.outbound U.sealed_by self.old.state) (for_peers U.outbound U.sealed_by self.new.state) }
    {
        self.tick(instance, now);
        self.save(instance, now);
        self.pull(now);
        self.state.look_around(instance, now);
    }

    /// Makes the Tick if it is due. If the clock has gone too far ahead for that, it only saves.
    fn tick(&mut self, instance: &mut Instance, now: Instant)
        ensures tick { MayTick instance.old instance.new }
        ensures disk { disk_of (U.store_of self.new.state.backend).commit_state ≡ disk_of (U.store_of self.old.state.backend).commit_state }
        ensures peers { OnlyCounts (for_peers U.outbound U.sealed_by self.old.state) (for_peers U.outbound U.sealed_by self.new.state) }
    {
        if !self.state.duties.is_tick_due(now) {
            return;
        }
        match self.state.backend.moment_of_tick(instance.last()) {
            Some(moment) => self.state.backend.tick(instance, moment),
            None => self.state.backend.save_owed(instance),
        }
    }

    /// Saves if that is due.
    fn save(&mut self, instance: &Instance, now: Instant)
        ensures disk { disk_of (U.store_of self.new.state.backend).commit_state ≡ disk_of (U.store_of self.old.state.backend).commit_state }
        ensures peers { OnlyCounts (for_peers U.outbound U.sealed_by self.old.state) (for_peers U.outbound U.sealed_by self.new.state) }
    {
        if self.state.duties.is_save_due(now) {
            self.state.backend.save_owed(instance);
        }
    }

    /// Asks each peer for all that it has, and hands it all that is held here, if that is due. During a first pull, replicas are
    /// asked, too.
    fn pull(&mut self, now: Instant)
        ensures stays { outlets U.store_of U.outbound self.new.state ≡ outlets U.store_of U.outbound self.old.state }
        ensures peers { for_peers U.outbound U.sealed_by self.new.state ≡ for_peers U.outbound U.sealed_by self.old.state }
    {
        if !self.state.duties.is_pull_due(now) {
            return;
        }
        if self.state.duties.waits_for_pull() {
            self.replicas.want_all();
        }
        self.state.pull_from_peers();
    }
}
