//! A member apart from what it holds, and from those who connect to it.

ghost use Rattle.std.specs.Prelude.{◌≡◌, Result};
ghost use Rattle.am_instance.specs.OneStep.{IsStep};
ghost use Rattle.am_instance.specs.declared.reply.Outcome.{Outcome};
ghost use Rattle.am_gossip.specs.declared.refusals.StepError.{StepError};
ghost use Rattle.am_backend.specs.CommitStates.{disk_of};
ghost use Rattle.am_backend.specs.Outbound.{IsQueued, IsSentOn, outbound_of};
ghost use Rattle.am_backend.specs.Stores.{IsFollowed, store_of};

use crate::commit_state::CommitState;
use crate::compaction::Compacting;
use crate::counting::count_unsent;
use crate::room::FileRoom;
use am_diagnostics::{Advance, ClockWatch, Diagnostic, DiagnosticPrinter, Fault};
use am_gossip::Frame;
use am_instance::{Config, Event, FrameSender, Instance, Place, Unsent};
use am_metrics::Metrics;
use am_options::Options;
use am_peer_auth::Lock;
use am_peers::ConnectionFault;
use am_store::StateFile;
use am_version_order::Moment;
use std::rt::Clock;
use std::time::{Duration, Instant};

/// The files of what a member holds, and what it prints and counts.
pub struct SystemBackend<'a, R> {
    pub(crate) rt: &'a R,
    pub(crate) options: &'a Options<'a>,
    /// The lock by which members know one another, if they have a secret.
    pub(crate) lock: Option<Lock<'a>>,
    /// The file of the silences.
    pub(crate) silences: StateFile,
    /// The file of the notification log.
    pub(crate) log: StateFile,
    /// The room that is left for silences.
    pub(crate) silences_room: FileRoom,
    /// The room that is left for entries of the log.
    pub(crate) log_room: FileRoom,
    /// The state of what is to be in the logs, if they are kept.
    pub(crate) commit_state: CommitState,
    /// The files that are written anew while the member serves.
    pub(crate) compacting: Compacting,
    /// The frames that wait to be handed out, each with the place of its peer.
    pub(crate) queue: Vec<(Place, Frame)>,
    /// The lines of faults that the member printed.
    pub(crate) lines: DiagnosticPrinter,
    pub(crate) watch: ClockWatch,
    /// The watch on how far the clock went, compared with the time that has passed.
    pub(crate) advance: Advance,
    /// The figures that the member counts.
    pub(crate) figures: Metrics,
    /// True if something may have changed since the last save, or since one was begun.
    pub(crate) is_changed: bool,
}

// (so that crates above cite one drop, and don't prove those of all that is inside)
impl<R> Drop for SystemBackend<'_, R> {
    fn drop(self) {
        let SystemBackend {
            rt: _,
            options: _,
            lock: _,
            silences: _,
            log: _,
            silences_room: _,
            log_room: _,
            commit_state: _,
            compacting: _,
            queue: _,
            lines: _,
            watch: _,
            advance: _,
            figures: _,
            is_changed: _,
        } = self;
    }
}

/// Returns the shorter one of two times, if there is one.
pub fn sooner(one: Option<Duration>, other: Option<Duration>) -> Option<Duration> {
    match (one, other) {
        (Some(one), Some(other)) => Some(one.min(other)),
        (one, None) => one,
        (None, other) => other,
    }
}

/// Returns the place of the peer that greeted with this name, if one did.
pub fn place_of(config: &Config, name: Option<&str>) -> Option<Place> {
    let place = config.place_named(name?)?;
    if place == config.place() {
        None
    } else {
        Some(place)
    }
}

impl<R: Clock + Eprint> SystemBackend<'_, R> {
    /// Prints a fault.
    pub(crate) fn tell(&mut self, config: &Config, fault: Fault)
        ensures store { store_of self.new ≡ store_of self.old }
        ensures outbound { outbound_of self.new ≡ outbound_of self.old }
        ensures queue { self.new.queue ≡ self.old.queue }
        ensures lock { self.new.lock ≡ self.old.lock }
    {
        let told = Diagnostic { fault, peer: None };
        self.lines.tell(self.rt, config.members(), told);
    }

    /// Prints how many lines were left out of each kind.
    pub(crate) fn settle_lines(&mut self, config: &Config)
        ensures queue { self.new.queue ≡ self.old.queue }
        ensures lock { self.new.lock ≡ self.old.lock }
    {
        self.lines.settle_all(self.rt, config.members());
    }

    /// Prints how many frames are not sent.
    fn tell_unsent(&mut self, config: &Config, unsent: Unsent)
        ensures store { store_of self.new ≡ store_of self.old }
        ensures outbound { outbound_of self.new ≡ outbound_of self.old }
        ensures lock { self.new.lock ≡ self.old.lock }
    {
        if unsent.memory > 0 {
            self.tell(config, Fault::UnsentMemory(unsent.memory));
        }
        if unsent.limit > 0 {
            self.tell(config, Fault::UnsentLimit(unsent.limit));
        }
    }
}

impl<R: Clock + Eprint> SystemBackend<'_, R> {
    /// Checks whether what the clock says, as the time since 1970, went far ahead, unless the clock is trusted.
    pub(crate) fn look_far(&mut self, instance: &Instance, since_1970: Duration)
        ensures store { store_of self.new ≡ store_of self.old }
        ensures outbound { outbound_of self.new ≡ outbound_of self.old }
        ensures lock { self.new.lock ≡ self.old.lock }
    {
        if self.options.trusts_clock {
            return;
        }
        if let Ok(now) = Instant::now(self.rt)
            && let Some(fault) = self.advance.look(since_1970, instance.last(), now)
        {
            self.tell(instance.config(), fault);
        }
    }
}

impl<R: AllocGlobal + Clock + Eprint> SystemBackend<'_, R> {
    /// Follows up a step: its frames go out.
    pub(crate) fn follow_step(&mut self, config: &Config, outbox: FrameSender)
        ensures followed { IsFollowed outbox (store_of self.old) (store_of self.new) }
        ensures queued { IsQueued (disk_of self.old.commit_state) outbox (outbound_of self.old) (outbound_of self.new) }
        ensures lock { self.new.lock ≡ self.old.lock }
    {
        let FrameSender { frames, unsent } = outbox;
        if unsent.memory > 0 || unsent.limit > 0 {
            self.commit_state.lose();
        }
        count_unsent(&mut self.figures, unsent);
        self.tell_unsent(config, unsent);
        self.queue_frames(config, frames);
    }

    /// Makes a step of its own at a moment, and returns whether the step was made.
    pub(crate) fn step(&mut self, instance: &mut Instance, event: Event, now: Moment) -> bool
        ensures made { (answer : Result Outcome StepError) × IsStep instance.old event now answer instance.new
            × IsSentOn (disk_of self.old.commit_state) answer (outbound_of self.old) (outbound_of self.new) }
        ensures disk { disk_of self.new.commit_state ≡ disk_of self.old.commit_state }
        ensures lock { self.new.lock ≡ self.old.lock }
    {
        match instance.step(event, now) {
            Ok(outcome) => {
                let (_, outbox) = outcome.into_parts();
                self.follow_step(instance.config(), outbox);
                true
            }
            Err(error) => {
                self.tell(
                    instance.config(),
                    Fault::Connection(ConnectionFault::Step(error)),
                );
                false
            }
        }
    }
}
