//! The exchanges with the Alertmanagers beside a member: it takes what they answer, a stretch in each turn of the loop, and
//! sends them what they lack.

ghost use Rattle.std.specs.Prelude.{◌≡◌, ℕ, false, IfSome, MatchOption, Option, Result, option_map};
ghost use Rattle.am_alertmanager.specs.Comings.{frame_in};
ghost use Rattle.am_backend.specs.CommitStates.{disk_of, uncommitted};
ghost use Rattle.am_backend.specs.Outbound.{IsSentOn};
ghost use Rattle.am_gossip.specs.declared.frame.Frame.{Frame as FrameOf};
ghost use Rattle.am_gossip.specs.declared.refusals.StepError.{StepError};
ghost use Rattle.am_instance.specs.OneStep.{IsStep};
ghost use Rattle.am_instance.specs.declared.event.Event.TheVariants as events;
ghost use Rattle.am_instance.specs.declared.reply.Outcome.{Outcome};
ghost use Rattle.am_daemon.specs.Offers.{GivesFrames, IsAtRest, IsOffered, Passes, for_peers};
ghost use Rattle.am_daemon.specs.Sending.{FrameIsSentOn, outlets};

use super::links::address_of;
use super::server::Server;
use super::server_state::ServerState;
use am_alertmanager::{Came, WithheldSilence};
use am_backend::{Backend, Counted, Incoming};
use am_diagnostics::{Fault, ShortId};
use am_gossip::{Frame, StateKey};
use am_instance::{Config, Event, Instance, Place};
use am_matcher::Hazard;
use am_member::PatternsAhead;
use am_metrics::WithheldBy;
use am_peers::ConnectionFault;
use am_reactor::PeerBytes;
use am_server::{ConnectionState, Turn, frame_bytes};
use std::time::{Duration, Instant};

/// Makes the step of a frame that came from the replica at a place.
fn take_from<U: Backend>(
    backend: &mut U,
    ahead: &mut PatternsAhead,
    instance: &mut Instance,
    place: usize,
    frame: Frame,
)
    // PROMISE: What the step of an Alertmanager's frame sends to peers waits behind what waited before, in order.
    ensures sent { (now : ℕ) × (answer : Result Outcome StepError) × IsStep instance.old (events.Frame place frame) now answer instance.new
        × IsSentOn (disk_of (U.store_of backend.old).commit_state) answer (U.outbound backend.old) (U.outbound backend.new) }
    ensures lock { U.sealed_by backend.new ≡ U.sealed_by backend.old }
{
    let sender = place as Place;
    let now = backend.next_moment(instance.last());
    let (silences, log) = (
        frame_bytes(&frame, StateKey::Sil),
        frame_bytes(&frame, StateKey::Nfl),
    );
    backend.take(Incoming {
        silences,
        log,
        may_change: true,
    });
    if silences > 0 {
        ahead.note();
    }
    match instance.step(Event::Frame { sender, frame }, now) {
        Ok(outcome) => {
            let (_, outbox) = outcome.into_parts();
            backend.follow(instance.config(), None, outbox, None);
        }
        Err(error) => {
            let fault = Fault::Connection(ConnectionFault::Step(error));
            backend.tell_of(instance.config(), Some(sender), fault);
        }
    }
}

impl<U: Backend> ServerState<'_, U> {
    /// Takes what came from a replica: the step of its frame is made, if one came, and no other, and sent on.
    fn take_came(&mut self, instance: &mut Instance, came: Came)
        ensures { FrameIsSentOn (frame_in came) (disk_of (U.store_of self.old.backend).commit_state) instance.old (for_peers U.outbound U.sealed_by self.old)
            instance.new (for_peers U.outbound U.sealed_by self.new) }
    {
        match came {
            Came::Nothing | Came::Stretch => {}
            Came::Frame(place, frame) => {
                take_from(&mut self.backend, &mut self.ahead, instance, place, frame)
            }
            Came::Whole(place, frame, lacked) => {
                self.note_exchange(place, lacked);
                self.take_last(instance, place, frame);
            }
            Came::Fault(place, error) => {
                let fault = Fault::Gossip(error);
                self.backend
                    .tell_of(instance.config(), Some(place as Place), fault);
            }
        }
    }

    /// Counts an exchange with the replica at a place, which told everything, and lacked this many versions.
    fn note_exchange(&mut self, place: usize, lacked: u64)
        ensures stays { outlets U.store_of U.outbound self.new ≡ outlets U.store_of U.outbound self.old }
        ensures peers { for_peers U.outbound U.sealed_by self.new ≡ for_peers U.outbound U.sealed_by self.old }
    {
        let since_1970 = self.backend.since_1970();
        self.backend.count(Counted::Heard(place, since_1970));
        self.backend.count(Counted::Lacked(place, lacked));
    }

    /// Counts a silence that isn't sent to a replica, and reports it if that wasn't done before.
    fn report(&mut self, config: &Config, report: &WithheldSilence)
        ensures { for_peers U.outbound U.sealed_by self.new ≡ for_peers U.outbound U.sealed_by self.old }
    {
        let id = ShortId::of(report.id.as_str().as_bytes());
        let (cause, fault) = match report.hazard {
            Hazard::Pattern => (WithheldBy::Pattern, Fault::WithheldPattern(id)),
            Hazard::Matcher => (WithheldBy::Matcher, Fault::WithheldMatcher(id)),
        };
        self.backend.count(Counted::Withheld(report.place, cause));
        if report.is_first {
            self.backend
                .tell_of(config, Some(report.place as Place), fault);
        }
    }

    /// Takes the last frame of the replica at a place, which ends a first pull.
    fn take_last(&mut self, instance: &mut Instance, place: usize, frame: Option<Frame>)
        ensures { FrameIsSentOn (option_map (λ came. (place, came)) frame) (disk_of (U.store_of self.old.backend).commit_state) instance.old (for_peers U.outbound U.sealed_by self.old)
            instance.new (for_peers U.outbound U.sealed_by self.new) }
    {
        self.end_first_pull();
        if let Some(frame) = frame {
            take_from(&mut self.backend, &mut self.ahead, instance, place, frame);
        }
    }
}

impl<U: Backend> Server<'_, U> {
    /// Asks the replicas if that is due, and looks at a stretch of what they answered. Returns the time until there is more to
    /// be done.
    pub(super) fn gossip(&mut self, instance: &mut Instance, now: Instant) -> Option<Duration>
        ensures { (came : Option (ℕ × FrameOf)) × FrameIsSentOn came (disk_of (U.store_of self.old.state.backend).commit_state)
            instance.old (for_peers U.outbound U.sealed_by self.old.state) instance.new (for_peers U.outbound U.sealed_by self.new.state) }
    {
        self.replicas.want_due(now);
        let moment = self.state.backend.next_moment(instance.last());
        let came = self
            .replicas
            .resume(instance.silences(), instance.log(), moment);
        self.state.take_came(instance, came);
        self.report_withheld(instance.config());
        self.report_dropped(instance.config());
        self.replicas.left(now)
    }

    /// Counts the silences that aren't sent to replicas, and reports those that weren't reported before.
    fn report_withheld(&mut self, config: &Config)
        ensures { for_peers U.outbound U.sealed_by self.new.state ≡ for_peers U.outbound U.sealed_by self.old.state }
    {
        for _ in 0..u64::MAX {
            match self.replicas.next_report() {
                Some(report) => self.state.report(config, &report),
                None => return,
            }
        }
    }

    /// Reports how many of the smaller messages that replicas told lost fields.
    fn report_dropped(&mut self, config: &Config)
        ensures { for_peers U.outbound U.sealed_by self.new.state ≡ for_peers U.outbound U.sealed_by self.old.state }
    {
        for _ in 0..u64::MAX {
            let Some((place, count)) = self.replicas.next_dropped() else {
                return;
            };
            let fault = Fault::FieldsDropped(count);
            self.state
                .backend
                .tell_of(config, Some(place as Place), fault);
        }
    }

    /// Returns whether the exchanges that a request waits for are over.
    pub(super) fn are_heard(&self, turn: &Turn) -> bool {
        match turn.round() {
            Some(round) => self.replicas.are_over(round),
            None => false,
        }
    }

    /// Reports which replicas weren't heard after a request that no longer waits began to wait for them, each once a minute.
    pub(super) fn tell_missed(&mut self, config: &Config, connection: &ConnectionState)
        ensures { outlets U.store_of U.outbound self.new.state ≡ outlets U.store_of U.outbound self.old.state }
    {
        let Some(turn) = connection.turn() else {
            return;
        };
        let (Some(round), Some(now)) = (turn.round(), self.state.backend.now()) else {
            return;
        };
        if self.state.stops {
            return;
        }
        for place in 0..self.state.asked.len() {
            if self.replicas.is_missed(place, round, now) {
                self.state
                    .backend
                    .tell_of(config, Some(place as Place), Fault::Unheard);
            }
        }
    }

    /// Returns what is given for the next of the waiting frames that go to a peer. Frames for replicas wait on until the replicas
    /// are told, and frames to be sealed are put by until their links are answered.
    pub(super) fn next_outgoing(&mut self, config: &Config) -> Option<PeerBytes>
        ensures { let was = for_peers U.outbound U.sealed_by self.old.state in let is = for_peers U.outbound U.sealed_by self.new.state in
            MatchOption result (IsAtRest was is) (λ it. IsOffered it.peer it.bytes.items was is) }
    {
        while !self.state.backend.sends_nothing() {
            if let Some(outgoing) = self.hand_on(config) {
                return Some(outgoing);
            }
        }
        None
    }

    /// Takes out the frames that wait for the peer of the first of them, and returns what is given for that peer, if anything is.
    fn hand_on(&mut self, config: &Config) -> Option<PeerBytes>
        ensures { let was = for_peers U.outbound U.sealed_by self.old.state in let is = for_peers U.outbound U.sealed_by self.new.state in
            MatchOption result (Passes was is) (λ it. GivesFrames it.peer it.bytes.items was is) }
    {
        let (place, frames) = self.state.backend.next_frames(config)?;
        let peer = place as usize;
        if address_of(&self.state.asked, peer).is_some() {
            self.replicas.bring(peer, &frames);
            None
        } else {
            self.state.give(config, place, frames)
        }
    }

    /// Returns the next question or message for a replica. A message goes out only after what it tells is committed.
    pub fn next_question(&mut self, instance: &Instance) -> Option<PeerBytes>
        ensures committed { IfSome result (λ it. uncommitted (U.store_of self.old.state.backend).commit_state ≡ false) }
        ensures peers { for_peers U.outbound U.sealed_by self.new.state ≡ for_peers U.outbound U.sealed_by self.old.state }
    {
        if self.state.backend.commit_state().has_changes() {
            return None;
        }
        let moment = self.state.backend.next_moment(instance.last());
        match self.replicas.question(moment, self.state.round) {
            Ok(Some((peer, bytes))) => Some(PeerBytes { peer, bytes }),
            Ok(None) => None,
            Err(_) => {
                let config = instance.config();
                self.state
                    .backend
                    .tell_of(config, None, Fault::UnsentMemory(1));
                None
            }
        }
    }
}
