//! The consequences of what a connection said.

ghost use Rattle.std.specs.Prelude.{◌≡◌, ◌==◌, ℕ, true, not, IsSome, IsTrue};
ghost use Rattle.am_http.specs.Lines.{line_seen};
ghost use Rattle.am_http.specs.Sessions.{name_of, spoken};
ghost use Rattle.am_server.specs.Answered.{IsAnswered, IsTaken, SaysBy};
ghost use Rattle.am_server.specs.Talks.{Closes, IsClosed, IsOwnLine, KeepsBy, Stays, WaitsAs, talk_of};
ghost use Rattle.am_member.specs.Exchanging.{IsSessionAnswer, left_at};
ghost use Rattle.am_backend.specs.CommitStates.{came, uncommitted};
ghost use Rattle.am_backend.specs.Stores.{SendsNews};
ghost use Rattle.am_daemon.specs.Sending.{IsPassedOn, PassesOn, outlets};

use super::counting::count_said;
use super::links::plan_transfer;
use super::server_state::{ServerState, random_bits};
use am_api_silences::ReplyBuilder;
use am_backend::{Backend, Counted, Incoming, place_of};
use am_diagnostics::Fault;
use am_gossip::{Frame, StateKey};
use am_http::Refusal;
use am_http::session::{Session, SessionOutput};
use am_instance::{Config, Instance, Place};
use am_member::{Deferred, PatternsAhead, SessionAnswer, apply_session_output, defer_requests};
use am_metrics::RequestLabel;
use am_peers::ConnectionFault;
use am_server::{
    ConnectionState, TransferKind, asked_of_itself, ends_pull, frame_bytes, is_nothing, log_said,
    may_change, silences_said,
};

/// The requests in a peer's frames, beside the versions that they bring.
#[derive(Clone, Copy)]
struct FrameRequests {
    /// True if a Pull was answered.
    pulled: bool,
    /// True if all that is held here is asked for, by a peer that has sent all it has.
    asks: bool,
    /// True if a Tick is asked for.
    ticks: bool,
    /// True if there was a frame.
    has_frames: bool,
}

/// Returns whether a frame brings silences.
fn brings_silences(frame: &Frame) -> bool {
    frame_bytes(frame, StateKey::Sil) > 0
}

/// Notes that more patterns are to be compiled if frames bring silences.
fn note_patterns(ahead: &mut PatternsAhead, frames: &[Frame]) {
    if frames.iter().any(|frame| brings_silences(frame)) {
        ahead.note();
    }
}

/// Returns whether each peer has pushed all that it has, now that the one of this name did. `awaited` has those that haven't.
fn has_all_with(awaited: &mut Vec<Place>, config: &Config, name: Option<&str>) -> bool {
    let Some(name) = name else {
        return false;
    };
    let place = config.place_named(name);
    if let Some(at) = awaited.iter().position(|peer| Some(*peer) == place) {
        awaited.swap_remove(at);
    }
    awaited.is_empty()
}

/// Returns whether a peer that was asked has sent all it has, or now each peer has.
fn is_told_all(
    awaited: &mut Vec<Place>,
    config: &Config,
    name: Option<&str>,
    asked: FrameRequests,
) -> bool {
    let all = asked.asks && has_all_with(awaited, config, name);
    asked.pulled || all
}

impl<U: Backend> ServerState<'_, U> {
    /// Answers what was said, or keeps it until it may be answered.
    pub(super) fn hear(
        &mut self,
        instance: &mut Instance,
        connection: &mut ConnectionState,
        said: SessionOutput,
    )
        ensures answered { IsAnswered (spoken said) instance.old (talk_of connection.old) instance.new (talk_of connection.new) }
        ensures sent { PassesOn instance.old (outlets U.store_of U.outbound self.old) instance.new (outlets U.store_of U.outbound self.new) }
    {
        let name = connection.session.name();
        let config = instance.config();
        count_said(
            &mut self.backend,
            config,
            &mut connection.account,
            name,
            &said,
        );
        if let Some(resource) = asked_of_itself(&said) {
            return self.reply_about_member(instance, connection, said, resource);
        }
        if let Some(said) = connection.hold(said, self.duties.waits_for_pull()) {
            self.judge(instance, connection, said);
        }
    }

    /// Refuses to hear a request that names a host or a site other than this member's.
    pub(super) fn refuse(&self, connection: &mut ConnectionState, refusal: &Refusal)
        ensures { IsOwnLine (line_seen refusal.now) → IsClosed (talk_of connection.old) (talk_of connection.new) }
    {
        connection
            .account
            .ask(RequestLabel::Other, self.backend.now());
        connection.refuse(self.alloc, refusal);
    }

    /// Answers what was said.
    pub(super) fn answer(
        &mut self,
        instance: &mut Instance,
        connection: &mut ConnectionState,
        said: SessionOutput,
    )
        ensures answered { IsAnswered (spoken said) instance.old (talk_of connection.old) instance.new (talk_of connection.new) }
        ensures sent { PassesOn instance.old (outlets U.store_of U.outbound self.old) instance.new (outlets U.store_of U.outbound self.new) }
    {
        if is_nothing(&said) && connection.session.name().is_none() {
            return;
        }
        if self.refuses_inner(instance.config(), connection) {
            return;
        }
        self.take_in(instance, connection, said);
    }

    /// Refuses a connection that greets by a name that nobody may use, such as that of the disk, and returns whether it did.
    fn refuses_inner(&mut self, config: &Config, connection: &mut ConnectionState) -> bool
        ensures refused { IsTrue result → Closes (talk_of connection.old) (talk_of connection.new) }
        ensures saying { (talk_of connection.new).saying ≡ (talk_of connection.old).saying }
        ensures heard { ¬ IsTrue result → talk_of connection.new ≡ talk_of connection.old }
        ensures stays { outlets U.store_of U.outbound self.new ≡ outlets U.store_of U.outbound self.old }
    {
        let is_inner = match connection.session.name() {
            Some(name) => self.is_inner(config, name),
            None => false,
        };
        if is_inner {
            connection.session.stop();
            let fault = Fault::Connection(ConnectionFault::UnknownName);
            self.backend.tell_of(config, None, fault);
        }
        is_inner
    }

    /// Makes the steps of what was said, and what follows them.
    fn take_in(
        &mut self,
        instance: &mut Instance,
        connection: &mut ConnectionState,
        said: SessionOutput,
    )
        ensures taken { IsTaken (spoken said) instance.old (talk_of connection.old) instance.new (talk_of connection.new) }
        // PROMISE: What the steps of what a connection says send to peers waits behind what waited before, in order, or memory ran out, and just those frames are counted as not sent.
        ensures sent { PassesOn instance.old (outlets U.store_of U.outbound self.old) instance.new (outlets U.store_of U.outbound self.new) }
    {
        self.backend.take(Incoming {
            silences: silences_said(&said),
            log: log_said(&said),
            may_change: may_change(&said),
        });
        // (the patterns of a post are kept before its step)
        note_patterns(&mut self.ahead, &said.frames);
        let pulled = ends_pull(&said);
        let has_frames = !said.frames.is_empty();
        let Deferred { said, asks, ticks } = defer_requests(said);
        let exchanged = self.make_steps(instance, &mut connection.session, said);
        let asked = FrameRequests {
            pulled,
            asks,
            ticks,
            has_frames,
        };
        let config = instance.config();
        self.handle_frames(config, connection.session.name(), asked, exchanged.fault);
        self.reply(config, connection, exchanged);
    }

    /// Makes the steps of what was said.
    fn make_steps(
        &mut self,
        instance: &mut Instance,
        session: &mut Session,
        said: SessionOutput,
    ) -> SessionAnswer
        ensures exchanged { (bits : ℕ) × (now : ℕ) × IsSessionAnswer (name_of session.old) bits now (spoken said) instance.old instance.new result }
        ensures session { session.new ≡ left_at result.fault session.old }
        ensures stays { outlets U.store_of U.outbound self.new ≡ outlets U.store_of U.outbound self.old }
    {
        let bits = random_bits(&mut self.random);
        let now = self.backend.next_moment(instance.last());
        apply_session_output(self.alloc, instance, session, said, bits, now)
    }

    /// Sends what comes of steps.
    fn reply(&mut self, config: &Config, connection: &mut ConnectionState, exchanged: SessionAnswer)
        ensures stays { Stays (talk_of connection.old) (talk_of connection.new) }
        ensures says { SaysBy exchanged.reply (talk_of connection.old).saying (talk_of connection.new).saying }
        // PROMISE: With logs, the reply of a step that sends a version to the place of the disk waits for the next commit, as one that has changed something.
        ensures waits { IsSome exchanged.reply → SendsNews exchanged.effects.outbox (U.store_of self.old.backend) → WaitsAs true connection.new.work }
        ensures passed { IsPassedOn exchanged.effects.outbox (outlets U.store_of U.outbound self.old) (outlets U.store_of U.outbound self.new) }
    {
        let SessionAnswer {
            reply,
            effects,
            fault,
        } = exchanged;
        let changes = self.backend.commit_state().changes();
        let peer = place_of(config, connection.session.name());
        self.backend.follow(config, peer, effects.outbox, fault);
        if let Some(making) = reply {
            self.reply_by(connection, making, changes);
        }
    }

    /// Sends a reply, which waits for the next commit if anything came since the last one. `changes` counts what had come before
    /// the reply's step sent anything.
    pub(super) fn reply_by(
        &self,
        connection: &mut ConnectionState,
        making: ReplyBuilder,
        changes: u64,
    )
        ensures stays { Stays (talk_of connection.old) (talk_of connection.new) }
        ensures says { KeepsBy making (talk_of connection.old).saying (talk_of connection.new).saying }
        ensures waits { uncommitted (U.store_of self.now.backend).commit_state ≡ true → WaitsAs (not (came (U.store_of self.now.backend).commit_state == changes)) connection.new.work }
    {
        connection.reply_with(self.alloc, Some(making));
        let commit_state = self.backend.commit_state();
        if commit_state.has_changes() {
            connection.hold_back(commit_state.changes() != changes);
        }
    }

    /// Does what the frames of a peer asked for, as far as their steps were made.
    fn handle_frames(
        &mut self,
        config: &Config,
        name: Option<&str>,
        asked: FrameRequests,
        fault: Option<ConnectionFault>,
    )
        ensures { outlets U.store_of U.outbound self.new ≡ outlets U.store_of U.outbound self.old }
    {
        match fault {
            None => {
                self.end_first_pull_after(config, name, asked);
                self.note_frames(config, name, asked);
                self.schedule_transfer(config, name, asked);
            }
            Some(ConnectionFault::UnknownName) => {}
            Some(_) => self.schedule_transfer(config, name, asked),
        }
    }

    /// Remembers that frames of a peer, if there were any, were taken now.
    fn note_frames(&mut self, config: &Config, name: Option<&str>, asked: FrameRequests)
        ensures { outlets U.store_of U.outbound self.new ≡ outlets U.store_of U.outbound self.old }
    {
        if !asked.has_frames {
            return;
        }
        if let Some(place) = place_of(config, name) {
            let since_1970 = self.backend.since_1970();
            self.backend
                .count(Counted::Heard(place as usize, since_1970));
        }
    }

    /// Ends the first pull, if it is going on, when a peer has sent all it has, or now that each peer has.
    fn end_first_pull_after(&mut self, config: &Config, name: Option<&str>, asked: FrameRequests)
        ensures { outlets U.store_of U.outbound self.new ≡ outlets U.store_of U.outbound self.old }
    {
        if !self.duties.waits_for_pull() {
            return;
        }
        if is_told_all(&mut self.awaited, config, name, asked) {
            self.end_first_pull();
        }
    }

    /// Remembers what the frames of a peer asked for: a Tick, and, except during the first pull, all that is held here.
    fn schedule_transfer(&mut self, config: &Config, name: Option<&str>, asked: FrameRequests)
        ensures { outlets U.store_of U.outbound self.new ≡ outlets U.store_of U.outbound self.old }
    {
        self.duties.request_tick(asked.ticks);
        if !asked.asks || self.duties.waits_for_pull() {
            return;
        }
        let Some(place) = place_of(config, name) else {
            return;
        };
        plan_transfer(&mut self.transfers, place as usize, TransferKind::Send);
    }
}
