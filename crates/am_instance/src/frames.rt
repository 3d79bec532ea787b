//! Frames that peers send to an instance.

ghost use Rattle.std.specs.Prelude.{◌≡◌, ◌+◌, ℕ, List, Ok, length, None, OnOk, OnErr, IfOk, IfErr};
ghost use Rattle.am_silence.specs.Mesh.{mesh_version};
ghost use Rattle.am_nflog.specs.LogKeys.{LogKey};
ghost use Rattle.am_nflog.specs.Mesh.{mesh_version as entry_version};
ghost use Rattle.am_merge.specs.Maps.{if_live};
ghost use Rattle.am_matcher.specs.Uses.{is_used_by, TextsPass};
ghost use Rattle.am_gossip.specs.declared.frame.Frame.TheVariants as frames;
ghost use Rattle.am_instance.specs.declared.event.Event.TheVariants as events;
ghost use Rattle.am_instance.specs.Configs.{peers_but, places_but};
ghost use Rattle.am_instance.specs.Deliveries.{before_fault, first_fault, rows_in, rows_of};
ghost use Rattle.am_instance.specs.InstanceStates.{silence_at, entry_at, silences_in_view, log_in_view};
ghost use Rattle.am_instance.specs.Changes.{changed_of};
ghost use Rattle.am_instance.specs.Sendings.{Sends, deltas_to, nothing_sent, sent_by};
ghost use Rattle.am_instance.specs.Replies.{IsNothing};
ghost use Rattle.am_instance.specs.Steps.{Delivers, IsArrival, IsJudgement, IsWork, StopsDelivering};

use crate::frame_sender::{ExchangeRole, FrameSender, Route};
use crate::instance::Instance;
use crate::reply::{Made, Outcome, Reply};
use crate::rows::{Taking, merge_row, validate_row};
use am_gossip::{Frame, Part, Place, StateKey, StepError};
use am_matcher::PatternCache;
use am_merge::Held;
use am_nflog::MeshEntry;
use am_silence::MeshSilence;
use am_version_order::Moment;
use am_wire::Unknown;
use std::alloc::{AllocError, Global};

impl Instance {
    /// Takes the versions of a frame, and sends on those that change a map. Answers a Push with both states of this member.
    pub(crate) fn receive(
        &mut self,
        sender: Place,
        frame: Frame,
        now: Moment,
    ) -> Result<Outcome, StepError>
        ensures { IsWork self.old (events.Frame sender frame) now result self.new }
    {
        match frame {
            Frame::Tick => Ok(self.collect(now)),
            Frame::Delta(part) => {
                let outbox = self.take_in(sender, &[part], now)?;
                Ok(outcome(self.alloc, Reply::Nothing, outbox))
            }
            Frame::Pull(state) => {
                let outbox = self.take_in(sender, state.parts(), now)?;
                Ok(outcome(self.alloc, Reply::Nothing, outbox))
            }
            Frame::Push(state) => {
                let mut outbox = self.take_in(sender, state.parts(), now)?;
                outbox.send_states(sender, &self.silences, &self.log, ExchangeRole::Answer);
                Ok(outcome(self.alloc, Reply::Nothing, outbox))
            }
        }
    }

    /// Drops what isn't live from both states, and the patterns that no silence has any more.
    pub(crate) fn collect(&mut self, now: Moment) -> Outcome
        ensures tick { IsWork self.old events.Tick now (Ok result) self.new }
        ensures frame { (sender : ℕ) → IsWork self.old (events.Frame sender frames.Tick) now (Ok result) self.new }
    {
        sweep(&mut self.silences, &mut self.log, &mut self.patterns, now);
        outcome(self.alloc, Reply::Nothing, FrameSender::new(self.alloc))
    }

    /// Sends both states to a peer, which answers with its own.
    pub(crate) fn pull_from(&mut self, place: Place, now: Moment) -> Outcome
        ensures { IsWork self.old (events.PullFrom place) now (Ok result) self.new }
    {
        let mut outbox = FrameSender::new(self.alloc);
        outbox.send_states(place, &self.silences, &self.log, ExchangeRole::Ask);
        outcome(self.alloc, Reply::Nothing, outbox)
    }

    /// Takes the versions in the parts of a frame, once all of them have been read. Those that change a map go to all peers but
    /// the sender.
    fn take_in(
        &mut self,
        sender: Place,
        parts: &[Part],
        now: Moment,
    ) -> Result<FrameSender, StepError>
        ensures { IsArrival self.old sender parts.now now result self.new }
    {
        judge_parts(self.alloc, self.config.unknown(), parts)?;
        let mut outbox = FrameSender::new(self.alloc);
        let mut taken = 0;
        match self.take_parts(sender, parts, now, &mut outbox, &mut taken) {
            Ok(()) => Ok(outbox),
            Err(_) => Err(StepError::Memory { taken }),
        }
    }

    /// Takes the versions in parts in order, and counts them.
    ///
    /// # Errors
    ///
    /// [`AllocError`] if memory runs out. The versions that were counted were taken.
    fn take_parts(
        &mut self,
        sender: Place,
        parts: &[Part],
        now: Moment,
        outbox: &mut FrameSender,
        taken: &mut usize,
    ) -> Result<(), AllocError>
        requires { first_fault (rows_in self.old.config.unknown parts.now) ≡ None }
        ensures delivered { OnOk result (Delivers now (before_fault (rows_in self.old.config.unknown parts.now)) self.old self.new) }
        ensures count { OnOk result (taken.new ≡ taken.old + length (before_fault (rows_in self.old.config.unknown parts.now))) }
        ensures sent { OnOk result (Sends (deltas_to (peers_but self.old.config sender)
            (changed_of now (silence_at self.old.silences) (entry_at self.old.log)
            (before_fault (rows_in self.old.config.unknown parts.now)))) outbox.old outbox.new) }
        ensures stopped { OnErr result (StopsDelivering now (before_fault (rows_in self.old.config.unknown parts.now)) self.old self.new taken.old taken.new) }
    {
        for part in parts {
            self.take_part(sender, part, now, outbox, taken)?;
        }
        Ok(())
    }

    /// Takes the versions in a part in order, and counts them.
    fn take_part(
        &mut self,
        sender: Place,
        part: &Part,
        now: Moment,
        outbox: &mut FrameSender,
        taken: &mut usize,
    ) -> Result<(), AllocError>
        requires { first_fault (rows_of self.old.config.unknown part.now) ≡ None }
        ensures delivered { OnOk result (Delivers now (before_fault (rows_of self.old.config.unknown part.now)) self.old self.new) }
        ensures count { OnOk result (taken.new ≡ taken.old + length (before_fault (rows_of self.old.config.unknown part.now))) }
        ensures sent { OnOk result (Sends (deltas_to (peers_but self.old.config sender)
            (changed_of now (silence_at self.old.silences) (entry_at self.old.log)
            (before_fault (rows_of self.old.config.unknown part.now)))) outbox.old outbox.new) }
        ensures stopped { OnErr result (StopsDelivering now (before_fault (rows_of self.old.config.unknown part.now)) self.old self.new taken.old taken.new) }
    {
        let taking = Taking {
            unknown: self.config.unknown(),
            moment: now,
            key: part.key,
            route: self.route(sender),
        };
        let row = part.bytes.as_slice();
        match part.key {
            StateKey::Sil => merge_row::<MeshSilence>(
                self.alloc,
                &mut self.silences,
                row,
                &taking,
                outbox,
                taken,
            ),
            StateKey::Nfl => merge_row::<MeshEntry>(
                self.alloc,
                &mut self.log,
                row,
                &taking,
                outbox,
                taken,
            ),
        }
    }

    /// Returns the route to all peers but the one at this place. If it is this member's own place, the route goes to all
    /// peers.
    pub(crate) fn route(&self, origin: Place) -> Route
        ensures places { places_but result.members result.own result.origin ≡ peers_but self.now.config origin }
        ensures own { result.own ≡ self.now.config.place }
    {
        Route {
            members: self.config.members().len() as u64,
            own: self.config.place(),
            origin,
        }
    }
}

/// Drops what isn't live from both states, and the patterns that no remaining silence has. Nothing is allocated.
fn sweep(
    silences: &mut Held<MeshSilence>,
    log: &mut Held<MeshEntry>,
    patterns: &mut PatternCache,
    now: Moment,
)
    ensures silences { silences.new ≡ silences_in_view now silences.old }
    ensures log { log.new ≡ log_in_view now log.old }
    ensures each_silence { (id : List ℕ) →
        silence_at silences.new id ≡ if_live mesh_version now (silence_at silences.old id) }
    ensures each_entry { (key : LogKey) → entry_at log.new key ≡ if_live entry_version now (entry_at log.old key) }
    ensures patterns { TextsPass (is_used_by silences.new) patterns.new }
{
    silences.sweep(now);
    log.sweep(now);
    patterns.drop_unused(silences);
}

/// Checks each version in parts, by the policy for unknown fields, without keeping any.
///
/// # Errors
///
/// [`StepError::Frame`] for the first fault in the rows, or [`StepError::Memory`] if memory runs out.
fn judge_parts(alloc: Global, unknown: Unknown, parts: &[Part]) -> Result<(), StepError>
    ensures sound { OnOk result (first_fault (rows_in unknown parts.now) ≡ None) }
    ensures fault { IfErr result (IsJudgement (first_fault (rows_in unknown parts.now))) }
{
    for part in parts {
        judge_part(alloc, unknown, part)?;
    }
    Ok(())
}

#[tactic(auto, unfolding(crate::specs::Deliveries::rows_of))]
fn judge_part(alloc: Global, unknown: Unknown, part: &Part) -> Result<(), StepError>
    ensures sound { OnOk result (first_fault (rows_of unknown part.now) ≡ None) }
    ensures fault { IfErr result (IsJudgement (first_fault (rows_of unknown part.now))) }
{
    let row = part.bytes.as_slice();
    match part.key {
        StateKey::Sil => Ok(validate_row::<MeshSilence>(alloc, unknown, row)?),
        StateKey::Nfl => Ok(validate_row::<MeshEntry>(alloc, unknown, row)?),
    }
}

/// Returns an outcome in which nothing was made here.
pub(crate) fn outcome(alloc: Global, reply: Reply, outbox: FrameSender) -> Outcome
    ensures reply { result.reply ≡ reply }
    ensures sent { sent_by result ≡ outbox }
    ensures made { IsNothing result.made }
{
    let FrameSender { frames, unsent } = outbox;
    Outcome {
        reply,
        frames,
        unsent,
        made: Made {
            silences: Vec::new(alloc),
            log: None,
        },
    }
}
