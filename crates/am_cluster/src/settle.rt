//! Settles of the members of a cluster.

ghost use Rattle.std.specs.Prelude.{◌≡◌, ◌≢◌, [], ◌∷◌, ◌<◌, ◌≤◌, ◌↔◌, ℕ, None, Some, All, IsTrue, IfOk, OnErr, OnOk, length, map, slice_get, true};
ghost use Rattle.am_wire.specs.declared.unknown.Unknown.{Unknown};
ghost use Rattle.am_wire.specs.declared.unknown.Unknown.TheVariants.{Drop};
ghost use Rattle.am_silence.specs.Mesh.{mesh_version};
ghost use Rattle.am_nflog.specs.Mesh.{mesh_version as entry_version};
ghost use Rattle.am_gossip.specs.declared.frame.Frame.TheVariants as frames;
ghost use Rattle.am_wire.specs.Limits.{most};
ghost use Rattle.am_snapshot.specs.Encodings.{row_encoding};
ghost use Rattle.am_instance.specs.Configs.{Settings};
ghost use Rattle.am_instance.specs.Deliveries.Delivery.{OfEntry, OfSilence};
ghost use Rattle.am_instance.specs.InstanceStates.{HoldsWhole};
ghost use Rattle.am_instance.specs.Laws.{HasMaps};
ghost use Rattle.am_instance.specs.Sendings.{whole_state};
ghost use Rattle.am_instance.specs.Steps.{fault_of};
ghost use Rattle.am_cluster.specs.BothStates.{log_state, silence_state};
ghost use Rattle.am_cluster.specs.Contents.{IsReadable};
ghost use Rattle.am_runs.specs.declared.step.DeliverySource.TheVariants.{Lent};
ghost use Rattle.am_runs.specs.Members.{last_of, member_of};
ghost use Rattle.am_cluster.specs.Recorded.{HasSource};
ghost use Rattle.am_cluster.specs.Lives.{OfMember};
ghost use Rattle.am_cluster.specs.Settling.{AreTurns, CanLend, CanSettle, HasBacks, HasLate, HasSettled, HasStopped};
ghost use Rattle.am_cluster.specs.Settling.{IsAdmitted, IsSettle, all_turns, collections, gatherings};
ghost use Rattle.am_cluster.specs.Settling.{late_places, loan, spreadings, with_backs};
ghost use Rattle.am_cluster.specs.Settling.Turn.{Collects, Takes};
ghost use Rattle.am_cluster.specs.Worlds.{Replica, with_room};

use crate::carried::laws::what_keeps_its_limit_is_readable;
use crate::cluster::Cluster;
use crate::error::SettleError;
use crate::journal::{Journal, Mark};
use crate::member::ClusterMember;
use crate::step_laws::lent_maps_come_from_their_lender;
use am_gossip::Frame;
use am_instance::{Event, Instance, Place, whole_state};
use am_runs::DeliverySource;
use am_version_order::Moment;
use std::alloc::{AllocError, Global};

/// Returns a frame with both maps of an instance. The result is [`AllocError`] also if the row of one of them has more than
/// 67,108,864 bytes.
fn frame_of(alloc: Global, instance: &Instance) -> Result<Frame, AllocError>
    requires drops { instance.now.config.unknown ≡ Drop }
    requires whole { HoldsWhole instance.now }
    ensures frame { IfOk result (λ frame. frame ≡ frames.Pull (whole_state instance.now.silences instance.now.log)) }
    ensures silences { OnOk result ((unknown : Unknown) → All (IsReadable unknown) (map OfSilence instance.now.silences)) }
    ensures log { OnOk result ((unknown : Unknown) → All (IsReadable unknown) (map OfEntry instance.now.log)) }
    ensures silences_fit { OnOk result (length (row_encoding mesh_version instance.now.silences) ≤ most) }
    ensures log_fit { OnOk result (length (row_encoding entry_version instance.now.log) ≤ most) }
    ensures maps { HasMaps instance.now }
{
    what_keeps_its_limit_is_readable();
    instance.silences().has_values();
    instance.log().has_values();
    let state = whole_state(alloc, instance.silences(), instance.log())?;
    Ok(Frame::Pull(state))
}

impl Cluster {
    /// Returns the event by which a member takes the maps of the one at a place, which runs.
    fn lent_by(&self, lender: usize) -> Result<Event, AllocError>
        requires within { lender < length self.now.replicas }
        requires runs { OfMember self.now lender (λ lent. lent.runs ≡ true) }
        ensures event { IfOk result (λ event. OfMember self.now lender (λ lent. event ≡ loan lender lent.stand)) }
        ensures lendable { OnOk result (OfMember self.now lender (λ lent. CanLend lent.stand)) }
        ensures sound { IfOk result (λ event. (settings : Settings) (now : ℕ) → fault_of settings now event ≡ None) }
        ensures silences { IfOk result (λ event. (now : ℕ) →
            HasSource silence_state Drop (length self.now.replicas) self.now.silences now event (Lent lender)) }
        ensures log { IfOk result (λ event. (now : ℕ) →
            HasSource log_state Drop (length self.now.replicas) self.now.log now event (Lent lender)) }
    {
        lent_maps_come_from_their_lender();
        let frame = frame_of(self.alloc, &self.members[lender].instance)?;
        Ok(Event::Frame {
            sender: lender as Place,
            frame,
        })
    }
}

impl Cluster {
    /// Lets the member at a place collect.
    fn collect_at(&mut self, place: usize, now: Moment, line: u64) -> Result<(), SettleError>
        requires within { place < length self.old.replicas }
        requires ready { CanSettle self.old now }
        ensures { AreTurns self.old (Collects place ∷ []) now line result self.new }
    {
        match self.apply_event(place, Event::Tick, DeliverySource::Made, now, line) {
            Ok(_reply) => Ok(()),
            Err(_) => Err(SettleError::Memory),
        }
    }

    /// Lets a member take the maps of another.
    fn take_from(
        &mut self,
        borrower: usize,
        lender: usize,
        now: Moment,
        line: u64,
    ) -> Result<(), SettleError>
        requires borrower { borrower < length self.old.replicas }
        requires lender { lender < length self.old.replicas }
        requires other { borrower ≢ lender }
        requires ready { CanSettle self.old now }
        ensures { AreTurns self.old (Takes borrower lender ∷ []) now line result self.new }
    {
        let _ = &self.alloc;
        let event = self.lent_by(lender)?;
        match self.apply_event(borrower, event, DeliverySource::Lent(lender), now, line) {
            Ok(_reply) => Ok(()),
            Err(_) => Err(SettleError::Memory),
        }
    }

    /// Returns the number of members.
    pub(crate) fn count(&self) -> usize
        ensures { result ≡ length self.now.replicas }
    {
        self.members.len()
    }

    /// Lets every member collect.
    fn collect_all(&mut self, now: Moment, line: u64) -> Result<(), SettleError>
        requires ready { CanSettle self.old now }
        ensures { AreTurns self.old (collections (length self.old.replicas)) now line result self.new }
    {
        for place in 0..self.count() {
            self.collect_at(place, now, line)?;
        }
        Ok(())
    }

    /// Lets the first member take the maps of all others, in their order.
    fn gather(&mut self, now: Moment, line: u64) -> Result<(), SettleError>
        requires ready { CanSettle self.old now }
        ensures { AreTurns self.old (gatherings (length self.old.replicas)) now line result self.new }
    {
        for place in 1..self.count() {
            self.take_from(0, place, now, line)?;
        }
        Ok(())
    }

    /// Lets each other member take the maps of the first.
    fn spread(&mut self, now: Moment, line: u64) -> Result<(), SettleError>
        requires ready { CanSettle self.old now }
        ensures { AreTurns self.old (spreadings (length self.old.replicas)) now line result self.new }
    {
        for place in 1..self.count() {
            self.take_from(place, 0, now, line)?;
        }
        Ok(())
    }

    /// Makes all turns of a settle.
    fn make_turns(&mut self, now: Moment, line: u64) -> Result<(), SettleError>
        requires ready { CanSettle self.old now }
        ensures { AreTurns self.old (all_turns (length self.old.replicas)) now line result self.new }
    {
        self.collect_all(now, line)?;
        self.gather(now, line)?;
        self.spread(now, line)
    }
}

/// Returns whether a member is stopped.
fn has_stopped(members: &[ClusterMember]) -> bool
    ensures { IsTrue result ↔ HasStopped members.now }
{
    members.iter().any(|member| !member.runs)
}

/// Returns whether the last moment of any member is after this one.
fn has_late(members: &[ClusterMember], now: Moment) -> bool
    ensures { IsTrue result ↔ HasLate now members.now }
{
    members.iter().any(|member| now < member.instance.last())
}

/// Records the refusal of a step with this moment by each member whose last moment is after it. Nothing is allocated.
fn mark_late(journal: &mut Journal, members: &[ClusterMember], now: Moment, line: u64)
    requires room { length members.now ≤ journal.old.room }
    requires told { (place : ℕ) (replica : Replica) → slice_get members.now place ≡ Some replica →
        replica.stand.last ≡ last_of (member_of journal.old.members place journal.old.silences) }
    ensures { HasBacks journal.old (late_places members.now now) now line journal.new }
{
    for place in 0..members.len() {
        let member = &members[place];
        if now < member.instance.last() {
            journal.mark(Mark::Back { place, now }, line);
        }
    }
}

impl Cluster {
    /// Records the refusal of a settle by each member whose last moment is after it.
    fn refuse_late(&mut self, now: Moment, line: u64) -> Result<(), AllocError>
        ensures backs { OnOk result
            (self.new ≡ with_backs (with_room self.old (length self.old.replicas)) (late_places self.old.replicas now) now line) }
        ensures unwritten { OnErr result (self.new ≡ self.old) }
        ensures without_room { OnErr result (self.old.room < length self.old.replicas) }
    {
        self.journal.make_room(self.members.len())?;
        mark_late(&mut self.journal, &self.members, now, line);
        Ok(())
    }

    /// Checks that all members can settle, and makes a record if they can't or there are none.
    fn admit(&mut self, now: Moment, line: u64) -> Result<(), SettleError>
        ensures { IsAdmitted self.old now line result self.new }
    {
        if has_stopped(&self.members) {
            self.write_mark(Mark::Refused { now }, line)?;
            return Err(SettleError::Stopped);
        }
        if has_late(&self.members, now) {
            self.refuse_late(now, line)?;
            return Err(SettleError::MomentBack);
        }
        if self.members.is_empty() {
            self.write_mark(Mark::Refused { now }, line)?;
        }
        Ok(())
    }

    /// Lets every member collect, the first member by name take the maps of all others in their order, and then each other
    /// member take the maps of the first. Afterwards all of them hold the join of everything live that any of them held.
    /// Each taking counts as a delivery, and none of its frames is sent. If there is no member, only the moment is
    /// recorded.
    ///
    /// # Errors
    ///
    /// The first [`SettleError`] that applies, in their order. [`SettleError::Memory`] is also returned if there was no
    /// room to record a refusal, and nothing has changed then, or if the row of a map that is to be taken has more than
    /// 67,108,864 bytes.
    pub fn settle(&mut self, now: Moment, line: u64) -> Result<(), SettleError>
        ensures settled { IsSettle self.old now line result self.new }
        // PROMISE: After a settle all members hold the greatest live version of each key that any of them held.
        ensures joined { OnOk result (HasSettled self.old now self.new) }
    {
        self.admit(now, line)?;
        self.make_turns(now, line)
    }
}
