//! Notifications of groups, and the questions that come before them.

ghost use Rattle.std.specs.Prelude.{◌≡◌, [], Some, OnErr, IfOk, IfErr};
ghost use Rattle.am_instance.specs.declared.event.Event.TheVariants as events;
ghost use Rattle.am_gossip.specs.declared.refusals.StepError.TheVariants as errors;
ghost use Rattle.am_instance.specs.declared.reply.Reply.TheVariants as replies;
ghost use Rattle.am_instance.specs.Configs.{peers_but};
ghost use Rattle.am_instance.specs.Changes.{only_if};
ghost use Rattle.am_instance.specs.Deliveries.Delivery.{OfEntry};
ghost use Rattle.am_instance.specs.Sendings.{Sends, deltas_to, sent_by};
ghost use Rattle.am_instance.specs.Steps.{IsLoggedHere, IsWork, is_changed};

use crate::frame_sender::FrameSender;
use crate::instance::Instance;
use crate::reply::{Made, Outcome, Reply};
use crate::requests::{is_changed, quiet};
use crate::views::{entry_in_view, log_shown, silences_shown};
use am_dedup::decide_over;
use am_gossip::{StateKey, StepError};
use am_matcher::Labels;
use am_merge::Taken;
use am_nflog::{Hashes, LogKey, MeshEntry, Receiver, make_entry};
use am_version_order::{Interval, Moment, Version};
use am_wire::Bytes;
use std::alloc::Global;

impl Instance {
    /// Records that a group was notified.
    pub(crate) fn note(
        &mut self,
        group_key: Bytes,
        receiver: Receiver,
        firing: Hashes,
        resolved: Hashes,
        repeat: Interval,
        now: Moment,
    ) -> Result<Outcome, StepError>
        ensures { IsWork self.old (events.Notified group_key receiver firing resolved repeat) now result self.new }
    {
        let retention = self.config.retention();
        let entry = make_entry(
            self.alloc, group_key, receiver, firing, resolved, repeat, retention, now,
        )?;
        match entry {
            Some(entry) => self.put_entry(entry, now),
            None => Ok(quiet(self.alloc, Reply::Logged(false))),
        }
    }

    /// Takes an entry that was made here, and sends it on if it changes the log.
    fn put_entry(&mut self, entry: MeshEntry, now: Moment) -> Result<Outcome, StepError>
        ensures put { IfOk result (λ outcome. IsLoggedHere self.old entry now outcome self.new) }
        ensures err { IfErr result (λ e. e ≡ errors.Memory 0) }
        ensures unchanged { OnErr result (self.new ≡ self.old) }
    {
        let copy = entry.try_clone(self.alloc)?;
        let taken = self.log.take(entry, now)?;
        let mut outbox = FrameSender::new(self.alloc);
        self.send_entry_on(taken, &copy, &mut outbox);
        Ok(logged_outcome(self.alloc, is_changed(taken), outbox, copy))
    }

    /// Sends an entry that was made here to all peers, if taking it changed the log.
    fn send_entry_on(&self, taken: Taken, entry: &MeshEntry, outbox: &mut FrameSender)
        ensures { Sends (deltas_to (peers_but self.now.config self.now.config.place)
            (only_if (is_changed taken) (OfEntry entry.now))) outbox.old outbox.new }
    {
        if is_changed(taken) {
            outbox.send_version(
                self.route(self.config.place()),
                StateKey::Nfl,
                entry.canonical(),
            );
        }
    }

    /// Decides whether a group is to be notified.
    pub(crate) fn decide(
        &self,
        group_key: &Bytes,
        receiver: &Receiver,
        firing: &Hashes,
        resolved: &Hashes,
        repeat: Interval,
        send_resolved: bool,
        now: Moment,
    ) -> Result<Outcome, StepError>
        ensures { IsWork self.now (events.Decide group_key.now receiver.now firing.now resolved.now repeat send_resolved) now
            result self.now }
    {
        let key = LogKey::new(self.alloc, group_key.as_slice(), receiver)?;
        let decision = decide_over(
            entry_in_view(&self.log, &key, now),
            firing.as_slice(),
            resolved.as_slice(),
            repeat,
            send_resolved,
            now,
        );
        Ok(quiet(self.alloc, Reply::Decided(decision)))
    }

    /// Answers with the silences that mute an alert.
    pub(crate) fn mute(&mut self, labels: &Labels, now: Moment) -> Result<Outcome, StepError>
        ensures { IsWork self.old (events.Mutes labels.now) now result self.new }
    {
        let dialect = self.config.dialect();
        let muted = self
            .patterns
            .mutes_in(dialect, &self.silences, labels, now)?;
        Ok(quiet(self.alloc, Reply::Muted(muted)))
    }

    /// Answers with both views.
    pub(crate) fn show(&self, now: Moment) -> Result<Outcome, StepError>
        ensures { IsWork self.now events.Show now result self.now }
    {
        let silences = silences_shown(self.alloc, &self.silences, &mut Vec::new(self.alloc), now)?;
        let log = log_shown(self.alloc, &self.log, now)?;
        Ok(quiet(self.alloc, Reply::Shown { silences, log }))
    }
}

/// Returns an outcome in which this entry was made here.
fn logged_outcome(alloc: Global, is_changed: bool, outbox: FrameSender, entry: MeshEntry) -> Outcome
    ensures reply { result.reply ≡ replies.Logged is_changed }
    ensures sent { sent_by result ≡ outbox }
    ensures silences { result.made.silences.items ≡ [] }
    ensures log { result.made.log ≡ Some entry }
{
    let FrameSender { frames, unsent } = outbox;
    Outcome {
        reply: Reply::Logged(is_changed),
        frames,
        unsent,
        made: Made {
            silences: Vec::new(alloc),
            log: Some(entry),
        },
    }
}
