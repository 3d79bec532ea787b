//! The reasons why members refuse events, and the records of refusals.

ghost use Rattle.std.specs.Prelude.{◌≡◌, ◌<◌, ℕ, OnErr, OnOk, Err, length};
ghost use Rattle.am_instance.specs.declared.reply.Reply.{Reply};
ghost use Rattle.am_cluster.specs.LineEvents.{asked_by};
ghost use Rattle.am_cluster.specs.declared.error.ClusterError.TheVariants as errors;
ghost use Rattle.am_cluster.specs.Lives.{OfMember};
ghost use Rattle.am_cluster.specs.Marks.{step_of_mark};
ghost use Rattle.am_cluster.specs.Refusals.{IsIdle, IsRefused, event_refusal, mark_of, names_peer, refused_anyway, start_refusal};
ghost use Rattle.am_cluster.specs.Reports.{IsPossibleForSilences};
ghost use Rattle.am_cluster.specs.Worlds.{written};

use crate::cluster::Cluster;
use crate::error::ClusterError;
use crate::journal::Mark;
use crate::member::ClusterMember;
use am_instance::Config;
use am_schedule::LineEvent;
use am_version_order::Moment;
use std::alloc::AllocError;

/// Returns the reason why a member refuses an event, or `None`. `known` says whether the member knows the peer. Nothing is
/// allocated.
pub(crate) fn event_refusal(
    member: &ClusterMember,
    known: bool,
    now: Moment,
) -> Option<ClusterError>
    ensures { result ≡ event_refusal known member.now now }
{
    let last = member.instance.last();
    if !member.runs {
        Some(ClusterError::Stopped)
    } else if now < last {
        Some(ClusterError::MomentBack { last })
    } else if known {
        None
    } else {
        Some(ClusterError::UnknownPeer)
    }
}

/// Returns the reason why a member refuses a start, or `None`. Nothing is allocated.
fn start_refusal(member: &ClusterMember, now: Moment) -> Option<ClusterError>
    ensures { result ≡ start_refusal member.now now }
{
    let last = member.instance.last();
    if member.runs {
        Some(ClusterError::Running)
    } else if now < last {
        Some(ClusterError::MomentBack { last })
    } else {
        None
    }
}

/// Returns whether a line names no peer, or one that is another member. Nothing is allocated.
fn names_peer(config: &Config, event: &LineEvent) -> bool
    ensures { result ≡ names_peer config.now (asked_by config.now event.now) }
{
    let peer = match event {
        LineEvent::From { peer, .. } | LineEvent::Pull { peer } => peer,
        _ => return true,
    };
    match config.place_named(peer.as_str()) {
        Some(place) => config.is_peer(place),
        None => false,
    }
}

/// Returns the reason why a member refuses what a line asks for, or `None`. Nothing is allocated.
fn refusal(member: &ClusterMember, event: &LineEvent, now: Moment) -> Option<ClusterError>
    ensures { result ≡ refused_anyway member.now (asked_by member.now.stand.config event.now) now }
{
    match event {
        LineEvent::Start => start_refusal(member, now),
        _ => event_refusal(member, names_peer(member.instance.config(), event), now),
    }
}

/// Returns the mark that records a refusal to the member at a place.
fn mark_of(cause: &ClusterError, place: usize, now: Moment) -> Mark
    ensures { result ≡ mark_of cause.now place now }
{
    match cause {
        ClusterError::MomentBack { .. } => Mark::Back { place, now },
        _ => Mark::Refused { now },
    }
}

impl Cluster {
    /// Returns the reason why the member at a place refuses what a line asks for, or `None`. Nothing is allocated.
    pub(crate) fn line_refusal(
        &self,
        place: usize,
        event: &LineEvent,
        now: Moment,
    ) -> Option<ClusterError>
        requires { place < length self.now.replicas }
        ensures { OfMember self.now place (λ replica. result ≡ refused_anyway replica (asked_by replica.stand.config event.now) now) }
    {
        refusal(&self.members[place], event, now)
    }

    /// Records a refusal.
    ///
    /// # Errors
    ///
    /// [`AllocError`] if there was no room for the record and memory runs out. Nothing has changed then.
    pub(crate) fn write_mark(&mut self, mark: Mark, line: u64) -> Result<(), AllocError>
        requires idle { IsIdle mark }
        requires possible { IsPossibleForSilences (length self.old.replicas) self.old.silences (step_of_mark mark) }
        ensures written { OnOk result (self.new ≡ written self.old (step_of_mark mark) (step_of_mark mark) line) }
        ensures unwritten { OnErr result (self.new ≡ self.old) }
        ensures without_room { OnErr result (self.old.room ≡ 0) }
    {
        self.journal.make_room(1)?;
        self.journal.mark(mark, line);
        Ok(())
    }

    /// Refuses a step for a reason.
    pub(crate) fn refuse(&mut self, cause: ClusterError, mark: Mark, line: u64) -> ClusterError
        requires idle { IsIdle mark }
        requires possible { IsPossibleForSilences (length self.old.replicas) self.old.silences (step_of_mark mark) }
        ensures { IsRefused {A = Reply} cause mark self.old line (Err result) self.new }
    {
        match self.write_mark(mark, line) {
            Ok(()) => cause,
            Err(_) => ClusterError::Memory,
        }
    }

    /// Refuses a step of the member at a place for a reason.
    pub(crate) fn refuse_at(
        &mut self,
        place: usize,
        cause: ClusterError,
        now: Moment,
        line: u64,
    ) -> ClusterError
        requires within { place < length self.old.replicas }
        requires late { (last : ℕ) → cause ≡ errors.MomentBack last → OfMember self.old place (λ replica. now < replica.stand.last) }
        ensures { IsRefused {A = Reply} cause (mark_of cause place now) self.old line (Err result) self.new }
    {
        self.consistency();
        let mark = mark_of(&cause, place, now);
        self.refuse(cause, mark, line)
    }
}
