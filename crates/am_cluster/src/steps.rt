//! The steps of a schedule.

ghost use Rattle.std.specs.Prelude.{◌≡◌, ◌<◌, IfOk, IfSome, length};
ghost use Rattle.am_cluster.specs.LineEvents.{IsSound, asked_by};
ghost use Rattle.am_cluster.specs.Lives.{OfMember};
ghost use Rattle.am_cluster.specs.Doing.{IsDone};
ghost use Rattle.am_cluster.specs.Steps.{Fits, IsStepped, place_in};

use crate::cluster::Cluster;
use crate::error::ClusterError;
use crate::journal::Mark;
use crate::line_events::to_event;
use crate::resolved_event::ResolvedEvent;
use am_instance::Reply;
use am_schedule::{Action, LineEvent, Step};
use am_version_order::Moment;
use std::alloc::AllocError;

impl Cluster {
    /// Returns the place of the member with this name.
    fn place_of(&self, name: &str) -> Option<usize>
        ensures named { result ≡ place_in self.now name.now }
        ensures within { IfSome result (λ place. place < length self.now.replicas) }
    {
        let member = self.members.first()?;
        let place = member.instance.config().place_named(name)?;
        Some(place as usize)
    }

    /// Returns what a line asks the member at a place to do.
    fn asked(&self, place: usize, event: &LineEvent) -> Result<ResolvedEvent, AllocError>
        requires { place < length self.now.replicas }
        ensures asked { IfOk result (λ asked. OfMember self.now place (λ replica. asked ≡ asked_by replica.stand.config event.now)) }
        ensures sound { IfOk result IsSound }
        ensures fits { IfOk result Fits }
    {
        to_event(self.alloc, self.members[place].instance.config(), event)
    }
}

impl Cluster {
    /// Lets the member at a place do what a line says.
    fn do_at(
        &mut self,
        place: usize,
        event: &LineEvent,
        now: Moment,
        line: u64,
    ) -> Result<Reply, ClusterError>
        requires { place < length self.old.replicas }
        ensures { OfMember self.old place
            (λ replica. IsDone self.old place replica (asked_by replica.stand.config event.now) now line result self.new) }
    {
        if let Some(cause) = self.line_refusal(place, event, now) {
            return Err(self.refuse_at(place, cause, now, line));
        }
        match self.asked(place, event)? {
            ResolvedEvent::Event { event, source } => self.apply_event(
                place, event, source, now, line,
            ),
            ResolvedEvent::Start => self.start_at(place, now, line),
            ResolvedEvent::NoMember => {
                Err(self.refuse(ClusterError::UnknownPeer, Mark::Refused { now }, line))
            }
        }
    }

    /// Makes the step in a line of a schedule, and returns the reply to its event.
    ///
    /// # Errors
    ///
    /// The first [`ClusterError`] that applies, in their order. [`ClusterError::Memory`] comes last, unless there was no
    /// room to record a refusal.
    pub fn step(&mut self, step: &Step, line: u64) -> Result<Reply, ClusterError>
        // PROMISE: A line of a schedule changes one member, the record and the frames in flight exactly as it says.
        ensures { IsStepped self.old step.now line result self.new }
    {
        match step.action() {
            Action::Event { at, name, event } => match self.place_of(name.as_str()) {
                Some(place) => self.do_at(place, event, *at, line),
                None => {
                    let mark = Mark::Refused { now: *at };
                    Err(self.refuse(ClusterError::UnknownPeer, mark, line))
                }
            },
            Action::Stop { name } => match self.place_of(name.as_str()) {
                Some(place) => self.stop_at(place, line),
                None => Err(ClusterError::UnknownPeer),
            },
            Action::Save { name } => match self.place_of(name.as_str()) {
                Some(place) => self.save_at(place, line),
                None => Err(ClusterError::UnknownPeer),
            },
            Action::Deliver { at, frame } => self.deliver(*frame, *at, line),
            Action::Lose { frame } => self.lose(*frame),
        }
    }
}
