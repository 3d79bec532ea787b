//! An instance, and its step.

ghost use Rattle.std.specs.Prelude.{◌≡◌, ◌+◌, ◌*◌, ◌≤◌, OnOk, IfErr};
ghost use Rattle.std.specs.Option.{SomeIff};
ghost use Rattle.am_version_order.specs.Moments.{greatest};
ghost use Rattle.am_instance.specs.OneStep.{IsStep};
ghost use Rattle.am_instance.specs.Steps.{IsAdmitted, IsUnadmitted, IsWork, counts, peer_of};

use crate::config::Config;
use crate::event::Event;
use crate::reply::Outcome;
use am_gossip::{Place, StepError};
use am_matcher::PatternCache;
use am_merge::Held;
use am_nflog::MeshEntry;
use am_silence::MeshSilence;
use am_version_order::Moment;
use std::alloc::Global;
use std::marker::Model;

/// An instance: its configuration, the silences and the notification log that it holds, and the moment of its last event.
pub struct Instance {
    pub(crate) alloc: Global,
    pub(crate) config: Config,
    pub(crate) silences: Held<MeshSilence>,
    pub(crate) log: Held<MeshEntry>,
    /// The compiled patterns of silences.
    pub(crate) patterns: PatternCache,
    last: Moment,
}

// With this the crates above cite one drop, and don't prove those of everything inside.
impl Drop for Instance {
    fn drop(self) {
        let Instance {
            alloc: _,
            config: _,
            silences: _,
            log: _,
            patterns: _,
            last: _,
        } = self;
    }
}

impl Model for Instance {
    ghost use Rattle.am_instance.specs.InstanceStates.{InstanceState};

    ghost Value = { InstanceState };

    ghost view = { λ i. record { config = i.config; silences = i.silences; log = i.log; last = i.last } };
}

impl Instance {
    /// Returns an instance that holds these maps, with `now` as the moment of its last event. Nothing is allocated.
    pub fn start(
        config: Config,
        silences: Held<MeshSilence>,
        log: Held<MeshEntry>,
        now: Moment,
    ) -> Instance
        ensures config { result.config ≡ config }
        ensures silences { result.silences ≡ silences }
        ensures log { result.log ≡ log }
        ensures last { result.last ≡ now }
    {
        let alloc = silences.allocator();
        Instance {
            alloc,
            config,
            silences,
            log,
            patterns: PatternCache::new(alloc),
            last: now,
        }
    }

    /// Returns the silences that are held, live or not. Nothing is allocated.
    pub fn silences(&self) -> &Held<MeshSilence>
        ensures { result.now ≡ self.now.silences }
    {
        &self.silences
    }

    /// Returns the entries of the log that are held, live or not. Nothing is allocated.
    pub fn log(&self) -> &Held<MeshEntry>
        ensures { result.now ≡ self.now.log }
    {
        &self.log
    }

    /// Returns the moment of the last event. Nothing is allocated.
    pub fn last(&self) -> Moment
        ensures { result ≡ self.now.last }
    {
        self.last
    }

    /// Returns the configuration. Nothing is allocated.
    pub fn config(&self) -> &Config
        ensures { result.now ≡ self.now.config }
    {
        &self.config
    }

    /// Returns the compiled patterns, of any dialect. Answers don't depend on them. Nothing is allocated.
    pub fn patterns(&self) -> &PatternCache {
        &self.patterns
    }

    /// Replaces the compiled patterns, and returns the previous ones. Answers don't depend on them. Nothing is allocated.
    pub fn swap_patterns(&mut self, patterns: PatternCache) -> PatternCache
        ensures same { self.new ≡ self.old }
    {
        std::mem::replace(&mut self.patterns, patterns)
    }

    /// Returns the moment when this instance is due if it began to wait at `start`, or `None` if that is past
    /// [`Moment::GREATEST`]. Nothing is allocated.
    pub fn due_from(&self, start: Moment) -> Option<Moment>
        ensures { SomeIff result (start + self.now.config.place * self.now.config.peer_timeout ≤ greatest)
            (start + self.now.config.place * self.now.config.peer_timeout) }
    {
        self.config.due_from(start)
    }

    /// Answers one event in one step.
    ///
    /// # Errors
    ///
    /// The first [`StepError`] that applies, in their order. Memory may run out before the fault of a frame is found. A
    /// refused event changes nothing, unless memory ran out: then its moment counts, and the versions that were taken stay.
    pub fn step(&mut self, event: Event, now: Moment) -> Result<Outcome, StepError>
        // PROMISE: An event is refused for its first fault, or it is one step with exactly these changes, frames and reply.
        ensures { IsStep self.old event now result self.new }
    {
        self.admit(&event, now)?;
        let answer = self.work(event, now);
        self.silences.has_values();
        self.log.has_values();
        if counts(&answer) {
            self.last = now;
        }
        answer
    }

    /// Checks that the moment isn't before the last one, and that a place is that of a peer.
    fn admit(&self, event: &Event, now: Moment) -> Result<(), StepError>
        ensures admitted { OnOk result (IsAdmitted self.now event.now now) }
        ensures refused { IfErr result (IsUnadmitted self.now event.now now) }
    {
        if now < self.last {
            return Err(StepError::MomentBack { last: self.last });
        }
        match peer_of(event) {
            Some(place) if !self.config.is_peer(place) => Err(StepError::UnknownPeer),
            _ => Ok(()),
        }
    }

    /// Does what an event asks for. The caller sets the moment.
    fn work(&mut self, event: Event, now: Moment) -> Result<Outcome, StepError>
        ensures { IsWork self.old event now result self.new }
    {
        match event {
            Event::Request(request) => self.answer(request, now),
            Event::Frame { sender, frame } => self.receive(sender, frame, now),
            Event::Notified {
                group_key,
                receiver,
                firing,
                resolved,
                repeat,
            } => self.note(group_key, receiver, firing, resolved, repeat, now),
            Event::Decide {
                group_key,
                receiver,
                firing,
                resolved,
                repeat,
                send_resolved,
            } => self.decide(
                &group_key,
                &receiver,
                &firing,
                &resolved,
                repeat,
                send_resolved,
                now,
            ),
            Event::Mutes { labels } => self.mute(&labels, now),
            Event::Show => self.show(now),
            Event::Tick => Ok(self.collect(now)),
            Event::PullFrom(place) => Ok(self.pull_from(place, now)),
        }
    }
}

/// Returns the place of the peer that an event names, or `None` if it names none.
fn peer_of(event: &Event) -> Option<Place>
    ensures { result ≡ peer_of event.now }
{
    match event {
        Event::Frame { sender, .. } => Some(*sender),
        Event::PullFrom(place) => Some(*place),
        _ => None,
    }
}

/// Returns whether the moment of an event counts, which is so if it was answered or memory ran out.
fn counts(answer: &Result<Outcome, StepError>) -> bool
    ensures { result ≡ counts answer.now }
{
    matches!(answer, Ok(_) | Err(StepError::Memory { .. }))
}
