//! The counts of frames, links and saves.

ghost use Rattle.std.specs.Prelude.{◌≡◌, ◌+◌};
ghost use Rattle.am_instance.specs.Sendings.{capped};
ghost use Rattle.am_backend.specs.Stores.{store_of};

use crate::system_backend::SystemBackend;
use am_gossip::Frame;
use am_instance::{Place, Unsent};
use am_metrics::{
    CauseLabel, DecisionLabel, Failing, Metrics, RequestLabel, SavedState, StepLabel, VersionKind,
    WithheldBy,
};
use am_reactor::LinkFault;
use std::rt::Clock;
use std::time::{Duration, Instant};

/// Returns the kind that a frame is counted as.
fn kind_of_frame(frame: &Frame) -> VersionKind {
    match frame {
        Frame::Delta(_) => VersionKind::Update,
        Frame::Push(_) | Frame::Pull(_) => VersionKind::FullState,
        Frame::Tick => VersionKind::Tick,
    }
}

/// Returns the step by which a frame is taken, if there is one.
fn step_of_frame(frame: &Frame) -> Option<StepLabel> {
    match frame {
        Frame::Delta(_) => Some(StepLabel::Delta),
        Frame::Push(_) | Frame::Pull(_) => Some(StepLabel::State),
        Frame::Tick => None,
    }
}

/// Returns the cause that a fault of a link is counted as.
pub(crate) fn cause_of(fault: LinkFault) -> CauseLabel {
    match fault {
        LinkFault::Connect(_) | LinkFault::NoPeer => CauseLabel::Connect,
        LinkFault::Write { .. } | LinkFault::Read { .. } | LinkFault::Unanswered { .. } => {
            CauseLabel::Write
        }
        LinkFault::Time { .. } => CauseLabel::Time,
        LinkFault::Full | LinkFault::TooLong => CauseLabel::Full,
        LinkFault::Memory => CauseLabel::Memory,
    }
}

/// Returns what the clock says, as the time since 1970, or 0 if it can't be read.
pub fn since_1970<C: Clock>(clock: &C) -> Duration {
    clock.since_1970().unwrap_or(Duration::ZERO)
}

/// Something that a member counts, beside what it sends.
#[derive(Clone, Copy)]
pub enum Counted<'a> {
    /// A connection began.
    Begun,
    /// A connection ended.
    Ended,
    /// A connection wasn't accepted.
    NotAccepted,
    /// A connection failed.
    Failed(Failing),
    /// A request was answered with a status, in three digits, after some time.
    Answered(RequestLabel, &'a [u8], Duration),
    /// Steps were made.
    Steps(StepLabel, u64),
    /// A decision was answered.
    Decided(DecisionLabel),
    /// Frames of the peer at a place came.
    Frames(Place, &'a [Frame]),
    /// Something that came from a place was taken, when the clock said this, as the time since 1970.
    Heard(usize, Duration),
    /// An exchange with the Alertmanager at a place was over, which lacked this many versions.
    Lacked(usize, u64),
    /// A silence isn't sent to the Alertmanager at a place.
    Withheld(usize, WithheldBy),
}

/// Counts the frames of a peer.
fn count_frames(figures: &mut Metrics, place: Place, frames: &[Frame])
    ensures memory { figures.new.unsent_memory ≡ figures.old.unsent_memory }
    ensures limit { figures.new.unsent_limit ≡ figures.old.unsent_limit }
{
    figures.heard.take(place as usize, frames.len() as u64);
    for frame in frames {
        figures.take(kind_of_frame(frame));
        if let Some(step) = step_of_frame(frame) {
            figures.step(step, 1);
        }
    }
}

/// Adds to the figures what happened.
pub(crate) fn count(figures: &mut Metrics, counted: Counted<'_>)
    ensures memory { figures.new.unsent_memory ≡ figures.old.unsent_memory }
    ensures limit { figures.new.unsent_limit ≡ figures.old.unsent_limit }
{
    match counted {
        Counted::Begun => figures.begin(),
        Counted::Ended => figures.end(),
        Counted::NotAccepted => figures.miss(),
        Counted::Failed(failing) => figures.fail(failing),
        Counted::Answered(request, status, time) => figures.answer(request, status, time),
        Counted::Steps(step, count) => figures.step(step, count),
        Counted::Decided(decision) => figures.decide(decision),
        Counted::Frames(place, frames) => count_frames(figures, place, frames),
        Counted::Heard(place, since_1970) => figures.heard.hear(place, since_1970),
        Counted::Lacked(place, count) => figures.beside.lack(place, count),
        Counted::Withheld(place, cause) => figures.beside.withhold(place, cause),
    }
}

/// Counts frames that aren't sent, for want of memory and by the limit of their kind.
pub(crate) fn count_unsent(figures: &mut Metrics, unsent: Unsent)
    ensures memory { figures.new.unsent_memory ≡ capped (figures.old.unsent_memory + unsent.memory) }
    ensures limit { figures.new.unsent_limit ≡ capped (figures.old.unsent_limit + unsent.limit) }
{
    figures.unsent_memory = figures.unsent_memory.saturating_add(unsent.memory as u64);
    figures.unsent_limit = figures.unsent_limit.saturating_add(unsent.limit as u64);
}

/// Counts frames that are handed to the link of a peer.
pub(crate) fn count_handed(figures: &mut Metrics, place: Place, frames: &[Frame]) {
    figures.heard.hand_on(place as usize, frames.len() as u64);
    for frame in frames {
        figures.send(kind_of_frame(frame));
    }
}

impl<R: Clock> SystemBackend<'_, R> {
    /// Counts that a save begins.
    pub(crate) fn count_save_begun(&mut self, state: SavedState)
        ensures store { store_of self.new ≡ store_of self.old }
        ensures queue { self.new.queue ≡ self.old.queue }
        ensures lock { self.new.lock ≡ self.old.lock }
    {
        let now = Instant::now(self.rt).ok();
        self.figures.begin_save(state, now);
    }

    /// Counts a save that was made now.
    pub(crate) fn count_save_done(&mut self, state: SavedState)
        ensures store { store_of self.new ≡ store_of self.old }
        ensures queue { self.new.queue ≡ self.old.queue }
        ensures lock { self.new.lock ≡ self.old.lock }
    {
        let now = Instant::now(self.rt).ok();
        let since_1970 = since_1970(self.rt);
        self.figures.end_save(state, now, since_1970);
    }

    /// Counts a save that failed.
    pub(crate) fn count_save_failed(&mut self, state: SavedState)
        ensures store { store_of self.new ≡ store_of self.old }
        ensures queue { self.new.queue ≡ self.old.queue }
        ensures lock { self.new.lock ≡ self.old.lock }
    {
        self.figures.fail_save(state);
    }
}
