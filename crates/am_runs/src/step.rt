//! The steps of a run.

ghost use Rattle.std.specs.Prelude.{◌≡◌, ◌==◌, ℕ, false, length, MatchOption};
ghost use Rattle.am_runs.specs.Records.{step_of};
ghost use Rattle.am_runs.specs.Steps.{is_at, moment, delivered_by, flights_by};

use am_version_order::Moment;

/// The source of the versions that a step delivers.
#[derive(Clone, Copy, PartialEq, Eq)]
pub enum DeliverySource {
    /// The step made them.
    Made,
    /// They were written into a frame that counts as sent at this moment, the least update moment of all its versions, including
    /// those left out for want of memory.
    Written(Moment),
    /// They came in the frame with this number among all that were ever sent, counted from 0.
    Arrived(usize),
    /// The member at this place lent them from its current map.
    Lent(usize),
}

/// The effect of a step on the versions of one type.
#[derive(Drop)]
pub enum RunStep<V> {
    /// An event of a member: the versions that it delivered, in order, and the versions in each frame that it sent.
    Took {
        place: usize,
        now: Moment,
        source: DeliverySource,
        versions: Vec<V>,
        frames: Vec<Vec<V>>,
    },
    /// A member collected.
    Ticked {
        place: usize,
        now: Moment,
    },
    /// A step was refused to a member, because its moment is before that member's last one.
    Back {
        place: usize,
        now: Moment,
    },
    /// A step was refused for another cause.
    Refused {
        now: Moment,
    },
    /// A member's copy was saved.
    Saved {
        place: usize,
    },
    /// A member was stopped.
    Stopped {
        place: usize,
    },
    /// A member was started from its saved copy, or from nothing if none was saved.
    Started {
        place: usize,
        now: Moment,
    },
}

impl<V> RunStep<V> {
    /// Returns whether this is a step of the member.
    pub fn is_at(&self, member: usize) -> bool
        ensures { result ≡ is_at member (step_of self.now) }
    {
        match self {
            RunStep::Took { place, .. }
            | RunStep::Ticked { place, .. }
            | RunStep::Back { place, .. }
            | RunStep::Saved { place }
            | RunStep::Stopped { place }
            | RunStep::Started { place, .. } => *place == member,
            RunStep::Refused { .. } => false,
        }
    }

    /// Returns the place of the member whose step this is.
    pub fn place(&self) -> Option<usize>
        ensures { MatchOption result ((q : ℕ) → is_at q (step_of self.now) ≡ false) (λ place. (q : ℕ) →
            is_at q (step_of self.now) ≡ (place == q)) }
    {
        match self {
            RunStep::Took { place, .. }
            | RunStep::Ticked { place, .. }
            | RunStep::Back { place, .. }
            | RunStep::Saved { place }
            | RunStep::Stopped { place }
            | RunStep::Started { place, .. } => Some(*place),
            RunStep::Refused { .. } => None,
        }
    }

    /// Returns the moment written in the step.
    pub fn moment(&self) -> Option<Moment>
        ensures { result ≡ moment (step_of self.now) }
    {
        match self {
            RunStep::Took { now, .. }
            | RunStep::Ticked { now, .. }
            | RunStep::Back { now, .. }
            | RunStep::Refused { now }
            | RunStep::Started { now, .. } => Some(*now),
            RunStep::Saved { .. } | RunStep::Stopped { .. } => None,
        }
    }

    /// Returns the versions that the step delivered.
    pub fn versions(&self) -> &[V]
        ensures { result.now ≡ delivered_by (step_of self.now) }
    {
        match self {
            RunStep::Took { versions, .. } => versions.as_slice(),
            _ => &[],
        }
    }

    /// Returns the number of frames that the step sent.
    pub fn sendings(&self) -> usize
        ensures { result ≡ length (flights_by (step_of self.now)) }
    {
        match self {
            RunStep::Took { frames, .. } => frames.len(),
            _ => 0,
        }
    }
}
