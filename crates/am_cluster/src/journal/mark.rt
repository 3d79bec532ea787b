//! Steps in which no version came and no frame was sent.

ghost use Rattle.std.specs.Prelude.{◌≡◌};
ghost use Rattle.am_runs.specs.Records.{step_of};
ghost use Rattle.am_cluster.specs.Marks.{step_of_mark};

use am_runs::RunStep;
use am_version_order::Moment;

/// A step in which no version came and no frame was sent.
#[derive(Clone, Copy)]
pub enum Mark {
    /// A member collected.
    Ticked { place: usize, now: Moment },
    /// A member refused the step, since its moment was before that member's last one.
    Back { place: usize, now: Moment },
    /// The step was refused for another reason.
    Refused { now: Moment },
    /// A member was saved.
    Saved { place: usize },
    /// A member was stopped.
    Stopped { place: usize },
    /// A member was started from its saved copy, or empty if there was none.
    Started { place: usize, now: Moment },
}

impl Mark {
    /// Returns the record of the step for versions of any type.
    pub(super) fn step<V>(&self) -> RunStep<V>
        ensures { step_of result ≡ step_of_mark self.now }
    {
        match *self {
            Mark::Ticked { place, now } => RunStep::Ticked { place, now },
            Mark::Back { place, now } => RunStep::Back { place, now },
            Mark::Refused { now } => RunStep::Refused { now },
            Mark::Saved { place } => RunStep::Saved { place },
            Mark::Stopped { place } => RunStep::Stopped { place },
            Mark::Started { place, now } => RunStep::Started { place, now },
        }
    }
}
