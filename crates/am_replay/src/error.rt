//! The reasons why a schedule isn't played.

ghost use Rattle.std.specs.Prelude.{◌≡◌};

use am_schedule::{FaultKind, ScheduleError};
use std::alloc::AllocError;
use thiserror::Error;

/// The reason why a schedule isn't played, or its output isn't written: the first fault that occurs.
#[derive(Clone, Copy, Debug, Error)]
pub enum ReplayError {
    #[error("a read failed after {at} bytes")]
    Read { at: usize },
    /// The schedule has a fault in one of its lines.
    #[error("{0}")]
    Schedule(ScheduleError),
    #[error("the schedule is too large")]
    TooLarge,
    /// Memory ran out at this line of the schedule. The line is 0 if it ran out while the schedule was read, before the
    /// first line was played, or after the last one.
    #[error("out of memory at line {line}")]
    Memory { line: u64 },
    #[error("a write failed after {written} bytes")]
    Write { written: u64 },
}

impl From<ScheduleError> for ReplayError {
    ghost use Rattle.am_replay.specs.Faults.{schedule_fault};

    ghost from_gives = { λ error fault. fault ≡ schedule_fault error.kind error };

    fn from(error: ScheduleError) -> ReplayError {
        match error.kind {
            FaultKind::Memory => ReplayError::Memory { line: error.line },
            FaultKind::NotUtf8
            | FaultKind::Cluster
            | FaultKind::Words
            | FaultKind::Number
            | FaultKind::Name => ReplayError::Schedule(error),
        }
    }
}

impl From<AllocError> for ReplayError {
    ghost use Rattle.am_replay.specs.declared.error.ReplayError.TheVariants.{Memory};

    ghost from_gives = { λ _ fault. fault ≡ Memory 0 };

    // An allocation knows no line.
    fn from(_e: AllocError) -> ReplayError {
        ReplayError::Memory { line: 0 }
    }
}
