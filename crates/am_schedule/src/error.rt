//! Errors of reading a schedule.

ghost use Rattle.std.specs.Prelude.{◌≡◌};
ghost use Rattle.am_schedule.specs.declared.error.FaultKind.TheVariants.{Memory};

use std::alloc::{AllocError, AllocFailed};
use thiserror::Error;

/// A line's fault. If several kinds fit a line, the first in this order is reported; `Number` and `Name` are tested word by
/// word from the left, and `Words` is tested once more after them, for a `from` that names versions of two states.
#[derive(Clone, Copy, Debug, PartialEq, Eq, Error)]
pub enum FaultKind {
    #[error("the line is not UTF-8")]
    NotUtf8,
    #[error("the cluster line is missing, wrong or a second one")]
    Cluster,
    #[error("the verb is unknown or the number of words is wrong")]
    Words,
    #[error("a word is not the number, list, yes or no that its place asks for")]
    Number,
    #[error("a name or label is unknown or repeated, or a word is too long")]
    Name,
    #[error("out of memory")]
    Memory,
}

/// The first line at fault, counted from 1, and its fault.
#[derive(Clone, Copy, Debug, PartialEq, Eq, Error)]
#[error("line {line}: {kind}")]
pub struct ScheduleError {
    pub line: u64,
    pub kind: FaultKind,
}

impl From<AllocError> for FaultKind {
    ghost from_gives = { λ _ kind. kind ≡ Memory };

    fn from(_e: AllocError) -> FaultKind {
        FaultKind::Memory
    }
}

impl<T: Drop> From<AllocFailed<T>> for FaultKind {
    ghost from_gives = { λ _ kind. kind ≡ Memory };

    fn from(_e: AllocFailed<T>) -> FaultKind {
        FaultKind::Memory
    }
}
