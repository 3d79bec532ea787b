//! The reasons why a frame can't be read or written.

ghost use Rattle.std.specs.Prelude.{◌≡◌};
ghost use Rattle.am_gossip.specs.declared.error.FrameError.TheVariants.{Memory};
ghost use Rattle.am_gossip.specs.Answers.{frame_fault};

use am_wire::WireError;
use std::alloc::{AllocError, AllocFailed};
use thiserror::Error;

/// The first fault, in the order in which a stream is read.
#[derive(Clone, Copy, Debug, PartialEq, Eq, Error)]
pub enum FrameError {
    /// The byte is not one with which a frame begins.
    #[error("Kind")]
    Kind,
    /// The length of a greeting or a frame is out of its range.
    #[error("Length")]
    Length,
    /// A payload has this fault; offsets count from the payload's first byte.
    #[error("{0}")]
    Wire(WireError),
    /// The key of a part names no state.
    #[error("UnknownState")]
    UnknownState,
    /// The stream has ended with an earlier fault.
    #[error("Ended")]
    Ended,
    #[error("Memory")]
    Memory,
}

impl From<WireError> for FrameError {
    ghost from_gives = { λ e fault. fault ≡ frame_fault e };

    fn from(e: WireError) -> FrameError {
        match e {
            WireError::Memory => FrameError::Memory,
            fault => FrameError::Wire(fault),
        }
    }
}

impl From<AllocError> for FrameError {
    ghost from_gives = { λ _ e. e ≡ Memory };

    fn from(_e: AllocError) -> FrameError {
        FrameError::Memory
    }
}

impl<T: Drop> From<AllocFailed<T>> for FrameError {
    ghost from_gives = { λ _ e. e ≡ Memory };

    fn from(_e: AllocFailed<T>) -> FrameError {
        FrameError::Memory
    }
}
