//! The reasons why a connection ends before its input does.

ghost use Rattle.std.specs.Prelude.{◌≡◌};

use am_gossip::{FrameError, StepError};
use thiserror::Error;

/// The reason why a connection ended before its input did: the first of these that applies.
#[derive(Clone, Copy, Debug, PartialEq, Eq, Error)]
pub enum ConnectionFault {
    /// A read failed, after `at` bytes had come.
    #[error("Read {at}")]
    Read { at: u64 },
    /// A write failed or took nothing, after `written` bytes had gone out.
    #[error("Write {written}")]
    Write { written: u64 },
    /// More than 134,217,728 bytes came.
    #[error("TooLarge")]
    TooLarge,
    /// The greeting or one of the frames behind it is faulty, or memory ran out for them.
    #[error("Frame {0}")]
    Frame(FrameError),
    /// The greeting names no peer.
    #[error("UnknownName")]
    UnknownName,
    /// The step of a frame was refused.
    #[error("Step {0}")]
    Step(StepError),
}

impl From<StepError> for ConnectionFault {
    ghost use Rattle.am_peers.specs.declared.fault.ConnectionFault.TheVariants.{Step};

    ghost from_gives = { λ given e. e ≡ Step given };

    fn from(error: StepError) -> ConnectionFault {
        ConnectionFault::Step(error)
    }
}
