//! The faults that end a connection of frames.

use am_gossip::FrameError;
use thiserror::Error;

/// The reason why nothing more is heard of a connection of frames.
#[derive(Clone, Copy, Debug, Error)]
pub enum SessionFault {
    /// More than 134,217,728 bytes came.
    #[error("the connection has too many bytes")]
    TooLarge,
    /// The greeting or a frame behind it is at fault, or memory ran out for them.
    #[error("{0}")]
    Frame(FrameError),
}
