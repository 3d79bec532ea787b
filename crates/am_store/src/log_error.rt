//! The reasons why a log wasn't written or read.

ghost use Rattle.std.specs.Prelude.{◌≡◌};
ghost use Rattle.am_store.specs.declared.log_error.LogError.TheVariants.{Memory, Failed};

use std::alloc::AllocError;
use std::io;
use thiserror::Error;

/// The reason why a call of a log was refused.
#[derive(Clone, Copy, Debug, Error)]
pub enum LogError {
    #[error("out of memory")]
    Memory,
    /// The disk refused.
    #[error("{0}")]
    Failed(io::Error),
    /// The log has 2^62 bytes.
    #[error("the log is full")]
    Full,
    /// An earlier call failed, and since then nobody knows what the disk has.
    #[error("the log was closed by an earlier failure")]
    Closed,
}

impl From<AllocError> for LogError {
    ghost from_gives = { λ _ e. e ≡ Memory };

    fn from(_e: AllocError) -> LogError {
        LogError::Memory
    }
}

impl From<io::Error> for LogError {
    ghost from_gives = { λ e error. error ≡ Failed e };

    fn from(e: io::Error) -> LogError {
        LogError::Failed(e)
    }
}
