//! The faults for which an authenticator ends a connection.

use crate::seal::SealError;
use thiserror::Error;

/// The reason why nothing more is heard of a connection. It is printed as its words in the program's line.
#[derive(Clone, Copy, Debug, PartialEq, Eq, Error)]
pub enum AuthFault {
    /// Frames came at an entrance that accepts none.
    #[error("Door Frames")]
    Frames,
    /// A request came at an entrance that accepts only frames.
    #[error("Door Requests")]
    Requests,
    /// Frames came unsealed, and the members have a secret.
    #[error("Seal Missing")]
    Unsealed,
    /// The input ended in a sealed frame, or in the greeting before it.
    #[error("Seal Cut")]
    Cut,
    /// A sealed frame isn't accepted.
    #[error("Seal {0}")]
    Seal(SealError),
}
