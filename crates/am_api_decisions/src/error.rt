//! The reasons why a body is refused.

use crate::key::MessageKey;
use std::alloc::{AllocError, AllocFailed};
use std::fmt;
use thiserror::Error;

/// The reason why the body of a message or of a notice is refused.
#[derive(Clone, Copy, Debug, PartialEq, Eq, Error)]
pub enum MessageError {
    /// The body isn't JSON, or isn't an object.
    #[error("bad JSON")]
    BadJson,
    /// The value at this key is missing or of another kind.
    #[error("bad message: {0}")]
    BadMessage(MessageKey),
    /// Alerts were left out of the message.
    #[error("truncated alerts")]
    Truncated,
    #[error("out of memory")]
    Memory,
}

impl fmt::Display for MessageKey {
    fn fmt<W: fmt::Write>(&self, f: &mut fmt::Formatter<W>) -> fmt::Result {
        f.write_str(self.text())
    }
}

impl From<AllocError> for MessageError {
    ghost use Rattle.std.specs.Prelude.{◌≡◌};
    ghost use Rattle.am_api_decisions.specs.declared.error.MessageError.TheVariants.{Memory};

    ghost from_gives = { λ _ e. e ≡ Memory };

    fn from(_: AllocError) -> MessageError {
        MessageError::Memory
    }
}

impl<T: Drop> From<AllocFailed<T>> for MessageError {
    ghost use Rattle.std.specs.Prelude.{◌≡◌};
    ghost use Rattle.am_api_decisions.specs.declared.error.MessageError.TheVariants.{Memory};

    ghost from_gives = { λ _ e. e ≡ Memory };

    fn from(_: AllocFailed<T>) -> MessageError {
        MessageError::Memory
    }
}
