//! Errors of reading the body of a list.

use crate::key::ShownKey;
use std::alloc::{AllocError, AllocFailed};
use std::fmt;
use thiserror::Error;

/// The reason for refusing the body of a list. Places in the list count from 0; the first silence at fault is reported.
#[derive(Clone, Copy, Debug, Error)]
pub enum ListError {
    /// The body is no JSON.
    #[error("BadJson")]
    BadJson,
    /// The body is JSON, but not an array.
    #[error("NoList")]
    NoList,
    /// The value of this key is missing or of another kind in the silence at this place.
    #[error("Silence {0} {1}")]
    Wrong(usize, ShownKey),
    /// The silence at this place has more than 67,108,864 bytes.
    #[error("Silence {0} TooLarge")]
    TooLarge(usize),
    #[error("Memory")]
    Memory,
}

impl fmt::Display for ShownKey {
    fn fmt<W: fmt::Write>(&self, f: &mut fmt::Formatter<W>) -> fmt::Result {
        f.write_str(self.text())
    }
}

impl From<AllocError> for ListError {
    ghost use Rattle.std.specs.Prelude.{◌≡◌};
    ghost use Rattle.am_silence_json.specs.declared.list_error.ListError.TheVariants.{Memory};

    ghost from_gives = { λ _ e. e ≡ Memory };

    fn from(_: AllocError) -> ListError {
        ListError::Memory
    }
}

impl<T: Drop> From<AllocFailed<T>> for ListError {
    ghost use Rattle.std.specs.Prelude.{◌≡◌};
    ghost use Rattle.am_silence_json.specs.declared.list_error.ListError.TheVariants.{Memory};

    ghost from_gives = { λ _ e. e ≡ Memory };

    fn from(_: AllocFailed<T>) -> ListError {
        ListError::Memory
    }
}
