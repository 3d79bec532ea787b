//! Errors of reading the body of a post.

use crate::key::JsonKey;
use std::alloc::AllocError;
use std::fmt;
use thiserror::Error;

/// The reason for refusing the body of a post.
#[derive(Clone, Copy, Debug, PartialEq, Eq, Error)]
pub enum BodyError {
    /// The body is no JSON, or no object.
    #[error("bad JSON")]
    BadJson,
    /// The value of this key is missing or of another kind.
    #[error("bad silence: {0}")]
    Wrong(JsonKey),
    #[error("out of memory")]
    Memory,
}

impl fmt::Display for JsonKey {
    fn fmt<W: fmt::Write>(&self, f: &mut fmt::Formatter<W>) -> fmt::Result {
        f.write_str(self.text())
    }
}

impl From<AllocError> for BodyError {
    ghost use Rattle.std.specs.Prelude.{◌≡◌};
    ghost use Rattle.am_silence_json.specs.declared.error.BodyError.TheVariants.{Memory};

    ghost from_gives = { λ _ e. e ≡ Memory };

    fn from(_: AllocError) -> BodyError {
        BodyError::Memory
    }
}

impl From<JsonKey> for BodyError {
    ghost use Rattle.std.specs.Prelude.{◌≡◌};
    ghost use Rattle.am_silence_json.specs.declared.error.BodyError.TheVariants.{Wrong};

    ghost from_gives = { λ key e. e ≡ Wrong key };

    fn from(key: JsonKey) -> BodyError {
        BodyError::Wrong(key)
    }
}
