//! The reasons why a silence isn't posted, or isn't ended.

ghost use Rattle.std.specs.Prelude.{◌≡◌};
ghost use Rattle.am_silence.specs.declared.error.SilenceError.TheVariants.{Memory};

use am_version_order::Moment;
use std::alloc::AllocError;
use thiserror::Error;

/// The reason why a silence isn't posted, or isn't ended: the first of these that applies, in their order.
#[derive(Clone, Copy, Debug, PartialEq, Eq, Error)]
pub enum SilenceError {
    #[error("there is no such silence")]
    NotFound,
    #[error("the silence has no matcher")]
    NoMatcher,
    #[error("a matcher has no label name")]
    EmptyName,
    #[error("a pattern is no regular expression")]
    BadPattern,
    #[error("all matchers match the empty text")]
    AllMatchEmpty,
    #[error("the end is not after the start")]
    EndNotAfterStart,
    #[error("the end is not after now")]
    EndInPast,
    #[error("the silence has expired already")]
    AlreadyExpired,
    /// The silence that would get a new version was updated at `held`, which is not before now.
    #[error("the version that is held is not older")]
    Newer { held: Moment },
    #[error("the fresh identifier is in use")]
    IdInUse,
    #[error("the silence is too large")]
    TooLarge,
    #[error("out of memory")]
    Memory,
}

impl From<AllocError> for SilenceError {
    ghost from_gives = { λ _ e. e ≡ Memory };

    fn from(_e: AllocError) -> SilenceError {
        SilenceError::Memory
    }
}
