//! The reasons why bytes can't be read, or a value can't be written.

ghost use Rattle.std.specs.Prelude.{◌≡◌};
ghost use Rattle.am_wire.specs.declared.error.WireError.TheVariants.{Memory};

use std::alloc::{AllocError, AllocFailed};
use thiserror::Error;

/// The first fault in reading order; `at` is an offset in the outermost input.
#[derive(Clone, Copy, Debug, PartialEq, Eq, Error)]
pub enum WireError {
    /// The input ends inside the field at this byte.
    #[error("Wire Truncated {at}")]
    Truncated { at: usize },
    /// The number at this byte has more than 64 bits.
    #[error("Wire LongVarint {at}")]
    LongVarint { at: usize },
    /// The field at this byte has a number that no field may have.
    #[error("Wire FieldNumber {at}")]
    FieldNumber { at: usize },
    /// The field at this byte has no known wire type.
    #[error("Wire WireType {at}")]
    WireType { at: usize },
    /// The field at this byte has another wire type than its number requires.
    #[error("Wire WrongType {at}")]
    WrongType { at: usize },
    /// The text at this byte is not UTF-8.
    #[error("Wire NotUtf8 {at}")]
    NotUtf8 { at: usize },
    /// The timestamp at this byte is out of range.
    #[error("Wire Timestamp {at}")]
    Timestamp { at: usize },
    /// The matcher at this byte has no known type.
    #[error("Wire MatcherType {at}")]
    MatcherType { at: usize },
    /// The field with this number is missing.
    #[error("Wire MissingMessage {field}")]
    MissingMessage { field: u32 },
    /// The message has more than 67,108,864 bytes.
    #[error("Wire TooLarge")]
    TooLarge,
    #[error("Memory")]
    Memory,
}

impl From<AllocError> for WireError {
    ghost from_gives = { λ _ e. e ≡ Memory };

    fn from(_e: AllocError) -> WireError {
        WireError::Memory
    }
}

impl<T: Drop> From<AllocFailed<T>> for WireError {
    ghost from_gives = { λ _ e. e ≡ Memory };

    fn from(_e: AllocFailed<T>) -> WireError {
        WireError::Memory
    }
}
