//! Errors of reading an answer.

ghost use Rattle.std.specs.Prelude.{◌≡◌};
ghost use Rattle.am_memberlist.specs.Answers.{unpacking_fault, wire_fault};
ghost use Rattle.am_memberlist.specs.declared.error.AnswerError.TheVariants.{Memory};

use crate::lzw_error::LzwError;
use am_wire::{RowFault, WireError};
use std::alloc::{AllocError, AllocFailed};
use thiserror::Error;

/// The first fault of an answer. Nothing after it is taken.
#[derive(Clone, Copy, Debug, PartialEq, Eq, Error)]
pub enum AnswerError {
    /// The connection was closed before a byte came.
    #[error("no answer")]
    Nothing,
    /// The type of the message, its first byte, is not one that answers a push/pull.
    #[error("message type {0}")]
    Kind(u8),
    #[error("it is cut")]
    Cut,
    /// A value stands in a place where memberlist doesn't write it.
    #[error("a value of another form is wanted")]
    Form,
    /// The compression is not LZW.
    #[error("compression {0}")]
    Compression(u64),
    #[error("more than 65,536 nodes")]
    Nodes,
    /// The bytes after the header are not as many as it says.
    #[error("its length is another than it says")]
    Length,
    /// The compressed bytes are at fault.
    #[error("{0}")]
    Unpacking(LzwError),
    /// The states are at fault.
    #[error("{0}")]
    Wire(WireError),
    /// A state is repeated.
    #[error("a state stands there twice")]
    Twice,
    /// The replica reported an error.
    #[error("an error")]
    Error,
    /// A wanted state is missing.
    #[error("no such state")]
    NoState,
    /// The row of a state is at fault.
    #[error("{0}")]
    Row(RowFault),
    #[error("out of memory")]
    Memory,
}

impl From<LzwError> for AnswerError {
    ghost from_gives = { λ e fault. fault ≡ unpacking_fault e };

    fn from(e: LzwError) -> AnswerError {
        match e {
            LzwError::Memory => AnswerError::Memory,
            fault => AnswerError::Unpacking(fault),
        }
    }
}

impl From<WireError> for AnswerError {
    ghost from_gives = { λ e fault. fault ≡ wire_fault e };

    fn from(e: WireError) -> AnswerError {
        match e {
            WireError::Memory => AnswerError::Memory,
            fault => AnswerError::Wire(fault),
        }
    }
}

impl From<AllocError> for AnswerError {
    ghost from_gives = { λ _ e. e ≡ Memory };

    fn from(_e: AllocError) -> AnswerError {
        AnswerError::Memory
    }
}

impl<T: Drop> From<AllocFailed<T>> for AnswerError {
    ghost from_gives = { λ _ e. e ≡ Memory };

    fn from(_e: AllocFailed<T>) -> AnswerError {
        AnswerError::Memory
    }
}
