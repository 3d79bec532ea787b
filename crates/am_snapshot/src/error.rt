//! Errors of writing and reading snapshots.

ghost use Rattle.std.specs.Prelude.{◌≡◌};

use am_wire::{RowFault, WireError, WriteFault};
use std::alloc::AllocError;
use thiserror::Error;

/// The first fault of writing or reading a snapshot.
#[derive(Clone, Copy, Debug, PartialEq, Eq, Error)]
pub enum SnapshotError {
    /// A read failed after this many bytes.
    #[error("Read {at}")]
    Read { at: usize },
    /// A write failed after this many bytes, which went out.
    #[error("Write {written}")]
    Write { written: u64 },
    /// A message is at fault.
    #[error("{0}")]
    Wire(WireError),
    /// A key is repeated.
    #[error("DuplicateKey")]
    DuplicateKey,
    /// The row, or a message in it, is over its limit.
    #[error("TooLarge")]
    TooLarge,
    #[error("Memory")]
    Memory,
}

/// The first fault of folding a row. A repeated key is no fault of a fold.
#[derive(Clone, Copy, Debug, PartialEq, Eq, Error)]
pub enum FoldError {
    /// A read failed after this many bytes.
    #[error("Read {at}")]
    Read { at: usize },
    /// A write failed after this many bytes, which went out.
    #[error("Write {written}")]
    Write { written: u64 },
    /// A message is at fault.
    #[error("{0}")]
    Wire(WireError),
    /// The input, its fold, or a message in it, is over its limit.
    #[error("TooLarge")]
    TooLarge,
    #[error("Memory")]
    Memory,
}

impl From<FoldError> for SnapshotError {
    ghost use Rattle.am_snapshot.specs.Folds.{fold_fault};

    ghost from_gives = { λ fault e. e ≡ fold_fault fault };

    fn from(fault: FoldError) -> SnapshotError {
        match fault {
            FoldError::Read { at } => SnapshotError::Read { at },
            FoldError::Write { written } => SnapshotError::Write { written },
            FoldError::Wire(e) => SnapshotError::Wire(e),
            FoldError::TooLarge => SnapshotError::TooLarge,
            FoldError::Memory => SnapshotError::Memory,
        }
    }
}

impl From<WriteFault> for SnapshotError {
    ghost use Rattle.am_snapshot.specs.declared.error.SnapshotError.TheVariants.{Write};

    ghost from_gives = { λ fault e. e ≡ Write fault.written };

    fn from(fault: WriteFault) -> SnapshotError {
        SnapshotError::Write {
            written: fault.written,
        }
    }
}

impl From<RowFault> for SnapshotError {
    ghost use Rattle.am_snapshot.specs.Loads.{load_fault};

    ghost from_gives = { λ fault e. e ≡ load_fault fault };

    fn from(fault: RowFault) -> SnapshotError {
        match fault {
            RowFault::Read { at } => SnapshotError::Read { at },
            RowFault::Wire(e) => SnapshotError::Wire(e),
            RowFault::TooLarge => SnapshotError::TooLarge,
            // No row is read on after a fault, so `Ended` is never returned.
            RowFault::Ended | RowFault::Memory => SnapshotError::Memory,
        }
    }
}

impl From<AllocError> for SnapshotError {
    ghost use Rattle.am_snapshot.specs.declared.error.SnapshotError.TheVariants.{Memory};

    ghost from_gives = { λ _ e. e ≡ Memory };

    fn from(_e: AllocError) -> SnapshotError {
        SnapshotError::Memory
    }
}
