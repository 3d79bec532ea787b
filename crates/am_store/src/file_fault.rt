//! The reasons why a file wasn't read or written.

ghost use Rattle.std.specs.Prelude.{◌≡◌};

use am_snapshot::SnapshotError;
use std::io::{self, ErrorKind};
use thiserror::Error;

/// The reason why a file wasn't read or written.
#[derive(Clone, Copy, Debug, PartialEq, Eq, Error)]
pub enum FileFault {
    /// The system refused to open, sync or rename the file.
    #[error("File {0:?}")]
    File(ErrorKind),
    /// The content is at fault, or not all of it was read or written.
    #[error("{0}")]
    Snapshot(SnapshotError),
    /// Something other than a file is in its place.
    #[error("NotAFile")]
    NotAFile,
    /// Another process has the file.
    #[error("Locked")]
    Locked,
}

impl From<SnapshotError> for FileFault {
    ghost use Rattle.am_store.specs.declared.file_fault.FileFault.TheVariants.{Snapshot};

    ghost from_gives = { λ error e. e ≡ Snapshot error };

    fn from(error: SnapshotError) -> FileFault {
        FileFault::Snapshot(error)
    }
}

impl From<io::Error> for FileFault {
    ghost use Rattle.std.specs.IoError.{error_kind};
    ghost use Rattle.am_store.specs.Faults.{file_fault_of};

    ghost from_gives = { λ error e. e ≡ file_fault_of (error_kind error) };

    fn from(error: io::Error) -> FileFault {
        match error.kind() {
            ErrorKind::OutOfMemory => FileFault::Snapshot(SnapshotError::Memory),
            kind => FileFault::File(kind),
        }
    }
}
