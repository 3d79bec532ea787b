//! The faults of a server.

ghost use Rattle.std.specs.Prelude.{◌≡◌};

use std::io::{self, ErrorKind};
use thiserror::Error;

/// The reason why a server hasn't told what it was asked. It is printed as its name and number; the name of `NoHead` is `Reply`.
#[derive(Clone, Copy, Debug, PartialEq, Eq, Error)]
pub enum ServerFault {
    /// The connection couldn't be made.
    #[error("Connect {0:?}")]
    Connect(ErrorKind),
    /// A write failed or took nothing, after `written` bytes of the request had gone out.
    #[error("Write {written}")]
    Write { written: u64 },
    /// A read failed, after `at` bytes of the reply had come.
    #[error("Read {at}")]
    Read { at: usize },
    /// The reply has more than 67,125,248 bytes.
    #[error("TooLarge")]
    TooLarge,
    #[error("Memory")]
    Memory,
    /// The reply doesn't begin with the head of a response of HTTP/1.0 or HTTP/1.1 that has at most 16,384 bytes and 64 fields.
    #[error("Reply")]
    NoHead,
    /// The reply's status isn't 200.
    #[error("Status {0}")]
    Status(u16),
}

impl From<io::Error> for ServerFault {
    ghost use Rattle.std.specs.IoError.{error_kind};
    ghost use Rattle.am_peers.specs.declared.error.ServerFault.TheVariants.{Connect};

    ghost from_gives = { λ error e. e ≡ Connect (error_kind error) };

    fn from(error: io::Error) -> ServerFault {
        ServerFault::Connect(error.kind())
    }
}
