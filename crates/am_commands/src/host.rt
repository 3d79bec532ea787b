//! The parts of the system that a command uses.

use am_diagnostics::HasAudience;
use std::fs::File;
use std::io::{Stdin, Stdout};
use std::net::{Net, TcpStream};
use std::rt::{Clock, Files};

/// The parts of a runtime that a command uses. Its files are those of the system, as the logs beside them are.
pub trait CommandRuntime: AllocGlobal
    + Clock
    + Eprint
    + Files<File = File>
    + HasAudience
    + Net<Stream = TcpStream> {}

impl<
    R: AllocGlobal + Clock + Eprint + Files<File = File> + HasAudience + Net<Stream = TcpStream>,
> CommandRuntime for R {}

/// The standard streams of the process.
#[derive(Clone, Copy)]
pub struct Streams {
    pub input: Stdin,
    pub output: Stdout,
}
