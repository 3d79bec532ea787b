//! The parts of the system that a member uses.

use std::fs::File;
use std::io::Input;
use std::net::Net;
use std::random::RandomSource;
use std::rt::{Clock, Files};

/// The parts of a runtime that a member uses. Its files are those of the system, since they are locked.
pub trait MemberRuntime: AllocGlobal
    + Clock
    + Eprint
    + Files<File = File>
    + Input
    + Net
    + RandomSource {}

impl<
    R: AllocGlobal + Clock + Eprint + Files<File = File> + Input + Net + RandomSource,
> MemberRuntime for R {}
