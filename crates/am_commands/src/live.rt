//! Sources, be they servers or files, as API v2 shows them.

ghost use Rattle.std.specs.Prelude.{◌≡◌, IfOk};
ghost use Rattle.std.specs.Ordering.{nat_cmp};
ghost use Rattle.std.specs.Cmp.Lexicographic.{slice_cmp};
ghost use Rattle.am_merge.specs.Maps.{IsMap};
ghost use Rattle.am_silence.specs.Mesh.{mesh_version};

use crate::diff::open_source;
use crate::fault::SourceFault;
use crate::host::CommandRuntime;
use crate::losses::HasLosses;
use crate::opened::SourceRequest;
use crate::source::Source;
use am_diagnostics::Fault;
use am_merge::Held;
use am_peers::{HttpServer, body_of, fetch, held_of, shown_of_row};
use am_report::Losses;
use am_silence::MeshSilence;
use am_silence_json::read_silences;
use am_snapshot::{SnapshotError, row_bytes, row_length};
use std::alloc::{AllocError, Global};
use std::io::Stdin;
use std::time::Duration;

/// A source that is read as API v2 shows it: a server that is asked then, or a file that is opened then.
pub struct ShownSource<'a, R> {
    rt: &'a R,
    input: Stdin,
    /// The most time that a connection to a server may last.
    time_limit: Duration,
    asked: SourceRequest<'a>,
}

impl<'a, R: CommandRuntime> ShownSource<'a, R> {
    /// Returns a source that is asked for, and isn't read yet.
    pub fn new(
        rt: &'a R,
        input: Stdin,
        time_limit: Duration,
        asked: SourceRequest<'a>,
    ) -> ShownSource<'a, R>
        ensures { result.asked ≡ asked.entry }
    {
        ShownSource {
            rt,
            input,
            time_limit,
            asked,
        }
    }
}

impl<'a, R> Drop for ShownSource<'a, R> {
    fn drop(self) {
        let Self {
            rt: _,
            input: _,
            time_limit: _,
            asked: _,
        } = self;
    }
}

impl<'a, R> HasLosses for ShownSource<'a, R> {
    /// Adds none: API v2 shows no fields that aren't known here.
    fn add_losses(&self, _losses: &mut Losses) -> Result<(), AllocError> {
        Ok(())
    }
}

/// No clause says what a server or a path gives; what it gives is the map.
impl<'a, R: CommandRuntime> Source<MeshSilence> for ShownSource<'a, R> {
    ghost use Rattle.std.specs.Prelude.{⊤};

    ghost gives = { λ _ _. ⊤ };

    ghost stops = { λ _ _. ⊤ };

    fn read(&mut self, alloc: Global) -> Result<Held<MeshSilence>, SourceFault> {
        match self.asked.word.server() {
            Some(server) => match shown_by_server(self.rt, &server, self.time_limit) {
                Ok(held) => Ok(held),
                Err(fault) => Err(SourceFault::Own(fault)),
            },
            None => shown_by_row(alloc, self.rt, self.input, self.time_limit, self.asked),
        }
    }
}

/// Returns what API v2 shows of a source that is opened.
fn shown_by_row<R: CommandRuntime>(
    alloc: Global,
    rt: &R,
    input: Stdin,
    time_limit: Duration,
    asked: SourceRequest<'_>,
) -> Result<Held<MeshSilence>, SourceFault>
    ensures { IfOk result (IsMap mesh_version (slice_cmp nat_cmp)) }
{
    let mut opened = open_source(rt, input, time_limit, asked)?;
    let held: Held<MeshSilence> = opened.read(alloc)?;
    match shown_of(alloc, &held) {
        Ok(shown) => Ok(shown),
        Err(error) => Err(SourceFault::Own(Fault::Snapshot(error))),
    }
}

/// Returns what API v2 shows of a map, by its row.
fn shown_of(alloc: Global, held: &Held<MeshSilence>) -> Result<Held<MeshSilence>, SnapshotError>
    ensures { IfOk result (IsMap mesh_version (slice_cmp nat_cmp)) }
{
    let Some(length) = row_length(held) else {
        return Err(SnapshotError::TooLarge);
    };
    let row = row_bytes(alloc, held, length)?;
    shown_of_row(alloc, &mut row.as_slice())
}

/// Returns the silences that a server shows.
fn shown_by_server<R: CommandRuntime>(
    rt: &R,
    server: &HttpServer<'_>,
    time_limit: Duration,
) -> Result<Held<MeshSilence>, Fault>
    ensures { IfOk result (IsMap mesh_version (slice_cmp nat_cmp)) }
{
    let alloc = rt.alloc();
    let reply = fetch(alloc, rt, server, time_limit)?;
    let list = read_silences(alloc, body_of(&reply)?)?;
    match held_of(alloc, list) {
        Ok(held) => Ok(held),
        Err(_) => Err(Fault::Memory(AllocError)),
    }
}
