//! A state of a running replica, as a snapshot.

use crate::fault::{SourceFault, Stopped, report_stopped};
use crate::host::{CommandRuntime, Streams};
use crate::losses::warn_of_row;
use crate::replica::{NO_STATES, answer_of, row_of};
use am_diagnostics::{Fault, status};
use am_nflog::EncodedEntry;
use am_options::{PullJob, StateName};
use am_silence::EncodedSilence;
use am_snapshot::{SnapshotError, sort_row};
use am_wire::Unknown;

/// Writes a state of a replica to standard output, and returns the exit status of the program.
pub fn run_pull<R: CommandRuntime>(rt: &R, streams: Streams, job: &PullJob<'_>) -> u8 {
    match pull(rt, streams, job) {
        Ok(()) => status::DONE,
        Err(stopped) => report_stopped(rt, Some(job.name), &stopped),
    }
}

/// Writes what a replica holds to standard output, in the order of the keys.
fn pull<R: CommandRuntime>(rt: &R, streams: Streams, job: &PullJob<'_>) -> Result<(), Stopped> {
    let Streams {
        input: _,
        mut output,
    } = streams;
    let message = match answer_of(rt, job, NO_STATES) {
        Ok(message) => message,
        Err(fault) => return Err(Stopped::of_first(fault)),
    };
    let row = match row_of(rt.alloc(), job, &message) {
        Ok(row) => row,
        Err(fault) => return Err(Stopped::of_first(fault)),
    };
    warn_of_row(rt, job.state, row);
    let written = match job.state {
        StateName::Silences => sort_row::<EncodedSilence<'_>, _>(
            rt.alloc(),
            Unknown::Keep,
            row,
            &mut output,
        ),
        StateName::Log => sort_row::<EncodedEntry<'_>, _>(
            rt.alloc(),
            Unknown::Keep,
            row,
            &mut output,
        ),
    };
    match written {
        Ok(_) => Ok(()),
        Err(error @ SnapshotError::Write { .. }) => Err(Stopped::Output(error)),
        Err(error) => Err(Stopped::of_first(SourceFault::Own(Fault::Snapshot(error)))),
    }
}
