//! Running replicas, compared and mended: each is asked for all it holds, the differences are told, and each is sent what it
//! lacks.

use crate::fault::{SourceFault, Stopped, add, report_stopped};
use crate::host::{CommandRuntime, Streams};
use crate::losses::warn_of_rows;
use crate::mending::{Addressee, Mending};
use crate::moment::moment_of;
use crate::push::write_text;
use crate::replica::{NO_STATES, exchange};
use am_alertmanager::Candidate;
use am_diagnostics::{Fault, report, status};
use am_merge::Held;
use am_nflog::MeshEntry;
use am_options::{MendJob, PullJob, StateName};
use am_report::{Compared, HeldSource, LineFormat, ReportLine, write_differences};
use am_silence::MeshSilence;
use am_snapshot::load_bytes;
use am_version_order::{Moment, Version};
use am_wire::{Message, Unknown};
use std::alloc::{AllocError, Global};
use std::io::{Stdout, Write};

/// Compares running replicas, mends them if that is asked for, and returns the exit status of the program.
pub fn run_mend<R: CommandRuntime>(rt: &R, streams: Streams, job: &MendJob<'_>) -> u8 {
    let now = match moment_of(rt, job.now) {
        Ok(now) => now,
        Err(fault) => return report(rt, fault),
    };
    let found = match job.state {
        StateName::Silences => mend::<R, MeshSilence>(rt, streams.output, job, now),
        StateName::Log => mend::<R, MeshEntry>(rt, streams.output, job, now),
    };
    match found {
        Ok(false) => status::DONE,
        Ok(true) => status::DIFFERENT,
        Err(stopped) => report_stopped(rt, name_of(job, &stopped), &stopped),
    }
}

/// Returns the name of the replica that is at fault.
fn name_of<'a>(job: &MendJob<'a>, stopped: &Stopped) -> Option<&'a str> {
    let replica = job.replicas.get(stopped.number()?)?;
    Some(replica.name)
}

/// Writes how replicas differ. Where they are to be mended, sends each what it lacks, and compares them again. Returns whether
/// they differ at the end.
fn mend<R: CommandRuntime, V: Candidate + Message + ReportLine>(
    rt: &R,
    mut output: Stdout,
    job: &MendJob<'_>,
    now: Moment,
) -> Result<bool, Stopped> {
    let alloc = rt.alloc();
    let pulled: Pulled<'_, V> = pull_all(rt, job)?;
    warn_of_rows(rt, job.state, &pulled.rows);
    let found = tell(alloc, &pulled.replicas, now, &mut output)?;
    if !job.is_applied || !found {
        return Ok(found);
    }
    let replicas = pulled.replicas;
    let mending = Mending {
        rows: pulled.rows,
        all: join_all(alloc, &replicas)?,
        moment: now,
    };
    send_all(rt, job, &replicas, &mending, &mut output)?;
    let again: Pulled<'_, V> = pull_all(rt, job)?;
    tell_refused(alloc, &again.replicas, &mending, &mut output)?;
    tell(alloc, &again.replicas, now, &mut output)
}

/// The maps that replicas hold, and the rows in which they told them.
#[derive(Drop)]
struct Pulled<'a, V: Version> {
    replicas: Vec<HeldSource<'a, V>>,
    rows: Vec<Vec<u8>>,
}

/// Asks all replicas, one after the other.
fn pull_all<'a, R: CommandRuntime, V: Version + Message>(
    rt: &R,
    job: &MendJob<'a>,
) -> Result<Pulled<'a, V>, Stopped> {
    let alloc = rt.alloc();
    let mut pulled = Pulled {
        replicas: Vec::new(alloc),
        rows: Vec::new(alloc),
    };
    for replica in &job.replicas {
        let row = row_now(rt, replica, pulled.rows.len())?;
        let held = held_in(alloc, &row, pulled.rows.len())?;
        add(&mut pulled.rows, row)?;
        add(&mut pulled.replicas, HeldSource::new(replica.name, held))?;
    }
    Ok(pulled)
}

/// Returns the row of what the replica of this number holds now.
fn row_now<R: CommandRuntime>(
    rt: &R,
    replica: &PullJob<'_>,
    number: usize,
) -> Result<Vec<u8>, Stopped> {
    match exchange(rt, replica, NO_STATES) {
        Ok(row) => Ok(row),
        Err(fault) => Err(Stopped::Source { number, fault }),
    }
}

/// Returns the map of the row that the replica of this number told.
fn held_in<V: Version + Message>(
    alloc: Global,
    row: &[u8],
    number: usize,
) -> Result<Held<V>, Stopped> {
    match load_bytes(alloc, Unknown::Keep, row) {
        Ok(held) => Ok(held),
        Err(error) => Err(Stopped::Source {
            number,
            fault: SourceFault::Own(Fault::Snapshot(error)),
        }),
    }
}

/// Writes the differences of replicas in long lines. Returns whether there is one.
fn tell<V: ReportLine, W: Write>(
    alloc: Global,
    replicas: &[HeldSource<'_, V>],
    now: Moment,
    output: &mut W,
) -> Result<bool, Stopped> {
    let format = LineFormat {
        moment: now,
        has_expiries: true,
        is_long: true,
    };
    match write_differences(alloc, replicas, Compared::Shown, &format, output) {
        Ok(found) => Ok(found),
        Err(error) => Err(Stopped::Output(error)),
    }
}

/// Returns the join of what replicas hold.
fn join_all<V: Version>(
    alloc: Global,
    replicas: &[HeldSource<'_, V>],
) -> Result<Held<V>, AllocError> {
    let mut all = Held::new(alloc);
    for replica in replicas {
        if all.merge(replica.held(), Moment::LEAST).is_err() {
            return Err(AllocError);
        }
    }
    Ok(all)
}

/// Sends each replica what it lacks, and writes what that is.
fn send_all<R: CommandRuntime, V: Candidate + Message + ReportLine, W: Write>(
    rt: &R,
    job: &MendJob<'_>,
    replicas: &[HeldSource<'_, V>],
    mending: &Mending<V>,
    output: &mut W,
) -> Result<(), Stopped> {
    let alloc = rt.alloc();
    for (number, (to, replica)) in job.replicas.iter().zip(replicas).enumerate() {
        let sent = mending.to_send(alloc, replica.held())?;
        if let Err(fault) = sent.send(rt, to) {
            return Err(Stopped::Source { number, fault });
        }
        let mut text = String::new(alloc);
        let name = Addressee {
            name: Some(to.name),
        };
        mending.append_sent(alloc, &mut text, name, replica.held(), &sent)?;
        write_text(output, text.as_bytes())?;
    }
    Ok(())
}

/// Writes which versions replicas lack though they were sent.
fn tell_refused<V: Candidate + Message + ReportLine, W: Write>(
    alloc: Global,
    replicas: &[HeldSource<'_, V>],
    mending: &Mending<V>,
    output: &mut W,
) -> Result<(), Stopped> {
    let mut text = String::new(alloc);
    for replica in replicas {
        let name = Addressee {
            name: Some(replica.name()),
        };
        mending.append_refused(alloc, &mut text, name, replica.held())?;
    }
    write_text(output, text.as_bytes())
}
