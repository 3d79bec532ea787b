//! The faults for which a schedule isn't played or drawn.

ghost use Rattle.std.specs.Prelude.{◌≤◌};

use am_diagnostics::{Fault, HasAudience, status};
use am_replay::ReplayError;
use am_schedule::FaultKind;
use am_snapshot::SnapshotError;
use am_store::FileFault;
use std::fmt::{self, Formatter};
use thiserror::Error;

/// The reason that a schedule was not played or drawn.
#[derive(Clone, Copy, Debug, Error)]
pub enum ScheduleFault {
    /// A fault in the schedule, or in writing what it prints.
    #[error(fmt = write_replay_error)]
    Replay(#[from] ReplayError),
    /// The schedule has this many steps, too many for a picture.
    #[error("TooManySteps {steps}")]
    TooManySteps { steps: usize },
    /// Memory ran out while the schedule was drawn, at whatever line.
    #[error("Memory 0")]
    Memory,
    /// A fault in the file of the picture.
    #[error(fmt = write_file_fault)]
    Picture(FileFault),
}

/// Prints a fault on standard error: its words, and to a person its meaning. Returns the exit status of the program.
pub fn report<R: Eprint + HasAudience>(rt: &R, fault: ScheduleFault) -> u8
    ensures { (1 ≤ result) × (result ≤ 4) }
{
    let remark = rt.audience().told(fault.meaning());
    let _ = eprintln!(rt; "am_tool: {fault}{remark}");
    fault.status()
}

impl ScheduleFault {
    /// Returns the meaning of the fault as a sentence.
    fn meaning(&self) -> &'static str {
        match *self {
            ScheduleFault::Replay(error) => meaning_of_replay(error),
            ScheduleFault::TooManySteps { .. } =>
                "a picture has at most 2,000 steps; without one so many are played",
            ScheduleFault::Memory => meaning_of_row(SnapshotError::Memory),
            ScheduleFault::Picture(fault) => Fault::File(fault).meaning(),
        }
    }

    /// Returns the exit status of the program.
    fn status(self) -> u8
        ensures { (1 ≤ result) × (result ≤ 4) }
    {
        match self {
            ScheduleFault::Replay(error) => status_of_replay(error),
            ScheduleFault::TooManySteps { .. } => status::REFUSED,
            ScheduleFault::Memory => status::MEMORY,
            ScheduleFault::Picture(fault) => Fault::File(fault).status(),
        }
    }
}

/// Returns the exit status if a schedule isn't played.
fn status_of_replay(error: ReplayError) -> u8
    ensures { (1 ≤ result) × (result ≤ 4) }
{
    match error {
        ReplayError::Schedule(_) | ReplayError::TooLarge => status::REFUSED,
        ReplayError::Read { .. } | ReplayError::Write { .. } => status::OUTSIDE,
        ReplayError::Memory { .. } => status::MEMORY,
    }
}

fn write_replay_error<W: fmt::Write>(error: &ReplayError, f: &mut Formatter<W>) -> fmt::Result {
    match *error {
        ReplayError::Read { at } => write!(f, "Read {at}"),
        ReplayError::Schedule(error) => write!(f, "Schedule {:?} {}", error.kind, error.line),
        ReplayError::TooLarge => f.write_str("TooLarge"),
        ReplayError::Memory { line } => write!(f, "Memory {line}"),
        ReplayError::Write { written } => write!(f, "Write {written}"),
    }
}

fn write_file_fault<W: fmt::Write>(fault: &FileFault, f: &mut Formatter<W>) -> fmt::Result {
    write!(f, "Picture {}", Fault::File(*fault))
}

/// Returns the meaning of a fault that a row can have as well.
fn meaning_of_row(error: SnapshotError) -> &'static str {
    Fault::Snapshot(error).meaning()
}

/// Returns the meaning of a fault in playing a schedule.
fn meaning_of_replay(error: ReplayError) -> &'static str {
    match error {
        ReplayError::Read { at } => meaning_of_row(SnapshotError::Read { at }),
        ReplayError::Schedule(error) => meaning_of_line(error.kind),
        ReplayError::TooLarge => "the schedule has over 16,777,216 bytes",
        ReplayError::Memory { .. } => "memory ran out at this line, or at none where it is 0",
        ReplayError::Write { written } => meaning_of_row(SnapshotError::Write { written }),
    }
}

/// Returns the meaning of a fault in a line of a schedule.
fn meaning_of_line(kind: FaultKind) -> &'static str {
    match kind {
        FaultKind::NotUtf8 => "the line is not UTF-8",
        FaultKind::Cluster => "the cluster's line is missing, wrong, or a second one",
        FaultKind::Words => "the line's verb is unknown, or has another number of words",
        FaultKind::Number =>
            "a word of the line is not the number, list, yes or no that its place asks for",
        FaultKind::Name =>
            "a name or label of the line is unknown or repeated, or a word is too long",
        FaultKind::Memory => meaning_of_row(SnapshotError::Memory),
    }
}
