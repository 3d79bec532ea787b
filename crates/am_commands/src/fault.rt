//! The faults at which a command stops.

ghost use Rattle.std.specs.Prelude.{◌≡◌, ◌≤◌, ◌++◌, ◌∷◌, [], OnOk};
ghost use Rattle.am_commands.specs.Statuses.{source_status, stopped_status};

use crate::host::CommandRuntime;
use am_diagnostics::{Fault, report, report_source, status};
use am_report::EscapedWord;
use am_snapshot::SnapshotError;
use am_store::{FileFault, LogFault};
use std::alloc::AllocError;

/// A fault because of which a source isn't read.
#[derive(Drop)]
pub enum SourceFault {
    /// In its file, its row, or what a server or a replica answered.
    Own(Fault),
    /// The log of this path, beside it, is at fault.
    Log(String, FileFault),
    /// The replica told an error, in these words.
    Words(Vec<u8>),
}

impl SourceFault {
    /// Returns the fault of a source beside which a log is at fault.
    pub fn of_log(fault: LogFault) -> SourceFault {
        let LogFault { path, fault } = fault;
        match path {
            Some(path) => SourceFault::Log(path, fault),
            None => SourceFault::Own(Fault::File(fault)),
        }
    }
}

/// The first fault that a command met, at which it stopped.
#[derive(Drop)]
pub enum Stopped {
    /// The source of this number, from 0 on, is at fault.
    Source { number: usize, fault: SourceFault },
    /// No source is: memory ran out, or what is told of them is too large or isn't written.
    Output(SnapshotError),
}

impl Stopped {
    /// Returns that the first source, which may be the only one, is at fault.
    pub fn of_first(fault: SourceFault) -> Stopped {
        Stopped::Source { number: 0, fault }
    }

    /// Returns the number of the source that is at fault.
    pub fn number(&self) -> Option<usize> {
        match self {
            Stopped::Source { number, .. } => Some(*number),
            Stopped::Output(_) => None,
        }
    }
}

impl From<SnapshotError> for Stopped {
    ghost use Rattle.am_commands.specs.declared.fault.Stopped.TheVariants.{Output};

    ghost from_gives = { λ error stopped. stopped ≡ Output error };

    fn from(error: SnapshotError) -> Stopped {
        Stopped::Output(error)
    }
}

impl From<AllocError> for Stopped {
    ghost use Rattle.am_snapshot.specs.declared.error.SnapshotError.TheVariants.{Memory};
    ghost use Rattle.am_commands.specs.declared.fault.Stopped.TheVariants.{Output};

    ghost from_gives = { λ _ stopped. stopped ≡ Output Memory };

    fn from(_error: AllocError) -> Stopped {
        Stopped::Output(SnapshotError::Memory)
    }
}

/// Adds one more to a list.
///
/// # Errors
///
/// [`AllocError`] if memory runs out.
pub fn add<T: Drop>(all: &mut Vec<T>, more: T) -> Result<(), AllocError>
    ensures { OnOk result (all.new.items ≡ all.old.items ++ more ∷ []) }
{
    Ok(all.push(more)?)
}

/// Prints on standard error why a command stopped, behind the name of the source that is at fault if it has one, or the path
/// of its log, and to a person what it means. Returns the exit status of the program.
pub fn report_stopped<R: CommandRuntime>(rt: &R, name: Option<&str>, stopped: &Stopped) -> u8
    // PROMISE: A command's status is that of the first fault.
    ensures status { result ≡ stopped_status stopped.now }

    ensures some { (1 ≤ result) × (result ≤ 4) }
{
    match stopped {
        Stopped::Output(error) => report(rt, Fault::Snapshot(*error)),
        Stopped::Source { fault, .. } => report_of_source(rt, name, fault),
    }
}

/// Prints the fault of a source.
fn report_of_source<R: CommandRuntime>(rt: &R, name: Option<&str>, fault: &SourceFault) -> u8
    ensures status { result ≡ source_status fault.now }
    ensures some { (1 ≤ result) × (result ≤ 4) }
{
    match (fault, name) {
        (SourceFault::Own(fault), Some(name)) => report_source(rt, name, *fault),
        (SourceFault::Own(fault), None) => report(rt, *fault),
        (SourceFault::Log(path, fault), _) => report_source(rt, path.as_str(), Fault::File(*fault)),
        (SourceFault::Words(words), name) => {
            let name = EscapedWord(name.unwrap_or("").as_bytes());
            let words = EscapedWord(words);
            let remark = rt.audience().told("the replica told this error");
            let _ = eprintln!(rt; "am_tool: {name} Gossip Error {words}{remark}");
            status::REFUSED
        }
    }
}
