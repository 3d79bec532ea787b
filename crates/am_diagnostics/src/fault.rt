//! The lines that are printed of faults.

ghost use Rattle.std.specs.Prelude.{◌≡◌, ◌≤◌};
ghost use Rattle.am_diagnostics.specs.Statuses.{answer_status, fault_status, file_status, row_status, secret_status, server_status};

mod kind;
mod lines;
mod meaning;

use crate::audience::HasAudience;
use crate::occasion::Occasion;
use crate::short_id::ShortId;
use crate::status;
use am_gossip::ConfigError;
use am_memberlist::AnswerError;
use am_peer_auth::{AuthFault, SecretFault};
use am_peers::{ConnectionFault, ServerFault};
use am_reactor::LinkFault;
use am_report::EscapedWord;
use am_silence_json::ListError;
use am_snapshot::SnapshotError;
use am_store::FileFault;
pub(crate) use kind::FaultKind;
use meaning::meaning_of;
use std::alloc::AllocError;
use std::io::ErrorKind;
use std::net::SocketAddr;
use thiserror::Error;

/// Prints a fault of a running member on standard error: its words, its meaning, and its occasion.
pub fn print<R: Eprint>(rt: &R, fault: &Fault, occasion: &Occasion<'_>) {
    let meaning = fault.meaning();
    let _ = eprintln!(rt; "am_tool: {fault}: {meaning}{occasion}");
}

/// Prints on standard error how many faults like this one were not printed.
pub fn print_count<R: Eprint>(rt: &R, count: u64, fault: &Fault, occasion: &Occasion<'_>) {
    let _ = eprintln!(rt; "am_tool: .. and {count} more like {fault}{occasion}");
}

/// Prints a fault on standard error: its words, and for a person its meaning. Returns the exit status of the program.
pub fn report<R: Eprint + HasAudience>(rt: &R, fault: Fault) -> u8
    ensures status { result ≡ fault_status fault }
    ensures some { (1 ≤ result) × (result ≤ 4) }
{
    let remark = rt.audience().told(fault.meaning());
    let _ = eprintln!(rt; "am_tool: {fault}{remark}");
    fault.status()
}

/// Prints a fault on standard error as [`report`] does, after the name of the source that is at fault. Returns the exit status of
/// the program.
pub fn report_source<R: Eprint + HasAudience>(rt: &R, name: &str, fault: Fault) -> u8
    ensures status { result ≡ fault_status fault }
    ensures some { (1 ≤ result) × (result ≤ 4) }
{
    let (name, remark) = (
        EscapedWord(name.as_bytes()),
        rt.audience().told(fault.meaning()),
    );
    let _ = eprintln!(rt; "am_tool: {name} {fault}{remark}");
    fault.status()
}

/// The reason why a job, or a part of it, was not done. A fault is printed as its names from outer to inner, and its numbers.
#[derive(Clone, Copy, Debug, Error)]
pub enum Fault {
    /// Memory ran out.
    #[error("Memory")]
    Memory(#[from(alloc)] AllocError),
    /// A fault of a row that is loaded or folded, or of what was written of one.
    #[error("{0}")]
    Snapshot(#[from] SnapshotError),
    /// A fault of the file of a source.
    #[error("{0}")]
    File(#[from] FileFault),
    /// A fault of a source that is a server.
    #[error("{0}")]
    Server(#[from] ServerFault),
    /// A fault of the list that a server replied.
    #[error("{0}")]
    List(#[from] ListError),
    /// A fault of a replica's answer by gossip.
    #[error(fmt = lines::write_answer_error)]
    Gossip(#[from] AnswerError),
    /// A peer is not NAME=ADDRESS:PORT.
    #[error("Peer")]
    Peer,
    /// The names of the members are at fault.
    #[error("{0}")]
    Config(#[from] ConfigError),
    /// A fault of the file of the silences.
    #[error("Silences {0}")]
    Silences(FileFault),
    /// A fault of the file of the notification log.
    #[error("Log {0}")]
    Log(FileFault),
    /// This many bytes at the end of the log of the silences were being written when the last process ended.
    #[error("Silences Torn {0}")]
    SilencesTorn(u64),
    /// This many bytes at the end of the log of the notification log were being written when the last process ended.
    #[error("Log Torn {0}")]
    LogTorn(u64),
    /// The system refused random bytes.
    #[error("Random {0:?}")]
    Random(ErrorKind),
    /// The secret isn't read.
    #[error("Secret {0}")]
    Secret(SecretFault),
    /// The system refused to listen at an address.
    #[error(fmt = lines::write_listen_fault)]
    Listen(ErrorKind, SocketAddr),
    /// The system refused a connection that came.
    #[error("Accept {0:?}")]
    Accept(ErrorKind),
    /// A fault of a connection.
    #[error("{0}")]
    Connection(ConnectionFault),
    /// A fault that a connection's authenticator found.
    #[error("{0}")]
    Gate(AuthFault),
    /// A connection gave its place to another one, after this many bytes came.
    #[error("Crowded {0}")]
    Crowded(u64),
    /// A connection was closed since too much of what came wasn't finished, after this many bytes came.
    #[error("Unfinished {0}")]
    Unfinished(u64),
    /// The system's clock could not be read at the start.
    #[error("Clock {0:?}")]
    Clock(ErrorKind),
    /// The system's clock is this many seconds behind the moment of the last event.
    #[error("Clock Behind {0}")]
    ClockBehind(u64),
    /// The system's clock is no longer behind the moment of the last event.
    #[error("Clock CaughtUp")]
    ClockCaughtUp,
    /// The time of a member is this many seconds ahead of what has passed, so that the member makes no Tick.
    #[error("Clock Ahead {0}")]
    ClockAhead(u64),
    /// No peer answered the first pull in time, so requests are answered without it.
    #[error("NoPull")]
    NoPull,
    /// An Alertmanager wasn't heard before a decision to notify was said.
    #[error("Unheard")]
    Unheard,
    /// A silence isn't sent to an Alertmanager, which would refuse one of its patterns.
    #[error("Withheld Pattern {0}")]
    WithheldPattern(ShortId),
    /// A silence isn't sent to an Alertmanager, which wouldn't take its matchers.
    #[error("Withheld Matcher {0}")]
    WithheldMatcher(ShortId),
    /// This many matchers, receivers and moments that an Alertmanager told lost fields that aren't known here.
    #[error("Fields Dropped {0}")]
    FieldsDropped(u64),
    /// There was no memory for this many frames for peers.
    #[error("Unsent Memory {0}")]
    UnsentMemory(usize),
    /// This many frames for peers were over their limit.
    #[error("Unsent Limit {0}")]
    UnsentLimit(usize),
    /// This many faults of a member were not told, since nobody read its lines.
    #[error("Lines Lost {0}")]
    LinesLost(u64),
    /// The bytes for the peer at an address are lost.
    #[error(fmt = lines::write_link_fault)]
    Lost(LinkFault, Option<SocketAddr>),
}

impl Fault {
    /// Returns the meaning of the fault, or what is to be done, as a sentence.
    pub fn meaning(&self) -> &'static str {
        meaning_of(self)
    }

    /// Returns the exit status of the program, which is never that of a job that is done.
    pub fn status(self) -> u8
        ensures status { result ≡ fault_status self }
        ensures some { (1 ≤ result) × (result ≤ 4) }
    {
        match self {
            Fault::Snapshot(error) => status_of_snapshot(error),
            Fault::Memory(_)
            | Fault::List(ListError::Memory)
            | Fault::Config(ConfigError::Memory) => status::MEMORY,
            Fault::List(_) => status::REFUSED,
            Fault::Peer | Fault::Config(_) => status::WORDS,
            Fault::File(fault) | Fault::Silences(fault) | Fault::Log(fault) => status_of_file(
                fault,
            ),
            Fault::Server(fault) => status_of_server(fault),
            Fault::Gossip(error) => status_of_answer(error),
            Fault::Secret(fault) => status_of_secret(fault),
            _ => status::OUTSIDE,
        }
    }
}

/// Returns the exit status for a fault of a row.
fn status_of_snapshot(error: SnapshotError) -> u8
    ensures status { result ≡ row_status error }
    ensures some { (1 ≤ result) × (result ≤ 4) }
{
    match error {
        SnapshotError::Wire(_) | SnapshotError::DuplicateKey | SnapshotError::TooLarge => {
            status::REFUSED
        }
        SnapshotError::Read { .. } | SnapshotError::Write { .. } => status::OUTSIDE,
        SnapshotError::Memory => status::MEMORY,
    }
}

/// Returns the exit status for a fault of a file.
fn status_of_file(fault: FileFault) -> u8
    ensures status { result ≡ file_status fault }
    ensures some { (1 ≤ result) × (result ≤ 4) }
{
    match fault {
        FileFault::File(_) | FileFault::NotAFile | FileFault::Locked => status::OUTSIDE,
        FileFault::Snapshot(error) => status_of_snapshot(error),
    }
}

/// Returns the exit status for a fault of a server.
fn status_of_server(fault: ServerFault) -> u8
    ensures status { result ≡ server_status fault }
    ensures some { (1 ≤ result) × (result ≤ 4) }
{
    match fault {
        ServerFault::Connect(_) | ServerFault::Write { .. } | ServerFault::Read { .. } => {
            status::OUTSIDE
        }
        ServerFault::TooLarge | ServerFault::NoHead | ServerFault::Status(_) => status::REFUSED,
        ServerFault::Memory => status::MEMORY,
    }
}

/// Returns the exit status for a fault of a replica's answer.
fn status_of_answer(error: AnswerError) -> u8
    ensures status { result ≡ answer_status error }
    ensures some { (1 ≤ result) × (result ≤ 4) }
{
    match error {
        AnswerError::Row(error) => status_of_snapshot(SnapshotError::from(error)),
        AnswerError::Memory => status::MEMORY,
        _ => status::REFUSED,
    }
}

/// Returns the exit status for a fault of a secret.
fn status_of_secret(fault: SecretFault) -> u8
    ensures status { result ≡ secret_status fault }
    ensures some { (1 ≤ result) × (result ≤ 4) }
{
    match fault {
        SecretFault::File(_) | SecretFault::Read(_) => status::OUTSIDE,
        SecretFault::Short | SecretFault::Long => status::REFUSED,
        SecretFault::Memory => status::MEMORY,
    }
}
