//! The jobs of the program.

use crate::options::Options;
use crate::source::{SourceWord, are_live};
use am_peers::HttpServer;
use am_report::Compared;
use am_version_order::Moment;
use am_wire::Unknown;
use std::time::Duration;

/// The job that is asked for.
#[derive(Drop)]
pub enum Job<'a> {
    /// Playing the schedule on standard input, and drawing it if a file is named.
    Replay(Option<&'a str>),
    /// Folding rows.
    Fold(FoldJob<'a>),
    /// Showing a snapshot.
    Show(ShowJob<'a>),
    /// Comparing sources.
    Diff(DiffJob<'a>),
    /// Reading a state of a running replica.
    Pull(PullJob<'a>),
    /// Sending versions to a running replica.
    Push(PushJob<'a>),
    /// Comparing running replicas, and perhaps mending them.
    Mend(MendJob<'a>),
    /// Running a member.
    Instance(Options<'a>),
}

/// Rows of versions that are to be folded.
#[derive(Drop)]
pub struct FoldJob<'a> {
    /// The state of the rows.
    pub state: StateName,
    /// The files that hold the rows, or none if standard input holds one.
    pub files: Vec<&'a str>,
    /// True if each file stands for itself and the logs beside it.
    pub has_logs: bool,
    /// The moment of taking.
    pub now: Moment,
    /// The most bytes of each input, and of the fold.
    pub most: u32,
    /// The treatment of the fields of versions that aren't known here.
    pub unknown: Unknown,
}

/// A snapshot whose live versions are to be shown.
#[derive(Clone, Copy)]
pub struct ShowJob<'a> {
    /// The state of the snapshot.
    pub state: StateName,
    /// The file that holds the snapshot; without one, standard input.
    pub file: Option<&'a str>,
    /// True if the file stands for itself and the logs beside it.
    pub has_logs: bool,
    /// The form in which the snapshot is shown.
    pub form: ViewForm,
    /// The moment of the view; without it, the clock's.
    pub now: Option<Moment>,
    /// The treatment of the fields of versions that aren't known here.
    pub unknown: Unknown,
}

/// The form in which something is printed.
#[derive(Clone, Copy)]
pub enum ViewForm {
    /// Lines of words.
    Lines,
    /// One line of JSON.
    Json,
}

/// The form in which differences are reported.
#[derive(Clone, Copy)]
pub enum DiffForm {
    /// Lines of words.
    Lines,
    /// One line of JSON.
    Json,
    /// Figures in Prometheus' text format.
    Figures,
}

/// A state that instances share.
#[derive(Clone, Copy, PartialEq, Eq)]
pub enum StateName {
    /// The silences, `sil`.
    Silences,
    /// The notification log, `nfl`.
    Log,
}

/// Sources that are to be compared.
#[derive(Drop)]
pub struct DiffJob<'a> {
    /// The state of the sources.
    pub state: StateName,
    /// The part of the sources that is compared.
    pub compared: Compared,
    /// The form in which the differences are reported.
    pub report: DiffForm,
    /// True if more of a version is printed below its line.
    pub is_long: bool,
    /// The moment; without it, the clock's.
    pub now: Option<Moment>,
    /// The sources: 2 to 16, whose names differ.
    pub sources: Vec<SourceWord<'a>>,
    /// The most time that a connection to a server may last.
    pub time_limit: Duration,
    /// True if each file stands for itself and the logs beside it.
    pub has_logs: bool,
}

impl DiffJob<'_> {
    /// Returns whether a source is a server.
    pub fn is_live(&self) -> bool {
        are_live(&self.sources)
    }
}

/// A state of a running replica that is to be read.
#[derive(Clone, Copy)]
pub struct PullJob<'a> {
    /// The state.
    pub state: StateName,
    /// The replica as it was named.
    pub name: &'a str,
    /// The address at which the replica listens for other replicas.
    pub replica: HttpServer<'a>,
    /// The most time that a connection to the replica may last.
    pub time_limit: Duration,
}

/// A running replica to which the versions on standard input are to be sent.
#[derive(Clone, Copy)]
pub struct PushJob<'a> {
    /// The state of the versions, and the replica.
    pub to: PullJob<'a>,
    /// True if nothing is sent, and only what would be is printed.
    pub is_dry: bool,
    /// The moment; without it, the clock's.
    pub now: Option<Moment>,
}

/// Running replicas that are to be compared, and perhaps mended.
#[derive(Drop)]
pub struct MendJob<'a> {
    /// The state that is compared.
    pub state: StateName,
    /// The replicas, 2 to 16, whose names differ.
    pub replicas: Vec<PullJob<'a>>,
    /// True if each replica is sent what it lacks.
    pub is_applied: bool,
    /// The moment; without it, the clock's.
    pub now: Option<Moment>,
}
