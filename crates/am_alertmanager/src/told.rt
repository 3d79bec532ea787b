//! The rows of both states in what a replica told, which are searched for in stretches.

ghost use Rattle.std.specs.Prelude.{◌≡◌, ◌≢◌, Err, IfOk, IfErr};
ghost use Rattle.am_alertmanager.specs.Told.{entries_left, row_there, rows_in, rows_left, rows_told, silences_left, there};
ghost use Rattle.am_memberlist.specs.Seen.{row_owned};
ghost use Rattle.am_memberlist.specs.declared.error.AnswerError.TheVariants.{Memory};

use am_gossip::StateKey;
use am_memberlist::{AnswerError, RowSearch, Said, SearchStretch, read_message};
use std::alloc::Global;

/// The rows of both states, as they are in what a replica told.
#[derive(Drop)]
pub struct ToldRows {
    pub silences: Vec<u8>,
    pub entries: Vec<u8>,
}

/// The progress of the search for the rows of both states in what a replica told.
#[derive(Drop)]
pub enum Telling {
    /// The states of the replica, in which the silences are searched for.
    Silences(Vec<u8>, RowSearch),
    /// The states of the replica, in which the log is searched for, and the row of the silences.
    Entries(Vec<u8>, RowSearch, Vec<u8>),
    /// Both rows are found.
    Found(ToldRows),
}

/// Returns the states in an unpacked message.
fn states_of(alloc: Global, message: &[u8]) -> Result<Vec<u8>, AnswerError>
    ensures told { IfOk result (λ states. rows_told message.now ≡ rows_in states.items) }
    ensures fault { IfErr result (λ e. e ≢ Memory → rows_told message.now ≡ Err e) }
{
    match read_message(alloc, message)? {
        Said::States(states) => Ok(states.to_vec(alloc)?),
        Said::Error(_) => Err(AnswerError::Error),
    }
}

/// Returns a row that has to be there.
fn there(row: Option<Vec<u8>>) -> Result<Vec<u8>, AnswerError>
    ensures { row_there result ≡ there (row_owned row) }
{
    match row {
        Some(row) => Ok(row),
        None => Err(AnswerError::NoState),
    }
}

/// Searches on for the silences.
fn silences_on(
    alloc: Global,
    states: Vec<u8>,
    search: RowSearch,
    most: usize,
) -> Result<Telling, AnswerError>
    ensures told { IfOk result (λ telling. rows_left telling ≡ silences_left states.items search) }
    ensures fault { IfErr result (λ e. e ≢ Memory → silences_left states.items search ≡ Err e) }
{
    match search.resume(alloc, &states, most)? {
        SearchStretch::Left(search) => Ok(Telling::Silences(states, search)),
        SearchStretch::Found(row) => {
            let silences = there(row)?;
            let search = RowSearch::new(StateKey::Nfl);
            Ok(Telling::Entries(states, search, silences))
        }
    }
}

/// Searches on for the log.
fn entries_on(
    alloc: Global,
    states: Vec<u8>,
    search: RowSearch,
    silences: Vec<u8>,
    most: usize,
) -> Result<Telling, AnswerError>
    ensures told { IfOk result (λ telling. rows_left telling ≡ entries_left states.items search silences.items) }
    ensures fault { IfErr result (λ e. e ≢ Memory → entries_left states.items search silences.items ≡ Err e) }
{
    match search.resume(alloc, &states, most)? {
        SearchStretch::Left(search) => Ok(Telling::Entries(states, search, silences)),
        SearchStretch::Found(row) => {
            let entries = there(row)?;
            Ok(Telling::Found(ToldRows { silences, entries }))
        }
    }
}

impl Telling {
    /// Begins to search in an unpacked message, whose header and nodes are read.
    ///
    /// # Errors
    ///
    /// The first [`AnswerError`] of the header and the nodes, or [`AnswerError::Memory`].
    pub fn begin(alloc: Global, message: &[u8]) -> Result<Telling, AnswerError>
        // PROMISE: Of a replica's message just the rows of both states are taken, or its first fault is told.
        ensures told { IfOk result (λ telling. rows_left telling ≡ rows_told message.now) }
        ensures fault { IfErr result (λ e. e ≢ Memory → rows_told message.now ≡ Err e) }
    {
        let states = states_of(alloc, message)?;
        Ok(Telling::Silences(states, RowSearch::new(StateKey::Sil)))
    }

    /// Searches on in the parts that begin in the next `most` bytes of the states.
    ///
    /// # Errors
    ///
    /// The first [`AnswerError`]: of the silences, of the log; or [`AnswerError::Memory`].
    pub fn resume(self, alloc: Global, most: usize) -> Result<Telling, AnswerError>
        // PROMISE: However its message is cut into stretches, the same rows of a replica are taken.
        ensures told { IfOk result (λ telling. rows_left telling ≡ rows_left self) }
        ensures fault { IfErr result (λ e. e ≢ Memory → rows_left self ≡ Err e) }
    {
        match self {
            Telling::Silences(states, search) => silences_on(alloc, states, search, most),
            Telling::Entries(states, search, silences) => {
                entries_on(alloc, states, search, silences, most)
            }
            Telling::Found(rows) => Ok(Telling::Found(rows)),
        }
    }
}
