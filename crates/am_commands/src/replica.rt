//! Running replicas, which are asked by their gossip.

use crate::fault::SourceFault;
use crate::host::CommandRuntime;
use crate::opened::{Row, RowOrigin, row_from};
use am_diagnostics::Fault;
use am_gossip::StateKey;
use am_memberlist::{AnswerError, Said, read_message, request_encoding, row_in, unpack_answer};
use am_merge::Held;
use am_options::{PullJob, StateName};
use am_peers::ask;
use am_snapshot::load_bytes;
use am_version_order::Version;
use am_wire::{Message, Unknown};
use std::alloc::{AllocError, Global};
use std::io::{self, BufReader, Read};

/// The maximum number of bytes to which an answer is unpacked.
const MOST_BYTES: usize = 268_435_456;

/// The states that go with a pull: none, in ten bytes of a field that nobody reads. Their count, which ends the head of the
/// request, is a line feed, and so are some of them: who listens for HTTP sees a request that is none, and refuses it at once,
/// where it would wait for the end of its first line.
pub const NO_STATES: &[u8] = b"\x7a\x08\r\n\r\n\r\n\r\n";

/// The maximum number of bytes of a replica's own words that are kept.
const MOST_WORDS: usize = 200;

/// The row of a state as a replica told it, and the number of its bytes that were read.
#[derive(Drop)]
pub struct ToldRow {
    bytes: Vec<u8>,
    at: usize,
}

impl Read for ToldRow {
    fn read(&mut self, buf: &mut [u8]) -> io::Result<usize> {
        let mut rest = self.bytes.get(self.at..).unwrap_or(&[]);
        let count = rest.read(buf)?;
        self.at = self.at.saturating_add(count);
        Ok(count)
    }
}

/// Returns the key of a state.
pub fn key_of(state: StateName) -> StateKey {
    match state {
        StateName::Silences => StateKey::Sil,
        StateName::Log => StateKey::Nfl,
    }
}

/// A replica's message, as far as one state goes.
#[derive(Clone, Copy)]
enum ReplicaAnswer<'m> {
    /// The row of the state that was asked for.
    Row(&'m [u8]),
    /// The words of its error.
    Words(&'m [u8]),
}

/// Sends a replica states, perhaps none, and returns the row of a state that it held before. Once it has answered it has taken
/// them.
pub fn exchange<R: CommandRuntime>(
    rt: &R,
    job: &PullJob<'_>,
    states: &[u8],
) -> Result<Vec<u8>, SourceFault> {
    let message = answer_of(rt, job, states)?;
    let row = row_of(rt.alloc(), job, &message)?;
    copied(rt.alloc(), row)
}

/// Sends a replica states, and returns its message.
pub fn answer_of<R: CommandRuntime>(
    rt: &R,
    job: &PullJob<'_>,
    states: &[u8],
) -> Result<Vec<u8>, SourceFault> {
    match message_of(rt, job, states) {
        Ok(message) => Ok(message),
        Err(fault) => Err(SourceFault::Own(fault)),
    }
}

/// Sends a replica states, and returns its message, or why there is none.
fn message_of<R: CommandRuntime>(
    rt: &R,
    job: &PullJob<'_>,
    states: &[u8],
) -> Result<Vec<u8>, Fault> {
    let alloc = rt.alloc();
    let request = request_encoding(alloc, states)?;
    let answer = ask(alloc, rt, &job.replica, &request, job.time_limit)?;
    Ok(unpack_answer(alloc, answer, MOST_BYTES)?)
}

/// Returns the row in a replica's message, without a copy.
pub fn row_of<'m>(
    alloc: Global,
    job: &PullJob<'_>,
    message: &'m [u8],
) -> Result<&'m [u8], SourceFault> {
    match said_in(alloc, message, key_of(job.state)) {
        Ok(ReplicaAnswer::Row(row)) => Ok(row),
        Ok(ReplicaAnswer::Words(words)) => {
            let words = copied(alloc, first_words(words))?;
            Err(SourceFault::Words(words))
        }
        Err(fault) => Err(SourceFault::Own(fault)),
    }
}

/// Returns a copy of bytes of a replica's message.
fn copied(alloc: Global, bytes: &[u8]) -> Result<Vec<u8>, SourceFault> {
    match bytes.to_vec(alloc) {
        Ok(bytes) => Ok(bytes),
        Err(error) => Err(SourceFault::Own(Fault::Memory(error))),
    }
}

/// Reads what a message says of a state.
fn said_in(alloc: Global, message: &[u8], key: StateKey) -> Result<ReplicaAnswer<'_>, Fault> {
    match read_message(alloc, message)? {
        Said::States(states) => match row_in(alloc, states, key)? {
            Some(row) => Ok(ReplicaAnswer::Row(row)),
            None => Err(Fault::Gossip(AnswerError::NoState)),
        },
        Said::Error(words) => Ok(ReplicaAnswer::Words(words)),
    }
}

/// Returns the first of a replica's words.
fn first_words(words: &[u8]) -> &[u8] {
    words.get(..MOST_WORDS).unwrap_or(words)
}

/// Asks a replica for a state, and returns its row, which is to be read.
pub fn told_by<R: CommandRuntime>(
    rt: &R,
    job: &PullJob<'_>,
) -> Result<BufReader<Row>, SourceFault> {
    let bytes = exchange(rt, job, NO_STATES)?;
    match row_from(rt, job.state, RowOrigin::Replica(ToldRow { bytes, at: 0 })) {
        Ok(reader) => Ok(reader),
        Err(_) => Err(SourceFault::Own(Fault::Memory(AllocError))),
    }
}

/// Asks a replica for a state, and returns the map of its versions with their unknown fields.
pub fn held_by<R: CommandRuntime, V: Version + Message>(
    rt: &R,
    job: &PullJob<'_>,
) -> Result<Held<V>, SourceFault> {
    let message = answer_of(rt, job, NO_STATES)?;
    let row = row_of(rt.alloc(), job, &message)?;
    match load_bytes(rt.alloc(), Unknown::Keep, row) {
        Ok(held) => Ok(held),
        Err(error) => Err(SourceFault::Own(Fault::Snapshot(error))),
    }
}
