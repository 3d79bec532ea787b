//! Answers to a push/pull.

ghost use Rattle.std.specs.Prelude.{◌≡◌, ◌≢◌, Err, drop, map, IfOk, IfErr};
ghost use Rattle.am_memberlist.specs.Answers.{GivesUnlessMemory};
ghost use Rattle.am_memberlist.specs.Messages.{behind_nodes, states_in, words_in, message_in, packed_in, unpacked_in, plain_of, said_seen, exactly};
ghost use Rattle.am_memberlist.specs.Stretches.{message_of, stretch_of, unpacked_from};
ghost use Rattle.am_memberlist.specs.declared.error.AnswerError.TheVariants.{Memory};
ghost use Rattle.am_memberlist.specs.Msgpack.{value_in, number_of, raw_of};
ghost use Rattle.am_memberlist.specs.Seen.{bytes_seen, items_seen, pair_of, option_seen};

use crate::error::AnswerError;
use crate::msgpack::{MapPair, Scalar, map_at};
use crate::unpacking::{Stretch, Unpacking, unpack};
use std::alloc::Global;

/// The maximum number of nodes in an answer.
pub const MOST_NODES: u64 = 65_536;

/// The type of a compressed message.
const COMPRESSED: u8 = 9;

/// The type of a push/pull.
const PUSH_PULL: u8 = 6;

/// The type of an error.
const ERROR: u8 = 13;

/// The content of a replica's answer.
#[derive(Clone, Copy)]
pub enum Said<'a> {
    /// The states of the replica.
    States(&'a [u8]),
    /// The replica's reason, in its own words, for giving no states.
    Error(&'a [u8]),
}

/// Returns the first pair with a key.
fn value_in<'a>(pairs: &[MapPair<'a>], key: &str) -> Option<MapPair<'a>>
    ensures { option_seen result ≡ value_in key.now (map pair_of pairs.now) }
{
    for pair in pairs {
        if pair.key == key.as_bytes() {
            return Some(*pair);
        }
    }
    None
}

/// Returns the number at a key, or 0 if the key is missing.
fn number_of(pair: Option<MapPair<'_>>) -> Result<u64, AnswerError>
    ensures { result ≡ number_of (option_seen pair.entry) }
{
    match pair {
        None => Ok(0),
        Some(pair) => match pair.value {
            Scalar::Number(number) => Ok(number),
            _ => Err(AnswerError::Form),
        },
    }
}

/// Returns the bytes at a key.
fn raw_of(pair: Option<MapPair<'_>>) -> Result<&[u8], AnswerError>
    ensures { bytes_seen result ≡ raw_of (option_seen pair.entry) }
{
    match pair {
        Some(
            MapPair {
                value: Scalar::Raw(bytes),
                ..
            },
        ) => Ok(bytes),
        _ => Err(AnswerError::Form),
    }
}

/// Returns the bytes, if there are exactly `size` of them.
fn exactly(bytes: &[u8], size: u64) -> Result<&[u8], AnswerError>
    ensures { bytes_seen result ≡ exactly size bytes.now }
{
    if bytes.len() as u64 == size {
        Ok(bytes)
    } else {
        Err(AnswerError::Length)
    }
}

/// Returns the bytes after a number of nodes.
fn behind_nodes(alloc: Global, bytes: &[u8], count: u64) -> Result<&[u8], AnswerError>
    ensures { GivesUnlessMemory (bytes_seen result) (behind_nodes count bytes.now) }
{
    let mut rest = bytes;
    for _ in 0..count {
        let (_, behind) = map_at(alloc, rest)?;
        rest = behind;
    }
    Ok(rest)
}

/// Returns the states after a header and its nodes.
#[tactic(auto, unfolding(crate::specs::Messages::states_in))]
fn states_in(alloc: Global, bytes: &[u8]) -> Result<&[u8], AnswerError>
    ensures { GivesUnlessMemory (bytes_seen result) (states_in bytes.now) }
{
    let (header, rest) = map_at(alloc, bytes)?;
    let count = number_of(value_in(&header, "Nodes"))?;
    let size = number_of(value_in(&header, "UserStateLen"))?;
    if count > MOST_NODES {
        return Err(AnswerError::Nodes);
    }
    let rest = behind_nodes(alloc, rest, count)?;
    exactly(rest, size)
}

/// Returns the words of an error.
#[tactic(auto, unfolding(crate::specs::Messages::words_in))]
fn words_in(alloc: Global, bytes: &[u8]) -> Result<&[u8], AnswerError>
    ensures { GivesUnlessMemory (bytes_seen result) (words_in bytes.now) }
{
    let (pairs, _) = map_at(alloc, bytes)?;
    raw_of(value_in(&pairs, "Error"))
}

/// Reads the content of an uncompressed message, from its first byte to its last.
///
/// # Errors
///
/// Returns the first fault in the bytes, or [`AnswerError::Memory`].
#[tactic(auto, unfolding(crate::specs::Messages::message_in))]
pub fn read_message(alloc: Global, bytes: &[u8]) -> Result<Said<'_>, AnswerError>
    // PROMISE: An answer is its header, its nodes and its states, or its first fault.
    ensures { GivesUnlessMemory (said_seen result) (message_in bytes.now) }
{
    match bytes.split_first() {
        None => Err(AnswerError::Nothing),
        Some((kind, rest)) => match *kind {
            PUSH_PULL => Ok(Said::States(states_in(alloc, rest)?)),
            ERROR => Ok(Said::Error(words_in(alloc, rest)?)),
            kind => Err(AnswerError::Kind(kind)),
        },
    }
}

/// Returns the compressed bytes of a message, after its type.
#[tactic(auto, unfolding(crate::specs::Messages::packed_in))]
fn packed_in(alloc: Global, bytes: &[u8]) -> Result<&[u8], AnswerError>
    ensures { GivesUnlessMemory (bytes_seen result) (packed_in bytes.now) }
{
    let (parts, rest) = map_at(alloc, bytes)?;
    let way = number_of(value_in(&parts, "Algo"))?;
    let packed = raw_of(value_in(&parts, "Buf"))?;
    exactly(rest, 0)?;
    if way != 0 {
        return Err(AnswerError::Compression(way));
    }
    Ok(packed)
}

/// Unpacks the message in a compressed one.
#[tactic(auto, unfolding(crate::specs::Messages::unpacked_in))]
fn unpacked_in(alloc: Global, bytes: &[u8], most: usize) -> Result<Vec<u8>, AnswerError>
    ensures { GivesUnlessMemory (items_seen result) (unpacked_in most bytes.now) }
{
    let packed = packed_in(alloc, bytes)?;
    Ok(unpack(alloc, packed, most)?)
}

/// Returns the message of an answer, unpacked to at most `most` bytes if it is compressed.
///
/// # Errors
///
/// Returns the first fault of the compression, or [`AnswerError::Memory`].
#[tactic(auto, unfolding(crate::specs::Messages::plain_of))]
pub fn unpack_answer(alloc: Global, answer: Vec<u8>, most: usize) -> Result<Vec<u8>, AnswerError>
    ensures { GivesUnlessMemory (items_seen result) (plain_of most answer.items) }
{
    match answer.split_first() {
        Some((kind, rest)) if *kind == COMPRESSED => unpacked_in(alloc, rest, most),
        _ => Ok(answer),
    }
}

/// An answer that is unpacked in stretches.
#[derive(Drop)]
pub enum Answer {
    /// The message of the answer.
    Message(Vec<u8>),
    /// The compressed answer, and the progress of its unpacking.
    Packed(Vec<u8>, Unpacking),
}

impl Answer {
    /// Creates an answer, whose message has at most `most` bytes if it is compressed. Nothing is unpacked yet.
    #[tactic(auto, unfolding(crate::specs::Messages::plain_of))]
    pub fn new(alloc: Global, answer: Vec<u8>, most: usize) -> Answer
        ensures { message_of result ≡ plain_of most answer.items }
    {
        match answer.split_first() {
            Some((kind, _)) if *kind == COMPRESSED => {
                Answer::Packed(answer, Unpacking::new(alloc, most))
            }
            _ => Answer::Message(answer),
        }
    }

    /// Unpacks `count` more codes, as [`Unpacking::resume`] does.
    ///
    /// # Errors
    ///
    /// Returns the errors of [`unpack_answer`].
    pub fn resume(self, alloc: Global, count: usize) -> Result<Answer, AnswerError>
        ensures found { IfOk result (λ answer. message_of answer ≡ message_of self) }
        ensures fault { IfErr result (λ e. e ≢ Memory → message_of self ≡ Err e) }
    {
        let (answer, unpacking) = match self {
            Answer::Message(message) => return Ok(Answer::Message(message)),
            Answer::Packed(answer, unpacking) => (answer, unpacking),
        };
        match resume_in(alloc, &answer, unpacking, count)? {
            Stretch::Whole(message) => Ok(Answer::Message(message)),
            Stretch::Part(unpacking) => Ok(Answer::Packed(answer, unpacking)),
        }
    }
}

/// Returns the bytes after the type of a message.
fn behind_type(message: &[u8]) -> &[u8]
    ensures { result.now ≡ drop 1 message.now }
{
    match message.split_first() {
        Some((_, rest)) => rest,
        None => &[],
    }
}

/// Unpacks one more stretch of a compressed answer.
#[tactic(auto, using(crate::proofs::Stretches::stretched, crate::proofs::Stretches::at_fault, crate::proofs::Stretches::not_packed))]
fn resume_in(
    alloc: Global,
    answer: &[u8],
    unpacking: Unpacking,
    count: usize,
) -> Result<Stretch, AnswerError>
    ensures found { IfOk result (λ stretch. stretch_of answer.now stretch ≡ unpacked_from answer.now unpacking) }
    ensures fault { IfErr result (λ e. e ≢ Memory → unpacked_from answer.now unpacking ≡ Err e) }
{
    let packed = packed_in(alloc, behind_type(answer))?;
    Ok(unpacking.resume(packed, count)?)
}
