//! A reader of the messages of a row, one after another.

ghost use Rattle.std.specs.Prelude.{◌≡◌, ℕ, List, [], ◌∷◌, ◌++◌, ◌+◌, ◌<◌, ◌≤◌, ◌^◌, None, length, take, drop, vec_len};
ghost use Rattle.std.specs.Prelude.{IfOk, OnOk, IfErr, OnErr, IfSome, MatchResult};
ghost use Rattle.std.specs.Io.KnownBytes.{Consumes, Keeps, IsAtEnd};
ghost use Rattle.am_wire.specs.Limits.{most};
ghost use Rattle.am_wire.specs.Reader.{IsRow, Stops, Answers, row_fault, ByteStops, length_at, IsLength, BytesStop};
ghost use Rattle.am_wire.specs.declared.reader.RowFault.TheVariants.{Memory};
ghost use Rattle.am_wire.specs.declared.reader.RowPosition.TheVariants.{Before};

use crate::error::WireError;
use crate::message::Message;
use crate::rows::MOST_MESSAGE_BYTES;
use crate::unknown::Unknown;
use crate::varint::varint_from;
use std::alloc::{AllocError, Global};
use std::io::{self, Read};
use std::marker::{Model, PhantomData};
use thiserror::Error;

/// The least room that is made for a message's bytes.
const LEAST_ROOM: usize = 4096;

/// The reason why a message of a row was not read.
#[derive(Clone, Copy, Debug, PartialEq, Eq, Error)]
pub enum RowFault {
    #[error("a read failed after {at} bytes")]
    Read { at: usize },
    #[error("{0}")]
    Wire(WireError),
    #[error("the input is too large")]
    TooLarge,
    #[error("the reading ended with an earlier fault")]
    Ended,
    #[error("out of memory")]
    Memory,
}

impl From<WireError> for RowFault {
    ghost from_gives = { λ e fault. fault ≡ row_fault e };

    fn from(e: WireError) -> RowFault {
        match e {
            WireError::Memory => RowFault::Memory,
            fault => RowFault::Wire(fault),
        }
    }
}

impl From<AllocError> for RowFault {
    ghost from_gives = { λ _ fault. fault ≡ Memory };

    fn from(_e: AllocError) -> RowFault {
        RowFault::Memory
    }
}

/// The position of a reader of rows.
#[derive(Clone, Copy)]
pub enum RowPosition {
    /// The next row begins at this offset, and the input may have `limit` bytes.
    Before { at: usize, limit: u32 },
    /// The input has ended.
    Over,
    /// An earlier call failed.
    Refused,
}

/// A reader of the messages of a row, which holds only the one that is being read. All are read into the same buffer.
#[derive(Drop)]
pub struct RowReader<V: Message> {
    alloc: Global,
    position: RowPosition,
    message: Vec<u8>,
    of: PhantomData<V>,
}

/// The view is the reader's position.
impl<V: Message> Model for RowReader<V> {
    ghost use Rattle.std.specs.Prelude.{◌≡◌, ℕ, ◌≤◌};
    ghost use Rattle.am_wire.specs.declared.reader.RowPosition.{RowPosition};
    ghost use Rattle.am_wire.specs.declared.reader.RowPosition.TheVariants.{Before};

    ghost Value = { RowPosition };

    ghost view = { λ r. r.position };

    ghost invariant = { λ r. (at limit : ℕ) → r.position ≡ Before at limit → at ≤ limit };
}

impl<V: Message> RowReader<V> {
    /// Returns a reader at the start of an input of at most [`MOST_MESSAGE_BYTES`]. Nothing is allocated.
    pub fn new(alloc: Global) -> Self
        ensures { result ≡ Before 0 most }
    {
        Self::within(alloc, MOST_MESSAGE_BYTES as u32)
    }

    /// Returns a reader at the start of an input of at most `limit` bytes. Nothing is allocated.
    pub fn within(alloc: Global, limit: u32) -> Self
        ensures { result ≡ Before 0 limit }
    {
        RowReader {
            alloc,
            position: RowPosition::Before { at: 0, limit },
            message: Vec::new(alloc),
            of: PhantomData,
        }
    }

    /// Reads the next message, without its unknown fields. No byte behind its row is read, and the row's length is read byte
    /// by byte. At the end of the input this returns `None`, and so does every call after that.
    ///
    /// # Errors
    ///
    /// [`RowFault::Wire`] for the first fault of a row, which is found once the row is whole or its length is at fault;
    /// [`RowFault::Read`] if a read fails, which is not tried again; [`RowFault::TooLarge`] if the input has more bytes than
    /// it may have; [`RowFault::Memory`]; and [`RowFault::Ended`] at every call after one of these.
    pub fn next<R: Read>(&mut self, reader: &mut R) -> Result<Option<V>, RowFault>
        // PROMISE: A row's next message is read from exactly its own bytes.
        ensures { (bytes : List ℕ) × Consumes (R.remaining reader.old) (R.remaining reader.new) bytes ×
            Answers (V.reads Unknown.Drop) self.old bytes (R.remaining reader.new) result self.new }
    {
        self.next_by(Unknown::Drop, reader)
    }

    /// Reads the next message as [`RowReader::next`] does, but drops or keeps its unknown fields as `unknown` says.
    ///
    /// # Errors
    ///
    /// As for [`RowReader::next`].
    pub fn next_by<R: Read>(
        &mut self,
        unknown: Unknown,
        reader: &mut R,
    ) -> Result<Option<V>, RowFault>
        ensures { (bytes : List ℕ) × Consumes (R.remaining reader.old) (R.remaining reader.new) bytes ×
            Answers (V.reads unknown) self.old bytes (R.remaining reader.new) result self.new }
    {
        let (at, limit) = match self.position {
            RowPosition::Before { at, limit } => (at, limit),
            RowPosition::Over => return Ok(None),
            RowPosition::Refused => return Err(RowFault::Ended),
        };
        self.position = RowPosition::Refused;
        let Some((size, start)) = read_length(reader, at, limit)? else {
            self.position = RowPosition::Over;
            return Ok(None);
        };
        read_message_bytes(&mut self.message, reader, limit, at, start, size)?;
        let value = V::decode_at(self.alloc, unknown, &self.message, start)?;
        self.position = RowPosition::Before {
            at: start + size,
            limit,
        };
        Ok(Some(value))
    }
}

/// Reads the byte at the offset `place`, or returns `None` at the end of the input.
fn read_byte<R: Read>(reader: &mut R, place: usize, limit: u32) -> Result<Option<u8>, RowFault>
    ensures some { IfOk result (λ o. IfSome o (λ byte.
        Consumes (R.remaining reader.old) (R.remaining reader.new) (byte ∷ []) × (place < limit))) }
    ensures none { IfOk result (λ o. o ≡ None →
        Consumes (R.remaining reader.old) (R.remaining reader.new) [] × IsAtEnd (R.remaining reader.new)) }
    ensures fault { IfErr result (λ fault. (bytes : List ℕ) ×
        Consumes (R.remaining reader.old) (R.remaining reader.new) bytes × ByteStops limit place bytes fault) }
{
    let mut byte = [0; 1];
    match reader.read(&mut byte) {
        Ok(0) => Ok(None),
        Ok(_) if place >= limit as usize => Err(RowFault::TooLarge),
        Ok(_) => Ok(Some(byte[0])),
        Err(_) => Err(RowFault::Read { at: place }),
    }
}

/// Returns the length of a row that the bytes spell.
#[tactic(auto, unfolding(crate::specs::Reader::length_at))]
fn length_from(bytes: &[u8], at: usize) -> Result<usize, WireError>
    ensures { result ≡ length_at at bytes.now }
{
    let (size, _) = varint_from(bytes, at)?;
    if size > MOST_MESSAGE_BYTES {
        return Err(WireError::TooLarge);
    }
    Ok(size as usize)
}

/// Reads the length of the row at the offset `at`. Returns it with the offset at which the message begins, or `None` at
/// the end of the input.
fn read_length<R: Read>(
    reader: &mut R,
    at: usize,
    limit: u32,
) -> Result<Option<(usize, usize)>, RowFault>
    requires { at ≤ limit }
    ensures some { IfOk result (λ o. IfSome o (λ x. (bytes : List ℕ) ×
        Consumes (R.remaining reader.old) (R.remaining reader.new) bytes ×
        IsLength at x.0 x.1 bytes × (x.1 ≤ limit))) }
    ensures none { IfOk result (λ o. o ≡ None →
        Consumes (R.remaining reader.old) (R.remaining reader.new) [] × IsAtEnd (R.remaining reader.new)) }
    ensures fault { IfErr result (λ fault. (bytes : List ℕ) ×
        Consumes (R.remaining reader.old) (R.remaining reader.new) bytes ×
        Stops limit at bytes (R.remaining reader.new) fault) }
{
    let cut = WireError::Truncated { at };
    let mut text = [0; 10];
    let mut len = 0;
    loop {
        let Some(byte) = read_byte(reader, at + len, limit)? else {
            if len == 0 {
                return Ok(None);
            }
            return Err(RowFault::Wire(cut));
        };
        text[len] = byte;
        len += 1;
        match length_from(&text[..len], at) {
            Ok(size) => return Ok(Some((size, at + len))),
            Err(fault) if fault == cut => {}
            Err(fault) => return Err(RowFault::Wire(fault)),
        }
    }
}

/// Reads bytes into the room behind the first `at` bytes, and returns how many were read.
fn read_at<R: Read>(reader: &mut R, room: &mut [u8], at: usize) -> io::Result<usize>
    requires { at < length room.old }
    ensures front { take at room.new ≡ take at room.old }
    ensures fits { IfOk result (λ n. at + n ≤ length room.new) }
    ensures ok { IfOk result (λ n. Consumes (R.remaining reader.old) (R.remaining reader.new) (take n (drop at room.new))) }
    ensures err { OnErr result (Keeps (R.remaining reader.old) (R.remaining reader.new)) }
    ensures end { IfOk result (λ n. n ≡ 0 → IsAtEnd (R.remaining reader.new)) }
{
    reader.read(&mut room[at..])
}

/// Makes room behind the first `len` of the `wanted` bytes: for `len` bytes more, or 4,096 if that is greater, but never for
/// more than are wanted.
fn make_room(bytes: &mut Vec<u8>, len: usize, wanted: usize) -> Result<(), AllocError>
    requires within { len ≤ vec_len bytes.old }
    requires below { len < wanted }
    requires most { vec_len bytes.old ≤ wanted }
    ensures front { take len bytes.new.items ≡ take len bytes.old.items }
    ensures room { OnOk result (len < vec_len bytes.new) }
    ensures most { vec_len bytes.new ≤ wanted }
{
    if bytes.len() > len {
        return Ok(());
    }
    let more = (wanted - len).min(len.max(LEAST_ROOM));
    bytes.resize(len + more, 0)
}

/// Reads `wanted` bytes, or fewer at the end of the input, in place of those that are held. They begin at the offset
/// `start`. Room is made as they arrive, so that a large length alone takes no memory.
fn read_up_to<R: Read>(
    bytes: &mut Vec<u8>,
    reader: &mut R,
    start: usize,
    wanted: usize,
) -> Result<(), RowFault>
    requires { start + wanted < 2 ^ 64 }
    ensures whole { OnOk result (Consumes (R.remaining reader.old) (R.remaining reader.new) bytes.new.items) }
    ensures size { OnOk result (vec_len bytes.new ≤ wanted) }
    ensures end { OnOk result (vec_len bytes.new < wanted → IsAtEnd (R.remaining reader.new)) }
    ensures fault { IfErr result (λ fault. (read : List ℕ) ×
        Consumes (R.remaining reader.old) (R.remaining reader.new) read × BytesStop start wanted read fault) }
{
    let mut len = 0;
    bytes.clear();
    while len < wanted {
        make_room(bytes, len, wanted)?;
        match read_at(reader, bytes.as_mut_slice(), len) {
            Ok(0) => break,
            Ok(n) => len += n,
            Err(_) => return Err(RowFault::Read { at: start + len }),
        }
    }
    bytes.truncate(len);
    Ok(())
}

/// Reads into `bytes` the message of `size` bytes that begins at the offset `start`. Its row begins at the offset `at`.
fn read_message_bytes<R: Read>(
    bytes: &mut Vec<u8>,
    reader: &mut R,
    limit: u32,
    at: usize,
    start: usize,
    size: usize,
) -> Result<(), RowFault>
    requires { start ≤ limit }
    ensures { (read : List ℕ) × Consumes (R.remaining reader.old) (R.remaining reader.new) read ×
        ((text : List ℕ) → IsLength at size start text → MatchResult result
        (λ _. (bytes.new.items ≡ read) × (length read ≡ size) × IsRow at (text ++ read) read ×
        (at + length (text ++ read) ≤ limit))
        (Stops limit at (text ++ read) (R.remaining reader.new))) }
{
    let room = limit as usize + 1 - start;
    read_up_to(bytes, reader, start, size.min(room))?;
    if bytes.len() == room {
        return Err(RowFault::TooLarge);
    }
    if bytes.len() < size {
        return Err(RowFault::Wire(WireError::Truncated { at }));
    }
    Ok(())
}
