//! The batches of a file, read one after the other.

ghost use Rattle.std.specs.Prelude.{◌≡◌, ◌≢◌, ◌+◌, ◌<◌, ◌≤◌, ◌^◌, ◌++◌, [], ◌∷◌, ℕ, List, length, take, true, false, None, slice_index, vec_len, IfOk, OnOk, OnErr, IfSome, IsErrOf};
ghost use Rattle.std.specs.Int.{w64, from_le_bytes};
ghost use Rattle.std.specs.Io.KnownBytes.{Consumes, IsAtEnd};
ghost use Rattle.am_store.specs.Reading.{IsNext, IsLast, IsFound};
ghost use Rattle.am_store.specs.declared.log_error.LogError.TheVariants.{Closed};

use crate::log_error::LogError;
use std::alloc::Global;
use std::io::Read;

/// The number of bytes in a gate and a length.
const HEAD_BYTES: u64 = 9;

const ROOM_BYTES: usize = 512;

/// The number of bytes at which an input is too long; no file has as many.
const MOST_BYTES: u64 = 1 << 62;

/// A reader of a file's batches up to the first block that is closed or cut short.
#[derive(Drop)]
pub struct Batches {
    alloc: Global,
    /// The part of a block's gate and length that was read.
    head: Vec<u8>,
    end: u64,
    behind: u64,
    is_over: bool,
}

impl Batches {
    ghost use Rattle.am_store.specs.Batches.{end_of, behind_of, over};

    /// Returns a reader before the first block.
    pub fn new(alloc: Global) -> Self
        ensures end { end_of result ≡ 0 }
        ensures over { over result ≡ false }
    {
        Batches {
            alloc,
            head: Vec::new(alloc),
            end: 0,
            behind: 0,
            is_over: false,
        }
    }

    /// Returns the number of bytes in the whole blocks that were read.
    pub fn end(&self) -> u64
        ensures { result ≡ end_of self.now }
    {
        self.end
    }

    /// Returns the number of bytes behind the last whole block, once it has been read.
    pub fn behind(&self) -> u64
        ensures { result ≡ behind_of self.now }
    {
        self.behind
    }

    /// Reads the next batch. `None` stands for the first block that isn't whole, and the input is then read to its end.
    ///
    /// # Errors
    ///
    /// [`LogError::Failed`] if a read failed, [`LogError::Memory`], [`LogError::Full`] for an input of more than 2^62 bytes, and
    /// [`LogError::Closed`] at each call after `None` or an error.
    pub fn next<R: Read>(&mut self, reader: &mut R) -> Result<Option<Vec<u8>>, LogError>
        ensures batch { IfOk result (λ answer. IfSome answer (λ batch.
            IsNext (R.remaining reader.old) (R.remaining reader.new) batch.items)) }
        ensures end { IfOk result (λ answer. IfSome answer (λ batch. end_of self.new ≡ end_of self.old + 9 + vec_len batch)) }
        ensures going_on { IfOk result (λ answer. IfSome answer (λ _. over self.new ≡ false)) }
        ensures ended { IfOk result (λ answer. answer ≡ None → over self.new ≡ true) }
        ensures err { OnErr result (over self.new ≡ true) }
        ensures last { IfOk result (λ answer. answer ≡ None → IsLast (R.remaining reader.old) (behind_of self.new)) }
        ensures same_end { IfOk result (λ answer. answer ≡ None → end_of self.new ≡ end_of self.old) }
        ensures closed { over self.old ≡ true → IsErrOf result Closed }
    {
        if self.is_over {
            return Err(LogError::Closed);
        }
        self.is_over = true;
        if self.end >= MOST_BYTES {
            return Err(LogError::Full);
        }
        match read_block(self.alloc, &mut self.head, reader)? {
            FoundBlock::Whole { batch } => {
                self.end += HEAD_BYTES + batch.len() as u64;
                self.is_over = false;
                Ok(Some(batch))
            }
            FoundBlock::Part { read } => {
                self.behind = skip_rest(reader, read)?;
                Ok(None)
            }
        }
    }
}

/// The next thing in a file.
#[derive(Drop)]
enum FoundBlock {
    /// A whole block with this batch.
    Whole { batch: Vec<u8> },
    /// An incomplete or closed block, of which `read` bytes were read.
    Part { read: u64 },
}

/// Reads a block, or the front of what isn't one. The head then has its gate and its length.
fn read_block<R: Read>(
    alloc: Global,
    head: &mut Vec<u8>,
    reader: &mut R,
) -> Result<FoundBlock, LogError>
    ensures { IfOk result (λ found. (bytes : List ℕ) ×
        Consumes (R.remaining reader.old) (R.remaining reader.new) bytes ×
        IsFound bytes (R.remaining reader.new) found) }
{
    head.clear();
    read_up_to(head, reader, HEAD_BYTES)?;
    let Some(size) = size_in(head) else {
        return Ok(FoundBlock::Part {
            read: head.len() as u64,
        });
    };
    let mut batch = Vec::with_capacity(alloc, size.min(ROOM_BYTES as u64) as usize)?;
    read_up_to(&mut batch, reader, size)?;
    if (batch.len() as u64) < size {
        return Ok(FoundBlock::Part {
            read: HEAD_BYTES + batch.len() as u64,
        });
    }
    Ok(FoundBlock::Whole { batch })
}

/// Returns the length behind an open gate.
fn size_in(head: &[u8]) -> Option<u64>
    ensures some { IfSome result (λ n. (size : List ℕ) × (head.now ≡ 1 ∷ size) × (length size ≡ 8) × (from_le_bytes w64 size ≡ n)) }
    ensures none { result ≡ None → length head.now ≡ 9 → slice_index head.now 0 ≢ 1 }
{
    let [1, a, b, c, d, e, f, g, h] = head else {
        return None;
    };
    Some(u64::from_le_bytes([*a, *b, *c, *d, *e, *f, *g, *h]))
}

/// Reads into the front of the room, and returns the number of bytes.
fn read_some<R: Read>(reader: &mut R, room: &mut [u8], most: usize) -> Result<usize, LogError>
    requires some { 0 < most }
    requires fits { most ≤ length room.old }
    ensures read { IfOk result (λ n. Consumes (R.remaining reader.old) (R.remaining reader.new) (take n room.new)) }
    ensures few { IfOk result (λ n. n ≤ most) }
    ensures end { IfOk result (λ n. n ≡ 0 → IsAtEnd (R.remaining reader.new)) }
{
    Ok(reader.read(&mut room[..most])?)
}

/// Reads `wanted` bytes, or fewer at the end of the input. Room is made as they come, so that no length takes memory by itself.
fn read_up_to<R: Read>(bytes: &mut Vec<u8>, reader: &mut R, wanted: u64) -> Result<(), LogError>
    requires { bytes.old.items ≡ [] }
    ensures whole { OnOk result (Consumes (R.remaining reader.old) (R.remaining reader.new) bytes.new.items) }
    ensures size { OnOk result (length bytes.new.items ≤ wanted) }
    ensures end { OnOk result (length bytes.new.items < wanted → IsAtEnd (R.remaining reader.new)) }
{
    let mut room = [0; ROOM_BYTES];
    while (bytes.len() as u64) < wanted {
        let left = wanted - bytes.len() as u64;
        let read = read_some(reader, &mut room, left.min(ROOM_BYTES as u64) as usize)?;
        if read == 0 {
            break;
        }
        bytes.extend_from_slice(&room[..read])?;
    }
    Ok(())
}

/// Reads to the end of the input, and returns the number of bytes that came, including those read before.
fn skip_rest<R: Read>(reader: &mut R, read: u64) -> Result<u64, LogError>
    ensures { IfOk result (λ n. (bytes : List ℕ) × Consumes (R.remaining reader.old) (R.remaining reader.new) bytes ×
        (n ≡ read + length bytes) × IsAtEnd (R.remaining reader.new)) }
{
    let mut room = [0; ROOM_BYTES];
    let mut behind = read;
    while behind < MOST_BYTES {
        let more = read_some(reader, &mut room, ROOM_BYTES)?;
        if more == 0 {
            return Ok(behind);
        }
        behind += more as u64;
    }
    Err(LogError::Full)
}
