//! Bytes on their way to a writer.

ghost use Rattle.std.specs.Prelude.{◌≡◌, [], ◌++◌, ◌+◌, ◌<◌, ◌≤◌, ◌^◌, false, length, vec_len, vec_capacity, IsTrue, OnOk, IfOk, IfErr};
ghost use Rattle.std.specs.Io.KnownBytes.{Appends};
ghost use Rattle.am_snapshot.specs.Writing.{Passes, TakesPart};

use am_wire::{WriteFault, send};
use std::alloc::{AllocError, Global};
use std::io::Write;

/// The number of bytes gathered before they are written.
const ROOM: usize = 65_536;

/// Bytes on their way to a writer, gathered so that few small writes are made.
#[derive(Drop)]
pub struct CountingWriter {
    /// The bytes that wait to be written.
    pub gathered: Vec<u8>,
    /// The number of bytes that went out.
    pub written: u64,
}

impl CountingWriter {
    /// Creates a writer with room for the gathered bytes; the room never grows.
    pub fn new(alloc: Global) -> Result<Self, AllocError>
        ensures { IfOk result (λ out. (out.gathered.items ≡ []) × (out.written ≡ 0)) }
    {
        Ok(CountingWriter {
            gathered: Vec::with_capacity(alloc, ROOM)?,
            written: 0,
        })
    }

    /// Gathers a part if there is room for it, and returns whether there was.
    fn gather(&mut self, part: &[u8]) -> bool
        ensures gathered { IsTrue result → self.new.gathered.items ≡ self.old.gathered.items ++ part.now }
        ensures refused { result ≡ false → self.new.gathered.items ≡ self.old.gathered.items }
        ensures written { self.new.written ≡ self.old.written }
        ensures room { vec_len self.old.gathered + length part.now ≤ 65536 → 65536 ≤ vec_capacity self.old.gathered → IsTrue result }
    {
        part.len() <= ROOM.saturating_sub(self.gathered.len())
            && self.gathered.extend_from_slice(part).is_ok()
    }

    /// Writes the gathered bytes.
    pub fn flush<W: Write>(&mut self, writer: &mut W) -> Result<(), WriteFault>
        requires { self.old.written + vec_len self.old.gathered < 2 ^ 64 }
        ensures passed { OnOk result (Passes (W.contents writer.old)
            (W.contents writer.new) self.old.gathered.items [] [] self.old.written self.new.written) }
        ensures none_left { OnOk result (self.new.gathered.items ≡ []) }
        ensures stopped { IfErr result (λ e. TakesPart (W.contents writer.old)
            (W.contents writer.new) self.old.gathered.items self.old.written e.written) }
    {
        self.written = write_counted(writer, &self.gathered, self.written)?;
        self.gathered.clear();
        Ok(())
    }

    /// Gathers a part. If there is no room, the gathered bytes are written first, and a part that is larger than the room is
    /// written by itself.
    pub fn send<W: Write>(&mut self, writer: &mut W, part: &[u8]) -> Result<(), WriteFault>
        requires { self.old.written + vec_len self.old.gathered + length part.now < 2 ^ 64 }
        ensures passed { OnOk result (Passes (W.contents writer.old)
            (W.contents writer.new) self.old.gathered.items part.now self.new.gathered.items self.old.written self.new.written) }
        ensures stopped { IfErr result (λ e. TakesPart (W.contents writer.old) (W.contents writer.new)
            (self.old.gathered.items ++ part.now) self.old.written e.written) }
    {
        if self.gather(part) {
            return Ok(());
        }
        self.flush(writer)?;
        if !self.gather(part) {
            self.written = write_counted(writer, part, self.written)?;
        }
        Ok(())
    }
}

/// Writes all the bytes, after `before` others, and returns how many went out in all.
fn write_counted<W: Write>(writer: &mut W, bytes: &[u8], before: u64) -> Result<u64, WriteFault>
    requires { before + length bytes.now < 2 ^ 64 }
    ensures all { OnOk result (Appends (W.contents writer.old) (W.contents writer.new) bytes.now) }
    ensures count { IfOk result (λ n. n ≡ before + length bytes.now) }
    ensures stopped { IfErr result (λ e. TakesPart (W.contents writer.old) (W.contents writer.new) bytes.now before e.written) }
{
    match send(writer, bytes) {
        Ok(()) => Ok(before + bytes.len() as u64),
        Err(fault) => Err(WriteFault {
            written: before + fault.written,
        }),
    }
}
