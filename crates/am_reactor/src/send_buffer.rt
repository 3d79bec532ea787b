//! The bytes that go over a link.

ghost use Rattle.std.specs.Prelude.{◌≡◌, ◌↔◌, ◌<◌, [], ◌++◌, ◌⊎◌, length, Ok, IfOk, IfErr, IsErrOf, OnOk, OnErr};
ghost use Rattle.am_reactor.specs.SendBuffer.{room_in, with_behind, Empties};

use crate::connection::Readiness;
use crate::fault::LinkFault;
use crate::stream::Stream;
use crate::writing::{WRITES, WriteResult, write_once};
use std::alloc::{AllocError, Global};
use std::io::ErrorKind;
use std::marker::Model;

/// The bytes that go over a link: those that went out, and those that wait behind them.
#[derive(Drop)]
pub struct SendBuffer {
    bytes: Vec<u8>,
    /// The number of bytes that went out.
    written: usize,
}

impl Model for SendBuffer {
    ghost use Rattle.std.specs.Prelude.{◌≤◌, take, drop, vec_len};
    ghost use Rattle.am_reactor.specs.SendBuffer.{Outgo};

    ghost Value = { Outgo };

    ghost view = { λ o. record { gone = take o.written o.bytes.items; waiting = drop o.written o.bytes.items } };

    ghost invariant = { λ o. o.written ≤ vec_len o.bytes };
}

/// The progress of what goes over a link.
#[derive(Clone, Copy)]
pub enum Progress {
    /// Something is still to be written.
    Going(Readiness),
    /// All is written.
    Done,
}

impl SendBuffer {
    /// Returns a buffer of a greeting, with bytes behind it.
    pub fn new(alloc: Global, greeting: &[u8], bytes: &[u8]) -> Result<SendBuffer, AllocError>
        ensures gone { IfOk result (λ buffer. buffer.gone ≡ []) }
        ensures greeted { IfOk result (λ buffer. buffer.waiting ≡ greeting.now ++ bytes.now) }
    {
        let mut opening = Vec::from_slice(alloc, greeting)?;
        opening.extend_from_slice(bytes)?;
        Ok(SendBuffer {
            bytes: opening,
            written: 0,
        })
    }

    /// Returns the number of bytes that went out.
    pub fn written(&self) -> usize
        ensures { result ≡ length self.now.gone }
    {
        self.written
    }

    /// Returns whether nothing waits.
    pub fn is_empty(&self) -> bool {
        self.written == self.bytes.len()
    }

    /// Appends bytes behind those that wait, if the buffer then has at most `most` bytes, including those that went out.
    ///
    /// # Errors
    ///
    /// [`LinkFault::Full`] and [`LinkFault::Memory`].
    pub fn append(&mut self, bytes: &[u8], most: usize) -> Result<(), LinkFault>
        ensures behind { OnOk result (self.new ≡ with_behind self.old bytes.now) }
        ensures unchanged { OnErr result (self.new ≡ self.old) }
        ensures full { IsErrOf result LinkFault.Full ↔ (room_in most self.old < length bytes.now) }
        ensures faults { IfErr result (λ fault. (fault ≡ LinkFault.Full) ⊎ (fault ≡ LinkFault.Memory)) }
    {
        if bytes.len() > most.saturating_sub(self.bytes.len()) {
            return Err(LinkFault::Full);
        }
        self.bytes.extend_from_slice(bytes)?;
        Ok(())
    }

    /// Begins anew with these bytes, after all before them went out.
    pub fn begin_anew(&mut self, bytes: Vec<u8>)
        requires emptied { self.old.waiting ≡ [] }
        ensures gone { self.new.gone ≡ [] }
        ensures waiting { self.new.waiting ≡ bytes.items }
    {
        *self = SendBuffer { bytes, written: 0 };
    }

    /// Writes once of the bytes that wait.
    fn write_once<C: Stream>(&mut self, stream: &mut C) -> WriteResult
        ensures out { Empties (C.gone stream.old) (C.gone stream.new) self.old self.new }
        ensures all { (result ≡ WriteResult.All) ↔ (self.old.waiting ≡ []) }
        ensures unread { C.arrived stream.new ≡ C.arrived stream.old }
    {
        let wrote = write_once(stream, &self.bytes[self.written..]);
        if let WriteResult::Part(count) = wrote {
            self.written += count;
        }
        wrote
    }

    /// Writes the bytes that wait, until no more is taken or the writes of this turn are used up.
    ///
    /// # Errors
    ///
    /// [`LinkFault::Write`].
    pub fn send_on<C: Stream>(&mut self, stream: &mut C) -> Result<Progress, LinkFault>
        ensures out { Empties (C.gone stream.old) (C.gone stream.new) self.old self.new }
        ensures done { result ≡ Ok Progress.Done → self.new.waiting ≡ [] }
        ensures unread { C.arrived stream.new ≡ C.arrived stream.old }
        ensures failed { IfErr result (λ fault. (kind : _) × (fault ≡ LinkFault.Write (length self.new.gone) kind)) }
    {
        for _ in 0..WRITES {
            match self.write_once(stream) {
                WriteResult::All => return Ok(Progress::Done),
                WriteResult::Nothing => return Ok(Progress::Going(Readiness::Idle)),
                WriteResult::Part(_) | WriteResult::Interrupted => {}
                WriteResult::Failed(kind) => {
                    return Err(LinkFault::Write {
                        written: self.written as u64,
                        kind,
                    });
                }
            }
        }
        Ok(Progress::Going(Readiness::Busy))
    }
}
