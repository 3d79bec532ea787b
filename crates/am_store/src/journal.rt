//! Blocks: a gate byte, the length of a batch in eight bytes, the lowest first, and the batch. A block counts if its gate is open
//! (1) and it is whole. A closed gate (0) follows the last block, and is on the disk before anything is written behind it. So
//! bytes that a crash leaves are never taken for a batch, and no checksum is trusted.

ghost use Rattle.std.specs.Prelude.{◌≡◌, ◌++◌, [], ◌∷◌, ℕ, List, length, false, take, IsTrue, IfOk, IfErr, OnOk, OnErr};
ghost use Rattle.std.specs.Int.{w64, to_le_bytes};
ghost use Rattle.am_store.specs.Device.{Only, LeavesOnly, ErrorHasCause, HasCause};
ghost use Rattle.am_store.specs.Blocks.{recovered, blocks_length, IsAtRest, with_batch, IsBeforeOrAfter};
ghost use Rattle.am_store.specs.Causes.{HasCommitCause};

use crate::device::Device;
use crate::log_error::LogError;
use crate::steps::{shorten, write_down};
use std::alloc::{AllocError, Global};

const CLOSED: u8 = 0;

const OPEN: u8 = 1;

/// The number of bytes at which a log is full: no batch is written behind them.
const MOST_BYTES: u64 = 1 << 62;

/// A log to which batches are added. While it is usable, its file is whole blocks followed by a closed gate, all of it on the
/// disk.
#[derive(Drop)]
pub struct Journal<D: Device> {
    device: D,
    /// The place of the closed gate.
    end: u64,
    is_usable: bool,
    ghost at_rest: { IsTrue is_usable → IsAtRest end (D.Device.seen device) },
    ghost durable: { IsTrue is_usable → Only (D.Device.seen device) (D.Device.may_leave device) },
}

impl<D: Device> Journal<D> {
    ghost use Rattle.am_store.specs.Journal.{device_of, end_of, usable};

    /// Opens a file whose whole blocks take `end` bytes, and cuts off what follows them. This may crash too, at any moment, and
    /// the file has the same batches. An `Err` hands the file back.
    ///
    /// # Errors
    ///
    /// [`LogError::Failed`] if the disk failed, or [`LogError::Memory`].
    pub fn open(device: D, end: u64) -> Result<Journal<D>, (LogError, D)>
        // After a restart, what is read is what is on the disk.
        requires durable { Only (D.seen device) (D.may_leave device) }
        requires end { end ≡ blocks_length (recovered (D.seen device)) }
        ensures usable { IfOk result (λ journal. IsTrue (usable journal)) }
        // PROMISE: Opening a log after a crash keeps exactly its whole batches.
        ensures same { IfOk result (λ journal. recovered (D.seen (device_of journal)) ≡ recovered (D.seen device)) }
        ensures any_moment { IfOk result (λ journal. LeavesOnly D.moment D.left_since device (device_of journal)
            (λ c. recovered c ≡ recovered (D.seen device))) }
        ensures any_moment_err { IfErr result (λ e. LeavesOnly D.moment D.left_since device e.1
            (λ c. recovered c ≡ recovered (D.seen device))) }
        ensures cause { IfErr result (λ e. ErrorHasCause (D.faults device) (D.faults e.1) e.0) }
    {
        let mut device = device;
        match repair(&mut device, end) {
            Ok(()) => Ok(Journal {
                device,
                end,
                is_usable: true,
            }),
            Err(error) => Err((error, device)),
        }
    }

    /// Returns whether no call has failed.
    pub fn is_usable(&self) -> bool
        ensures { result ≡ usable self.now }
    {
        self.is_usable
    }

    /// Returns the number of bytes in its whole blocks.
    pub fn len(&self) -> u64
        ensures { result ≡ end_of self.now }
    {
        self.end
    }

    /// Returns its file.
    pub fn into_device(self) -> D
        ensures { result ≡ device_of self }
    {
        self.device
    }

    /// Adds a batch. `Ok` acknowledges it: from then on every crash leaves a file that has it. An empty batch writes nothing.
    ///
    /// # Errors
    ///
    /// [`LogError::Failed`] if the disk failed, [`LogError::Memory`], and [`LogError::Full`] for a log of 2^62 bytes. The file
    /// then has the batch or doesn't have it, the log is used up, and every later call returns [`LogError::Closed`].
    pub fn commit(&mut self, alloc: Global, batch: &[u8]) -> Result<(), LogError>
        // PROMISE: A batch that a log acknowledged is on the disk.
        ensures acknowledged { OnOk result (recovered (D.seen (device_of self.new)) ≡
            with_batch (recovered (D.seen (device_of self.old))) batch.now) }
        ensures usable { OnOk result (IsTrue (usable self.new)) }

        // A crash at any moment of the call leaves the batches from before it, with the new one or without.
        // PROMISE: A crash at any moment leaves every earlier batch whole, and the new one whole or absent.
        ensures any_moment { IsTrue (usable self.old) → LeavesOnly D.moment D.left_since (device_of self.old) (device_of self.new)
            (IsBeforeOrAfter (recovered (D.seen (device_of self.old))) batch.now) }

        ensures err { OnErr result (usable self.new ≡ false) }
        ensures closed { usable self.old ≡ false → device_of self.new ≡ device_of self.old }

        // It doesn't give up of its own accord.
        ensures cause { HasCommitCause (D.faults (device_of self.old)) (D.faults (device_of self.new)) (end_of self.old) (usable self.old) result }
    {
        if !self.is_usable {
            return Err(LogError::Closed);
        }
        if batch.is_empty() {
            return Ok(());
        }
        self.is_usable = false;
        if self.end >= MOST_BYTES {
            return Err(LogError::Full);
        }
        let block = block_of(alloc, batch)?;
        write_down(&mut self.device, self.end + 1, &block)?;
        write_down(&mut self.device, self.end, &[OPEN])?;
        self.end += block.len() as u64;
        self.is_usable = true;
        Ok(())
    }
}

/// Returns what is written behind a gate: the length of the batch, the batch and a closed gate.
fn block_of(alloc: Global, batch: &[u8]) -> Result<Vec<u8>, AllocError>
    ensures { IfOk result (λ block. block.items ≡ to_le_bytes w64 (length batch.now) ++ batch.now ++ 0 ∷ []) }
{
    let mut block = Vec::new(alloc);
    block.extend_from_slice(&(batch.len() as u64).to_le_bytes())?;
    block.extend_from_slice(batch)?;
    block.push(CLOSED)?;
    Ok(block)
}

/// Cuts off what follows the whole blocks of a file, which take `end` bytes, and closes a gate there. This may crash too, at any
/// moment, and the file has the same batches.
///
/// # Errors
///
/// [`LogError::Failed`] if the disk failed, or [`LogError::Memory`].
pub fn repair<D: Device>(device: &mut D, end: u64) -> Result<(), LogError>
    // After a restart, what is read is what is on the disk.
    requires durable { Only (D.seen device.old) (D.may_leave device.old) }
    requires end { end ≡ blocks_length (recovered (D.seen device.old)) }
    ensures same { OnOk result (recovered (D.seen device.new) ≡ recovered (D.seen device.old)) }
    ensures at_rest { OnOk result (IsAtRest end (D.seen device.new)) }
    ensures durable { OnOk result (Only (D.seen device.new) (D.may_leave device.new)) }

    // A crash at any moment leaves the same batches.
    ensures any_moment { LeavesOnly D.moment D.left_since device.old device.new
        (λ c. recovered c ≡ recovered (D.seen device.old)) }
    ensures cause { HasCause (D.faults device.old) (D.faults device.new) result }
{
    // The cut has to be on the disk first: what was there would count behind a gate that is torn open.
    shorten(device, end)?;
    write_down(device, end, &[CLOSED])
}
