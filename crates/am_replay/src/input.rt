//! Schedules as texts, from any reader.

ghost use Rattle.std.specs.Prelude.{◌≤◌, IfOk, IfErr, OnOk, length};
ghost use Rattle.std.specs.Io.KnownBytes.{Consumes, IsAtEnd};
ghost use Rattle.am_replay.specs.Inputs.{StopsReading, most_bytes};

use crate::error::ReplayError;
use am_wire::{Stop, fill};
use std::alloc::Global;
use std::io::Read;

/// The maximum size of a schedule, in bytes.
const MOST_BYTES: usize = 16_777_216;

/// Reads the whole input.
///
/// # Errors
///
/// [`ReplayError::Read`] at the first read that fails, which isn't tried again; [`ReplayError::TooLarge`] once byte
/// 16,777,217 has come; and [`ReplayError::Memory`] with line 0 if memory runs out.
pub fn read_input<R: Read>(alloc: Global, reader: &mut R) -> Result<Vec<u8>, ReplayError>
    ensures all { IfOk result (λ bytes. Consumes (R.remaining reader.old) (R.remaining reader.new) bytes.items) }
    ensures end { OnOk result (IsAtEnd (R.remaining reader.new)) }
    ensures size { IfOk result (λ bytes. length bytes.items ≤ most_bytes) }
    ensures stopped { IfErr result (StopsReading (R.remaining reader.old) (R.remaining reader.new)) }
{
    let mut bytes = Vec::new(alloc);
    match fill(reader, &mut bytes, MOST_BYTES + 1) {
        Ok(false) => Ok(bytes),
        Ok(true) => Err(ReplayError::TooLarge),
        Err(Stop::Read) => Err(ReplayError::Read { at: bytes.len() }),
        Err(Stop::Memory) => Err(ReplayError::Memory { line: 0 }),
    }
}
