//! Writing bytes to any writer.

ghost use Rattle.std.specs.Prelude.{◌<◌, length, take, OnOk, IfErr};
ghost use Rattle.std.specs.Io.KnownBytes.{Appends};
ghost use Rattle.am_wire.specs.OutputWriting.{WritesPart};

use std::io::Write;

/// A write that failed or took nothing, with the number of bytes that had gone out.
#[derive(Clone, Copy, PartialEq, Eq)]
pub struct WriteFault {
    pub written: u64,
}

/// Writes all the bytes.
///
/// # Errors
///
/// Returns [`WriteFault`] at the first call that fails or takes nothing; it is not retried.
pub fn send<W: Write>(writer: &mut W, bytes: &[u8]) -> Result<(), WriteFault>
    // PROMISE: All bytes go out, in order.
    ensures all { OnOk result (Appends (W.contents writer.old) (W.contents writer.new) bytes.now) }
    // PROMISE: If a write fails, exactly the counted first bytes went out.
    ensures stopped { IfErr result (λ e. WritesPart (W.contents writer.old) (W.contents writer.new) bytes.now e.written) }
{
    let mut written = 0;
    while written < bytes.len() {
        // A failed write takes nothing.
        let taken = writer.write(&bytes[written..]).unwrap_or(0);
        if taken == 0 {
            return Err(WriteFault {
                written: written as u64,
            });
        }
        written += taken;
    }
    Ok(())
}
