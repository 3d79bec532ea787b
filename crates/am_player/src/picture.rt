//! Playing and drawing a schedule.

ghost use Rattle.std.specs.Prelude.{OnOk};
ghost use Rattle.std.specs.Io.KnownBytes.{Appends};
ghost use Rattle.am_replay.specs.Replays.{HasReplayed};

use crate::drawing::{Drawing, picture_of};
use crate::play::PlayerRuntime;
use crate::progress::Display;
use crate::schedule_fault::ScheduleFault;
use am_replay::{ReplayError, read_input};
use am_store::FileFault;
use am_wire::send;
use std::fs;
use std::io::{Read, Write};

/// Plays the schedule on the input, writes its picture into a file, and then writes what it prints.
pub fn draw<H: PlayerRuntime, R: Read, W: Write>(
    rt: &H,
    input: &mut R,
    output: &mut W,
    file: &str,
    display: &mut Display<'_, H>,
) -> Result<(), ScheduleFault>
    ensures played { OnOk result (HasReplayed (R.remaining input.old) (W.contents output.old) (W.contents output.new)) }
{
    let text = read_input(rt.alloc(), input)?;
    match picture_of(rt.alloc(), &text, display) {
        Ok(
            Drawing::Drawn {
                picture,
                output: printed,
            },
        ) => {
            write_picture(rt, file, picture.as_str())?;
            print(output, printed.as_str())
        }
        Ok(Drawing::TooManySteps { steps }) => Err(ScheduleFault::TooManySteps { steps }),
        Err(ReplayError::Memory { .. }) => Err(ScheduleFault::Memory),
        Err(error) => Err(ScheduleFault::Replay(error)),
    }
}

/// Writes what a schedule prints.
fn print<W: Write>(output: &mut W, text: &str) -> Result<(), ScheduleFault>
    ensures { OnOk result (Appends (W.contents output.old) (W.contents output.new) text.now) }
{
    match send(output, text.as_bytes()) {
        Ok(()) => Ok(()),
        Err(fault) => Err(ScheduleFault::Replay(ReplayError::Write {
            written: fault.written,
        })),
    }
}

/// Writes a picture into a file.
fn write_picture<H: PlayerRuntime>(rt: &H, file: &str, picture: &str) -> Result<(), ScheduleFault> {
    match write_file(rt, file, picture) {
        Ok(()) => Ok(()),
        Err(fault) => Err(ScheduleFault::Picture(fault)),
    }
}

/// Writes a file.
fn write_file<H: PlayerRuntime>(rt: &H, path: &str, text: &str) -> Result<(), FileFault> {
    let mut file = fs::create(rt, path)?;
    file.write_all(text.as_bytes())?;
    Ok(())
}
