//! Playing a schedule.

ghost use Rattle.std.specs.Prelude.{OnOk};
ghost use Rattle.am_replay.specs.Replays.{HasReplayed};

use crate::picture::draw;
use crate::progress::Display;
use crate::schedule_fault::{ScheduleFault, report};
use am_diagnostics::{HasAudience, status};
use am_replay::{Observer, run_shown};
use std::alloc::Global;
use std::io::{Read, Write};
use std::rt::{Clock, Files};

/// The parts of a runtime that a player uses.
pub trait PlayerRuntime: AllocGlobal + Clock + Eprint + Files + HasAudience {}

impl<H: AllocGlobal + Clock + Eprint + Files + HasAudience> PlayerRuntime for H {}

/// Plays the schedule on the input, and returns the exit status of the program. If a file is named, the schedule is drawn into
/// it. The progress of the playing is shown to a person on standard error.
pub fn run_replay<H: PlayerRuntime, R: Read, W: Write>(
    rt: &H,
    input: &mut R,
    output: &mut W,
    file: Option<&str>,
) -> u8 {
    let mut display = Display::new(rt);
    let played = match file {
        Some(file) => draw(rt, input, output, file, &mut display),
        None => play(rt.alloc(), input, output, &mut display),
    };
    display.clear();
    match played {
        Ok(()) => status::DONE,
        Err(fault) => report(rt, fault),
    }
}

/// Plays the schedule on the input.
fn play<R: Read, W: Write, O: Observer>(
    alloc: Global,
    input: &mut R,
    output: &mut W,
    observer: &mut O,
) -> Result<(), ScheduleFault>
    ensures played { OnOk result (HasReplayed (R.remaining input.old) (W.contents output.old) (W.contents output.new)) }
{
    run_shown(alloc, input, output, observer)?;
    Ok(())
}
