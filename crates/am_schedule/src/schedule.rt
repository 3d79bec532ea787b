//! Schedules and how they are read.

ghost use Rattle.std.specs.Prelude.{◌≡◌, ◌≢◌, ◌+◌, ◌<◌, ◌^◌, ℕ, List, Ok, Err, IfOk, IfErr};
ghost use Rattle.am_schedule.specs.declared.error.FaultKind.TheVariants.{Memory};
ghost use Rattle.am_schedule.specs.Schedules.{schedule_of, whole, IsReached, IsFormedAt};

use crate::cluster::ClusterLine;
use crate::error::{FaultKind, ScheduleError};
use crate::items::Items;
use crate::reader::Reader;
use crate::step::Line;
use crate::text::first_line;
use crate::word::Word;
use am_version_order::Interval;
use std::alloc::Global;

/// A cluster, and what happens in it, line by line.
pub struct Schedule {
    /// The members, in the order of the cluster line.
    pub names: Items<Word>,
    pub retention: Interval,
    pub peer_timeout: Interval,
    /// The lines after the cluster's that give no version a label, each with its number, counted from 1.
    pub lines: Items<(Line, u64)>,
}

// Crates that use a schedule cite this one drop, and need not prove those of its parts.
impl Drop for Schedule {
    fn drop(self) {
        let Schedule {
            names: _,
            retention: _,
            peer_timeout: _,
            lines: _,
        } = self;
    }
}

/// Reads the schedule in a text.
///
/// # Errors
///
/// Returns the first line at fault and its fault. If memory runs out, this is `Memory` with the line being read: that line is
/// UTF-8, its verb is known and has as many words as it needs, and no line before it is at fault.
pub fn parse(alloc: Global, text: &[u8]) -> Result<Schedule, ScheduleError>
    // PROMISE: A schedule is read as its lines say.
    ensures read { IfOk result (λ schedule. schedule_of text.now ≡ Ok schedule) }
    // PROMISE: Else its first line at fault is reported, with its kind.
    ensures fault { IfErr result (λ error. error.kind ≢ Memory → schedule_of text.now ≡ Err error) }
    ensures memory { IfErr result (λ error. error.kind ≡ Memory → IsReached text.now error.line) }
    ensures formed { IfErr result (λ error. error.kind ≡ Memory → IsFormedAt text.now error.line) }
{
    let mut reader = Reader::new(alloc);
    let mut rest = text;
    let mut number = 0u64;
    'lines: while let Some((line, behind)) = first_line(rest) {
        number += 1;
        if let Err(kind) = reader.take(alloc, number, line) {
            return Err(ScheduleError { line: number, kind });
        }
        rest = behind;
    }
    schedule_from(reader, number)
}

/// Returns the schedule of `count` lines; if there is no cluster line among them, it is missing at the next line.
fn schedule_from(reader: Reader<'_>, count: u64) -> Result<Schedule, ScheduleError>
    requires { count + 1 < 2 ^ 64 }
    ensures { result ≡ whole reader.entry.cluster count reader.entry.lines.items }
{
    let Reader {
        cluster,
        versions: _,
        lines,
    } = reader;
    match cluster {
        Some(
            ClusterLine {
                names,
                retention,
                peer_timeout,
            },
        ) => Ok(Schedule {
            names,
            retention,
            peer_timeout,
            lines: Items::new(lines),
        }),
        None => Err(ScheduleError {
            line: count + 1,
            kind: FaultKind::Cluster,
        }),
    }
}
