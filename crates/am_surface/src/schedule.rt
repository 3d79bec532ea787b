//! The text of schedules.

use crate::samples::holds;
use am_schedule::{FaultKind, Line, Schedule, ScheduleError, Step, parse};
use am_version_order::{Interval, Moment};
use std::alloc::Global;

/// A schedule of two members: a post, the way of its frame to the other member, a settle, and reports.
pub const TEXT: &str = "cluster 100 1 a b
at 10 a post - 00000000000000000000000000000000 10 100 job x
frames
at 11 deliver 1
at 12 settle
timely 2 1
at 13 b show
";

/// Calls everything public of am_schedule.
pub fn calls(alloc: Global) -> Option<()> {
    let schedule: Result<Schedule, ScheduleError> = parse(alloc, TEXT.as_bytes());
    let schedule = schedule.ok()?;
    let retention: Interval = schedule.retention;
    let peer_timeout: Interval = schedule.peer_timeout;
    let lines: &[(Line, u64)] = schedule.lines.as_slice();
    holds(peer_timeout < retention && schedule.names.as_slice().len() == 2 && lines.len() == 6)?;
    faults(alloc)
}

fn faults(alloc: Global) -> Option<()> {
    let schedule: Result<Schedule, ScheduleError> = parse(alloc, b"");
    match schedule {
        Ok(_) => None,
        Err(ScheduleError { line, kind }) => holds(line == 1 && number_of(kind) == 2),
    }
}

fn number_of(kind: FaultKind) -> usize {
    match kind {
        FaultKind::NotUtf8 => 1,
        FaultKind::Cluster => 2,
        FaultKind::Words => 3,
        FaultKind::Number => 4,
        FaultKind::Name => 5,
        FaultKind::Memory => 6,
    }
}

/// Returns the step of a line, if it has one.
pub fn step_of(line: &Line) -> Option<&Step> {
    match line {
        Line::Step(step) => Some(step),
        Line::Settle(moment) => none_at(*moment),
        Line::Timely(spread, flight) => none_within(*spread, *flight),
        Line::Frames => None,
    }
}

fn none_at<'a>(_moment: Moment) -> Option<&'a Step> {
    None
}

fn none_within<'a>(_spread: Interval, _flight: Interval) -> Option<&'a Step> {
    None
}
