//! The notifications that go out once more although nothing changed.

use crate::mark::{LineMark, LineVerb};
use am_schedule::{Action, GroupLine, Line, LineEvent, Schedule};
use std::alloc::{AllocError, Global};

/// Returns the lines that the steps repeat, by the steps' places.
pub fn repeated_lines(
    alloc: Global,
    schedule: &Schedule,
    marks: &[LineMark],
) -> Result<Vec<Option<u64>>, AllocError> {
    let mut lines = Vec::with_capacity(alloc, marks.len())?;
    for (column, mark) in marks.iter().enumerate() {
        lines.push(repeated_line(schedule, marks, column, mark))?;
    }
    Ok(lines)
}

/// Returns the line that a step repeats. Such a step decides to notify a group. The line that it repeats is the last one before
/// it by which the group was notified at this receiver, through a decision of another member or through `notified`. The alerts
/// are the same, and the repeat interval of the step isn't over since then.
fn repeated_line(
    schedule: &Schedule,
    marks: &[LineMark],
    column: usize,
    mark: &LineMark,
) -> Option<u64> {
    if !mark.notifies() {
        return None;
    }
    let group = group_at(schedule, column)?;
    let (told, before) = last_told(schedule, marks, column, mark, group)?;
    if has_same_alerts(group, before) && mark.moment? < told.moment?.capped_add(group.repeat) {
        Some(told.line)
    } else {
        None
    }
}

/// Returns the last step before another one by which the same group was notified, and the group as it was then.
fn last_told<'a>(
    schedule: &'a Schedule,
    marks: &'a [LineMark],
    column: usize,
    mark: &LineMark,
    group: &GroupLine,
) -> Option<(&'a LineMark, &'a GroupLine)> {
    let mut last = None;
    for (place, earlier) in marks.iter().enumerate() {
        if place < column && tells(earlier, mark) {
            match group_at(schedule, place) {
                Some(told) if is_one_group(told, group) => last = Some((earlier, told)),
                _ => {}
            }
        }
    }
    last
}

/// Returns whether a step notified a group as far as a later step can find.
fn tells(earlier: &LineMark, mark: &LineMark) -> bool {
    match earlier.verb {
        LineVerb::Notified => !earlier.is_refused(),
        LineVerb::Decide => earlier.notifies() && earlier.place != mark.place,
        _ => false,
    }
}

/// Returns whether two steps are about the same group at the same receiver.
fn is_one_group(one: &GroupLine, other: &GroupLine) -> bool {
    one.group.as_str() == other.group.as_str() && one.receiver.as_str() == other.receiver.as_str()
}

fn has_same_alerts(one: &GroupLine, other: &GroupLine) -> bool {
    one.firing.as_slice() == other.firing.as_slice()
        && one.resolved.as_slice() == other.resolved.as_slice()
}

/// Returns the group that a step decides on or notifies.
fn group_at(schedule: &Schedule, column: usize) -> Option<&GroupLine> {
    let (Line::Step(step), _) = schedule.lines.as_slice().get(column)? else {
        return None;
    };
    match step.action() {
        Action::Event {
            event: LineEvent::Notified(group),
            ..
        }
        | Action::Event {
            event: LineEvent::Decide { group, .. },
            ..
        } => Some(group),
        _ => None,
    }
}
