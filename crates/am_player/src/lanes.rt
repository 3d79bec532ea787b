//! The lanes of a picture.

use crate::layout::{edge_of, lane_of, middle_of};
use crate::mark::{LineMark, LineVerb};
use crate::sheet::{Sheet, Stroke, TextPlace, append_text, append_title, open_stroke};
use am_instance::Place;
use std::alloc::AllocError;

/// The maximum number of characters that are shown of a name.
pub const MOST_OF_NAME: usize = 8;

/// Appends a lane with its name for each member.
pub fn append_lanes(sheet: &Sheet<'_>, out: &mut String) -> Result<(), AllocError> {
    for (place, name) in sheet.names.iter().enumerate() {
        append_lane(sheet, out, place as Place)?;
        append_name(sheet, out, place as Place, name.as_str())?;
    }
    Ok(())
}

/// Appends a member's name at the top.
fn append_name(
    sheet: &Sheet<'_>,
    out: &mut String,
    place: Place,
    name: &str,
) -> Result<(), AllocError> {
    let x = lane_of(place);
    write!(out, "<g transform=\"translate({x} 52)\">")?;
    append_title(sheet.alloc, out, name)?;
    let label = TextPlace {
        class: "name",
        x: 0,
        y: 0,
        most: MOST_OF_NAME,
    };
    append_text(sheet.alloc, out, &label, name)?;
    out.push_str("</g>\n")
}

/// Appends a member's lane: a line for each time in which it ran.
fn append_lane(sheet: &Sheet<'_>, out: &mut String, place: Place) -> Result<(), AllocError> {
    let mut start = Some(edge_of(0));
    for (column, mark) in sheet.scene.marks.iter().enumerate() {
        let runs = runs_behind(mark, place, start.is_some());
        match start {
            Some(begin) if !runs => {
                append_span(sheet, out, place, begin, middle_of(column))?;
                start = None;
            }
            None if runs => start = Some(middle_of(column)),
            _ => {}
        }
    }
    match start {
        Some(begin) => append_span(sheet, out, place, begin, edge_of(sheet.scene.marks.len())),
        None => Ok(()),
    }
}

/// Returns whether a member runs after a line, given whether it ran before.
fn runs_behind(mark: &LineMark, place: Place, runs: bool) -> bool {
    match mark.verb {
        _ if mark.place != Some(place) || mark.is_refused() => runs,
        LineVerb::Stop => false,
        LineVerb::Start => true,
        _ => runs,
    }
}

/// Returns whether a member runs at the end.
pub fn runs_at_end(sheet: &Sheet<'_>, place: Place) -> bool {
    let mut runs = true;
    for mark in &sheet.scene.marks {
        runs = runs_behind(mark, place, runs);
    }
    runs
}

/// Appends a time in which a member ran, and once more the part of it that follows the first fault of the member's calm.
fn append_span(
    sheet: &Sheet<'_>,
    out: &mut String,
    place: Place,
    start: u64,
    end: u64,
) -> Result<(), AllocError> {
    open_along(out, "lane", place, start, end)?;
    out.push_str("</line>\n")?;
    match first_fault(sheet, place) {
        Some((line, fault)) if fault < end => {
            open_along(out, "lane bad", place, start.max(fault), end)?;
            append_title(sheet.alloc, out, sheet.line(line))?;
            out.push_str("</line>\n")
        }
        _ => Ok(()),
    }
}

/// Appends a line along a lane, up to its content.
fn open_along(
    out: &mut String,
    class: &str,
    place: Place,
    start: u64,
    end: u64,
) -> Result<(), AllocError> {
    let x = lane_of(place);
    let stroke = Stroke {
        x1: x,
        y1: start,
        x2: x,
        y2: end,
    };
    open_stroke(out, class, &stroke)
}

/// Returns the line of the first fault of a member's calm, and its position.
fn first_fault(sheet: &Sheet<'_>, place: Place) -> Option<(u64, u64)> {
    let line = sheet.fault(place)?;
    for (column, mark) in sheet.scene.marks.iter().enumerate() {
        if mark.line == line {
            return Some((line, middle_of(column)));
        }
    }
    None
}

/// Appends the number of the line of each member's first fault, beside its position.
pub fn append_fault_lines(sheet: &Sheet<'_>, out: &mut String) -> Result<(), AllocError> {
    for place in 0..sheet.names.len() {
        if let Some((line, y)) = first_fault(sheet, place as Place) {
            let x = lane_of(place as Place);
            writeln!(
                out,
                "<g transform=\"translate({x} {y})\"><text class=\"fault\" x=\"-8\" y=\"21\">line {line}</text></g>"
            )?;
        }
    }
    Ok(())
}
