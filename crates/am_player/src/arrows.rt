//! The frames of a picture.

use crate::escape::append_escaped;
use crate::layout::{beyond, edge_of, flight_of, lane_of, loss_of, middle_of};
use crate::mark::{LineMark, LineVerb};
use crate::scene::{Fate, SentFrame};
use crate::sheet::{Position, Sheet, Stroke, append_title, open_curve};
use am_replay::kind_name;
use std::alloc::AllocError;

/// Appends all frames: those that are in flight or were lost, and each delivery.
pub fn append_frames(sheet: &Sheet<'_>, out: &mut String) -> Result<(), AllocError> {
    for sending in &sheet.scene.sendings {
        append_sending(sheet, out, sending)?;
    }
    append_arrivals(sheet, out)
}

/// Appends a frame that was never delivered.
fn append_sending(
    sheet: &Sheet<'_>,
    out: &mut String,
    sending: &SentFrame,
) -> Result<(), AllocError> {
    let (sender, addressee) = (sending.sender, sending.addressee);
    match sending.fate {
        Fate::Flying => {
            let end = Position {
                x: flight_of(sender, addressee),
                y: beyond(sending.column, sender, addressee),
            };
            open_sending(sheet, out, "frame fly", sending, end)?;
            out.push_str(", still in flight</title></path>\n")
        }
        Fate::Lost(column) => {
            let end = Position {
                x: loss_of(sender, addressee),
                y: middle_of(column),
            };
            open_sending(sheet, out, "frame", sending, end)?;
            let line = sheet.scene.line_of(column);
            writeln!(out, ", lost by line {line}</title></path>")
        }
        Fate::Delivered => Ok(()),
    }
}

fn append_arrivals(sheet: &Sheet<'_>, out: &mut String) -> Result<(), AllocError> {
    for (column, mark) in sheet.scene.marks.iter().enumerate() {
        match mark.verb {
            LineVerb::Deliver => append_delivery(sheet, out, mark, column)?,
            LineVerb::From => append_written(sheet, out, mark, column)?,
            _ => {}
        }
    }
    Ok(())
}

/// Appends the frame that a line delivers.
fn append_delivery(
    sheet: &Sheet<'_>,
    out: &mut String,
    mark: &LineMark,
    column: usize,
) -> Result<(), AllocError> {
    let Some(sending) = sheet.scene.frame_of(mark) else {
        return Ok(());
    };
    let end = Position {
        x: lane_of(sending.addressee),
        y: middle_of(column),
    };
    open_sending(sheet, out, "frame tip", sending, end)?;
    let line = mark.line;
    writeln!(out, ", delivered by line {line}</title></path>")
}

/// Appends the frame that a line brings from a peer without a step that sent it.
fn append_written(
    sheet: &Sheet<'_>,
    out: &mut String,
    mark: &LineMark,
    column: usize,
) -> Result<(), AllocError> {
    let (Some(peer), Some(place)) = (mark.peer, mark.place) else {
        return Ok(());
    };
    let stroke = Stroke {
        x1: lane_of(peer),
        y1: edge_of(column),
        x2: lane_of(place),
        y2: middle_of(column),
    };
    open_curve(out, "frame tip", &stroke)?;
    append_title(sheet.alloc, out, sheet.line(mark.line))?;
    out.push_str("</path>\n")
}

/// Appends a frame from where it was sent to a position, up to the end of its title.
fn open_sending(
    sheet: &Sheet<'_>,
    out: &mut String,
    class: &str,
    sending: &SentFrame,
    end: Position,
) -> Result<(), AllocError> {
    let stroke = Stroke {
        x1: lane_of(sending.sender),
        y1: middle_of(sending.column),
        x2: end.x,
        y2: end.y,
    };
    open_curve(out, class, &stroke)?;
    let (number, kind) = (sending.number, kind_name(sending.kind));
    let line = sheet.scene.line_of(sending.column);
    write!(out, "<title>frame {number}, a {kind} from ")?;
    append_escaped(sheet.alloc, out, sheet.name(sending.sender))?;
    out.push_str(" to ")?;
    append_escaped(sheet.alloc, out, sheet.name(sending.addressee))?;
    write!(out, ", sent by line {line}")
}
