//! The parts of a picture that say what the lines of a schedule did.

use crate::escape::{append_escaped, append_shortened};
use crate::lanes::MOST_OF_NAME;
use crate::layout::{lane_of, loss_of, middle_of, words_of};
use crate::mark::{LineMark, LineVerb};
use crate::sheet::{Sheet, Stroke, append_title, open_stroke};
use crate::times::append_time;
use am_instance::Place;
use am_replay::{LineAnswer, decision_name, kind_name, refusal_name, yes_or_no};
use std::alloc::AllocError;

/// Appends a mark for each line, with its moment at the left and its words at the right.
pub fn append_marks(sheet: &Sheet<'_>, out: &mut String) -> Result<(), AllocError> {
    for (column, mark) in sheet.scene.marks.iter().enumerate() {
        append_moment(sheet, out, mark, middle_of(column))?;
        append_mark(sheet, out, mark, column)?;
    }
    Ok(())
}

/// Appends the moment of a line.
fn append_moment(
    sheet: &Sheet<'_>,
    out: &mut String,
    mark: &LineMark,
    y: u64,
) -> Result<(), AllocError> {
    let Some(moment) = mark.moment else {
        return Ok(());
    };
    write!(out, "<text class=\"head\" x=\"8\" y=\"{y}\" dy=\"5\">")?;
    append_time(out, sheet.first, moment)?;
    out.push_str("</text>\n")
}

/// Appends what a line did.
fn append_mark(
    sheet: &Sheet<'_>,
    out: &mut String,
    mark: &LineMark,
    column: usize,
) -> Result<(), AllocError> {
    let (x, y) = (lane_of_mark(sheet, mark), middle_of(column));
    let repeated = sheet.repeated_by(column);
    let class = match repeated {
        _ if mark.is_refused() => "mark no",
        Some(_) => "mark again",
        None => "mark",
    };
    write!(
        out,
        "<g class=\"{class}\" transform=\"translate({x} {y})\">"
    )?;
    append_mark_title(sheet, out, mark, repeated)?;
    out.push_str(shape_of(mark))?;
    append_words(sheet, out, mark, x)?;
    if repeated.is_some() {
        out.push_str(", once more")?;
    }
    out.push_str("</text></g>\n")
}

/// Appends the member of a line, its action and its outcome, up to the end of these words.
fn append_words(
    sheet: &Sheet<'_>,
    out: &mut String,
    mark: &LineMark,
    x: u64,
) -> Result<(), AllocError> {
    let x = words_of(sheet.names.len()).saturating_sub(x);
    write!(out, "<text x=\"{x}\" y=\"5\">")?;
    if let Some(place) = mark.place {
        append_name(sheet, out, place)?;
        out.push_str(" ")?;
    }
    append_label(sheet, out, mark)?;
    append_answer(out, &mark.answer)
}

/// Appends the name of the member at a place.
fn append_name(sheet: &Sheet<'_>, out: &mut String, place: Place) -> Result<(), AllocError> {
    append_shortened(sheet.alloc, out, sheet.name(place), MOST_OF_NAME)
}

/// Returns the position of the mark of a line: at its member's lane, at the place of a frame that is delivered or lost, or else
/// at the words.
fn lane_of_mark(sheet: &Sheet<'_>, mark: &LineMark) -> u64 {
    if let Some(place) = mark.place {
        return lane_of(place);
    }
    match (sheet.scene.frame_of(mark), mark.verb) {
        (Some(sending), LineVerb::Lose) => loss_of(sending.sender, sending.addressee),
        (Some(sending), _) => lane_of(sending.addressee),
        (None, _) => words_of(sheet.names.len()),
    }
}

/// Appends a title: the line, and why it was refused or which line it repeats.
fn append_mark_title(
    sheet: &Sheet<'_>,
    out: &mut String,
    mark: &LineMark,
    repeated: Option<u64>,
) -> Result<(), AllocError> {
    let line = mark.line;
    write!(out, "<title>line {line}: ")?;
    append_escaped(sheet.alloc, out, sheet.line(line))?;
    if let LineAnswer::Refused(refusal) = mark.answer {
        let name = refusal_name(refusal);
        write!(out, "\nrefused: {name}")?;
    }
    if let Some(line) = repeated {
        write!(out, "\nonce more: notified by line {line}")?;
    }
    out.push_str("</title>")
}

/// Returns the shape for a line: a cross if a frame is lost, nothing for lines about the whole cluster and for a frame that
/// isn't in flight, and otherwise a dot.
fn shape_of(mark: &LineMark) -> &'static str {
    match (mark.verb, mark.flying()) {
        (LineVerb::Lose, Some(_)) => "<path class=\"cross\" d=\"M-5-5L5 5M-5 5L5-5\"/>",
        (LineVerb::Lose | LineVerb::Deliver, None)
        | (LineVerb::Settle | LineVerb::Timely | LineVerb::Frames, _) => "",
        _ => "<circle r=\"5\"/>",
    }
}

/// Appends the action of a line in words.
fn append_label(sheet: &Sheet<'_>, out: &mut String, mark: &LineMark) -> Result<(), AllocError> {
    match (mark.verb, sheet.scene.frame_of(mark)) {
        (LineVerb::Deliver, Some(sending)) => {
            let (kind, number) = (kind_name(sending.kind), sending.number);
            write!(out, "{kind} {number} to ")?;
            append_name(sheet, out, sending.addressee)
        }
        _ => append_verb(sheet, out, mark),
    }
}

fn append_verb(sheet: &Sheet<'_>, out: &mut String, mark: &LineMark) -> Result<(), AllocError> {
    out.push_str(mark.verb.name())?;
    if let Some(number) = mark.frame {
        write!(out, " {number}")?;
    }
    if let Some(peer) = mark.peer {
        out.push_str(" ")?;
        append_name(sheet, out, peer)?;
    }
    Ok(())
}

/// Appends the outcome of a line as a word.
fn append_answer(out: &mut String, answer: &LineAnswer) -> Result<(), AllocError> {
    let word = match *answer {
        LineAnswer::Nothing => return Ok(()),
        LineAnswer::Is(answer) => yes_or_no(answer),
        LineAnswer::Decided(decision) => decision_name(decision),
        LineAnswer::Refused(_) => "refused",
    };
    write!(out, ": {word}")
}

/// Appends a line across all lanes for each settle that was made.
pub fn append_settles(sheet: &Sheet<'_>, out: &mut String) -> Result<(), AllocError> {
    for (column, mark) in sheet.scene.marks.iter().enumerate() {
        match mark.verb {
            LineVerb::Settle if !mark.is_refused() => append_settle(sheet, out, mark, column)?,
            _ => {}
        }
    }
    Ok(())
}

fn append_settle(
    sheet: &Sheet<'_>,
    out: &mut String,
    mark: &LineMark,
    column: usize,
) -> Result<(), AllocError> {
    let y = middle_of(column);
    let stroke = Stroke {
        x1: lane_of(0),
        y1: y,
        x2: lane_of(sheet.names.len().saturating_sub(1) as Place),
        y2: y,
    };
    open_stroke(out, "settle", &stroke)?;
    append_title(sheet.alloc, out, sheet.line(mark.line))?;
    out.push_str("</line>\n")
}
