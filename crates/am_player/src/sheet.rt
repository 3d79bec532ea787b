//! The data that a picture is drawn from, and its parts in XML.

use crate::escape::{append_escaped, append_shortened};
use crate::scene::Scene;
use am_instance::Place;
use am_version_order::Moment;
use am_wire::Text;
use std::alloc::{AllocError, Global};

/// The data that a picture is drawn from, without what the members show at the end.
#[derive(Clone, Copy)]
pub struct Sheet<'a> {
    pub alloc: Global,
    /// The schedule as it was played.
    pub scene: &'a Scene,
    /// The names of the members, by their places.
    pub names: &'a [Text],
    /// The line of the first fault of each member's calm.
    pub faults: &'a [Option<u64>],
    /// The line that each step repeats.
    pub repeated: &'a [Option<u64>],
    /// The lines of the text.
    pub lines: &'a [&'a str],
    /// The first moment that was read from a clock.
    pub first: Option<Moment>,
}

impl<'a> Sheet<'a> {
    /// Returns the name of the member at a place.
    pub fn name(&self, place: Place) -> &'a str {
        match self.names.get(place as usize) {
            Some(name) => name.as_str(),
            None => "",
        }
    }

    /// Returns the line of the first fault of a member's calm.
    pub fn fault(&self, place: Place) -> Option<u64> {
        *self.faults.get(place as usize)?
    }

    /// Returns the line that a step repeats.
    pub fn repeated_by(&self, column: usize) -> Option<u64> {
        *self.repeated.get(column)?
    }

    /// Returns the text of the line of a number, counted from 1.
    pub fn line(&self, number: u64) -> &'a str {
        match number.checked_sub(1) {
            Some(index) => self.lines.get(index as usize).copied().unwrap_or(""),
            None => "",
        }
    }
}

/// A position.
#[derive(Clone, Copy)]
pub struct Position {
    pub x: u64,
    pub y: u64,
}

/// The two ends of a line.
#[derive(Clone, Copy)]
pub struct Stroke {
    pub x1: u64,
    pub y1: u64,
    pub x2: u64,
    pub y2: u64,
}

/// Appends a line between two positions, up to its content.
pub fn open_stroke(out: &mut String, class: &str, stroke: &Stroke) -> Result<(), AllocError> {
    let (x1, y1, x2, y2) = (stroke.x1, stroke.y1, stroke.x2, stroke.y2);
    write!(
        out,
        "<line class=\"{class}\" x1=\"{x1}\" y1=\"{y1}\" x2=\"{x2}\" y2=\"{y2}\">"
    )
}

/// Appends a line from one position to another that gets flatter towards its end, up to its content.
pub fn open_curve(out: &mut String, class: &str, stroke: &Stroke) -> Result<(), AllocError> {
    let (x1, y1, x2, y2) = (stroke.x1, stroke.y1, stroke.x2, stroke.y2);
    let (x, y) = (near(x2, x1), near(y1, y2));
    write!(
        out,
        "<path class=\"{class}\" d=\"M{x1} {y1}Q{x} {y} {x2} {y2}\">"
    )
}

/// Returns the position three quarters of the way from one to another.
fn near(from: u64, to: u64) -> u64 {
    to.saturating_mul(3).saturating_add(from) / 4
}

/// The place of a text, and how it looks.
#[derive(Clone, Copy)]
pub struct TextPlace<'a> {
    pub class: &'a str,
    pub x: i32,
    pub y: i32,
    /// The most characters that are shown.
    pub most: usize,
}

/// Appends a text, shortened to what its label has room for.
pub fn append_text(
    alloc: Global,
    out: &mut String,
    label: &TextPlace<'_>,
    text: &str,
) -> Result<(), AllocError> {
    let (class, x, y) = (label.class, label.x, label.y);
    write!(out, "<text class=\"{class}\" x=\"{x}\" y=\"{y}\">")?;
    append_shortened(alloc, out, text, label.most)?;
    out.push_str("</text>")
}

/// Appends a title.
pub fn append_title(alloc: Global, out: &mut String, text: &str) -> Result<(), AllocError> {
    out.push_str("<title>")?;
    append_escaped(alloc, out, text)?;
    out.push_str("</title>")
}
