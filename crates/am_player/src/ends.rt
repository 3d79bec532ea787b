//! The part of a picture that tells how the members stand at the end.

use crate::lanes::{MOST_OF_NAME, runs_at_end};
use crate::layout::{edge_of, end_of};
use crate::sheet::{Sheet, TextPlace, append_text, append_title};
use crate::times::append_time;
use am_cluster::Cluster;
use am_instance::{Instance, Place};
use am_report::append_view;
use am_version_order::Moment;
use std::alloc::{AllocError, Global};

/// The distance from the left at which a member's view stands.
const SPOT: i32 = 192;

/// The height of a line.
const LINE: i32 = 22;

/// The maximum number of lines that are shown of a view.
const MOST_LINES: usize = 3;

/// The maximum number of characters that are shown of a line.
const MOST_OF_LINE: usize = 64;

/// Appends, below the steps, whether each member was calm, and what it shows at the latest moment of any member.
pub fn append_ends(
    sheet: &Sheet<'_>,
    cluster: &Cluster,
    out: &mut String,
) -> Result<(), AllocError> {
    let now = latest_moment(cluster, sheet.names.len());
    append_end_head(sheet, out, now)?;
    for place in 0..sheet.names.len() {
        append_end(sheet, cluster, out, place as Place, now)?;
    }
    Ok(())
}

/// Returns the latest moment of any member.
fn latest_moment(cluster: &Cluster, members: usize) -> Moment {
    let mut latest = Moment::LEAST;
    for place in 0..members {
        if let Some(instance) = cluster.instance(place as Place) {
            latest = latest.max(instance.last());
        }
    }
    latest
}

/// Appends the heading of the end.
fn append_end_head(sheet: &Sheet<'_>, out: &mut String, now: Moment) -> Result<(), AllocError> {
    let y = edge_of(sheet.scene.marks.len());
    write!(
        out,
        "<g transform=\"translate(8 {y})\"><text class=\"dim\" y=\"34\">at the end"
    )?;
    if now.parts().0 >= 0 {
        out.push_str(", at ")?;
        append_time(out, sheet.first, now)?;
    }
    out.push_str("</text></g>\n")
}

/// Appends how a member stands at the end.
fn append_end(
    sheet: &Sheet<'_>,
    cluster: &Cluster,
    out: &mut String,
    place: Place,
    now: Moment,
) -> Result<(), AllocError> {
    let y = end_of(sheet.scene.marks.len(), place);
    write!(out, "<g transform=\"translate(8 {y})\">")?;
    match cluster.instance(place) {
        Some(instance) if runs_at_end(sheet, place) => {
            append_shown(sheet.alloc, out, instance, now)?;
        }
        _ => write!(out, "<text class=\"dim\" x=\"{SPOT}\">stopped</text>")?,
    }
    append_head(sheet, out, place)?;
    out.push_str("</g>\n")
}

/// Appends the name of a member, and whether it was calm.
fn append_head(sheet: &Sheet<'_>, out: &mut String, place: Place) -> Result<(), AllocError> {
    let label = TextPlace {
        class: "who",
        x: 0,
        y: 0,
        most: MOST_OF_NAME,
    };
    append_text(sheet.alloc, out, &label, sheet.name(place))?;
    append_calm(out, sheet.fault(place))
}

/// Appends whether a member was calm, or else the line of its first fault.
fn append_calm(out: &mut String, fault: Option<u64>) -> Result<(), AllocError> {
    match fault {
        Some(line) => write!(
            out,
            "<text class=\"bad\" y=\"{LINE}\">uncalm, line {line}</text>"
        ),
        None => write!(out, "<text class=\"good\" y=\"{LINE}\">calm</text>"),
    }
}

/// Appends what a member shows, with all of it as a title.
fn append_shown(
    alloc: Global,
    out: &mut String,
    instance: &Instance,
    now: Moment,
) -> Result<(), AllocError> {
    let mut view = String::new(alloc);
    append_view(&mut view, instance.silences(), instance.log(), None, now)?;
    append_title(alloc, out, view.as_str())?;
    append_lines(alloc, out, view.as_str())
}

/// Appends the first lines of a view.
fn append_lines(alloc: Global, out: &mut String, view: &str) -> Result<(), AllocError> {
    let lines: Vec<&str> = view.lines().collect(alloc)?;
    if lines.is_empty() {
        return write!(out, "<text class=\"dim\" x=\"{SPOT}\">shows nothing</text>");
    }
    let mut label = TextPlace {
        class: "end",
        x: SPOT,
        y: 0,
        most: MOST_OF_LINE,
    };
    let fits = lines.len() <= MOST_LINES;
    let shown = if fits { lines.len() } else { MOST_LINES - 1 };
    for line in &lines[..shown] {
        append_text(alloc, out, &label, line)?;
        label.y = label.y.saturating_add(LINE);
    }
    if fits {
        return Ok(());
    }
    let (more, y) = (lines.len() - shown, label.y);
    write!(
        out,
        "<text class=\"dim\" x=\"{SPOT}\" y=\"{y}\">\u{2026} and {more} more</text>"
    )
}
