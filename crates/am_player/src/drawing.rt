//! Pictures of schedules.

ghost use Rattle.std.specs.Prelude.{IfErr, IfOk};
ghost use Rattle.am_player.specs.Pictures.{IsDrawing, StopsPicture};

use crate::arrows::append_frames;
use crate::ends::append_ends;
use crate::lanes::{append_fault_lines, append_lanes};
use crate::layout::{MOST_STEPS, height_of, lane_of, middle_of, width_of, words_of};
use crate::marks::{append_marks, append_settles};
use crate::painter::Painter;
use crate::sheet::{Sheet, Stroke, open_stroke};
use am_cluster::Cluster;
use am_replay::{Observer, ReplayError, play};
use am_schedule::parse;
use am_silence_json::moments::write_moment;
use std::alloc::{AllocError, Global};

/// The outcome of drawing a schedule.
#[derive(Drop)]
pub enum Drawing {
    /// The schedule was played and drawn.
    Drawn {
        /// The picture, as SVG.
        picture: String,
        /// The text that the schedule prints.
        output: String,
    },
    /// The schedule has this many steps, more than 2,000, and wasn't played.
    TooManySteps {
        steps: usize,
    },
}

/// Plays the schedule in a text, and draws it. `observer` is told the progress of the playing.
///
/// # Errors
///
/// [`ReplayError::Schedule`] if a line is at fault, and otherwise [`ReplayError::Memory`] with the line at which memory ran
/// out, while it was read or while it was played, or 0.
pub fn picture_of<O: Observer>(
    alloc: Global,
    text: &[u8],
    observer: &mut O,
) -> Result<Drawing, ReplayError>
    // PROMISE: A picture is made of a valid schedule of at most 2,000 steps, and of nothing else.
    ensures pictured { IfOk result (IsDrawing text.now) }
    ensures stopped { IfErr result (StopsPicture text.now) }
{
    let schedule = parse(alloc, text)?;
    let steps = schedule.lines.as_slice().len();
    if steps > MOST_STEPS {
        return Ok(Drawing::TooManySteps { steps });
    }
    let mut painter = Painter::new(alloc, &schedule, text, observer);
    let output = play(alloc, &schedule, &mut painter)?;
    let picture = painter.into_picture();
    Ok(Drawing::Drawn { picture, output })
}

/// Appends the whole picture.
pub fn append_picture(
    sheet: &Sheet<'_>,
    cluster: &Cluster,
    out: &mut String,
) -> Result<(), AllocError> {
    append_steps(sheet, out)?;
    append_ends(sheet, cluster, out)?;
    append_back(sheet, out)
}

/// Appends everything before the end.
fn append_steps(sheet: &Sheet<'_>, out: &mut String) -> Result<(), AllocError> {
    append_front(sheet, out)?;
    append_first(sheet, out)?;
    append_grid(sheet, out)?;
    append_lanes(sheet, out)?;
    append_settles(sheet, out)?;
    append_frames(sheet, out)?;
    append_marks(sheet, out)?;
    append_fault_lines(sheet, out)
}

/// Appends everything before the marks.
fn append_front(sheet: &Sheet<'_>, out: &mut String) -> Result<(), AllocError> {
    let (steps, members) = (sheet.scene.marks.len(), sheet.names.len());
    let (width, height) = (width_of(members), height_of(steps, members));
    writeln!(
        out,
        "<svg xmlns=\"http://www.w3.org/2000/svg\" width=\"{width}\" height=\"{height}\" viewBox=\"0 0 {width} {height}\">"
    )?;
    writeln!(
        out,
        "<title>A schedule of {steps} steps, as it was played</title>"
    )?;
    out.push_str(STYLE)?;
    writeln!(
        out,
        "<rect class=\"ground\" width=\"{width}\" height=\"{height}\"/>"
    )
}

/// Appends the first moment that was read from a clock, in full.
fn append_first(sheet: &Sheet<'_>, out: &mut String) -> Result<(), AllocError> {
    match sheet.first {
        Some(first) => {
            out.push_str("<text class=\"dim\" x=\"8\" y=\"24\">from ")?;
            out.push_str(write_moment(first).as_str())?;
            out.push_str("</text>\n")
        }
        None => Ok(()),
    }
}

/// Appends a faint line for each step, up to its words.
fn append_grid(sheet: &Sheet<'_>, out: &mut String) -> Result<(), AllocError> {
    for column in 0..sheet.scene.marks.len() {
        append_grid_line(out, column, sheet.names.len())?;
    }
    Ok(())
}

fn append_grid_line(out: &mut String, column: usize, members: usize) -> Result<(), AllocError> {
    let y = middle_of(column);
    let stroke = Stroke {
        x1: lane_of(0),
        y1: y,
        x2: words_of(members),
        y2: y,
    };
    open_stroke(out, "grid", &stroke)?;
    out.push_str("</line>\n")
}

/// Appends everything after the marks.
fn append_back(sheet: &Sheet<'_>, out: &mut String) -> Result<(), AllocError> {
    let y = height_of(sheet.scene.marks.len(), sheet.names.len());
    writeln!(
        out,
        "<g transform=\"translate(8 {y})\"><text class=\"dim\" y=\"-32\">{FRAMES}</text><text class=\"dim\" y=\"-10\">{LANES}</text></g>\n</svg>"
    )
}

const FRAMES: &str =
    "arrow: a frame, from its sending to a delivery · dashed: still in flight · cross: lost";

const LANES: &str = "gap: stopped · red: uncalm from there on, or notified once more";

const STYLE: &str = "<style>
text{font:16px monospace;fill:#24292f}
line{stroke-linecap:round}
.ground{fill:#ffffff}
.grid{stroke:#eaeef2}
.lane{stroke:#8c959f;stroke-width:2}
.lane.bad{stroke:#cf222e;stroke-width:3}
.settle{stroke:#8250df;stroke-width:6;stroke-opacity:.35}
.frame{fill:none;stroke:#0969da;stroke-width:1.5}
.tip{marker-end:url(#tip)}
.fly{stroke-dasharray:4 4}
#tip path{fill:#0969da}
.mark circle{fill:#24292f}
.no circle{fill:#ffffff;stroke:#cf222e;stroke-width:2}
.again circle{fill:#cf222e}
.cross{stroke:#cf222e;stroke-width:2}
.name{text-anchor:middle}
.fault{text-anchor:end;paint-order:stroke;stroke:#ffffff;stroke-width:3px;stroke-linejoin:round}
.head,.dim{fill:#57606a}
.name,.who{font-weight:bold}
.good{fill:#1a7f37}
.bad,.fault,.no text,.again text{fill:#cf222e}
@media (prefers-color-scheme:dark){
text{fill:#e6edf3}
.ground{fill:#0d1117}
.grid{stroke:#21262d}
.lane{stroke:#8b949e}
.lane.bad{stroke:#ff7b72}
.settle{stroke:#bc8cff}
.frame{stroke:#58a6ff}
#tip path{fill:#58a6ff}
.mark circle{fill:#e6edf3}
.no circle{fill:#0d1117;stroke:#ff7b72}
.again circle{fill:#ff7b72}
.cross{stroke:#ff7b72}
.fault{stroke:#0d1117}
.head,.dim{fill:#9198a1}
.good{fill:#56d364}
.bad,.fault,.no text,.again text{fill:#ff7b72}
}
</style>
<defs><marker id=\"tip\" viewBox=\"0 0 8 8\" refX=\"12\" refY=\"4\" markerWidth=\"8\" markerHeight=\"8\" markerUnits=\"userSpaceOnUse\" orient=\"auto\"><path d=\"M0 0L8 4L0 8z\"/></marker></defs>
";
