//! The positions in a picture, in its units, which are pixels if it is shown at its width.

use am_instance::Place;

/// The maximum number of steps in a picture.
pub const MOST_STEPS: usize = 2_000;

/// The position of the first lane, to the right of the moments.
const LEFT: u64 = 200;

/// The distance between two lanes.
const LANE: u64 = 80;

const GAP: u64 = 48;

/// The width of the words.
const WORDS: u64 = 450;

/// The position at which the first step begins, below the names.
const TOP: u64 = 64;

/// The height of a step.
const ROW: u64 = 32;

/// The height of a member's part at the end. The heights above and below these parts follow.
const END: u64 = 76;

const ABOVE_ENDS: u64 = 64;

const LEGEND: u64 = 16;

/// The distance before a lane at which a frame is lost.
const LOSS: u64 = 24;

/// The distance from a lane to which a frame in flight is drawn.
const FLIGHT: u64 = 60;

/// The minimum width of a picture, so that the lines below have room.
const LEAST_WIDTH: u64 = 860;

/// Returns the position that is `times` lengths after a position.
fn behind(cursor: u64, length: u64, times: u64) -> u64 {
    cursor.saturating_add(length.saturating_mul(times))
}

/// Returns the position at which the room of a step begins. Steps are counted from 0.
pub fn edge_of(step: usize) -> u64 {
    behind(TOP, ROW, step as u64)
}

/// Returns the position of a step, in the middle of its room. Steps are counted from 0.
pub fn middle_of(step: usize) -> u64 {
    behind(edge_of(step), ROW / 2, 1)
}

/// Returns the position of the lane of the member at a place.
pub fn lane_of(place: Place) -> u64 {
    behind(LEFT, LANE, place)
}

/// Returns the position at which the words of the steps begin, with this many members.
pub fn words_of(members: usize) -> u64 {
    behind(lane_of(members.saturating_sub(1) as u64), GAP, 1)
}

/// Returns the width of a picture of this many members.
pub fn width_of(members: usize) -> u64 {
    behind(words_of(members), WORDS, 1).max(LEAST_WIDTH)
}

/// Returns the position of the part at the end of the member at a place, after this many steps.
pub fn end_of(steps: usize, place: Place) -> u64 {
    behind(behind(edge_of(steps), ABOVE_ENDS, 1), END, place)
}

/// Returns the height of a picture of this many steps and members.
pub fn height_of(steps: usize, members: usize) -> u64 {
    behind(end_of(steps, members as u64), LEGEND, 1)
}

/// Returns the position at a distance from a lane, on the side of the other lane.
fn beside(place: Place, other: Place, length: u64) -> u64 {
    if other < place {
        lane_of(place).saturating_sub(length)
    } else {
        behind(lane_of(place), length, 1)
    }
}

/// Returns the position at which a frame is lost on its way from one lane to another: just before the latter.
pub fn loss_of(sender: Place, addressee: Place) -> u64 {
    beside(addressee, sender, LOSS)
}

/// Returns the position to which a frame in flight is drawn on its way from one lane to another: most of the way to the next
/// lane.
pub fn flight_of(sender: Place, addressee: Place) -> u64 {
    beside(sender, addressee, FLIGHT)
}

/// Returns the height at which the drawing of a frame in flight ends, if this step sent it: the further away its addressee is,
/// the flatter it flies.
pub fn beyond(step: usize, sender: Place, addressee: Place) -> u64 {
    let lanes = sender.abs_diff(addressee).max(1);
    behind(middle_of(step), ROW / 4 * 3 / lanes, 1)
}
