//! Moments as a picture writes them.

use crate::scene::Scene;
use am_version_order::Moment;
use std::alloc::AllocError;

/// 2000-01-01 in seconds since 1970. Moments from then on were read from a clock.
const FIRST_OF_CLOCKS: i64 = 946_684_800;

const DAY: u64 = 86_400;

/// Returns the first moment among the lines that was read from a clock.
pub fn first_of_clock(scene: &Scene) -> Option<Moment> {
    for mark in &scene.marks {
        if let Some(moment) = mark.moment {
            if moment.parts().0 >= FIRST_OF_CLOCKS {
                return Some(moment);
            }
        }
    }
    None
}

/// Appends a moment. From the first one that was read from a clock on, this is the number of days since that one's day, if any,
/// and the time of day in UTC; otherwise it is the seconds since 1970.
pub fn append_time(
    out: &mut String,
    first: Option<Moment>,
    moment: Moment,
) -> Result<(), AllocError> {
    let (seconds, nanos) = moment.parts();
    match first {
        Some(first) if !(moment < first) => append_clock(
            out,
            since_1970(first),
            since_1970(moment),
        )?,
        _ => write!(out, "{seconds}")?,
    }
    if nanos > 0 {
        write!(out, ".{nanos:09}")?;
    }
    Ok(())
}

fn since_1970(moment: Moment) -> u64 {
    moment.parts().0.max(0) as u64
}

fn append_clock(out: &mut String, first: u64, seconds: u64) -> Result<(), AllocError> {
    let days = (seconds / DAY).saturating_sub(first / DAY);
    if days > 0 {
        write!(out, "+{days}d ")?;
    }
    let (hour, minute, second) = (seconds / 3600 % 24, seconds / 60 % 60, seconds % 60);
    write!(out, "{hour:02}:{minute:02}:{second:02}")
}
