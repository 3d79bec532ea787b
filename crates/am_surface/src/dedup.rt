//! Decisions and waiting.

use crate::samples::{at, entry, holds, second};
use am_dedup::{Decision, Reason, decide, due};
use am_version_order::Moment;
use std::alloc::Global;

/// Calls everything public of am_dedup.
pub fn calls(alloc: Global) -> Option<()> {
    let entry = entry(alloc)?;
    let decision: Decision = decide(Some(&entry), &[3], &[], second()?, false, at(10));
    let due: Option<Moment> = due(at(10), 2, second()?);
    holds(number_of(decision) == 2 && due == Some(at(12)))
}

/// Returns the place of a decision in the table of decisions, or 0 if nothing is to be notified.
fn number_of(decision: Decision) -> usize {
    match decision {
        Decision::Skip => 0,
        Decision::Notify(Reason::First) => 1,
        Decision::Notify(Reason::NewFiring) => 2,
        Decision::Notify(Reason::AllResolved) => 3,
        Decision::Notify(Reason::NewResolved) => 4,
        Decision::Notify(Reason::Repeat) => 5,
    }
}
