//! Runs that follow from a number, whose reports on calm are compared with those of plain loops over their steps.

use crate::notes::{Note, at, mixed};
use am_runs::{DeliverySource, Run, RunStep, plain};
use am_version_order::{Interval, Moment};
use std::alloc::{AllocError, Global};

/// The way that the acts of a run follow from their numbers.
#[derive(Clone, Copy)]
enum Draw {
    /// Three members take what was made last, with up to four versions from before, in an order that a seed gives. If the seed
    /// is odd, time goes fast, so that versions expire and moments go back.
    Crowd,
    /// The first of two members takes 40 versions, and the second one takes them after that. Meanwhile the second one is saved,
    /// stopped and started, and takes all of them again or not.
    Far(bool),
}

#[derive(Clone, Copy)]
enum RunAction {
    /// A number of versions, made one after another up to the one of the second number.
    Take(u32, u32),
    Tick,
    Save,
    Stop,
    /// A start from what was saved.
    Start,
    /// A step that is refused, since its moment is before the member's last one.
    Back,
}

/// The action, the place of its member, and its moment in seconds.
type Act = (RunAction, usize, u32);

/// The reports on a run.
#[derive(Clone, Copy)]
struct RunReports {
    /// True if a report ever differed from that of plain loops.
    differs: bool,
    timely: usize,
    untimely: usize,
    /// True if the run was timely when that was last asked.
    last: bool,
}

fn crowd_act(run: &Run<Note>, seed: u64, number: u32) -> Act {
    let mixed = mixed(seed, u64::from(number));
    let count = if mixed / 32 % 4 == 0 { 5 } else { 2 };
    let is_fast = seed % 2 == 1;
    let place = (number % 3) as usize;
    let verb = match mixed % 32 {
        0 => RunAction::Tick,
        1..4 => RunAction::Save,
        4 | 5 => RunAction::Stop,
        6..10 => RunAction::Start,
        10 if is_fast => RunAction::Back,
        _ if !run.runs(place) => RunAction::Start,
        _ => RunAction::Take(count, number / 3),
    };
    let pace = if is_fast { 20 } else { 1 };
    let second = number.saturating_mul(pace).saturating_add(20);
    (verb, place, second)
}

fn far_act(taken_again: bool, number: u32) -> Act {
    match number {
        0..=39 => (RunAction::Take(1, number), 0, 20),
        40..=59 => (RunAction::Take(1, number - 40), 1, 21),
        60 => (RunAction::Save, 1, 21),
        61..=80 => (RunAction::Take(1, number - 41), 1, 21),
        81 => (RunAction::Stop, 1, 21),
        82 => (RunAction::Start, 1, 22),
        83 if taken_again => (RunAction::Take(40, 39), 1, 23),
        _ => (RunAction::Tick, 1, 900),
    }
}

// Returns the version of this number. It stays live.
fn note(made: u32) -> Note {
    let updated = made.saturating_mul(3).saturating_add(20);
    Note {
        id: if made % 2 == 0 { b'k' } else { b'l' },
        updated: at(updated),
        expires: at(updated.saturating_add(400).saturating_add(made % 2)),
        content: [0, 0],
    }
}

fn notes(alloc: Global, count: u32, last: u32) -> Result<Vec<Note>, AllocError> {
    let mut notes = Vec::new(alloc);
    for back in 0..count {
        notes.push(note(last.saturating_sub(back)))?;
    }
    Ok(notes)
}

// Records that a member took versions if that is possible, and returns whether it was.
fn take(
    alloc: Global,
    run: &mut Run<Note>,
    place: usize,
    now: Moment,
    versions: Vec<Note>,
) -> Result<bool, AllocError> {
    run.make_room(1)?;
    if !run.runs(place) || now < run.last(place) {
        return Ok(false);
    }
    run.append(RunStep::Took {
        place,
        now,
        source: DeliverySource::Written(Moment::LEAST),
        versions,
        frames: Vec::new(alloc),
    });
    Ok(true)
}

// Records an action that takes no versions if that is possible, and returns whether it was.
fn turn(
    run: &mut Run<Note>,
    verb: RunAction,
    place: usize,
    now: Moment,
) -> Result<bool, AllocError> {
    run.make_room(1)?;
    let runs = run.runs(place);
    let is_back = now < run.last(place);
    match verb {
        RunAction::Back if is_back => run.append(RunStep::Back { place, now }),
        RunAction::Tick if runs && !is_back => run.append(RunStep::Ticked { place, now }),
        RunAction::Save if runs => run.append(RunStep::Saved { place }),
        RunAction::Stop if runs => run.append(RunStep::Stopped { place }),
        RunAction::Start if place < run.members() && !runs && !is_back => {
            run.append(RunStep::Started { place, now });
        }
        _ => return Ok(false),
    }
    Ok(true)
}

// Asks for the first fault of each member, and of one that doesn't exist.
fn ask_faults(run: &Run<Note>, tally: &mut RunReports) {
    for place in 0..4 {
        let fault = run.first_fault(place);
        tally.differs = tally.differs || fault != plain::first_fault(place, run.steps());
    }
}

fn ask_timely(run: &Run<Note>, spread: Interval, tally: &mut RunReports) {
    let flight = Interval::from_nanos(200_000_000_000).unwrap();
    tally.last = run.timely(spread, flight);
    if tally.last {
        tally.timely = tally.timely.wrapping_add(1);
    } else {
        tally.untimely = tally.untimely.wrapping_add(1);
    }
}

// Records a run, and asks about it after each fourth act.
fn play(alloc: Global, draw: Draw, seed: u64, tally: &mut RunReports) -> Result<(), AllocError> {
    let (members, acts) = match draw {
        Draw::Crowd => (3, 48),
        Draw::Far(_) => (2, 85),
    };
    let mut run = Run::new(alloc, members);
    for number in 0..acts {
        let (verb, place, second) = match draw {
            Draw::Crowd => crowd_act(&run, seed, number),
            Draw::Far(taken_again) => far_act(taken_again, number),
        };
        let is_done = match verb {
            RunAction::Take(count, last) => {
                let notes = notes(alloc, count, last)?;
                take(alloc, &mut run, place, at(second), notes)?
            }
            _ => turn(&mut run, verb, place, at(second))?,
        };
        if is_done && number % 4 == 0 {
            ask(&run, tally);
        }
    }
    Ok(())
}

fn ask(run: &Run<Note>, tally: &mut RunReports) {
    ask_faults(run, tally);
    for spread in [2, 4, 6, 9, 15, 24, 50] {
        if let Some(spread) = Interval::from_seconds(spread) {
            ask_timely(run, spread, tally);
        }
    }
}

// Returns the reports on the runs of this many seeds.
fn told(alloc: Global, draw: Draw, seeds: u64) -> Result<RunReports, AllocError> {
    let mut tally = RunReports {
        differs: false,
        timely: 0,
        untimely: 0,
        last: false,
    };
    for seed in 0..seeds {
        play(alloc, draw, seed, &mut tally)?;
    }
    Ok(tally)
}

/// Returns whether plain loops gave the same reports on drawn runs, and the runs were timely, and untimely, at least 20 times
/// each.
pub fn are_told_as_by_loops(alloc: Global) -> Option<bool> {
    let tally = told(alloc, Draw::Crowd, 10).ok()?;
    Some(!tally.differs && tally.timely.min(tally.untimely) >= 20)
}

/// Returns whether plain loops gave the same reports, and what was lost far from where it came is missed until it comes again.
pub fn miss_what_was_lost(alloc: Global) -> Option<bool> {
    for taken_again in [false, true] {
        let tally = told(alloc, Draw::Far(taken_again), 1).ok()?;
        if tally.differs || tally.last != taken_again {
            return Some(false);
        }
    }
    Some(true)
}
