//! Keepers, which are held maps that know their last moment.

use crate::samples::{at, held, holds, text, version};
use am_collect::{Keeper, KeeperError, Step, Stepped};
use am_merge::{Held, Taken};
use am_silence::MeshSilence;
use std::alloc::Global;

/// Calls everything public of am_collect.
pub fn calls(alloc: Global) -> Option<()> {
    starts(alloc)?;
    pairs(alloc)?;
    steps(alloc)?;
    runs(alloc)?;
    reads(alloc)?;
    holds(number_of(KeeperError::MomentBack { last: at(10) }) == 1)
}

fn starts(alloc: Global) -> Option<()> {
    let mut versions = Vec::new(alloc);
    versions.push(version(alloc)?).ok()?;
    let keeper: Result<Keeper<MeshSilence>, KeeperError> = Keeper::start(alloc, versions, at(10));
    holds(keeper.is_ok())
}

/// Returns a keeper of the map of [`ROW`](crate::samples::ROW).
fn keeper(alloc: Global) -> Option<Keeper<MeshSilence>> {
    let keeper: Keeper<MeshSilence> = Keeper::of(held(alloc)?, at(10));
    Some(keeper)
}

fn pairs(alloc: Global) -> Option<()> {
    let (first, second) = (version(alloc)?, version(alloc)?);
    let mut keeper = keeper(alloc)?;
    let taken: Result<(Taken, Taken), KeeperError> = keeper.take_pair(first, second, at(10));
    holds(taken.ok()? == (Taken::Kept, Taken::Kept))
}

fn steps(alloc: Global) -> Option<()> {
    let step: Step<MeshSilence> = Step::Take(version(alloc)?);
    let mut keeper = keeper(alloc)?;
    let stepped: Result<Stepped, KeeperError> = keeper.step(step, at(10));
    holds(has_taken(stepped.ok()?))
}

fn has_taken(stepped: Stepped) -> bool {
    match stepped {
        Stepped::Took(taken) => taken == Taken::Kept,
        Stepped::Swept(went) => went > 0,
    }
}

fn runs(alloc: Global) -> Option<()> {
    let mut steps = Vec::new(alloc);
    steps.push((Step::Collect, at(9))).ok()?;
    let mut keeper = keeper(alloc)?;
    let ran: Result<(), (usize, KeeperError)> = keeper.run(&steps);
    holds(matches!(ran, Err((0, KeeperError::MomentBack { .. }))))
}

fn reads(alloc: Global) -> Option<()> {
    let key = text(alloc, "a")?;
    let mut keeper = keeper(alloc)?;
    let version: Option<&MeshSilence> = keeper.view(&key, at(20));
    holds(version.is_some())?;
    let held: &Held<MeshSilence> = keeper.held();
    holds(held.len() == 1)?;
    let went: Result<usize, KeeperError> = keeper.collect(at(200));
    holds(went.ok()? == 1)
}

fn number_of(refusal: KeeperError) -> usize {
    match refusal {
        KeeperError::MomentBack { last: _ } => 1,
        KeeperError::DuplicateKey => 2,
        KeeperError::Memory => 3,
    }
}
