//! Durable members. At each of its starts, a durable member had been saved after every step that had brought it something
//! live.

ghost use Rattle.std.specs.Prelude.{◌≡◌, ◌↔◌, IsTrue, map, true};
ghost use Rattle.std.specs.List.{list_any};
ghost use Rattle.am_version_order.specs.Versions.{is_live};
ghost use Rattle.am_runs.specs.Records.{step_of};
ghost use Rattle.am_cluster.specs.Durable.{saves, starts};
ghost use Rattle.am_cluster.specs.Durable.{IsDurable};
ghost use Rattle.am_cluster.specs.DurableTests.{brings_live, durable_from, saved_after};

use am_runs::{Run, RunStep};
use am_version_order::{Moment, Version};

/// Returns whether one of the versions is live.
fn any_live<V: Version>(now: Moment, versions: &[V]) -> bool
    ensures { result ≡ list_any (λ v. is_live now (V.seen v)) versions.now }
{
    for version in versions {
        if now < version.expires() {
            return true;
        }
    }
    false
}

/// Returns whether a step brings a member something live.
fn brings_live<V: Version>(member: usize, step: &RunStep<V>) -> bool
    ensures { result ≡ brings_live V.seen member (step_of step.now) }
{
    match step {
        RunStep::Took {
            place,
            now,
            versions,
            ..
        } => *place == member && any_live(*now, versions),
        _ => false,
    }
}

fn saves<V>(member: usize, step: &RunStep<V>) -> bool
    ensures { result ≡ saves member (step_of step.now) }
{
    match step {
        RunStep::Saved { place } => *place == member,
        _ => false,
    }
}

fn starts<V>(member: usize, step: &RunStep<V>) -> bool
    ensures { result ≡ starts member (step_of step.now) }
{
    match step {
        RunStep::Started { place, .. } => *place == member,
        _ => false,
    }
}

/// Returns whether, after one more step, the member has been saved since the last step that brought it something live.
fn saved_after<V: Version>(member: usize, saved: bool, step: &RunStep<V>) -> bool
    ensures { result ≡ saved_after V.seen member saved (step_of step.now) }
{
    saves(member, step) || (saved && !brings_live(member, step))
}

/// Returns whether, at each of its starts in these steps, the member had been saved since the last step that brought it
/// something live.
fn starts_saved<V: Version>(member: usize, steps: &[RunStep<V>]) -> bool
    ensures { result ≡ durable_from V.seen member true (map step_of steps.now) }
{
    let mut saved = true;
    for step in steps {
        if starts(member, step) && !saved {
            return false;
        }
        saved = saved_after(member, saved, step);
    }
    true
}

/// Returns whether a member is durable in a run.
pub fn is_durable<V: Version>(member: usize, run: &Run<V>) -> bool
    ensures { IsTrue result ↔ IsDurable V.seen member run.now.steps }
{
    starts_saved(member, run.steps())
}
