//! Tests of whether a member runs, and its moments.

ghost use Rattle.std.specs.Prelude.{◌≡◌, map};
ghost use Rattle.am_runs.specs.Records.{step_of};
ghost use Rattle.am_runs.specs.Tests.{runs_after, runs_from, last_after, last_from};

use crate::step::RunStep;
use am_version_order::Moment;

/// Returns whether a member runs after a step, given whether it ran before.
pub fn runs_after<V>(member: usize, runs: bool, step: &RunStep<V>) -> bool
    ensures { result ≡ runs_after member runs (step_of step.now) }
{
    match step {
        RunStep::Stopped { place } => runs && *place != member,
        RunStep::Started { place, .. } => runs || *place == member,
        _ => runs,
    }
}

/// Returns whether a member runs after steps, given whether it ran before.
pub fn runs_from<V>(member: usize, runs: bool, steps: &[RunStep<V>]) -> bool
    ensures { result ≡ runs_from member runs (map step_of steps.now) }
{
    let mut runs = runs;
    for step in steps {
        runs = runs_after(member, runs, step);
    }
    runs
}

/// Returns the moment of a member's last event or start after a step, given that moment before it.
pub fn last_after<V>(member: usize, last: Moment, step: &RunStep<V>) -> Moment
    ensures { result ≡ last_after member last (step_of step.now) }
{
    if !step.is_at(member) {
        return last;
    }
    match step {
        RunStep::Took { now, .. } | RunStep::Ticked { now, .. } | RunStep::Started { now, .. } =>
            *now,
        _ => last,
    }
}

/// Returns the moment of a member's last event or start in steps, or the first moment.
pub fn last_from<V>(member: usize, steps: &[RunStep<V>]) -> Moment
    ensures { result ≡ last_from member 0 (map step_of steps.now) }
{
    let mut last = Moment::LEAST;
    for step in steps {
        last = last_after(member, last, step);
    }
    last
}
