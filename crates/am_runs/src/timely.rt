//! Tests of whether a run keeps a spread and a flight time, by plain loops.

ghost use Rattle.std.specs.Prelude.{◌≡◌, ◌+◌, ◌<◌, ◌≤◌, ◌↔◌, IsTrue, All, true, false, map};
ghost use Rattle.std.specs.List.{list_all, list_any};
ghost use Rattle.am_runs.specs.Records.{step_of, watch_seen};
ghost use Rattle.am_runs.specs.Steps.{clock_after, delivered_by, delivered_in, moment};
ghost use Rattle.am_runs.specs.Tests.{is_monotone, are_monotone, sent_in, sent_at, flies_short, arrived_in_time, is_wanting};
ghost use Rattle.am_runs.specs.Tests.{counts_for, watched, watch_after, comes, ComesToAll};
ghost use Rattle.am_runs.specs.Runs.{IsRun};
ghost use Rattle.am_runs.specs.Timely.{IsTimely};

use crate::calm::{has_key, is_below};
use crate::spans::{both_end_by, ends_by, is_within};
use crate::step::{DeliverySource, RunStep};
use am_version_order::{Interval, Moment, Version};

fn is_monotone(clock: Moment, now: Option<Moment>) -> bool
    ensures { result ≡ is_monotone clock now }
{
    match now {
        Some(now) => clock <= now,
        None => true,
    }
}

/// Returns whether the moments written in steps never decrease.
fn are_monotone<V>(steps: &[RunStep<V>]) -> bool
    ensures { result ≡ are_monotone 0 (map step_of steps.now) }
{
    let mut clock = Moment::LEAST;
    for step in steps {
        if !is_monotone(clock, step.moment()) {
            return false;
        }
        clock = step.moment().unwrap_or(clock);
    }
    true
}

/// Returns whether a version lives at least for the spread and the flight time.
fn is_lasting<V: Version>(version: &V, spread: Interval, flight: Interval) -> bool
    ensures { IsTrue result ↔ (((V.seen version.now).updated + spread) + flight ≤ (V.seen version.now).expires) }
{
    both_end_by(version.updated(), spread, flight, version.expires())
}

/// Returns whether each of the versions lives at least for the spread and the flight time.
fn are_lasting<V: Version>(versions: &[V], spread: Interval, flight: Interval) -> bool
    ensures { IsTrue result ↔ All (λ v. ((V.seen v).updated + spread) + flight ≤ (V.seen v).expires) versions.now }
{
    for version in versions {
        if !is_lasting(version, spread, flight) {
            return false;
        }
    }
    true
}

/// Returns whether each version delivered in steps lives at least for the spread and the flight time.
fn all_lasting<V: Version>(steps: &[RunStep<V>], spread: Interval, flight: Interval) -> bool
    ensures { IsTrue result ↔ All (λ v. ((V.seen v).updated + spread) + flight ≤ (V.seen v).expires)
        (delivered_in (map step_of steps.now)) }
{
    for step in steps {
        if !are_lasting(step.versions(), spread, flight) {
            return false;
        }
    }
    true
}

/// Returns the moment when the frame with this number was sent.
fn sent_in<V>(number: usize, steps: &[RunStep<V>]) -> Option<Moment>
    ensures { result ≡ sent_in number (map step_of steps.now) }
{
    let mut left = number;
    for step in steps {
        let sendings = step.sendings();
        if left < sendings {
            return step.moment();
        }
        left -= sendings;
    }
    None
}

/// Returns the moment when the versions of a source were sent, if they were.
fn sent_at<V>(steps: &[RunStep<V>], source: DeliverySource) -> Option<Moment>
    ensures { result ≡ sent_at (map step_of steps.now) source }
{
    match source {
        DeliverySource::Written(sent) => Some(sent),
        DeliverySource::Arrived(number) => sent_in(number, steps),
        DeliverySource::Made | DeliverySource::Lent(_) => None,
    }
}

fn flies_short(flight: Interval, now: Moment, sent: Option<Moment>) -> bool
    ensures { result ≡ flies_short flight now sent }
{
    match sent {
        Some(sent) => is_within(now, sent, flight),
        None => true,
    }
}

/// Returns whether the versions that a step delivered came in time.
fn arrived_in_time<V>(flight: Interval, steps: &[RunStep<V>], step: &RunStep<V>) -> bool
    ensures { result ≡ arrived_in_time flight (map step_of steps.now) (step_of step.now) }
{
    match step {
        RunStep::Took { now, source, .. } => flies_short(flight, *now, sent_at(steps, *source)),
        _ => true,
    }
}

/// Returns whether the versions that each step delivered came in time.
fn are_swift<V>(flight: Interval, steps: &[RunStep<V>]) -> bool
    ensures { result ≡ list_all (arrived_in_time flight (map step_of steps.now)) (map step_of steps.now) }
{
    for step in steps {
        if !arrived_in_time(flight, steps, step) {
            return false;
        }
    }
    true
}

/// The state of a test for one version: whether a member runs, and whether it, and its saved copy, have that version or a greater
/// one of its key.
#[derive(Clone, Copy)]
struct Watch {
    runs: bool,
    has: bool,
    saved: bool,
}

/// Returns whether a version should have come by a moment, and the member runs without it.
fn is_wanting<V: Version>(spread: Interval, version: &V, watch: Watch, now: Option<Moment>) -> bool
    ensures { result ≡ is_wanting ((V.seen version.now).updated + spread) (watch_seen watch) now }
{
    match now {
        Some(now) => watch.runs && !watch.has && ends_by(version.updated(), spread, now),
        None => false,
    }
}

/// Returns whether a taken version is this one, or a greater one of its key.
fn counts_for<V: Version>(version: &V, taken: &V) -> bool
    ensures { result ≡ counts_for V.seen V.Key.cmp version.now taken.now }
{
    !is_below(taken, version) && has_key(version.key(), taken)
}

fn any_counts<V: Version>(version: &V, taken: &[V]) -> bool
    ensures { result ≡ list_any (counts_for V.seen V.Key.cmp version.now) taken.now }
{
    for one in taken {
        if counts_for(version, one) {
            return true;
        }
    }
    false
}

fn watch_after<V: Version>(member: usize, version: &V, watch: Watch, step: &RunStep<V>) -> Watch
    ensures { watch_seen result
        ≡ watch_after V.seen V.Key.cmp member version.now (watch_seen watch) (step_of step.now) }
{
    let Watch { runs, has, saved } = watch;
    if !step.is_at(member) {
        return watch;
    }
    match step {
        RunStep::Took { versions, .. } => Watch {
            runs,
            has: has || any_counts(version, versions),
            saved,
        },
        RunStep::Saved { .. } => Watch {
            runs,
            has,
            saved: has,
        },
        RunStep::Stopped { .. } => Watch {
            runs: false,
            has,
            saved,
        },
        RunStep::Started { .. } => Watch {
            runs: true,
            has: saved,
            saved,
        },
        _ => watch,
    }
}

/// Returns whether the member never runs without a version at the beginning of a step by which it should have come.
fn comes<V: Version>(spread: Interval, member: usize, version: &V, steps: &[RunStep<V>]) -> bool
    ensures { result ≡ comes V.seen V.Key.cmp spread member version.now
        (record { runs = true; has = false; saved = false }) (map step_of steps.now) }
{
    let mut watch = Watch {
        runs: true,
        has: false,
        saved: false,
    };
    for step in steps {
        if is_wanting(spread, version, watch, step.moment()) {
            return false;
        }
        watch = watch_after(member, version, watch, step);
    }
    true
}

/// Returns whether a version comes to each member.
fn comes_to_all<V: Version>(
    spread: Interval,
    members: usize,
    steps: &[RunStep<V>],
    version: &V,
) -> bool
    ensures { IsTrue result ↔ ComesToAll V.seen V.Key.cmp spread members (map step_of steps.now) version.now }
{
    for member in 0..members {
        if !comes(spread, member, version, steps) {
            return false;
        }
    }
    true
}

/// Returns whether each of the versions comes to each member.
fn come_to_all<V: Version>(
    spread: Interval,
    members: usize,
    steps: &[RunStep<V>],
    versions: &[V],
) -> bool
    ensures { IsTrue result ↔ All (ComesToAll V.seen V.Key.cmp spread members (map step_of steps.now)) versions.now }
{
    for version in versions {
        if !comes_to_all(spread, members, steps, version) {
            return false;
        }
    }
    true
}

/// Returns whether each version delivered in some of the steps comes to each member.
fn all_come_to_all<V: Version>(spread: Interval, members: usize, steps: &[RunStep<V>]) -> bool
    ensures { IsTrue result ↔ All (ComesToAll V.seen V.Key.cmp spread members (map step_of steps.now))
        (delivered_in (map step_of steps.now)) }
{
    for step in steps {
        if !come_to_all(spread, members, steps, step.versions()) {
            return false;
        }
    }
    true
}

/// Returns whether a run of `members` members keeps a spread and a flight time.
pub fn is_timely<V: Version>(
    spread: Interval,
    flight: Interval,
    members: usize,
    steps: &[RunStep<V>],
) -> bool
    ensures { IsRun V.seen V.Key.cmp members (map step_of steps.now)
        → IsTrue result ↔ IsTimely V.seen spread flight members (map step_of steps.now) }
{
    if !are_monotone(steps) {
        return false;
    }
    if !all_lasting(steps, spread, flight) {
        return false;
    }
    if !are_swift(flight, steps) {
        return false;
    }
    all_come_to_all(spread, members, steps)
}
