//! Tests of whether the versions that a member took came in time.

ghost use Rattle.std.specs.Prelude.{◌≡◌, ℕ, [], ◌∷◌, map, IsTrue, ◌↔◌, true, MatchOption};
ghost use Rattle.std.specs.Option.{option_copied};
ghost use Rattle.std.specs.Ordering.{eq_by_cmp};
ghost use Rattle.am_version_order.specs.Versions.{is_below};
ghost use Rattle.am_merge.specs.Maps.{greater_of, at};
ghost use Rattle.am_runs.specs.Records.{step_of, lasts_seen, tops_seen};
ghost use Rattle.am_runs.specs.Runs.{IsRun, IsCalmAt, IsFirstFault};
ghost use Rattle.am_runs.specs.Steps.{EachStep};
ghost use Rattle.am_runs.specs.Tests.{has_reached, in_time, later, lasts_after, lasts_from, top_among, top_in};
ghost use Rattle.am_runs.specs.Tests.{tops_after, tops_from, last_in, comes_in_time, StaysCalm};

use crate::step::RunStep;
use am_version_order::{Moment, Version};

/// The last collection of a member, and that of its saved copy.
#[derive(Clone, Copy)]
pub struct LastCollection {
    pub last: Option<Moment>,
    pub saved: Option<Moment>,
}

/// Returns the later one of the last collection, if there was one, and a moment.
pub fn later(last: Option<Moment>, now: Moment) -> Option<Moment>
    ensures { result ≡ later last now }
{
    match last {
        Some(last) => Some(last.max(now)),
        None => Some(now),
    }
}

/// Returns the last collections of a member after a step, given those before it.
pub fn lasts_after<V>(member: usize, lasts: LastCollection, step: &RunStep<V>) -> LastCollection
    ensures { lasts_seen result ≡ lasts_after member (lasts_seen lasts) (step_of step.now) }
{
    if !step.is_at(member) {
        return lasts;
    }
    match step {
        RunStep::Ticked { now, .. } => LastCollection {
            last: later(lasts.last, *now),
            saved: lasts.saved,
        },
        RunStep::Saved { .. } => LastCollection {
            last: lasts.last,
            saved: lasts.last,
        },
        RunStep::Started { .. } => LastCollection {
            last: lasts.saved,
            saved: lasts.saved,
        },
        _ => lasts,
    }
}

fn lasts_from<V>(member: usize, lasts: LastCollection, steps: &[RunStep<V>]) -> LastCollection
    ensures { lasts_seen result ≡ lasts_from member (lasts_seen lasts) (map step_of steps.now) }
{
    let mut lasts = lasts;
    for step in steps {
        lasts = lasts_after(member, lasts, step);
    }
    lasts
}

/// Returns whether a collection had this moment or a later one.
fn has_reached(last: Option<Moment>, moment: Moment) -> bool
    ensures { result ≡ has_reached last moment }
{
    match last {
        Some(last) => moment <= last,
        None => false,
    }
}

/// The greatest version of a key taken by a member, and that of its saved copy.
#[derive(Drop)]
struct MaxTaken<'a, V> {
    top: Option<&'a V>,
    saved: Option<&'a V>,
}

/// Returns whether the second of two versions of one key is the greater one.
#[tactic(auto, unfolding(am_version_order::specs::Versions::is_below))]
pub fn is_below<V: Version>(version: &V, other: &V) -> bool
    ensures { result ≡ is_below (V.seen version.now) (V.seen other.now) }
{
    version.compare(other).is_lt()
}

/// Returns whether a version has this key.
pub fn has_key<V: Version>(key: &V::Key, version: &V) -> bool
    ensures { result ≡ eq_by_cmp V.Key.cmp (V.seen version.now).key key.now }
{
    version.key().cmp(key).is_eq()
}

/// Returns the greater one of two versions if the second has the key, or else the first.
fn greater<'a, V: Version>(key: &V::Key, top: Option<&'a V>, version: &'a V) -> Option<&'a V>
    ensures { option_copied result
        ≡ greater_of V.seen (option_copied top.entry) (at V.seen V.Key.cmp (version.now ∷ []) key.now) }
{
    if !has_key(key, version) {
        return top;
    }
    match top {
        Some(held) if !is_below(held, version) => Some(held),
        _ => Some(version),
    }
}

/// Returns the greatest among a version and those in a list that have the key.
fn top_among<'a, V: Version>(key: &V::Key, top: Option<&'a V>, versions: &'a [V]) -> Option<&'a V>
    ensures { option_copied result ≡ top_among V.seen V.Key.cmp key.now (option_copied top.entry) versions.now }
{
    let mut top = top;
    for version in versions {
        top = greater(key, top, version);
    }
    top
}

fn tops_after<'a, V: Version>(
    member: usize,
    key: &V::Key,
    tops: MaxTaken<'a, V>,
    step: &'a RunStep<V>,
) -> MaxTaken<'a, V>
    ensures { tops_seen result ≡ tops_after V.seen V.Key.cmp member key.now (tops_seen tops.entry) (step_of step.now) }
{
    if !step.is_at(member) {
        return tops;
    }
    match step {
        RunStep::Took { versions, .. } => MaxTaken {
            top: top_among(key, tops.top, versions),
            saved: tops.saved,
        },
        RunStep::Saved { .. } => MaxTaken {
            top: tops.top,
            saved: tops.top,
        },
        RunStep::Started { .. } => MaxTaken {
            top: tops.saved,
            saved: tops.saved,
        },
        _ => tops,
    }
}

/// Returns the greatest version of a key that a member took in steps.
fn top_in<'a, V: Version>(member: usize, key: &V::Key, steps: &'a [RunStep<V>]) -> Option<&'a V>
    ensures { option_copied result ≡ top_in V.seen V.Key.cmp member key.now (map step_of steps.now) }
{
    let mut tops = MaxTaken {
        top: None,
        saved: None,
    };
    for step in steps {
        tops = tops_after(member, key, tops, step);
    }
    tops.top
}

/// Returns the last collection of a member in steps.
pub fn last_in<V>(member: usize, steps: &[RunStep<V>]) -> Option<Moment>
    ensures { result ≡ last_in member (map step_of steps.now) }
{
    let start = LastCollection {
        last: None,
        saved: None,
    };
    lasts_from(member, start, steps).last
}

/// Returns whether a version comes in time, given the greatest version taken of its key and the last collection.
pub fn in_time<V: Version>(top: Option<&V>, last: Option<Moment>, now: Moment, version: &V) -> bool
    ensures { result ≡ in_time V.seen (option_copied top.entry) last now version.now }
{
    match top {
        Some(top) => {
            !(now < version.expires() && is_below(version, top) && has_reached(last, top.expires()))
        }
        None => true,
    }
}

/// Returns whether a version of an event comes in time, after the steps before and the versions before it.
fn comes_in_time<V: Version>(
    member: usize,
    before: &[RunStep<V>],
    now: Moment,
    done: &[V],
    version: &V,
) -> bool
    ensures { result ≡ comes_in_time V.seen V.Key.cmp member (map step_of before.now) now done.now version.now }
{
    let key = version.key();
    let top = top_among(key, top_in(member, key, before), done);
    in_time(top, last_in(member, before), now, version)
}

/// Returns whether each version of an event comes in time.
fn come_in_time<V: Version>(
    member: usize,
    before: &[RunStep<V>],
    now: Moment,
    versions: &[V],
) -> bool
    ensures { IsTrue result ↔ EachStep versions.now (λ done v.
        comes_in_time V.seen V.Key.cmp member (map step_of before.now) now done v ≡ true) }
{
    for place in 0..versions.len() {
        if !comes_in_time(member, before, now, &versions[..place], &versions[place]) {
            return false;
        }
    }
    true
}

/// Returns whether a member that was calm stays calm with a step.
fn stays_calm<V: Version>(member: usize, before: &[RunStep<V>], step: &RunStep<V>) -> bool
    ensures { IsTrue result ↔ StaysCalm V.seen V.Key.cmp member (map step_of before.now) (step_of step.now) }
{
    match step {
        RunStep::Took {
            place,
            now,
            versions,
            ..
        } => *place != member || come_in_time(member, before, *now, versions),
        RunStep::Back { place, .. } => *place != member,
        _ => true,
    }
}

/// Returns the number of the first step of a run, counted from 0, after which a member isn't calm, or `None` if it is calm.
pub fn first_fault<V: Version>(member: usize, steps: &[RunStep<V>]) -> Option<usize>
    ensures { (members : ℕ) → IsRun V.seen V.Key.cmp members (map step_of steps.now)
        → MatchOption result (IsCalmAt V.seen members member (map step_of steps.now))
        (IsFirstFault V.seen members member (map step_of steps.now)) }
{
    for place in 0..steps.len() {
        if !stays_calm(member, &steps[..place], &steps[place]) {
            return Some(place);
        }
    }
    None
}
