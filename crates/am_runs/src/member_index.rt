//! The record of a member in a run: the versions that it took, its last collection, and the first step after which it isn't calm.

ghost use Rattle.std.specs.Prelude.{◌≡◌, ℕ, ◌++◌, ◌∷◌, [], ◌↔◌, IsTrue, true, map, IfOk, OnOk};
ghost use Rattle.am_merge.specs.Maps.{at};
ghost use Rattle.am_runs.specs.Records.{step_of, lasts_seen};
ghost use Rattle.am_runs.specs.Steps.{EachStep, is_at};
ghost use Rattle.am_runs.specs.Tests.{last_after, lasts_after, runs_after, top_among, in_time};
ghost use Rattle.am_runs.specs.MemberIndexes.{AreMemberIndexes, IsMemberIndex, IsJudged, fault_after};

use crate::calm::{LastCollection, in_time, lasts_after};
use crate::running::{last_after, runs_after};
use crate::step::RunStep;
use am_merge::Held;
use am_version_order::{Moment, Version};
use std::alloc::{AllocError, Global};

/// The record of a member in a run.
#[derive(Drop)]
pub struct MemberIndex<V: Version> {
    pub runs: bool,
    /// The moment of the member's last event or start.
    pub acted: Moment,
    pub lasts: LastCollection,
    /// The number of the first step after which the member is not calm.
    pub fault: Option<usize>,
    /// The greatest version of each key that the member took; none is ever dropped.
    pub taken: Held<V>,
    /// The greatest versions in the saved copy.
    pub saved: Held<V>,
}

/// Creates the indexes of members before the first step.
///
/// # Errors
///
/// Returns [`AllocError`] if memory runs out. The indexes created so far are kept.
pub fn fill_first<V: Version>(
    alloc: Global,
    indexes: &mut Vec<MemberIndex<V>>,
    members: usize,
    steps: &[RunStep<V>],
) -> Result<(), AllocError>
    ensures { AreMemberIndexes V.seen V.Key.cmp indexes.old.items (map step_of steps.now)
        → AreMemberIndexes V.seen V.Key.cmp indexes.new.items (map step_of steps.now) }
{
    if !steps.is_empty() {
        return Ok(());
    }
    fill(alloc, indexes, members)
}

/// Creates the missing indexes of `members` members, of which nothing is known yet.
fn fill<V: Version>(
    alloc: Global,
    indexes: &mut Vec<MemberIndex<V>>,
    members: usize,
) -> Result<(), AllocError>
    ensures { AreMemberIndexes V.seen V.Key.cmp indexes.old.items [] → AreMemberIndexes V.seen V.Key.cmp indexes.new.items [] }
{
    for _member in indexes.len()..members {
        indexes.push(MemberIndex {
            runs: true,
            acted: Moment::LEAST,
            lasts: LastCollection {
                last: None,
                saved: None,
            },
            fault: None,
            taken: Held::new(alloc),
            saved: Held::new(alloc),
        })?;
    }
    Ok(())
}

/// Takes all versions of an event, and returns whether each came in time.
fn take_all<V: Version>(
    taken: &mut Held<V>,
    last: Option<Moment>,
    now: Moment,
    versions: &[V],
) -> Result<bool, AllocError>
    ensures calm { IfOk result (λ calm. IsTrue calm ↔ EachStep versions.now (λ done v.
        in_time V.seen (top_among V.seen V.Key.cmp (V.seen v).key
        (at V.seen V.Key.cmp taken.old (V.seen v).key) done) last now v ≡ true)) }
    ensures taken { OnOk result ((key : V.Key) →
        at V.seen V.Key.cmp taken.new key ≡ top_among V.seen V.Key.cmp key (at V.seen V.Key.cmp taken.old key) versions.now) }
{
    let alloc = taken.allocator();
    let mut calm = true;
    for number in 0..versions.len() {
        let version = &versions[number];
        calm &= in_time(taken.get(version.key()), last, now, version);
        taken.take(version.try_clone(alloc)?, now)?;
    }
    Ok(calm)
}

/// Updates a member's taken and saved versions by a step of its own, and returns whether it stays calm.
fn judge<V: Version>(index: &mut MemberIndex<V>, step: &RunStep<V>) -> Result<bool, AllocError>
    ensures { IfOk result (IsJudged V.seen V.Key.cmp index.old index.new (step_of step.now)) }
{
    match step {
        RunStep::Took { now, versions, .. } => {
            take_all(&mut index.taken, index.lasts.last, *now, versions)
        }
        RunStep::Back { .. } => Ok(false),
        RunStep::Saved { .. } => {
            index.saved = index.taken.try_clone()?;
            Ok(true)
        }
        RunStep::Started { .. } => {
            index.taken = index.saved.try_clone()?;
            Ok(true)
        }
        _ => Ok(true),
    }
}

fn fault_after(fault: Option<usize>, stays: bool, number: usize) -> Option<usize>
    ensures { result ≡ fault_after fault stays number }
{
    if fault.is_some() || stays {
        return fault;
    }
    Some(number)
}

/// Notes the step with this number, which is one of the member.
fn update_indexes<V: Version>(
    index: &mut MemberIndex<V>,
    member: usize,
    before: &[RunStep<V>],
    step: &RunStep<V>,
) -> Result<(), AllocError>
    requires at { is_at member (step_of step.now) ≡ true }
    ensures { OnOk result (IsMemberIndex V.seen V.Key.cmp member index.old (map step_of before.now)
        → IsMemberIndex V.seen V.Key.cmp member index.new (map step_of before.now ++ step_of step.now ∷ [])) }
{
    let stays = judge(index, step)?;
    index.runs = runs_after(member, index.runs, step);
    index.acted = last_after(member, index.acted, step);
    index.lasts = lasts_after(member, index.lasts, step);
    index.fault = fault_after(index.fault, stays, before.len());
    Ok(())
}

/// Notes a step after those before it. If memory runs out, all indexes are dropped.
pub fn note<V: Version>(indexes: &mut Vec<MemberIndex<V>>, before: &[RunStep<V>], step: &RunStep<V>)
    ensures { AreMemberIndexes V.seen V.Key.cmp indexes.old.items (map step_of before.now)
        → AreMemberIndexes V.seen V.Key.cmp indexes.new.items (map step_of before.now ++ step_of step.now ∷ []) }
{
    if let Some(member) = step.place() {
        if member < indexes.len() {
            if update_indexes(&mut indexes[member], member, before, step).is_err() {
                indexes.clear();
            }
        }
    }
}
