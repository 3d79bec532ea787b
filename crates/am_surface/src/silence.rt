//! Silences: their versions and states, and the plans of posting and ending one.

use crate::samples::{at, holds, posted, second, silence, version};
use am_silence::{
    IdText, MatcherIter, MeshSilence, Plan, Posted, SilenceError, State, Verdict, fresh_id,
    plan_expire, plan_post, state_at,
};
use am_version_order::{Interval, Moment};
use am_wire::WireError;
use std::alloc::Global;

/// Calls everything public of am_silence.
pub fn calls(alloc: Global) -> Option<()> {
    made(alloc)?;
    moments(&version(alloc)?)?;
    texts(&version(alloc)?)?;
    states(alloc)?;
    let id: IdText = fresh_id(0);
    holds(id.as_str() == "00000000-0000-4000-8000-000000000000")?;
    posts(alloc)?;
    expires(alloc)?;
    holds(moment_in(SilenceError::Newer { held: at(3) }) == Some(at(3)))
}

fn made(alloc: Global) -> Option<()> {
    let version: Result<MeshSilence, WireError> = MeshSilence::new(alloc, silence(alloc)?, at(200));
    holds(version.is_ok())
}

fn moments(version: &MeshSilence) -> Option<()> {
    let starts_at: Moment = version.starts_at();
    let ends_at: Moment = version.ends_at();
    let updated_at: Moment = version.updated_at();
    let expires_at: Moment = version.expires_at();
    holds(starts_at == updated_at && ends_at < expires_at)
}

fn texts(version: &MeshSilence) -> Option<()> {
    let matchers: MatcherIter<'_> = version.matchers();
    let created_by: &str = version.created_by();
    let comment: &str = version.comment();
    holds(!matchers.is_empty() && created_by == comment)
}

fn states(alloc: Global) -> Option<()> {
    let state: State = state_at(&silence(alloc)?, at(10));
    holds(match state {
        State::Active => true,
        State::Pending | State::Expired => false,
    })
}

fn posts(alloc: Global) -> Option<()> {
    let held: Option<&MeshSilence> = None;
    let posted: Posted = posted(alloc)?;
    let verdict: Verdict = Verdict::Fine;
    let now: Moment = at(10);
    let retention: Interval = second()?;
    let plan: Result<Plan, SilenceError> = plan_post(
        alloc, held, posted, verdict, now, 0u128, false, retention,
    );
    holds(made_by(&plan.ok()?) == 1)
}

/// Counts the versions that a plan makes.
fn made_by(plan: &Plan) -> usize {
    match plan {
        Plan::Update(_) | Plan::Create(_) => 1,
        Plan::Replace { new: _, old: _ } => 2,
    }
}

fn expires(alloc: Global) -> Option<()> {
    let held = version(alloc)?;
    let ended: Result<MeshSilence, SilenceError> = plan_expire(
        alloc,
        Some(&held),
        at(20),
        second()?,
    );
    let ended = ended.ok()?;
    holds(ended.ends_at() == at(20))
}

/// Returns the moment that a refusal has, if any.
fn moment_in(refusal: SilenceError) -> Option<Moment> {
    match refusal {
        SilenceError::Newer { held } => Some(held),
        SilenceError::NotFound
        | SilenceError::NoMatcher
        | SilenceError::EmptyName
        | SilenceError::BadPattern
        | SilenceError::AllMatchEmpty
        | SilenceError::EndNotAfterStart
        | SilenceError::EndInPast
        | SilenceError::AlreadyExpired
        | SilenceError::IdInUse
        | SilenceError::TooLarge
        | SilenceError::Memory => None,
    }
}
