//! The tests that a post and an end have to pass, which allocate nothing.

ghost use Rattle.std.specs.Prelude.{◌≡◌, ◌==◌, length, IfOk};
ghost use Rattle.std.specs.List.{list_any};
ghost use Rattle.std.specs.Option.{option_copied};
ghost use Rattle.am_silence.specs.declared.error.SilenceError.TheVariants as errors;
ghost use Rattle.am_silence.specs.Plans.{silence_in_view, held_version};
ghost use Rattle.am_silence.specs.Refusals.{Refuses, ◌when◌, posted_refusal, unread_refusal, verdict_refusal, times_refusal, newer_refusal, held_refusal};

use crate::error::SilenceError;
use crate::iter::MatcherIter;
use crate::mesh::MeshSilence;
use crate::plan::{Posted, Verdict};
use crate::state::State;
use am_version_order::Moment;

/// Tests what is posted, and the silence that is posted again, which is returned.
#[tactic(auto, unfolding(crate::specs::Refusals::posted_refusal))]
pub fn check_posted<'a>(
    held: Option<&'a MeshSilence>,
    posted: &Posted,
    verdict: Verdict,
    now: Moment,
) -> Result<Option<&'a MeshSilence>, SilenceError>
    ensures held { IfOk result (λ version. option_copied version ≡ held_version (option_copied held.entry) posted.now) }
    ensures tests { Refuses result (posted_refusal (option_copied held.entry) posted.now verdict now) }
{
    if let Some(error) = refused_unread(held, posted) {
        return Err(error);
    }
    check_verdict(verdict)?;
    let held = held_version(held, posted);
    check_times(posted, now)?;
    check_held(held, now)?;
    Ok(held)
}

/// Returns the reason why a post is refused whatever its patterns are: an identifier that isn't in view, no matcher, or a
/// matcher without a label's name. `held` is as [`plan_post`](crate::plan_post) takes it. Nothing is allocated.
#[tactic(auto, unfolding(crate::specs::Refusals::unread_refusal))]
pub fn refused_unread(held: Option<&MeshSilence>, posted: &Posted) -> Option<SilenceError>
    ensures { result ≡ unread_refusal (option_copied held.entry) posted.now }
{
    if posted.id.is_some() && held.is_none() {
        return Some(SilenceError::NotFound);
    }
    if posted.matchers.is_empty() {
        return Some(SilenceError::NoMatcher);
    }
    if has_empty_name(posted.matchers.iter()) {
        return Some(SilenceError::EmptyName);
    }
    None
}

// Checks that the patterns of the matchers are fine.
fn check_verdict(verdict: Verdict) -> Result<(), SilenceError>
    ensures tests { Refuses result (verdict_refusal verdict) }
{
    match verdict {
        Verdict::Fine => Ok(()),
        Verdict::Bad => Err(SilenceError::BadPattern),
        Verdict::AllEmpty => Err(SilenceError::AllMatchEmpty),
    }
}

// Returns the version of the silence that is posted again, if there is one.
fn held_version<'a>(held: Option<&'a MeshSilence>, posted: &Posted) -> Option<&'a MeshSilence>
    ensures { option_copied result ≡ held_version (option_copied held.entry) posted.now }
{
    if posted.id.is_none() {
        return None;
    }
    held
}

// Returns whether any matcher has no label's name.
fn has_empty_name(matchers: MatcherIter<'_>) -> bool
    ensures { result ≡ list_any (λ m. length m.name == 0) matchers.entry }
{
    for matcher in matchers {
        if matcher.name().is_empty() {
            return true;
        }
    }
    false
}

// Checks that the end is after the start, and after now.
#[tactic(auto, unfolding(crate::specs::Refusals::times_refusal))]
fn check_times(posted: &Posted, now: Moment) -> Result<(), SilenceError>
    ensures tests { Refuses result (times_refusal posted.now now) }
{
    if posted.ends_at <= posted.starts_at {
        return Err(SilenceError::EndNotAfterStart);
    }
    if posted.ends_at <= now {
        return Err(SilenceError::EndInPast);
    }
    Ok(())
}

/// Checks that the silence was updated before now, so that a version made now is greater.
#[tactic(auto, unfolding(crate::specs::Refusals::newer_refusal))]
pub fn check_older(held: &MeshSilence, now: Moment) -> Result<(), SilenceError>
    ensures tests { Refuses result (newer_refusal held.now.silence now) }
{
    if held.updated_at() >= now {
        return Err(SilenceError::Newer {
            held: held.updated_at(),
        });
    }
    Ok(())
}

// Checks the same of a silence that is posted again, unless it has expired, since it gets no new version then.
#[tactic(auto, unfolding(crate::specs::Refusals::held_refusal))]
fn check_held(held: Option<&MeshSilence>, now: Moment) -> Result<(), SilenceError>
    ensures tests { Refuses result (held_refusal (silence_in_view (option_copied held.entry)) now) }
{
    match held {
        Some(held) if held.state_at(now) != State::Expired => check_older(held, now),
        _ => Ok(()),
    }
}

/// Checks that no silence has the fresh identifier.
pub fn check_fresh(id_held: bool) -> Result<(), SilenceError>
    ensures { Refuses result (errors.IdInUse when id_held) }
{
    if id_held {
        return Err(SilenceError::IdInUse);
    }
    Ok(())
}
