//! The versions that posting a silence makes, and the one that ending it makes.

ghost use Rattle.std.specs.Prelude.{◌≡◌, ◌≢◌, ◌<◌, Some, None, All, OnOk, IfOk, IfErr, IfSome, IsSomeAnd, ◌↔◌};
ghost use Rattle.std.specs.Option.{option_copied};
ghost use Rattle.am_version_order.specs.Versions.{IsLive};
ghost use Rattle.am_silence.specs.declared.error.SilenceError.TheVariants as errors;
ghost use Rattle.am_silence.specs.Mesh.{mesh_version};
ghost use Rattle.am_silence.specs.Plans.{post_of, held_silence, planned, silence_in_view, plan_over, new_plan};
ghost use Rattle.am_silence.specs.Plans.{versions, successor, ended_of, Succeeds, IsUpdate, MayUpdate};
ghost use Rattle.am_silence.specs.Refusals.{◌before◌, refusal, early_refusal, end_refusal, early_end_refusal, fresh_refusal, size_refusal};

use crate::checks::{check_fresh, check_older, check_posted};
use crate::error::SilenceError;
use crate::matchers::Matchers;
use crate::mesh::MeshSilence;
use crate::state::State;
use crate::update::may_update;
use crate::versions::{check_ended, ended_version, new_version, updated_version};
use am_version_order::{Interval, Moment};
use am_wire::Text;
use std::alloc::Global;

/// A silence as it is posted: with the identifier of an existing one, or as a new one.
#[derive(Drop)]
pub struct Posted {
    pub id: Option<Text>,
    pub matchers: Matchers,
    pub starts_at: Moment,
    pub ends_at: Moment,
    pub created_by: Text,
    pub comment: Text,
}

/// The result of reading the patterns of the posted matchers.
#[derive(Clone, Copy, Debug, PartialEq, Eq)]
pub enum Verdict {
    /// All patterns are valid, and one of the matchers doesn't match the empty text.
    Fine,
    /// A pattern is not a valid regular expression.
    Bad,
    /// All matchers match the empty text.
    AllEmpty,
}

/// The versions that a post makes.
#[derive(Drop)]
pub enum Plan {
    /// The silence with the posted identifier, updated in place.
    Update(MeshSilence),
    /// A new silence.
    Create(MeshSilence),
    /// A new silence, and the end of the one with the posted identifier. The new one is put in first.
    Replace { new: MeshSilence, old: MeshSilence },
}

/// Returns the versions that a post at `now` makes. `held` is the version of the posted identifier in the view, and isn't used
/// if no identifier is posted. `bits` are random, and `id_held` says whether the identifier made of them is held, live or not.
///
/// # Errors
///
/// The first [`SilenceError`] that applies, in their order. The last one is [`SilenceError::Memory`], if memory runs out.
#[tactic(auto, unfolding(crate::specs::Refusals::early_refusal, crate::specs::Refusals::refusal, crate::specs::Plans::planned))]
pub fn plan_post(
    alloc: Global,
    held: Option<&MeshSilence>,
    posted: Posted,
    verdict: Verdict,
    now: Moment,
    bits: u128,
    id_held: bool,
    retention: Interval,
) -> Result<Plan, SilenceError>
    // PROMISE: A post makes, changes or replaces a silence exactly by the rule.
    ensures planned { IfOk result (λ plan. plan ≡ planned (option_copied held.entry) (post_of posted now bits retention)) }
    ensures accepted { OnOk result (refusal (option_copied held.entry) verdict id_held (post_of posted now bits retention) ≡ None) }
    // PROMISE: A post is refused for the first cause that applies.
    ensures refused { IfErr result (λ e. e ≢ errors.Memory →
        refusal (option_copied held.entry) verdict id_held (post_of posted now bits retention) ≡ Some e) }
    ensures memory { IfErr result (λ e. e ≡ errors.Memory →
        refusal (option_copied held.entry) verdict id_held (post_of posted now bits retention) ≡ None) }

    // The silence that is posted again is updated if and only if the rule allows it.
    ensures in_place { IfOk result (λ plan. IsUpdate plan ↔
        IsSomeAnd (held_silence (option_copied held.entry) posted) (λ silence. MayUpdate silence posted now)) }

    // The versions of the plan are live, and greater than those that they replace.
    ensures live { IfOk result (λ plan. All (λ v. IsLive now (mesh_version v)) (versions plan)) }
    ensures greater { IfOk result (λ plan. IfSome (successor plan)
        (λ v. IfSome (option_copied held.entry) (λ version. Succeeds version v))) }
{
    let held = check_posted(held, &posted, verdict, now)?;
    plan_over(alloc, held, &posted, now, bits, id_held, retention)
}

// Returns the versions that a post makes, if `held` is the version of the silence that is posted again.
#[tactic(auto, unfolding(crate::specs::Refusals::fresh_refusal, crate::specs::Refusals::size_refusal))]
fn plan_over(
    alloc: Global,
    held: Option<&MeshSilence>,
    posted: &Posted,
    now: Moment,
    bits: u128,
    id_held: bool,
    retention: Interval,
) -> Result<Plan, SilenceError>
    ensures planned { IfOk result (λ plan.
        plan ≡ plan_over (option_copied held.entry) (post_of posted.now now bits retention)) }
    ensures fresh { OnOk result (fresh_refusal (silence_in_view (option_copied held.entry)) posted.now id_held now ≡ None) }
    ensures size { OnOk result (size_refusal (versions
        (plan_over (option_copied held.entry) (post_of posted.now now bits retention))) ≡ None) }
    ensures refused { IfErr result (λ e. e ≢ errors.Memory →
        (fresh_refusal (silence_in_view (option_copied held.entry)) posted.now id_held now
        before size_refusal (versions
        (plan_over (option_copied held.entry) (post_of posted.now now bits retention)))) ≡ Some e) }
    ensures in_place { IfOk result (λ plan. IsUpdate plan ↔
        IsSomeAnd (silence_in_view (option_copied held.entry)) (λ silence. MayUpdate silence posted.now now)) }
    ensures live { now < posted.now.ends_at → IfOk result (λ plan. All (λ v. IsLive now (mesh_version v)) (versions plan)) }
    ensures memory { IfErr result (λ e. e ≡ errors.Memory →
        (fresh_refusal (silence_in_view (option_copied held.entry)) posted.now id_held now
        before size_refusal (versions
        (plan_over (option_copied held.entry) (post_of posted.now now bits retention)))) ≡ None) }
{
    match held {
        Some(held) if may_update(held, posted, now) => {
            let version = updated_version(alloc, held, posted, now, retention)?;
            Ok(Plan::Update(version))
        }
        _ => {
            check_fresh(id_held)?;
            plan_new(alloc, held, posted, now, bits, retention)
        }
    }
}

// Returns a new silence, and the end of the held one unless that has expired.
#[tactic(auto, unfolding(crate::specs::Refusals::size_refusal))]
fn plan_new(
    alloc: Global,
    held: Option<&MeshSilence>,
    posted: &Posted,
    now: Moment,
    bits: u128,
    retention: Interval,
) -> Result<Plan, SilenceError>
    ensures new { IfOk result (λ plan. ¬ IsUpdate plan) }
    ensures planned { IfOk result (λ plan.
        plan ≡ new_plan (option_copied held.entry) (post_of posted.now now bits retention)) }
    ensures accepted { OnOk result (
        size_refusal (versions (new_plan (option_copied held.entry) (post_of posted.now now bits retention))) ≡ None) }
    ensures refused { IfErr result (λ e. e ≢ errors.Memory →
        size_refusal (versions (new_plan (option_copied held.entry) (post_of posted.now now bits retention))) ≡ Some e) }
    ensures memory { IfErr result (λ e. e ≡ errors.Memory →
        size_refusal (versions (new_plan (option_copied held.entry) (post_of posted.now now bits retention))) ≡ None) }
    ensures live { now < posted.now.ends_at → IfOk result (λ plan. All (λ v. IsLive now (mesh_version v)) (versions plan)) }
{
    match held {
        Some(held) if held.state_at(now) != State::Expired => {
            check_ended(held, now, retention)?;
            let new = new_version(alloc, posted, now, bits, retention)?;
            let ended = ended_version(alloc, held, now, retention)?;
            Ok(Plan::Replace { new, old: ended })
        }
        _ => {
            let new = new_version(alloc, posted, now, bits, retention)?;
            Ok(Plan::Create(new))
        }
    }
}

/// Returns the version by which a silence ends at `now`; `held` is the version of its identifier in the view.
///
/// # Errors
///
/// The first [`SilenceError`] that applies, in their order. The last one is [`SilenceError::Memory`], if memory runs out.
#[tactic(auto, unfolding(crate::specs::Refusals::early_end_refusal, crate::specs::Refusals::end_refusal, crate::specs::Refusals::size_refusal))]
pub fn plan_expire(
    alloc: Global,
    held: Option<&MeshSilence>,
    now: Moment,
    retention: Interval,
) -> Result<MeshSilence, SilenceError>
    // PROMISE: An end changes a silence exactly by the rule.
    ensures ended { IfOk result (λ v. ended_of (option_copied held.entry) now retention ≡ Some v) }
    ensures accepted { OnOk result (end_refusal (option_copied held.entry) now retention ≡ None) }
    ensures refused { IfErr result (λ e. e ≢ errors.Memory → end_refusal (option_copied held.entry) now retention ≡ Some e) }
    ensures memory { IfErr result (λ e. e ≡ errors.Memory → end_refusal (option_copied held.entry) now retention ≡ None) }

    // The version is live, and greater than the one that it replaces.
    ensures live { IfOk result (λ v. IsLive now (mesh_version v)) }
    ensures greater { IfOk result (λ v. IfSome (option_copied held.entry) (λ version. Succeeds version v)) }
{
    let Some(held) = held else {
        return Err(SilenceError::NotFound);
    };
    if held.state_at(now) == State::Expired {
        return Err(SilenceError::AlreadyExpired);
    }
    check_older(held, now)?;
    ended_version(alloc, held, now, retention)
}
