//! The versions of silences that posts and ends make.

ghost use Rattle.std.specs.Prelude.{◌≡◌, ◌≢◌, ◌⊎◌, ◌<◌, ◌≤◌, ◌↔◌, true, false, Err, IfOk, IfErr, OnOk};
ghost use Rattle.am_version_order.specs.Moments.{greatest};
ghost use Rattle.am_version_order.specs.Versions.{IsLive};
ghost use Rattle.am_silence.specs.declared.error.SilenceError.TheVariants as errors;
ghost use Rattle.am_wire.specs.Unknown.{IsUnknown};
ghost use Rattle.am_silence.specs.Mesh.{mesh_version, silence_numbers};
ghost use Rattle.am_silence.specs.States.{state_of, has_expired};
ghost use Rattle.am_silence.specs.Plans.{post_of, silence_of, version_of, new_version, updated_version, ended_in, ended_version};
ghost use Rattle.am_silence.specs.Refusals.{Refuses, ◌when◌, is_too_large};

use crate::error::SilenceError;
use crate::ids::fresh_id;
use crate::iter::MatcherIter;
use crate::mesh::MeshSilence;
use crate::plan::Posted;
use crate::sizes::{SilenceFields, UnknownParts, version_size};
use am_version_order::{Interval, Moment, Version};
use am_wire::{MOST_MESSAGE_BYTES, WireError};
use std::alloc::Global;

// Returns the version of a silence with these fields and unknown ones. It expires one retention after its end.
fn version_of(
    alloc: Global,
    fields: &SilenceFields<'_, MatcherIter<'_>>,
    unknown: &UnknownParts<'_>,
    retention: Interval,
) -> Result<MeshSilence, SilenceError>
    requires { IsUnknown silence_numbers unknown.now }
    ensures made { IfOk result (λ v. v ≡ version_of fields.now unknown.now retention) }
    ensures within { OnOk result (is_too_large (version_of fields.now unknown.now retention) ≡ false) }
    ensures bound { OnOk result (fields.now.ends_at ≤ greatest) }
    ensures live { fields.now.ends_at < greatest →
        IsLive fields.now.ends_at (mesh_version (version_of fields.now unknown.now retention)) }
    ensures too_large { (result ≡ Err errors.TooLarge) ↔ (is_too_large (version_of fields.now unknown.now retention) ≡ true) }
    ensures refused { IfErr result (λ e. (e ≡ errors.Memory) ⊎ (e ≡ errors.TooLarge)) }
{
    let expires_at = fields.ends_at.capped_add(retention);
    match MeshSilence::of_fields(alloc, fields, expires_at, unknown) {
        Ok(version) => Ok(version),
        Err(WireError::TooLarge) => Err(SilenceError::TooLarge),
        Err(_) => Err(SilenceError::Memory),
    }
}

// Returns the posted fields with an identifier, a start, and the moment of the update.
fn posted_fields<'a>(
    id: &'a str,
    starts_at: Moment,
    posted: &'a Posted,
    updated_at: Moment,
) -> SilenceFields<'a, MatcherIter<'a>>
    ensures { result ≡ silence_of id.now starts_at posted.now updated_at }
{
    SilenceFields {
        id,
        matchers: posted.matchers.iter(),
        starts_at,
        ends_at: posted.ends_at,
        updated_at,
        created_by: posted.created_by.as_str(),
        comment: posted.comment.as_str(),
    }
}

/// Returns the new silence that is posted, without unknown fields. A start before now becomes now.
pub fn new_version(
    alloc: Global,
    posted: &Posted,
    now: Moment,
    bits: u128,
    retention: Interval,
) -> Result<MeshSilence, SilenceError>
    ensures made { IfOk result (λ v. v ≡ new_version (post_of posted.now now bits retention)) }
    ensures within { OnOk result (is_too_large (new_version (post_of posted.now now bits retention)) ≡ false) }
    ensures bound { OnOk result (posted.now.ends_at ≤ greatest) }
    ensures too_large { (result ≡ Err errors.TooLarge) ↔
        (is_too_large (new_version (post_of posted.now now bits retention)) ≡ true) }
    ensures refused { IfErr result (λ e. (e ≡ errors.Memory) ⊎ (e ≡ errors.TooLarge)) }
{
    let fresh = fresh_id(bits);
    let starts_at = posted.starts_at.max(now);
    let fields = posted_fields(fresh.as_str(), starts_at, posted, now);
    version_of(alloc, &fields, &UnknownParts::none(), retention)
}

/// Returns the silence as it is posted again, with the unknown fields it had.
pub fn updated_version(
    alloc: Global,
    held: &MeshSilence,
    posted: &Posted,
    now: Moment,
    retention: Interval,
) -> Result<MeshSilence, SilenceError>
    ensures made { IfOk result (λ v. v ≡ updated_version held.now (post_of posted.now now 0 retention)) }
    ensures within { OnOk result (is_too_large (updated_version held.now (post_of posted.now now 0 retention)) ≡ false) }
    ensures bound { OnOk result (posted.now.ends_at ≤ greatest) }
    ensures too_large { (result ≡ Err errors.TooLarge) ↔
        (is_too_large (updated_version held.now (post_of posted.now now 0 retention)) ≡ true) }
    ensures refused { IfErr result (λ e. (e ≡ errors.Memory) ⊎ (e ≡ errors.TooLarge)) }
{
    let fields = posted_fields(held.key().as_str(), posted.starts_at, posted, now);
    version_of(alloc, &fields, &held.unknown(), retention)
}

// Returns the fields of a silence that ends at `now`. A pending one also starts at `now`.
fn ended_fields(held: &MeshSilence, now: Moment) -> SilenceFields<'_, MatcherIter<'_>>
    requires { has_expired held.now.silence now ≡ false }
    ensures { result ≡ ended_in (state_of held.now.silence now) held.now.silence now }
{
    let mut fields = held.fields();
    fields.starts_at = fields.starts_at.min(now);
    fields.ends_at = now;
    fields.updated_at = now;
    fields
}

/// Checks that the version by which the silence ends is not too large. Nothing is allocated.
pub fn check_ended(held: &MeshSilence, now: Moment, retention: Interval) -> Result<(), SilenceError>
    requires { has_expired held.now.silence now ≡ false }
    ensures { Refuses result (errors.TooLarge when is_too_large (ended_version held.now now retention)) }
{
    let fields = ended_fields(held, now);
    let expires_at = fields.ends_at.capped_add(retention);
    if version_size(fields.size(), expires_at, &held.unknown()) > MOST_MESSAGE_BYTES {
        return Err(SilenceError::TooLarge);
    }
    Ok(())
}

/// Returns the silence, ended at `now`, with the unknown fields it had. A pending one also starts at `now`.
pub fn ended_version(
    alloc: Global,
    held: &MeshSilence,
    now: Moment,
    retention: Interval,
) -> Result<MeshSilence, SilenceError>
    requires { has_expired held.now.silence now ≡ false }
    ensures made { IfOk result (λ v. v ≡ ended_version held.now now retention) }
    ensures within { OnOk result (is_too_large (ended_version held.now now retention) ≡ false) }
    ensures live { OnOk result (now < greatest → IsLive now (mesh_version (ended_version held.now now retention))) }
    ensures too_large { (result ≡ Err errors.TooLarge) ↔ (is_too_large (ended_version held.now now retention) ≡ true) }
    ensures refused { IfErr result (λ e. (e ≡ errors.Memory) ⊎ (e ≡ errors.TooLarge)) }
{
    version_of(alloc, &ended_fields(held, now), &held.unknown(), retention)
}
