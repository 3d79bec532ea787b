//! Reading a posted silence from a request's body.

ghost use Rattle.std.specs.Prelude.{◌≡◌, ◌≢◌, ℕ, IfOk, IfErr, IfSome, IsErrOf, Some, None, option_copied, codes, IsSome};
ghost use Rattle.std.specs.Str.{IsUtf8};
ghost use Rattle.serde_json.specs.Data.{Data};
ghost use Rattle.serde_json.specs.Read.{read};
ghost use Rattle.serde_json.specs.Find.{as_object};
ghost use Rattle.serde_json.specs.View.{view};
ghost use Rattle.am_silence_json.specs.declared.error.BodyError.TheVariants as errors;
ghost use Rattle.am_silence_json.specs.declared.key.JsonKey.{JsonKey};
ghost use Rattle.am_silence_json.specs.declared.key.JsonKey.TheVariants as keys;
ghost use Rattle.am_silence_json.specs.Posts.{id_in, HasMoment, IsPosted, IsRight, IsFirstWrong, IsObjectText};
ghost use Rattle.am_silence_json.specs.Borrowed.{HasRest};

use crate::error::BodyError;
use crate::key::JsonKey;
use crate::matchers::{read_matchers, text_in};
use crate::moments::read_moment;
use am_silence::{Matchers, Posted};
use am_version_order::Moment;
use am_wire::Text;
use serde_json::Value;
use serde_json::error::Category;
use std::alloc::{AllocError, Global};
use std::str;

/// Reads the moment at a key.
pub fn moment_in(object: &Value, key: &str) -> Option<Moment>
    ensures value { IfSome result (HasMoment key.now (view object.now)) }
    ensures only { (m : ℕ) → HasMoment key.now (view object.now) m → result ≡ Some m }
{
    let text = text_in(object, key)?;
    read_moment(text)
}

/// Reads the posted identifier.
fn id_in(object: &Value) -> Result<Option<&str>, JsonKey>
    ensures read { IfOk result (λ id. id_in (view object.now) ≡ Some (option_copied id)) }
    ensures wrong { IfErr result (λ key. (key ≡ keys.Id) × (id_in (view object.now) ≡ None)) }
{
    let Some(given) = object.get("id") else {
        return Ok(None);
    };
    if given.is_null() {
        return Ok(None);
    }
    match given.as_str() {
        Some("") => Ok(None),
        Some(id) => Ok(Some(id)),
        None => Err(JsonKey::Id),
    }
}

/// The moments and texts of a post.
#[derive(Clone, Copy)]
struct Rest<'v> {
    starts_at: Moment,
    ends_at: Moment,
    created_by: &'v str,
    comment: &'v str,
}

/// Reads the moments and texts of a post, or returns the first of their keys that is wrong.
fn read_rest(object: &Value) -> Result<Rest<'_>, JsonKey>
    ensures read { IfOk result (HasRest (view object.now)) }
    ensures wrong { IfErr result (λ key. IsRight (view object.now) keys.Id → IsRight (view object.now) keys.Matchers →
        IsFirstWrong (view object.now) key) }
{
    let Some(starts_at) = moment_in(object, "startsAt") else {
        return Err(JsonKey::StartsAt);
    };
    let Some(ends_at) = moment_in(object, "endsAt") else {
        return Err(JsonKey::EndsAt);
    };
    let Some(created_by) = text_in(object, "createdBy") else {
        return Err(JsonKey::CreatedBy);
    };
    let Some(comment) = text_in(object, "comment") else {
        return Err(JsonKey::Comment);
    };
    Ok(Rest {
        starts_at,
        ends_at,
        created_by,
        comment,
    })
}

/// Copies an identifier.
fn copied_id(alloc: Global, id: Option<&str>) -> Result<Option<Text>, AllocError>
    ensures { IfOk result (λ copy. copy ≡ option_copied id.entry) }
{
    match id {
        Some(id) => Ok(Some(Text::copied(alloc, id)?)),
        None => Ok(None),
    }
}

/// Creates a post from these parts.
fn posted_of(
    alloc: Global,
    id: Option<&str>,
    matchers: Matchers,
    rest: Rest<'_>,
) -> Result<Posted, AllocError>
    ensures id { IfOk result (λ p. p.id ≡ option_copied id.entry) }
    ensures matchers { IfOk result (λ p. p.matchers ≡ matchers) }
    ensures starts_at { IfOk result (λ p. p.starts_at ≡ rest.entry.starts_at) }
    ensures ends_at { IfOk result (λ p. p.ends_at ≡ rest.entry.ends_at) }
    ensures created_by { IfOk result (λ p. p.created_by ≡ rest.entry.created_by.now) }
    ensures comment { IfOk result (λ p. p.comment ≡ rest.entry.comment.now) }
{
    let id = copied_id(alloc, id)?;
    let created_by = Text::copied(alloc, rest.created_by)?;
    let comment = Text::copied(alloc, rest.comment)?;
    Ok(Posted {
        id,
        matchers,
        starts_at: rest.starts_at,
        ends_at: rest.ends_at,
        created_by,
        comment,
    })
}

/// Reads the silence that an object posts.
fn read_object(alloc: Global, object: &Value) -> Result<Posted, BodyError>
    ensures read { IfOk result (IsPosted (view object.now)) }
    ensures wrong { (key : JsonKey) → IsErrOf result (errors.Wrong key) → IsFirstWrong (view object.now) key }
    ensures object { result ≢ Err errors.BadJson }
{
    let id = id_in(object)?;
    let matchers = read_matchers(alloc, object)?;
    match read_rest(object) {
        Ok(rest) => {
            let posted = posted_of(alloc, id, matchers, rest)?;
            Ok(posted)
        }
        Err(key) => Err(BodyError::Wrong(key)),
    }
}

/// Reads the body as the text of an object.
fn object_in(alloc: Global, body: &[u8]) -> Result<Value, BodyError>
    ensures read { IfOk result (λ v. IsObjectText body.now (view v)) }
    ensures bad_json { IsErrOf result errors.BadJson → (d : Data) → ¬ IsObjectText body.now d }
    ensures key { (key : JsonKey) → result ≢ Err (errors.Wrong key) }
{
    let Ok(text) = str::from_utf8(body) else {
        return Err(BodyError::BadJson);
    };
    match Value::from_str(alloc, text) {
        Ok(value) if value.is_object() => Ok(value),
        Err(fault) if fault.classify() == Category::Memory => Err(BodyError::Memory),
        _ => Err(BodyError::BadJson),
    }
}

/// Reads the silence posted in the body of a request: a JSON object with `matchers`, `startsAt`, `endsAt`, `createdBy` and
/// `comment`, and an optional `id`. If a key is repeated, its last value counts.
///
/// # Errors
///
/// Returns [`BodyError::BadJson`] if the body is no JSON, or no object; or else [`BodyError::Wrong`] with the first key that is
/// missing
/// or of another kind, in the order of [`JsonKey`]; and [`BodyError::Memory`] if memory runs out.
pub fn read_post(alloc: Global, body: &[u8]) -> Result<Posted, BodyError>
    // PROMISE: A posted silence is the one that its object describes.
    ensures posted { IfOk result (λ p. (d : Data) × IsObjectText body.now d × IsPosted d p) }
    ensures bad_json { IsErrOf result errors.BadJson → (d : Data) → ¬ IsObjectText body.now d }
    // PROMISE: Else its first wrong key is reported.
    ensures wrong { (key : JsonKey) → IsErrOf result (errors.Wrong key) → (d : Data) × IsObjectText body.now d × IsFirstWrong d key }
{
    let object = object_in(alloc, body)?;
    let posted = read_object(alloc, &object)?;
    Ok(posted)
}
