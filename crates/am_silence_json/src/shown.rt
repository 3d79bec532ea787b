//! Reading shown silences from the body of a list.

ghost use Rattle.std.specs.Prelude.{◌≡◌, ◌≢◌, ◌⊎◌, ℕ, List, All, map, Some, None, Err, IfOk, IfErr, IfSome, IsErrOf};
ghost use Rattle.serde_json.specs.Data.{Data};
ghost use Rattle.serde_json.specs.View.{view};
ghost use Rattle.am_silence.specs.Mesh.{IsMesh};
ghost use Rattle.am_silence_json.specs.declared.list_error.ListError.TheVariants as errors;
ghost use Rattle.am_silence_json.specs.declared.key.ShownKey.{ShownKey};
ghost use Rattle.am_silence_json.specs.declared.key.ShownKey.TheVariants as keys;
ghost use Rattle.am_silence_json.specs.Posts.{HasMoment, matchers_in};
ghost use Rattle.am_silence_json.specs.Shown.{HasCut, IsShown, AreShown, FitsMessage, until_end, IsTooLarge, IsFirstUnshown};
ghost use Rattle.am_silence_json.specs.Lists.{IsJsonText, IsListText, IsNoList, Lists, IsWrongAt, IsTooLargeAt};
ghost use Rattle.am_silence_json.specs.Borrowed.{HasShown, shown_silence};

use crate::cut::cut;
use crate::error::BodyError;
use crate::key::ShownKey;
use crate::list_error::ListError;
use crate::matchers::{read_matchers, text_in};
use crate::post::moment_in;
use am_silence::{Matchers, MeshSilence, Silence};
use am_version_order::Moment;
use am_wire::{Text, WireError};
use serde_json::Value;
use serde_json::error::Category;
use std::alloc::{AllocError, Global};
use std::str;

/// Reads the moment at a key, cut to milliseconds.
fn cut_in(object: &Value, key: &str) -> Option<Moment>
    ensures value { IfSome result (HasCut key.now (view object.now)) }
    ensures none { result ≡ None → (m : ℕ) → ¬ HasMoment key.now (view object.now) m }
{
    match moment_in(object, key) {
        Some(moment) => Some(cut(moment)),
        None => None,
    }
}

/// The parts of a shown silence other than its matchers, borrowed from its object.
#[derive(Clone, Copy)]
struct ShownFields<'v> {
    id: &'v str,
    starts_at: Moment,
    ends_at: Moment,
    updated_at: Moment,
    created_by: &'v str,
    comment: &'v str,
}

/// Reads the parts of an object other than its matchers, or returns the first of these keys that is wrong.
fn read_shown(object: &Value) -> Result<ShownFields<'_>, ShownKey>
    ensures read { IfOk result (HasShown (view object.now)) }
    ensures wrong { IfErr result (IsFirstUnshown (view object.now)) }
{
    let Some(id) = text_in(object, "id") else {
        return Err(ShownKey::Id);
    };
    let Some(starts_at) = cut_in(object, "startsAt") else {
        return Err(ShownKey::StartsAt);
    };
    let Some(ends_at) = cut_in(object, "endsAt") else {
        return Err(ShownKey::EndsAt);
    };
    let Some(updated_at) = cut_in(object, "updatedAt") else {
        return Err(ShownKey::UpdatedAt);
    };
    let Some(created_by) = text_in(object, "createdBy") else {
        return Err(ShownKey::CreatedBy);
    };
    let Some(comment) = text_in(object, "comment") else {
        return Err(ShownKey::Comment);
    };
    Ok(ShownFields {
        id,
        starts_at,
        ends_at,
        updated_at,
        created_by,
        comment,
    })
}

/// Creates a silence from these parts.
fn silence_of(
    alloc: Global,
    shown: ShownFields<'_>,
    matchers: Matchers,
) -> Result<Silence, AllocError>
    ensures { IfOk result (λ s. s ≡ shown_silence shown.entry matchers) }
{
    let id = Text::copied(alloc, shown.id)?;
    let created_by = Text::copied(alloc, shown.created_by)?;
    let comment = Text::copied(alloc, shown.comment)?;
    Ok(Silence {
        id,
        matchers,
        starts_at: shown.starts_at,
        ends_at: shown.ends_at,
        updated_at: shown.updated_at,
        created_by,
        comment,
    })
}

/// Reads the matchers of the silence at a place.
fn matchers_at(alloc: Global, place: usize, object: &Value) -> Result<Matchers, ListError>
    ensures read { IfOk result (λ ms. matchers_in (view object.now) ≡ Some ms) }
    ensures wrong { IfErr result (λ e. e ≢ errors.Memory →
        (e ≡ errors.Wrong place keys.Matchers) × (matchers_in (view object.now) ≡ None)) }
{
    match read_matchers(alloc, object) {
        Ok(matchers) => Ok(matchers),
        Err(BodyError::Memory) => Err(ListError::Memory),
        Err(_) => Err(ListError::Wrong(place, ShownKey::Matchers)),
    }
}

/// Creates the version of the silence at a place, with its end as its expiry.
fn version_of(alloc: Global, place: usize, silence: Silence) -> Result<MeshSilence, ListError>
    ensures parts { IfOk result (λ m. m ≡ until_end silence) }
    ensures value { IfOk result IsMesh }
    ensures within { IfOk result FitsMessage }
    ensures too_large { (i : ℕ) → IsErrOf result (errors.TooLarge i) → (i ≡ place) × (¬ FitsMessage (until_end silence)) }
    ensures others { IfErr result (λ e. (e ≡ errors.Memory) ⊎ (e ≡ errors.TooLarge place)) }
{
    let ends_at = silence.ends_at;
    match MeshSilence::new(alloc, silence, ends_at) {
        Ok(version) => Ok(version),
        Err(WireError::TooLarge) => Err(ListError::TooLarge(place)),
        Err(_) => Err(ListError::Memory),
    }
}

/// Reads the silence shown by the object at a place.
fn read_silence(alloc: Global, place: usize, object: &Value) -> Result<MeshSilence, ListError>
    ensures read { IfOk result (IsShown (view object.now)) }
    ensures value { IfOk result IsMesh }
    ensures within { IfOk result FitsMessage }
    ensures wrong { (i : ℕ) (key : ShownKey) → IsErrOf result (errors.Wrong i key) →
        (i ≡ place) × IsFirstUnshown (view object.now) key }
    ensures too_large { (i : ℕ) → IsErrOf result (errors.TooLarge i) → (i ≡ place) × IsTooLarge (view object.now) }
    ensures others { (result ≢ Err errors.BadJson) × (result ≢ Err errors.NoList) }
{
    match read_shown(object) {
        Ok(shown) => {
            let matchers = matchers_at(alloc, place, object)?;
            let silence = silence_of(alloc, shown, matchers)?;
            let version = version_of(alloc, place, silence)?;
            Ok(version)
        }
        Err(key) => Err(ListError::Wrong(place, key)),
    }
}

/// Reads the silences shown by these objects.
fn read_each(alloc: Global, objects: &[Value]) -> Result<Vec<MeshSilence>, ListError>
    ensures read { IfOk result (λ vs. AreShown (map view objects.now) vs.items) }
    ensures values { IfOk result (λ vs. All IsMesh vs.items) }
    ensures within { IfOk result (λ vs. All FitsMessage vs.items) }
    ensures wrong { (i : ℕ) (key : ShownKey) → IsErrOf result (errors.Wrong i key) → IsWrongAt (map view objects.now) i key }
    ensures too_large { (i : ℕ) → IsErrOf result (errors.TooLarge i) → IsTooLargeAt (map view objects.now) i }
    ensures others { (result ≢ Err errors.BadJson) × (result ≢ Err errors.NoList) }
{
    let mut silences = Vec::with_capacity(alloc, objects.len())?;
    for (place, object) in objects.iter().enumerate() {
        let silence = read_silence(alloc, place, object)?;
        silences.push(silence)?;
    }
    Ok(silences)
}

/// Parses the body as JSON.
fn json_in(alloc: Global, body: &[u8]) -> Result<Value, ListError>
    ensures read { IfOk result (λ v. IsJsonText body.now (view v)) }
    ensures bad_json { IsErrOf result errors.BadJson → (d : Data) → ¬ IsJsonText body.now d }
    ensures others { IfErr result (λ e. (e ≡ errors.BadJson) ⊎ (e ≡ errors.Memory)) }
{
    let Ok(text) = str::from_utf8(body) else {
        return Err(ListError::BadJson);
    };
    match Value::from_str(alloc, text) {
        Ok(value) => Ok(value),
        Err(fault) if fault.classify() == Category::Memory => Err(ListError::Memory),
        _ => Err(ListError::BadJson),
    }
}

/// Reads the silences shown in the body of a reply to `GET /api/v2/silences`, in its order: an array of objects with `id`,
/// `matchers`, `startsAt`, `endsAt`, `updatedAt`, `createdBy` and `comment`. Other keys are ignored, and if a key is repeated, its
/// last value counts.
///
/// The moments of these versions are cut to milliseconds, and their expiry is their end, since API v2 shows none.
///
/// # Errors
///
/// Returns [`ListError::BadJson`] if the body is no JSON, or [`ListError::NoList`] if it is not an array; or else, for the first
/// silence
/// at fault, [`ListError::Wrong`] with the first key that is missing or of another kind, in the order of [`ShownKey`], or
/// [`ListError::TooLarge`]; and [`ListError::Memory`] if memory runs out.
pub fn read_silences(alloc: Global, body: &[u8]) -> Result<Vec<MeshSilence>, ListError>
    ensures read { IfOk result (λ vs. Lists body.now vs.items) }
    ensures values { IfOk result (λ vs. All IsMesh vs.items) }
    ensures within { IfOk result (λ vs. All FitsMessage vs.items) }
    ensures bad_json { IsErrOf result errors.BadJson → (d : Data) → ¬ IsJsonText body.now d }
    ensures no_list { IsErrOf result errors.NoList → IsNoList body.now }
    ensures wrong { (i : ℕ) (key : ShownKey) → IsErrOf result (errors.Wrong i key) →
        (ds : List Data) × IsListText body.now ds × IsWrongAt ds i key }
    ensures too_large { (i : ℕ) → IsErrOf result (errors.TooLarge i) →
        (ds : List Data) × IsListText body.now ds × IsTooLargeAt ds i }
{
    let list = json_in(alloc, body)?;
    let Some(objects) = list.as_array() else {
        return Err(ListError::NoList);
    };
    let silences = read_each(alloc, objects.as_slice())?;
    Ok(silences)
}
