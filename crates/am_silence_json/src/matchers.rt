//! The matchers of a post.

ghost use Rattle.std.specs.Prelude.{◌≡◌, ◌≢◌, ◌<◌, List, length, IfOk, IfErr, IfSome, OnErr, Some, None, option_map, option_copied};
ghost use Rattle.serde_json.specs.View.{view, items_view};
ghost use Rattle.am_silence.specs.declared.matcher.Matcher.{Matcher};
ghost use Rattle.am_silence_json.specs.declared.error.BodyError.TheVariants as errors;
ghost use Rattle.am_silence_json.specs.declared.key.JsonKey.TheVariants as keys;
ghost use Rattle.am_silence_json.specs.Posts.{text_in, truth_in, equal_in, kind_of, matcher_of, matchers_of, matchers_in};
ghost use Rattle.am_silence_json.specs.Borrowed.{matcher_in};

use crate::error::BodyError;
use crate::key::JsonKey;
use am_silence::{Matcher, MatcherKind, Matchers};
use am_wire::Text;
use serde_json::Value;
use std::alloc::{AllocError, Global};

/// Returns the text at a key.
pub fn text_in<'v>(object: &'v Value, key: &str) -> Option<&'v str>
    ensures { option_copied result ≡ text_in key.now (view object.now) }
{
    object.get(key).and_then(Value::as_str)
}

/// Returns the boolean at a key.
fn truth_in(object: &Value, key: &str) -> Option<bool>
    ensures { result ≡ truth_in key.now (view object.now) }
{
    object.get(key).and_then(Value::as_bool)
}

/// Returns whether the label has to match, which is the default.
fn equal_in(object: &Value) -> Option<bool>
    ensures { result ≡ equal_in (view object.now) }
{
    match object.get("isEqual") {
        Some(given) => given.as_bool(),
        None => Some(true),
    }
}

/// Returns the kind given by `isRegex` and `isEqual`.
fn kind_of(regex: bool, equal: bool) -> MatcherKind
    ensures { result ≡ kind_of regex equal }
{
    match (regex, equal) {
        (false, true) => MatcherKind::Equal,
        (true, true) => MatcherKind::Regexp,
        (false, false) => MatcherKind::NotEqual,
        (true, false) => MatcherKind::NotRegexp,
    }
}

/// A matcher, borrowed from its value.
#[derive(Clone, Copy)]
struct MatcherParts<'v> {
    kind: MatcherKind,
    name: &'v str,
    pattern: &'v str,
}

/// Returns the matcher in a value, still borrowed from it.
fn parts_of(value: &Value) -> Option<MatcherParts<'_>>
    ensures { option_map matcher_in result ≡ matcher_of (view value.now) }
{
    let name = text_in(value, "name")?;
    let pattern = text_in(value, "value")?;
    let regex = truth_in(value, "isRegex")?;
    let equal = equal_in(value)?;
    Some(MatcherParts {
        kind: kind_of(regex, equal),
        name,
        pattern,
    })
}

/// Copies a borrowed matcher into an owned one.
fn copied(alloc: Global, parts: MatcherParts<'_>) -> Result<Matcher, AllocError>
    ensures { IfOk result (λ m. m ≡ matcher_in parts.entry) }
{
    let name = Text::copied(alloc, parts.name)?;
    let pattern = Text::copied(alloc, parts.pattern)?;
    Ok(Matcher {
        kind: parts.kind,
        name,
        pattern,
    })
}

/// Reads the matcher in a value.
fn read_matcher(alloc: Global, value: &Value) -> Result<Matcher, BodyError>
    ensures read { IfOk result (λ m. matcher_of (view value.now) ≡ Some m) }
    ensures wrong { IfErr result (λ e. e ≢ errors.Memory →
        (e ≡ errors.Wrong keys.Matchers) × (matcher_of (view value.now) ≡ None)) }
{
    let Some(parts) = parts_of(value) else {
        return Err(BodyError::Wrong(JsonKey::Matchers));
    };
    let matcher = copied(alloc, parts)?;
    Ok(matcher)
}

/// Reads the matchers in values.
fn read_each(alloc: Global, values: &[Value]) -> Result<Vec<Matcher>, BodyError>
    ensures read { IfOk result (λ ms. matchers_of (items_view values.now) ≡ Some ms.items) }
    ensures wrong { IfErr result (λ e. e ≢ errors.Memory →
        (e ≡ errors.Wrong keys.Matchers) × (matchers_of (items_view values.now) ≡ None)) }
{
    let mut matchers = Vec::with_capacity(alloc, values.len())?;
    for value in values {
        match read_matcher(alloc, value) {
            Ok(matcher) => {
                if matchers.push(matcher).is_err() {
                    return Err(BodyError::Memory);
                }
            }
            Err(fault) => return Err(fault),
        }
    }
    Ok(matchers)
}

/// Reads the posted matchers.
pub fn read_matchers(alloc: Global, object: &Value) -> Result<Matchers, BodyError>
    ensures read { IfOk result (λ ms. matchers_in (view object.now) ≡ Some ms) }
    ensures wrong { IfErr result (λ e. e ≢ errors.Memory →
        (e ≡ errors.Wrong keys.Matchers) × (matchers_in (view object.now) ≡ None)) }
{
    let Some(values) = object.get("matchers").and_then(Value::as_array) else {
        return Err(BodyError::Wrong(JsonKey::Matchers));
    };
    let matchers = read_each(alloc, values.as_slice())?;
    let kept = Matchers::new(alloc, &matchers)?;
    Ok(kept)
}
