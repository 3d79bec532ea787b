//! The values at the keys of an object.

ghost use Rattle.std.specs.Prelude.{◌≡◌, ℕ, IfSome, Some, option_copied, option_map, option_and_then};
ghost use Rattle.serde_json.specs.Find.{as_array, get};
ghost use Rattle.serde_json.specs.View.{view, items_view};
ghost use Rattle.am_silence_json.specs.Posts.{text_in, truth_in, HasMoment};
ghost use Rattle.am_api_decisions.specs.Found.{number_in};

use am_silence_json::moments::read_moment;
use am_version_order::Moment;
use serde_json::Value;

/// Returns the text at a key.
pub fn text_in<'v>(object: &'v Value, key: &str) -> Option<&'v str>
    ensures { option_copied result ≡ text_in key.now (view object.now) }
{
    object.get(key).and_then(Value::as_str)
}

/// Returns the moment whose text is at a key.
pub fn moment_in(object: &Value, key: &str) -> Option<Moment>
    ensures value { IfSome result (HasMoment key.now (view object.now)) }
    ensures only { (m : ℕ) → HasMoment key.now (view object.now) m → result ≡ Some m }
{
    let text = text_in(object, key)?;
    read_moment(text)
}

/// Returns the truth value at a key.
pub fn truth_in(object: &Value, key: &str) -> Option<bool>
    ensures { result ≡ truth_in key.now (view object.now) }
{
    object.get(key).and_then(Value::as_bool)
}

/// Returns the whole number at a key.
pub fn number_in(object: &Value, key: &str) -> Option<u64>
    ensures { result ≡ number_in key.now (view object.now) }
{
    object.get(key).and_then(Value::as_u64)
}

/// Returns the values of the array at a key.
pub fn array_in<'v>(object: &'v Value, key: &str) -> Option<&'v [Value]>
    ensures { option_map (λ values. items_view values.now) result ≡ option_and_then as_array (get key.now (view object.now)) }
{
    match object.get(key).and_then(Value::as_array) {
        Some(values) => Some(values.as_slice()),
        None => None,
    }
}
