//! The object in the body of a request.

ghost use Rattle.std.specs.Prelude.{◌≢◌, IfOk, IsErrOf};
ghost use Rattle.serde_json.specs.Data.{Data};
ghost use Rattle.serde_json.specs.View.{view};
ghost use Rattle.am_silence_json.specs.Posts.{IsObjectText};
ghost use Rattle.am_api_decisions.specs.declared.error.MessageError.TheVariants as errors;
ghost use Rattle.am_api_decisions.specs.declared.key.MessageKey.{MessageKey};

use crate::error::MessageError;
use serde_json::Value;
use serde_json::error::Category;
use std::alloc::Global;
use std::str;

/// Returns the object whose text the body is.
pub fn object_in(alloc: Global, body: &[u8]) -> Result<Value, MessageError>
    ensures read { IfOk result (λ v. IsObjectText body.now (view v)) }
    ensures bad_json { IsErrOf result errors.BadJson → (d : Data) → ¬ IsObjectText body.now d }
    ensures key { (key : MessageKey) → result ≢ Err (errors.BadMessage key) }
    ensures whole { result ≢ Err errors.Truncated }
{
    let Ok(text) = str::from_utf8(body) else {
        return Err(MessageError::BadJson);
    };
    match Value::from_str(alloc, text) {
        Ok(value) if value.is_object() => Ok(value),
        Err(fault) if fault.classify() == Category::Memory => Err(MessageError::Memory),
        _ => Err(MessageError::BadJson),
    }
}
