//! Bodies of replies, appended to a buffer.

ghost use Rattle.std.specs.Prelude.{◌≡◌, ◌++◌, IfOk};
ghost use Rattle.serde_json.specs.Written.{compact_text};
ghost use Rattle.am_api_decisions.specs.Answers.{answer_data, logged_data};

use crate::answer::DecisionReply;
use crate::writing::{add_answer, add_logged};
use json::Writer;
use std::alloc::AllocError;

/// Appends the answer whether to notify to `out`, as compact JSON, with the keys of each object in byte order and the labels of
/// each muted alert in their own.
///
/// # Errors
///
/// [`AllocError`] if memory runs out.
pub fn write_answer(out: Vec<u8>, answer: &DecisionReply) -> Result<Vec<u8>, AllocError>
    ensures { IfOk result (λ body. body.items ≡ out.items ++ compact_text (answer_data answer.now)) }
{
    let mut writer = Writer::new(out);
    add_answer(&mut writer, answer)?;
    Ok(writer.into_inner())
}

/// Appends the answer to a notice, `{"logged":true}` or `{"logged":false}`, to `out`.
///
/// # Errors
///
/// [`AllocError`] if memory runs out.
pub fn write_logged(out: Vec<u8>, is_logged: bool) -> Result<Vec<u8>, AllocError>
    ensures { IfOk result (λ body. body.items ≡ out.items ++ compact_text (logged_data is_logged)) }
{
    let mut writer = Writer::new(out);
    add_logged(&mut writer, is_logged)?;
    Ok(writer.into_inner())
}
