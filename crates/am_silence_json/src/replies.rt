//! Bodies of replies, appended to a buffer.

ghost use Rattle.std.specs.Prelude.{◌≡◌, ◌++◌, List, IfOk};
ghost use Rattle.serde_json.specs.Data.{Data, array, string};
ghost use Rattle.serde_json.specs.View.{items_of};
ghost use Rattle.serde_json.specs.Written.{compact_text};
ghost use Rattle.am_silence_json.specs.Gettables.{IsGettable, AreGettable, posted_data};

use crate::gettable::{add_each_silence, add_posted, add_silence};
use crate::listing::{begin_list, end_list};
use crate::tokens::add;
use am_silence::{MeshSilence, State};
use json::{Token, Writer};
use std::alloc::AllocError;

/// Appends the list of silences, each in its state, to `out` as compact JSON. No tree of it is built in memory.
///
/// # Errors
///
/// Returns [`AllocError`] if memory runs out.
pub fn write_silences(out: Vec<u8>, rows: &[(MeshSilence, State)]) -> Result<Vec<u8>, AllocError>
    // PROMISE: Silences are written as the compact JSON of their values.
    ensures { IfOk result (λ body. (ds : List Data) × AreGettable rows.now ds
        × (body.items ≡ out.items ++ compact_text (array (items_of ds)))) }
{
    let mut writer = begin_list(out)?;
    add_each_silence(&mut writer, rows)?;
    let body = end_list(writer)?;
    Ok(body)
}

/// Appends the silence of a version in its state to `out` as compact JSON.
///
/// # Errors
///
/// Returns [`AllocError`] if memory runs out.
pub fn write_silence(
    out: Vec<u8>,
    version: &MeshSilence,
    state: State,
) -> Result<Vec<u8>, AllocError>
    ensures { IfOk result (λ body. (d : Data) × IsGettable version.now.silence state d
        × (body.items ≡ out.items ++ compact_text d)) }
{
    let mut writer = Writer::new(out);
    add_silence(&mut writer, version, state)?;
    Ok(writer.into_inner())
}

/// Appends the reply to a post, `{"silenceID":"ID"}`, to `out`.
///
/// # Errors
///
/// Returns [`AllocError`] if memory runs out.
pub fn write_posted(out: Vec<u8>, id: &str) -> Result<Vec<u8>, AllocError>
    ensures { IfOk result (λ body. body.items ≡ out.items ++ compact_text (posted_data id.now)) }
{
    let mut writer = Writer::new(out);
    add_posted(&mut writer, id)?;
    Ok(writer.into_inner())
}

/// Appends the reply to a fault, a JSON string, to `out`.
///
/// # Errors
///
/// Returns [`AllocError`] if memory runs out.
pub fn write_error(out: Vec<u8>, text: &str) -> Result<Vec<u8>, AllocError>
    ensures { IfOk result (λ body. body.items ≡ out.items ++ compact_text (string text.now)) }
{
    let mut writer = Writer::new(out);
    add(&mut writer, Token::String(text))?;
    Ok(writer.into_inner())
}
