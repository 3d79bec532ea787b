//! Laws about lists of silences.

ghost use Rattle.std.specs.Prelude.{◌≡◌, ◌≢◌, ℕ, List, All, map, IfOk, IfErr};
ghost use Rattle.serde_json.specs.Data.{Data, array};
ghost use Rattle.serde_json.specs.View.{items_of};
ghost use Rattle.serde_json.specs.Written.{compact_text};
ghost use Rattle.am_silence.specs.Mesh.{Mesh, IsMesh};
ghost use Rattle.am_silence.specs.declared.state.State.{State};
ghost use Rattle.am_silence_json.specs.Gettables.{AreGettable};
ghost use Rattle.am_silence_json.specs.Shown.{cut_to_shown};
ghost use Rattle.am_silence_json.specs.Lists.{Lists, IsRowTooLarge};
ghost use Rattle.am_silence_json.specs.declared.list_error.ListError.TheVariants as errors;

use crate::list_error::ListError;
use crate::replies::write_silences;
use crate::shown::read_silences;
use am_silence::{MeshSilence, State};
use am_version_order::Version;
use std::alloc::Global;

/// States that the list written by [`write_silences`](crate::write_silences) lists the silences as they are shown: with their
/// moments cut to milliseconds, and their end as their expiry.
pub fn a_written_list_is_read()
    ensures { (rows : List (Mesh × State)) (ds : List Data) → All (λ row. IsMesh row.0) rows → AreGettable rows ds →
        Lists (compact_text (array (items_of ds))) (map (λ row. cut_to_shown row.0) rows) }
{}

/// States that a body lists the same versions however it is read.
pub fn a_body_lists_one_list()
    ensures { (body : List ℕ) (ms ns : List Mesh) → Lists body ms → Lists body ns → ms ≡ ns }
{}

/// States that the versions of these rows are values of their type.
fn rows_are_values(rows: &[(MeshSilence, State)])
    ensures { All (λ row. IsMesh row.0) rows.now }
{
    for (version, _) in rows {
        let _content = version.canonical();
    }
}

/// Writes silences and reads them back as they are shown. This fails only if memory runs out, or if a shown silence has more
/// than 67,108,864 bytes.
///
/// # Errors
///
/// Returns [`ListError::TooLarge`] or [`ListError::Memory`].
pub fn reads_again(
    alloc: Global,
    rows: &[(MeshSilence, State)],
) -> Result<Vec<MeshSilence>, ListError>
    // PROMISE: A list that was written is read as its silences, cut to milliseconds.
    ensures round_trip { IfOk result (λ vs. vs.items ≡ map (λ row. cut_to_shown row.0) rows.now) }
    ensures refused { IfErr result (λ e. e ≢ errors.Memory → IsRowTooLarge rows.now e) }
{
    rows_are_values(rows);
    let body = write_silences(Vec::new(alloc), rows)?;
    read_silences(alloc, body.as_slice())
}
