//! The writing of silences into a text, and the places of their parts in it.

ghost use Rattle.std.specs.Prelude.{◌≡◌, ℕ, ◌+◌, ◌<◌, ◌^◌, List, ◌++◌, length, All, OnOk, IfOk};
ghost use Rattle.am_wire.specs.Offsets.{StandsAt};
ghost use Rattle.am_silence.specs.MatcherTexts.{writes_matchers};
ghost use Rattle.am_silence.specs.Matchers.{IsMatcher};
ghost use Rattle.am_silence.specs.Mesh.{bucket_of};
ghost use Rattle.am_silence.specs.Offsets.{StandsBetween, StandIn};
ghost use Rattle.am_silence.specs.Silences.{writes_silence, IsSilence};

use crate::bucket::bucket_offset;
use crate::iter::{HasMatchers, MatcherIter};
use crate::sizes::SilenceFields;
use am_wire::reading::Offset;
use am_wire::writing::{write_message, write_part, write_text};
use std::alloc::AllocError;

/// The places of a silence's parts in a text: the beginning and the end of its matchers, and the offsets of the lengths of its
/// texts and of the bucket.
#[derive(Clone, Copy)]
pub struct Offsets {
    pub matchers: usize,
    pub matchers_end: usize,
    pub created_by: Offset,
    pub comment: Offset,
    pub bucket: Offset,
}

/// Appends a silence to a text, and returns the places of its parts in it.
///
/// # Errors
///
/// [`AllocError`] if memory runs out. Some of the text may have been written then.
#[tactic(auto, unfolding(crate::specs::Silences::writes_silence))]
pub fn write_silence<M: HasMatchers>(
    out: &mut Vec<u8>,
    fields: &SilenceFields<'_, M>,
) -> Result<Offsets, AllocError>
    ensures written { OnOk result (out.new.items ≡ out.old.items ++ writes_silence fields.now) }
    ensures value { OnOk result (IsSilence fields.now) }
    ensures places { IfOk result (λ places. StandIn fields.now places out.new.items) }
{
    write_text(out, 1, fields.id)?;
    let (matchers, matchers_end, bucket) = write_matchers(out, &fields.matchers.lent())?;
    write_message(out, 3, &fields.starts_at)?;
    write_message(out, 4, &fields.ends_at)?;
    write_message(out, 5, &fields.updated_at)?;
    let created_by = write_part(out, 8, fields.created_by.as_bytes())?;
    let comment = write_part(out, 9, fields.comment.as_bytes())?;
    Ok(Offsets {
        matchers,
        matchers_end,
        created_by,
        comment,
        bucket,
    })
}

// Appends matchers, and returns the places between which they are, and that of their bucket.
fn write_matchers(
    out: &mut Vec<u8>,
    matchers: &MatcherIter<'_>,
) -> Result<(usize, usize, Offset), AllocError>
    ensures written { OnOk result (out.new.items ≡ out.old.items ++ writes_matchers matchers.now) }
    ensures values { OnOk result (All IsMatcher matchers.now) }
    ensures between { IfOk result (λ places. StandsBetween places.0 places.1 (writes_matchers matchers.now) out.new.items) }
    ensures bucket { IfOk result (λ places. StandsAt (bucket_of matchers.now) places.2 out.new.items) }
{
    let start = out.len();
    out.extend_from_slice(matchers.as_text())?;
    let end = out.len();
    let bucket = bucket_place(start, matchers);
    Ok((start, end, bucket))
}

// Returns the place of the bucket of matchers whose text begins at `start`.
pub(crate) fn bucket_place(start: usize, matchers: &MatcherIter<'_>) -> Offset
    requires { start + length (writes_matchers matchers.now) < 2 ^ 64 }
    ensures { (front : List ℕ) → length front ≡ start →
        StandsAt (bucket_of matchers.now) result (front ++ writes_matchers matchers.now) }
{
    match bucket_offset(matchers.lent()) {
        Some(offset) => Offset {
            start: start + offset,
        },
        None => Offset { start: 0 },
    }
}
