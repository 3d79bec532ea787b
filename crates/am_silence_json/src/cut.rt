//! Versions as API v2 shows them: with moments to the millisecond, and without an expiry.

ghost use Rattle.std.specs.Prelude.{◌≡◌, ◌⊎◌, IfOk, IfErr, IsErrOf};
ghost use Rattle.am_wire.specs.declared.error.WireError.TheVariants as errors;
ghost use Rattle.am_silence.specs.Mesh.{IsMesh};
ghost use Rattle.am_silence_json.specs.Shown.{cut_moment, cut_silence, cut_to_shown, FitsMessage};

use am_silence::{MatcherIter, Matchers, MeshSilence, Silence};
use am_version_order::{Moment, Version};
use am_wire::{Text, WireError};
use std::alloc::{AllocError, Global};

/// Returns a moment cut to milliseconds.
pub fn cut(moment: Moment) -> Moment
    ensures { result ≡ cut_moment moment }
{
    let (seconds, nanos) = moment.parts();
    Moment::from_parts(seconds, nanos - nanos % 1_000_000).unwrap()
}

/// Copies borrowed matchers into owned ones.
fn copied_matchers(alloc: Global, matchers: MatcherIter<'_>) -> Result<Matchers, AllocError>
    ensures { IfOk result (λ copies. copies ≡ matchers.entry) }
{
    let mut copies = Matchers::none(alloc);
    for matcher in matchers {
        copies.push(alloc, &matcher)?;
    }
    Ok(copies)
}

/// Returns the silence of a version, with its moments cut to milliseconds.
fn cut_silence(alloc: Global, version: &MeshSilence) -> Result<Silence, AllocError>
    ensures { IfOk result (λ s. s ≡ cut_silence version.now.silence) }
{
    Ok(Silence {
        id: version.key().try_clone(alloc)?,
        matchers: copied_matchers(alloc, version.matchers())?,
        starts_at: cut(version.starts_at()),
        ends_at: cut(version.ends_at()),
        updated_at: cut(version.updated_at()),
        created_by: Text::copied(alloc, version.created_by())?,
        comment: Text::copied(alloc, version.comment())?,
    })
}

/// Returns the version that API v2 shows for a version: its moments are cut to milliseconds, and its end is its expiry, since
/// none is shown. A version written by [`write_silences`](crate::write_silences) is read as this one by
/// [`read_silences`](crate::read_silences).
///
/// # Errors
///
/// Returns [`WireError::TooLarge`] if the canonical encoding has more than 67,108,864 bytes, and [`WireError::Memory`] if
/// memory runs out.
pub fn cut_to_shown(alloc: Global, version: &MeshSilence) -> Result<MeshSilence, WireError>
    ensures cut { IfOk result (λ m. m ≡ cut_to_shown version.now) }
    ensures value { IfOk result IsMesh }
    ensures within { IfOk result FitsMessage }
    ensures too_large { IsErrOf result errors.TooLarge → ¬ FitsMessage (cut_to_shown version.now) }
    ensures refused { IfErr result (λ e. (e ≡ errors.Memory) ⊎ (e ≡ errors.TooLarge)) }
{
    let silence = cut_silence(alloc, version)?;
    let shown = MeshSilence::new(alloc, silence, cut(version.ends_at()))?;
    Ok(shown)
}
