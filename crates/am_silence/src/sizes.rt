//! The lengths of canonical encodings before anything of them is made.

ghost use Rattle.std.specs.Prelude.{◌≡◌, length};
ghost use Rattle.am_wire.specs.Sizes.{counted};
ghost use Rattle.am_wire.specs.Unknown.{none};
ghost use Rattle.am_silence.specs.declared.silence.Silence.{Silence};
ghost use Rattle.am_silence.specs.Mesh.{version_with, writes_mesh_silence};
ghost use Rattle.am_silence.specs.Silences.{writes_silence};

use crate::iter::HasMatchers;
use am_version_order::Moment;
use am_wire::UnknownFields;
use am_wire::writing::{expiring_size, message_size, text_size};
use std::marker::Model;

/// The fields of a silence, with borrowed texts. Contracts see the silence.
#[derive(Drop)]
pub struct SilenceFields<'a, M: HasMatchers> {
    pub id: &'a str,
    pub matchers: M,
    pub starts_at: Moment,
    pub ends_at: Moment,
    pub updated_at: Moment,
    pub created_by: &'a str,
    pub comment: &'a str,
}

impl<'a, M: HasMatchers> Model for SilenceFields<'a, M> {
    ghost use Rattle.am_silence.specs.declared.silence.Silence.{Silence};

    ghost Value = { Silence };

    ghost view = { λ s. record {
      id = s.id.now;
      matchers = M.listed s.matchers;
      starts_at = s.starts_at;
      ends_at = s.ends_at;
      updated_at = s.updated_at;
      created_by = s.created_by.now;
      comment = s.comment.now;
    } };
}

impl<M: HasMatchers> SilenceFields<'_, M> {
    /// Returns the length of the silence.
    #[tactic(auto, unfolding(crate::specs::Silences::writes_silence))]
    pub fn size(&self) -> u64
        ensures { result ≡ counted (length (writes_silence self.now)) }
    {
        text_size(1, self.id)
            .saturating_add(self.matchers.lent().as_text().len() as u64)
            .saturating_add(message_size(3, &self.starts_at))
            .saturating_add(message_size(4, &self.ends_at))
            .saturating_add(message_size(5, &self.updated_at))
            .saturating_add(text_size(8, self.created_by))
            .saturating_add(text_size(9, self.comment))
    }
}

/// The unknown fields of a version, with borrowed bytes. Contracts see the fields.
#[derive(Drop)]
pub struct UnknownParts<'a> {
    pub inner: &'a [u8],
    pub outer: &'a [u8],
}

impl<'a> Model for UnknownParts<'a> {
    ghost use Rattle.am_wire.specs.declared.unknown.UnknownFields.{UnknownFields};

    ghost Value = { UnknownFields };

    ghost view = { λ u. record { inner = u.inner.now; outer = u.outer.now } };
}

impl<'a> UnknownParts<'a> {
    /// Returns no fields.
    pub fn none() -> UnknownParts<'a>
        ensures { result ≡ none }
    {
        UnknownParts {
            inner: &[],
            outer: &[],
        }
    }

    /// Returns these fields.
    pub fn of(fields: &'a UnknownFields) -> UnknownParts<'a>
        ensures { result ≡ fields.now }
    {
        UnknownParts {
            inner: fields.inner.as_slice(),
            outer: fields.outer.as_slice(),
        }
    }
}

/// Returns the length of a version whose silence has `silence_size` bytes.
#[tactic(auto, unfolding(crate::specs::Mesh::writes_mesh_silence))]
pub fn version_size(silence_size: u64, expires_at: Moment, unknown: &UnknownParts<'_>) -> u64
    ensures { (silence : Silence) → silence_size ≡ counted (length (writes_silence silence)) →
        result ≡ counted (length (writes_mesh_silence (version_with unknown.now silence expires_at))) }
{
    let size = silence_size.saturating_add(unknown.inner.len() as u64);
    expiring_size(size, expires_at).saturating_add(unknown.outer.len() as u64)
}
