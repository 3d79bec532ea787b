//! Silences.

ghost use Rattle.std.specs.Prelude.{◌≡◌, ℕ, List, [], ◌∷◌, ◌++◌, OnOk, IfOk, IfErr};
ghost use Rattle.std.specs.Prelude.{if◌then◌else◌};
ghost use Rattle.am_silence.specs.Silences.{silence};

use crate::comment::FirstComment;
use crate::iter::MatcherIter;
use crate::matchers::Matchers;
use crate::offsets::write_silence;
use crate::sizes::SilenceFields;
use am_version_order::Moment;
use am_wire::reading::{
    LastText, MessageReader, Schema, Submessage, TimestampDraft, moment_in, read_message,
};
use am_wire::{Field, Message, Text, Unknown, WireError, WireType};
use std::alloc::{AllocError, Global};

/// A silence, which mutes the alerts whose labels satisfy all matchers, from `starts_at` until `ends_at`.
#[derive(Drop)]
pub struct Silence {
    pub id: Text,
    pub matchers: Matchers,
    pub starts_at: Moment,
    pub ends_at: Moment,
    pub updated_at: Moment,
    pub created_by: Text,
    pub comment: Text,
}

impl Silence {
    /// Returns the fields of the silence.
    pub(crate) fn fields(&self) -> SilenceFields<'_, MatcherIter<'_>>
        ensures { result ≡ self.now }
    {
        SilenceFields {
            id: self.id.as_str(),
            matchers: self.matchers.iter(),
            starts_at: self.starts_at,
            ends_at: self.ends_at,
            updated_at: self.updated_at,
            created_by: self.created_by.as_str(),
            comment: self.comment.as_str(),
        }
    }

    /// Returns a copy.
    ///
    /// # Errors
    ///
    /// [`AllocError`] if memory runs out.
    pub fn try_clone(&self, alloc: Global) -> Result<Silence, AllocError>
        ensures { IfOk result (λ copy. copy ≡ self.now) }
    {
        Ok(Silence {
            id: self.id.try_clone(alloc)?,
            matchers: self.matchers.try_clone(alloc)?,
            starts_at: self.starts_at,
            ends_at: self.ends_at,
            updated_at: self.updated_at,
            created_by: self.created_by.try_clone(alloc)?,
            comment: self.comment.try_clone(alloc)?,
        })
    }
}

impl SilenceFields<'_, Matchers> {
    /// Copies the fields into a silence with texts of its own.
    ///
    /// # Errors
    ///
    /// [`AllocError`] if memory runs out.
    pub fn copied(self, alloc: Global) -> Result<Silence, AllocError>
        ensures { IfOk result (λ copy. copy ≡ self.entry) }
    {
        let id = Text::copied(alloc, self.id)?;
        let created_by = Text::copied(alloc, self.created_by)?;
        let comment = Text::copied(alloc, self.comment)?;
        let mut matchers = self.matchers;
        matchers.shrink_to_fit();
        Ok(Silence {
            id,
            matchers,
            starts_at: self.starts_at,
            ends_at: self.ends_at,
            updated_at: self.updated_at,
            created_by,
            comment,
        })
    }
}

/// The draft of a silence.
#[derive(Drop)]
pub struct SilenceDraft<'a> {
    alloc: Global,
    id: LastText<'a>,
    matchers: Matchers,
    starts_at: Submessage<TimestampDraft>,
    ends_at: Submessage<TimestampDraft>,
    updated_at: Submessage<TimestampDraft>,
    first_comment: FirstComment<'a>,
    created_by: LastText<'a>,
    comment: LastText<'a>,
}

impl<'a> SilenceDraft<'a> {
    // Returns who made the silence and why; an old comment replaces both.
    fn author_and_comment(&self) -> (&'a str, &'a str)
        ensures author { result.0.now ≡ (if self.now.first_comment.given then self.now.first_comment.author.now
            else self.now.created_by.text.now) }
        ensures comment { result.1.now ≡ (if self.now.first_comment.given then self.now.first_comment.text.now
            else self.now.comment.text.now) }
    {
        if self.first_comment.given {
            (self.first_comment.author, self.first_comment.text)
        } else {
            (self.created_by.text, self.comment.text)
        }
    }
}

impl Schema for SilenceDraft<'_> {
    ghost fitting = { silence.fits };

    fn fits(number: u32, wire_type: WireType) -> bool
        ensures { result ≡ silence.fits number wire_type }
    {
        match number {
            1..=5 | 7..=9 => wire_type == WireType::Bytes,
            _ => true,
        }
    }
}

impl<'a> MessageReader<'a> for SilenceDraft<'a> {
    ghost use Rattle.am_silence.specs.Silences.{silence_value, silence_tests};
    ghost use Rattle.am_silence.specs.Drafts.{IsSilenceDraft};

    type Done = SilenceFields<'a, Matchers>;

    ghost inside = { silence.inside };

    ghost holds = { IsSilenceDraft };

    ghost tests = { silence_tests };

    ghost value = { silence_value };

    fn start(alloc: Global) -> Self {
        SilenceDraft {
            alloc,
            id: LastText::none(),
            matchers: Matchers::none(alloc),
            starts_at: Submessage::none(alloc),
            ends_at: Submessage::none(alloc),
            updated_at: Submessage::none(alloc),
            first_comment: FirstComment::none(),
            created_by: LastText::none(),
            comment: LastText::none(),
        }
    }

    fn take(&mut self, field: Field<'a>) -> Result<(), WireError> {
        match field.number {
            1 => self.id.take(field)?,
            2 => self.matchers.take(self.alloc, field)?,
            3 => self.starts_at.take(field)?,
            4 => self.ends_at.take(field)?,
            5 => self.updated_at.take(field)?,
            7 => self.first_comment.take(self.alloc, field)?,
            8 => self.created_by.take(field)?,
            9 => self.comment.take(field)?,
            _ => {}
        }
        Ok(())
    }

    fn finish(self, alloc: Global, _place: usize) -> Result<Self::Done, WireError> {
        let (created_by, comment) = self.author_and_comment();
        let starts_at = moment_in(alloc, self.starts_at)?;
        let ends_at = moment_in(alloc, self.ends_at)?;
        let updated_at = moment_in(alloc, self.updated_at)?;
        Ok(SilenceFields {
            id: self.id.text,
            matchers: self.matchers,
            starts_at,
            ends_at,
            updated_at,
            created_by,
            comment,
        })
    }
}

impl Message for Silence {
    ghost use Rattle.am_silence.specs.Silences.{IsSilence, reads_silence, writes_silence};
    ghost use Rattle.am_silence.specs.RoundTrip.{silence_again};
    ghost use Rattle.am_wire.specs.RoundTrip.Plain.{plainly_itself};
    ghost use Rattle.std.specs.Prelude.{refl};

    ghost is_value = { IsSilence };

    ghost writes = { writes_silence };

    ghost plain = { λ v. v };

    ghost reads = { λ unknown. reads_silence };

    ghost round_trip = { silence_again };

    ghost dropped = { λ at bytes. plainly_itself (reads_silence at bytes) };

    ghost plain_again = { λ v. refl };

    fn size(&self) -> u64 {
        self.fields().size()
    }

    fn write(&self, out: &mut Vec<u8>) -> Result<(), AllocError> {
        write_silence(out, &self.fields())?;
        Ok(())
    }

    #[tactic(auto, unfolding(crate::specs::Silences::reads_silence))]
    fn decode_at(
        alloc: Global,
        _unknown: Unknown,
        bytes: &[u8],
        at: usize,
    ) -> Result<Silence, WireError> {
        let fields = read_message::<SilenceDraft>(alloc, bytes, at, at)?;
        Ok(fields.copied(alloc)?)
    }
}
