//! Silences as instances exchange them.

ghost use Rattle.std.specs.Prelude.{◌≡◌, ◌+◌, ◌^◌, ◌<◌, ◌≤◌, length, IsTrue, Err, IfOk, IfErr, IfSome, false, ◌⊎◌, ◌↔◌};
ghost use Rattle.am_wire.specs.Limits.{most};
ghost use Rattle.am_wire.specs.declared.error.WireError.TheVariants as errors;
ghost use Rattle.am_version_order.specs.Moments.{greatest};
ghost use Rattle.am_wire.specs.Sizes.{counted};
ghost use Rattle.am_silence.specs.Silences.{writes_silence};
ghost use Rattle.am_wire.specs.Reading.{GivesUnlessMemory};
ghost use Rattle.am_silence.specs.MeshTable.{reads_mesh_silence};
ghost use Rattle.am_wire.specs.Unknown.{IsUnknown, none};
ghost use Rattle.am_silence.specs.Mesh.{IsMesh, plain_version, silence_numbers, version_with, without_unknown, writes_mesh_silence, bucket_of};
ghost use Rattle.am_silence.specs.States.{state_of, is_expired};

use crate::canonical::{CanonicalSilence, read_version};
use crate::iter::{HasMatchers, MatcherIter};
use crate::offsets::{Offsets, write_silence};
use crate::silence::{Silence, SilenceDraft};
use crate::sizes::{SilenceFields, UnknownParts, version_size};
use crate::state::{State, state_between};
use am_version_order::{Moment, Version, head_of_text};
use am_wire::reading::{Expiring, ExpiringDraft, Offset, read_message};
use am_wire::writing::{append_text, expiring_size, write_message, write_prefix};
use am_wire::{MOST_MESSAGE_BYTES, Message, Text, Unknown, UnknownFields, WireError};
use std::alloc::{AllocError, Global};
use std::marker::Model;

/// The numbers of a silence's known fields.
pub const KNOWN_FIELDS: [u32; 8] = [1, 2, 3, 4, 5, 7, 8, 9];

/// A version of a silence: the silence, the moment from which it may be forgotten, and the fields that a reader kept without
/// knowing them.
///
/// A version is stored as its canonical encoding, with the identifier and the moments beside it, and the places of the other
/// parts in the text, from which they are read when they are needed.
pub struct MeshSilence {
    id: Text,
    starts_at: Moment,
    ends_at: Moment,
    updated_at: Moment,
    expires_at: Moment,
    places: Offsets,
    canonical: Vec<u8>,
}

// With this the crates above cite one drop, and don't prove those of everything inside.
impl Drop for MeshSilence {
    fn drop(self) {
        let MeshSilence {
            id: _,
            starts_at: _,
            ends_at: _,
            updated_at: _,
            expires_at: _,
            places: _,
            canonical: _,
        } = self;
    }
}

impl Model for MeshSilence {
    ghost use Rattle.std.specs.Prelude.{◌≡◌};
    ghost use Rattle.am_silence.specs.Mesh.{Mesh, IsMesh, writes_mesh_silence};
    ghost use Rattle.am_silence.specs.Offsets.{StandIn};
    ghost use Rattle.am_silence.specs.Spelled.{version_in};

    ghost Value = { Mesh };

    ghost view = { λ m. version_in m.canonical.items };

    ghost invariant = { λ m. record {
      canonical : m.canonical.items ≡ writes_mesh_silence (version_in m.canonical.items);
      value : IsMesh (version_in m.canonical.items);
      id : m.id ≡ (version_in m.canonical.items).silence.id;
      starts_at : m.starts_at ≡ (version_in m.canonical.items).silence.starts_at;
      ends_at : m.ends_at ≡ (version_in m.canonical.items).silence.ends_at;
      updated_at : m.updated_at ≡ (version_in m.canonical.items).silence.updated_at;
      expires_at : m.expires_at ≡ (version_in m.canonical.items).expires_at;
      places : StandIn (version_in m.canonical.items).silence m.places m.canonical.items;
    } };
}

impl MeshSilence {
    /// Returns a version of these parts, without unknown fields.
    ///
    /// # Errors
    ///
    /// [`WireError::TooLarge`] if and only if its canonical encoding has more than 67,108,864 bytes, and [`WireError::Memory`]
    /// if memory runs out.
    pub fn new(
        alloc: Global,
        silence: Silence,
        expires_at: Moment,
    ) -> Result<MeshSilence, WireError>
        ensures parts { IfOk result (λ m. m ≡ plain_version silence expires_at) }
        ensures value { IfOk result IsMesh }
        ensures within { IfOk result (λ m. length (writes_mesh_silence m) ≤ most) }
        ensures too_large { (result ≡ Err errors.TooLarge) ↔
            (most < length (writes_mesh_silence (plain_version silence expires_at))) }
        ensures refused { IfErr result (λ e. (e ≡ errors.Memory) ⊎ (e ≡ errors.TooLarge)) }
    {
        MeshSilence::of_fields(alloc, &silence.fields(), expires_at, &UnknownParts::none())
    }

    // Returns a version of these fields, with unknown ones, as `new` does.
    pub(crate) fn of_fields(
        alloc: Global,
        fields: &SilenceFields<'_, MatcherIter<'_>>,
        expires_at: Moment,
        unknown: &UnknownParts<'_>,
    ) -> Result<MeshSilence, WireError>
        requires { IsUnknown silence_numbers unknown.now }
        ensures parts { IfOk result (λ m. m ≡ version_with unknown.now fields.now expires_at) }
        ensures value { IfOk result IsMesh }
        ensures within { IfOk result (λ m. length (writes_mesh_silence m) ≤ most) }
        ensures too_large { (result ≡ Err errors.TooLarge) ↔
            (most < length (writes_mesh_silence (version_with unknown.now fields.now expires_at))) }
        ensures refused { IfErr result (λ e. (e ≡ errors.Memory) ⊎ (e ≡ errors.TooLarge)) }
    {
        let size = fields.size();
        if version_size(size, expires_at, unknown) > MOST_MESSAGE_BYTES {
            return Err(WireError::TooLarge);
        }
        let version = MeshSilence::of_sized(alloc, fields, size, expires_at, unknown)?;
        Ok(version)
    }

    // Returns a version of these fields, whose silence has `size` bytes, with unknown fields, whatever the length of its text.
    #[tactic(auto, unfolding(crate::specs::Mesh::writes_mesh_silence))]
    fn of_sized<M: HasMatchers>(
        alloc: Global,
        fields: &SilenceFields<'_, M>,
        size: u64,
        expires_at: Moment,
        unknown: &UnknownParts<'_>,
    ) -> Result<MeshSilence, AllocError>
        requires size { size ≡ counted (length (writes_silence fields.now)) }
        requires unknown { IsUnknown silence_numbers unknown.now }
        ensures { IfOk result (λ m. m ≡ version_with unknown.now fields.now expires_at) }
    {
        let room = version_size(size, expires_at, unknown);
        let mut canonical = Vec::with_capacity(alloc, room as usize)?;
        let size = size.saturating_add(unknown.inner.len() as u64);
        write_prefix(&mut canonical, 1, size)?;
        let places = write_silence(&mut canonical, fields)?;
        canonical.extend_from_slice(unknown.inner)?;
        write_message(&mut canonical, 2, &expires_at)?;
        canonical.extend_from_slice(unknown.outer)?;
        Ok(MeshSilence {
            id: Text::copied(alloc, fields.id)?,
            starts_at: fields.starts_at,
            ends_at: fields.ends_at,
            updated_at: fields.updated_at,
            expires_at,
            places,
            canonical,
        })
    }

    // Returns the version that a text spells if it is canonical and has no unknown fields, and `None` otherwise.
    fn of_canonical(alloc: Global, text: &[u8]) -> Result<Option<MeshSilence>, AllocError>
        ensures text { IfOk result (λ found. IfSome found (λ m. text.now ≡ writes_mesh_silence m)) }
        ensures value { IfOk result (λ found. IfSome found IsMesh) }
        ensures plain { IfOk result (λ found. IfSome found (λ m. without_unknown m ≡ m)) }
    {
        let Some(version) = read_version(text) else {
            return Ok(None);
        };
        let CanonicalSilence {
            fields,
            expires_at,
            places,
        } = version;
        Ok(Some(MeshSilence {
            id: Text::copied(alloc, fields.id)?,
            starts_at: fields.starts_at,
            ends_at: fields.ends_at,
            updated_at: fields.updated_at,
            expires_at,
            places,
            canonical: Vec::from_slice(alloc, text)?,
        }))
    }

    // Returns the version that a text spells in any way; its canonical encoding is written anew.
    #[tactic(auto, unfolding(crate::specs::MeshTable::reads_mesh_silence))]
    fn of_spelling(
        alloc: Global,
        unknown: Unknown,
        bytes: &[u8],
        at: usize,
    ) -> Result<MeshSilence, WireError>
        requires { at + length bytes.now < 2 ^ 64 }
        ensures { GivesUnlessMemory result (reads_mesh_silence unknown at bytes.now) }
    {
        let Expiring {
            message: fields,
            expires_at,
        } = read_message::<ExpiringDraft<SilenceDraft>>(alloc, bytes, at, at)?;
        let unknown = UnknownFields::of(alloc, unknown, &KNOWN_FIELDS, bytes, at)?;
        let size = fields.size();
        let unknown = UnknownParts::of(&unknown);
        let version = MeshSilence::of_sized(alloc, &fields, size, expires_at, &unknown)?;
        Ok(version)
    }

    /// Returns the fields of the silence.
    pub(crate) fn fields(&self) -> SilenceFields<'_, MatcherIter<'_>>
        ensures { result ≡ self.now.silence }
    {
        SilenceFields {
            id: self.id.as_str(),
            matchers: self.matchers(),
            starts_at: self.starts_at,
            ends_at: self.ends_at,
            updated_at: self.updated_at,
            created_by: self.created_by(),
            comment: self.comment(),
        }
    }

    /// Returns an iterator over the matchers of the silence, in their order.
    pub fn matchers(&self) -> MatcherIter<'_>
        ensures { result ≡ self.now.silence.matchers }
    {
        let places = self.places;
        MatcherIter::over(&self.canonical[places.matchers..places.matchers_end])
    }

    /// Returns the moment from which the silence is active.
    pub fn starts_at(&self) -> Moment
        ensures { result ≡ self.now.silence.starts_at }
    {
        self.starts_at
    }

    /// Returns the moment from which the silence has expired.
    pub fn ends_at(&self) -> Moment
        ensures { result ≡ self.now.silence.ends_at }
    {
        self.ends_at
    }

    /// Returns the moment of the last change, by which versions replace each other.
    pub fn updated_at(&self) -> Moment
        ensures { result ≡ self.now.silence.updated_at }
    {
        self.updated_at
    }

    /// Returns who made the silence.
    pub fn created_by(&self) -> &str
        ensures { result.now ≡ self.now.silence.created_by }
    {
        self.places.created_by.text_of(&self.canonical)
    }

    /// Returns why the silence was made.
    pub fn comment(&self) -> &str
        ensures { result.now ≡ self.now.silence.comment }
    {
        self.places.comment.text_of(&self.canonical)
    }

    /// Returns the state of the silence at a moment: at the last one all silences have expired. Nothing is allocated.
    pub fn state_at(&self, now: Moment) -> State
        ensures state { result ≡ state_of self.now.silence now }
        ensures last { is_expired result ≡ false → now < greatest }
    {
        state_between(self.starts_at, self.ends_at, now)
    }

    /// Returns whether the version has no fields that its reader kept without knowing them. Nothing is allocated.
    pub fn is_plain(&self) -> bool
        ensures { IsTrue result ↔ (self.now.unknown ≡ none) }
    {
        let unknown = self.unknown();
        unknown.inner.is_empty() && unknown.outer.is_empty()
    }

    /// Returns the fields that its reader kept without knowing them, which are in its text behind the silence and at the end.
    /// Nothing is allocated.
    pub(crate) fn unknown(&self) -> UnknownParts<'_>
        ensures is { result ≡ self.now.unknown }
        ensures unknown { IsUnknown silence_numbers result }
    {
        let text = self.canonical.as_slice();
        let payload = Offset { start: 1 }.part_of(text);
        let known = self.fields().size();
        let both = expiring_size(payload.len() as u64, self.expires_at);
        let (_, inner) = payload.split_at(known as usize);
        let (_, outer) = text.split_at(both as usize);
        UnknownParts { inner, outer }
    }

    /// Returns the moment from which the version may be forgotten.
    pub fn expires_at(&self) -> Moment
        ensures { result ≡ self.now.expires_at }
    {
        self.expires_at
    }
}

impl Message for MeshSilence {
    ghost use Rattle.std.specs.Prelude.{refl};
    ghost use Rattle.am_silence.specs.Mesh.{IsMesh, without_unknown};
    ghost use Rattle.am_silence.specs.MeshTable.{reads_mesh_silence};
    ghost use Rattle.am_silence.specs.RoundTrip.{mesh_again, mesh_dropped};

    ghost is_value = { IsMesh };

    ghost writes = { writes_mesh_silence };

    ghost plain = { without_unknown };

    ghost reads = { reads_mesh_silence };

    ghost round_trip = { mesh_again };

    ghost dropped = { mesh_dropped };

    ghost plain_again = { λ m. refl };

    fn size(&self) -> u64 {
        self.canonical().len() as u64
    }

    fn write(&self, out: &mut Vec<u8>) -> Result<(), AllocError> {
        out.extend_from_slice(self.canonical())
    }

    fn encode(&self, out: &mut Vec<u8>) -> Result<(), WireError> {
        append_text(out, self.canonical())
    }

    fn decode_at(
        alloc: Global,
        unknown: Unknown,
        bytes: &[u8],
        at: usize,
    ) -> Result<MeshSilence, WireError> {
        match MeshSilence::of_canonical(alloc, bytes)? {
            Some(version) => Ok(version),
            None => MeshSilence::of_spelling(alloc, unknown, bytes, at),
        }
    }
}

impl Version for MeshSilence {
    ghost use Rattle.am_version_order.specs.Heads.{head_of_text};
    ghost use Rattle.am_version_order.proofs.Weights.{text_heads};
    ghost use Rattle.std.proofs.lemmas.Map.Lookups.{exact_bytes};
    ghost use Rattle.am_silence.specs.Mesh.{IsMesh, mesh_version};
    ghost use Rattle.am_silence.specs.RoundTrip.{mesh_exact};

    type Key = Text;

    ghost seen = { mesh_version };

    ghost bucket_of = { λ m. bucket_of m.silence.matchers };

    ghost head_of = { head_of_text };

    ghost is_value = { IsMesh };

    fn key(&self) -> &Text {
        &self.id
    }

    fn head(id: &Text) -> u64 {
        head_of_text(id.as_str().as_bytes())
    }

    fn try_key(&self, alloc: Global) -> Result<Text, AllocError> {
        self.id.try_clone(alloc)
    }

    fn updated(&self) -> Moment {
        self.updated_at
    }

    fn expires(&self) -> Moment {
        self.expires_at
    }

    fn canonical(&self) -> &[u8] {
        self.canonical.as_slice()
    }

    fn bucket(&self) -> &[u8] {
        self.places.bucket.part_of(self.canonical.as_slice())
    }

    fn try_clone(&self, alloc: Global) -> Result<MeshSilence, AllocError> {
        Ok(MeshSilence {
            id: self.id.try_clone(alloc)?,
            starts_at: self.starts_at,
            ends_at: self.ends_at,
            updated_at: self.updated_at,
            expires_at: self.expires_at,
            places: self.places,
            canonical: self.canonical.clone()?,
        })
    }

    ghost exact_keys = { exact_bytes };

    ghost heads = { text_heads };

    ghost exact = { mesh_exact };
}
