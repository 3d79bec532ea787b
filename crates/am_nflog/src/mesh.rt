//! Entries as instances exchange them.

ghost use Rattle.std.specs.Prelude.{◌≡◌, ℕ, ◌+◌, ◌^◌, ◌<◌, ◌≤◌, List, [], ◌∷◌, ◌++◌, length, IsTrue, Ok, Err, OnOk, IfOk, IfErr, IfSome, ◌⊎◌, ◌↔◌};
ghost use Rattle.am_version_order.specs.Moments.{greatest};
ghost use Rattle.am_wire.specs.Limits.{most};
ghost use Rattle.am_wire.specs.declared.error.WireError.TheVariants as errors;
ghost use Rattle.am_wire.specs.Reading.{GivesUnlessMemory};
ghost use Rattle.am_wire.specs.Sizes.{counted};
ghost use Rattle.am_nflog.specs.Entries.{writes_entry, IsEntry};
ghost use Rattle.am_nflog.specs.Fields.{entry_in};
ghost use Rattle.am_wire.specs.Unknown.{IsUnknown, none};
ghost use Rattle.am_nflog.specs.Mesh.{Mesh, plain_version, entry_numbers, writes_mesh_entry};
ghost use Rattle.am_nflog.specs.MeshTable.{reads_mesh_entry};
ghost use Rattle.am_nflog.specs.Offsets.{StandAt};
ghost use Rattle.am_wire.specs.declared.unknown.Unknown.{Unknown};

use crate::canonical::read_version;
use crate::entry::{Entry, EntryDraft};
use crate::fields::EntryFields;
use crate::hash_iter::HashIter;
use crate::key::LogKey;
use crate::offsets::Offsets;
use am_version_order::{Moment, Version, head_of_text};
use am_wire::reading::{Expiring, ExpiringDraft, read_message};
use am_wire::writing::{append_text, expiring_size, write_message, write_prefix};
use am_wire::{MOST_MESSAGE_BYTES, Message, Unknown, UnknownFields, WireError};
use std::alloc::{AllocError, Global};
use std::marker::Model;

/// The numbers of an entry's known fields.
pub const KNOWN_FIELDS: [u32; 7] = [1, 2, 3, 4, 5, 6, 7];

/// A version of an entry: the entry, the moment from which it may be forgotten, and the fields that a reader kept without
/// knowing them.
///
/// It is stored as its canonical encoding, so that comparing allocates nothing, with its key and its moments beside it, and the
/// places of its other parts in the text.
pub struct MeshEntry {
    key: LogKey,
    timestamp: Moment,
    expires_at: Moment,
    places: Offsets,
    resolved: bool,
    canonical: Vec<u8>,
}

// With this the crates above cite one drop, and don't prove those of everything inside.
impl Drop for MeshEntry {
    fn drop(self) {
        let MeshEntry {
            key: _,
            timestamp: _,
            expires_at: _,
            places: _,
            resolved: _,
            canonical: _,
        } = self;
    }
}

impl Model for MeshEntry {
    ghost use Rattle.std.specs.Prelude.{◌≡◌};
    ghost use Rattle.am_nflog.specs.Mesh.{Mesh, IsMesh, writes_mesh_entry};
    ghost use Rattle.am_nflog.specs.Spelled.{spelled};
    ghost use Rattle.am_nflog.specs.Offsets.{StandAt};

    ghost Value = { Mesh };

    ghost view = { λ m. spelled m.canonical.items };

    ghost invariant = { λ m. record {
      canonical : m.canonical.items ≡ writes_mesh_entry (spelled m.canonical.items);
      value : IsMesh (spelled m.canonical.items);
      key : m.key ≡ (spelled m.canonical.items).entry.key;
      timestamp : m.timestamp ≡ (spelled m.canonical.items).entry.timestamp;
      expires_at : m.expires_at ≡ (spelled m.canonical.items).expires_at;
      resolved : m.resolved ≡ (spelled m.canonical.items).entry.resolved;
      places : StandAt (spelled m.canonical.items).entry m.places m.canonical.items;
    } };
}

impl MeshEntry {
    /// Returns a version of these parts, without unknown fields.
    ///
    /// # Errors
    ///
    /// [`WireError::TooLarge`] if and only if its canonical encoding has more than 67,108,864 bytes, and [`WireError::Memory`]
    /// if memory runs out.
    pub fn new(alloc: Global, entry: Entry, expires_at: Moment) -> Result<MeshEntry, WireError>
        ensures parts { IfOk result (λ m. m ≡ plain_version entry expires_at) }
        ensures within { IfOk result (λ m. length (writes_mesh_entry m) ≤ most) }
        ensures too_large { (result ≡ Err errors.TooLarge) ↔
            (most < length (writes_mesh_entry (plain_version entry expires_at))) }
        ensures refused { IfErr result (λ e. (e ≡ errors.Memory) ⊎ (e ≡ errors.TooLarge)) }
    {
        MeshEntry::of_fields(alloc, &EntryFields::of(&entry), expires_at)
    }

    // Returns a version of an entry's fields, as `new` does.
    #[tactic(auto, unfolding(crate::specs::Mesh::writes_mesh_entry))]
    pub(crate) fn of_fields(
        alloc: Global,
        fields: &EntryFields<'_>,
        expires_at: Moment,
    ) -> Result<MeshEntry, WireError>
        ensures parts { IfOk result (λ m. m ≡ plain_version (entry_in fields.now) expires_at) }
        ensures within { IfOk result (λ m. length (writes_mesh_entry m) ≤ most) }
        ensures too_large { (result ≡ Err errors.TooLarge) ↔
            (most < length (writes_mesh_entry (plain_version (entry_in fields.now) expires_at))) }
        ensures refused { IfErr result (λ e. (e ≡ errors.Memory) ⊎ (e ≡ errors.TooLarge)) }
    {
        let size = fields.size();
        if expiring_size(size, expires_at) > MOST_MESSAGE_BYTES {
            return Err(WireError::TooLarge);
        }
        let unknown = UnknownFields::none(alloc);
        let version = MeshEntry::of_sized(alloc, fields, size, expires_at, &unknown)?;
        Ok(version)
    }

    // Returns a version of these parts and unknown fields, whatever the length of its text; the entry has `size` bytes.
    #[tactic(auto, unfolding(crate::specs::Mesh::writes_mesh_entry))]
    fn of_sized(
        alloc: Global,
        fields: &EntryFields<'_>,
        size: u64,
        expires_at: Moment,
        unknown: &UnknownFields,
    ) -> Result<MeshEntry, AllocError>
        requires size { size ≡ counted (length (writes_entry (entry_in fields.now))) }
        requires unknown { IsUnknown entry_numbers unknown.now }
        ensures { IfOk result (λ m. m ≡ record { entry = entry_in fields.now; expires_at = expires_at; unknown = unknown.now }) }
    {
        let mut canonical = Vec::new(alloc);
        let places = write_version(&mut canonical, fields, size, expires_at, unknown)?;
        let key = fields.key.owned(alloc)?;
        Ok(MeshEntry {
            key,
            timestamp: fields.timestamp,
            expires_at,
            places,
            resolved: fields.resolved,
            canonical,
        })
    }

    // Returns the version that a text spells if it is canonical and has no unknown fields, and `None` otherwise.
    fn of_canonical(alloc: Global, text: &[u8]) -> Result<Option<MeshEntry>, AllocError>
        ensures { IfOk result (λ found. IfSome found (λ m. (unknown : Unknown) (at : ℕ) → reads_mesh_entry unknown at text.now ≡ Ok m)) }
    {
        let Some((entry, expires_at)) = read_version(text) else {
            return Ok(None);
        };
        let key = entry.key.owned(alloc)?;
        let canonical = text.to_vec(alloc)?;
        let version = MeshEntry {
            key,
            timestamp: entry.timestamp,
            expires_at,
            places: entry.places,
            resolved: entry.resolved,
            canonical,
        };
        Ok(Some(version))
    }

    // Returns the version that a text spells in any way.
    #[tactic(auto, unfolding(crate::specs::MeshTable::reads_mesh_entry))]
    fn of_spelling(
        alloc: Global,
        unknown: Unknown,
        text: &[u8],
        at: usize,
    ) -> Result<MeshEntry, WireError>
        requires { at + length text.now < 2 ^ 64 }
        ensures { GivesUnlessMemory result (reads_mesh_entry unknown at text.now) }
    {
        let Expiring {
            message: entry,
            expires_at,
        } = read_message::<ExpiringDraft<EntryDraft>>(alloc, text, at, at)?;
        let fields = entry.fields();
        let size = fields.size();
        let unknown = UnknownFields::of(alloc, unknown, &KNOWN_FIELDS, text, at)?;
        let version = MeshEntry::of_sized(alloc, &fields, size, expires_at, &unknown)?;
        Ok(version)
    }

    /// Returns the moment of the notification, by which versions replace each other.
    pub fn timestamp(&self) -> Moment
        ensures { result ≡ self.now.entry.timestamp }
    {
        self.timestamp
    }

    /// Returns the moment from which the version may be forgotten.
    pub fn expires_at(&self) -> Moment
        ensures { result ≡ self.now.expires_at }
    {
        self.expires_at
    }

    /// Returns the bytes of the field `group_hash` of its protobuf message, which nothing here sets.
    pub fn group_hash(&self) -> &[u8]
        ensures { result.now ≡ self.now.entry.group_hash }
    {
        self.places.group_hash.part_of(self.canonical.as_slice())
    }

    /// Returns the field `resolved` of its protobuf message, which nothing here sets.
    pub fn resolved(&self) -> bool
        ensures { result ≡ self.now.entry.resolved }
    {
        self.resolved
    }

    /// Returns an iterator over the hashes of the alerts that were firing.
    pub fn firing_alerts(&self) -> HashIter<'_>
        ensures { result ≡ self.now.entry.firing_alerts }
    {
        let packed = self.places.firing_alerts.part_of(self.canonical.as_slice());
        HashIter::unpacking(packed)
    }

    /// Returns an iterator over the hashes of the alerts that were resolved.
    pub fn resolved_alerts(&self) -> HashIter<'_>
        ensures { result ≡ self.now.entry.resolved_alerts }
    {
        let packed = self
            .places
            .resolved_alerts
            .part_of(self.canonical.as_slice());
        HashIter::unpacking(packed)
    }
}

// Writes a version with unknown fields, and returns the places of the entry's parts; the entry has `size` bytes.
#[tactic(auto, unfolding(crate::specs::Mesh::writes_mesh_entry))]
fn write_version(
    out: &mut Vec<u8>,
    fields: &EntryFields<'_>,
    size: u64,
    expires_at: Moment,
    unknown: &UnknownFields,
) -> Result<Offsets, AllocError>
    requires { size ≡ counted (length (writes_entry (entry_in fields.now))) }
    ensures written { OnOk result (out.new.items ≡
        out.old.items ++ writes_mesh_entry (record { entry = entry_in fields.now; expires_at = expires_at; unknown = unknown.now })) }
    ensures value { OnOk result (IsEntry (entry_in fields.now)) }
    ensures moment { OnOk result (expires_at ≤ greatest) }
    ensures places { IfOk result (λ places. StandAt (entry_in fields.now) places out.new.items) }
{
    let inner = unknown.inner.as_slice();
    let outer = unknown.outer.as_slice();
    let size = size.saturating_add(inner.len() as u64);
    let room = expiring_size(size, expires_at).saturating_add(outer.len() as u64);
    out.reserve_exact(room as usize)?;
    write_prefix(out, 1, size)?;
    let places = fields.write(out)?;
    out.extend_from_slice(inner)?;
    write_message(out, 2, &expires_at)?;
    out.extend_from_slice(outer)?;
    Ok(places)
}

impl Message for MeshEntry {
    ghost use Rattle.std.specs.Prelude.{refl};
    ghost use Rattle.am_nflog.specs.Mesh.{IsMesh, without_unknown};
    ghost use Rattle.am_nflog.specs.RoundTrip.{mesh_again, mesh_dropped};

    ghost is_value = { IsMesh };

    ghost writes = { writes_mesh_entry };

    ghost plain = { without_unknown };

    ghost reads = { reads_mesh_entry };

    ghost round_trip = { mesh_again };

    ghost dropped = { mesh_dropped };

    ghost plain_again = { λ m. refl };

    fn size(&self) -> u64 {
        self.canonical().len() as u64
    }

    fn write(&self, out: &mut Vec<u8>) -> Result<(), AllocError> {
        out.extend_from_slice(self.canonical())
    }

    fn encode(&self, out: &mut Vec<u8>) -> Result<(), WireError> {
        append_text(out, self.canonical())
    }

    fn decode_at(
        alloc: Global,
        unknown: Unknown,
        bytes: &[u8],
        at: usize,
    ) -> Result<MeshEntry, WireError> {
        if let Some(version) = MeshEntry::of_canonical(alloc, bytes)? {
            return Ok(version);
        }
        MeshEntry::of_spelling(alloc, unknown, bytes, at)
    }
}

impl Version for MeshEntry {
    ghost use Rattle.am_version_order.specs.Heads.{head_of_text};
    ghost use Rattle.am_version_order.proofs.Weights.{text_heads_then};
    ghost use Rattle.std.specs.Prelude.{[]};
    ghost use Rattle.am_nflog.specs.Mesh.{IsMesh, mesh_version};
    ghost use Rattle.am_nflog.specs.Keys.{exact_keys};
    ghost use Rattle.am_nflog.specs.RoundTrip.{mesh_exact};

    type Key = LogKey;

    ghost seen = { mesh_version };

    // Entries are looked up by their keys alone.
    ghost bucket_of = { λ m. [] };

    ghost head_of = { λ key. head_of_text key.group_key };

    ghost is_value = { IsMesh };

    fn key(&self) -> &LogKey {
        &self.key
    }

    fn head(key: &LogKey) -> u64 {
        head_of_text(key.group_key())
    }

    fn try_key(&self, alloc: Global) -> Result<LogKey, AllocError> {
        self.key.try_clone(alloc)
    }

    fn updated(&self) -> Moment {
        self.timestamp
    }

    fn expires(&self) -> Moment {
        self.expires_at
    }

    fn canonical(&self) -> &[u8] {
        self.canonical.as_slice()
    }

    fn bucket(&self) -> &[u8] {
        &[]
    }

    fn try_clone(&self, alloc: Global) -> Result<MeshEntry, AllocError> {
        Ok(MeshEntry {
            key: self.key.try_clone(alloc)?,
            timestamp: self.timestamp,
            expires_at: self.expires_at,
            places: self.places,
            resolved: self.resolved,
            canonical: self.canonical.clone()?,
        })
    }

    ghost exact_keys = { exact_keys };

    ghost heads = { λ x y. text_heads_then x.group_key y.group_key _ };

    ghost exact = { mesh_exact };
}
