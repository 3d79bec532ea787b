//! Entries of the log.

ghost use Rattle.std.specs.Prelude.{◌≡◌, ℕ, List, [], ◌∷◌, ◌++◌, OnOk, IfOk, IfErr};
ghost use Rattle.am_nflog.specs.Entries.{entry};
ghost use Rattle.am_nflog.specs.Fields.{entry_in};

use crate::fields::EntryFields;
use crate::hashes::Hashes;
use crate::key::LogKey;
use crate::key_parts::KeyParts;
use crate::receiver::{ReceiverDraft, ReceiverRef};
use am_version_order::Moment;
use am_wire::reading::{
    LastBytes, LastNumber, MessageReader, Schema, Submessage, TimestampDraft, moment_in,
    read_message, take_numbers,
};
use am_wire::{Bytes, Field, Message, Unknown, WireError, WireType};
use std::alloc::{AllocError, Global};
use std::marker::Model;

/// A record of what a receiver was notified of for a group: the alerts that were firing then, and those that were resolved.
#[derive(Drop)]
pub struct Entry {
    pub key: LogKey,
    /// The field `group_hash`, which is read, kept and written, but never used.
    pub group_hash: Bytes,
    /// The field `resolved`, which is read, kept and written, but never used.
    pub resolved: bool,
    pub timestamp: Moment,
    pub firing_alerts: Hashes,
    pub resolved_alerts: Hashes,
}

impl Entry {
    /// Returns a copy.
    ///
    /// # Errors
    ///
    /// [`AllocError`] if memory runs out.
    pub fn try_clone(&self, alloc: Global) -> Result<Entry, AllocError>
        ensures { IfOk result (λ copy. copy ≡ self.now) }
    {
        Ok(Entry {
            key: self.key.try_clone(alloc)?,
            group_hash: self.group_hash.try_clone(alloc)?,
            resolved: self.resolved,
            timestamp: self.timestamp,
            firing_alerts: self.firing_alerts.try_clone(alloc)?,
            resolved_alerts: self.resolved_alerts.try_clone(alloc)?,
        })
    }
}

/// An entry as it was read, with texts borrowed from the input. Contracts see the entry.
#[derive(Drop)]
pub struct EntryParts<'a> {
    group_key: &'a [u8],
    receiver: ReceiverRef<'a>,
    group_hash: &'a [u8],
    resolved: bool,
    timestamp: Moment,
    firing_alerts: Vec<u64>,
    resolved_alerts: Vec<u64>,
}

impl<'a> Model for EntryParts<'a> {
    ghost use Rattle.am_nflog.specs.declared.entry.Entry.{Entry};

    ghost Value = { Entry };

    ghost view = { λ e. record {
      key = record { group_key = e.group_key.now; receiver = e.receiver };
      group_hash = e.group_hash.now;
      resolved = e.resolved;
      timestamp = e.timestamp;
      firing_alerts = e.firing_alerts.items;
      resolved_alerts = e.resolved_alerts.items;
    } };
}

impl<'a> EntryParts<'a> {
    /// Returns the fields of the entry.
    pub(crate) fn fields(&self) -> EntryFields<'_>
        ensures { entry_in result ≡ self.now }
    {
        EntryFields {
            key: KeyParts::of(self.group_key, &self.receiver),
            group_hash: self.group_hash,
            resolved: self.resolved,
            timestamp: self.timestamp,
            firing_alerts: self.firing_alerts.as_slice(),
            resolved_alerts: self.resolved_alerts.as_slice(),
        }
    }

    /// Copies the entry into one with texts and lists of its own.
    ///
    /// # Errors
    ///
    /// [`AllocError`] if memory runs out.
    pub fn copied(&self, alloc: Global) -> Result<Entry, AllocError>
        ensures { IfOk result (λ copy. copy ≡ self.now) }
    {
        self.fields().copied(alloc)
    }
}

/// The draft of an entry.
#[derive(Drop)]
pub struct EntryDraft<'a> {
    group_key: LastBytes<'a>,
    receiver: Submessage<ReceiverDraft<'a>>,
    group_hash: LastBytes<'a>,
    resolved: LastNumber,
    timestamp: Submessage<TimestampDraft>,
    firing_alerts: Vec<u64>,
    resolved_alerts: Vec<u64>,
}

impl Schema for EntryDraft<'_> {
    ghost fitting = { entry.fits };

    fn fits(number: u32, wire_type: WireType) -> bool
        ensures { result ≡ entry.fits number wire_type }
    {
        match number {
            1 | 2 | 3 | 5 => wire_type == WireType::Bytes,
            4 => wire_type == WireType::Varint,
            6 | 7 => wire_type == WireType::Varint || wire_type == WireType::Bytes,
            _ => true,
        }
    }
}

impl<'a> MessageReader<'a> for EntryDraft<'a> {
    ghost use Rattle.am_nflog.specs.Entries.{entry_value, entry_tests};
    ghost use Rattle.am_nflog.specs.Drafts.{IsEntryDraft};

    type Done = EntryParts<'a>;

    ghost inside = { entry.inside };

    ghost holds = { IsEntryDraft };

    ghost tests = { entry_tests };

    ghost value = { entry_value };

    fn start(alloc: Global) -> Self {
        EntryDraft {
            group_key: LastBytes::none(),
            receiver: Submessage::none(alloc),
            group_hash: LastBytes::none(),
            resolved: LastNumber::none(),
            timestamp: Submessage::none(alloc),
            firing_alerts: Vec::new(alloc),
            resolved_alerts: Vec::new(alloc),
        }
    }

    fn take(&mut self, field: Field<'a>) -> Result<(), WireError> {
        match field.number {
            1 => self.group_key.take(field),
            2 => self.receiver.take(field)?,
            3 => self.group_hash.take(field),
            4 => self.resolved.take(field),
            5 => self.timestamp.take(field)?,
            6 => take_numbers(&mut self.firing_alerts, field)?,
            7 => take_numbers(&mut self.resolved_alerts, field)?,
            _ => {}
        }
        Ok(())
    }

    fn finish(self, alloc: Global, _place: usize) -> Result<EntryParts<'a>, WireError> {
        if !self.receiver.given {
            return Err(WireError::MissingMessage { field: 2 });
        }
        let timestamp = moment_in(alloc, self.timestamp)?;
        let receiver = self.receiver.draft.finish(alloc, self.receiver.at)?;
        Ok(EntryParts {
            group_key: self.group_key.bytes,
            receiver,
            group_hash: self.group_hash.bytes,
            resolved: self.resolved.value != 0,
            timestamp,
            firing_alerts: self.firing_alerts,
            resolved_alerts: self.resolved_alerts,
        })
    }
}

impl Message for Entry {
    ghost use Rattle.am_nflog.specs.Entries.{IsEntry, reads_entry, writes_entry};
    ghost use Rattle.am_nflog.specs.RoundTrip.{entry_again};
    ghost use Rattle.am_wire.specs.RoundTrip.Plain.{plainly_itself};
    ghost use Rattle.std.specs.Prelude.{refl};

    ghost is_value = { IsEntry };

    ghost writes = { writes_entry };

    ghost plain = { λ v. v };

    ghost reads = { λ unknown. reads_entry };

    ghost round_trip = { entry_again };

    ghost dropped = { λ at bytes. plainly_itself (reads_entry at bytes) };

    ghost plain_again = { λ v. refl };

    fn size(&self) -> u64 {
        EntryFields::of(self).size()
    }

    fn write(&self, out: &mut Vec<u8>) -> Result<(), AllocError> {
        EntryFields::of(self).write(out)?;
        Ok(())
    }

    #[tactic(auto, unfolding(crate::specs::Entries::reads_entry))]
    fn decode_at(
        alloc: Global,
        _unknown: Unknown,
        bytes: &[u8],
        at: usize,
    ) -> Result<Entry, WireError> {
        let entry = read_message::<EntryDraft>(alloc, bytes, at, at)?;
        Ok(entry.copied(alloc)?)
    }
}
