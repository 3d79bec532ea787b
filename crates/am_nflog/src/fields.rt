//! The fields of an entry, wherever they are stored: their length, and the writing of them.

ghost use Rattle.std.specs.Prelude.{◌≡◌, ◌++◌, length, OnOk, IfOk};
ghost use Rattle.am_wire.specs.Sizes.{counted};
ghost use Rattle.am_wire.specs.Writing.{writes_delimited};
ghost use Rattle.am_nflog.specs.Entries.{writes_entry, IsEntry};
ghost use Rattle.am_nflog.specs.Fields.{entry_in};
ghost use Rattle.am_nflog.specs.Offsets.{StandAt};
ghost use Rattle.am_nflog.specs.Receivers.{writes_receiver, IsReceiver};

use crate::entry::Entry;
use crate::hashes::Hashes;
use crate::key_parts::KeyParts;
use crate::offsets::Offsets;
use crate::receiver::ReceiverRef;
use am_version_order::Moment;
use am_wire::Bytes;
use am_wire::writing::{
    bytes_size, delimited_size, message_size, number_size, numbers_size, write_bytes,
    write_message, write_number, write_packed_part, write_part, write_prefix,
};
use std::alloc::{AllocError, Global};

/// The fields of an entry, with borrowed texts and lists.
#[derive(Drop)]
pub struct EntryFields<'a> {
    pub key: KeyParts<'a>,
    pub group_hash: &'a [u8],
    pub resolved: bool,
    pub timestamp: Moment,
    pub firing_alerts: &'a [u64],
    pub resolved_alerts: &'a [u64],
}

impl<'a> EntryFields<'a> {
    /// Returns the fields of an entry.
    pub fn of(entry: &'a Entry) -> Self
        ensures { entry_in result ≡ entry.now }
    {
        EntryFields {
            key: entry.key.parts(),
            group_hash: entry.group_hash.as_slice(),
            resolved: entry.resolved,
            timestamp: entry.timestamp,
            firing_alerts: entry.firing_alerts.as_slice(),
            resolved_alerts: entry.resolved_alerts.as_slice(),
        }
    }

    /// Copies the fields into an entry with texts and lists of its own.
    ///
    /// # Errors
    ///
    /// [`AllocError`] if memory runs out.
    pub fn copied(&self, alloc: Global) -> Result<Entry, AllocError>
        ensures { IfOk result (λ copy. copy ≡ entry_in self.now) }
    {
        Ok(Entry {
            key: self.key.owned(alloc)?,
            group_hash: Bytes::copied(alloc, self.group_hash)?,
            resolved: self.resolved,
            timestamp: self.timestamp,
            firing_alerts: Hashes::new(self.firing_alerts.to_vec(alloc)?),
            resolved_alerts: Hashes::new(self.resolved_alerts.to_vec(alloc)?),
        })
    }

    /// Returns the length of the entry.
    #[tactic(auto, unfolding(crate::specs::Entries::writes_entry))]
    pub fn size(&self) -> u64
        ensures { result ≡ counted (length (writes_entry (entry_in self.now))) }
    {
        bytes_size(1, self.key.group_key())
            .saturating_add(delimited_size(2, self.key.receiver().size()))
            .saturating_add(bytes_size(3, self.group_hash))
            .saturating_add(number_size(4, u64::from(self.resolved)))
            .saturating_add(message_size(5, &self.timestamp))
            .saturating_add(numbers_size(6, self.firing_alerts))
            .saturating_add(numbers_size(7, self.resolved_alerts))
    }

    /// Appends the entry to the bytes, and returns the places of its parts in them.
    ///
    /// # Errors
    ///
    /// [`AllocError`] if memory runs out. Some of the text may have been written then.
    #[tactic(auto, unfolding(crate::specs::Entries::writes_entry))]
    pub fn write(&self, out: &mut Vec<u8>) -> Result<Offsets, AllocError>
        ensures written { OnOk result (out.new.items ≡ out.old.items ++ writes_entry (entry_in self.now)) }
        ensures value { OnOk result (IsEntry (entry_in self.now)) }
        ensures places { IfOk result (λ places. StandAt (entry_in self.now) places out.new.items) }
    {
        write_bytes(out, 1, self.key.group_key())?;
        push_receiver(out, &self.key.receiver())?;
        let group_hash = write_part(out, 3, self.group_hash)?;
        write_number(out, 4, u64::from(self.resolved))?;
        write_message(out, 5, &self.timestamp)?;
        let firing_alerts = write_packed_part(out, 6, self.firing_alerts)?;
        let resolved_alerts = write_packed_part(out, 7, self.resolved_alerts)?;
        Ok(Offsets {
            group_hash,
            firing_alerts,
            resolved_alerts,
        })
    }
}

// Writes a receiver as the field 2.
fn push_receiver(out: &mut Vec<u8>, receiver: &ReceiverRef<'_>) -> Result<(), AllocError>
    ensures written { OnOk result (out.new.items ≡ out.old.items ++ writes_delimited 2 (writes_receiver receiver.now)) }
    ensures value { OnOk result (IsReceiver receiver.now) }
{
    write_prefix(out, 2, receiver.size())?;
    receiver.write(out)
}
