//! Receivers, to which a group's notifications are sent.

ghost use Rattle.std.specs.Prelude.{◌≡◌, ℕ, List, [], ◌∷◌, ◌++◌, OnOk, IfOk, IfErr, length};
ghost use Rattle.am_wire.specs.Sizes.{counted};
ghost use Rattle.am_nflog.specs.Keys.{receiver_cmp};
ghost use Rattle.am_nflog.specs.Receivers.{receiver, writes_receiver, IsReceiver};

use am_wire::reading::{LastNumber, LastText, MessageReader, Schema, read_message};
use am_wire::writing::{number_size, text_size, write_number, write_text};
use am_wire::{Field, Message, Text, Unknown, WireError, WireType};
use std::alloc::{AllocError, Global};
use std::cmp::Ordering;
use std::marker::Model;

/// One integration of a receiver. Receivers are ordered by group name, integration and index.
#[derive(PartialEq, Eq, PartialOrd, Ord, Drop)]
pub struct Receiver {
    pub group_name: Text,
    pub integration: Text,
    pub idx: u32,
}

impl Receiver {
    /// Returns the same receiver with borrowed texts.
    pub(crate) fn borrowed(&self) -> ReceiverRef<'_>
        ensures { result ≡ self.now }
    {
        ReceiverRef::new(
            self.group_name.as_str(),
            self.integration.as_str(),
            self.idx,
        )
    }

    /// Returns a copy.
    ///
    /// # Errors
    ///
    /// [`AllocError`] if memory runs out.
    pub fn try_clone(&self, alloc: Global) -> Result<Receiver, AllocError>
        ensures { IfOk result (λ copy. copy ≡ self.now) }
    {
        self.borrowed().copied(alloc)
    }
}

/// A receiver with borrowed texts. Contracts see the receiver.
#[derive(Drop)]
pub struct ReceiverRef<'a> {
    group_name: &'a str,
    integration: &'a str,
    idx: u32,
}

impl<'a> Model for ReceiverRef<'a> {
    ghost use Rattle.am_nflog.specs.declared.receiver.Receiver.{Receiver};

    ghost Value = { Receiver };

    ghost view = { λ r. record { group_name = r.group_name.now; integration = r.integration.now; idx = r.idx } };
}

impl<'a> ReceiverRef<'a> {
    /// Returns a receiver of these parts.
    pub fn new(group_name: &'a str, integration: &'a str, idx: u32) -> Self
        ensures { result ≡ record { group_name = group_name.now; integration = integration.now; idx = idx } }
    {
        ReceiverRef {
            group_name,
            integration,
            idx,
        }
    }

    /// Returns the name of the receiver.
    pub fn group_name(&self) -> &'a str
        ensures { result.now ≡ self.now.group_name }
    {
        self.group_name
    }

    /// Returns the name of its integration.
    pub fn integration(&self) -> &'a str
        ensures { result.now ≡ self.now.integration }
    {
        self.integration
    }

    /// Returns the number of the integration in its receiver.
    pub fn idx(&self) -> u32
        ensures { result ≡ self.now.idx }
    {
        self.idx
    }

    /// Compares two receivers. Nothing is allocated.
    #[inline]
    pub(crate) fn compare(&self, other: &ReceiverRef<'_>) -> Ordering
        ensures { result ≡ receiver_cmp self.now other.now }
    {
        match self.group_name.cmp(other.group_name) {
            Ordering::Equal => {}
            order => return order,
        }
        match self.integration.cmp(other.integration) {
            Ordering::Equal => self.idx.cmp(&other.idx),
            order => order,
        }
    }

    /// Copies the receiver into one with texts of its own.
    ///
    /// # Errors
    ///
    /// [`AllocError`] if memory runs out.
    pub fn copied(&self, alloc: Global) -> Result<Receiver, AllocError>
        ensures { IfOk result (λ copy. copy ≡ self.now) }
    {
        Ok(Receiver {
            group_name: Text::copied(alloc, self.group_name)?,
            integration: Text::copied(alloc, self.integration)?,
            idx: self.idx,
        })
    }

    /// Returns the length of its text.
    #[tactic(auto, unfolding(crate::specs::Receivers::writes_receiver))]
    pub(crate) fn size(&self) -> u64
        ensures { result ≡ counted (length (writes_receiver self.now)) }
    {
        text_size(1, self.group_name)
            .saturating_add(text_size(2, self.integration))
            .saturating_add(number_size(3, u64::from(self.idx)))
    }

    /// Appends its text to the bytes.
    #[tactic(auto, unfolding(crate::specs::Receivers::writes_receiver))]
    pub(crate) fn write(&self, out: &mut Vec<u8>) -> Result<(), AllocError>
        ensures written { OnOk result (out.new.items ≡ out.old.items ++ writes_receiver self.now) }
        ensures value { OnOk result (IsReceiver self.now) }
    {
        write_text(out, 1, self.group_name)?;
        write_text(out, 2, self.integration)?;
        write_number(out, 3, u64::from(self.idx))
    }
}

/// The draft of a receiver.
#[derive(Clone, Copy)]
pub struct ReceiverDraft<'a> {
    group_name: LastText<'a>,
    integration: LastText<'a>,
    idx: LastNumber,
}

impl Schema for ReceiverDraft<'_> {
    ghost fitting = { receiver.fits };

    fn fits(number: u32, wire_type: WireType) -> bool
        ensures { result ≡ receiver.fits number wire_type }
    {
        match number {
            1 | 2 => wire_type == WireType::Bytes,
            3 => wire_type == WireType::Varint,
            _ => true,
        }
    }
}

impl<'a> MessageReader<'a> for ReceiverDraft<'a> {
    ghost use Rattle.am_nflog.specs.Receivers.{receiver_value, receiver_tests};
    ghost use Rattle.am_nflog.specs.Drafts.{IsReceiverDraft};

    type Done = ReceiverRef<'a>;

    ghost inside = { receiver.inside };

    ghost holds = { IsReceiverDraft };

    ghost tests = { receiver_tests };

    ghost value = { receiver_value };

    fn start(_alloc: Global) -> Self {
        ReceiverDraft {
            group_name: LastText::none(),
            integration: LastText::none(),
            idx: LastNumber::none(),
        }
    }

    fn take(&mut self, field: Field<'a>) -> Result<(), WireError> {
        match field.number {
            1 => self.group_name.take(field)?,
            2 => self.integration.take(field)?,
            3 => self.idx.take(field),
            _ => {}
        }
        Ok(())
    }

    fn finish(self, _alloc: Global, _place: usize) -> Result<ReceiverRef<'a>, WireError> {
        let idx = (self.idx.value % (1 << 32)) as u32;
        Ok(ReceiverRef::new(self.group_name.text, self.integration.text, idx))
    }
}

impl Message for Receiver {
    ghost use Rattle.am_nflog.specs.Receivers.{IsReceiver, reads_receiver, writes_receiver};
    ghost use Rattle.am_nflog.specs.RoundTrip.{receiver_again};
    ghost use Rattle.am_wire.specs.RoundTrip.Plain.{plainly_itself};
    ghost use Rattle.std.specs.Prelude.{refl};

    ghost is_value = { IsReceiver };

    ghost writes = { writes_receiver };

    ghost plain = { λ v. v };

    ghost reads = { λ unknown. reads_receiver };

    ghost round_trip = { receiver_again };

    ghost dropped = { λ at bytes. plainly_itself (reads_receiver at bytes) };

    ghost plain_again = { λ v. refl };

    fn size(&self) -> u64 {
        self.borrowed().size()
    }

    fn write(&self, out: &mut Vec<u8>) -> Result<(), AllocError> {
        self.borrowed().write(out)
    }

    #[tactic(auto, unfolding(crate::specs::Receivers::reads_receiver))]
    fn decode_at(
        alloc: Global,
        _unknown: Unknown,
        bytes: &[u8],
        at: usize,
    ) -> Result<Receiver, WireError> {
        let receiver = read_message::<ReceiverDraft>(alloc, bytes, at, at)?;
        Ok(receiver.copied(alloc)?)
    }
}
