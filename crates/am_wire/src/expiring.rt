//! Messages that are kept until a moment.

ghost use Rattle.std.specs.Prelude.{◌≡◌, ℕ, List, length};
ghost use Rattle.am_wire.specs.Reading.{table_at};
ghost use Rattle.am_wire.specs.Sizes.{counted};
ghost use Rattle.am_wire.specs.Expiring.{expiring, expiring_fits, writes_expiring};

use crate::error::WireError;
use crate::field::Schema;
use crate::message_reader::MessageReader;
use crate::parts::Submessage;
use crate::size::{delimited_size, message_size};
use crate::timestamp::{TimestampDraft, moment_in};
use crate::value::{Field, WireType};
use am_version_order::Moment;
use std::alloc::Global;

/// A message, and the moment from which it may be forgotten.
#[derive(Drop)]
pub struct Expiring<M> {
    pub message: M,
    pub expires_at: Moment,
}

/// The draft of a message and its moment: the fields 1 and 2.
///
/// A missing message is [`WireError::MissingMessage`], and a missing moment is read as [`Moment::LEAST`].
#[derive(Drop)]
pub struct ExpiringDraft<D> {
    message: Submessage<D>,
    expires_at: Submessage<TimestampDraft>,
}

impl<D> Schema for ExpiringDraft<D> {
    ghost fitting = { expiring_fits };

    fn fits(number: u32, wire_type: WireType) -> bool
        ensures { result ≡ expiring_fits number wire_type }
    {
        match number {
            1 | 2 => wire_type == WireType::Bytes,
            _ => true,
        }
    }
}

impl<'a, D: MessageReader<'a>> MessageReader<'a> for ExpiringDraft<D> {
    ghost use Rattle.am_wire.specs.Expiring.{expiring_tests, expiring_value, IsExpiringDraft};

    type Done = Expiring<D::Done>;

    ghost inside = { (expiring (table_at D.fitting D.inside)).inside };

    ghost holds = { IsExpiringDraft D.holds (table_at D.fitting D.inside) };

    ghost tests = { expiring_tests (table_at D.fitting D.inside) D.tests };

    ghost value = { expiring_value (table_at D.fitting D.inside) D.value };

    fn start(alloc: Global) -> Self {
        ExpiringDraft {
            message: Submessage::none(alloc),
            expires_at: Submessage::none(alloc),
        }
    }

    fn take(&mut self, field: Field<'a>) -> Result<(), WireError> {
        match field.number {
            1 => self.message.take(field)?,
            2 => self.expires_at.take(field)?,
            _ => {}
        }
        Ok(())
    }

    fn finish(self, alloc: Global, _place: usize) -> Result<Expiring<D::Done>, WireError> {
        if !self.message.given {
            return Err(WireError::MissingMessage { field: 1 });
        }
        let message = self.message.draft.finish(alloc, self.message.at)?;
        let expires_at = moment_in(alloc, self.expires_at)?;
        Ok(Expiring {
            message,
            expires_at,
        })
    }
}

/// Returns the length, with its moment, of a message that has `size` bytes by itself.
pub fn expiring_size(size: u64, expires_at: Moment) -> u64
    ensures { (text : List ℕ) → size ≡ counted (length text) → result ≡ counted (length (writes_expiring text expires_at)) }
{
    delimited_size(1, size).saturating_add(message_size(2, &expires_at))
}
