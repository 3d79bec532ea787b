//! Timestamps, which represent moments.

ghost use Rattle.std.specs.Prelude.{◌≡◌, ℕ, ◌%◌, ◌≤◌, List, [], ◌∷◌, ◌++◌, OnOk, IfErr};
ghost use Rattle.am_version_order.specs.Moments.{greatest};
ghost use Rattle.am_wire.specs.Fields.{FieldAt, field_of};
ghost use Rattle.am_wire.specs.Parts.{IsPart};
ghost use Rattle.am_wire.specs.Reading.{GivesUnlessMemory, fault_or_value};
ghost use Rattle.am_wire.specs.Timestamps.{timestamp, moment_of, moment_test, seconds_number};
ghost use Rattle.am_wire.specs.TimestampDrafts.{IsTimestampDraft};

use crate::error::WireError;
use crate::field::Schema;
use crate::message::Message;
use crate::message_reader::{MessageReader, read_message};
use crate::parts::{LastNumber, Submessage};
use crate::size::number_size;
use crate::unknown::Unknown;
use crate::value::{Field, WireType};
use crate::writing::write_number;
use am_version_order::Moment;
use std::alloc::{AllocError, Global};

/// The draft of a timestamp.
#[derive(Clone, Copy)]
pub struct TimestampDraft {
    seconds: LastNumber,
    nanos: LastNumber,
}

impl Schema for TimestampDraft {
    ghost fitting = { timestamp.fits };

    fn fits(number: u32, wire_type: WireType) -> bool {
        match number {
            1 | 2 => wire_type == WireType::Varint,
            _ => true,
        }
    }
}

impl<'a> MessageReader<'a> for TimestampDraft {
    ghost use Rattle.am_wire.specs.Timestamps.{moment, timestamp_tests};
    ghost use Rattle.am_wire.specs.TimestampDrafts.{IsTimestampDraft};

    type Done = Moment;

    ghost inside = { timestamp.inside };

    ghost holds = { IsTimestampDraft };

    ghost tests = { timestamp_tests };

    ghost value = { moment };

    fn start(_alloc: Global) -> Self {
        TimestampDraft {
            seconds: LastNumber::none(),
            nanos: LastNumber::none(),
        }
    }

    fn take(&mut self, field: Field<'a>) -> Result<(), WireError> {
        match field.number {
            1 => self.seconds.take(field),
            2 => self.nanos.take(field),
            _ => {}
        }
        Ok(())
    }

    fn finish(self, _alloc: Global, place: usize) -> Result<Moment, WireError> {
        let nanos = (self.nanos.value % (1 << 32)) as u32;
        match Moment::from_parts(self.seconds.value.cast_signed(), nanos) {
            Some(moment) => Ok(moment),
            None => Err(WireError::Timestamp { at: place }),
        }
    }
}

/// Returns the moment in a part of a message; a missing one is [`Moment::LEAST`].
///
/// # Errors
///
/// [`WireError::Timestamp`], reported at the part's tag, if the seconds and the nanoseconds don't make a moment.
pub fn moment_in(alloc: Global, part: Submessage<TimestampDraft>) -> Result<Moment, WireError>
    ensures { (n : ℕ) (es : List FieldAt) → IsPart IsTimestampDraft timestamp n es part →
        GivesUnlessMemory result (fault_or_value (moment_test n es) (moment_of n es)) }
{
    let moment = part.draft.finish(alloc, part.at)?;
    if part.given {
        Ok(moment)
    } else {
        Ok(Moment::LEAST)
    }
}

/// Returns the numbers that a moment is written as: its seconds in two's complement, and its nanoseconds.
fn numbers_of(moment: Moment) -> (u64, u64)
    ensures seconds { result.0 ≡ seconds_number moment }
    ensures nanos { result.1 ≡ moment % 1_000_000_000 }
    ensures within { moment ≤ greatest }
{
    let (seconds, nanos) = moment.parts();
    (seconds.cast_unsigned(), u64::from(nanos))
}

impl Message for Moment {
    ghost use Rattle.am_wire.specs.Timestamps.{reads_moment, writes_moment};
    ghost use Rattle.std.specs.Prelude.{◌≤◌};
    ghost use Rattle.am_version_order.specs.Moments.{greatest};
    ghost use Rattle.am_wire.specs.RoundTrip.Moments.{moment_again};
    ghost use Rattle.am_wire.specs.RoundTrip.Plain.{plainly_itself};
    ghost use Rattle.std.specs.Prelude.{refl};

    ghost is_value = { λ m. m ≤ greatest };

    ghost writes = { writes_moment };

    ghost plain = { λ m. m };

    ghost reads = { λ unknown. reads_moment };

    ghost round_trip = { moment_again };

    ghost dropped = { λ at bytes. plainly_itself (reads_moment at bytes) };

    ghost plain_again = { λ m. refl };

    #[tactic(auto, unfolding(crate::specs::Timestamps::writes_moment))]
    fn size(&self) -> u64 {
        let (seconds, nanos) = numbers_of(*self);
        number_size(1, seconds) + number_size(2, nanos)
    }

    #[tactic(auto, unfolding(crate::specs::Timestamps::writes_moment))]
    fn write(&self, out: &mut Vec<u8>) -> Result<(), AllocError> {
        let (seconds, nanos) = numbers_of(*self);
        write_number(out, 1, seconds)?;
        write_number(out, 2, nanos)
    }

    #[tactic(auto, unfolding(crate::specs::Timestamps::reads_moment))]
    fn decode_at(
        alloc: Global,
        _unknown: Unknown,
        bytes: &[u8],
        at: usize,
    ) -> Result<Moment, WireError> {
        read_message::<TimestampDraft>(alloc, bytes, at, at)
    }
}
