//! Messages, which are written in only one way and read from every spelling.

ghost use Rattle.std.specs.Prelude.{◌≡◌, ℕ, List, ◌++◌, ◌+◌, ◌<◌, ◌≤◌, ◌^◌, Result, Ok, Err, OnOk, OnErr, IfErr, ◌⊎◌, ◌↔◌, length};
ghost use Rattle.am_wire.specs.Limits.{most};
ghost use Rattle.am_wire.specs.Reading.{GivesUnlessMemory};
ghost use Rattle.am_wire.specs.Sizes.{counted};
ghost use Rattle.am_wire.specs.Writing.{writes_delimited};
ghost use Rattle.am_wire.specs.Unknown.{plainly};
ghost use Rattle.am_wire.specs.declared.error.WireError.{WireError};
ghost use Rattle.am_wire.specs.declared.unknown.Unknown.{Unknown};
ghost use Rattle.am_wire.specs.declared.unknown.Unknown.TheVariants.{Drop, Keep};
ghost use Rattle.am_wire.specs.declared.error.WireError.TheVariants as errors;

use crate::error::WireError;
use crate::rows::MOST_MESSAGE_BYTES;
use crate::unknown::Unknown;
use crate::writing::write_prefix;
use std::alloc::{AllocError, Global};

/// A value that is written as one canonical encoding, and read from every text that spells it.
pub trait Message: Sized + Drop {
    /// Holds of the values of the type.
    ghost is_value: { Self → Type 0 };

    /// The canonical encoding of a value.
    ghost writes: { Self → List ℕ };

    /// The same value without the fields that its reader doesn't know.
    ghost plain: { Self → Self };

    /// The value that a text spells, or its first fault. The text begins at this offset of the outermost input, and unknown
    /// fields are dropped or kept.
    ghost reads: { Unknown → ℕ → List ℕ → Result Self WireError };

    /// Returns the text's length, or [`u64::MAX`] if it would be that or more. Nothing is allocated.
    fn size(&self) -> u64
        ensures { result ≡ counted (length (writes self.now)) };

    /// Appends the text to the bytes.
    ///
    /// # Errors
    ///
    /// [`AllocError`] if memory runs out. A part of the text may have been written then.
    fn write(&self, out: &mut Vec<u8>) -> Result<(), AllocError>
        ensures written { OnOk result (out.new.items ≡ out.old.items ++ writes self.now) }
        ensures value { OnOk result (is_value self.now) };

    /// Appends the text to the bytes, which grow by their own allocator.
    ///
    /// # Errors
    ///
    /// [`WireError::TooLarge`] if and only if the text has more than [`MOST_MESSAGE_BYTES`], or [`WireError::Memory`]. The
    /// bytes are unchanged after either.
    fn encode(&self, out: &mut Vec<u8>) -> Result<(), WireError>
        ensures written { OnOk result (out.new.items ≡ out.old.items ++ writes self.now) }
        ensures value { OnOk result (is_value self.now) }
        ensures size { OnOk result (length (writes self.now) ≤ most) }
        ensures unchanged { OnErr result (out.new.items ≡ out.old.items) }
        ensures too_large { (result ≡ Err errors.TooLarge) ↔ (most < length (writes self.now)) }
        ensures refused { IfErr result (λ e. (e ≡ errors.Memory) ⊎ (e ≡ errors.TooLarge)) }
    {
        let size = self.size();
        if size > MOST_MESSAGE_BYTES {
            return Err(WireError::TooLarge);
        }
        let mut text = Vec::with_capacity(*out.allocator(), size as usize)?;
        self.write(&mut text)?;
        out.extend_from_slice(&text)?;
        Ok(())
    }

    /// Reads a value from all of the bytes, which begin at the offset `at` of the outermost input.
    ///
    /// # Errors
    ///
    /// The first fault in the bytes, or [`WireError::Memory`].
    fn decode_at(
        alloc: Global,
        unknown: Unknown,
        bytes: &[u8],
        at: usize,
    ) -> Result<Self, WireError>
        requires { at + length bytes.now < 2 ^ 64 }
        ensures { GivesUnlessMemory result (reads unknown at bytes.now) };

    /// Reads a value from all of the bytes, without its unknown fields.
    ///
    /// # Errors
    ///
    /// The first fault in the bytes, or [`WireError::Memory`].
    fn decode(alloc: Global, bytes: &[u8]) -> Result<Self, WireError>
        ensures { GivesUnlessMemory result (reads Drop 0 bytes.now) }
    {
        Self::decode_at(alloc, Unknown::Drop, bytes, 0)
    }

    /// A value that is written is read back, at any offset.
    ghost round_trip: { (v : Self) (at : ℕ) → is_value v → length (writes v) < 2 ^ 64 → reads Keep at (writes v) ≡ Ok v };

    /// Dropping unknown fields gives the same value without them, or the same fault.
    ghost dropped: { (at : ℕ) (bytes : List ℕ) → reads Drop at bytes ≡ plainly plain (reads Keep at bytes) };

    /// A value without unknown fields has none to lose.
    ghost plain_again: { (v : Self) → plain (plain v) ≡ plain v };
}

/// Writes a message as a field, even if its text is empty.
///
/// # Errors
///
/// [`AllocError`] if memory runs out. A part of the field may have been written then.
pub fn write_message<M: Message>(
    out: &mut Vec<u8>,
    number: u32,
    message: &M,
) -> Result<(), AllocError>
    requires { number < 2 ^ 29 }
    ensures written { OnOk result (out.new.items ≡ out.old.items ++ writes_delimited number (M.writes message.now)) }
    ensures value { OnOk result (M.is_value message.now) }
{
    write_prefix(out, number, message.size())?;
    message.write(out)
}
