//! A message's draft, which takes one field after another.

ghost use Rattle.std.specs.Prelude.{◌≡◌, ℕ, List, [], ◌∷◌, ◌++◌, Option, None, Some, ◌+◌, ◌<◌, ◌^◌, length, OnOk, IfErr};
ghost use Rattle.am_wire.specs.Fields.{FieldAt, field_of, fields_of};
ghost use Rattle.am_wire.specs.Reading.{FailsUnlessMemory, GivesUnlessMemory, fault_or_value, read_by, table_at, scan, sound_fields};
ghost use Rattle.am_wire.specs.declared.error.WireError.{WireError};

use crate::error::WireError;
use crate::field::Schema;
use crate::fields::Scan;
use crate::value::Field;
use std::alloc::Global;

/// The draft of a message: what its fields so far amount to.
pub trait MessageReader<'a>: Schema + Drop {
    /// The message that the draft becomes.
    type Done: Drop;

    /// The fault inside a field.
    ghost inside: { FieldAt → Option WireError };

    /// The draft is what these fields leave.
    ghost holds: { List FieldAt → Self → Type 0 };

    /// The fault that the message's own tests find once all fields are read, reported at this place.
    ghost tests: { ℕ → List FieldAt → Option WireError };

    /// The message that these fields make.
    ghost value: { List FieldAt → Self.Done };

    /// Returns the draft before any field is taken.
    fn start(alloc: Global) -> Self
        ensures { holds [] result };

    /// Takes the next field.
    ///
    /// # Errors
    ///
    /// The fault inside the field, or [`WireError::Memory`].
    fn take(&mut self, field: Field<'a>) -> Result<(), WireError>
        ensures held { OnOk result ((es : List FieldAt) → holds es self.old → holds (es ++ field_of field.entry ∷ []) self.new) }
        ensures clean { OnOk result (inside (field_of field.entry) ≡ None) }
        ensures fault { IfErr result (λ e. FailsUnlessMemory e (inside (field_of field.entry))) };

    /// Returns the message that the fields make. A fault that its own tests find is reported at `place`.
    ///
    /// # Errors
    ///
    /// The fault that the tests find, or [`WireError::Memory`].
    fn finish(self, alloc: Global, place: usize) -> Result<Self::Done, WireError>
        ensures { (es : List FieldAt) → holds es self → GivesUnlessMemory result (fault_or_value (tests place es) (value es)) };
}

/// Takes all fields in the bytes, which begin at the offset `at` of the outermost input.
///
/// # Errors
///
/// The first fault in the bytes, or [`WireError::Memory`].
pub fn take_fields<'a, D: MessageReader<'a>>(
    draft: &mut D,
    bytes: &'a [u8],
    at: usize,
) -> Result<(), WireError>
    requires { at + length bytes.now < 2 ^ 64 }
    ensures held { OnOk result ((es : List FieldAt) → D.holds es draft.old →
        D.holds (es ++ sound_fields (fields_of D.fitting at bytes.now)) draft.new) }
    ensures clean { OnOk result (scan D.inside (fields_of D.fitting at bytes.now) ≡ None) }
    ensures fault { IfErr result (λ e. FailsUnlessMemory e (scan D.inside (fields_of D.fitting at bytes.now))) }
{
    for item in Scan::<D>::within(bytes, at) {
        draft.take(item?)?;
    }
    Ok(())
}

/// Reads a message from the bytes, which begin at the offset `at` of the outermost input. A fault that its own tests find
/// is reported at `place`.
///
/// # Errors
///
/// The first fault in the bytes, or else the one that the message's own tests find; or [`WireError::Memory`].
pub fn read_message<'a, D: MessageReader<'a>>(
    alloc: Global,
    bytes: &'a [u8],
    at: usize,
    place: usize,
) -> Result<D::Done, WireError>
    requires { at + length bytes.now < 2 ^ 64 }
    ensures { GivesUnlessMemory result (read_by (table_at D.fitting D.inside) D.tests D.value place at bytes.now) }
{
    let mut draft = D::start(alloc);
    take_fields(&mut draft, bytes, at)?;
    draft.finish(alloc, place)
}
