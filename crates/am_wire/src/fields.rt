//! An iterator over the fields in bytes.

ghost use Rattle.std.specs.Prelude.{◌≡◌, ℕ, List, [], ◌∷◌, Result, Ok, Err, ◌+◌, ◌<◌, ◌≤◌, ◌^◌, length, IfOk};
ghost use Rattle.std.specs.Iterator.{YieldsFirstBy, item_count};
ghost use Rattle.am_wire.specs.Fields.{FieldAt, field_seen_one, fields_of};
ghost use Rattle.am_wire.specs.declared.error.WireError.{WireError};

use crate::error::WireError;
use crate::field::{AnyField, Schema, field_from};
use crate::value::Field;
use std::marker::{Model, PhantomData};

/// An iterator over the fields in bytes, in which `K` says which wire types a number may have. It ends after a fault. The
/// bytes of a field are borrowed from the input.
#[derive(Drop)]
pub struct Scan<'a, K: Schema> {
    rest: &'a [u8],
    at: usize,
    known: PhantomData<K>,
}

/// An iterator over the fields in bytes, whatever their numbers and wire types.
pub type Fields<'a> = Scan<'a, AnyField>;

/// The view is the fields to come, the last of which may be a fault.
impl<'a, K: Schema> Model for Scan<'a, K> {
    ghost Value = { List (Result FieldAt WireError) };

    ghost view = { λ s. fields_of K.fitting s.at s.rest.now };

    ghost invariant = { λ s. s.at + length s.rest.now < 2 ^ 64 };
}

impl<'a, K: Schema> Scan<'a, K> {
    /// Returns an iterator over bytes that begin at the offset `at` of the outermost input.
    pub fn within(bytes: &'a [u8], at: usize) -> Self
        requires { at + length bytes.now < 2 ^ 64 }
        ensures { result ≡ fields_of K.fitting at bytes.now }
    {
        Scan {
            rest: bytes,
            at,
            known: PhantomData,
        }
    }

    /// Returns an iterator over bytes that are the outermost input.
    pub fn new(bytes: &'a [u8]) -> Self
        ensures { result ≡ fields_of K.fitting 0 bytes.now }
    {
        Self::within(bytes, 0)
    }
}

impl<'a, K: Schema> Iterator for Scan<'a, K> {
    type Item = Result<Field<'a>, WireError>;

    ghost next_gives = { YieldsFirstBy field_seen_one (λ s. s) };

    ghost remaining = { item_count (λ s. s) };

    fn next(&mut self) -> Option<Result<Field<'a>, WireError>> {
        if self.rest.is_empty() {
            return None;
        }
        let (rest, at) = (self.rest, self.at);
        match field_from::<K>(rest, at) {
            Ok((field, len)) => {
                self.rest = &rest[len..];
                self.at = at + len;
                Some(Ok(field))
            }
            Err(fault) => {
                self.rest = &[];
                Some(Err(fault))
            }
        }
    }
}
