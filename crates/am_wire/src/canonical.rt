//! A reader of canonical encodings, which accepts only what a writer of the same values writes.

ghost use Rattle.std.specs.Prelude.{◌≡◌, ◌<◌, ◌≤◌, ◌-◌, ◌^◌, ◌%◌, ◌∷◌, ◌++◌, [], true, false, take, drop, length, IfSome};
ghost use Rattle.std.specs.Str.{IsUtf8};
ghost use Rattle.am_version_order.specs.Moments.{greatest};
ghost use Rattle.am_wire.specs.Offsets.{StandsAt};
ghost use Rattle.am_wire.specs.Passing.{Passes, PassesNumbers, ArePacked};
ghost use Rattle.am_wire.specs.Timestamps.{writes_moment, seconds_number};
ghost use Rattle.am_wire.specs.Varint.{shortest};
ghost use Rattle.am_wire.specs.Writing.{tag, writes_delimited, writes_number, writes_text};

use crate::ascii::text_of;
use crate::offset::Offset;
use crate::varint::varint_from;
use am_version_order::Moment;
use std::marker::Model;

/// A reader of a text that may be canonical. Each call passes the field with the given number, exactly as a writer writes
/// it, and returns its content. A call returns `None` if the text goes on in another way, and the reader is of no further
/// use then.
///
/// Contracts see the text and the part of it that is passed.
#[derive(Drop)]
pub struct CanonicalReader<'a> {
    text: &'a [u8],
    at: usize,
}

impl<'a> Model for CanonicalReader<'a> {
    ghost use Rattle.std.specs.Prelude.{◌≤◌, length, take};
    ghost use Rattle.am_wire.specs.Passing.{Passing};

    ghost Value = { Passing };

    ghost view = { λ r. record { text = r.text.now; passed = take r.at r.text.now } };

    ghost invariant = { λ r. r.at ≤ length r.text.now };
}

impl<'a> CanonicalReader<'a> {
    /// Returns a reader at the start of a text.
    pub fn new(text: &'a [u8]) -> Self
        ensures { result ≡ record { text = text.now; passed = [] } }
    {
        CanonicalReader { text, at: 0 }
    }

    /// Returns the number of bytes that are passed.
    pub fn at(&self) -> usize
        ensures at { result ≡ length self.now.passed }
        ensures within { result ≤ length self.now.text }
        ensures most { result ≤ 2 ^ 63 }
    {
        self.at
    }

    /// Returns whether the whole text is passed.
    pub fn is_over(&self) -> bool
        ensures { result ≡ true → self.now.passed ≡ self.now.text }
    {
        self.at == self.text.len()
    }

    /// Passes `count` bytes.
    fn bytes(&mut self, count: usize) -> Option<&'a [u8]>
        ensures passed { IfSome result (λ part. Passes part.now self.old self.new) }
        ensures count { IfSome result (λ part. length part.now ≡ count) }
    {
        let rest = &self.text[self.at..];
        if rest.len() < count {
            return None;
        }
        self.at += count;
        Some(&rest[..count])
    }

    /// Passes the next byte if it is `byte`, and returns whether it is.
    fn byte(&mut self, byte: u8) -> bool
        ensures passed { result ≡ true → Passes (byte ∷ []) self.old self.new }
        ensures kept { result ≡ false → self.new ≡ self.old }
    {
        if self.text.get(self.at) != Some(&byte) {
            return false;
        }
        self.at += 1;
        true
    }

    /// Passes a number in its shortest spelling.
    #[tactic(auto, using(crate::proofs::Groups::one_group))]
    fn varint(&mut self) -> Option<u64>
        ensures { IfSome result (λ value. Passes (shortest value) self.old self.new) }
    {
        let byte = *self.text.get(self.at)?;
        if byte < 128 && self.byte(byte) {
            return Some(u64::from(byte));
        }
        self.long_varint()
    }

    /// Passes a number that takes several bytes, in its shortest spelling.
    #[inline(never)]
    fn long_varint(&mut self) -> Option<u64>
        ensures { IfSome result (λ value. Passes (shortest value) self.old self.new) }
    {
        let rest = &self.text[self.at..];
        let (value, len) = shortest_from(rest)?;
        self.at += len;
        Some(value)
    }

    /// Passes the tag of a field number below 16 if it comes next, and returns whether it does. `kind` is the code of the
    /// payload's wire type.
    #[tactic(auto, using(crate::proofs::Passings::one_tag))]
    fn tag(&mut self, number: u32, kind: u32) -> bool
        requires number { number < 16 }
        requires kind { kind < 8 }
        ensures passed { result ≡ true → Passes (tag number kind) self.old self.new }
        ensures kept { result ≡ false → self.new ≡ self.old }
    {
        self.byte((number * 8 + kind) as u8)
    }

    /// Passes a number, which is left out if it is 0.
    #[tactic(auto, using(crate::proofs::Passings::both, crate::proofs::Passings::nothing))]
    pub fn number(&mut self, number: u32) -> Option<u64>
        requires { number < 16 }
        ensures { IfSome result (λ value. Passes (writes_number number value) self.old self.new) }
    {
        if !self.tag(number, 0) {
            return Some(0);
        }
        let value = self.varint()?;
        if value == 0 {
            return None;
        }
        Some(value)
    }

    /// Passes the tag and the length in front of a field's bytes, and returns the length.
    #[tactic(auto, using(crate::proofs::Passings::both))]
    pub fn prefix(&mut self, number: u32) -> Option<u64>
        requires { number < 16 }
        ensures { IfSome result (λ size. Passes (tag number 2 ++ shortest size) self.old self.new) }
    {
        if !self.tag(number, 2) {
            return None;
        }
        self.varint()
    }

    /// Passes bytes, which are written even if there are none.
    pub fn delimited(&mut self, number: u32) -> Option<&'a [u8]>
        requires { number < 16 }
        ensures { IfSome result (λ part. Passes (writes_delimited number part.now) self.old self.new) }
    {
        let size = self.prefix(number)?;
        self.bytes(usize::try_from(size).ok()?)
    }

    /// Passes bytes, which are left out if there are none.
    pub fn part(&mut self, number: u32) -> Option<&'a [u8]>
        requires { number < 16 }
        ensures { IfSome result (λ part. Passes (writes_text number part.now) self.old self.new) }
    {
        if !self.goes_on(number) {
            return Some(&[]);
        }
        let part = self.delimited(number)?;
        if part.is_empty() {
            return None;
        }
        Some(part)
    }

    /// Returns whether bytes with this field number come next.
    pub fn goes_on(&self, number: u32) -> bool
        requires { number < 16 }
        ensures { result ≡ true → length self.now.passed < length self.now.text }
    {
        self.text.get(self.at) == Some(&((number * 8 + 2) as u8))
    }

    /// Passes bytes as [`CanonicalReader::part`] does, and returns them with their offset.
    pub fn placed_part(&mut self, number: u32) -> Option<(&'a [u8], Offset)>
        requires { number < 16 }
        ensures passed { IfSome result (λ it. Passes (writes_text number it.0.now) self.old self.new) }
        ensures place { IfSome result (λ it. StandsAt it.0.now it.1 self.new.passed) }
    {
        let begun = self.at();
        let part = self.part(number)?;
        let place = Offset::behind_tag(begun, part.is_empty());
        Some((part, place))
    }

    /// Passes numbers packed in one field, which is left out if there are none, and returns their offset.
    pub fn numbers(&mut self, number: u32) -> Option<Offset>
        requires { number < 16 }
        ensures { IfSome result (λ place. PassesNumbers number place self.old self.new) }
    {
        let (part, place) = self.placed_part(number)?;
        if !are_packed(part) {
            return None;
        }
        Some(place)
    }

    /// Passes a text, which is left out if it is empty.
    pub fn text(&mut self, number: u32) -> Option<&'a str>
        requires { number < 16 }
        ensures passed { IfSome result (λ text. Passes (writes_text number text.now) self.old self.new) }
        ensures utf8 { IfSome result (λ text. IsUtf8 text.now) }
    {
        text_of(self.part(number)?).ok()
    }

    /// Passes a text as [`CanonicalReader::text`] does, and returns it with its offset.
    pub fn placed_text(&mut self, number: u32) -> Option<(&'a str, Offset)>
        requires { number < 16 }
        ensures passed { IfSome result (λ it. Passes (writes_text number it.0.now) self.old self.new) }
        ensures place { IfSome result (λ it. StandsAt it.0.now it.1 self.new.passed) }
        ensures utf8 { IfSome result (λ it. IsUtf8 it.0.now) }
    {
        let (part, place) = self.placed_part(number)?;
        let text = text_of(part).ok()?;
        Some((text, place))
    }

    /// Returns the bytes passed since `begun` bytes were passed.
    pub fn since(&self, begun: usize) -> &'a [u8]
        requires { begun ≤ length self.now.passed }
        ensures { result.now ≡ drop begun self.now.passed }
    {
        &self.text[begun..self.at]
    }

    /// Returns whether exactly `size` bytes were passed since `begun` bytes were passed.
    pub fn has_passed(&self, size: u64, begun: usize) -> bool
        ensures { result ≡ true → length self.now.passed - begun ≡ size }
    {
        self.at.saturating_sub(begun) as u64 == size
    }

    /// Passes a moment, which is written even if it is the first one.
    #[tactic(auto, using(crate::proofs::Passings::whole))]
    pub fn moment(&mut self, number: u32) -> Option<Moment>
        requires { number < 16 }
        ensures passed { IfSome result (λ moment. Passes (writes_delimited number (writes_moment moment)) self.old self.new) }
        ensures within { IfSome result (λ moment. moment ≤ greatest) }
    {
        let size = self.prefix(number)?;
        let begun = self.at();
        let moment = self.moment_text()?;
        if !self.has_passed(size, begun) {
            return None;
        }
        Some(moment)
    }

    /// Passes the text of a moment.
    #[tactic(auto, using(crate::proofs::Passings::both), unfolding(crate::specs::Timestamps::writes_moment))]
    fn moment_text(&mut self) -> Option<Moment>
        ensures passed { IfSome result (λ moment. Passes (writes_moment moment) self.old self.new) }
        ensures within { IfSome result (λ moment. moment ≤ greatest) }
    {
        let seconds = self.number(1)?;
        let nanos = self.number(2)?;
        let moment = moment_of(seconds, nanos)?;
        Some(moment)
    }
}

/// Returns the number at the front and its length in bytes, or `None` if it isn't in its shortest spelling.
fn shortest_from(bytes: &[u8]) -> Option<(u64, usize)>
    ensures within { IfSome result (λ x. x.1 ≤ length bytes.now) }
    ensures spelling { IfSome result (λ x. shortest x.0 ≡ take x.1 bytes.now) }
{
    let (value, len) = varint_from(bytes, 0).ok()?;
    // A last byte of 0 adds nothing.
    if bytes[len - 1] == 0 {
        return None;
    }
    Some((value, len))
}

/// Returns whether the bytes are numbers, each in its shortest spelling.
fn are_packed(part: &[u8]) -> bool
    ensures { result ≡ true → ArePacked part.now }
{
    let mut reader = CanonicalReader::new(part);
    for _ in 0..part.len() {
        if reader.is_over() {
            break;
        }
        let Some(_value) = reader.varint() else {
            return false;
        };
    }
    reader.is_over()
}

/// Returns the moment written as these numbers: its seconds in two's complement, and its nanoseconds.
fn moment_of(seconds: u64, nanos: u64) -> Option<Moment>
    ensures seconds { IfSome result (λ moment. seconds ≡ seconds_number moment) }
    ensures nanos { IfSome result (λ moment. nanos ≡ moment % 1_000_000_000) }
    ensures within { IfSome result (λ moment. moment ≤ greatest) }
{
    let nanos = u32::try_from(nanos).ok()?;
    let moment = Moment::from_parts(seconds.cast_signed(), nanos)?;
    Some(moment)
}
