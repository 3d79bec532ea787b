//! Matchers, to which the values of labels are compared.

ghost use Rattle.std.specs.Prelude.{◌≡◌, ℕ, List, [], ◌∷◌, ◌++◌, ◌<◌, ◌≤◌, OnOk, IfOk, IfErr, Ok, length};
ghost use Rattle.am_wire.specs.Fields.{FieldAt, field_of};
ghost use Rattle.am_wire.specs.declared.error.WireError.TheVariants as WireError;
ghost use Rattle.am_silence.specs.Kinds.{kind_code, kind_of, is_regexp};
ghost use Rattle.am_wire.specs.Sizes.{counted};
ghost use Rattle.am_silence.specs.Matchers.{matcher, wants_label, writes_matcher, IsMatcher};

use am_wire::reading::{LastNumber, LastText, MessageReader, Schema, read_message};
use am_wire::writing::{number_size, text_size, write_number, write_text};
use am_wire::{Field, Message, Text, Unknown, WireError, WireType};
use std::alloc::{AllocError, Global};
use std::marker::Model;

/// The way in which a label's value is compared.
#[derive(Clone, Copy, PartialEq, Eq)]
pub enum MatcherKind {
    /// The value is the pattern.
    Equal,
    /// The value matches the pattern, a regular expression, from end to end.
    Regexp,
    /// The value is not the pattern.
    NotEqual,
    /// The value doesn't match the pattern, a regular expression.
    NotRegexp,
}

impl MatcherKind {
    /// Returns the kind for a number in an enum field, whose tag is at `at`.
    fn from_number(number: u64, at: usize) -> Result<MatcherKind, WireError>
        ensures known { IfOk result (λ kind. (number < 4) × (kind_code kind ≡ number)) }
        ensures unknown { IfErr result (λ e. (4 ≤ number) × (e ≡ WireError.MatcherType at)) }
    {
        if number > 3 {
            return Err(WireError::MatcherType { at });
        }
        Ok(MatcherKind::of_number(number))
    }

    /// Returns the kind for a number below 4.
    pub(crate) fn of_number(number: u64) -> MatcherKind
        ensures { result ≡ kind_of number }
    {
        match number {
            0 => MatcherKind::Equal,
            1 => MatcherKind::Regexp,
            2 => MatcherKind::NotEqual,
            _ => MatcherKind::NotRegexp,
        }
    }

    fn number(self) -> u64
        ensures { result ≡ kind_code self }
    {
        match self {
            MatcherKind::Equal => 0,
            MatcherKind::Regexp => 1,
            MatcherKind::NotEqual => 2,
            MatcherKind::NotRegexp => 3,
        }
    }

    /// Returns whether the pattern is a regular expression.
    pub fn is_regexp(self) -> bool
        ensures { result ≡ is_regexp self }
    {
        matches!(self, MatcherKind::Regexp | MatcherKind::NotRegexp)
    }
}

/// A condition on the value of the label `name`; an absent label has the empty text.
#[derive(Drop)]
pub struct Matcher {
    pub kind: MatcherKind,
    pub name: Text,
    pub pattern: Text,
}

impl Matcher {
    /// Returns the same matcher with borrowed texts.
    pub fn borrowed(&self) -> MatcherRef<'_>
        ensures { result ≡ self.now }
    {
        MatcherRef::new(self.kind, self.name.as_str(), self.pattern.as_str())
    }

    /// Returns whether the label has to be present, and equal to the pattern, which is not empty then.
    pub fn wants_label(&self) -> bool
        ensures { result ≡ wants_label self.now }
    {
        self.borrowed().wants_label()
    }

    /// Returns a copy.
    ///
    /// # Errors
    ///
    /// [`AllocError`] if memory runs out.
    pub fn try_clone(&self, alloc: Global) -> Result<Matcher, AllocError>
        ensures { IfOk result (λ copy. copy ≡ self.now) }
    {
        self.borrowed().copied(alloc)
    }
}

/// A matcher with borrowed texts. Contracts see the matcher.
#[derive(Drop)]
pub struct MatcherRef<'a> {
    kind: MatcherKind,
    name: &'a str,
    pattern: &'a str,
}

impl<'a> Model for MatcherRef<'a> {
    ghost use Rattle.am_silence.specs.declared.matcher.Matcher.{Matcher};

    ghost Value = { Matcher };

    ghost view = { λ m. record { kind = m.kind; name = m.name.now; pattern = m.pattern.now } };
}

impl<'a> MatcherRef<'a> {
    /// Returns a matcher of these parts.
    pub fn new(kind: MatcherKind, name: &'a str, pattern: &'a str) -> Self
        ensures { result ≡ record { kind = kind; name = name.now; pattern = pattern.now } }
    {
        MatcherRef {
            kind,
            name,
            pattern,
        }
    }

    /// Returns the way in which the label's value is compared.
    pub fn kind(&self) -> MatcherKind
        ensures { result ≡ self.now.kind }
    {
        self.kind
    }

    /// Returns the label's name.
    pub fn name(&self) -> &'a str
        ensures { result.now ≡ self.now.name }
    {
        self.name
    }

    /// Returns the value, or the regular expression, to which the label's value is compared.
    pub fn pattern(&self) -> &'a str
        ensures { result.now ≡ self.now.pattern }
    {
        self.pattern
    }

    /// Returns whether the label has to be present, and equal to the pattern, which is not empty then.
    pub fn wants_label(&self) -> bool
        ensures { result ≡ wants_label self.now }
    {
        matches!(self.kind, MatcherKind::Equal) && !self.pattern.is_empty()
    }

    /// Copies the matcher into one with texts of its own.
    ///
    /// # Errors
    ///
    /// [`AllocError`] if memory runs out.
    pub fn copied(&self, alloc: Global) -> Result<Matcher, AllocError>
        ensures { IfOk result (λ copy. copy ≡ self.now) }
    {
        Ok(Matcher {
            kind: self.kind,
            name: Text::copied(alloc, self.name)?,
            pattern: Text::copied(alloc, self.pattern)?,
        })
    }

    /// Returns the length of its text.
    #[tactic(auto, unfolding(crate::specs::Matchers::writes_matcher))]
    pub(crate) fn size(&self) -> u64
        ensures { result ≡ counted (length (writes_matcher self.now)) }
    {
        number_size(1, self.kind.number())
            .saturating_add(text_size(2, self.name))
            .saturating_add(text_size(3, self.pattern))
    }

    /// Appends its text to the bytes.
    #[tactic(auto, unfolding(crate::specs::Matchers::writes_matcher))]
    pub(crate) fn write(&self, out: &mut Vec<u8>) -> Result<(), AllocError>
        ensures written { OnOk result (out.new.items ≡ out.old.items ++ writes_matcher self.now) }
        ensures value { OnOk result (IsMatcher self.now) }
    {
        write_number(out, 1, self.kind.number())?;
        write_text(out, 2, self.name)?;
        write_text(out, 3, self.pattern)
    }
}

/// The draft of a matcher.
#[derive(Clone, Copy)]
pub struct MatcherDraft<'a> {
    kind: LastNumber,
    name: LastText<'a>,
    pattern: LastText<'a>,
}

impl Schema for MatcherDraft<'_> {
    ghost fitting = { matcher.fits };

    fn fits(number: u32, wire_type: WireType) -> bool
        ensures { result ≡ matcher.fits number wire_type }
    {
        match number {
            1 => wire_type == WireType::Varint,
            2 | 3 => wire_type == WireType::Bytes,
            _ => true,
        }
    }
}

impl<'a> MessageReader<'a> for MatcherDraft<'a> {
    ghost use Rattle.am_silence.specs.Matchers.{matcher_value, matcher_tests};
    ghost use Rattle.am_silence.specs.Drafts.{IsMatcherDraft};

    type Done = MatcherRef<'a>;

    ghost inside = { matcher.inside };

    ghost holds = { IsMatcherDraft };

    ghost tests = { matcher_tests };

    ghost value = { matcher_value };

    fn start(_alloc: Global) -> Self {
        MatcherDraft {
            kind: LastNumber::none(),
            name: LastText::none(),
            pattern: LastText::none(),
        }
    }

    fn take(&mut self, field: Field<'a>) -> Result<(), WireError> {
        match field.number {
            1 => self.kind.take(field),
            2 => self.name.take(field)?,
            3 => self.pattern.take(field)?,
            _ => {}
        }
        Ok(())
    }

    fn finish(self, _alloc: Global, _place: usize) -> Result<MatcherRef<'a>, WireError> {
        let kind = MatcherKind::from_number(self.kind.value % (1 << 32), self.kind.at)?;
        Ok(MatcherRef::new(kind, self.name.text, self.pattern.text))
    }
}

impl Message for Matcher {
    ghost use Rattle.am_silence.specs.Matchers.{IsMatcher, reads_matcher, writes_matcher};
    ghost use Rattle.am_silence.specs.RoundTrip.{matcher_again};
    ghost use Rattle.am_wire.specs.RoundTrip.Plain.{plainly_itself};
    ghost use Rattle.std.specs.Prelude.{refl};

    ghost is_value = { IsMatcher };

    ghost writes = { writes_matcher };

    ghost plain = { λ v. v };

    ghost reads = { λ unknown. reads_matcher };

    ghost round_trip = { matcher_again };

    ghost dropped = { λ at bytes. plainly_itself (reads_matcher at bytes) };

    ghost plain_again = { λ v. refl };

    fn size(&self) -> u64 {
        self.borrowed().size()
    }

    fn write(&self, out: &mut Vec<u8>) -> Result<(), AllocError> {
        self.borrowed().write(out)
    }

    #[tactic(auto, unfolding(crate::specs::Matchers::reads_matcher))]
    fn decode_at(
        alloc: Global,
        _unknown: Unknown,
        bytes: &[u8],
        at: usize,
    ) -> Result<Matcher, WireError> {
        let matcher = read_message::<MatcherDraft>(alloc, bytes, at, at)?;
        Ok(matcher.copied(alloc)?)
    }
}
