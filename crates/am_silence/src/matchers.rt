//! The matchers of a silence.

ghost use Rattle.std.specs.Prelude.{◌≡◌, ◌==◌, [], ◌∷◌, ◌++◌, length, map, None, OnOk, OnErr, IfOk, IfErr};
ghost use Rattle.am_wire.specs.Fields.{field_of};
ghost use Rattle.am_wire.specs.Reading.{FailsUnlessMemory, message_in, item_fault};
ghost use Rattle.am_wire.specs.Writing.{writes_delimited};
ghost use Rattle.am_silence.specs.Matchers.{matcher, matcher_value, matcher_tests, writes_matcher, IsMatcher};

use crate::iter::{HasMatchers, MatcherIter};
use crate::matcher::{Matcher, MatcherDraft, MatcherRef};
use am_wire::reading::read_message;
use am_wire::writing::{delimited_size, write_prefix};
use am_wire::{Field, Value, WireError};
use std::alloc::{AllocError, Global};
use std::marker::Model;

/// The matchers of a silence, in their order. Contracts see the list.
///
/// They are stored as their canonical encoding.
pub struct Matchers {
    text: Vec<u8>,
}

// With this the crates above cite one drop, and don't prove those of everything inside.
impl Drop for Matchers {
    fn drop(self) {
        let Matchers { text: _ } = self;
    }
}

impl Model for Matchers {
    ghost use Rattle.std.specs.Prelude.{List};
    ghost use Rattle.am_silence.specs.declared.matcher.Matcher.{Matcher};
    ghost use Rattle.am_silence.specs.MatcherTexts.{matchers_in, IsMatchersText};

    ghost Value = { List Matcher };

    ghost view = { λ m. matchers_in m.text.items };

    ghost invariant = { λ m. IsMatchersText m.text.items };
}

impl Matchers {
    /// Returns no matchers, without allocating.
    pub fn none(alloc: Global) -> Matchers
        ensures { result ≡ [] }
    {
        Matchers {
            text: Vec::new(alloc),
        }
    }

    /// Copies these matchers.
    ///
    /// # Errors
    ///
    /// [`AllocError`] if memory runs out.
    pub fn new(alloc: Global, matchers: &[Matcher]) -> Result<Matchers, AllocError>
        ensures { IfOk result (λ copies. copies ≡ matchers.now) }
    {
        let mut copies = Matchers::none(alloc);
        for matcher in matchers {
            copies.push(alloc, &matcher.borrowed())?;
        }
        Ok(copies)
    }

    /// Returns whether there are no matchers.
    pub fn is_empty(&self) -> bool
        ensures { result ≡ (length self.now == 0) }
    {
        self.text.is_empty()
    }

    /// Returns an iterator over the matchers. Nothing is allocated.
    pub fn iter(&self) -> MatcherIter<'_>
        ensures { result ≡ self.now }
    {
        MatcherIter::over(self.text.as_slice())
    }

    /// Appends a copy of a matcher.
    ///
    /// # Errors
    ///
    /// [`AllocError`] if memory runs out. The matchers are unchanged then.
    pub fn push(&mut self, alloc: Global, matcher: &MatcherRef<'_>) -> Result<(), AllocError>
        ensures pushed { OnOk result (self.new ≡ self.old ++ matcher.now ∷ []) }
        ensures unchanged { OnErr result (self.new ≡ self.old) }
    {
        let field = field_text(alloc, matcher)?;
        self.text.extend_from_slice(field.as_slice())?;
        Ok(())
    }

    /// Reads the matcher in a field, and appends it.
    ///
    /// # Errors
    ///
    /// The first fault in the matcher, or [`WireError::Memory`].
    pub(crate) fn take(&mut self, alloc: Global, field: Field<'_>) -> Result<(), WireError>
        ensures held { OnOk result (self.new ≡ self.old ++ map matcher_value (message_in matcher (field_of field.entry))) }
        ensures clean { OnOk result (item_fault matcher matcher_tests (field_of field.entry) ≡ None) }
        ensures fault { IfErr result (λ e. FailsUnlessMemory e (item_fault matcher matcher_tests (field_of field.entry))) }
    {
        if let Value::Bytes(bytes) = field.value {
            let matcher = read_message::<MatcherDraft>(alloc, bytes, field.inside, field.at)?;
            self.push(alloc, &matcher)?;
        }
        Ok(())
    }

    /// Frees the memory that isn't needed.
    pub(crate) fn shrink_to_fit(&mut self)
        ensures { self.new ≡ self.old }
    {
        self.text.shrink_to_fit();
    }

    /// Returns a copy.
    ///
    /// # Errors
    ///
    /// [`AllocError`] if memory runs out.
    pub fn try_clone(&self, alloc: Global) -> Result<Matchers, AllocError>
        ensures { IfOk result (λ copy. copy ≡ self.now) }
    {
        Ok(Matchers {
            text: Vec::from_slice(alloc, self.text.as_slice())?,
        })
    }
}

impl HasMatchers for Matchers {
    ghost listed = { λ matchers. matchers };

    fn lent(&self) -> MatcherIter<'_> {
        self.iter()
    }
}

// Returns a matcher as a field of its silence, with exactly the memory that this needs.
fn field_text(alloc: Global, matcher: &MatcherRef<'_>) -> Result<Vec<u8>, AllocError>
    ensures written { IfOk result (λ text. text.items ≡ writes_delimited 2 (writes_matcher matcher.now)) }
    ensures value { OnOk result (IsMatcher matcher.now) }
{
    let size = matcher.size();
    let mut text = Vec::with_capacity(alloc, delimited_size(2, size) as usize)?;
    write_prefix(&mut text, 2, size)?;
    matcher.write(&mut text)?;
    Ok(text)
}
