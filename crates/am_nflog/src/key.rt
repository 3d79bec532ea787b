//! Keys of the log.

ghost use Rattle.std.specs.Prelude.{◌≡◌, IfOk};
ghost use Rattle.std.proofs.Common.{rules};
ghost use Rattle.std.specs.Cmp.{partial_order_from_own_ties};
ghost use Rattle.std.specs.Cmp.Rules.{comparing};
ghost use Rattle.std.specs.Ordering.{as_partial_cmp};
ghost use Rattle.std.specs.Str.{IsUtf8};
ghost use Rattle.am_nflog.specs.Keys.{key_cmp, key_eq};

use crate::key_parts::KeyParts;
use crate::order::compare_bytes;
use crate::receiver::{Receiver, ReceiverRef};
use std::alloc::{AllocError, Global};
use std::cmp::Ordering;
use std::marker::Model;

/// The key of a group of alerts and a receiver. Keys are ordered by group key, group name and integration, byte by byte, and
/// then by index as a number.
///
/// The three texts are stored as one, one after another.
pub struct LogKey {
    text: Vec<u8>,
    // The offset at which the group name begins.
    group_name: usize,
    // The offset at which the integration begins.
    integration: usize,
    idx: u32,
}

// With this the crates above cite one drop, and don't prove those of everything inside.
impl Drop for LogKey {
    fn drop(self) {
        let LogKey {
            text: _,
            group_name: _,
            integration: _,
            idx: _,
        } = self;
    }
}

impl Model for LogKey {
    ghost use Rattle.am_nflog.specs.LogKeys.{LogKey, key_in, AreParted};

    ghost Value = { LogKey };

    ghost view = { λ k. key_in k.text.items k.group_name k.integration k.idx };

    ghost invariant = { λ k. AreParted k.text.items k.group_name k.integration };
}

impl LogKey {
    /// Returns the key of a group and a receiver.
    ///
    /// # Errors
    ///
    /// [`AllocError`] if memory runs out.
    pub fn new(alloc: Global, group_key: &[u8], receiver: &Receiver) -> Result<LogKey, AllocError>
        ensures { IfOk result (λ key. key ≡ record { group_key = group_key.now; receiver = receiver.now }) }
    {
        KeyParts::of(group_key, &receiver.borrowed()).owned(alloc)
    }

    /// Returns the key of a group and the receiver made of these parts.
    ///
    /// # Errors
    ///
    /// [`AllocError`] if memory runs out.
    pub fn of_parts(
        alloc: Global,
        group_key: &[u8],
        group_name: &str,
        integration: &str,
        idx: u32,
    ) -> Result<LogKey, AllocError>
        ensures { IfOk result (λ key. key ≡ record {
          group_key = group_key.now;
          receiver = record { group_name = group_name.now; integration = integration.now; idx = idx };
        }) }
    {
        let length = group_key
            .len()
            .saturating_add(group_name.len())
            .saturating_add(integration.len());
        let mut text = Vec::with_capacity(alloc, length)?;
        text.extend_from_slice(group_key)?;
        let name_at = text.len();
        text.extend_from_slice(group_name.as_bytes())?;
        let integration_at = text.len();
        text.extend_from_slice(integration.as_bytes())?;
        Ok(LogKey {
            text,
            group_name: name_at,
            integration: integration_at,
            idx,
        })
    }

    /// Returns the key of the group of alerts.
    pub fn group_key(&self) -> &[u8]
        ensures { result.now ≡ self.now.group_key }
    {
        &self.text[..self.group_name]
    }

    /// Returns the name of the receiver.
    pub fn group_name(&self) -> &str
        ensures bytes { result.now ≡ self.now.receiver.group_name }
        ensures utf8 { IsUtf8 self.now.receiver.group_name }
    {
        let bytes = &self.text[self.group_name..self.integration];
        // SAFETY: these are the bytes of a text.
        unsafe { str::from_utf8_unchecked(bytes) }
    }

    /// Returns the name of the receiver's integration.
    pub fn integration(&self) -> &str
        ensures bytes { result.now ≡ self.now.receiver.integration }
        ensures utf8 { IsUtf8 self.now.receiver.integration }
    {
        let bytes = &self.text[self.integration..];
        // SAFETY: these are the bytes of a text.
        unsafe { str::from_utf8_unchecked(bytes) }
    }

    /// Returns the number of the integration in its receiver.
    pub fn idx(&self) -> u32
        ensures { result ≡ self.now.receiver.idx }
    {
        self.idx
    }

    /// Returns the receiver, with texts borrowed from the key.
    fn receiver(&self) -> ReceiverRef<'_>
        ensures { result ≡ self.now.receiver }
    {
        ReceiverRef::new(self.group_name(), self.integration(), self.idx)
    }

    /// Returns the parts, with texts borrowed from the key.
    pub(crate) fn parts(&self) -> KeyParts<'_>
        ensures { result ≡ self.now }
    {
        KeyParts::of(self.group_key(), &self.receiver())
    }

    /// Returns a copy.
    ///
    /// # Errors
    ///
    /// [`AllocError`] if memory runs out.
    pub fn try_clone(&self, alloc: Global) -> Result<LogKey, AllocError>
        ensures { IfOk result (λ copy. copy ≡ self.now) }
    {
        Ok(LogKey {
            text: self.text.as_slice().to_vec(alloc)?,
            group_name: self.group_name,
            integration: self.integration,
            idx: self.idx,
        })
    }
}

impl PartialEq for LogKey {
    ghost eq = { key_eq };

    ghost laws = { Prim.search (comparing, rules) depth 9 };

    fn eq(&self, other: &LogKey) -> bool {
        self.group_key() == other.group_key()
            && self.group_name() == other.group_name()
            && self.integration() == other.integration()
            && self.idx == other.idx
    }
}

impl Eq for LogKey {
    ghost laws = { Prim.search (comparing, rules) depth 9 };
}

impl PartialOrd for LogKey {
    ghost partial_cmp = { as_partial_cmp key_cmp };

    ghost laws = { partial_order_from_own_ties (Prim.search (comparing, rules) depth 9) (Prim.search (comparing, rules) depth 9) };

    fn partial_cmp(&self, other: &LogKey) -> Option<Ordering> {
        Some(self.cmp(other))
    }
}

impl Ord for LogKey {
    ghost cmp = { key_cmp };

    ghost total = { Prim.search (comparing, rules) depth 9 };

    ghost matches_partial_cmp = { Prim.search (comparing, rules) depth 9 };

    ghost matches_eq = { Prim.search (comparing, rules) depth 9 };

    fn cmp(&self, other: &LogKey) -> Ordering {
        // The receivers are compared only if the group keys are equal.
        match compare_bytes(self.group_key(), other.group_key()) {
            Ordering::Equal => self.receiver().compare(&other.receiver()),
            order => order,
        }
    }
}
