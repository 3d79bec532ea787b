//! Keys of the log with borrowed parts.

ghost use Rattle.std.specs.Prelude.{◌≡◌, IfOk};
ghost use Rattle.am_nflog.specs.Keys.{key_cmp};

use crate::key::LogKey;
use crate::order::compare_bytes;
use crate::receiver::ReceiverRef;
use std::alloc::{AllocError, Global};
use std::cmp::Ordering;
use std::marker::Model;

/// The parts of a key, with borrowed texts. Contracts see the key.
#[derive(Drop)]
pub struct KeyParts<'a> {
    group_key: &'a [u8],
    group_name: &'a str,
    integration: &'a str,
    idx: u32,
}

impl<'a> Model for KeyParts<'a> {
    ghost use Rattle.am_nflog.specs.LogKeys.{LogKey};

    ghost Value = { LogKey };

    ghost view = { λ k. record {
      group_key = k.group_key.now;
      receiver = record { group_name = k.group_name.now; integration = k.integration.now; idx = k.idx };
    } };
}

impl<'a> KeyParts<'a> {
    /// Returns the key of a group and a receiver.
    pub fn of(group_key: &'a [u8], receiver: &ReceiverRef<'a>) -> Self
        ensures { result ≡ record { group_key = group_key.now; receiver = receiver.now } }
    {
        KeyParts {
            group_key,
            group_name: receiver.group_name(),
            integration: receiver.integration(),
            idx: receiver.idx(),
        }
    }

    /// Returns the key of the group of alerts.
    pub fn group_key(&self) -> &'a [u8]
        ensures { result.now ≡ self.now.group_key }
    {
        self.group_key
    }

    /// Returns the receiver.
    pub fn receiver(&self) -> ReceiverRef<'a>
        ensures { result ≡ self.now.receiver }
    {
        ReceiverRef::new(self.group_name, self.integration, self.idx)
    }

    /// Compares two keys. Nothing is allocated.
    pub fn compare(&self, other: &KeyParts<'_>) -> Ordering
        ensures { result ≡ key_cmp self.now other.now }
    {
        match compare_bytes(self.group_key, other.group_key) {
            Ordering::Equal => self.receiver().compare(&other.receiver()),
            order => order,
        }
    }

    /// Copies the key into one with a text of its own.
    ///
    /// # Errors
    ///
    /// [`AllocError`] if memory runs out.
    pub fn owned(&self, alloc: Global) -> Result<LogKey, AllocError>
        ensures { IfOk result (λ key. key ≡ self.now) }
    {
        LogKey::of_parts(
            alloc,
            self.group_key,
            self.group_name,
            self.integration,
            self.idx,
        )
    }
}
