//! A file in memory. Each call is done at once, so a crash leaves what is there. It keeps each past content, so that its clauses
//! can speak of them: it is for tests, and shows that the contract of a device can be met.

ghost use Rattle.std.specs.Prelude.{◌≡◌, ◌⊎◌, [], ◌∷◌, ◌++◌, length, drop, refl, OnOk, OnErr};
ghost use Rattle.std.proofs.Common.{inl};
ghost use Rattle.am_store.specs.Past.{HadBeen, only_bytes};

use crate::device::Device;
use crate::log_error::LogError;
use std::alloc::{AllocError, Global};

/// A file in memory, with its content after each call.
#[derive(Drop)]
pub struct Memory {
    alloc: Global,
    bytes: Vec<u8>,
    past: Vec<Vec<u8>>,
}

impl Memory {
    ghost use Rattle.am_store.specs.Memory.{memory_bytes};

    /// Returns a file with these bytes, all of them on the disk.
    pub fn new(alloc: Global, bytes: Vec<u8>) -> Self
        ensures { memory_bytes result ≡ bytes.items }
    {
        Memory {
            alloc,
            bytes,
            past: Vec::new(alloc),
        }
    }

    /// Returns its bytes.
    pub fn bytes(&self) -> &[u8]
        ensures { result.now ≡ memory_bytes self.now }
    {
        &self.bytes
    }
}

/// Replaces the bytes that are there, and keeps the old ones.
fn replace(
    alloc: Global,
    bytes: &mut Vec<u8>,
    past: &mut Vec<Vec<u8>>,
    next: Vec<u8>,
) -> Result<(), AllocError>
    ensures ok { OnOk result (bytes.new.items ≡ next.items) }
    ensures err { OnErr result (bytes.new.items ≡ bytes.old.items) }
    ensures past { OnOk result ((v : _) × (v.items ≡ bytes.old.items) × (past.new.items ≡ past.old.items ++ v ∷ [])) }
    ensures past_err { OnErr result (past.new.items ≡ past.old.items) }
{
    past.push(Vec::from_slice(alloc, bytes)?)?;
    *bytes = next;
    Ok(())
}

impl Device for Memory {
    ghost seen = { λ m. m.bytes.items };

    ghost may_leave = { λ m c. c ≡ m.bytes.items };

    ghost moment = { λ m. length m.past.items };

    ghost left_since = { λ m t c. (c ≡ m.bytes.items) ⊎ HadBeen (drop t m.past.items) c };

    ghost faults = { λ m. 0 };

    ghost seen_may_stay = { λ m. refl };

    ghost counts_now = { λ m t c le now. inl now };

    ghost only_now = { λ m c left. only_bytes m.past.items m.bytes.items c left };

    fn write_at(&mut self, at: u64, bytes: &[u8]) -> Result<(), LogError> {
        let at = at as usize;
        let mut next = Vec::from_slice(self.alloc, &self.bytes[..at])?;
        next.extend_from_slice(bytes)?;
        if bytes.len() < self.bytes.len() - at {
            next.extend_from_slice(&self.bytes[at + bytes.len()..])?;
        }
        Ok(replace(self.alloc, &mut self.bytes, &mut self.past, next)?)
    }

    fn cut(&mut self, len: u64) -> Result<(), LogError> {
        let next = Vec::from_slice(self.alloc, &self.bytes[..len as usize])?;
        Ok(replace(self.alloc, &mut self.bytes, &mut self.past, next)?)
    }

    fn sync(&mut self) -> Result<(), LogError> {
        Ok(())
    }
}
