//! Lists of alert hashes.

ghost use Rattle.std.specs.Prelude.{◌≡◌, ℕ, List, IfOk};

use crate::hash_iter::HashIter;
use std::alloc::{AllocError, Global};
use std::marker::Model;

/// The hashes of alerts, in their order. Contracts see the list.
#[derive(Drop)]
pub struct Hashes {
    hashes: Vec<u64>,
}

impl Model for Hashes {
    ghost use Rattle.std.specs.Prelude.{List, ℕ};

    ghost Value = { List ℕ };

    ghost view = { λ h. h.hashes.items };
}

impl Hashes {
    /// Returns a list of these hashes, without allocating.
    pub fn new(hashes: Vec<u64>) -> Hashes
        ensures { result ≡ hashes.items }
    {
        Hashes { hashes }
    }

    /// Returns the hashes, in their order.
    pub fn as_slice(&self) -> &[u64]
        ensures { result.now ≡ self.now }
    {
        self.hashes.as_slice()
    }

    /// Returns an iterator over the hashes.
    pub fn iter(&self) -> HashIter<'_>
        ensures { result ≡ self.now }
    {
        HashIter::of(self.as_slice())
    }

    /// Returns the vector of the hashes, without allocating.
    pub fn into_vec(self) -> Vec<u64>
        ensures { result.items ≡ self }
    {
        self.hashes
    }

    /// Returns a copy.
    ///
    /// # Errors
    ///
    /// [`AllocError`] if memory runs out.
    pub fn try_clone(&self, alloc: Global) -> Result<Hashes, AllocError>
        ensures { IfOk result (λ copy. copy ≡ self.now) }
    {
        let hashes = self.as_slice().to_vec(alloc)?;
        Ok(Hashes { hashes })
    }
}
