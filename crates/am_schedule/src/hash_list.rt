//! Lists of hashes.

ghost use Rattle.std.specs.Prelude.{◌≡◌, ◌≤◌, length};

use crate::items::Items;
use std::marker::Model;

/// The hashes of alerts in a word: at most 512, since a word has at most 1,024 bytes. Contracts see the list. Only the reading
/// of a schedule makes one.
#[derive(Drop)]
pub struct HashList {
    hashes: Items<u64>,
}

impl Model for HashList {
    ghost use Rattle.std.specs.Prelude.{List, ℕ, ◌≤◌, length};

    ghost Value = { List ℕ };

    ghost view = { λ h. h.hashes };

    ghost invariant = { λ h. length h.hashes ≤ 512 };
}

impl HashList {
    /// Wraps these hashes. This takes no memory.
    pub(crate) fn new(hashes: Items<u64>) -> HashList
        requires { length hashes ≤ 512 }
        ensures { result ≡ hashes }
    {
        HashList { hashes }
    }

    /// Returns the hashes: at most 512.
    pub fn as_slice(&self) -> &[u64]
        ensures hashes { result.now ≡ self.now }
        ensures few { length self.now ≤ 512 }
    {
        self.hashes.as_slice()
    }
}
