//! Words and lists as the values of messages.

ghost use Rattle.std.specs.Prelude.{◌≡◌, ◌≤◌, [], length, IfOk};
ghost use Rattle.am_cluster.specs.Versions.{receiver_of};

use am_nflog::{Hashes, Receiver};
use am_schedule::{HashList, Word};
use am_wire::{Bytes, Text};
use std::alloc::{AllocError, Global};

/// Converts a word to a text.
pub(crate) fn text_of(alloc: Global, word: &Word) -> Result<Text, AllocError>
    ensures text { IfOk result (λ text. text ≡ word.now) }
    ensures short { length word.now ≤ 1024 }
{
    Text::copied(alloc, word.as_str())
}

/// Converts a word to bytes.
pub(crate) fn bytes_of(alloc: Global, word: &Word) -> Result<Bytes, AllocError>
    ensures bytes { IfOk result (λ bytes. bytes ≡ word.now) }
    ensures short { length word.now ≤ 1024 }
{
    Bytes::copied(alloc, word.as_str().as_bytes())
}

/// Returns the empty text.
pub(crate) fn no_text(alloc: Global) -> Text
    ensures { result ≡ [] }
{
    Text::new(String::new(alloc))
}

/// Converts a list to hashes.
pub(crate) fn hashes_of(alloc: Global, hashes: &HashList) -> Result<Hashes, AllocError>
    ensures hashes { IfOk result (λ copy. copy ≡ hashes.now) }
    ensures few { length hashes.now ≤ 512 }
{
    let copy = hashes.as_slice().to_vec(alloc)?;
    Ok(Hashes::new(copy))
}

/// Returns the receiver that has only a group name.
pub(crate) fn receiver_of(alloc: Global, name: &Word) -> Result<Receiver, AllocError>
    ensures receiver { IfOk result (λ receiver. receiver ≡ receiver_of name.now) }
    ensures short { length name.now ≤ 1024 }
{
    Ok(Receiver {
        group_name: text_of(alloc, name)?,
        integration: no_text(alloc),
        idx: 0,
    })
}
