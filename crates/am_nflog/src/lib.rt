//! The notification log: which groups were notified of what, and when.
#![tactic(auto)]

mod canonical;
mod encoded_entry;
mod entry;
mod fields;
mod hash_iter;
mod hashes;
mod key;
mod key_parts;
mod make;
mod mesh;
mod offsets;
mod order;
mod receiver;
mod record;

pub use am_wire::Bytes;
pub use encoded_entry::EncodedEntry;
pub use entry::{Entry, EntryDraft, EntryParts};
pub use hash_iter::HashIter;
pub use hashes::Hashes;
pub use key::LogKey;
pub use make::make_entry;
pub use mesh::{KNOWN_FIELDS, MeshEntry};
pub use receiver::{Receiver, ReceiverDraft, ReceiverRef};
