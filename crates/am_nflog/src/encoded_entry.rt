//! Versions of entries that are borrowed from their canonical encodings.

use crate::canonical::read_version;
use crate::key_parts::KeyParts;
use crate::mesh::MeshEntry;
use am_wire::{EncodedVersion, FromEncoding};
use std::cmp::Ordering;
use std::marker::Model;

/// A version of an entry, borrowed from its canonical encoding. Contracts see the version.
///
/// The parts of its key are beside the encoding, so that rows can be sorted by their keys and written again without making
/// versions.
#[derive(Drop)]
pub struct EncodedEntry<'a> {
    key: KeyParts<'a>,
    encoding: &'a [u8],
}

impl<'a> Model for EncodedEntry<'a> {
    ghost use Rattle.std.specs.Prelude.{◌≡◌};
    ghost use Rattle.am_nflog.specs.Mesh.{Mesh, IsMesh, writes_mesh_entry};
    ghost use Rattle.am_nflog.specs.Spelled.{spelled};

    ghost Value = { Mesh };

    ghost view = { λ t. spelled t.encoding.now };

    ghost invariant = { λ t. record {
      canonical : t.encoding.now ≡ writes_mesh_entry (spelled t.encoding.now);
      value : IsMesh (spelled t.encoding.now);
      key : t.key ≡ (spelled t.encoding.now).entry.key;
    } };
}

impl EncodedVersion for EncodedEntry<'_> {
    type Owned = MeshEntry;

    ghost version = { λ m. m };

    fn encoding(&self) -> &[u8] {
        self.encoding
    }

    fn compare_keys(&self, other: &Self) -> Ordering {
        self.key.compare(&other.key)
    }
}

impl<'a> FromEncoding<'a> for EncodedEntry<'a> {
    fn read(encoding: &'a [u8]) -> Option<Self> {
        let (entry, _) = read_version(encoding)?;
        Some(EncodedEntry {
            key: entry.key,
            encoding,
        })
    }
}
