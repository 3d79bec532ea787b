//! Versions of silences that are borrowed from their canonical encodings.

use crate::canonical::{CanonicalSilence, read_version};
use crate::mesh::MeshSilence;
use am_version_order::head_of_text;
use am_wire::{EncodedVersion, FromEncoding};
use std::cmp::Ordering;
use std::marker::Model;

/// A version of a silence, borrowed from its canonical encoding. Contracts see the version.
///
/// Its identifier is beside the encoding, with the number that follows the order of identifiers, so that rows can be sorted by
/// their keys and written again without making versions.
#[derive(Drop)]
pub struct EncodedSilence<'a> {
    head: u64,
    id: &'a str,
    encoding: &'a [u8],
}

impl<'a> Model for EncodedSilence<'a> {
    ghost use Rattle.std.specs.Prelude.{◌≡◌};
    ghost use Rattle.am_version_order.specs.Heads.{head_of_text};
    ghost use Rattle.am_silence.specs.Mesh.{Mesh, IsMesh, writes_mesh_silence};
    ghost use Rattle.am_silence.specs.Spelled.{version_in};

    ghost Value = { Mesh };

    ghost view = { λ t. version_in t.encoding.now };

    ghost invariant = { λ t. record {
      canonical : t.encoding.now ≡ writes_mesh_silence (version_in t.encoding.now);
      value : IsMesh (version_in t.encoding.now);
      id : t.id.now ≡ (version_in t.encoding.now).silence.id;
      head : t.head ≡ head_of_text (version_in t.encoding.now).silence.id;
    } };
}

impl EncodedVersion for EncodedSilence<'_> {
    type Owned = MeshSilence;

    ghost version = { λ m. m };

    fn encoding(&self) -> &[u8] {
        self.encoding
    }

    fn compare_keys(&self, other: &Self) -> Ordering {
        match self.head.cmp(&other.head) {
            Ordering::Equal => self.id.cmp(other.id),
            order => order,
        }
    }
}

impl<'a> FromEncoding<'a> for EncodedSilence<'a> {
    fn read(encoding: &'a [u8]) -> Option<Self> {
        let CanonicalSilence {
            fields,
            expires_at: _,
            places: _,
        } = read_version(encoding)?;
        Some(EncodedSilence {
            head: head_of_text(fields.id.as_bytes()),
            id: fields.id,
            encoding,
        })
    }
}
