//! Versions of entries as records.

use crate::mesh::MeshEntry;
use am_wire::Record;

impl Record for MeshEntry {
    ghost use Rattle.std.specs.Prelude.{refl};

    ghost written = { λ _ value. (value, refl) };
}
