//! Versions of silences as records.

use crate::mesh::MeshSilence;
use am_wire::Record;

impl Record for MeshSilence {
    ghost use Rattle.std.specs.Prelude.{refl};

    ghost written = { λ _ value. (value, refl) };
}
