//! Versions that may have unknown fields.

ghost use Rattle.std.specs.Prelude.{◌≡◌, Ok, IfOk};
ghost use Rattle.am_wire.specs.declared.unknown.UnknownFields.{UnknownFields};
ghost use Rattle.am_wire.specs.declared.unknown.Unknown.TheVariants.{Drop};

use am_nflog::MeshEntry;
use am_silence::MeshSilence;
use am_version_order::Version;
use am_wire::{Message, Unknown, UnknownFields};
use std::alloc::{AllocError, Global};

/// A version that may have fields that its reader kept without knowing them.
pub trait WithUnknown: Version {
    /// The unknown fields of the version.
    ghost unknown_of: { Self → UnknownFields };

    /// The version without its unknown fields.
    ghost known_of: { Self → Self };

    /// Returns the unknown fields of the version.
    ///
    /// # Errors
    ///
    /// [`AllocError`] if memory runs out.
    fn unknown(&self, alloc: Global) -> Result<UnknownFields, AllocError>
        ensures { IfOk result (λ fields. fields ≡ unknown_of self.now) };

    /// Returns the version without its unknown fields.
    ///
    /// # Errors
    ///
    /// [`AllocError`] if memory runs out.
    fn known(&self, alloc: Global) -> Result<Self, AllocError>
        ensures { IfOk result (λ known. known ≡ known_of self.now) };
}

/// Reads the version that a text spells, without its unknown fields.
fn read_known<V: Message>(alloc: Global, text: &[u8]) -> Result<V, AllocError>
    ensures { IfOk result (λ known. V.reads Drop 0 text.now ≡ Ok known) }
{
    match V::decode(alloc, text) {
        Ok(known) => Ok(known),
        Err(_) => Err(AllocError),
    }
}

impl WithUnknown for MeshSilence {
    ghost use Rattle.am_silence.specs.Mesh.{Mesh, without_unknown};

    ghost unknown_of = { λ m. m.unknown };

    ghost known_of = { without_unknown };

    fn unknown(&self, alloc: Global) -> Result<UnknownFields, AllocError> {
        UnknownFields::of(
            alloc,
            Unknown::Keep,
            &am_silence::KNOWN_FIELDS,
            self.canonical(),
            0,
        )
    }

    fn known(&self, alloc: Global) -> Result<MeshSilence, AllocError> {
        read_known(alloc, self.canonical())
    }
}

impl WithUnknown for MeshEntry {
    ghost use Rattle.am_nflog.specs.Mesh.{Mesh, without_unknown};

    ghost unknown_of = { λ m. m.unknown };

    ghost known_of = { without_unknown };

    fn unknown(&self, alloc: Global) -> Result<UnknownFields, AllocError> {
        UnknownFields::of(
            alloc,
            Unknown::Keep,
            &am_nflog::KNOWN_FIELDS,
            self.canonical(),
            0,
        )
    }

    fn known(&self, alloc: Global) -> Result<MeshEntry, AllocError> {
        read_known(alloc, self.canonical())
    }
}
