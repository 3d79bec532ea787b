//! Versions that are handed to Alertmanagers.

ghost use Rattle.std.specs.Prelude.{Option, IfOk};
ghost use Rattle.am_matcher.specs.declared.hazard.Hazard.{Hazard};

use am_matcher::{Hazard, hazard_of};
use am_nflog::MeshEntry;
use am_silence::MeshSilence;
use am_version_order::Version;
use std::alloc::{AllocError, Global};

/// A version that may be handed to an Alertmanager if it has no hazard: an Alertmanager takes whatever comes by gossip, and
/// doesn't validate it.
pub trait Candidate: Version {
    /// The relation between a version and its hazard, or none.
    ghost is_hazard: { Self → Option Hazard → Type 0 };

    /// Returns the hazard of the version, if it has one.
    ///
    /// # Errors
    ///
    /// [`AllocError`] if memory runs out.
    fn hazard(&self, alloc: Global) -> Result<Option<Hazard>, AllocError>
        ensures { IfOk result (is_hazard self.now) };
}

impl Candidate for MeshSilence {
    ghost use Rattle.am_matcher.specs.Hazards.{IsHazard};

    ghost is_hazard = { λ m. IsHazard m.silence.matchers };

    fn hazard(&self, alloc: Global) -> Result<Option<Hazard>, AllocError> {
        hazard_of(alloc, self)
    }
}

impl Candidate for MeshEntry {
    ghost use Rattle.std.specs.Prelude.{◌≡◌, None};

    ghost is_hazard = { λ _ found. found ≡ None };

    /// Returns no hazard: nothing in an entry is compiled or matched.
    fn hazard(&self, _alloc: Global) -> Result<Option<Hazard>, AllocError> {
        Ok(None)
    }
}
