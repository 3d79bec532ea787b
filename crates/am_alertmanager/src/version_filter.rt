//! The choice of versions that go from one side to the other.

ghost use Rattle.std.specs.Prelude.{◌≡◌, IfOk, OnErr};
ghost use Rattle.am_alertmanager.specs.VersionFilters.{IsHanded, Passes, Withholds, WithholdsBy};

use crate::candidate::Candidate;
use crate::given::is_given;
use crate::mending::is_lacked;
use crate::tally::{FilterTally, Withheld};
use am_merge::Held;
use am_version_order::{Moment, Version};
use std::alloc::{AllocError, Global};

/// The condition by which versions pass, given what the other side holds.
#[derive(Clone, Copy)]
pub enum VersionFilter<'a, V: Version> {
    /// Versions that this map, a member's, lacks.
    Lacked(&'a Held<V>),
    /// Versions without a hazard that a replica with these versions is given at a moment.
    Given(&'a Held<V>, Moment),
}

impl<V: Candidate> VersionFilter<'_, V>
where
    V::Key: Drop,
{
    /// Returns whether a version passes. A hazard is looked for only in a version that the replica would be given; one with a
    /// hazard is recorded in the tally.
    ///
    /// # Errors
    ///
    /// [`AllocError`] if memory runs out; nothing is recorded then.
    pub fn passes(
        &self,
        alloc: Global,
        version: &V,
        tally: &mut FilterTally<V::Key>,
    ) -> Result<bool, AllocError>
        ensures passes { IfOk result (Passes V.seen V.Key.cmp V.is_hazard self.now version.now) }
        // PROMISE: A version that isn't handed to a replica for its hazard is noted with it, and no other one.
        ensures noted { IfOk result (λ _. Withholds V.seen V.Key.cmp V.is_hazard self.now version.now tally.old.withheld.items tally.new.withheld.items) }
        ensures unnoted { OnErr result (tally.new.withheld.items ≡ tally.old.withheld.items) }
        ensures passed { tally.new.passed ≡ tally.old.passed }
    {
        match self {
            VersionFilter::Lacked(held) => Ok(is_lacked(held, version)),
            VersionFilter::Given(held, now) => is_handed(alloc, held, version, *now, tally),
        }
    }
}

/// Returns whether a replica that holds these versions is given a version at a moment, and the version has no hazard. A version
/// that only its hazard keeps from the replica is recorded in the tally.
fn is_handed<V: Candidate>(
    alloc: Global,
    held: &Held<V>,
    version: &V,
    now: Moment,
    tally: &mut FilterTally<V::Key>,
) -> Result<bool, AllocError>
where
    V::Key: Drop,
    ensures handed { IfOk result (IsHanded V.seen V.Key.cmp V.is_hazard now held.now version.now) }
    ensures noted { IfOk result (λ _. WithholdsBy V.seen V.Key.cmp V.is_hazard now held.now version.now tally.old.withheld.items tally.new.withheld.items) }
    ensures unnoted { OnErr result (tally.new.withheld.items ≡ tally.old.withheld.items) }
    ensures passed { tally.new.passed ≡ tally.old.passed }
{
    if !is_given(held, version, now) {
        return Ok(false);
    }
    match version.hazard(alloc)? {
        None => Ok(true),
        Some(hazard) => {
            let key = version.try_key(alloc)?;
            let updated = version.updated();
            tally.withheld.push(Withheld {
                key,
                updated,
                hazard,
            })?;
            Ok(false)
        }
    }
}
