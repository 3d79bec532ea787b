//! The tally of versions at a filter.

ghost use Rattle.std.specs.Prelude.{◌≡◌, []};

use am_matcher::Hazard;
use am_version_order::Moment;
use std::alloc::Global;

/// A version that isn't handed to a replica because it has a hazard.
#[derive(Drop)]
pub struct Withheld<K> {
    pub key: K,
    /// The moment at which the version was made.
    pub updated: Moment,
    pub hazard: Hazard,
}

/// The tally of versions at a filter: the number of those that passed, and those that were withheld.
#[derive(Drop)]
pub struct FilterTally<K> {
    pub passed: u64,
    pub withheld: Vec<Withheld<K>>,
}

impl<K: Drop> FilterTally<K> {
    /// Returns the tally before any version came.
    pub fn new(alloc: Global) -> FilterTally<K>
        ensures passed { result.passed ≡ 0 }
        ensures withheld { result.withheld.items ≡ [] }
    {
        FilterTally {
            passed: 0,
            withheld: Vec::new(alloc),
        }
    }
}
