//! The figures of the Alertmanagers beside a member.

use crate::counters::Counters;
use crate::words::{CounterLabel, WithheldBy};
use std::alloc::{AllocError, Global};

/// The figures of the Alertmanagers beside a member, by their places among the members.
#[derive(Drop)]
pub struct AlertmanagerCounts {
    /// The number of versions that each lacked at the last exchange.
    pub lacked: Counters,
    /// The number of times a silence was withheld from each, by cause.
    withheld: Counters,
}

/// Returns the place of the counter for an Alertmanager and a cause.
fn counter_of(place: usize, cause: WithheldBy) -> usize {
    let first = place.saturating_mul(WithheldBy::ALL.len());
    first.saturating_add(cause.place())
}

impl AlertmanagerCounts {
    /// Creates the figures of `members` members, all at 0.
    ///
    /// # Errors
    ///
    /// Returns [`AllocError`] if memory runs out.
    pub fn new(alloc: Global, members: usize) -> Result<AlertmanagerCounts, AllocError> {
        let causes = members.saturating_mul(WithheldBy::ALL.len());
        Ok(AlertmanagerCounts {
            lacked: Counters::new(alloc, members)?,
            withheld: Counters::new(alloc, causes)?,
        })
    }

    /// Notes the number of versions that the Alertmanager at a place lacked at an exchange.
    pub fn lack(&mut self, place: usize, count: u64) {
        let _ = self.lacked.clear(place);
        self.lacked.add(place, count);
    }

    /// Counts a silence withheld from the Alertmanager at a place.
    pub fn withhold(&mut self, place: usize, cause: WithheldBy) {
        self.withheld.add(counter_of(place, cause), 1);
    }

    /// Returns the number of times a silence was withheld from the Alertmanager at a place.
    pub fn all_withheld(&self, place: usize) -> u64 {
        let mut count: u64 = 0;
        for cause in WithheldBy::ALL {
            count = count.saturating_add(self.withheld(place, *cause));
        }
        count
    }

    /// Returns the number of times a silence was withheld from the Alertmanager at a place, for one cause.
    pub fn withheld(&self, place: usize, cause: WithheldBy) -> u64 {
        self.withheld.get(counter_of(place, cause))
    }
}
