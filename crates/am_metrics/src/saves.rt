//! The counts of a state's saves.

use std::time::{Duration, Instant};

/// The counts of a state's saves.
#[derive(Clone, Copy)]
pub struct Save {
    /// The beginning of the save under way, if there is one.
    begun: Option<Instant>,
    /// The moment when the last save was done, as the time since 1970; 0 before the first.
    pub done: Duration,
    /// The time that the last save took.
    pub took: Duration,
    /// The number of saves that were done.
    pub count: u64,
    /// The number of saves that failed.
    pub failed: u64,
}

impl Save {
    /// Returns the counts before the first save.
    pub fn none() -> Save {
        Save {
            begun: None,
            done: Duration::ZERO,
            took: Duration::ZERO,
            count: 0,
            failed: 0,
        }
    }

    /// Notes the beginning of a save.
    pub fn begin(&mut self, now: Option<Instant>) {
        self.begun = now;
    }

    /// Notes the end of a save.
    pub fn end(&mut self, now: Option<Instant>, since_1970: Duration) {
        if let (Some(begun), Some(now)) = (self.begun, now) {
            self.took = now.saturating_duration_since(begun);
        }
        self.begun = None;
        self.done = since_1970;
        self.count = self.count.saturating_add(1);
    }

    /// Counts a failed save.
    pub fn fail(&mut self) {
        self.begun = None;
        self.failed = self.failed.saturating_add(1);
    }
}
