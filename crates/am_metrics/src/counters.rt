//! Counters, one for each of a few things.

use std::alloc::{AllocError, Global};

/// Counters, one for each of a few things, by place.
#[derive(Drop)]
pub struct Counters {
    counts: Vec<u64>,
}

impl Counters {
    /// Creates counters that are all at 0.
    ///
    /// # Errors
    ///
    /// Returns [`AllocError`] if memory runs out.
    pub fn new(alloc: Global, count: usize) -> Result<Counters, AllocError> {
        let mut counts = Vec::with_capacity(alloc, count)?;
        for _ in 0..count {
            counts.push(0)?;
        }
        Ok(Counters { counts })
    }

    /// Adds to the counter at a place. It stops at the greatest number, and a place without a counter is ignored.
    pub fn add(&mut self, place: usize, more: u64) {
        if let Some(count) = self.counts.get_mut(place) {
            *count = count.saturating_add(more);
        }
    }

    /// Returns the counter at a place, or 0 if there is none.
    pub fn get(&self, place: usize) -> u64 {
        self.counts.get(place).copied().unwrap_or(0)
    }

    /// Resets the counter at a place to 0 and returns its last value.
    pub fn clear(&mut self, place: usize) -> u64 {
        match self.counts.get_mut(place) {
            Some(count) => std::mem::replace(count, 0),
            None => 0,
        }
    }
}
