//! The room that is left for a state.

use am_merge::Held;
use am_snapshot::row_length_within;
use am_version_order::Version;
use std::rt::Clock;
use std::time::{Duration, Instant};

/// The least time in milliseconds between two counts of the row.
const COUNT_EVERY: u64 = 1_000;

/// The most bytes that the row of a state may have, and the most that it can have now.
#[derive(Clone, Copy)]
pub struct FileRoom {
    most: u32,
    /// The number of bytes that the row had when it was last counted.
    counted: u64,
    /// The number of bytes that have come since: the row has grown by no more.
    come: u64,
    /// The moment before which the row isn't counted anew.
    next_count: Option<Instant>,
}

impl FileRoom {
    /// Returns the room of a state that holds these versions, whose row may have at most `most` bytes.
    pub fn of<V: Version>(held: &Held<V>, most: u32) -> FileRoom {
        let mut room = FileRoom {
            most,
            counted: 0,
            come: 0,
            next_count: None,
        };
        room.count(held);
        room
    }

    /// Counts the row. Takes no memory.
    pub fn count<V: Version>(&mut self, held: &Held<V>) {
        self.is_counted(row_length_within(held, self.most).unwrap_or(u64::MAX));
    }

    /// Notes that the row has this many bytes.
    pub fn is_counted(&mut self, bytes: u64) {
        self.counted = bytes;
        self.come = 0;
    }

    /// Notes that this many bytes came.
    pub fn add(&mut self, bytes: u64) {
        self.come = self.come.saturating_add(bytes);
    }

    /// Returns whether there is room for this many more bytes.
    pub fn holds(&self, bytes: u64) -> bool {
        let had = self.counted.saturating_add(self.come);
        had.saturating_add(bytes) <= u64::from(self.most)
    }

    /// Returns whether there is room for this many more bytes. If there doesn't seem to be, the row is counted anew, once a
    /// second.
    pub fn makes<R: Clock, V: Version>(&mut self, rt: &R, held: &Held<V>, bytes: u64) -> bool {
        if self.holds(bytes) {
            return true;
        }
        if let Ok(now) = Instant::now(rt)
            && self.is_count_due(now)
        {
            self.count(held);
        }
        self.holds(bytes)
    }

    /// Returns whether the row may be counted anew. If so, it may not again before a second is over.
    pub fn is_count_due(&mut self, now: Instant) -> bool {
        if let Some(next) = self.next_count
            && now < next
        {
            return false;
        }
        self.next_count = now.checked_add(Duration::from_millis(COUNT_EVERY));
        true
    }
}
