//! The durations of requests.

use crate::counters::Counters;
use crate::words::{CounterLabel, RequestLabel};
use std::alloc::{AllocError, Global};
use std::time::Duration;

/// The bounds of the buckets, in milliseconds. The last bucket has none.
const BOUNDS: [u64; 9] = [1, 5, 25, 100, 250, 500, 1_000, 2_500, 5_000];

/// The bounds in seconds, as they are written.
pub const BOUND_WORDS: [&str; 10] = [
    "0.001", "0.005", "0.025", "0.1", "0.25", "0.5", "1", "2.5", "5", "+Inf",
];

/// The durations of requests, by call.
#[derive(Drop)]
pub struct RequestTimes {
    /// The number of requests in each bucket, which is that of the smallest bound that holds.
    buckets: Counters,
    /// The total duration in nanoseconds.
    sums: Counters,
}

/// Returns the place of the bucket for a duration.
fn bucket_of(time: Duration) -> usize {
    for (place, bound) in BOUNDS.iter().enumerate() {
        if time <= Duration::from_millis(*bound) {
            return place;
        }
    }
    BOUNDS.len()
}

/// Returns the place of the counter for a call and a bucket.
fn counter_of(request: RequestLabel, bucket: usize) -> usize {
    let first = request.place().saturating_mul(BOUND_WORDS.len());
    first.saturating_add(bucket)
}

impl RequestTimes {
    /// Creates the durations of no requests.
    pub fn new(alloc: Global) -> Result<RequestTimes, AllocError> {
        Ok(RequestTimes {
            buckets: Counters::new(
                alloc,
                RequestLabel::ALL.len().saturating_mul(BOUND_WORDS.len()),
            )?,
            sums: Counters::new(alloc, RequestLabel::ALL.len())?,
        })
    }

    /// Adds the duration of a request.
    pub fn add(&mut self, request: RequestLabel, time: Duration) {
        self.buckets.add(counter_of(request, bucket_of(time)), 1);
        let nanos = u64::try_from(time.as_nanos()).unwrap_or(u64::MAX);
        self.sums.add(request.place(), nanos);
    }

    /// Returns the number of requests in a bucket alone.
    pub fn bucket(&self, request: RequestLabel, bucket: usize) -> u64 {
        self.buckets.get(counter_of(request, bucket))
    }

    /// Returns the total duration of the requests of a call, in nanoseconds.
    pub fn sum(&self, request: RequestLabel) -> u64 {
        self.sums.get(request.place())
    }
}
