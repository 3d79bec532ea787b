//! The interval at which a notification is repeated.

ghost use Rattle.std.specs.Prelude.{◌≡◌, ◌*◌, ◌≤◌};

use am_version_order::Interval;

/// The number of seconds after which a notification is repeated: 1 to 9,223,372,036, since an interval has fewer than 2^63
/// nanoseconds.
#[derive(Clone, Copy)]
pub struct Repeat {
    pub seconds: u64,
    pub ghost in_range: { (1 ≤ seconds) × (seconds ≤ 9_223_372_036) },
}

impl Repeat {
    /// Returns the interval.
    pub fn interval(self) -> Interval
        ensures { result ≡ self.seconds * 1_000_000_000 }
    {
        Interval::from_seconds(self.seconds).unwrap()
    }
}
