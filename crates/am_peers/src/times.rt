//! The times that a member keeps that pulls by itself, as the laws on all replicas ask for them.

ghost use Rattle.std.specs.Prelude.{◌≡◌, ◌+◌, ◌*◌, ◌≤◌, ◌↔◌, IsTrue};
ghost use Rattle.am_peers.specs.Times.{flight_time, spread_time};

/// The longest time in seconds until all members have what one of them makes, and the longest time that a frame is on its way.
#[derive(Clone, Copy, PartialEq, Eq)]
pub struct Times {
    pub spread: u64,
    pub flight: u64,
}

/// The number of seconds by which the clocks of members may differ.
pub const CLOCKS_APART: u64 = 1;

/// The number of pulls in a row that may be lost.
pub const LOST_PULLS: u64 = 2;

/// Returns the times of members that each pull from all others every `pull_every` seconds, over connections that last at most
/// `time_limit` seconds. A frame is written within that limit and read within it; what is lost comes with a later pull, which is
/// one frame there and one back.
pub fn times_of(pull_every: u32, time_limit: u32) -> Times
    ensures flight { result.flight ≡ flight_time time_limit }
    // PROMISE: The printed spread and flight time follow from the pull interval and the deadline.
    ensures spread { result.spread ≡ spread_time pull_every time_limit }
{
    let flight = 2 * u64::from(time_limit) + CLOCKS_APART;
    Times {
        spread: (LOST_PULLS + 1) * u64::from(pull_every) + 2 * flight + CLOCKS_APART,
        flight,
    }
}

impl Times {
    /// Returns whether versions that are kept for `retention` seconds are kept for as long as a timely run asks.
    pub fn are_kept(&self, retention: u64) -> bool
        ensures { IsTrue result ↔ (self.now.spread + self.now.flight ≤ retention) }
    {
        u128::from(self.spread) + u128::from(self.flight) <= u128::from(retention)
    }

    /// Returns whether entries of the log are kept for as long: for two repeat intervals of `repeat` seconds each.
    pub fn are_repeated(&self, repeat: u64) -> bool
        ensures { IsTrue result ↔ (self.now.spread + self.now.flight ≤ 2 * repeat) }
    {
        u128::from(self.spread) + u128::from(self.flight) <= 2 * u128::from(repeat)
    }
}
