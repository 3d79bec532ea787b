//! Sums of a moment and an interval, compared with moments.

ghost use Rattle.std.specs.Prelude.{◌≡◌, ◌+◌, ◌≤◌, ◌<◌, nat_le};
ghost use Rattle.am_version_order.specs.Moments.{greatest};

use am_version_order::{Interval, Moment};

/// States that a moment is at most the last one.
fn lies_in_range(moment: Moment)
    ensures { moment ≤ greatest }
{
    let _parts = moment.parts();
}

/// States that an interval is not empty.
pub fn is_some_time(interval: Interval)
    ensures { 0 < interval }
{
    let _sum = Moment::LEAST.checked_add(interval);
}

/// Returns whether a start plus an interval is at most this moment.
pub fn ends_by(start: Moment, interval: Interval, moment: Moment) -> bool
    ensures { result ≡ nat_le (start + interval) moment }
{
    lies_in_range(moment);
    match start.checked_add(interval) {
        Some(end) => end <= moment,
        None => false,
    }
}

/// Returns whether a moment is at most a start plus an interval.
pub fn is_within(moment: Moment, start: Moment, interval: Interval) -> bool
    ensures { result ≡ nat_le moment (start + interval) }
{
    lies_in_range(moment);
    match start.checked_add(interval) {
        Some(end) => moment <= end,
        None => true,
    }
}

/// Returns whether a start plus two intervals is at most this moment.
pub fn both_end_by(start: Moment, first: Interval, second: Interval, moment: Moment) -> bool
    ensures { result ≡ nat_le ((start + first) + second) moment }
{
    lies_in_range(moment);
    match start.checked_add(first) {
        Some(middle) => ends_by(middle, second, moment),
        None => false,
    }
}
