//! The wait of instances for one another, in turn, so that one notifies and the others see its entry.

ghost use Rattle.std.specs.Prelude.{◌+◌, ◌*◌, ◌≤◌};
ghost use Rattle.std.specs.Option.{SomeIff};
ghost use Rattle.am_version_order.specs.Moments.{greatest};

use am_version_order::{Interval, Moment};

/// Returns the moment when the instance at this position, counted from 0 among all instances in the order of their names, is
/// due: a timeout after `start` for each one before it. Returns `None` past [`Moment::GREATEST`].
pub fn due(start: Moment, position: u64, timeout: Interval) -> Option<Moment>
    ensures { SomeIff result (start + position * timeout ≤ greatest) (start + position * timeout) }
{
    start.checked_add_times(timeout, position)
}
