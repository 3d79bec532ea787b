//! The events of lines about groups of alerts.

ghost use Rattle.std.specs.Prelude.{◌≡◌, IfOk};
ghost use Rattle.am_cluster.specs.LineEvents.{IsFaultless, notified, decide};

use crate::texts::{bytes_of, hashes_of, receiver_of};
use am_instance::Event;
use am_schedule::GroupLine;
use std::alloc::{AllocError, Global};

/// Returns the event that a group is notified.
pub(crate) fn notified(alloc: Global, group: &GroupLine) -> Result<Event, AllocError>
    ensures event { IfOk result (λ event. event ≡ notified group.now) }
    ensures sound { IfOk result IsFaultless }
{
    Ok(Event::Notified {
        group_key: bytes_of(alloc, &group.group)?,
        receiver: receiver_of(alloc, &group.receiver)?,
        firing: hashes_of(alloc, &group.firing)?,
        resolved: hashes_of(alloc, &group.resolved)?,
        repeat: group.repeat,
    })
}

/// Returns the event that asks whether a group is to be notified.
pub(crate) fn decide(
    alloc: Global,
    group: &GroupLine,
    resolved_wanted: bool,
) -> Result<Event, AllocError>
    ensures { IfOk result (λ event. event ≡ decide group.now resolved_wanted) }
{
    Ok(Event::Decide {
        group_key: bytes_of(alloc, &group.group)?,
        receiver: receiver_of(alloc, &group.receiver)?,
        firing: hashes_of(alloc, &group.firing)?,
        resolved: hashes_of(alloc, &group.resolved)?,
        repeat: group.repeat,
        send_resolved: resolved_wanted,
    })
}
