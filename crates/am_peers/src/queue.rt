//! The frames that wait to be sent.

ghost use Rattle.std.specs.Prelude.{◌≡◌, IfOk};
ghost use Rattle.am_peers.specs.Queues.{frames_beside, frames_for};

use am_gossip::{Frame, Place};
use std::alloc::{AllocError, Global};

/// Frames that are split into those for one peer and those for all others.
#[derive(Drop)]
pub struct SplitQueue {
    pub own: Vec<Frame>,
    pub others: Vec<(Place, Frame)>,
}

/// Splits frames into those for a place and those for other places, each in their order.
///
/// # Errors
///
/// [`AllocError`] if memory runs out.
pub fn split_by_peer(
    alloc: Global,
    place: Place,
    frames: Vec<(Place, Frame)>,
) -> Result<SplitQueue, AllocError>
    ensures own { IfOk result (λ parted. parted.own.items ≡ frames_for place frames.items) }
    ensures others { IfOk result (λ parted. parted.others.items ≡ frames_beside place frames.items) }
{
    let mut own = Vec::new(alloc);
    let mut others = Vec::new(alloc);
    for queued in frames {
        if queued.0 == place {
            own.push(queued.1)?;
        } else {
            others.push(queued)?;
        }
    }
    Ok(SplitQueue { own, others })
}
