//! The frames of a step, as they are recorded and as they are in flight.

ghost use Rattle.std.specs.Prelude.{◌≡◌, ◌+◌, ◌-◌, ◌++◌, ◌≤◌, map, length, vec_capacity, vec_len, IfOk};
ghost use Rattle.am_wire.specs.declared.unknown.Unknown.TheVariants.{Drop};
ghost use Rattle.am_cluster.specs.BothStates.{log_state, silence_state};
ghost use Rattle.am_cluster.specs.Contents.{carries, entries_in, silences_in};
ghost use Rattle.am_cluster.specs.Recorded.{sent_in};
ghost use Rattle.am_cluster.specs.Worlds.{sent_on};

use crate::carried::{SplitVersions, versions_in_frame};
use crate::flight::Flight;
use am_gossip::Frame;
use am_instance::Place;
use am_nflog::MeshEntry;
use am_silence::MeshSilence;
use am_version_order::Moment;
use am_wire::Unknown;
use std::alloc::{AllocError, Global};

/// The versions in each of several frames, by state.
#[derive(Drop)]
pub(crate) struct Sent {
    pub silences: Vec<Vec<MeshSilence>>,
    pub log: Vec<Vec<MeshEntry>>,
}

/// Returns the versions in a frame, by state.
fn versions_in(
    alloc: Global,
    frame: &Frame,
) -> Result<(Vec<MeshSilence>, Vec<MeshEntry>), AllocError>
    ensures silences { IfOk result (λ parts. parts.0.items ≡ silences_in (carries Drop frame.now)) }
    ensures log { IfOk result (λ parts. parts.1.items ≡ entries_in (carries Drop frame.now)) }
{
    let versions = versions_in_frame(alloc, Unknown::Drop, frame)?;
    let count = versions.len();
    let mut parted = SplitVersions::with_room(alloc, count)?;
    parted.put_first(versions, count);
    Ok(parted.into_parts())
}

/// Returns the versions in each of the frames, by state.
///
/// # Errors
///
/// [`AllocError`] if memory runs out.
pub(crate) fn sent_in(alloc: Global, frames: &[(Place, Frame)]) -> Result<Sent, AllocError>
    ensures silences { IfOk result (λ sent. map (λ frame. frame.items) sent.silences.items ≡ sent_in silence_state Drop frames.now) }
    ensures log { IfOk result (λ sent. map (λ frame. frame.items) sent.log.items ≡ sent_in log_state Drop frames.now) }
{
    let mut sent = Sent {
        silences: Vec::with_capacity(alloc, frames.len())?,
        log: Vec::with_capacity(alloc, frames.len())?,
    };
    for (_, frame) in frames {
        let (silences, log) = versions_in(alloc, frame)?;
        sent.silences.push(silences)?;
        sent.log.push(log)?;
    }
    Ok(sent)
}

/// Puts frames that a member sent in flight, with numbers that follow a count of frames. Nothing is allocated.
pub(crate) fn send_off(
    flights: &mut Vec<Flight>,
    count: usize,
    sender: usize,
    now: Moment,
    frames: Vec<(Place, Frame)>,
)
    requires room { length frames.items ≤ vec_capacity flights.old - vec_len flights.old }
    requires numbers { count + length frames.items ≤ usize.MAX }
    ensures { flights.new.items ≡ flights.old.items ++ sent_on count sender now frames.items }
{
    let mut number = count as u64;
    for (addressee, frame) in frames {
        number += 1;
        flights.push_reserved(Flight {
            number,
            sender: sender as u64,
            addressee,
            sent: now,
            frame,
        });
    }
}
