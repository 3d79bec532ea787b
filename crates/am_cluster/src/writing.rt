//! Records of events.

ghost use Rattle.std.specs.Prelude.{◌≡◌, ◌+◌, ◌-◌, ◌++◌, ◌<◌, ◌≤◌, ℕ, List, [], length, map, vec_capacity, vec_len, IfOk, OnOk, OnErr};
ghost use Rattle.am_gossip.specs.declared.frame.Frame.{Frame as SentFrame};
ghost use Rattle.am_runs.specs.Records.{step_of};
ghost use Rattle.am_runs.specs.Steps.RunStep.{Took};
ghost use Rattle.am_runs.specs.Steps.{flights_of};
ghost use Rattle.am_cluster.specs.Worlds.{sent_on};
ghost use Rattle.am_cluster.specs.Writing.{AreSent, CanWrite, IsReady, IsWritten};

use crate::flight::Flight;
use crate::journal::Journal;
use crate::sending::{Sent, send_off, sent_in};
use am_gossip::Frame;
use am_instance::Place;
use am_nflog::MeshEntry;
use am_runs::{DeliverySource, RunStep};
use am_silence::MeshSilence;
use am_version_order::Moment;
use std::alloc::{AllocError, Global};

/// The member, the moment, the source of the versions and the line of an event.
#[derive(Clone, Copy)]
pub(crate) struct Entry {
    pub place: usize,
    pub moment: Moment,
    pub source: DeliverySource,
    pub line: u64,
}

/// The versions that an event delivered, by state.
#[derive(Drop)]
pub(crate) struct Delivered {
    pub silences: Vec<MeshSilence>,
    pub log: Vec<MeshEntry>,
}

/// Returns the record of an event for the versions of one state.
fn took<V>(entry: &Entry, versions: Vec<V>, frames: Vec<Vec<V>>) -> RunStep<V>
    ensures { step_of result
        ≡ Took entry.now.place entry.now.moment entry.now.source versions.items (map (λ frame. frame.items) frames.items) }
{
    RunStep::Took {
        place: entry.place,
        now: entry.moment,
        source: entry.source,
        versions,
        frames,
    }
}

/// Records an event that left these frames in flight.
fn write_with(journal: &mut Journal, entry: &Entry, versions: Delivered, sent: Sent)
    requires { IsReady journal.old entry.now versions sent }
    ensures { (frames : List (ℕ × SentFrame)) → AreSent sent frames → IsWritten journal.old entry.now versions frames journal.new }
{
    let Delivered { silences, log } = versions;
    let Sent {
        silences: sent_silences,
        log: sent_log,
    } = sent;
    let silences = took(entry, silences, sent_silences);
    let log = took(entry, log, sent_log);
    journal.append(silences, log, entry.line);
}

/// Returns the versions of no frames. Nothing is allocated.
fn nothing_sent(alloc: Global) -> Sent
    ensures { AreSent result [] }
{
    Sent {
        silences: Vec::new(alloc),
        log: Vec::new(alloc),
    }
}

/// Records an event that left no frame in flight.
pub(crate) fn write_silent(alloc: Global, journal: &mut Journal, entry: &Entry, versions: Delivered)
    requires { CanWrite journal.old entry.now versions [] }
    ensures { IsWritten journal.old entry.now versions [] journal.new }
{
    journal.is_told_of_both();
    write_with(journal, entry, versions, nothing_sent(alloc));
}

/// Makes all the room that the frames take when they are sent, and copies their versions.
///
/// # Errors
///
/// [`AllocError`] if memory runs out. Without frames, nothing is allocated.
fn make_ready(
    alloc: Global,
    journal: &Journal,
    flights: &mut Vec<Flight>,
    frames: &[(Place, Frame)],
) -> Result<Sent, AllocError>
    ensures sent { IfOk result (λ sent. AreSent sent frames.now) }
    ensures room { OnOk result (length frames.now ≤ vec_capacity flights.new - vec_len flights.new) }
    ensures numbers { OnOk result (length (flights_of journal.now.silences) + length frames.now ≤ usize.MAX) }
    ensures flights { flights.new.items ≡ flights.old.items }
    ensures some { OnErr result (0 < length frames.now) }
{
    if frames.is_empty() {
        journal.is_told_of_both();
        return Ok(nothing_sent(alloc));
    }
    journal.room_for_frames(frames.len())?;
    flights.reserve(frames.len())?;
    sent_in(alloc, frames)
}

/// Records an event, and sends its frames.
///
/// # Errors
///
/// [`AllocError`] if there is no memory for a frame. None of the frames is in flight then.
pub(crate) fn write_event(
    alloc: Global,
    journal: &mut Journal,
    flights: &mut Vec<Flight>,
    entry: &Entry,
    versions: Delivered,
    frames: Vec<(Place, Frame)>,
) -> Result<(), AllocError>
    requires sent { CanWrite journal.old entry.now versions frames.items }
    requires silent { CanWrite journal.old entry.now versions [] }
    ensures sent { OnOk result (IsWritten journal.old entry.now versions frames.items journal.new) }
    ensures flights { OnOk result (flights.new.items
        ≡ flights.old.items ++ sent_on (length (flights_of journal.old.silences)) entry.now.place entry.now.moment frames.items) }
    ensures silent { OnErr result (IsWritten journal.old entry.now versions [] journal.new) }
    ensures grounded { OnErr result (flights.new.items ≡ flights.old.items) }
    ensures some { OnErr result (0 < length frames.items) }
{
    match make_ready(alloc, journal, flights, &frames) {
        Ok(sent) => {
            let count = journal.sendings();
            write_with(journal, entry, versions, sent);
            send_off(flights, count, entry.place, entry.moment, frames);
            Ok(())
        }
        Err(error) => {
            write_silent(alloc, journal, entry, versions);
            Err(error)
        }
    }
}
