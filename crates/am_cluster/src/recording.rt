//! Records of the answers of instances.

ghost use Rattle.std.specs.Prelude.{◌≡◌, ◌⊎◌, ◌<◌, ◌++◌, ℕ, List, [], false, length, map, take, Ok, Err, OnErr, OnOk};
ghost use Rattle.am_cluster.specs.Contents.{delivery_of, entries_in, silences_in};
ghost use Rattle.am_instance.specs.declared.event.Event.{Event};
ghost use Rattle.am_instance.specs.Replies.{IsNothing, listed};
ghost use Rattle.am_instance.specs.Steps.{collects, made_here};
ghost use Rattle.am_runs.specs.Steps.{flights_of};
ghost use Rattle.am_cluster.specs.Events.{drops};
ghost use Rattle.am_cluster.specs.Worlds.{sent_on};
ghost use Rattle.am_cluster.specs.Writing.{CanWrite, IsWritten};
ghost use Rattle.am_cluster.specs.Recording.{AreDelivered, CanRecord, ComesWith, IsRecorded, IsRoomFor, brings_or_makes, kind_of};
ghost use Rattle.am_cluster.specs.declared.flight.Flight.{Flight};
ghost use Rattle.am_cluster.specs.declared.recording.Kind.TheVariants as kinds;

use crate::carried::{AnyVersion, SplitVersions};
use crate::error::ClusterError;
use crate::flight::Flight;
use crate::journal::{Journal, Mark};
use crate::writing::{Delivered, Entry, write_event, write_silent};
use am_gossip::Frame;
use am_instance::{Event, Made, Outcome, Place, Reply, StepError, Unsent};
use am_nflog::MeshEntry;
use am_runs::DeliverySource;
use std::alloc::{AllocError, Global};

/// The kind of an event, depending on the versions that it removes, brings or makes.
#[derive(Clone, Copy)]
pub(crate) enum Kind {
    /// The event removes the versions that aren't live.
    Collects,
    /// The event is a frame that brings versions.
    Brings,
    /// The event may make versions at this member.
    Makes,
}

pub(crate) fn kind_of(event: &Event) -> Kind
    ensures { result ≡ kind_of event.now }
{
    match event {
        Event::Tick => Kind::Collects,
        Event::Frame {
            frame: Frame::Tick,
            ..
        } => Kind::Collects,
        Event::Frame { .. } => Kind::Brings,
        _ => Kind::Makes,
    }
}

/// Returns the first `count` versions that came, by state.
fn first_brought(parted: SplitVersions, versions: Vec<AnyVersion>, count: usize) -> Delivered
    requires { IsRoomFor parted (length versions.items) }
    ensures silences { result.silences.items ≡ silences_in (take count (map delivery_of versions.items)) }
    ensures log { result.log.items ≡ entries_in (take count (map delivery_of versions.items)) }
{
    let mut parted = parted;
    parted.put_first(versions, count);
    let (silences, log) = parted.into_parts();
    Delivered { silences, log }
}

/// Returns the entry that was made, if there is one.
fn entry_made(parted: SplitVersions, log: Option<MeshEntry>) -> Vec<MeshEntry>
    requires { (count : ℕ) × IsRoomFor parted count }
    ensures { result.items ≡ listed log }
{
    let mut parted = parted;
    match log {
        Some(entry) => {
            parted.put(AnyVersion::Entry(entry));
            parted.into_parts().1
        }
        None => parted.into_parts().1,
    }
}

/// Returns the versions that were made, by state.
fn all_made(parted: SplitVersions, made: Made) -> Delivered
    requires { (count : ℕ) × IsRoomFor parted count }
    ensures silences { result.silences.items ≡ silences_in (made_here made) }
    ensures log { result.log.items ≡ entries_in (made_here made) }
{
    let Made { silences, log } = made;
    let log = entry_made(parted, log);
    Delivered { silences, log }
}

/// Records an event that delivered these versions, and sends its frames, unless there was no memory for one of them.
fn write_sent(
    alloc: Global,
    journal: &mut Journal,
    flights: &mut Vec<Flight>,
    entry: &Entry,
    versions: Delivered,
    sent: (Vec<(Place, Frame)>, Unsent),
) -> Result<(), AllocError>
    requires sent { CanWrite journal.old entry.now versions sent.0.items }
    requires silent { CanWrite journal.old entry.now versions [] }
    ensures sent { OnOk result (IsWritten journal.old entry.now versions sent.0.items journal.new) }
    ensures flights { OnOk result (flights.new.items
        ≡ flights.old.items ++ sent_on (length (flights_of journal.old.silences)) entry.now.place entry.now.moment sent.0.items) }
    ensures all { OnOk result (sent.1.memory ≡ 0) }
    ensures silent { OnErr result (IsWritten journal.old entry.now versions [] journal.new) }
    ensures grounded { OnErr result (flights.new.items ≡ flights.old.items) }
    ensures some { OnErr result ((0 < sent.1.memory) ⊎ (0 < length sent.0.items)) }
{
    let (frames, unsent) = sent;
    if unsent.memory > 0 {
        write_silent(alloc, journal, entry, versions);
        return Err(AllocError);
    }
    write_event(alloc, journal, flights, entry, versions, frames)
}

/// The versions that came with an event, and the room to split them by state.
#[derive(Drop)]
pub(crate) struct PendingDelivery {
    pub kind: Kind,
    pub versions: Vec<AnyVersion>,
    pub parted: SplitVersions,
}

/// Returns all versions that an event delivered, by state: those that it brought, or those that were made.
fn all_delivered(coming: PendingDelivery, made: Made) -> Delivered
    requires { IsRoomFor coming.parted (length coming.versions.items) }
    ensures { (event : Event) → ComesWith coming event → (brings_or_makes event ≡ kinds.Brings → IsNothing made) →
        collects event ≡ false → AreDelivered event made result }
{
    let PendingDelivery {
        kind,
        versions,
        parted,
    } = coming;
    match kind {
        Kind::Brings => {
            let count = versions.len();
            first_brought(parted, versions, count)
        }
        Kind::Collects | Kind::Makes => all_made(parted, made),
    }
}

/// Returns whether the frames of a step are dropped, as they are if a member takes the maps of another one.
fn drops(source: DeliverySource) -> bool
    ensures { result ≡ drops source }
{
    matches!(source, DeliverySource::Lent { .. })
}

/// Records an event that was answered.
fn write_outcome(
    alloc: Global,
    journal: &mut Journal,
    flights: &mut Vec<Flight>,
    entry: &Entry,
    coming: PendingDelivery,
    outcome: Outcome,
) -> Result<Reply, ClusterError>
    requires { IsRoomFor coming.parted (length coming.versions.items)
        × (event : Event) × ComesWith coming event × CanRecord journal.old entry.now event (Ok outcome) }
    ensures { (event : Event) → ComesWith coming event → CanRecord journal.old entry.now event (Ok outcome) →
        IsRecorded journal.old flights.old.items entry.now event (Ok outcome) result journal.new flights.new.items }
{
    let Outcome {
        reply,
        frames,
        unsent,
        made,
    } = outcome;
    if let Kind::Collects = coming.kind {
        let mark = Mark::Ticked {
            place: entry.place,
            now: entry.moment,
        };
        journal.mark(mark, entry.line);
        return Ok(reply);
    }
    let delivered = all_delivered(coming, made);
    if drops(entry.source) {
        write_silent(alloc, journal, entry, delivered);
        return Ok(reply);
    }
    write_sent(alloc, journal, flights, entry, delivered, (frames, unsent))?;
    Ok(reply)
}

/// Records an event for which memory ran out.
fn write_refusal(
    alloc: Global,
    journal: &mut Journal,
    entry: &Entry,
    coming: PendingDelivery,
    error: StepError,
) -> ClusterError
    requires { IsRoomFor coming.parted (length coming.versions.items)
        × (event : Event) × ComesWith coming event × CanRecord journal.old entry.now event (Err error) }
    ensures { (flights : List Flight) (event : Event) → ComesWith coming event →
        CanRecord journal.old entry.now event (Err error) →
        IsRecorded journal.old flights entry.now event (Err error) (Err result) journal.new flights }
{
    match error {
        StepError::Memory { taken } => {
            let delivered = first_brought(coming.parted, coming.versions, taken);
            write_silent(alloc, journal, entry, delivered);
            ClusterError::Memory
        }
        StepError::MomentBack { .. } => unreachable!(),
        StepError::UnknownPeer => unreachable!(),
        StepError::Frame(_) => unreachable!(),
    }
}

/// Records the answer of an instance to an event, sends the frames, and returns the answer of the cluster.
pub(crate) fn write_answer(
    alloc: Global,
    journal: &mut Journal,
    flights: &mut Vec<Flight>,
    entry: &Entry,
    coming: PendingDelivery,
    answer: Result<Outcome, StepError>,
) -> Result<Reply, ClusterError>
    requires { IsRoomFor coming.parted (length coming.versions.items)
        × (event : Event) × ComesWith coming event × CanRecord journal.old entry.now event answer }
    ensures { (event : Event) → ComesWith coming event → CanRecord journal.old entry.now event answer →
        IsRecorded journal.old flights.old.items entry.now event answer result journal.new flights.new.items }
{
    match answer {
        Ok(outcome) => write_outcome(alloc, journal, flights, entry, coming, outcome),
        Err(error) => Err(write_refusal(alloc, journal, entry, coming, error)),
    }
}
