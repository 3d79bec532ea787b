//! Clusters, and the player of schedules.

use crate::samples::{at, held, holds, peers, second};
use crate::schedule::{TEXT, step_of};
use am_gossip::Frame;
use am_instance::{ConfigError, Place, Reply};
use am_merge::Held;
use am_replay::{
    CalmReport, Cluster, ClusterError, Flight, ReplayError, SettleError, run, write_view,
};
use am_schedule::{Step, parse};
use am_snapshot::SnapshotError;
use am_version_order::Moment;
use am_wire::Text;
use std::alloc::Global;

/// Calls everything public of am_replay.
pub fn calls(alloc: Global) -> Option<()> {
    views(alloc)?;
    runs(alloc)?;
    let mut cluster = cluster(alloc)?;
    tells(&cluster)?;
    settles(&mut cluster)?;
    steps(alloc, &mut cluster)?;
    holds(number_of(ClusterError::NoFrame) == 1)
}

fn views(alloc: Global) -> Option<()> {
    let silences = held(alloc)?;
    let log = Held::new(alloc);
    let mut out: Vec<u8> = Vec::new(alloc);
    let written: Result<u64, SnapshotError> = write_view(
        alloc,
        &silences,
        &log,
        None,
        at(10),
        &mut out,
    );
    holds(written.ok()? == out.len() as u64)
}

fn runs(alloc: Global) -> Option<()> {
    let mut input: &[u8] = TEXT.as_bytes();
    let mut out: Vec<u8> = Vec::new(alloc);
    let played: Result<(), ReplayError> = run::<&[u8], Vec<u8>>(alloc, &mut input, &mut out);
    match played {
        Ok(()) => holds(!out.is_empty()),
        Err(error) => holds(place_in(error) == 0),
    }
}

/// Returns the number that an error of a replay has, or 0 if it has none.
fn place_in(error: ReplayError) -> u64 {
    match error {
        ReplayError::Read { at } => at as u64,
        ReplayError::Schedule(error) => error.line,
        ReplayError::TooLarge => 0,
        ReplayError::Memory { line } => line,
        ReplayError::Write { written } => written,
    }
}

fn cluster(alloc: Global) -> Option<Cluster> {
    let names: Vec<Text> = peers(alloc)?;
    let cluster: Result<Cluster, ConfigError> = Cluster::new(alloc, names, second()?, second()?);
    cluster.ok()
}

fn tells(cluster: &Cluster) -> Option<()> {
    let place: Place = 0;
    let report: CalmReport = cluster.calm(place);
    let CalmReport { calm, first_fault } = report;
    let (calm, first_fault): (bool, Option<u64>) = (calm, first_fault);
    let timely: bool = cluster.timely(second()?, second()?);
    let flights: &[Flight] = cluster.in_flight();
    holds(calm && first_fault.is_none() && timely && flights.iter().all(is_to_another))
}

fn is_to_another(flight: &Flight) -> bool {
    let number: u64 = flight.number;
    let _sent: Moment = flight.sent;
    let _frame: &Frame = &flight.frame;
    let (sender, addressee): (Place, Place) = (flight.sender, flight.addressee);
    number > 0 && sender != addressee
}

fn settles(cluster: &mut Cluster) -> Option<()> {
    let settled: Result<(), SettleError> = cluster.settle(at(10), 1u64);
    match settled {
        Ok(()) => Some(()),
        Err(SettleError::Stopped | SettleError::MomentBack | SettleError::Memory) => None,
    }
}

fn steps(alloc: Global, cluster: &mut Cluster) -> Option<()> {
    let schedule = parse(alloc, b"cluster 1 1 b\nat 11 b show\n").ok()?;
    let (line, number) = schedule.lines.as_slice().first()?;
    let step: &Step = step_of(line)?;
    let reply: Result<Reply, ClusterError> = cluster.step(step, *number);
    holds(matches!(reply, Ok(Reply::Shown { .. })))
}

fn number_of(error: ClusterError) -> usize {
    match error {
        ClusterError::NoFrame => 1,
        ClusterError::Running => 2,
        ClusterError::Stopped => 3,
        ClusterError::MomentBack { last: _ } => 4,
        ClusterError::UnknownPeer => 5,
        ClusterError::Memory => 6,
    }
}
