//! Frames in flight.

ghost use Rattle.std.specs.Prelude.{◌≡◌, ◌++◌, OnOk, string_bytes};
ghost use Rattle.std.specs.List.{flat_map};
ghost use Rattle.am_replay.specs.Texts.{flight_text, name_at};

use crate::line::OutputLine;
use crate::output::tell;
use am_cluster::{Cluster, Flight};
use am_instance::Place;
use std::alloc::AllocError;

/// Returns the name of the member at a place. There must be such a member.
fn name_at(cluster: &Cluster, place: Place) -> &str
    ensures { result.now ≡ name_at cluster.now place }
{
    let Some(instance) = cluster.instance(0) else {
        return "";
    };
    match instance.config().members().get(place as usize) {
        Some(name) => name.as_str(),
        None => "",
    }
}

/// Appends the line of a frame in flight.
#[tactic(auto, unfolding(crate::specs::Printed::line_text))]
fn tell_flight(out: &mut String, cluster: &Cluster, flight: &Flight) -> Result<(), AllocError>
    ensures { OnOk result (string_bytes out.new ≡ string_bytes out.old ++ flight_text cluster.now flight.now) }
{
    let line = OutputLine::Frame {
        number: flight.number,
        sender: name_at(cluster, flight.sender),
        addressee: name_at(cluster, flight.addressee),
        kind: flight.frame.kind(),
    };
    tell(out, &line)
}

/// Appends the lines of all frames in flight, in the order of their numbers.
pub fn tell_flights(out: &mut String, cluster: &Cluster) -> Result<(), AllocError>
    ensures { OnOk result (string_bytes out.new ≡ string_bytes out.old ++ flat_map (flight_text cluster.now) cluster.now.flights) }
{
    for flight in cluster.in_flight() {
        tell_flight(out, cluster, flight)?;
    }
    Ok(())
}
