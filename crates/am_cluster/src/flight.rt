//! Frames in flight, which are found by their numbers, delivered and lost.

ghost use Rattle.std.specs.Prelude.{◌≡◌, ◌<◌, IfOk, MatchOption, Some, length, slice_get};
ghost use Rattle.am_instance.specs.declared.event.Event.TheVariants as events;
ghost use Rattle.am_instance.specs.Configs.{is_peer};
ghost use Rattle.am_cluster.specs.declared.flight.Flight.{Flight as Flown};
ghost use Rattle.am_cluster.specs.Delivering.{IsArrival, IsDelivery};
ghost use Rattle.am_cluster.specs.Lives.{OfMember};
ghost use Rattle.am_cluster.specs.Losing.{IsLoss, IsNoNumber, IsNumberedAt};
ghost use Rattle.am_cluster.specs.Refusals.{event_refusal};
ghost use Rattle.am_cluster.specs.Ties.{AreAscending};

use crate::cluster::Cluster;
use crate::error::ClusterError;
use crate::journal::Mark;
use crate::refusals::event_refusal;
use am_gossip::Frame;
use am_instance::{Event, Place, Reply};
use am_runs::DeliverySource;
use am_version_order::Moment;
use std::alloc::AllocError;

/// A frame that was sent and not lost. It stays in flight after it is delivered, and may be delivered again.
#[derive(Drop)]
pub struct Flight {
    /// The number of the frame, from 1, among all frames that were ever sent.
    pub number: u64,
    pub sender: Place,
    pub addressee: Place,
    /// The moment when the frame was sent.
    pub sent: Moment,
    pub frame: Frame,
}

/// Returns the position of the frame with a number among those in flight, which are sorted by their numbers, or `None` if
/// it isn't in flight. Nothing is allocated.
fn flight_numbered(flights: &[Flight], number: u64) -> Option<usize>
    requires { AreAscending flights.now }
    ensures { MatchOption result (IsNoNumber flights.now number) (IsNumberedAt flights.now number) }
{
    flights
        .binary_search_by_key(&number, |flight| flight.number)
        .ok()
}

impl Cluster {
    /// Removes the frame with a number from those in flight. Nothing is allocated.
    pub(crate) fn lose(&mut self, number: u64) -> Result<Reply, ClusterError>
        ensures { IsLoss self.old number result self.new }
    {
        let Some(index) = flight_numbered(&self.flights, number) else {
            return Err(ClusterError::NoFrame);
        };
        self.flights.remove(index);
        Ok(Reply::Nothing)
    }
}

/// A frame in flight that is about to be delivered.
#[derive(Clone, Copy)]
struct Arrival {
    place: usize,
    sender: Place,
    /// The index of the frame, from 0, among all frames that were ever sent.
    index: usize,
    /// The position of the frame among those in flight.
    position: usize,
}

impl Cluster {
    /// Returns the arrival of the frame with a number, or `None` if it isn't in flight. Nothing is allocated.
    fn arrival(&self, number: u64) -> Option<Arrival>
        ensures { MatchOption result (IsNoNumber self.now.flights number) (IsArrival self.now number) }
    {
        let Some(position) = flight_numbered(&self.flights, number) else {
            return None;
        };
        let flight = &self.flights[position];
        Some(Arrival {
            place: flight.addressee as usize,
            sender: flight.sender,
            index: (flight.number - 1) as usize,
            position,
        })
    }

    /// Returns the reason why the member at a place refuses a frame, or `None`. Nothing is allocated.
    fn arrival_refusal(&self, place: usize, sender: Place, now: Moment) -> Option<ClusterError>
        requires { place < length self.now.replicas }
        ensures { OfMember self.now place (λ replica. result ≡ event_refusal (is_peer replica.stand.config sender) replica now) }
    {
        let member = &self.members[place];
        let known = member.instance.config().is_peer(sender);
        event_refusal(member, known, now)
    }

    /// Returns the event that delivers a copy of the frame.
    fn event_of(&self, arrival: &Arrival) -> Result<Event, AllocError>
        requires { arrival.now.position < length self.now.flights }
        ensures { IfOk result (λ event. (flight : Flown) → slice_get self.now.flights arrival.now.position ≡ Some flight →
            event ≡ events.Frame arrival.now.sender flight.frame) }
    {
        let frame = self.flights[arrival.position].frame.try_clone(self.alloc)?;
        Ok(Event::Frame {
            sender: arrival.sender,
            frame,
        })
    }

    /// Delivers the frame with a number to its addressee. The frame stays in flight.
    pub(crate) fn deliver(
        &mut self,
        number: u64,
        now: Moment,
        line: u64,
    ) -> Result<Reply, ClusterError>
        ensures { IsDelivery self.old number now line result self.new }
    {
        let Some(arrival) = self.arrival(number) else {
            return Err(self.refuse(ClusterError::NoFrame, Mark::Refused { now }, line));
        };
        let place = arrival.place;
        if let Some(cause) = self.arrival_refusal(place, arrival.sender, now) {
            return Err(self.refuse_at(place, cause, now, line));
        }
        let event = self.event_of(&arrival)?;
        self.apply_event(
            place,
            event,
            DeliverySource::Arrived(arrival.index),
            now,
            line,
        )
    }
}
