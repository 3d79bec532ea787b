//! The answers of a member about itself.

ghost use Rattle.am_server.specs.Talks.{Closes, KeepsGone, Rests, talk_of};

use super::links::address_of;
use super::server_state::ServerState;
use am_api_silences::Read;
use am_api_status::{
    ClusterPeer, MemberStatus, Neighbor, StatusCall, StatusResource, call_of, metrics_reply,
    not_ready, page_reply, receivers_reply, status_reply, well_reply,
};
use am_backend::Backend;
use am_http::session::SessionOutput;
use am_http::{Cause, Refusal};
use am_instance::{Config, Instance};
use am_metrics::{MemberFacts, PeerName, SilenceCounts, families};
use am_options::{VERSION, options_text};
use am_peers::{later_moment, shown_name};
use am_server::{CallProgress, ConnectionState, StateCount};
use am_silence_json::moments::write_moment;
use am_version_order::Moment;
use am_wire::Text;
use std::alloc::{AllocError, Global};
use std::net::SocketAddr;
use std::time::Duration;

/// Returns the time from one moment to a later one, or zero if the other one is earlier.
pub fn time_between(from: Moment, to: Moment) -> Duration {
    let (first, before) = from.parts();
    let (last, behind) = to.parts();
    Duration::new(last.saturating_sub(first).max(0) as u64, behind).saturating_sub(Duration::new(
        0, before,
    ))
}

/// An answer about a member.
#[derive(Drop)]
pub enum StatusAnswer {
    /// A reply, if there was memory for it.
    Reply(Result<Vec<u8>, AllocError>),
    /// A refusal.
    Refused(Refusal),
    /// The member's figures, which follow when more of the silences are counted.
    Counting(StateCount),
}

/// Answers a connection.
pub fn tell(alloc: Global, connection: &mut ConnectionState, told: StatusAnswer)
    ensures rests { Rests (talk_of connection.old) (talk_of connection.new) }
    ensures gone { KeepsGone (talk_of connection.old).saying (talk_of connection.new).saying }
{
    match told {
        StatusAnswer::Reply(reply) => connection.tell(alloc, reply),
        StatusAnswer::Refused(refusal) => connection.refuse(alloc, &refusal),
        StatusAnswer::Counting(state_count) => connection.put_off(CallProgress::Counting(
            state_count,
        )),
    }
}

/// Counts one more stretch of the silences.
fn counted_on<U: Backend>(
    backend: &U,
    alloc: Global,
    instance: &Instance,
    state_count: StateCount,
) -> Result<StateCount, AllocError> {
    let now = later_moment(backend.since_1970(), instance.last());
    state_count.resume(alloc, instance.silences(), now)
}

/// Counts all silences at once, since nothing is done in stretches now.
fn counted<U: Backend>(
    backend: &U,
    alloc: Global,
    instance: &Instance,
    state_count: StateCount,
) -> Result<StateCount, AllocError> {
    let mut state_count = state_count;
    for _ in 0..u64::MAX {
        if state_count.is_done() {
            break;
        }
        state_count = counted_on(backend, alloc, instance, state_count)?;
    }
    Ok(state_count)
}

/// Returns how far the clock is behind the moment of the last event.
fn clock_behind<U: Backend>(backend: &U, last: Moment) -> Duration {
    let now = later_moment(backend.since_1970(), Moment::LEAST);
    time_between(now, last)
}

/// Returns a moment as a text, by its nanoseconds since 1970; the text is empty if they are 0.
fn heard_text(alloc: Global, nanos: u64) -> Result<Text, AllocError> {
    if nanos == 0 {
        return Text::copied(alloc, "");
    }
    let moment = later_moment(Duration::from_nanos(nanos), Moment::LEAST);
    Text::copied(alloc, write_moment(moment).as_str())
}

/// Returns the members with a known address, by place.
fn peers_counted<'b>(
    alloc: Global,
    config: &'b Config,
    addresses: &[Option<SocketAddr>],
) -> Result<Vec<PeerName<'b>>, AllocError> {
    let mut peers = Vec::new(alloc);
    for (place, name) in config.members().iter().enumerate() {
        if address_of(addresses, place).is_some() {
            peers.push(PeerName {
                place,
                name: shown_name(name.as_str()),
            })?;
        }
    }
    Ok(peers)
}

impl<U: Backend> ServerState<'_, U> {
    /// Answers a question about the member itself. These don't wait for a first pull.
    pub(super) fn reply_about_member(
        &self,
        instance: &Instance,
        connection: &mut ConnectionState,
        said: SessionOutput,
        resource: StatusResource,
    )
        ensures closes { Closes (talk_of connection.old) (talk_of connection.new) }
        ensures gone { KeepsGone (talk_of connection.old).saying (talk_of connection.new).saying }
    {
        connection.session.stop();
        let SessionOutput { request, .. } = said;
        let Some(Read::Whole(request)) = request else {
            return;
        };
        let told = match call_of(resource, &request.method) {
            Ok(call) => self.told(instance, call),
            Err(refusal) => StatusAnswer::Refused(refusal),
        };
        tell(self.alloc, connection, told);
    }

    /// Returns the answer to a call.
    fn told(&self, instance: &Instance, call: StatusCall) -> StatusAnswer {
        let alloc = self.alloc;
        let StatusCall { resource, is_bare } = call;
        match resource {
            StatusResource::Page => StatusAnswer::Reply(page_reply(alloc, is_bare)),
            StatusResource::Healthy => StatusAnswer::Reply(well_reply(alloc, is_bare)),
            StatusResource::Ready if self.is_ready() => StatusAnswer::Reply(well_reply(
                alloc, is_bare,
            )),
            StatusResource::Ready => StatusAnswer::Refused(not_ready(is_bare)),
            StatusResource::Receivers => StatusAnswer::Reply(receivers_reply(alloc, is_bare)),
            StatusResource::Status => StatusAnswer::Reply(self.status(instance.config(), is_bare)),
            StatusResource::Metrics => self.begin_counting(instance, is_bare),
        }
    }

    /// Returns whether the member answers requests: it waits for no first pull, and doesn't stop.
    fn is_ready(&self) -> bool {
        !self.duties.waits_for_pull() && !self.stops
    }

    /// Returns a reply that says who the member is.
    fn status(&self, config: &Config, is_bare: bool) -> Result<Vec<u8>, AllocError> {
        let alloc = self.alloc;
        let options = self.backend.options();
        let session_phase = MemberStatus {
            name: Text::copied(alloc, options.name)?,
            is_ready: self.is_ready(),
            peers: self.members_shown(config)?,
            alertmanagers: self.neighbors_shown(config)?,
            options: Text::new(options_text(alloc, options)?),
            start: later_moment(self.backend.counted().start, Moment::LEAST),
            version: VERSION,
        };
        status_reply(alloc, &session_phase, is_bare)
    }

    /// Returns all members, with the addresses at which they listen.
    fn members_shown(&self, config: &Config) -> Result<Vec<ClusterPeer>, AllocError> {
        let alloc = self.alloc;
        let options = self.backend.options();
        let own = options.peers_address.unwrap_or(options.address);
        let mut peers = Vec::new(alloc);
        for (place, name) in config.members().iter().enumerate() {
            if self.is_inner(config, name.as_str()) {
                continue;
            }
            let address = address_of(&self.addresses, place).unwrap_or(own);
            peers.push(ClusterPeer {
                name: Text::copied(alloc, name.as_str())?,
                address: Text::new(format!(in alloc; "{address}")?),
            })?;
        }
        Ok(peers)
    }

    /// Returns the Alertmanagers beside the member, with the addresses at which they are asked and what came of that.
    fn neighbors_shown(&self, config: &Config) -> Result<Vec<Neighbor>, AllocError> {
        let alloc = self.alloc;
        let mut neighbors = Vec::new(alloc);
        for (place, name) in config.members().iter().enumerate() {
            if let Some(address) = address_of(&self.asked, place) {
                let name = Text::copied(alloc, shown_name(name.as_str()))?;
                neighbors.push(self.neighbor(place, name, address)?)?;
            }
        }
        Ok(neighbors)
    }

    /// Returns the Alertmanager at a place, which has this name and is asked at this address.
    fn neighbor(
        &self,
        place: usize,
        name: Text,
        address: SocketAddr,
    ) -> Result<Neighbor, AllocError> {
        let figures = self.backend.counted();
        let address = Text::new(format!(in self.alloc; "{address}")?);
        Ok(Neighbor {
            name,
            address,
            last_heard: heard_text(self.alloc, figures.heard.last(place))?,
            lacked: figures.beside.lacked.get(place),
            withheld: figures.beside.all_withheld(place),
        })
    }

    /// Begins to count the silences. During a first pull nothing that waits is done, so they are counted at once.
    fn begin_counting(&self, instance: &Instance, is_bare: bool) -> StatusAnswer {
        let state_count = StateCount::new(is_bare);
        if self.duties.waits_for_pull() {
            self.told_of(
                instance,
                counted(&self.backend, self.alloc, instance, state_count),
            )
        } else {
            StatusAnswer::Counting(state_count)
        }
    }

    /// Counts one more stretch of the silences. If none is left, the answer has the figures.
    pub(super) fn resume_count(
        &self,
        instance: &Instance,
        state_count: StateCount,
    ) -> StatusAnswer {
        self.told_of(
            instance,
            counted_on(&self.backend, self.alloc, instance, state_count),
        )
    }

    /// Returns the figures if all silences are counted; otherwise they are counted on later.
    fn told_of(
        &self,
        instance: &Instance,
        counted: Result<StateCount, AllocError>,
    ) -> StatusAnswer {
        match counted {
            Ok(state_count) if state_count.is_done() => StatusAnswer::Reply(self.figures(
                instance,
                &state_count,
            )),
            Ok(state_count) => StatusAnswer::Counting(state_count),
            Err(_) => StatusAnswer::Refused(Cause::Memory.refusal()),
        }
    }

    /// Returns the member's figures, as a reply.
    fn figures(
        &self,
        instance: &Instance,
        state_count: &StateCount,
    ) -> Result<Vec<u8>, AllocError> {
        let shown = self.shown(instance, state_count.counts)?;
        let families = families(self.alloc, self.backend.counted(), &shown)?;
        metrics_reply(self.alloc, &families, state_count.is_bare)
    }

    /// Returns what the reply says beside what the member counts.
    fn shown<'b>(
        &self,
        instance: &'b Instance,
        silences: SilenceCounts,
    ) -> Result<MemberFacts<'b>, AllocError> {
        let process = self.backend.process();
        let peers = peers_counted(self.alloc, instance.config(), &self.addresses)?;
        let beside = peers_counted(self.alloc, instance.config(), &self.asked)?;
        Ok(MemberFacts {
            version: VERSION,
            members: (peers.len() as u64).saturating_add(1),
            peers,
            beside,
            silences,
            entries: instance.log().len() as u64,
            waiting: self.turns.count(),
            behind: clock_behind(&self.backend, instance.last()),
            is_ready: self.is_ready(),
            ticks: process.ticks,
            resident: process.resident,
            files: process.files,
        })
    }
}
