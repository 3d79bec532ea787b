//! The records of the requests of connections and of their times, and the count of the silences by their states.

ghost use Rattle.std.specs.Prelude.{IfSome};
ghost use Rattle.am_http.specs.Sessions.{spoken};
ghost use Rattle.am_server.specs.Talks.{AsksOfMember, IsElsewhere, Owes};
ghost use Rattle.am_server.specs.Talks.Owed.{Other};

use crate::turns::is_elsewhere;
use am_api_decisions as decisions;
use am_api_silences::Read;
use am_api_status::{StatusResource, resource_of};
use am_http as silences;
use am_http::session::SessionOutput;
use am_merge::Held;
use am_metrics::{RequestLabel, SilenceCounts};
use am_silence::{MeshSilence, State};
use am_version_order::{Moment, Version};
use am_wire::Text;
use std::alloc::{AllocError, Global};
use std::time::{Duration, Instant};

/// The number of silences that are counted in a turn of the loop.
const STRETCH: usize = 8_192;

/// Returns the resource of the member itself that was asked for, if one was.
pub fn asked_of_itself(said: &SessionOutput) -> Option<StatusResource>
    ensures elsewhere { IfSome result (λ _. IsElsewhere (spoken said.now)) }
    ensures owes { IfSome result (λ _. Owes (spoken said.now) Other) }
{
    match &said.request {
        Some(read) if is_elsewhere(read) => resource_in(read),
        _ => None,
    }
}

/// Returns the resource of the member that a request names, if it names one.
fn resource_in(read: &Read) -> Option<StatusResource>
    ensures { IfSome result (λ _. AsksOfMember read.now) }
{
    match read {
        Read::Whole(request) => resource_of(&request.target),
        _ => None,
    }
}

/// Returns the kind that a request for a resource of the member itself is counted as.
fn kind_of_resource(resource: StatusResource) -> RequestLabel {
    match resource {
        StatusResource::Page => RequestLabel::Page,
        StatusResource::Healthy => RequestLabel::Healthy,
        StatusResource::Ready => RequestLabel::Ready,
        StatusResource::Status => RequestLabel::Status,
        StatusResource::Receivers => RequestLabel::Receivers,
        StatusResource::Metrics => RequestLabel::Metrics,
    }
}

/// Returns the kind that a call on decisions is counted as.
fn kind_of_decision(method: &str, target: &str) -> RequestLabel {
    match decisions::call_of(method, target) {
        Ok(decisions::DecisionCall::Decide { .. }) => RequestLabel::Decide,
        Ok(decisions::DecisionCall::Notified) => RequestLabel::Notified,
        Ok(decisions::DecisionCall::Log) => RequestLabel::Log,
        Ok(decisions::DecisionCall::Alerts) | Err(_) => RequestLabel::Other,
    }
}

/// Returns the kind that a call on silences is counted as.
fn kind_of_call(method: &str, target: &str) -> RequestLabel {
    match silences::call_of(method, target) {
        Ok(silences::Call::List { .. }) => RequestLabel::List,
        Ok(silences::Call::Get { .. }) => RequestLabel::Get,
        Ok(silences::Call::Post) => RequestLabel::Post,
        Ok(silences::Call::Delete { .. }) => RequestLabel::Delete,
        Err(_) => RequestLabel::Other,
    }
}

/// Returns the kind that a whole request is counted as.
fn kind_of(request: &silences::Request) -> RequestLabel {
    if let Some(resource) = resource_of(&request.target) {
        kind_of_resource(resource)
    } else if decisions::is_for_decisions(request) {
        kind_of_decision(&request.method, &request.target)
    } else {
        kind_of_call(&request.method, &request.target)
    }
}

/// Returns the kind of the request that was said, if one was.
pub fn request_of(said: &SessionOutput) -> Option<RequestLabel> {
    match &said.request {
        Some(Read::Whole(request)) => Some(kind_of(request)),
        Some(_) => Some(RequestLabel::Other),
        None => None,
    }
}

/// The record of a connection's request: what was asked and when, and whether its end is counted.
#[derive(Clone, Copy)]
pub struct RequestRecord {
    asked: Option<(RequestLabel, Option<Instant>)>,
    is_closed: bool,
}

impl RequestRecord {
    /// Returns the record of a connection on which nothing was asked.
    pub fn new() -> RequestRecord {
        RequestRecord {
            asked: None,
            is_closed: false,
        }
    }

    /// Notes that a request came whole, or is refused.
    pub fn ask(&mut self, request: RequestLabel, now: Option<Instant>) {
        if self.asked.is_none() {
            self.asked = Some((request, now));
        }
    }

    /// Notes that the connection ends, and returns whether that wasn't counted yet.
    pub fn close(&mut self) -> bool {
        let is_open = !self.is_closed;
        self.is_closed = true;
        is_open
    }

    /// Returns what was asked, and how long ago.
    pub fn answered(&self, now: Option<Instant>) -> Option<(RequestLabel, Duration)> {
        let (request, since) = self.asked?;
        let time = match (since, now) {
            (Some(since), Some(now)) => now.saturating_duration_since(since),
            _ => Duration::ZERO,
        };
        Some((request, time))
    }
}

/// Silences that are being counted by their states, in the order of their keys.
#[derive(Drop)]
pub struct StateCount {
    /// True if the reply has its head alone.
    pub is_bare: bool,
    /// The numbers of silences so far.
    pub counts: SilenceCounts,
    /// The key from which on silences are left, if some are counted.
    next: Option<Text>,
    is_done: bool,
}

/// Counts a silence in a state.
fn count_state(counts: &mut SilenceCounts, state: State) {
    match state {
        State::Pending => counts.pending = counts.pending.saturating_add(1),
        State::Active => counts.active = counts.active.saturating_add(1),
        State::Expired => counts.expired = counts.expired.saturating_add(1),
    }
}

impl StateCount {
    /// Begins a count with nothing counted.
    pub fn new(is_bare: bool) -> StateCount {
        StateCount {
            is_bare,
            counts: SilenceCounts {
                pending: 0,
                active: 0,
                expired: 0,
            },
            next: None,
            is_done: false,
        }
    }

    /// Returns whether all silences are counted.
    pub fn is_done(&self) -> bool {
        self.is_done
    }

    /// Counts another stretch of the silences, as they are at `now`.
    ///
    /// # Errors
    ///
    /// [`AllocError`] if memory runs out.
    pub fn resume(
        self,
        alloc: Global,
        silences: &Held<MeshSilence>,
        now: Moment,
    ) -> Result<StateCount, AllocError> {
        let left = match &self.next {
            Some(key) => silences.iter_from(key),
            None => silences.iter(),
        };
        let mut counts = self.counts;
        let mut count: usize = 0;
        for silence in left {
            if count >= STRETCH {
                return self.until(alloc, counts, silence);
            }
            count_state(&mut counts, silence.state_at(now));
            count = count.saturating_add(1);
        }
        Ok(StateCount {
            is_bare: self.is_bare,
            counts,
            next: None,
            is_done: true,
        })
    }

    /// Returns the count with these numbers so far, up to a silence.
    fn until(
        self,
        alloc: Global,
        counts: SilenceCounts,
        silence: &MeshSilence,
    ) -> Result<StateCount, AllocError> {
        let next = silence.try_key(alloc)?;
        Ok(StateCount {
            is_bare: self.is_bare,
            counts,
            next: Some(next),
            is_done: false,
        })
    }
}
