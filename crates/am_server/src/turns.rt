//! Requests for a decision that wait for their member's turn, or until Alertmanagers have been heard.

ghost use Rattle.std.specs.Prelude.{◌≡◌, Bool, true, false, IsTrue};
ghost use Rattle.am_http.specs.Sessions.{spoken};
ghost use Rattle.am_server.specs.Talks.{AsksElsewhere, IsElsewhere};
ghost use Rattle.am_server.specs.Waiting.{due_of, request_of};

use am_api_decisions::is_for_decisions;
use am_api_silences::{Read, Request};
use am_http::session::SessionOutput;
use am_http::{Cause, call_of};
use std::time::Instant;

/// The most bytes in a body that is read as soon as its turn has come. A larger one waits for its place in the line, so that only
/// one is held in its decoded form.
const MOST_AT_ONCE: usize = 65_536;

/// The event that a request for a decision waits for.
#[derive(Clone, Copy)]
pub enum Wait {
    /// The turn of this member.
    Turn,
    /// The end of an exchange, begun in this round or later, with each Alertmanager beside the member. The request waits since
    /// `since`.
    Exchanges { round: u64, since: Instant },
}

/// A request for a decision that waits.
#[derive(Drop)]
pub struct Turn {
    request: Request,
    wait: Wait,
    /// The moment when the request waits no longer, whatever came.
    limit: Instant,
}

impl Turn {
    /// Returns a request that waits for the member's turn, which comes at `due`.
    pub fn new(request: Request, due: Instant) -> Turn
        ensures due { (are_over : Bool) → due_of result are_over ≡ due }
        ensures same { request_of result ≡ request }
    {
        Turn {
            request,
            wait: Wait::Turn,
            limit: due,
        }
    }

    /// Returns a request that waits since `since` for the exchanges of a round, but only until the limit.
    pub fn for_exchanges(request: Request, round: u64, since: Instant, limit: Instant) -> Turn
        ensures over { due_of result true ≡ since }
        ensures under_way { due_of result false ≡ limit }
        ensures same { request_of result ≡ request }
    {
        Turn {
            request,
            wait: Wait::Exchanges { round, since },
            limit,
        }
    }

    /// Returns the request, which now waits only for its place in the line, until the limit at the latest.
    pub fn into_due(self, limit: Option<Instant>) -> Due
        ensures { result.request ≡ request_of self }
    {
        let stage = match self.wait {
            Wait::Turn => TurnStage::InTurn,
            Wait::Exchanges { .. } => TurnStage::Heard,
        };
        Due {
            request: self.request,
            stage,
            limit,
        }
    }

    /// Returns the round whose exchanges the request waits for, if it does.
    pub fn round(&self) -> Option<u64> {
        match self.wait {
            Wait::Turn => None,
            Wait::Exchanges { round, .. } => Some(round),
        }
    }

    /// Returns when the request waits no longer; `are_over` says whether the exchanges of its round are over.
    pub fn due(&self, are_over: bool) -> Instant
        // PROMISE: A decision that waits for exchanges waits until they are over, or to its limit; one that waits for its turn, until that comes.
        ensures { result ≡ due_of self.now are_over }
    {
        match self.wait {
            Wait::Exchanges { since, .. } if are_over => since,
            _ => self.limit,
        }
    }

    /// Returns the number of bytes that the request keeps.
    pub fn bytes(&self) -> usize {
        bytes_of_request(&self.request)
    }
}

/// The stage of a request that is about to be answered, once its place in the line has come.
#[derive(Clone, Copy, PartialEq, Eq)]
pub enum TurnStage {
    /// The request's message isn't read yet.
    Unread,
    /// The member's turn has come.
    InTurn,
    /// The Alertmanagers beside the member have been heard, too.
    Heard,
}

/// A request of a program that sends pages, which waits for its place in the line.
#[derive(Drop)]
pub struct Due {
    pub request: Request,
    pub stage: TurnStage,
    /// The moment when the request is answered, whatever comes; without it, the request waits for as long as a connection may
    /// last.
    pub limit: Option<Instant>,
}

/// The number of requests for decisions that wait, and the maximum.
#[derive(Clone, Copy)]
pub struct Turns {
    waiting: u16,
    most: u16,
}

impl Turns {
    /// Returns a count of none waiting, with a maximum of `most`.
    pub fn new(most: u16) -> Turns {
        Turns { waiting: 0, most }
    }

    /// Counts one more request that waits, and returns `true`, unless the maximum is reached.
    pub fn begin(&mut self) -> bool {
        if self.waiting >= self.most {
            return false;
        }
        self.waiting = self.waiting.saturating_add(1);
        true
    }

    /// Returns the number of requests that wait.
    pub fn count(&self) -> u64 {
        u64::from(self.waiting)
    }

    /// Counts one request fewer.
    pub fn end(&mut self) {
        self.waiting = self.waiting.saturating_sub(1);
    }
}

/// Returns whether what was read is a whole request whose path isn't one of the API of silences.
pub fn is_elsewhere(read: &Read) -> bool
    ensures { IsTrue result → AsksElsewhere read.now }
{
    match read {
        Read::Whole(request) => matches!(
            call_of(&request.method, &request.target),
            Err(Cause::NoSuchPath)
        ),
        _ => false,
    }
}

/// Returns whether what was read is a call of a program that sends pages.
fn is_of_decisions(read: &Read) -> bool {
    match read {
        Read::Whole(request) => is_for_decisions(request),
        _ => false,
    }
}

/// Returns whether what was said is a call of a program that sends pages.
pub fn is_call(said: &SessionOutput) -> bool
    ensures { IsTrue result → IsElsewhere (spoken said.now) }
{
    match &said.request {
        Some(read) => is_elsewhere(read) && is_of_decisions(read),
        None => false,
    }
}

/// Returns the number of bytes that a request keeps.
pub fn bytes_of_request(request: &Request) -> usize {
    request.body.len().saturating_add(request.target.len())
}

/// Returns whether a request has so much to say that only one of its kind is read at a time.
pub fn is_long(request: &Request) -> bool {
    request.body.len() > MOST_AT_ONCE
}

/// Returns whether a request has so much to say that it waits for its place in the line before it is read. Those of programs that
/// send pages are put there once it is known what they ask.
pub fn is_long_post(read: &Read) -> bool {
    match read {
        Read::Whole(request) => is_long(request) && !is_for_decisions(request),
        _ => false,
    }
}

/// Returns whether a request asks for a list that may take long to make.
pub fn is_list_call(read: &Read) -> bool {
    match read {
        Read::Whole(request) => is_for_decisions(request) && request.method.as_str() == "GET",
        _ => false,
    }
}
