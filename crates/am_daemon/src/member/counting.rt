//! The figures about those who connect to a member.

ghost use Rattle.std.specs.Prelude.{◌≡◌};
ghost use Rattle.am_server.specs.Talks.{talk_of};
ghost use Rattle.am_daemon.specs.Sending.{outlets};

use am_api_decisions::Why;
use am_backend::{Backend, Counted, place_of};
use am_dedup::Reason;
use am_http::session::SessionOutput;
use am_instance::Config;
use am_metrics::{DecisionLabel, Failing, RequestLabel, StepLabel};
use am_reactor::Failure;
use am_server::{ConnectionState, RequestRecord, request_of};

/// Returns the kind that a connection's failure is counted as.
fn failing_of(why: Failure) -> Failing {
    match why {
        Failure::Read(_) | Failure::Left => Failing::Read,
        Failure::Write(_) | Failure::Unread => Failing::Write,
        Failure::Time => Failing::Time,
        Failure::Crowded => Failing::Crowded,
        Failure::Unfinished => Failing::Unfinished,
    }
}

/// Returns the step that answers a request, if there is one.
fn step_of(request: RequestLabel) -> Option<StepLabel> {
    match request {
        RequestLabel::List => Some(StepLabel::List),
        RequestLabel::Get => Some(StepLabel::Get),
        RequestLabel::Post => Some(StepLabel::Post),
        RequestLabel::Delete => Some(StepLabel::Delete),
        RequestLabel::Notified => Some(StepLabel::Notified),
        _ => None,
    }
}

/// Returns the decision that is counted for a reason.
fn label_of(why: Why) -> DecisionLabel {
    match why {
        Why::Notify(Reason::First) => DecisionLabel::First,
        Why::Notify(Reason::NewFiring) => DecisionLabel::NewFiring,
        Why::Notify(Reason::AllResolved) => DecisionLabel::AllResolved,
        Why::Notify(Reason::NewResolved) => DecisionLabel::NewResolved,
        Why::Notify(Reason::Repeat) => DecisionLabel::Repeat,
        Why::Unjudged => DecisionLabel::Unjudged,
        Why::Skip => DecisionLabel::Skip,
        Why::Muted => DecisionLabel::Muted,
    }
}

/// Counts what was said by a peer that greeted with this name.
pub fn count_said<U: Backend>(
    backend: &mut U,
    config: &Config,
    account: &mut RequestRecord,
    name: Option<&str>,
    said: &SessionOutput,
)
    ensures { (U.store_of backend.new ≡ U.store_of backend.old) × (U.outbound backend.new ≡ U.outbound backend.old) }
{
    if let Some(request) = request_of(said) {
        account.ask(request, backend.now());
    }
    if let Some(place) = place_of(config, name) {
        backend.count(Counted::Frames(place, &said.frames));
    }
}

/// Counts a connection that failed.
pub fn count_broken<U: Backend>(backend: &mut U, account: &mut RequestRecord, why: Failure)
    ensures stays { (U.store_of backend.new ≡ U.store_of backend.old) × (U.outbound backend.new ≡ U.outbound backend.old) }
    ensures lock { U.sealed_by backend.new ≡ U.sealed_by backend.old }
{
    backend.count(Counted::Failed(failing_of(why)));
    if account.close() {
        backend.count(Counted::Ended);
    }
}

/// Counts a connection if it is done, and what it was answered.
pub fn count_where_done<U: Backend>(backend: &mut U, connection: &mut ConnectionState)
    ensures talk { talk_of connection.new ≡ talk_of connection.old }
    ensures stays { (U.store_of backend.new ≡ U.store_of backend.old) × (U.outbound backend.new ≡ U.outbound backend.old) }
    ensures lock { U.sealed_by backend.new ≡ U.sealed_by backend.old }
{
    if connection.is_done() && connection.account.close() {
        count_end(backend, &connection.account, connection.status());
    }
}

/// Counts the end of a connection now, and what it was answered.
fn count_end<U: Backend>(backend: &mut U, account: &RequestRecord, status: &[u8])
    ensures stays { (U.store_of backend.new ≡ U.store_of backend.old) × (U.outbound backend.new ≡ U.outbound backend.old) }
    ensures lock { U.sealed_by backend.new ≡ U.sealed_by backend.old }
{
    backend.count(Counted::Ended);
    let Some((request, time)) = account.answered(backend.now()) else {
        return;
    };
    backend.count(Counted::Answered(request, status, time));
    if let Some(step) = step_of(request)
        && status == b"200".as_slice()
    {
        backend.count(Counted::Steps(step, 1));
    }
}

/// Counts the step by which something was decided. Where all alerts are muted, there is none.
pub fn count_decided<U: Backend>(backend: &mut U, why: Option<Why>)
    ensures { (U.store_of backend.new ≡ U.store_of backend.old) × (U.outbound backend.new ≡ U.outbound backend.old) }
{
    if matches!(why, Some(Why::Notify(_) | Why::Unjudged | Why::Skip)) {
        backend.count(Counted::Steps(StepLabel::Decide, 1));
    }
}

/// Counts the decision that is answered, if something is decided.
pub fn count_decision<U: Backend>(backend: &mut U, why: Option<Why>)
    ensures { (U.store_of backend.new ≡ U.store_of backend.old) × (U.outbound backend.new ≡ U.outbound backend.old) }
{
    if let Some(why) = why {
        backend.count(Counted::Decided(label_of(why)));
    }
}
