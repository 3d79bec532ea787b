//! The causes for which a request is refused, and their lines in the table of statuses.

ghost use Rattle.std.specs.Prelude.{◌≡◌};
ghost use Rattle.am_http.specs.Lines.{line_seen, told_to};
ghost use Rattle.am_api_decisions.specs.Lines.{allowed_at, bad_key, bad_word, line_of};

use crate::key::MessageKey;
use am_http::Refusal;

/// The resource that a path under `/v1/` names.
#[derive(Clone, Copy)]
pub enum DecisionResource {
    /// `/v1/decide`
    Decisions,
    /// `/v1/notified`
    Notices,
    /// `/v1/log`
    Entries,
    /// `/v1/alerts`
    Alerts,
}

/// A word of the query that may be at fault.
#[derive(Clone, Copy)]
pub enum QueryWord {
    Repeat,
    Resolved,
    Wait,
    Index,
}

/// The fault of a request before a step is made, in the order in which faults are tested.
#[derive(Clone, Copy)]
pub enum DecisionCause {
    /// The path names nothing.
    NoSuchPath,
    /// The resource has no such method.
    MethodNotAllowed(DecisionResource),
    /// The value of this word of the query isn't valid.
    BadQuery(QueryWord),
    /// The body is no JSON object.
    BadJson,
    /// The message in the body lacks this key, or has a wrong value for it.
    BadMessage(MessageKey),
    /// Alerts were left out of the message in the body.
    Truncated,
    /// Memory ran out.
    Memory,
}

impl DecisionResource {
    /// Returns the method of the resource, as a field `allow` names it.
    pub const fn allowed(self) -> &'static str
        ensures { result.now ≡ allowed_at self }
    {
        match self {
            DecisionResource::Decisions => "POST",
            DecisionResource::Notices => "POST",
            DecisionResource::Entries => "GET",
            DecisionResource::Alerts => "GET",
        }
    }
}

/// Returns the text for a word whose value isn't valid.
const fn bad_word(word: QueryWord) -> &'static str
    ensures { result.now ≡ bad_word word }
{
    match word {
        QueryWord::Repeat => "bad query: repeat",
        QueryWord::Resolved => "bad query: resolved",
        QueryWord::Wait => "bad query: wait",
        QueryWord::Index => "bad query: index",
    }
}

/// Returns the text for a key of a message that is missing or wrong.
const fn bad_key(key: MessageKey) -> &'static str
    ensures { result.now ≡ bad_key key }
{
    match key {
        MessageKey::GroupKey => "bad message: groupKey",
        MessageKey::Receiver => "bad message: receiver",
        MessageKey::Alerts => "bad message: alerts",
        MessageKey::Labels => "bad message: labels",
        MessageKey::Status => "bad message: status",
        MessageKey::Integration => "bad message: integration",
        MessageKey::Index => "bad message: index",
        MessageKey::Repeat => "bad message: repeat",
        MessageKey::Notify => "bad message: notify",
        MessageKey::Firing => "bad message: firing",
        MessageKey::Resolved => "bad message: resolved",
        MessageKey::DecidedAt => "bad message: decidedAt",
    }
}

impl DecisionCause {
    /// Returns the line of the table with which the request is refused.
    pub const fn refusal(self) -> Refusal
        ensures { line_seen result ≡ line_of self }
    {
        match self {
            DecisionCause::NoSuchPath => Refusal::new(404, "no such path"),
            DecisionCause::MethodNotAllowed(resource) => Refusal {
                status: 405,
                text: "method not allowed",
                allow: Some(resource.allowed()),
                is_bare: false,
            },
            DecisionCause::BadQuery(word) => Refusal::new(400, bad_word(word)),
            DecisionCause::BadJson => Refusal::new(400, "bad JSON"),
            DecisionCause::BadMessage(key) => Refusal::new(400, bad_key(key)),
            DecisionCause::Truncated => Refusal::new(400, "truncated alerts"),
            DecisionCause::Memory => Refusal::new(500, "out of memory"),
        }
    }

    /// Returns that line as a request of this method is told it.
    pub fn refusal_to(self, method: &str) -> Refusal
        ensures { line_seen result ≡ told_to method.now (line_of self) }
    {
        self.refusal().told_to(method.as_bytes())
    }
}
