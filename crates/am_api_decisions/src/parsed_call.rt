//! The questions of requests.

ghost use Rattle.std.specs.Prelude.{◌≡◌, ◌≤◌, All, IfOk, IfErr};
ghost use Rattle.am_api_decisions.specs.ParsedCalls.{AreWithin, Asks, HasFault, IsAsked, IsAskedBy, IsQuestion, IsQuestionFault, IsRefusedFor};

use crate::cause::DecisionCause;
use crate::message::WebhookMessage;
use crate::messages::{message_in, notice_in};
use crate::notice::Notice;
use crate::routes::{DecisionCall, call_of};
use crate::terms::{Terms, terms_in};
use am_http::{Refusal, Request};
use am_matcher::Label;
use std::alloc::Global;

/// The question whether a group is to be notified.
#[derive(Drop)]
pub struct Question {
    /// The alerts of the group, and their receiver.
    pub message: WebhookMessage,
    pub terms: Terms,
}

/// The question of a request.
#[derive(Drop)]
pub enum ParsedCall {
    /// The question whether a group is to be notified.
    Decide(Question),
    /// A notice to log that a group was notified.
    Notified(Notice),
    /// The live entries of the log.
    Log,
    /// The alerts of the last messages.
    Alerts,
}

impl Question {
    /// Returns the number of bytes of the longest value of a label in the alerts.
    pub fn longest_value(&self) -> usize
        ensures covers { All (λ alert. AreWithin result alert.labels) self.now.message.alerts.items }
    {
        let mut longest = 0;
        for alert in &self.message.alerts {
            longest = longest_of(longest, alert.labels.as_slice());
        }
        longest
    }

    /// Returns whether the reply waits for the member's turn.
    pub fn waits(&self) -> bool
        ensures { result ≡ self.now.terms.waits }
    {
        self.terms.waits
    }
}

/// Returns the number of bytes of the longest value of these labels, or `longest` if all are shorter.
fn longest_of(longest: usize, labels: &[Label]) -> usize
    ensures covers { AreWithin result labels.now }
    ensures least { longest ≤ result }
{
    let mut longest = longest;
    for label in labels {
        longest = longest.max(label.value.as_str().len());
    }
    longest
}

/// Reads the question in a query and a body.
fn question_in(alloc: Global, query: &str, body: &[u8]) -> Result<Question, DecisionCause>
    ensures read { IfOk result (IsQuestion query.now body.now) }
    ensures refused { IfErr result (IsQuestionFault query.now body.now) }
{
    let terms = terms_in(alloc, query)?;
    match message_in(alloc, body) {
        Ok(message) => Ok(Question { message, terms }),
        Err(cause) => Err(cause),
    }
}

/// Reads what a call with this body asks.
fn parsed_by(
    alloc: Global,
    call: DecisionCall<'_>,
    body: &[u8],
) -> Result<ParsedCall, DecisionCause>
    ensures asked { IfOk result (Asks call.entry body.now) }
    ensures refused { IfErr result (HasFault call.entry body.now) }
{
    match call {
        DecisionCall::Decide { query } => Ok(ParsedCall::Decide(question_in(alloc, query, body)?)),
        DecisionCall::Notified => Ok(ParsedCall::Notified(notice_in(alloc, body)?)),
        DecisionCall::Log => Ok(ParsedCall::Log),
        DecisionCall::Alerts => Ok(ParsedCall::Alerts),
    }
}

/// Reads what a request asks, or finds its fault.
fn parsed_in(alloc: Global, request: &Request) -> Result<ParsedCall, DecisionCause>
    ensures asked { IfOk result (IsAskedBy request.now) }
    ensures refused { IfErr result (IsRefusedFor request.now) }
{
    let call = call_of(&request.method, &request.target)?;
    let asked = parsed_by(alloc, call, &request.body)?;
    Ok(asked)
}

/// Reads what a request asks.
///
/// # Errors
///
/// The line of the first fault: of the path, the method, a word of the query or the body; or that memory ran out.
pub fn parse_call(alloc: Global, request: &Request) -> Result<ParsedCall, Refusal>
    // PROMISE: A request for a decision asks what its path, query and message say, or has its first fault.
    ensures { IsAsked request.now result }
{
    match parsed_in(alloc, request) {
        Ok(asked) => Ok(asked),
        Err(cause) => Err(cause.refusal_to(&request.method)),
    }
}
