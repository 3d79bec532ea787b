//! The answers to requests.

ghost use Rattle.std.specs.Prelude.{◌≡◌};
ghost use Rattle.am_instance.specs.Sendings.{nothing_sent, sent_by};
ghost use Rattle.am_instance.specs.InstanceStates.{InstanceState};
ghost use Rattle.am_api_silences.specs.Answers.{WhenMade, IsErrorBytes, IsRefusalAnswer, IsRequestAnswer, IsStepAnswer, answer_in};
ghost use Rattle.am_api_silences.specs.Events.{IsEventIn};
ghost use Rattle.am_api_silences.specs.ReplyBuilder.{IsMadeOf, Makes};
ghost use Rattle.am_api_silences.specs.Replies.{IsSiftedBytes, Says};
ghost use Rattle.am_api_silences.specs.ListFilters.{IsParted};
ghost use Rattle.am_api_silences.specs.declared.reply_builder.ReplyBuilder.TheVariants as makings;

use crate::events::event_by;
use crate::list_filter::are_light;
use crate::replies::{ResponseBytes, no_memory, tell};
use crate::reply_builder::{ReplyBuilder, make};
use crate::table;
use am_gossip::Frame;
use am_http::{Refusal, Request};
use am_instance::{
    Event, FrameSender, Instance, Outcome, Place, Request as SilenceRequest, StepError, Unsent,
};
use am_matcher::Filter;
use am_version_order::Moment;
use std::alloc::Global;

/// The answer to a request whose reply is being made, and what its step sends.
#[derive(Drop)]
pub struct PendingAnswer {
    pub making: ReplyBuilder,
    pub outbox: FrameSender,
}

/// The whole answer to a request, and what its step sends.
#[derive(Drop)]
pub struct Answered {
    pub reply: ResponseBytes,
    /// The frames to be sent, in order, each with the place of the peer to which it goes.
    pub frames: Vec<(Place, Frame)>,
    /// The number of frames that were left out.
    pub unsent: Unsent,
}

impl PendingAnswer {
    /// Returns the whole answer: what is left of a list is judged and written.
    pub(crate) fn finish(self, alloc: Global) -> Answered
        ensures reply { IsMadeOf self.making (answer_in result).reply }
        ensures sent { (answer_in result).sent ≡ self.outbox }
    {
        let FrameSender { frames, unsent } = self.outbox;
        Answered {
            reply: self.making.finish(alloc),
            frames,
            unsent,
        }
    }
}

/// Returns an answer whose reply is whole already, and with which nothing is sent.
fn quiet(alloc: Global, reply: ResponseBytes) -> PendingAnswer
    ensures making { result.making ≡ makings.Whole reply }
    ensures sent { result.outbox ≡ nothing_sent }
{
    PendingAnswer {
        making: ReplyBuilder::Whole(reply),
        outbox: FrameSender::new(alloc),
    }
}

/// Returns the answer to a request that is refused before its step.
pub fn refuse(alloc: Global, refusal: &Refusal) -> PendingAnswer
    ensures { (stand : InstanceState) → WhenMade (λ answered. IsRefusalAnswer refusal.now stand answered stand) result }
{
    quiet(alloc, tell(alloc, Err(refusal)))
}

/// Returns the answer to a request whose step was made. A list has only those silences that pass all filters.
fn done(alloc: Global, outcome: Outcome, filters: Vec<Filter>) -> PendingAnswer
    ensures reply { Makes (Says (IsSiftedBytes filters.items outcome.reply)) result.making }
    ensures sent { result.outbox ≡ sent_by outcome }
{
    let (reply, outbox) = outcome.into_parts();
    PendingAnswer {
        making: make(alloc, reply, filters),
        outbox,
    }
}

/// Returns the answer to a request whose step was refused.
fn stopped(alloc: Global, error: StepError) -> PendingAnswer
    ensures reply { Makes (Says (IsErrorBytes error)) result.making }
    ensures sent { result.outbox ≡ nothing_sent }
{
    match error {
        StepError::MomentBack { .. } => {
            let reply = tell(alloc, Err(&table::clock_ran_back()));
            quiet(alloc, reply)
        }
        _ => quiet(alloc, ResponseBytes::Fixed(no_memory())),
    }
}

/// Returns whether an event asks for no list, or for one whose filters can be held against all silences at once.
fn is_light(instance: &Instance, event: &Event) -> bool {
    match event {
        Event::Request(SilenceRequest::List { filters }) => are_light(filters, instance),
        _ => true,
    }
}

/// Takes the filters out of an event that asks for a list, so that it asks for all silences.
fn split_filters(alloc: Global, event: Event) -> (Event, Vec<Filter>)
    ensures { IsParted event result.0 result.1.items }
{
    match event {
        Event::Request(SilenceRequest::List { filters }) => {
            let all = SilenceRequest::List {
                filters: Vec::new(alloc),
            };
            (Event::Request(all), filters)
        }
        event => (event, Vec::new(alloc)),
    }
}

/// Takes the filters out of an event that asks for a list, unless they are light: then its step applies them.
fn take_filters(alloc: Global, instance: &Instance, event: Event) -> (Event, Vec<Filter>)
    ensures { IsParted event result.0 result.1.items }
{
    if is_light(instance, &event) {
        return (event, Vec::new(alloc));
    }
    split_filters(alloc, event)
}

/// Makes the step of an event, and begins to answer it. The filters of a list that would take too long in one step are held
/// against its silences afterwards.
fn step(alloc: Global, instance: &mut Instance, event: Event, now: Moment) -> PendingAnswer
    ensures { WhenMade (λ answered. IsStepAnswer event instance.old now answered instance.new) result }
{
    let (bare, filters) = take_filters(alloc, instance, event);
    match instance.step(bare, now) {
        Ok(outcome) => done(alloc, outcome, filters),
        Err(error) => stopped(alloc, error),
    }
}

/// Returns the event that a request means at an instance, whose patterns are those of its dialect.
fn event_at(
    alloc: Global,
    instance: &Instance,
    request: &Request,
    bits: u128,
) -> Result<Event, Refusal>
    ensures { IsEventIn instance.now.config.dialect request.now bits result }
{
    let dialect = instance.config().dialect();
    event_by(alloc, dialect, instance.patterns(), request, bits)
}

/// Makes the step of a request at `now`, and begins its reply: a list is written afterwards, a stretch at a time, and so are heavy
/// filters held against it. `bits` are random: a silence that the request makes gets its identifier from them.
///
/// If no step is made, the instance is as it was, and nothing is sent. If memory runs out, the answer says so; the step may stand
/// then, and its frames are in the answer.
pub fn begin_answer(
    alloc: Global,
    instance: &mut Instance,
    request: &Request,
    bits: u128,
    now: Moment,
) -> PendingAnswer
    // PROMISE: A request is answered by one step and that step's reply, or refused with nothing changed.
    ensures { WhenMade (λ answered. IsRequestAnswer instance.old request.now bits now answered instance.new) result }
{
    match event_at(alloc, instance, request, bits) {
        Ok(event) => step(alloc, instance, event, now),
        Err(refusal) => refuse(alloc, &refusal),
    }
}

/// Answers a request by one step at `now`. `bits` are random: a silence that the request makes gets its identifier from them.
///
/// If no step is made, the instance is as it was, and nothing is sent. If memory runs out, the answer says so; the step may stand
/// then, and its frames are in the answer.
pub fn answer(
    alloc: Global,
    instance: &mut Instance,
    request: &Request,
    bits: u128,
    now: Moment,
) -> Answered
    ensures { IsRequestAnswer instance.old request.now bits now (answer_in result) instance.new }
{
    begin_answer(alloc, instance, request, bits, now).finish(alloc)
}
