//! The events that requests mean.

ghost use Rattle.std.specs.Prelude.{◌≡◌, IfOk, IfErr};
ghost use Rattle.am_http.specs.declared.cause.Cause.TheVariants as causes;
ghost use Rattle.am_http.specs.declared.routes.Call.TheVariants as calls;
ghost use Rattle.am_api_silences.specs.Events.{IsAsk, IsEventIn, IsEventOf, IsMeant, IsRefusedFor};
ghost use Rattle.am_matcher.specs.declared.dialect.Dialect.{Dialect};

use crate::filters::filters_in;
use am_http::{Call, Cause, Refusal, Request, call_of};
use am_instance::{Event, Request as SilenceRequest};
use am_matcher::{Dialect, PatternCache};
use am_silence_json::{BodyError, read_post};
use am_wire::Text;
use std::alloc::Global;

/// Copies an identifier.
fn identifier(alloc: Global, id: &str) -> Result<Text, Cause>
    ensures copied { IfOk result (λ copy. copy ≡ id.now) }
    ensures refused { IfErr result (λ cause. cause ≡ causes.Memory) }
{
    Text::copied(alloc, id).ok().ok_or(Cause::Memory)
}

/// Reads the post of a body.
fn post(alloc: Global, body: &[u8], bits: u128) -> Result<SilenceRequest, Cause>
    ensures { (dialect : Dialect) → IsAsk dialect calls.Post body.now bits result }
{
    match read_post(alloc, body) {
        Ok(posted) => Ok(SilenceRequest::Post { posted, bits }),
        Err(BodyError::BadJson) => Err(Cause::BadJson),
        Err(BodyError::Wrong(key)) => Err(Cause::BadSilence(key)),
        Err(BodyError::Memory) => Err(Cause::Memory),
    }
}

/// Returns what a call with this body asks of an instance.
fn ask(
    alloc: Global,
    dialect: Dialect,
    patterns: &PatternCache,
    call: Call<'_>,
    body: &[u8],
    bits: u128,
) -> Result<SilenceRequest, Cause>
    ensures { IsAsk dialect call.entry body.now bits result }
{
    match call {
        Call::List { query } => Ok(SilenceRequest::List {
            filters: filters_in(alloc, dialect, patterns, query)?,
        }),
        Call::Get { id } => Ok(SilenceRequest::Get {
            id: identifier(alloc, id)?,
        }),
        Call::Post => post(alloc, body, bits),
        Call::Delete { id } => Ok(SilenceRequest::Delete {
            id: identifier(alloc, id)?,
        }),
    }
}

/// Returns what a request asks of an instance.
fn asked(
    alloc: Global,
    dialect: Dialect,
    patterns: &PatternCache,
    request: &Request,
    bits: u128,
) -> Result<SilenceRequest, Cause>
    ensures asked { IfOk result (IsMeant dialect request.now bits) }
    ensures refused { IfErr result (IsRefusedFor dialect request.now) }
{
    let call = call_of(&request.method, &request.target)?;
    let asked = ask(alloc, dialect, patterns, call, &request.body, bits)?;
    Ok(asked)
}

/// Returns the event that a request means. `bits` are random: a silence that the request makes gets its identifier from them.
///
/// # Errors
///
/// The line of the first fault that applies: in the path, the method, a filter or the body, or that memory ran out.
pub fn to_event(alloc: Global, request: &Request, bits: u128) -> Result<Event, Refusal>
    // PROMISE: A request means the event of its path, filters and body, or its first fault.
    ensures { IsEventOf request.now bits result }
{
    event_by(
        alloc,
        Dialect::Regex,
        &PatternCache::new(alloc),
        request,
        bits,
    )
}

/// Returns the event that a request means, as [`to_event`] does, with patterns of the dialect: a filter whose pattern is kept isn't
/// compiled.
///
/// # Errors
///
/// The same as those of [`to_event`].
pub fn event_by(
    alloc: Global,
    dialect: Dialect,
    patterns: &PatternCache,
    request: &Request,
    bits: u128,
) -> Result<Event, Refusal>
    ensures { IsEventIn dialect request.now bits result }
{
    match asked(alloc, dialect, patterns, request, bits) {
        Ok(asked) => Ok(Event::Request(asked)),
        Err(cause) => Err(cause.refusal_to(&request.method)),
    }
}
