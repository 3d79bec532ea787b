//! The answers to what a connection says, piece by piece.

ghost use Rattle.std.specs.Prelude.{◌≡◌, false, None, Some, option_map};
ghost use Rattle.std.specs.Option.{option_copied};
ghost use Rattle.am_http.specs.Sessions.{name_of, spoken};
ghost use Rattle.am_member.specs.Exchanging.{AreHeard, AreStepped, IsListRequest, IsReadAnswer, IsSessionAnswer, fault_heard, is_list, left_at};
ghost use Rattle.am_member.specs.Incoming.{so_far};

use crate::sender::peer_named;
use crate::session_answer::{SessionAnswer, StepEffects};
use crate::steps::make_steps;
use am_api_silences::{PendingAnswer, begin_answer, refuse};
use am_gossip::Frame;
use am_http::session::{Session, SessionFault, SessionOutput};
use am_http::{Call, Cause, Read, call_of};
use am_instance::Instance;
use am_peers::ConnectionFault;
use am_version_order::Moment;
use std::alloc::Global;

/// Converts an answer to that of a session.
fn replied(begun: PendingAnswer) -> SessionAnswer
    ensures reply { result.reply ≡ Some begun.making }
    ensures effects { result.effects ≡ record { outbox = begun.outbox; ticked = false } }
    ensures no_fault { result.fault ≡ None }
{
    let PendingAnswer { making, outbox } = begun;
    SessionAnswer {
        reply: Some(making),
        effects: StepEffects {
            outbox,
            ticked: false,
        },
        fault: None,
    }
}

/// Answers what was read.
fn reply_to(
    alloc: Global,
    instance: &mut Instance,
    read: Read,
    bits: u128,
    now: Moment,
) -> SessionAnswer
    ensures answered { IsReadAnswer read bits now instance.old instance.new result }
    ensures no_fault { result.fault ≡ None }
{
    match read {
        Read::Whole(request) => replied(begin_answer(alloc, instance, &request, bits, now)),
        Read::Refused(refusal) => replied(refuse(alloc, &refusal)),
        Read::More => SessionAnswer::nothing(alloc),
    }
}

/// Makes the steps of frames that the peer of this name sent.
///
/// # Errors
///
/// [`ConnectionFault::UnknownName`] if no peer has the name, and the [`ConnectionFault::Step`] of the first frame that is refused. The steps
/// before it stand.
fn step_named(
    instance: &mut Instance,
    effects: &mut StepEffects,
    name: Option<&str>,
    frames: Vec<Frame>,
    now: Moment,
) -> Result<(), ConnectionFault>
    ensures { AreStepped (option_copied name.entry) now frames.items (so_far instance.old effects.old) (so_far instance.new effects.new) result }
{
    let Some(name) = name else {
        return if frames.is_empty() {
            Ok(())
        } else {
            Err(ConnectionFault::UnknownName)
        };
    };
    let Some(sender) = peer_named(instance.config(), name) else {
        return Err(ConnectionFault::UnknownName);
    };
    make_steps(instance, effects, sender, frames, now)?;
    Ok(())
}

/// Converts the fault of a session, if there is one, to that of its connection.
fn fault_heard(fault: Option<SessionFault>) -> Option<ConnectionFault>
    ensures { result ≡ option_map fault_heard fault }
{
    match fault {
        Some(SessionFault::TooLarge) => Some(ConnectionFault::TooLarge),
        Some(SessionFault::Frame(error)) => Some(ConnectionFault::Frame(error)),
        None => None,
    }
}

/// Makes the steps of frames that a session said; `fault` is the session's own behind them, if it has one.
fn hear(
    alloc: Global,
    instance: &mut Instance,
    session: &mut Session,
    frames: Vec<Frame>,
    fault: Option<SessionFault>,
    now: Moment,
) -> SessionAnswer
    ensures heard { AreHeard (name_of session.old) now frames.items fault instance.old instance.new result }
    ensures session { session.new ≡ left_at result.fault session.old }
{
    let mut exchanged = SessionAnswer::nothing(alloc);
    match step_named(
        instance,
        &mut exchanged.effects,
        session.name(),
        frames,
        now,
    ) {
        Ok(()) => {
            exchanged.fault = fault_heard(fault);
            exchanged
        }
        Err(stop) => {
            session.stop();
            exchanged.fault = Some(stop);
            exchanged
        }
    }
}

/// Answers what a connection said: a request by a step at `now` and a reply, frames by a step each at `now`. `bits` are
/// random. `session` is the connection's own, whose greeting names the sender of the frames. The reply of a list is written
/// afterwards, a stretch at a time: whenever it is finished, it tells of the instance as it was in that step.
///
/// Nothing more is heard of the connection if no peer has that name, which is told as soon as the name has come, or if a step is
/// refused; the steps before it stand. If nothing was said, nothing else changes.
pub fn apply_session_output(
    alloc: Global,
    instance: &mut Instance,
    session: &mut Session,
    said: SessionOutput,
    bits: u128,
    now: Moment,
) -> SessionAnswer
    // PROMISE: A request is answered by one step at its moment, a peer's frames by one step each.
    ensures exchanged { IsSessionAnswer (name_of session.old) bits now (spoken said) instance.old instance.new result }
    ensures session { session.new ≡ left_at result.fault session.old }
{
    let SessionOutput {
        frames,
        request,
        fault,
    } = said;
    match request {
        Some(read) => reply_to(alloc, instance, read, bits, now),
        None => hear(alloc, instance, session, frames, fault, now),
    }
}

fn is_list(call: Result<Call<'_>, Cause>) -> bool
    ensures { result ≡ is_list call.entry }
{
    matches!(call, Ok(Call::List { .. }))
}

/// Returns whether a request asks for a list, whose reply may take long to make.
pub fn is_list_request(read: &Read) -> bool
    ensures { IsListRequest read.now result }
{
    match read {
        Read::Whole(request) => is_list(call_of(&request.method, &request.target)),
        _ => false,
    }
}
