//! Logging of notifications.

ghost use Rattle.std.specs.Prelude.{◌≡◌, ◌+◌, nat_le, IfOk, Ok, Err, Some, option_copied};
ghost use Rattle.serde_json.specs.Written.{compact_text};
ghost use Rattle.am_api_decisions.specs.Answers.{logged_data};
ghost use Rattle.am_api_silences.specs.Answers.{WhenMade};
ghost use Rattle.am_api_silences.specs.Replies.{Says, good_bytes};
ghost use Rattle.am_api_decisions.specs.Noticing.{IsLogged, IsLoggedBytes, IsNoticed, IsPassedOver, IsUnread, TellsNotice};
ghost use Rattle.am_api_decisions.specs.Noticing.{is_late, is_since, key_of, notified_event};

use crate::notice::Notice;
use crate::replies::{good, short, tell};
use crate::reply_bytes::write_logged;
use crate::table;
use am_api_silences::{PendingAnswer, ReplyBuilder, ResponseBytes};
use am_instance::{Event, FrameSender, Instance, Outcome, Reply, StepError};
use am_nflog::{LogKey, MeshEntry};
use am_version_order::{Interval, Moment};
use am_wire::Bytes;
use std::alloc::{AllocError, Global};

/// The number of nanoseconds in a millisecond.
const MILLISECOND: u64 = 1_000_000;

/// Returns the key of the log that a notice is about.
fn key_of(alloc: Global, notice: &Notice) -> Result<LogKey, AllocError>
    ensures { IfOk result (λ key. key ≡ key_of notice.now) }
{
    LogKey::new(
        alloc,
        notice.group_key.as_str().as_bytes(),
        &notice.receiver,
    )
}

/// Returns whether an entry was made a millisecond or more after a moment.
fn is_made_after(entry: &MeshEntry, moment: Moment) -> bool
    ensures { result ≡ nat_le (moment + 1_000_000) entry.now.entry.timestamp }
{
    let made_at = entry.timestamp();
    let millisecond = Interval::from_nanos(MILLISECOND).unwrap();
    match moment.checked_add(millisecond) {
        Some(after) => after <= made_at,
        None => false,
    }
}

/// Returns whether there is an entry that was made a millisecond or more after a moment.
fn is_since(moment: Moment, entry: Option<&MeshEntry>) -> bool
    ensures { result ≡ is_since (Some moment) (option_copied entry.entry) }
{
    match entry {
        Some(entry) => is_made_after(entry, moment),
        None => false,
    }
}

/// Returns whether the log has an entry of a notice's group that was made after its decision.
fn is_late(alloc: Global, instance: &Instance, notice: &Notice) -> Result<bool, AllocError>
    ensures { IfOk result (λ late. late ≡ is_late notice.now instance.now) }
{
    let Some(decided_at) = notice.decided_at else {
        return Ok(false);
    };
    let key = key_of(alloc, notice)?;
    Ok(is_since(decided_at, instance.log().get(&key)))
}

/// Returns the event that logs a notice.
fn event_of(notice: Notice) -> Event
    ensures { result ≡ notified_event notice }
{
    Event::Notified {
        group_key: Bytes::new(notice.group_key.into_string().into_bytes()),
        receiver: notice.receiver,
        firing: notice.firing,
        resolved: notice.resolved,
        repeat: notice.repeat,
    }
}

/// Returns the reply that says whether a notice was logged.
fn logged(alloc: Global, is_logged: bool) -> Result<Vec<u8>, AllocError>
    ensures { IfOk result (λ bytes. bytes.items ≡ good_bytes (compact_text (logged_data is_logged))) }
{
    let body = write_logged(Vec::new(alloc), is_logged)?;
    let bytes = good(alloc, &body)?;
    Ok(bytes)
}

/// Returns the reply that says whether a notice was logged, or the one saying that there is no memory for it.
fn told_of(alloc: Global, is_logged: bool) -> ResponseBytes
    ensures { Says (λ bytes. bytes ≡ good_bytes (compact_text (logged_data is_logged))) result }
{
    match logged(alloc, is_logged) {
        Ok(bytes) => ResponseBytes::Own(bytes),
        Err(_) => short(),
    }
}

/// Returns the reply to a notice, by the reply of its step.
fn told_by(alloc: Global, reply: Reply) -> ResponseBytes
    ensures { Says (IsLoggedBytes reply) result }
{
    match reply {
        Reply::Logged(is_logged) => told_of(alloc, is_logged),
        _ => short(),
    }
}

/// Returns the answer to a notice whose step was made.
fn done(alloc: Global, outcome: Outcome) -> PendingAnswer
    ensures { WhenMade (TellsNotice (Ok outcome)) result }
{
    let (reply, outbox) = outcome.into_parts();
    PendingAnswer {
        making: ReplyBuilder::Whole(told_by(alloc, reply)),
        outbox,
    }
}

/// Returns the answer to a notice whose step was refused.
fn stopped(alloc: Global, error: StepError) -> PendingAnswer
    ensures { WhenMade (TellsNotice (Err error)) result }
{
    PendingAnswer {
        making: ReplyBuilder::Whole(tell(alloc, &table::refused(error))),
        outbox: FrameSender::new(alloc),
    }
}

/// Returns the answer to a notice if the log has a later entry.
fn passed_over(alloc: Global, instance: &Instance) -> PendingAnswer
    ensures { WhenMade (λ answered. IsPassedOver instance.now answered instance.now) result }
{
    PendingAnswer {
        making: ReplyBuilder::Whole(told_of(alloc, false)),
        outbox: FrameSender::new(alloc),
    }
}

/// Returns the answer to a notice if there is no memory to look into the log.
fn unread(alloc: Global, instance: &Instance) -> PendingAnswer
    ensures { WhenMade (λ answered. IsUnread instance.now answered instance.now) result }
{
    PendingAnswer {
        making: ReplyBuilder::Whole(short()),
        outbox: FrameSender::new(alloc),
    }
}

/// Logs a notice by one step.
fn log_by_step(alloc: Global, instance: &mut Instance, notice: Notice, now: Moment) -> PendingAnswer
    ensures { WhenMade (λ answered. IsLogged now notice instance.old answered instance.new) result }
{
    match instance.step(event_of(notice), now) {
        Ok(outcome) => done(alloc, outcome),
        Err(error) => stopped(alloc, error),
    }
}

/// Logs a notice by one step at `now`, and answers whether that changed the log; it didn't if its entry wouldn't outlive its
/// moment. What the step sends goes to all peers.
///
/// If the notice says when it was decided, and the log has an entry of its group that was made a millisecond or more after that,
/// live or not, no step is made, and the answer is that the log isn't changed: the notice came too late to speak for what
/// happened since. Moments of decisions are given to the millisecond.
///
/// If the step is refused, the answer says so, and nothing is sent: `entry too large`, `clock ran back`, or `out of memory`. If
/// memory runs out once the step is made, the answer says that; the entry stands then, and its frames are returned.
pub fn log_notice(
    alloc: Global,
    instance: &mut Instance,
    notice: Notice,
    now: Moment,
) -> PendingAnswer
    // PROMISE: A notice is logged by one step, unless its group has an entry made after its decision.
    ensures { WhenMade (λ answered. IsNoticed now notice instance.old answered instance.new) result }
{
    match is_late(alloc, instance, &notice) {
        Ok(true) => passed_over(alloc, instance),
        Ok(false) => log_by_step(alloc, instance, notice, now),
        Err(_) => unread(alloc, instance),
    }
}
