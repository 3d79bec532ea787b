//! A notice of what was notified: an answer, as it is posted back.

ghost use Rattle.std.specs.Prelude.{◌≡◌, ◌≢◌, IfOk, IfErr, IsErrOf, None, Ok, Err};
ghost use Rattle.serde_json.specs.Data.{Data};
ghost use Rattle.serde_json.specs.View.{view};
ghost use Rattle.am_silence_json.specs.Posts.{IsObjectText};
ghost use Rattle.am_api_decisions.specs.declared.error.MessageError.TheVariants as errors;
ghost use Rattle.am_api_decisions.specs.declared.key.MessageKey.{MessageKey};
ghost use Rattle.am_api_decisions.specs.declared.key.MessageKey.TheVariants as keys;
ghost use Rattle.am_api_decisions.specs.Notices.{index_of, index_in, interval_of, repeat_in, is_told, receiver_of, hash_lists_of, undated_in};
ghost use Rattle.am_api_decisions.specs.Notices.{IsNotice, IsFirstFault, IsDecidedAt, HasBadMoment, IsUndated};

use crate::bodies::object_in;
use crate::error::MessageError;
use crate::find::{moment_in, number_in, text_in, truth_in};
use crate::hashes::read_hashes;
use crate::key::MessageKey;
use am_nflog::{Hashes, Receiver, ReceiverRef};
use am_version_order::{Interval, Moment};
use am_wire::Text;
use serde_json::Value;
use std::alloc::Global;

/// A notice of what was notified: an answer, as it is posted back.
#[derive(Drop)]
pub struct Notice {
    pub group_key: Text,
    pub receiver: Receiver,
    pub firing: Hashes,
    pub resolved: Hashes,
    pub repeat: Interval,
    /// The moment of the decision, if it is known.
    pub decided_at: Option<Moment>,
}

/// Returns a number if it has 32 bits.
fn index_of(number: u64) -> Option<u32>
    ensures { result ≡ index_of number }
{
    if number < 1 << 32 {
        Some(number as u32)
    } else {
        None
    }
}

/// Returns the number of an integration in its receiver.
fn index_in(object: &Value) -> Option<u32>
    ensures { result ≡ index_in (view object.now) }
{
    index_of(number_in(object, "index")?)
}

/// Returns the interval with this number of seconds.
fn interval_of(seconds: u64) -> Option<Interval>
    ensures { result ≡ interval_of seconds }
{
    Interval::from_seconds(seconds)
}

/// Returns the repeat interval.
fn repeat_in(object: &Value) -> Option<Interval>
    ensures { result ≡ repeat_in (view object.now) }
{
    interval_of(number_in(object, "repeat")?)
}

/// Returns whether somebody was to be notified.
fn is_told(object: &Value) -> bool
    ensures { result ≡ is_told (view object.now) }
{
    truth_in(object, "notify").unwrap_or(false)
}

/// Reads who was notified.
fn read_receiver(alloc: Global, object: &Value) -> Result<Receiver, MessageError>
    ensures read { IfOk result (λ receiver. receiver_of (view object.now) ≡ Ok receiver) }
    ensures wrong { (key : MessageKey) → IsErrOf result (errors.BadMessage key) → receiver_of (view object.now) ≡ Err key }
    ensures object { result ≢ Err errors.BadJson }
    ensures whole { result ≢ Err errors.Truncated }
{
    let Some(group_name) = text_in(object, "receiver") else {
        return Err(MessageError::BadMessage(MessageKey::Receiver));
    };
    let Some(integration) = text_in(object, "integration") else {
        return Err(MessageError::BadMessage(MessageKey::Integration));
    };
    let Some(idx) = index_in(object) else {
        return Err(MessageError::BadMessage(MessageKey::Index));
    };
    let receiver = ReceiverRef::new(group_name, integration, idx).copied(alloc)?;
    Ok(receiver)
}

/// Reads the hashes of the alerts that fire, and of those that are resolved.
fn read_lists(alloc: Global, object: &Value) -> Result<(Hashes, Hashes), MessageError>
    ensures read { IfOk result (λ lists. hash_lists_of (view object.now) ≡ Ok lists) }
    ensures wrong { (key : MessageKey) → IsErrOf result (errors.BadMessage key) → hash_lists_of (view object.now) ≡ Err key }
    ensures object { result ≢ Err errors.BadJson }
    ensures whole { result ≢ Err errors.Truncated }
{
    let Some(firing) = read_hashes(alloc, object, "firing")? else {
        return Err(MessageError::BadMessage(MessageKey::Firing));
    };
    let Some(resolved) = read_hashes(alloc, object, "resolved")? else {
        return Err(MessageError::BadMessage(MessageKey::Resolved));
    };
    Ok((firing, resolved))
}

/// Reads the moment of the decision, if it is given.
fn read_decided_at(object: &Value) -> Result<Option<Moment>, MessageError>
    ensures read { IfOk result (IsDecidedAt (view object.now)) }
    ensures wrong { IfErr result (λ e. (e ≡ errors.BadMessage keys.DecidedAt) × HasBadMoment (view object.now)) }
{
    if object.get("decidedAt").is_none() {
        return Ok(None);
    }
    match moment_in(object, "decidedAt") {
        Some(moment) => Ok(Some(moment)),
        None => Err(MessageError::BadMessage(MessageKey::DecidedAt)),
    }
}

/// Reads the notice that an object is, except for the moment of its decision.
#[tactic(auto, unfolding(crate::specs::Notices::undated_in))]
fn read_undated(alloc: Global, object: &Value) -> Result<Notice, MessageError>
    ensures read { IfOk result (IsUndated (view object.now)) }
    ensures undated { IfOk result (λ n. n.decided_at ≡ None) }
    ensures wrong { (key : MessageKey) → IsErrOf result (errors.BadMessage key) → undated_in (view object.now) ≡ Err key }
    ensures object { result ≢ Err errors.BadJson }
    ensures whole { result ≢ Err errors.Truncated }
{
    let Some(group_key) = text_in(object, "groupKey") else {
        return Err(MessageError::BadMessage(MessageKey::GroupKey));
    };
    let group_key = Text::copied(alloc, group_key)?;
    let receiver = read_receiver(alloc, object)?;
    let Some(repeat) = repeat_in(object) else {
        return Err(MessageError::BadMessage(MessageKey::Repeat));
    };
    if !is_told(object) {
        return Err(MessageError::BadMessage(MessageKey::Notify));
    }
    let (firing, resolved) = read_lists(alloc, object)?;
    Ok(Notice {
        group_key,
        receiver,
        firing,
        resolved,
        repeat,
        decided_at: None,
    })
}

/// Reads the notice that an object is.
fn read_object(alloc: Global, object: &Value) -> Result<Notice, MessageError>
    ensures read { IfOk result (IsNotice (view object.now)) }
    ensures wrong { (key : MessageKey) → IsErrOf result (errors.BadMessage key) → IsFirstFault (view object.now) key }
    ensures object { result ≢ Err errors.BadJson }
    ensures whole { result ≢ Err errors.Truncated }
{
    let notice = read_undated(alloc, object)?;
    let decided_at = read_decided_at(object)?;
    Ok(Notice {
        decided_at,
        ..notice
    })
}

/// Reads the notice in the body of a request: an answer, as [`write_answer`](crate::write_answer) writes it. `muted` and `reason`
/// are ignored, as are all keys that answers don't have; if a key comes twice, the last one counts.
///
/// # Errors
///
/// [`MessageError::BadJson`] if the body isn't JSON, or isn't an object; otherwise [`MessageError::BadMessage`] with the first
/// key that is missing or of another kind, in the order `groupKey`, `receiver`, `integration`, `index`, `repeat`, `notify`, which
/// has to be true, `firing`, `resolved`, `decidedAt`, which may be missing; [`MessageError::Memory`] if memory runs out.
pub fn read_notice(alloc: Global, body: &[u8]) -> Result<Notice, MessageError>
    ensures notice { IfOk result (λ n. (d : Data) × IsObjectText body.now d × IsNotice d n) }
    ensures bad_json { IsErrOf result errors.BadJson → (d : Data) → ¬ IsObjectText body.now d }
    ensures wrong { (key : MessageKey) → IsErrOf result (errors.BadMessage key) →
        (d : Data) × IsObjectText body.now d × IsFirstFault d key }
    ensures whole { result ≢ Err errors.Truncated }
{
    let object = object_in(alloc, body)?;
    let notice = read_object(alloc, &object)?;
    Ok(notice)
}
