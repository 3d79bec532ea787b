//! A message of Alertmanager's webhook, which says what is to be notified.

ghost use Rattle.std.specs.Prelude.{◌≡◌, ◌≢◌, All, IfOk, IsErrOf, Ok, Err, option_map};
ghost use Rattle.serde_json.specs.Data.{Data};
ghost use Rattle.serde_json.specs.View.{view, items_view};
ghost use Rattle.am_silence_json.specs.Posts.{IsObjectText};
ghost use Rattle.am_api_decisions.specs.declared.error.MessageError.TheVariants as errors;
ghost use Rattle.am_api_decisions.specs.declared.key.MessageKey.{MessageKey};
ghost use Rattle.am_api_decisions.specs.Steps.{each};
ghost use Rattle.am_api_decisions.specs.Messages.{firing_of, firing_in, are_objects, are_some_objects, objects_in, alert_of, alerts_in};
ghost use Rattle.am_api_decisions.specs.Messages.{IsInOrder, IsMessage, IsFirstFault, IsTruncated, Says, is_truncated};

use crate::bodies::object_in;
use crate::error::MessageError;
use crate::find::{array_in, number_in, text_in};
use crate::key::MessageKey;
use crate::labels::read_labels;
use am_matcher::Labels;
use am_wire::Text;
use serde_json::Value;
use std::alloc::Global;

/// An alert of a message.
#[derive(Drop)]
pub struct Alert {
    /// The alert's labels, in the byte order of their names, each name once.
    pub labels: Labels,
    /// True if the alert fires; otherwise it is resolved.
    pub is_firing: bool,
}

/// A message of Alertmanager's webhook, version 4: the alerts of a group, and the receiver that they go to.
#[derive(Drop)]
pub struct WebhookMessage {
    pub group_key: Text,
    pub receiver: Text,
    /// The alerts, at least one, in the message's order.
    pub alerts: Vec<Alert>,
}

/// Returns whether an alert with this status fires.
#[tactic(auto, unfolding(crate::specs::Messages::firing_of))]
fn firing_of(status: &str) -> Option<bool>
    ensures { result ≡ firing_of status.now }
{
    match status {
        "firing" => Some(true),
        "resolved" => Some(false),
        _ => None,
    }
}

/// Returns whether an alert fires, by its status.
fn firing_in(alert: &Value) -> Option<bool>
    ensures { result ≡ firing_in (view alert.now) }
{
    firing_of(text_in(alert, "status")?)
}

/// Reads the alert that a value is.
fn read_alert(alloc: Global, value: &Value) -> Result<Alert, MessageError>
    ensures read { IfOk result (λ alert. alert_of (view value.now) ≡ Ok alert) }
    ensures in_order { IfOk result IsInOrder }
    ensures wrong { (key : MessageKey) → IsErrOf result (errors.BadMessage key) → alert_of (view value.now) ≡ Err key }
    ensures object { result ≢ Err errors.BadJson }
    ensures whole { result ≢ Err errors.Truncated }
{
    let Some(labels) = read_labels(alloc, value)? else {
        return Err(MessageError::BadMessage(MessageKey::Labels));
    };
    let Some(is_firing) = firing_in(value) else {
        return Err(MessageError::BadMessage(MessageKey::Status));
    };
    Ok(Alert { labels, is_firing })
}

/// Reads the alerts that the values are.
fn read_each(alloc: Global, values: &[Value]) -> Result<Vec<Alert>, MessageError>
    ensures read { IfOk result (λ alerts. each alert_of (items_view values.now) ≡ Ok alerts.items) }
    ensures in_order { IfOk result (λ alerts. All IsInOrder alerts.items) }
    ensures wrong { (key : MessageKey) → IsErrOf result (errors.BadMessage key) →
        each alert_of (items_view values.now) ≡ Err key }
    ensures object { result ≢ Err errors.BadJson }
    ensures whole { result ≢ Err errors.Truncated }
{
    let mut alerts = Vec::with_capacity(alloc, values.len())?;
    for value in values {
        let alert = read_alert(alloc, value)?;
        alerts.push(alert)?;
    }
    Ok(alerts)
}

/// Returns whether all values are objects.
fn are_objects(values: &[Value]) -> bool
    ensures { result ≡ are_objects (items_view values.now) }
{
    for value in values {
        if !value.is_object() {
            return false;
        }
    }
    true
}

/// Returns whether there are values, and all are objects.
#[tactic(auto, using(crate::proofs::Reading::has_items_is))]
fn are_some_objects(values: &[Value]) -> bool
    ensures { result ≡ are_some_objects (items_view values.now) }
{
    !values.is_empty() && are_objects(values)
}

/// Returns the values of the alerts in a message, which are objects, at least one.
fn objects_in(object: &Value) -> Option<&[Value]>
    ensures { option_map (λ values. items_view values.now) result ≡ objects_in (view object.now) }
{
    let values = array_in(object, "alerts")?;
    if are_some_objects(values) {
        Some(values)
    } else {
        None
    }
}

/// Reads the alerts of a message.
fn read_alerts(alloc: Global, object: &Value) -> Result<Vec<Alert>, MessageError>
    ensures read { IfOk result (λ alerts. alerts_in (view object.now) ≡ Ok alerts.items) }
    ensures in_order { IfOk result (λ alerts. All IsInOrder alerts.items) }
    ensures wrong { (key : MessageKey) → IsErrOf result (errors.BadMessage key) → alerts_in (view object.now) ≡ Err key }
    ensures object { result ≢ Err errors.BadJson }
    ensures whole { result ≢ Err errors.Truncated }
{
    match objects_in(object) {
        Some(values) => read_each(alloc, values),
        None => Err(MessageError::BadMessage(MessageKey::Alerts)),
    }
}

/// Returns whether alerts were left out of a message.
fn is_truncated(object: &Value) -> bool
    ensures { result ≡ is_truncated (view object.now) }
{
    number_in(object, "truncatedAlerts").unwrap_or(0) > 0
}

/// Reads the message that an object is, whether or not alerts were left out of it.
#[tactic(auto, unfolding(crate::specs::Messages::message_of))]
fn read_said(alloc: Global, object: &Value) -> Result<WebhookMessage, MessageError>
    ensures read { IfOk result (Says (view object.now)) }
    ensures in_order { IfOk result (λ m. All IsInOrder m.alerts.items) }
    ensures wrong { (key : MessageKey) → IsErrOf result (errors.BadMessage key) → IsFirstFault (view object.now) key }
    ensures object { result ≢ Err errors.BadJson }
    ensures whole { result ≢ Err errors.Truncated }
{
    let Some(group_key) = text_in(object, "groupKey") else {
        return Err(MessageError::BadMessage(MessageKey::GroupKey));
    };
    let Some(receiver) = text_in(object, "receiver") else {
        return Err(MessageError::BadMessage(MessageKey::Receiver));
    };
    let alerts = read_alerts(alloc, object)?;
    let group_key = Text::copied(alloc, group_key)?;
    let receiver = Text::copied(alloc, receiver)?;
    Ok(WebhookMessage {
        group_key,
        receiver,
        alerts,
    })
}

/// Reads the message in the body of a request: a JSON object with `groupKey`, `receiver` and `alerts`, each with `labels` and
/// `status`. All other keys are ignored; if a key comes twice, the last one counts.
///
/// # Errors
///
/// [`MessageError::BadJson`] if the body isn't JSON, or isn't an object; otherwise [`MessageError::BadMessage`] with the first
/// key that is missing or of another kind: `groupKey`, `receiver`, `alerts`, which has to be an array of objects, at least one,
/// and then `labels` and `status` of each alert; then [`MessageError::Truncated`] if `truncatedAlerts` is a whole number above 0;
/// [`MessageError::Memory`] if memory runs out.
pub fn read_message(alloc: Global, body: &[u8]) -> Result<WebhookMessage, MessageError>
    // PROMISE: A webhook message is read as its object says, no alert left out.
    ensures message { IfOk result (λ m. (d : Data) × IsObjectText body.now d × IsMessage d m) }
    ensures in_order { IfOk result (λ m. All IsInOrder m.alerts.items) }
    ensures bad_json { IsErrOf result errors.BadJson → (d : Data) → ¬ IsObjectText body.now d }
    ensures wrong { (key : MessageKey) → IsErrOf result (errors.BadMessage key) →
        (d : Data) × IsObjectText body.now d × IsFirstFault d key }
    // PROMISE: A message that alerts were left out of is refused.
    ensures truncated { IsErrOf result errors.Truncated → (d : Data) × IsObjectText body.now d × IsTruncated d }
{
    let object = object_in(alloc, body)?;
    let message = read_said(alloc, &object)?;
    if is_truncated(&object) {
        return Err(MessageError::Truncated);
    }
    Ok(message)
}
