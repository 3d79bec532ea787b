//! The alerts of the last messages, kept in mind.

ghost use Rattle.std.specs.Prelude.{◌≡◌, ◌++◌, ◌∷◌, ◌-◌, ◌≤◌, [], nat_le, take, IfOk, OnOk, OnErr, SomeIff, map};
ghost use Rattle.std.specs.List.{sum_by};
ghost use Rattle.am_report.specs.Json.Views.{list_line};
ghost use Rattle.am_silence_json.specs.Tokens.{Adds, data_tokens, row_tokens};
ghost use Rattle.serde_json.specs.Data.{array};
ghost use Rattle.serde_json.specs.View.{items_of};
ghost use Rattle.am_api_silences.specs.Replies.{Says};
ghost use Rattle.am_api_decisions.specs.Recent.{alert_data, alerts_bytes, is_kept, is_of_another, kept_of, label_size, noted, of_others};

use crate::alerts::copied_labels;
use crate::message::{Alert, WebhookMessage};
use crate::replies::{good, short};
use crate::writing::add_labels;
use am_api_silences::ResponseBytes;
use am_matcher::{Label, Labels};
use am_silence_json::tokens::add;
use am_wire::Text;
use json::{Token, Writer};
use std::alloc::{AllocError, Global};
use std::marker::Model;

/// The maximum number of alerts that are kept.
const MOST_ALERTS: usize = 512;

/// The most bytes that one alert counts as, so that all of them fit into one message.
const MOST_BYTES: usize = 2_048;

/// The number of bytes that a label counts as, besides those of its name and its value.
const BESIDE: usize = 64;

/// An alert of a message that was asked about.
#[derive(Drop)]
pub struct RecentAlert {
    /// The key of the alert's group.
    pub group_key: Text,
    pub labels: Labels,
}

/// The alerts that fire in the last message of each group that was asked about, the newest message first: at most 512 of them, in
/// about a mebibyte.
#[derive(Drop)]
pub struct RecentAlerts {
    alerts: Vec<RecentAlert>,
}

impl Model for RecentAlerts {
    ghost use Rattle.std.specs.Prelude.{List};
    ghost use Rattle.am_api_decisions.specs.declared.recent.RecentAlert.{RecentAlert};

    ghost Value = { List RecentAlert };

    ghost view = { λ r. r.alerts.items };
}

/// Returns what is left of `left` bytes after a label, if it fits.
fn left_behind(left: usize, label: &Label) -> Option<usize>
    ensures { SomeIff result (label_size label.now ≤ left) (left - label_size label.now) }
{
    left.checked_sub(label.name.as_str().len())?
        .checked_sub(label.value.as_str().len())?
        .checked_sub(BESIDE)
}

/// Returns whether labels fit into `room` bytes.
fn fit(room: usize, labels: &[Label]) -> bool
    ensures { result ≡ nat_le (sum_by label_size labels.now) room }
{
    let mut left = room;
    for label in labels {
        match left_behind(left, label) {
            Some(less) => left = less,
            None => return false,
        }
    }
    true
}

/// Returns whether an alert of a group is kept.
fn is_kept(group_key: &str, alert: &Alert) -> bool
    ensures { result ≡ is_kept group_key.now alert.now }
{
    if !alert.is_firing {
        return false;
    }
    match MOST_BYTES.checked_sub(group_key.len()) {
        Some(room) => fit(room, alert.labels.as_slice()),
        None => false,
    }
}

/// Returns what is kept of an alert with these labels.
fn kept_as(alloc: Global, group_key: &Text, labels: &Labels) -> Result<RecentAlert, AllocError>
    ensures { IfOk result (λ kept. kept ≡ record { group_key = group_key.now; labels = labels.now }) }
{
    Ok(RecentAlert {
        group_key: group_key.try_clone(alloc)?,
        labels: copied_labels(alloc, labels)?,
    })
}

/// Appends what is kept of an alert of a group.
fn keep(
    alloc: Global,
    group_key: &Text,
    alert: &Alert,
    kept: &mut Vec<RecentAlert>,
) -> Result<(), AllocError>
    ensures { OnOk result (kept.new.items ≡ kept.old.items ++ kept_of group_key.now (alert.now ∷ [])) }
{
    if is_kept(group_key.as_str(), alert) {
        kept.push(kept_as(alloc, group_key, &alert.labels)?)?;
    }
    Ok(())
}

/// Returns what is kept of the alerts of a group.
fn kept_of(
    alloc: Global,
    group_key: &Text,
    alerts: &[Alert],
) -> Result<Vec<RecentAlert>, AllocError>
    ensures { IfOk result (λ kept. kept.items ≡ kept_of group_key.now alerts.now) }
{
    let mut kept = Vec::new(alloc);
    for alert in alerts {
        keep(alloc, group_key, alert, &mut kept)?;
    }
    Ok(kept)
}

/// Returns the first alerts of a message, up to the maximum that is kept.
fn first_of(alerts: &[Alert]) -> &[Alert]
    ensures { result.now ≡ take MOST_ALERTS alerts.now }
{
    match alerts.split_at_checked(MOST_ALERTS) {
        Some((first, _)) => first,
        None => alerts,
    }
}

/// Returns whether an alert was in another group.
fn is_of_another(group_key: &str, alert: &RecentAlert) -> bool
    ensures { result ≡ is_of_another group_key.now alert.now }
{
    alert.group_key.as_str() != group_key
}

/// Adds the labels of each alert, without brackets.
fn add_each_alert(out: &mut Writer, alerts: &[RecentAlert]) -> Result<(), AllocError>
    ensures { OnOk result (Adds out.old out.new (row_tokens (map alert_data alerts.now))) }
{
    for alert in alerts {
        add_labels(out, alert.labels.as_slice())?;
    }
    Ok(())
}

/// Adds the list of the labels of each alert.
fn add_alerts(out: &mut Writer, alerts: &[RecentAlert]) -> Result<(), AllocError>
    ensures { OnOk result (Adds out.old out.new (data_tokens (array (items_of (map alert_data alerts.now))))) }
{
    add(out, Token::BeginArray)?;
    add_each_alert(out, alerts)?;
    add(out, Token::EndArray)?;
    Ok(())
}

/// Returns the list of the labels of each alert, as a line.
fn line_of(alloc: Global, alerts: &[RecentAlert]) -> Result<Vec<u8>, AllocError>
    ensures { IfOk result (λ line. line.items ≡ list_line (map alert_data alerts.now)) }
{
    let mut out = Writer::new(Vec::new(alloc));
    add_alerts(&mut out, alerts)?;
    let mut line = out.into_inner();
    line.push(b'\n')?;
    Ok(line)
}

/// Returns the bytes of the reply that lists alerts.
fn bytes_of(alloc: Global, alerts: &[RecentAlert]) -> Result<Vec<u8>, AllocError>
    ensures { IfOk result (λ bytes. bytes.items ≡ alerts_bytes alerts.now) }
{
    let line = line_of(alloc, alerts)?;
    let bytes = good(alloc, &line)?;
    Ok(bytes)
}

impl RecentAlerts {
    /// Returns the alerts before the first message: none. Takes no memory.
    pub fn new(alloc: Global) -> RecentAlerts
        ensures { result ≡ [] }
    {
        RecentAlerts {
            alerts: Vec::new(alloc),
        }
    }

    /// Forgets the alerts of a group.
    fn forget(&mut self, group_key: &str)
        ensures { self.new ≡ of_others group_key.now self.old }
    {
        self.alerts.retain(|alert| is_of_another(group_key, alert));
    }

    /// Keeps those of the first 512 alerts of a message that fire, in place of what was kept of its group. An alert that counts
    /// as more than 2,048 bytes is passed over; a label counts as 64 bytes besides its name and its value, and the key of the
    /// group counts too. If there are more than 512 then, the oldest are forgotten.
    ///
    /// # Errors
    ///
    /// [`AllocError`] if memory runs out: then nothing is kept of the group.
    pub fn note(&mut self, alloc: Global, message: &WebhookMessage) -> Result<(), AllocError>
        // PROMISE: The alerts that fire in the last message of each group are kept in mind, 512 at most.
        ensures kept { OnOk result (self.new ≡ noted self.old message.now) }
        ensures forgotten { OnErr result (self.new ≡ of_others message.now.group_key self.old) }
    {
        self.forget(message.group_key.as_str());
        let mut kept = kept_of(alloc, &message.group_key, first_of(&message.alerts))?;
        kept.append(&mut self.alerts)?;
        kept.truncate(MOST_ALERTS);
        self.alerts = kept;
        Ok(())
    }

    /// Returns the bytes of the reply that lists the labels of the alerts, or of the one saying that there is no memory for it.
    pub fn told(&self, alloc: Global) -> ResponseBytes
        // PROMISE: They are listed as one line of JSON, the newest message first.
        ensures { Says (λ bytes. bytes ≡ alerts_bytes self.now) result }
    {
        match bytes_of(alloc, &self.alerts) {
            Ok(bytes) => ResponseBytes::Own(bytes),
            Err(_) => short(),
        }
    }
}
