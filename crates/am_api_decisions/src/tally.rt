//! The tally of the alerts that have been asked.

ghost use Rattle.std.specs.Prelude.{◌≡◌, ◌&&◌, ◌==◌, ◌-◌, [], ◌∷◌, IfOk, OnOk, false, length, take};
ghost use Rattle.std.specs.Prelude.{map};
ghost use Rattle.std.specs.Vec.Iter.{into_iter_items, into_iter_len};
ghost use Rattle.am_api_decisions.specs.Asking.{counted_with, nothing_counted, unasked};

use crate::alert::alert_hash;
use crate::answer::Muted;
use crate::message::Alert;
use am_matcher::Ids;
use am_wire::Text;
use std::alloc::{AllocError, Global};
use std::marker::Model;
use std::vec::IntoIter;

/// The maximum number of silences that are named of those that mute an alert, so that the alerts of a message bound the size of
/// an answer.
const MOST_NAMED: usize = 16;

/// The tally of alerts: the hashes of those that no silence mutes, by whether they fire, and those that are muted.
#[derive(Drop)]
pub struct AlertTally {
    pub firing: Vec<u64>,
    pub resolved: Vec<u64>,
    pub muted: Vec<Muted>,
}

impl Model for AlertTally {
    ghost use Rattle.std.specs.Prelude.{map};
    ghost use Rattle.am_api_decisions.specs.Asking.{Counted, silenced_in};

    ghost Value = { Counted };

    ghost view = { λ t. record { firing = t.firing.items; resolved = t.resolved.items; muted = map silenced_in t.muted.items } };
}

/// Returns copies of identifiers.
fn copied_ids(alloc: Global, ids: &[Text]) -> Result<Vec<Text>, AllocError>
    ensures { IfOk result (λ copies. copies.items ≡ ids.now) }
{
    let mut copies = Vec::with_capacity(alloc, ids.len())?;
    for id in ids {
        copies.push(id.try_clone(alloc)?)?;
    }
    Ok(copies)
}

/// Returns the first identifiers, up to the maximum that is named.
fn named(alloc: Global, ids: &[Text]) -> Result<Vec<Text>, AllocError>
    ensures { IfOk result (λ named. named.items ≡ take 16 ids.now) }
{
    if ids.len() > MOST_NAMED {
        copied_ids(alloc, &ids[..MOST_NAMED])
    } else {
        copied_ids(alloc, ids)
    }
}

/// Returns the number of identifiers beyond those that are named.
fn unnamed(ids: &[Text]) -> u64
    ensures { result ≡ length ids.now - 16 }
{
    ids.len().saturating_sub(MOST_NAMED) as u64
}

impl AlertTally {
    /// Returns an empty tally. Takes no memory.
    pub fn new(alloc: Global) -> AlertTally
        ensures { result ≡ nothing_counted }
    {
        AlertTally {
            firing: Vec::new(alloc),
            resolved: Vec::new(alloc),
            muted: Vec::new(alloc),
        }
    }

    /// Returns whether all alerts are muted.
    pub fn has_none(&self) -> bool
        ensures { result ≡ (length self.now.firing == 0) && (length self.now.resolved == 0) }
    {
        self.firing.is_empty() && self.resolved.is_empty()
    }

    /// Adds an alert that no silence mutes.
    fn add_open(&mut self, alloc: Global, alert: &Alert) -> Result<(), AllocError>
        ensures { OnOk result (self.new ≡ counted_with self.old (record { alert = alert.now; ids = [] } ∷ [])) }
    {
        let hash = alert_hash(alloc, &alert.labels)?;
        if alert.is_firing {
            self.firing.push(hash)?;
        } else {
            self.resolved.push(hash)?;
        }
        Ok(())
    }

    /// Adds alerts that weren't asked, as if no silence muted them.
    ///
    /// # Errors
    ///
    /// [`AllocError`] if memory runs out.
    pub fn add_unasked(&mut self, alloc: Global, alerts: IntoIter<Alert>) -> Result<(), AllocError>
        requires { into_iter_len alerts ≡ length (into_iter_items alerts) }
        ensures { OnOk result (self.new ≡ counted_with self.old (map unasked (into_iter_items alerts))) }
    {
        for alert in alerts {
            self.add_open(alloc, &alert)?;
        }
        Ok(())
    }

    /// Adds an alert that silences mute.
    fn add_muted(&mut self, alloc: Global, alert: Alert, ids: &[Text]) -> Result<(), AllocError>
        requires { (length ids.now == 0) ≡ false }
        ensures { OnOk result (self.new ≡ counted_with self.old (record { alert = alert; ids = ids.now } ∷ [])) }
    {
        let silenced_by = named(alloc, ids)?;
        self.muted.push(Muted {
            labels: alert.labels,
            silenced_by,
            more: unnamed(ids),
        })?;
        Ok(())
    }

    /// Adds an alert, and the silences that mute it.
    ///
    /// # Errors
    ///
    /// [`AllocError`] if memory runs out.
    pub fn add(&mut self, alloc: Global, alert: Alert, ids: Ids) -> Result<(), AllocError>
        ensures { OnOk result (self.new ≡ counted_with self.old (record { alert = alert; ids = ids } ∷ [])) }
    {
        if ids.as_slice().is_empty() {
            self.add_open(alloc, &alert)
        } else {
            self.add_muted(alloc, alert, ids.as_slice())
        }
    }
}
