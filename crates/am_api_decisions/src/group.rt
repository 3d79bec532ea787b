//! The group that a decision is about.

ghost use Rattle.std.specs.Prelude.{◌≡◌, IfOk};
ghost use Rattle.am_api_decisions.specs.Settling.{decide_event, receiver_of};

use crate::tally::AlertTally;
use crate::terms::Terms;
use am_instance::Event;
use am_nflog::{Hashes, Receiver};
use am_wire::{Bytes, Text};
use std::alloc::{AllocError, Global};

/// A group of alerts, its receiver, and the terms of its decision.
#[derive(Drop)]
pub struct Group {
    pub group_key: Text,
    pub receiver: Text,
    pub terms: Terms,
}

impl Group {
    /// Returns the receiver as the log knows it.
    fn log_receiver(&self, alloc: Global) -> Result<Receiver, AllocError>
        ensures { IfOk result (λ receiver. receiver ≡ receiver_of self.now) }
    {
        Ok(Receiver {
            group_name: self.receiver.try_clone(alloc)?,
            integration: self.terms.integration.try_clone(alloc)?,
            idx: self.terms.index,
        })
    }

    /// Returns the event that asks whether to notify of the alerts that no silence mutes.
    ///
    /// # Errors
    ///
    /// [`AllocError`] if memory runs out.
    pub fn event(&self, alloc: Global, tally: &AlertTally) -> Result<Event, AllocError>
        ensures { IfOk result (λ event. event ≡ decide_event self.now tally.now) }
    {
        Ok(Event::Decide {
            group_key: Bytes::copied(alloc, self.group_key.as_str().as_bytes())?,
            receiver: self.log_receiver(alloc)?,
            firing: copied_hashes(alloc, &tally.firing)?,
            resolved: copied_hashes(alloc, &tally.resolved)?,
            repeat: self.terms.repeat.interval(),
            send_resolved: self.terms.send_resolved,
        })
    }
}

/// Returns a copy of hashes.
fn copied_hashes(alloc: Global, hashes: &[u64]) -> Result<Hashes, AllocError>
    ensures { IfOk result (λ copy. copy ≡ hashes.now) }
{
    Ok(Hashes::new(hashes.to_vec(alloc)?))
}
