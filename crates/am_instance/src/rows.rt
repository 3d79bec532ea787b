//! The rows of a frame, all of which are read before any version is taken.

ghost use Rattle.std.specs.Prelude.{◌≡◌, ◌≢◌, ◌+◌, ◌<◌, ℕ, List, map, length, take, Some, None, OnOk, OnErr, IfOk, IfErr};
ghost use Rattle.std.specs.Option.{option_copied};
ghost use Rattle.am_wire.specs.Inputs.{messages_of};
ghost use Rattle.am_wire.specs.declared.error.WireError.TheVariants as wire_errors;
ghost use Rattle.am_merge.specs.Maps.{at, is_above};
ghost use Rattle.am_collect.specs.Events.{after, after_all};
ghost use Rattle.am_collect.specs.Events.MapEvent.{Delivered};
ghost use Rattle.am_instance.specs.Configs.{places_but};
ghost use Rattle.am_instance.specs.Deliveries.{before_fault, first_fault};
ghost use Rattle.am_instance.specs.Changes.{IsStoppedRow, changed, changes, only_if, takings};
ghost use Rattle.am_instance.specs.Sendings.{Sends, deltas_of};

use crate::frame_sender::{FrameSender, Route};
use am_gossip::StateKey;
use am_merge::Held;
use am_version_order::{Moment, Version};
use am_wire::{Message, Messages, Record, Unknown, WireError};
use std::alloc::{AllocError, Global};

/// Checks each version of a row, by the policy for unknown fields, without keeping any.
///
/// # Errors
///
/// The first fault of the row, or [`WireError::Memory`] if memory runs out.
pub fn validate_row<V: Message>(
    alloc: Global,
    unknown: Unknown,
    row: &[u8],
) -> Result<(), WireError>
    ensures sound { OnOk result (first_fault (messages_of (V.reads unknown) row.now) ≡ None) }
    ensures fault { IfErr result (λ e. e ≢ wire_errors.Memory → first_fault (messages_of (V.reads unknown) row.now) ≡ Some e) }
{
    for message in Messages::<V>::within(alloc, unknown, row, 0) {
        message?;
    }
    Ok(())
}

/// The context in which the versions of a row are taken: the policy for unknown fields, the moment, their state, and the
/// members to which versions that change a map are sent.
#[derive(Clone, Copy)]
pub struct Taking {
    pub unknown: Unknown,
    pub moment: Moment,
    pub key: StateKey,
    pub route: Route,
}

/// Returns whether a version is greater than the held one, or the first of its key.
#[tactic(auto, unfolding(am_version_order::specs::Versions::is_below))]
fn is_greater<V: Version>(old: Option<&V>, version: &V) -> bool
    ensures { result ≡ is_above V.seen (option_copied old.entry) version.now }
{
    match old {
        Some(old) => old.compare(version).is_lt(),
        None => true,
    }
}

/// Returns whether taking a version changes the map: the version is live, and greater than the held one or the first of its
/// key.
fn is_change<V: Version>(held: &Held<V>, version: &V, now: Moment) -> bool
    ensures { result ≡ changes V.seen now (at V.seen V.Key.cmp held.now) version.now }
{
    now < version.expires() && is_greater(held.get(version.key()), version)
}

/// Takes a version, counts it, and sends it on if it changes the map. If memory runs out, nothing is taken.
fn take_one<V: Version>(
    held: &mut Held<V>,
    version: V,
    taking: &Taking,
    outbox: &mut FrameSender,
    taken: &mut usize,
) -> Result<(), AllocError>
    ensures map { OnOk result ((key : V.Key) →
        at V.seen V.Key.cmp held.new key ≡ after V.seen V.Key.cmp (at V.seen V.Key.cmp held.old)
        (Delivered version) taking.now.moment key) }
    ensures count { OnOk result (taken.new ≡ taken.old + 1) }
    ensures sent { OnOk result (Sends (deltas_of V.seen taking.now.key
        (places_but taking.now.route.members taking.now.route.own taking.now.route.origin)
        (only_if (changes V.seen taking.now.moment (at V.seen V.Key.cmp held.old) version) version)) outbox.old outbox.new) }
    ensures held { OnErr result (held.new ≡ held.old) }
    ensures not_counted { OnErr result (taken.new ≡ taken.old) }
{
    let Some(count) = taken.checked_add(1) else {
        return Err(AllocError);
    };
    if is_change(held, &version, taking.moment) {
        outbox.send_version(taking.route, taking.key, version.canonical());
    }
    held.take(version, taking.moment)?;
    *taken = count;
    Ok(())
}

/// Takes the versions of a row in order, and counts them. Versions that change the map are sent on.
///
/// # Errors
///
/// [`AllocError`] if memory runs out. The versions that were counted were taken.
pub fn merge_row<V: Record>(
    alloc: Global,
    held: &mut Held<V>,
    row: &[u8],
    taking: &Taking,
    outbox: &mut FrameSender,
    taken: &mut usize,
) -> Result<(), AllocError>
    requires { first_fault (messages_of (V.reads taking.now.unknown) row.now) ≡ None }
    ensures map { OnOk result ((key : V.Key) → at V.seen V.Key.cmp held.new key
        ≡ after_all V.seen V.Key.cmp (at V.seen V.Key.cmp held.old)
        (takings taking.now.moment (before_fault (messages_of (V.reads taking.now.unknown) row.now))) key) }
    ensures count { OnOk result (taken.new ≡ taken.old + length (before_fault (messages_of (V.reads taking.now.unknown) row.now))) }
    ensures sent { OnOk result (Sends (deltas_of V.seen taking.now.key
        (places_but taking.now.route.members taking.now.route.own taking.now.route.origin)
        (changed V.seen V.Key.cmp taking.now.moment (at V.seen V.Key.cmp held.old)
        (before_fault (messages_of (V.reads taking.now.unknown) row.now)))) outbox.old outbox.new) }
    ensures stopped { OnErr result (IsStoppedRow V.seen V.Key.cmp taking.now.moment held.old
        (before_fault (messages_of (V.reads taking.now.unknown) row.now)) held.new taken.old taken.new) }
{
    for message in Messages::<V>::within(alloc, taking.unknown, row, 0) {
        let Ok(version) = message else {
            return Err(AllocError);
        };
        take_one(held, version, taking, outbox, taken)?;
    }
    Ok(())
}
