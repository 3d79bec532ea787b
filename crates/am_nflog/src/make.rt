//! The entry that a notification leaves in the log.

ghost use Rattle.std.specs.Prelude.{◌≡◌, ◌<◌, ◌≤◌, ◌↔◌, ◌⊎◌, length, Err, IfOk, IfErr, OnErr, IfSome, IsNone};
ghost use Rattle.am_wire.specs.Limits.{most};
ghost use Rattle.am_wire.specs.declared.error.WireError.TheVariants as errors;
ghost use Rattle.am_nflog.specs.Mesh.{writes_mesh_entry};
ghost use Rattle.am_nflog.specs.Made.{made_entry, expiry};

use crate::fields::EntryFields;
use crate::hashes::Hashes;
use crate::key_parts::KeyParts;
use crate::mesh::MeshEntry;
use crate::receiver::Receiver;
use am_version_order::{Interval, Moment};
use am_wire::{Bytes, WireError};
use std::alloc::Global;

/// Returns the moment at which the entry of a notification at `now` expires.
fn expiry(repeat: Interval, retention: Interval, now: Moment) -> Moment
    ensures { result ≡ expiry repeat retention now }
{
    let by_retention = now.capped_add(retention);
    let by_repeat = now.capped_add(repeat).capped_add(repeat);
    by_retention.min(by_repeat)
}

/// Returns the entry of a notification at `now`. It expires after the smaller of `retention` and two times `repeat`, but not
/// after [`Moment::GREATEST`]. If that is not after `now`, no entry is made, and nothing is refused.
///
/// # Errors
///
/// [`WireError::TooLarge`] if and only if an entry is to be made and its version's canonical encoding has more than 67,108,864
/// bytes, and [`WireError::Memory`] if memory runs out.
pub fn make_entry(
    alloc: Global,
    group_key: Bytes,
    receiver: Receiver,
    firing: Hashes,
    resolved: Hashes,
    repeat: Interval,
    retention: Interval,
    now: Moment,
) -> Result<Option<MeshEntry>, WireError>
    // PROMISE: A notification leaves exactly its entry.
    ensures made { IfOk result (λ made. IfSome made (λ m. m ≡ made_entry group_key receiver firing resolved repeat retention now)) }
    ensures none { IfOk result (λ made. IsNone made ↔ (expiry repeat retention now ≤ now)) }
    ensures wanted { OnErr result (now < expiry repeat retention now) }
    ensures too_large { (result ≡ Err errors.TooLarge) ↔ ((now < expiry repeat retention now) ×
        (most < length (writes_mesh_entry (made_entry group_key receiver firing resolved repeat retention now)))) }
    ensures refused { IfErr result (λ e. (e ≡ errors.Memory) ⊎ (e ≡ errors.TooLarge)) }
{
    let expires_at = expiry(repeat, retention, now);
    if expires_at <= now {
        return Ok(None);
    }
    let fields = EntryFields {
        key: KeyParts::of(group_key.as_slice(), &receiver.borrowed()),
        group_hash: &[],
        resolved: false,
        timestamp: now,
        firing_alerts: firing.as_slice(),
        resolved_alerts: resolved.as_slice(),
    };
    let made = MeshEntry::of_fields(alloc, &fields, expires_at)?;
    Ok(Some(made))
}
