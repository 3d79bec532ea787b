//! The notification log.

use crate::samples::{at, entry, group_key, hashes, holds, logged, receiver, second};
use am_nflog::{HashIter, LogKey, MeshEntry, make_entry};
use am_version_order::{Moment, Version};
use am_wire::WireError;
use std::alloc::Global;

/// Calls everything public of am_nflog.
pub fn calls(alloc: Global) -> Option<()> {
    let version: Result<MeshEntry, WireError> = MeshEntry::new(alloc, entry(alloc)?, at(200));
    holds(version.is_ok())?;
    key(logged(alloc)?.key())?;
    fields(&logged(alloc)?)?;
    lists(&logged(alloc)?)?;
    notified(alloc)
}

fn key(key: &LogKey) -> Option<()> {
    let group_key: &[u8] = key.group_key();
    let group_name: &str = key.group_name();
    let integration: &str = key.integration();
    let idx: u32 = key.idx();
    holds(group_key == b"g".as_slice() && group_name == "r" && integration == "w" && idx == 0)
}

fn fields(version: &MeshEntry) -> Option<()> {
    let timestamp: Moment = version.timestamp();
    let expires_at: Moment = version.expires_at();
    let group_hash: &[u8] = version.group_hash();
    let resolved: bool = version.resolved();
    holds(timestamp < expires_at && group_hash.is_empty() && !resolved)
}

fn lists(version: &MeshEntry) -> Option<()> {
    let firing: HashIter<'_> = version.firing_alerts();
    let resolved: HashIter<'_> = version.resolved_alerts();
    holds(!firing.is_empty() && resolved.is_empty())
}

fn notified(alloc: Global) -> Option<()> {
    let (group_key, receiver) = (group_key(alloc)?, receiver(alloc)?);
    let (firing, resolved) = (hashes(alloc)?, hashes(alloc)?);
    let second = second()?;
    let made: Result<Option<MeshEntry>, WireError> = make_entry(
        alloc,
        group_key,
        receiver,
        firing,
        resolved,
        second,
        second,
        at(10),
    );
    holds(made.ok()?.is_some())
}
