//! The log versions of lines.

ghost use Rattle.std.specs.Prelude.{◌≡◌, ◌≤◌, length, IfOk, OnOk};
ghost use Rattle.am_wire.specs.Limits.{most};
ghost use Rattle.am_nflog.specs.Mesh.{writes_mesh_entry};
ghost use Rattle.am_cluster.specs.Versions.{entry_of};

use crate::lines::VersionLine;
use crate::texts::hashes_of;
use am_nflog::{Entry, LogKey, MeshEntry};
use am_schedule::LogLine;
use am_version_order::Moment;
use am_wire::Bytes;
use std::alloc::{AllocError, Global};

/// Returns the entry of a line.
#[tactic(auto, using(crate::proofs::Lengths::entry_fits))]
fn entry(alloc: Global, line: &LogLine) -> Result<Entry, AllocError>
    ensures entry { IfOk result (λ entry. entry ≡ (entry_of line.now).entry) }
    ensures fits { OnOk result (length (writes_mesh_entry (entry_of line.now)) ≤ most) }
{
    Ok(Entry {
        key: LogKey::of_parts(
            alloc,
            line.group.as_str().as_bytes(),
            line.receiver.as_str(),
            "",
            0,
        )?,
        group_hash: Bytes::new(Vec::new(alloc)),
        resolved: false,
        timestamp: line.updated,
        firing_alerts: hashes_of(alloc, &line.firing)?,
        resolved_alerts: hashes_of(alloc, &line.resolved)?,
    })
}

impl VersionLine<MeshEntry> for LogLine {
    ghost version_of = { entry_of };

    ghost updated_of = { λ line. line.updated };

    fn updated(&self) -> Moment {
        self.updated
    }

    #[tactic(auto, using(crate::proofs::ReadAgain::entry_again))]
    fn version(&self, alloc: Global) -> Result<MeshEntry, AllocError> {
        let entry = entry(alloc, self)?;
        // The entry fits, so an error means that memory ran out.
        match MeshEntry::new(alloc, entry, self.expires) {
            Ok(version) => Ok(version),
            Err(_) => Err(AllocError),
        }
    }
}
