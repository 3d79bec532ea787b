//! The frames that `from` lines write.

ghost use Rattle.std.specs.Prelude.{◌≡◌, [], ◌∷◌, Some, None, IfOk};
ghost use Rattle.am_wire.specs.declared.unknown.Unknown.{Unknown};
ghost use Rattle.am_instance.specs.Deliveries.{before_fault, first_fault, rows_in};
ghost use Rattle.am_cluster.specs.Versions.{part_of, sent_at, versions_of};
ghost use Rattle.am_cluster.specs.LineEvents.{Brings, IsSentBefore, IsSound, from};

use crate::lines::{first_updated, row};
use crate::resolved_event::ResolvedEvent;
use am_gossip::{Frame, Part, StateKey};
use am_instance::{Event, Place};
use am_nflog::MeshEntry;
use am_runs::DeliverySource;
use am_schedule::{LogLine, SilenceLine, Versions};
use am_silence::MeshSilence;
use am_version_order::Moment;
use std::alloc::{AllocError, Global};

/// Returns when the frame of these versions counts as sent.
#[tactic(auto, using(crate::proofs::Least::silence_updates, crate::proofs::Least::entry_updates))]
fn sent_at(versions: &Versions) -> Moment
    ensures { result ≡ sent_at (versions_of versions.now) }
{
    match versions {
        Versions::Silences(lines) => first_updated::<MeshSilence, SilenceLine>(lines.as_slice()),
        Versions::Log(lines) => first_updated::<MeshEntry, LogLine>(lines.as_slice()),
    }
}

/// Returns the part that has these versions.
fn part(alloc: Global, versions: &Versions) -> Result<Part, AllocError>
    ensures part { IfOk result (λ part. part ≡ part_of versions.now) }
    ensures clean { IfOk result (λ part. (unknown : Unknown) → first_fault (rows_in unknown (part ∷ [])) ≡ None) }
    ensures read { IfOk result (λ part. (unknown : Unknown) → before_fault (rows_in unknown (part ∷ [])) ≡ versions_of versions.now) }
{
    match versions {
        Versions::Silences(lines) => Ok(Part {
            key: StateKey::Sil,
            bytes: row::<MeshSilence, SilenceLine>(alloc, lines.as_slice())?,
        }),
        Versions::Log(lines) => Ok(Part {
            key: StateKey::Nfl,
            bytes: row::<MeshEntry, LogLine>(alloc, lines.as_slice())?,
        }),
    }
}

/// Returns the step of a Delta of these versions that comes from a member.
pub(crate) fn from(
    alloc: Global,
    sender: Place,
    versions: &Versions,
) -> Result<ResolvedEvent, AllocError>
    ensures asked { IfOk result (λ asked. asked ≡ from (Some sender) versions.now) }
    ensures sound { IfOk result IsSound }
    ensures brought { IfOk result (λ asked. Brings asked (versions_of versions.now)) }
    ensures sent { IfOk result (λ asked. IsSentBefore asked (versions_of versions.now)) }
{
    let sent = sent_at(versions);
    let part = part(alloc, versions)?;
    Ok(ResolvedEvent::Event {
        event: Event::Frame {
            sender,
            frame: Frame::Delta(part),
        },
        source: DeliverySource::Written(sent),
    })
}
