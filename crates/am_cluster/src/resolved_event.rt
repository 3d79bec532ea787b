//! The meaning of a line.

ghost use Rattle.std.specs.Prelude.{◌≡◌};
ghost use Rattle.am_cluster.specs.LineEvents.{made};

use am_instance::Event;
use am_runs::DeliverySource;

/// The step that a line of a schedule asks of a member.
#[derive(Drop)]
pub enum ResolvedEvent {
    /// The member makes one step of its instance, with versions that come from the source.
    Event {
        event: Event,
        source: DeliverySource,
    },
    /// The member starts from its last save.
    Start,
    /// Nothing is asked: no member has the name of the peer.
    NoMember,
}

/// Returns a step that brings no versions.
pub(crate) fn made(event: Event) -> ResolvedEvent
    ensures { result ≡ made event }
{
    ResolvedEvent::Event {
        event,
        source: DeliverySource::Made,
    }
}
