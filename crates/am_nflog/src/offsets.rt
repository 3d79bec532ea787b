//! The places of an entry's parts in a text.

use am_wire::reading::Offset;

/// The places of an entry's parts in a text.
#[derive(Clone, Copy)]
pub struct Offsets {
    pub group_hash: Offset,
    pub firing_alerts: Offset,
    pub resolved_alerts: Offset,
}
