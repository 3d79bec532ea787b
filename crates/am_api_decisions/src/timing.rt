//! The moment of a decision, and the length of turns.

use am_version_order::Moment;

/// The moment of a decision, and the length of each member's turn.
#[derive(Clone, Copy)]
pub struct Timing {
    pub now: Moment,
    pub turn_seconds: u64,
}
