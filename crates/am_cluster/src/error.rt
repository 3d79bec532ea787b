//! The reasons why a step or a settle is refused.

ghost use Rattle.std.specs.Prelude.{◌≡◌};

use am_version_order::Moment;
use std::alloc::AllocError;
use thiserror::Error;

/// The reason why a step is refused: the first of these that applies, in their order. [`ClusterError::Memory`] is also
/// returned if there was no room to record another reason, and nothing has changed then.
#[derive(Clone, Copy, Debug, Error)]
pub enum ClusterError {
    #[error("no frame of this number is in flight")]
    NoFrame,
    #[error("the member runs")]
    Running,
    #[error("the member is stopped")]
    Stopped,
    #[error("the moment is before the last one")]
    MomentBack { last: Moment },
    #[error("no such peer")]
    UnknownPeer,
    /// Memory ran out. Either the step wasn't made, and nothing changed; or what was delivered stands, and none of the
    /// frames that the step was to send is in flight.
    #[error("out of memory")]
    Memory,
}

impl From<AllocError> for ClusterError {
    ghost use Rattle.am_cluster.specs.declared.error.ClusterError.TheVariants.{Memory};

    ghost from_gives = { λ _ e. e ≡ Memory };

    fn from(_e: AllocError) -> ClusterError {
        ClusterError::Memory
    }
}

/// The reason why a settle is refused: the first of these that applies, in their order.
#[derive(Clone, Copy, Debug, PartialEq, Eq, Error)]
pub enum SettleError {
    #[error("a member is stopped")]
    Stopped,
    /// The moment is before the last one of a member. Each such member isn't calm from then on.
    #[error("the moment is before the last one of a member")]
    MomentBack,
    /// Memory ran out. Collections that were made stand, and so do the maps that were taken, and both count. This is also
    /// the reason if the row of a map that is to be taken has more than 67,108,864 bytes.
    #[error("out of memory")]
    Memory,
}

impl From<AllocError> for SettleError {
    ghost use Rattle.am_cluster.specs.declared.error.SettleError.TheVariants.{Memory};

    ghost from_gives = { λ _ e. e ≡ Memory };

    fn from(_e: AllocError) -> SettleError {
        SettleError::Memory
    }
}
