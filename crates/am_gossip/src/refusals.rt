//! Reasons for refusing a configuration or a step, and the places of members.

ghost use Rattle.std.specs.Prelude.{◌≡◌};

use crate::error::FrameError;
use am_version_order::Moment;
use am_wire::WireError;
use std::alloc::{AllocError, AllocFailed};
use thiserror::Error;

/// A member of the cluster: its position, from 0, among all members in the order of their names.
pub type Place = u64;

/// The first reason, in this order, for which names make no configuration.
#[derive(Clone, Copy, Debug, PartialEq, Eq, Error)]
pub enum ConfigError {
    /// A member's name is empty.
    #[error("EmptyName")]
    EmptyName,
    /// A member's name has more than 255 bytes.
    #[error("LongName")]
    LongName,
    /// Two members have the same name.
    #[error("SameName")]
    SameName,
    #[error("Memory")]
    Memory,
}

impl From<AllocError> for ConfigError {
    ghost use Rattle.am_gossip.specs.declared.refusals.ConfigError.TheVariants.{Memory};

    ghost from_gives = { λ _ e. e ≡ Memory };

    fn from(_e: AllocError) -> ConfigError {
        ConfigError::Memory
    }
}

impl<T: Drop> From<AllocFailed<T>> for ConfigError {
    ghost use Rattle.am_gossip.specs.declared.refusals.ConfigError.TheVariants.{Memory};

    ghost from_gives = { λ _ e. e ≡ Memory };

    fn from(_e: AllocFailed<T>) -> ConfigError {
        ConfigError::Memory
    }
}

/// The first reason, in this order, for which a step is refused.
#[derive(Clone, Copy, Debug, PartialEq, Eq, Error)]
pub enum StepError {
    /// The moment is before that of the last event.
    #[error("MomentBack {} {}", .last.parts().0, .last.parts().1)]
    MomentBack { last: Moment },
    /// The event names a place that belongs to no member, or to the member itself.
    #[error("UnknownPeer")]
    UnknownPeer,
    /// A row of a frame is at fault, and none of them is taken; or the entry of a notification is too large.
    #[error("Frame {0}")]
    Frame(FrameError),
    /// The first `taken` versions of the event were taken, and its moment counts. Nothing is sent.
    #[error("Memory {taken}")]
    Memory { taken: usize },
}

impl From<AllocError> for StepError {
    ghost use Rattle.am_gossip.specs.declared.refusals.StepError.TheVariants.{Memory};

    ghost from_gives = { λ _ e. e ≡ Memory 0 };

    fn from(_e: AllocError) -> StepError {
        StepError::Memory { taken: 0 }
    }
}

/// A fault in a row of a frame is a fault of the step.
impl From<WireError> for StepError {
    ghost use Rattle.am_gossip.specs.Refusals.{step_fault};

    ghost from_gives = { λ given e. e ≡ step_fault given };

    fn from(e: WireError) -> StepError {
        match e {
            WireError::Memory => StepError::Memory { taken: 0 },
            fault => StepError::Frame(FrameError::Wire(fault)),
        }
    }
}

impl<T: Drop> From<AllocFailed<T>> for StepError {
    ghost use Rattle.am_gossip.specs.declared.refusals.StepError.TheVariants.{Memory};

    ghost from_gives = { λ _ e. e ≡ Memory 0 };

    fn from(_e: AllocFailed<T>) -> StepError {
        StepError::Memory { taken: 0 }
    }
}
