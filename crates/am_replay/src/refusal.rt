//! The reasons why a step of a schedule is refused.

ghost use Rattle.std.specs.Prelude.{◌≡◌};
ghost use Rattle.am_replay.specs.Texts.{settle_refusal, step_refusal};

use am_cluster::{ClusterError, SettleError};
use am_silence::SilenceError;

/// The kind of a refusal.
#[derive(Clone, Copy)]
pub enum LineRefusal {
    // The reasons why a silence isn't posted, or isn't ended.
    NotFound,
    NoMatcher,
    EmptyName,
    BadPattern,
    AllMatchEmpty,
    EndNotAfterStart,
    EndInPast,
    AlreadyExpired,
    Newer,
    IdInUse,
    TooLarge,
    Memory,
    /// The moment is before the last one.
    MomentBack,
    /// There is no such peer.
    UnknownPeer,
    /// The member doesn't run.
    Stopped,
    /// The member runs already.
    Running,
    /// No frame with that number is in flight.
    NoFrame,
}

impl From<SilenceError> for LineRefusal {
    ghost use Rattle.am_replay.specs.Refusals.{kind_of};

    ghost from_gives = { λ error refusal. refusal ≡ kind_of error };

    fn from(error: SilenceError) -> LineRefusal {
        match error {
            SilenceError::NotFound => LineRefusal::NotFound,
            SilenceError::NoMatcher => LineRefusal::NoMatcher,
            SilenceError::EmptyName => LineRefusal::EmptyName,
            SilenceError::BadPattern => LineRefusal::BadPattern,
            SilenceError::AllMatchEmpty => LineRefusal::AllMatchEmpty,
            SilenceError::EndNotAfterStart => LineRefusal::EndNotAfterStart,
            SilenceError::EndInPast => LineRefusal::EndInPast,
            SilenceError::AlreadyExpired => LineRefusal::AlreadyExpired,
            SilenceError::Newer { .. } => LineRefusal::Newer,
            SilenceError::IdInUse => LineRefusal::IdInUse,
            SilenceError::TooLarge => LineRefusal::TooLarge,
            SilenceError::Memory => LineRefusal::Memory,
        }
    }
}

/// Returns the kind of a step's refusal, or `None` if memory ran out.
pub fn step_refusal(error: ClusterError) -> Option<LineRefusal>
    ensures { result ≡ step_refusal error }
{
    match error {
        ClusterError::NoFrame => Some(LineRefusal::NoFrame),
        ClusterError::Running => Some(LineRefusal::Running),
        ClusterError::Stopped => Some(LineRefusal::Stopped),
        ClusterError::MomentBack { .. } => Some(LineRefusal::MomentBack),
        ClusterError::UnknownPeer => Some(LineRefusal::UnknownPeer),
        ClusterError::Memory => None,
    }
}

/// Returns the kind of a settle's refusal, or `None` if memory ran out.
pub fn settle_refusal(error: SettleError) -> Option<LineRefusal>
    ensures { result ≡ settle_refusal error }
{
    match error {
        SettleError::Stopped => Some(LineRefusal::Stopped),
        SettleError::MomentBack => Some(LineRefusal::MomentBack),
        SettleError::Memory => None,
    }
}
