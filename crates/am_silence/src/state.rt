//! The states of a silence, by whether it has begun and whether it has ended.

ghost use Rattle.std.specs.Prelude.{◌≡◌, ◌<◌, false};
ghost use Rattle.am_silence.specs.declared.silence.Silence.{Silence};
ghost use Rattle.am_version_order.specs.Moments.{greatest};
ghost use Rattle.am_silence.specs.States.{state_of, is_expired};

use crate::silence::Silence;
use am_version_order::Moment;

/// The position of a moment relative to the start and the end of a silence.
#[derive(Clone, Copy, Debug, PartialEq, Eq)]
pub enum State {
    /// The moment is before the start.
    Pending,
    /// The moment is from the start on and before the end: the silence mutes.
    Active,
    /// The moment is from the end on.
    Expired,
}

/// Returns the state of a silence at a moment. Nothing is allocated.
pub fn state_at(silence: &Silence, now: Moment) -> State
    ensures { result ≡ state_of silence.now now }
{
    state_between(silence.starts_at, silence.ends_at, now)
}

/// Returns the state of a silence with this start and this end.
pub(crate) fn state_between(starts_at: Moment, ends_at: Moment, now: Moment) -> State
    ensures state { (silence : Silence) → starts_at ≡ silence.starts_at → ends_at ≡ silence.ends_at → result ≡ state_of silence now }
    ensures last { is_expired result ≡ false → now < greatest }
{
    if now < starts_at {
        State::Pending
    } else if now < ends_at {
        State::Active
    } else {
        State::Expired
    }
}
