//! The frames behind a greeting.

ghost use Rattle.std.specs.Prelude.{◌≡◌, ◌⊎◌, ◌-◌, Some, drop, take, string_bytes};
ghost use Rattle.std.specs.Option.{IsSome};
ghost use Rattle.am_gossip.specs.Streams.{rest_bytes};
ghost use Rattle.am_http.specs.Sessions.{Hears, IsUnheard, most_bytes, over, spoken};
ghost use Rattle.am_http.specs.States.{IsSound, ended_by, phase_in};

use crate::session::fault::SessionFault;
use crate::session::output::SessionOutput;
use crate::session::state::{Hearing, SessionState};
use am_gossip::FrameError;
use std::alloc::Global;

/// The maximum number of bytes in a connection of frames.
const MOST_BYTES: usize = 134_217_728;

/// Splits a piece, before which `count` bytes came, into what the connection takes and what is beyond its limit.
fn parted(piece: &[u8], count: usize) -> (&[u8], &[u8])
    ensures took { result.0.now ≡ take (most_bytes - count) piece.now }
    ensures lost { result.1.now ≡ drop (most_bytes - count) piece.now }
{
    match piece.split_at_checked(MOST_BYTES.saturating_sub(count)) {
        Some(parts) => parts,
        None => (piece, &[]),
    }
}

/// Returns why nothing more is heard after a piece.
fn ended_by(fault: Option<FrameError>, lost: &[u8]) -> Option<SessionFault>
    ensures { result ≡ ended_by fault lost.now }
{
    match fault {
        Some(e) => Some(SessionFault::Frame(e)),
        None if lost.is_empty() => None,
        None => Some(SessionFault::TooLarge),
    }
}

/// Returns what a piece of a stream says.
pub fn hear(alloc: Global, hearing: Hearing, piece: &[u8]) -> (SessionOutput, SessionState)
    requires { IsSome hearing.feeder }
    ensures says { Hears (string_bytes hearing.name) hearing.count (rest_bytes hearing.feeder) piece.now (spoken
        result.0) (phase_in result.1)
        ⊎ (IsUnheard (spoken result.0) × (phase_in result.1 ≡ over (Some (string_bytes hearing.name)))) }
    ensures sound { IsSound result.1 }
{
    let mut hearing = hearing;
    let (took, lost) = parted(piece, hearing.count);
    let Ok(fed) = hearing.feeder.feed(took) else {
        return (
            SessionOutput::failed(alloc, FrameError::Memory),
            SessionState::Over(Some(hearing.name)),
        );
    };
    hearing.count += took.len();
    match ended_by(fed.fault, lost) {
        None => (
            SessionOutput::heard(fed.frames, None),
            SessionState::Hearing(hearing),
        ),
        fault => (
            SessionOutput::heard(fed.frames, fault),
            SessionState::Over(Some(hearing.name)),
        ),
    }
}
