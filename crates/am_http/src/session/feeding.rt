//! The output of a session at the next piece, and at the end of its input.

ghost use Rattle.std.specs.Prelude.{◌≡◌};
ghost use Rattle.am_http.specs.Sessions.{Feeds, SaysEnd, fresh, spoken};
ghost use Rattle.am_http.specs.States.{IsSound, phase_in};

use crate::session::asking::{ask_on, cut_short};
use crate::session::greeting::greet_on;
use crate::session::hearing::hear;
use crate::session::output::SessionOutput;
use crate::session::state::SessionState;
use std::alloc::Global;

/// The smallest first byte of a request; a greeting's is smaller.
const LEAST_OF_REQUESTS: u8 = 0x20;

/// Returns what the first piece says.
fn begin(alloc: Global, piece: &[u8]) -> (SessionOutput, SessionState)
    ensures says { Feeds fresh piece.now (spoken result.0) (phase_in result.1) }
    ensures sound { IsSound result.1 }
{
    match piece.first() {
        None => (SessionOutput::nothing(alloc), SessionState::Fresh),
        Some(first) if *first < LEAST_OF_REQUESTS => greet_on(alloc, Vec::new(alloc), piece),
        Some(_) => ask_on(alloc, Vec::new(alloc), piece),
    }
}

/// Returns what the next piece says.
pub fn next_of(alloc: Global, state: SessionState, piece: &[u8]) -> (SessionOutput, SessionState)
    requires { IsSound state }
    ensures says { Feeds (phase_in state) piece.now (spoken result.0) (phase_in result.1) }
    ensures sound { IsSound result.1 }
{
    match state {
        SessionState::Fresh => begin(alloc, piece),
        SessionState::Asking(bytes) => ask_on(alloc, bytes, piece),
        SessionState::Greeting(bytes) => greet_on(alloc, bytes, piece),
        SessionState::Hearing(hearing) => hear(alloc, hearing, piece),
        SessionState::Over(name) => (SessionOutput::nothing(alloc), SessionState::Over(name)),
    }
}

/// Returns what the end of the input says.
pub fn end_of(alloc: Global, state: &SessionState) -> SessionOutput
    requires { IsSound state.now }
    ensures { SaysEnd (phase_in state.now) (spoken result) }
{
    match state {
        SessionState::Asking(bytes) => cut_short(alloc, bytes),
        _ => SessionOutput::nothing(alloc),
    }
}
