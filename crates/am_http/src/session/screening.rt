//! The check of where a request comes from, before anything else of it is looked at.

ghost use Rattle.std.specs.Prelude.{◌≡◌, ◌++◌, IfOk};
ghost use Rattle.am_http.specs.Hosts.{IsScreened, texts};
ghost use Rattle.am_http.specs.Sessions.{Screens};
ghost use Rattle.am_http.specs.States.{phase_in};

use crate::hosts::{Screened, screen};
use crate::session::state::SessionState;
use std::alloc::{AllocError, Global};

/// Returns what a piece that follows the bytes of a request so far says about where it comes from.
fn screen_on(
    alloc: Global,
    bytes: &[u8],
    piece: &[u8],
    names: &[&str],
) -> Result<Screened, AllocError>
    ensures { IfOk result (IsScreened (texts names.now) (bytes.now ++ piece.now)) }
{
    let mut joined = Vec::from_slice(alloc, bytes)?;
    joined.extend_from_slice(piece)?;
    Ok(screen(joined.as_slice(), names))
}

/// Returns what is known, with the next piece, about where a connection comes from.
pub fn screened(
    alloc: Global,
    state: &SessionState,
    piece: &[u8],
    names: &[&str],
) -> Result<Screened, AllocError>
    ensures { IfOk result (Screens (phase_in state.now) piece.now (texts names.now)) }
{
    match state {
        SessionState::Fresh => Ok(screen(piece, names)),
        SessionState::Asking(bytes) => screen_on(alloc, bytes.as_slice(), piece, names),
        _ => Ok(Screened::Known),
    }
}
