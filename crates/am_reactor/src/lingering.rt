//! The end of a connection: a stream that is closed with bytes unread would take the reply back.

ghost use Rattle.std.specs.Prelude.{◌≡◌, ◌≢◌, false, true, IsTrue};
ghost use Rattle.am_reactor.specs.History.{Throws, line_of};

use crate::connection::{Connection, Phase, Readiness};
use crate::reading::{PIECES, ReadResult, read_once};
use crate::stream::Stream;
use std::time::{Duration, Instant};

/// The number of milliseconds for which a connection that has ended stays open while nothing comes.
const QUIET: u64 = 200;

/// Returns the end of a quiet time that begins now.
fn quiet_from(now: Instant) -> Instant {
    now.checked_add(Duration::from_millis(QUIET)).unwrap_or(now)
}

/// Shuts the connection down for writing. Returns whether something may still come.
pub fn shutdown_write<T, C: Stream>(connection: &mut Connection<T, C>, now: Instant) -> bool
    ensures session { connection.new.session ≡ connection.old.session }
    ensures unwritten { C.gone connection.new.stream ≡ C.gone connection.old.stream }
    ensures kept { result ≡ false → connection.new.phase ≡ connection.old.phase }
    ensures unread { C.arrived connection.new.stream ≡ C.arrived connection.old.stream }
    ensures leaves { IsTrue result → connection.new.phase ≢ Phase.Open }
{
    if connection.ended || !connection.stream.finish() {
        return false;
    }
    connection.phase = Phase::Lingering(quiet_from(now));
    true
}

/// Throws away what came, and begins the quiet time anew if something did. Returns `None` if nothing more can come.
pub fn drain<T, C: Stream>(
    connection: &mut Connection<T, C>,
    piece: &mut [u8],
    now: Instant,
) -> Option<Readiness>
    requires { connection.old.phase ≢ Phase.Open }
    ensures session { connection.new.session ≡ connection.old.session }
    ensures unwritten { C.gone connection.new.stream ≡ C.gone connection.old.stream }
    ensures thrown { (bytes : _) × Throws C.arrived C.gone bytes (line_of connection.old) (line_of connection.new) }
{
    for _ in 0..PIECES {
        match read_once(&mut connection.stream, piece) {
            ReadResult::Bytes(_) => connection.phase = Phase::Lingering(quiet_from(now)),
            ReadResult::Nothing => return Some(Readiness::Idle),
            ReadResult::Interrupted => {}
            ReadResult::End | ReadResult::Failed(_) => return None,
        }
    }
    Some(Readiness::Busy)
}
