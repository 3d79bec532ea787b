//! The bytes that are awaited over a link before more goes out.

ghost use Rattle.std.specs.Prelude.{◌≡◌, ◌≤◌, Ok, length, OnOk};
ghost use Rattle.am_reactor.specs.Exchanges.{ComesBack};

use crate::connection::Readiness;
use crate::fault::LinkFault;
use crate::inbox::read_piece;
use crate::reading::{PIECES, ReadResult};
use crate::send_buffer::Progress;
use crate::stream::Stream;

/// The number of awaited bytes that are read at once.
const ROOM: usize = 64;

/// Reads the awaited bytes, and appends them, until all of them are there, nothing more is, or the reads of this turn are used up.
/// It reads nothing behind them.
///
/// # Errors
///
/// [`LinkFault::Read`]; [`LinkFault::Unanswered`] if the stream ended before; and [`LinkFault::Memory`].
pub fn hear_awaited<C: Stream>(
    answer: &mut Vec<u8>,
    stream: &mut C,
    awaited: usize,
) -> Result<Progress, LinkFault>
    ensures came { OnOk result (ComesBack (C.arrived stream.old) (C.arrived stream.new) answer.old.items answer.new.items) }
    ensures done { result ≡ Ok Progress.Done → awaited ≤ length answer.new.items }
    ensures within { length answer.old.items ≤ awaited → length answer.new.items ≤ awaited }
    ensures gone { C.gone stream.new ≡ C.gone stream.old }
{
    let mut piece = [0u8; ROOM];
    for _ in 0..PIECES {
        let left = awaited.saturating_sub(answer.len());
        if left == 0 {
            return Ok(Progress::Done);
        }
        match read_piece(answer, stream, &mut piece[..left.min(ROOM)], awaited)? {
            ReadResult::Bytes(_) | ReadResult::Interrupted => {}
            ReadResult::Nothing => return Ok(Progress::Going(Readiness::Idle)),
            ReadResult::End => return Err(unanswered(answer)),
            ReadResult::Failed(kind) => {
                return Err(LinkFault::Read {
                    read: answer.len() as u64,
                    kind,
                });
            }
        }
    }
    Ok(Progress::Going(Readiness::Busy))
}

/// Returns the fault of a link over which no more than this came back.
pub fn unanswered(answer: &[u8]) -> LinkFault {
    LinkFault::Unanswered {
        read: answer.len() as u64,
    }
}
