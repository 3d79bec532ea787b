//! The bytes that come back over an exchange.

ghost use Rattle.std.specs.Prelude.{◌≡◌, ◌++◌, ◌<◌, ◌≤◌, Ok, length, IsErrOf, OnErr, OnOk};
ghost use Rattle.am_reactor.specs.Exchanges.{BreaksOff, ComesBack, IsTooMuch};
ghost use Rattle.am_reactor.specs.Streams.{Receives, HasEnded};

use crate::connection::Readiness;
use crate::fault::LinkFault;
use crate::reading::{PIECES, ReadResult, read_once};
use crate::send_buffer::Progress;
use crate::stream::Stream;

/// Reads once, and appends what came if the answer then has at most `most` bytes.
///
/// # Errors
///
/// [`LinkFault::TooLong`] and [`LinkFault::Memory`]; nothing is appended then.
pub fn read_piece<C: Stream>(
    answer: &mut Vec<u8>,
    stream: &mut C,
    piece: &mut [u8],
    most: usize,
) -> Result<ReadResult, LinkFault>
    ensures came { OnOk result (ComesBack (C.arrived stream.old) (C.arrived stream.new) answer.old.items answer.new.items) }
    ensures kept { OnErr result (answer.new.items ≡ answer.old.items) }
    ensures dropped { OnErr result ((bytes : _) × Receives (C.arrived stream.old) (C.arrived stream.new) bytes) }
    ensures too_long { IsErrOf result LinkFault.TooLong
        → IsTooMuch most (C.arrived stream.old) (C.arrived stream.new) answer.old.items }
    ensures within { length answer.old.items ≤ most → length answer.new.items ≤ most }
    ensures ended { result ≡ Ok ReadResult.End → 0 < length piece.old → HasEnded (C.arrived stream.new) }
    ensures gone { C.gone stream.new ≡ C.gone stream.old }
{
    let brought = read_once(stream, piece);
    if let ReadResult::Bytes(count) = brought {
        if count > most.saturating_sub(answer.len()) {
            return Err(LinkFault::TooLong);
        }
        answer.extend_from_slice(&piece[..count])?;
    }
    Ok(brought)
}

/// Reads what came back, and appends it, until nothing more is there, the stream has ended or the reads of this turn are used up.
///
/// # Errors
///
/// [`LinkFault::Read`]; [`LinkFault::TooLong`] if more than `most` bytes came; and [`LinkFault::Memory`].
pub fn hear_on<C: Stream>(
    answer: &mut Vec<u8>,
    stream: &mut C,
    piece: &mut [u8],
    most: usize,
) -> Result<Progress, LinkFault>
    // PROMISE: An answer is all that came over its own stream, up to its end and within its limit.
    ensures came { OnOk result (ComesBack (C.arrived stream.old) (C.arrived stream.new) answer.old.items answer.new.items) }
    ensures failed { OnErr result (BreaksOff (C.arrived stream.old) (C.arrived stream.new) answer.old.items answer.new.items) }
    ensures longer { (more : _) × (answer.new.items ≡ answer.old.items ++ more) }
    ensures within { length answer.old.items ≤ most → length answer.new.items ≤ most }
    ensures ended { result ≡ Ok Progress.Done → 0 < length piece.old → HasEnded (C.arrived stream.new) }
    ensures gone { C.gone stream.new ≡ C.gone stream.old }
{
    for _ in 0..PIECES {
        match read_piece(answer, stream, piece, most)? {
            ReadResult::Bytes(_) | ReadResult::Interrupted => {}
            ReadResult::End => return Ok(Progress::Done),
            ReadResult::Nothing => return Ok(Progress::Going(Readiness::Idle)),
            ReadResult::Failed(kind) => {
                return Err(LinkFault::Read {
                    read: answer.len() as u64,
                    kind,
                });
            }
        }
    }
    Ok(Progress::Going(Readiness::Busy))
}
