//! Opening sealed frames in the pieces in which they arrive.

ghost use Rattle.std.specs.Prelude.{◌≡◌, [], ◌++◌, ◌≤◌, ℕ, List, IfOk, IfSome, None, drop, take, length};
ghost use Rattle.am_peer_auth.specs.Openings.{Opens, StandsFirst, ended};
ghost use Rattle.am_peer_auth.specs.Sequences.{after};
ghost use Rattle.am_peer_auth.specs.Summings.{Covers, CoversIn};

use crate::mac::SUM;
use crate::seal::{Origin, SealError, open_frame};
use crate::sequence::Sequence;
use crate::summing::{Summing, sum_so_far};
use am_gossip::Frame;
use std::alloc::{AllocError, Global};
use std::marker::Model;
use std::mem;

/// The first byte of a sealed connection, which is followed by a greeting and then by sealed frames.
pub const SEALED: u8 = 1;

/// The number of bytes before the encoding of a frame: its sum, and its length.
const HEAD: usize = 36;

/// The maximum number of bytes in a frame's encoding: 67,108,864 of its payload, and 11 before them.
pub const MOST_TEXT: usize = 67_108_875;

/// The front of sealed bytes.
#[derive(Drop)]
enum Front {
    /// A frame with a correct sum, its number of bytes, and the place of the next one.
    Taken {
        frame: Frame,
        len: usize,
        next: Sequence,
    },
    /// The frame isn't whole yet. Its encoding may be summed already, as far as it has come.
    Waits(Option<Summing>),
    Refused(SealError),
}

/// The result of opening sealed bytes.
#[derive(Drop)]
pub struct Opened {
    /// The frames with correct sums, in their order.
    pub frames: Vec<Frame>,
    /// The reason why no frame is taken after them.
    pub fault: Option<SealError>,
    /// The place of the next frame in the connection.
    pub next: Sequence,
}

/// The bytes of a sealed frame that isn't whole, and perhaps the sum of its encoding so far. Contracts see the bytes.
#[derive(Drop)]
pub struct Waiting {
    bytes: Vec<u8>,
    summing: Option<Summing>,
}

impl Model for Waiting {
    ghost use Rattle.std.specs.Prelude.{ℕ, List, IfSome};
    ghost use Rattle.am_peer_auth.specs.Summings.{CoversIn};

    ghost Value = { List ℕ };

    ghost view = { λ w. w.bytes.items };

    ghost invariant = { λ w. IfSome w.summing (CoversIn w.bytes.items) };
}

impl Waiting {
    /// Returns no bytes: nothing of a frame has come. Takes no memory.
    pub fn new(alloc: Global) -> Waiting
        ensures { result ≡ [] }
    {
        Waiting {
            bytes: Vec::new(alloc),
            summing: None,
        }
    }

    /// Returns the bytes with a piece after them.
    fn followed_by(self, piece: &[u8]) -> Result<Waiting, AllocError>
        ensures { IfOk result (λ waiting. waiting ≡ self ++ piece.now) }
    {
        let Waiting { mut bytes, summing } = self;
        bytes.extend_from_slice(piece)?;
        Ok(Waiting { bytes, summing })
    }

    /// Returns the number of bytes that wait.
    pub fn len(&self) -> usize
        ensures { result ≡ length self.now }
    {
        self.bytes.len()
    }
}

/// Returns the sum of an encoding that isn't whole, or `None` if memory runs out.
fn summed(
    alloc: Global,
    summing: Option<Summing>,
    origin: Origin<'_>,
    encoding: &[u8],
) -> Option<Summing>
    requires covers { IfSome summing (λ s. Covers s encoding.now) }
    ensures covers { IfSome result (λ s. Covers s encoding.now) }
{
    match sum_so_far(alloc, summing, origin, encoding) {
        Ok(summing) => Some(summing),
        Err(_) => None,
    }
}

/// Returns the sum if it covers no more than the first `size` bytes of an encoding.
fn summed_within(summing: Option<Summing>, size: usize) -> Option<Summing>
    ensures within { (encoding : List ℕ) → size ≤ length encoding → IfSome summing (λ s. Covers s encoding) → IfSome result (λ s. Covers s (take size encoding)) }
{
    let summing = summing?;
    if summing.count() <= size {
        Some(summing)
    } else {
        None
    }
}

/// Returns the front of sealed bytes of this origin. `summing` covers the beginning of its encoding, if it is there.
fn front_of(alloc: Global, origin: Origin<'_>, bytes: &[u8], summing: Option<Summing>) -> Front
    requires covers { IfSome summing (CoversIn bytes.now) }
    ensures { StandsFirst origin.entry.lock origin.entry.sender.now origin.entry.place bytes.now result }
{
    let Some(next) = origin.place.next() else {
        return Front::Refused(SealError::Number);
    };
    let Some((sum, behind)) = bytes.split_first_chunk::<SUM>() else {
        return Front::Waits(None);
    };
    let Some((size, behind)) = behind.split_first_chunk::<4>() else {
        return Front::Waits(None);
    };
    let size = u32::from_be_bytes(*size) as usize;
    if size > MOST_TEXT {
        return Front::Refused(SealError::Length);
    }
    if behind.len() < size {
        return Front::Waits(summed(alloc, summing, origin, behind));
    }
    let summing = summed_within(summing, size);
    match open_frame(alloc, origin, summing, sum, &behind[..size]) {
        Ok(frame) => Front::Taken {
            frame,
            len: HEAD + size,
            next,
        },
        Err(error) => Front::Refused(error),
    }
}

/// The result of opening all whole frames at the front of sealed bytes.
#[derive(Drop)]
struct AllOpened {
    opened: Opened,
    /// The number of bytes that the frames take.
    used: usize,
    /// The sum of the encoding that waits behind them.
    summing: Option<Summing>,
}

/// Returns the frames at the front of sealed bytes, the first of this origin, and the reason why none is taken after them.
/// `summing` covers the beginning of the first one's encoding, if it is there.
///
/// # Errors
///
/// Returns [`AllocError`] if memory runs out.
fn open_all(
    alloc: Global,
    origin: Origin<'_>,
    bytes: &[u8],
    summing: Option<Summing>,
) -> Result<AllOpened, AllocError>
    requires covers { IfSome summing (CoversIn bytes.now) }
    ensures opened { IfOk result (λ x. Opens origin.entry.lock origin.entry.sender.now origin.entry.place bytes.now x.opened.frames.items (ended (drop x.used bytes.now) x.opened.fault)) }
    ensures counted { IfOk result (λ x. x.opened.next ≡ after (length x.opened.frames.items) origin.entry.place) }
    ensures within { IfOk result (λ x. x.used ≤ length bytes.now) }
    ensures summed { IfOk result (λ x. IfSome x.summing (CoversIn (drop x.used bytes.now))) }
{
    let mut frames = Vec::new(alloc);
    let mut used = 0;
    let mut reached = origin.place;
    let mut known = summing;
    let (fault, summing) = loop {
        let at = Origin {
            place: reached,
            ..origin
        };
        match front_of(alloc, at, &bytes[used..], known.take()) {
            Front::Taken { frame, len, next } => {
                frames.push(frame)?;
                used += len;
                reached = next;
            }
            Front::Waits(summing) => break (None, summing),
            Front::Refused(error) => break (Some(error), None),
        }
    };
    let opened = Opened {
        frames,
        fault,
        next: reached,
    };
    Ok(AllOpened {
        opened,
        used,
        summing,
    })
}

/// Returns the bytes behind the first `used`.
fn rest_from(alloc: Global, bytes: Vec<u8>, used: usize) -> Result<Vec<u8>, AllocError>
    requires { used ≤ length bytes.items }
    ensures { IfOk result (λ rest. rest.items ≡ drop used bytes.items) }
{
    if used == 0 {
        return Ok(bytes);
    }
    bytes[used..].to_vec(alloc)
}

/// Opens the waiting bytes with a piece after them, and leaves the bytes that wait then.
fn open_on(
    alloc: Global,
    origin: Origin<'_>,
    waiting: &mut Waiting,
    piece: &[u8],
) -> Result<Opened, AllocError>
    ensures opened { IfOk result (λ opened. Opens origin.entry.lock origin.entry.sender.now origin.entry.place (waiting.old ++ piece.now) opened.frames.items (ended waiting.new
        opened.fault)) }
    ensures counted { IfOk result (λ opened. opened.next ≡ after (length opened.frames.items) origin.entry.place) }
{
    let waited = mem::replace(waiting, Waiting::new(alloc));
    let Waiting { bytes, summing } = waited.followed_by(piece)?;
    let all = open_all(alloc, origin, &bytes, summing)?;
    *waiting = Waiting {
        bytes: rest_from(alloc, bytes, all.used)?,
        summing: all.summing,
    };
    Ok(all.opened)
}

/// Takes the next piece of a sealed stream, after the waiting beginning of a frame of this origin. Returns the frames with
/// correct sums that end in it, and the reason why none is taken after them.
///
/// The places of the cuts between pieces make no difference. Only the bytes of an incomplete frame wait, and they are summed as
/// they come: so a long frame takes no longer at its end than at any other piece, but for the reading of its encoding.
pub fn open_piece(alloc: Global, origin: Origin<'_>, waiting: &mut Waiting, piece: &[u8]) -> Opened
    // PROMISE: Of a connection just the frames are taken whose sums are right for its challenge, each at the number behind that of the one before.
    ensures opens { Opens origin.entry.lock origin.entry.sender.now origin.entry.place (waiting.old ++ piece.now) result.frames.items (ended waiting.new result.fault) }
    ensures next { result.next ≡ after (length result.frames.items) origin.entry.place }
{
    match open_on(alloc, origin, waiting, piece) {
        Ok(opened) => opened,
        Err(_) => Opened {
            frames: Vec::new(alloc),
            fault: Some(SealError::Memory),
            next: origin.place,
        },
    }
}
