//! The seal of one frame.

ghost use Rattle.std.specs.Prelude.{◌≡◌, ◌++◌, IfOk, IfErr, IfSome, OnOk, length};
ghost use Rattle.am_peer_auth.specs.Seals.{IsNoFrame, IsOnly, IsRight, IsUntaken, seal_sum, sealed_frame, sealed_frames};
ghost use Rattle.am_peer_auth.specs.Sequences.{after};
ghost use Rattle.am_peer_auth.specs.Summings.{Covers};

use crate::mac::{Mac, SUM, are_same};
use crate::sequence::Sequence;
use crate::summing::{Summing, whole_sum};
use am_gossip::{Fed, Feeder, Frame, FrameError, encode_frame};
use std::alloc::{AllocError, Global};
use thiserror::Error;

/// The means of sealing and opening frames: the members' secret, and the name of the member that does it.
#[derive(Clone, Copy)]
pub struct Lock<'a> {
    pub secret: &'a [u8],
    pub name: &'a str,
}

/// The origin of a sealed frame, as the receiver knows it: its sender, its place in the connection, and the lock that opens it.
#[derive(Clone, Copy)]
pub struct Origin<'a> {
    pub lock: Lock<'a>,
    pub sender: &'a str,
    pub place: Sequence,
}

/// The reason for not taking a sealed frame. It is printed as its name.
#[derive(Clone, Copy, Debug, PartialEq, Eq, Error)]
pub enum SealError {
    /// The length is over the limit of frames.
    #[error("Length")]
    Length,
    /// The sum isn't that of the frame's place in the connection, its sender, its addressee and its bytes under the secret.
    #[error("Sum")]
    Sum,
    /// The sum is correct, but the bytes aren't one frame.
    #[error("NotOneFrame")]
    NotOneFrame,
    /// There is no number for a next frame.
    #[error("Number")]
    Number,
    #[error("Memory")]
    Memory,
}

impl From<AllocError> for SealError {
    ghost use Rattle.am_peer_auth.specs.declared.seal.SealError.TheVariants.{Memory};

    ghost from_gives = { λ _ e. e ≡ Memory };

    fn from(_e: AllocError) -> SealError {
        SealError::Memory
    }
}

/// Returns the sum of a frame's encoding that one member sends to another at a place in a connection: the sum of the challenge,
/// of the number in 8 bytes, the highest first, of both names, each after its length in 8 such bytes, and of the encoding.
#[tactic(auto, unfolding(crate::specs::Seals::seal_sum))]
pub fn sum_of(
    secret: &[u8],
    place: Sequence,
    sender: &str,
    addressee: &str,
    encoding: &[u8],
) -> [u8; SUM]
    ensures { result ≡ seal_sum secret.now place sender.now addressee.now encoding.now }
{
    let mut mac = Mac::new(secret);
    mac.update(&place.challenge);
    mac.update(&place.number.to_be_bytes());
    mac.update(&(sender.len() as u64).to_be_bytes());
    mac.update(sender.as_bytes());
    mac.update(&(addressee.len() as u64).to_be_bytes());
    mac.update(addressee.as_bytes());
    mac.update(encoding);
    mac.finalize()
}

/// Reads an encoding as exactly one frame.
///
/// # Errors
///
/// Returns [`SealError::NotOneFrame`] if the encoding is no frame, or more than one, and [`SealError::Memory`] if memory runs out.
fn only_frame(alloc: Global, encoding: &[u8]) -> Result<Frame, SealError>
    ensures taken { IfOk result (λ frame. IsOnly encoding.now frame) }
    ensures refused { IfErr result (IsNoFrame encoding.now) }
{
    let mut feeder = Feeder::new(alloc);
    let Ok(fed) = feeder.feed(encoding) else {
        return Err(SealError::Memory);
    };
    let Fed { mut frames, fault } = fed;
    if fault.is_some() || feeder.waiting() > 0 || frames.len() > 1 {
        return Err(SealError::NotOneFrame);
    }
    match frames.pop() {
        Some(frame) => Ok(frame),
        None => Err(SealError::NotOneFrame),
    }
}

/// Returns the frame of this origin that stands after a sum. What `summing` covers of its encoding isn't summed again.
///
/// # Errors
///
/// Returns [`SealError::Sum`] if the sum isn't correct, before the encoding is read; [`SealError::NotOneFrame`] if the encoding is not
/// one frame; and [`SealError::Memory`] if memory runs out.
pub fn open_frame(
    alloc: Global,
    origin: Origin<'_>,
    summing: Option<Summing>,
    sum: &[u8; SUM],
    encoding: &[u8],
) -> Result<Frame, SealError>
    requires covers { IfSome summing (λ s. Covers s encoding.now) }
    // PROMISE: A frame is taken only if its sum is right for the challenge of its connection, its number there, its sender, its addressee and its bytes.
    ensures right { IfOk result (λ _. IsRight origin.entry.lock origin.entry.sender.now origin.entry.place sum.now encoding.now) }
    ensures frame { IfOk result (λ frame. IsOnly encoding.now frame) }
    ensures refused { IfErr result (IsUntaken origin.entry.lock origin.entry.sender.now origin.entry.place sum.now encoding.now) }
{
    let correct = whole_sum(alloc, summing, origin, encoding)?;
    if !are_same(sum, &correct) {
        return Err(SealError::Sum);
    }
    only_frame(alloc, encoding)
}

/// The bytes of sealed frames, and the place of the next frame.
#[derive(Drop)]
pub struct Sealed {
    pub encoding: Vec<u8>,
    pub next: Sequence,
}

/// Returns frames for an addressee from a place in a connection on, each sealed: its sum, its length in 4 bytes, the highest
/// first, and its encoding.
///
/// # Errors
///
/// Returns [`FrameError::Length`] if a frame is over its limit or there is no number for a next one, and [`FrameError::Memory`]
/// if memory runs out.
pub fn sealed_encoding(
    alloc: Global,
    lock: Lock<'_>,
    addressee: &str,
    place: Sequence,
    frames: &[Frame],
) -> Result<Sealed, FrameError>
    // PROMISE: Frames go out behind sums of the challenge that was answered, and of their numbers one after the other.
    ensures encoding { IfOk result (λ sealed. sealed.encoding.items ≡ sealed_frames lock.entry addressee.now place frames.now) }
    ensures next { IfOk result (λ sealed. sealed.next ≡ after (length frames.now) place) }
{
    let mut encoding = Vec::new(alloc);
    let mut next = place;
    for frame in frames {
        append_sealed(alloc, &mut encoding, lock, addressee, next, frame)?;
        next = match next.next() {
            Some(behind) => behind,
            None => return Err(FrameError::Length),
        };
    }
    Ok(Sealed { encoding, next })
}

/// Appends one sealed frame to `out`.
fn append_sealed(
    alloc: Global,
    out: &mut Vec<u8>,
    lock: Lock<'_>,
    addressee: &str,
    place: Sequence,
    frame: &Frame,
) -> Result<(), FrameError>
    ensures { OnOk result (out.new.items ≡ out.old.items ++ sealed_frame lock.entry addressee.now place frame.now) }
{
    let encoding = encode_frame(alloc, frame)?;
    let Ok(size) = u32::try_from(encoding.len()) else {
        return Err(FrameError::Length);
    };
    out.extend_from_slice(&sum_of(lock.secret, place, lock.name, addressee, &encoding))?;
    out.extend_from_slice(&size.to_be_bytes())?;
    out.extend_from_slice(&encoding)?;
    Ok(())
}
