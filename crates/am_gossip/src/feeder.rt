//! The reader of a stream.

ghost use Rattle.std.specs.Prelude.{◌≡◌, ◌⊎◌, ◌↔◌, ◌++◌, [], Some, None, Err, length, take, vec_len, OnOk, IfOk, IfErr, OnErr};
ghost use Rattle.am_gossip.specs.HeaderProgresses.{IsWaiting, EndsAs};
ghost use Rattle.am_gossip.specs.Streams.{stream_of, waiting_rest, fault_in, rest_bytes};

use crate::error::FrameError;
use crate::frame::Frame;
use crate::header::HeaderProgress;
use crate::reading::{End, FrameRead, finish_frame, read_frames};
use std::alloc::Global;
use std::marker::Model;

/// The result of reading a piece of a stream.
#[derive(Drop)]
pub struct Fed {
    /// The frames that end in the piece, in their order.
    pub frames: Vec<Frame>,
    /// The fault behind the frames, if there is one.
    pub fault: Option<FrameError>,
}

/// Reads the frames in the bytes that follow those read so far, and keeps the rest of the bytes in `held`.
fn take_rest(
    alloc: Global,
    mut frames: Vec<Frame>,
    held: &mut Vec<u8>,
    bytes: &[u8],
) -> Result<(Vec<Frame>, End), FrameError>
    ensures frames { IfOk result (λ x. x.0.items ≡ frames.items ++ (stream_of bytes.now).frames) }
    ensures end { IfOk result (λ x. EndsAs x.1 held.new.items (stream_of bytes.now).ending) }
    ensures kept { OnErr result (held.new.items ≡ held.old.items) }
    ensures refused { IfErr result (λ e. e ≡ FrameError.Memory) }
{
    let (rest, end) = read_frames(alloc, &mut frames, bytes)?;
    if let End::Waits(_) = end {
        *held = rest.to_vec(alloc)?;
    }
    Ok((frames, end))
}

/// Reads the frames in the bytes held and a piece behind them, and keeps the rest of both in `held`.
fn take_piece(
    alloc: Global,
    held: &mut Vec<u8>,
    progress: HeaderProgress,
    piece: &[u8],
) -> Result<(Vec<Frame>, End), FrameError>
    requires { IsWaiting progress held.old.items }
    ensures frames { IfOk result (λ x. x.0.items ≡ (stream_of (held.old.items ++ piece.now)).frames) }
    ensures end { IfOk result (λ x. EndsAs x.1 held.new.items (stream_of (held.old.items ++ piece.now)).ending) }
    ensures kept { OnErr result (take (vec_len held.old) held.new.items ≡ held.old.items) }
    ensures refused { IfErr result (λ e. e ≡ FrameError.Memory) }
{
    let mut frames = Vec::new(alloc);
    let waiting = held.len();
    if waiting == 0 {
        return take_rest(alloc, frames, held, piece);
    }
    match finish_frame(alloc, held, progress, piece)? {
        FrameRead::Frame { frame, len } => {
            frames.push(frame)?;
            take_rest(alloc, frames, held, &piece[len - waiting..])
        }
        FrameRead::Waits(progress) => Ok((frames, End::Waits(progress))),
        FrameRead::Fault(e) => Ok((frames, End::Fault(e))),
    }
}

/// A reader of a stream of frames that arrives in pieces.
///
/// Contracts see it as the rest that is held, or as nothing after a fault. It examines each byte of a header once, and a
/// payload once it is whole. It holds only the bytes of a frame that isn't whole.
#[derive(Drop)]
pub struct Feeder {
    alloc: Global,
    held: Vec<u8>,
    progress: Option<HeaderProgress>,
}

impl Model for Feeder {
    ghost use Rattle.std.specs.Prelude.{List, ℕ, Option};
    ghost use Rattle.std.specs.Option.{ForSome, option_map};
    ghost use Rattle.am_gossip.specs.HeaderProgresses.{IsWaiting};

    ghost Value = { Option (List ℕ) };

    ghost view = { λ f. option_map (λ _. f.held.items) f.progress };

    ghost invariant = { λ f. ForSome f.progress (λ s. IsWaiting s f.held.items) };
}

impl Feeder {
    /// Returns a reader at the beginning of a stream. Nothing is allocated.
    pub fn new(alloc: Global) -> Self
        ensures { result ≡ Some [] }
    {
        Feeder {
            alloc,
            held: Vec::new(alloc),
            progress: Some(HeaderProgress::Before),
        }
    }

    /// Returns the number of bytes that are held until the rest of their frame arrives; 0 after a fault. Nothing is allocated.
    pub fn waiting(&self) -> usize
        ensures { result ≡ length (rest_bytes self.now) }
    {
        if self.progress.is_some() {
            self.held.len()
        } else {
            0
        }
    }

    /// Reads the next piece of the stream, and returns the frames that end in it, and the fault behind them if there is one.
    ///
    /// The result doesn't depend on how the stream is cut into pieces.
    ///
    /// # Errors
    ///
    /// [`FrameError::Ended`] after a fault; otherwise [`FrameError::Memory`] if memory runs out, which leaves the feeder
    /// unchanged.
    pub fn feed(&mut self, piece: &[u8]) -> Result<Fed, FrameError>
        // PROMISE: A peer's bytes are the frames that they spell, up to the first fault.
        ensures frames { IfOk result (λ fed. fed.frames.items ≡ (stream_of (rest_bytes self.old ++ piece.now)).frames) }
        ensures fault { IfOk result (λ fed. fed.fault ≡ fault_in (stream_of (rest_bytes self.old ++ piece.now)).ending) }
        ensures rest { OnOk result (self.new ≡ waiting_rest (stream_of (rest_bytes self.old ++ piece.now)).ending) }

        ensures ended { (result ≡ Err FrameError.Ended) ↔ (self.old ≡ None) }
        ensures refused { IfErr result (λ e. (e ≡ FrameError.Ended) ⊎ (e ≡ FrameError.Memory)) }
        ensures unchanged { OnErr result (self.new ≡ self.old) }
    {
        let Some(progress) = self.progress else {
            return Err(FrameError::Ended);
        };
        let waiting = self.held.len();
        let (frames, end) = match take_piece(self.alloc, &mut self.held, progress, piece) {
            Ok(taken) => taken,
            Err(e) => {
                self.held.truncate(waiting);
                return Err(e);
            }
        };
        match end {
            End::Waits(progress) => {
                self.progress = Some(progress);
                Ok(Fed {
                    frames,
                    fault: None,
                })
            }
            End::Fault(e) => {
                self.progress = None;
                self.held = Vec::new(self.alloc);
                Ok(Fed {
                    frames,
                    fault: Some(e),
                })
            }
        }
    }
}
