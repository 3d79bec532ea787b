//! The frames that wait for peers until their links answer with a challenge: they can't be sealed before.

ghost use Rattle.std.specs.Prelude.{◌≡◌, length, max, not, true, MatchResult};
ghost use Rattle.am_daemon.specs.Offers.{gone_on, nothing_put_by, place_in, put_behind, put_by_of};

use am_gossip::{Frame, StateKey};
use am_peer_auth::{CHALLENGE, Sequence};
use am_server::frame_bytes;
use std::alloc::{AllocError, Global};
use std::mem;

/// The maximum number of bytes of the frames that wait for a peer.
const MOST_WAITING: u64 = 134_217_728;

/// The number of bytes that are counted for each frame beside its versions.
const BESIDE_VERSIONS: u64 = 64;

/// The reason that frames are dropped instead of waiting for a peer.
#[derive(Clone, Copy, PartialEq, Eq)]
pub enum Dropped {
    /// Too many bytes wait, as was already reported for this link.
    Again,
    /// Too many bytes wait.
    Full,
    Memory,
}

impl From<AllocError> for Dropped {
    ghost use Rattle.am_daemon.specs.declared.member.pending_frames.Dropped.TheVariants.{Memory};

    ghost from_gives = { λ _ e. e ≡ Memory };

    fn from(_e: AllocError) -> Dropped {
        Dropped::Memory
    }
}

/// The sealed frames that go to a peer over one link.
#[derive(Drop)]
pub struct PendingFrames {
    alloc: Global,
    /// The frames that wait.
    frames: Vec<Frame>,
    /// The approximate number of their bytes.
    bytes: u64,
    /// True if a link is open, or asked for.
    is_open: bool,
    /// True if it was reported that too many bytes wait.
    is_full: bool,
    /// The number of frames that went to the link.
    count: u64,
}

impl PendingFrames {
    /// Returns an empty set of pending frames, with no link.
    pub fn new(alloc: Global) -> PendingFrames
        ensures { put_by_of result ≡ nothing_put_by }
    {
        PendingFrames {
            alloc,
            frames: Vec::new(alloc),
            bytes: 0,
            is_open: false,
            is_full: false,
            count: 0,
        }
    }

    /// Notes that a link is asked for, and returns whether there was none.
    pub fn open(&mut self) -> bool
        ensures none { result ≡ not self.old.is_open }
        ensures opened { put_by_of self.new ≡ record (put_by_of self.old) { is_open = true } }
    {
        let was_open = self.is_open;
        self.is_open = true;
        !was_open
    }

    /// Appends frames to those that wait, for a link that is open or asked for now, and returns whether it is asked for.
    ///
    /// # Errors
    ///
    /// [`Dropped`] says why the frames are dropped.
    pub fn add(&mut self, frames: Vec<Frame>) -> Result<bool, Dropped>
        ensures { MatchResult result (λ opens. (opens ≡ not self.old.is_open) × (put_by_of self.new ≡ put_behind frames.items (put_by_of self.old)))
            (λ _. put_by_of self.new ≡ put_by_of self.old) }
    {
        let bytes = self.bytes.saturating_add(bytes_of(&frames));
        if bytes > MOST_WAITING && !self.frames.is_empty() {
            let was_full = mem::replace(&mut self.is_full, true);
            return Err(if was_full {
                Dropped::Again
            } else {
                Dropped::Full
            });
        }
        let mut frames = frames;
        self.frames.append(&mut frames)?;
        self.bytes = bytes;
        Ok(self.open())
    }

    /// Takes the frames that wait, and counts them as gone to the link; if none waits, one frame, which goes there in their place.
    pub fn take(&mut self) -> Vec<Frame>
        ensures frames { result.items ≡ (put_by_of self.old).frames }
        ensures taken { put_by_of self.new ≡ gone_on (max (length result.items) 1) (put_by_of self.old) }
    {
        self.bytes = 0;
        let frames = mem::replace(&mut self.frames, Vec::new(self.alloc));
        self.count = self.count.saturating_add(frames.len().max(1) as u64);
        frames
    }

    /// Returns the place of the next frame in its connection, if the bytes that the connection answered with are a challenge.
    pub fn place(&self, answer: &[u8]) -> Option<Sequence>
        ensures { result ≡ place_in answer.now (put_by_of self.now).number }
    {
        let (challenge, _) = answer.split_first_chunk::<CHALLENGE>()?;
        let challenge = *challenge;
        Some(Sequence {
            challenge,
            number: self.count,
        })
    }

    /// Closes the link, drops the frames that wait for it, and returns how many they were.
    pub fn close(&mut self) -> usize
        ensures waited { result ≡ length (put_by_of self.old).frames }
        ensures closed { put_by_of self.new ≡ nothing_put_by }
    {
        let waiting = self.frames.len();
        *self = PendingFrames::new(self.alloc);
        waiting
    }
}

/// Returns the approximate number of bytes that frames take.
fn bytes_of(frames: &[Frame]) -> u64 {
    let mut bytes = 0u64;
    for frame in frames {
        let silences = frame_bytes(frame, StateKey::Sil);
        let versions = silences.saturating_add(frame_bytes(frame, StateKey::Nfl));
        bytes = bytes.saturating_add(versions.saturating_add(BESIDE_VERSIONS));
    }
    bytes
}
