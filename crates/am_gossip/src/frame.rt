//! Frames and their content.

ghost use Rattle.std.specs.Prelude.{◌≡◌, IfOk};
ghost use Rattle.am_gossip.specs.Keys.{key_of, key_text};
ghost use Rattle.am_gossip.specs.Frames.{kind_of};

use crate::kind::FrameKind;
use am_wire::Bytes;
use std::alloc::{AllocError, Global};
use std::marker::Model;

/// The state to which a part belongs.
#[derive(Clone, Copy, Debug, PartialEq, Eq)]
pub enum StateKey {
    /// The silences.
    Sil,
    /// The notification log.
    Nfl,
}

impl StateKey {
    /// Returns the state that a key names, if there is one.
    pub fn from_text(text: &str) -> Option<StateKey>
        ensures { result ≡ key_of text.now }
    {
        match text {
            "sil" => Some(StateKey::Sil),
            "nfl" => Some(StateKey::Nfl),
            _ => None,
        }
    }

    /// Returns the key of the state.
    pub fn as_str(self) -> &'static str
        ensures { result.now ≡ key_text self }
    {
        match self {
            StateKey::Sil => "sil",
            StateKey::Nfl => "nfl",
        }
    }
}

/// Some versions of one state, as a row of messages.
#[derive(Drop)]
pub struct Part {
    pub key: StateKey,
    pub bytes: Bytes,
}

impl Part {
    /// Returns a copy.
    ///
    /// # Errors
    ///
    /// [`AllocError`] if memory runs out.
    pub fn try_clone(&self, alloc: Global) -> Result<Part, AllocError>
        ensures { IfOk result (λ copy. copy ≡ self.now) }
    {
        let bytes = self.bytes.try_clone(alloc)?;
        Ok(Part {
            key: self.key,
            bytes,
        })
    }
}

/// A list of parts in their order, which may contain the same state twice. Contracts see the list.
#[derive(Drop)]
pub struct FullState {
    parts: Vec<Part>,
}

impl Model for FullState {
    ghost use Rattle.std.specs.Prelude.{List};
    ghost use Rattle.am_gossip.specs.declared.frame.Part.{Part};

    ghost Value = { List Part };

    ghost view = { λ s. s.parts.items };
}

impl FullState {
    /// Returns a state of these parts, without allocating.
    pub fn new(parts: Vec<Part>) -> FullState
        ensures { result ≡ parts.items }
    {
        Self { parts }
    }

    /// Returns the parts, in their order.
    pub fn parts(&self) -> &[Part]
        ensures { result.now ≡ self.now }
    {
        self.parts.as_slice()
    }

    /// Returns a copy.
    ///
    /// # Errors
    ///
    /// [`AllocError`] if memory runs out.
    pub fn try_clone(&self, alloc: Global) -> Result<FullState, AllocError>
        ensures { IfOk result (λ copy. copy ≡ self.now) }
    {
        let mut parts = Vec::with_capacity(alloc, self.parts.len())?;
        for part in &self.parts {
            parts.push(part.try_clone(alloc)?)?;
        }
        Ok(FullState { parts })
    }

    /// Returns the vector of the parts, without allocating.
    pub fn into_vec(self) -> Vec<Part>
        ensures { result.items ≡ self }
    {
        let FullState { parts } = self;
        parts
    }
}

/// A message from one peer to another.
#[derive(Drop)]
pub enum Frame {
    Delta(Part),
    Push(FullState),
    Pull(FullState),
    Tick,
}

impl Frame {
    /// Returns the kind of the frame.
    pub fn kind(&self) -> FrameKind
        ensures { result ≡ kind_of self.now }
    {
        match self {
            Frame::Delta(_) => FrameKind::Delta,
            Frame::Push(_) => FrameKind::Push,
            Frame::Pull(_) => FrameKind::Pull,
            Frame::Tick => FrameKind::Tick,
        }
    }

    /// Returns a copy.
    ///
    /// # Errors
    ///
    /// [`AllocError`] if memory runs out.
    pub fn try_clone(&self, alloc: Global) -> Result<Frame, AllocError>
        ensures { IfOk result (λ copy. copy ≡ self.now) }
    {
        match self {
            Frame::Delta(part) => Ok(Frame::Delta(part.try_clone(alloc)?)),
            Frame::Push(state) => Ok(Frame::Push(state.try_clone(alloc)?)),
            Frame::Pull(state) => Ok(Frame::Pull(state.try_clone(alloc)?)),
            Frame::Tick => Ok(Frame::Tick),
        }
    }
}
