//! Frames, and the stream that they come in.

use crate::samples::{ROW, holds};
use am_gossip::{
    Fed, Feeder, Frame, FrameError, FullState, Part, StateKey, encode_frame, read_hello,
};
use am_wire::{Bytes, WireError};
use std::alloc::Global;

/// Calls everything public of am_gossip.
pub fn calls(alloc: Global) -> Option<()> {
    greetings()?;
    encodes(alloc)?;
    feeds(alloc)?;
    holds(parts_in(&Frame::Push(FullState::new(Vec::new(alloc)))) == 0)?;
    holds(fault_in(FrameError::Kind).is_none())
}

fn greetings() -> Option<()> {
    let hello: Result<Option<(&str, usize)>, FrameError> = read_hello(b"\0\x01a");
    let (name, len) = hello.ok()??;
    holds(name == "a" && len == 3)
}

fn encodes(alloc: Global) -> Option<()> {
    let bytes: Bytes = Bytes::copied(alloc, &ROW).ok()?;
    let key: StateKey = StateKey::Sil;
    let frame = Frame::Delta(Part { key, bytes });
    let encoded: Result<Vec<u8>, FrameError> = encode_frame(alloc, &frame);
    holds(encoded.ok()?.len() == 42 && parts_in(&frame) == 1)
}

/// Counts the parts of a frame.
fn parts_in(frame: &Frame) -> usize {
    match frame {
        Frame::Delta(part) => match part.key {
            StateKey::Sil | StateKey::Nfl => 1,
        },
        Frame::Push(state) | Frame::Pull(state) => state.parts().len(),
        Frame::Tick => 0,
    }
}

fn feeds(alloc: Global) -> Option<()> {
    let mut feeder: Feeder = Feeder::new(alloc);
    let fed: Result<Fed, FrameError> = feeder.feed(&[4, 0, 4]);
    let waiting: usize = feeder.waiting();
    let Fed { frames, fault } = fed.ok()?;
    let fault: Option<FrameError> = fault;
    holds(frames.len() == 1 && fault.is_none() && waiting == 1)
}

/// Returns the fault in a payload, if an error is one.
fn fault_in(error: FrameError) -> Option<WireError> {
    match error {
        FrameError::Wire(fault) => Some(fault),
        FrameError::Kind
        | FrameError::Length
        | FrameError::UnknownState
        | FrameError::Ended
        | FrameError::Memory => None,
    }
}
