//! Requests in frames, beside what the frames bring, that may wait.

ghost use Rattle.std.specs.Prelude.{◌≡◌, All, filter, map};
ghost use Rattle.std.specs.List.{list_any};
ghost use Rattle.am_http.specs.Sessions.{spoken};
ghost use Rattle.am_member.specs.Sparing.{brings, is_push, is_tick, quiet, deferred};

use am_gossip::Frame;
use am_http::session::SessionOutput;
use std::mem;

/// The output of a session without what its frames ask for.
#[derive(Drop)]
pub struct Deferred {
    pub said: SessionOutput,
    /// True if a Push asks for all that is held here.
    pub asks: bool,
    /// True if a Tick asks for a collection.
    pub ticks: bool,
}

/// Returns whether a frame asks for all that is held here.
fn is_push(frame: &Frame) -> bool
    ensures { result ≡ is_push frame.now }
{
    matches!(frame, Frame::Push(_))
}

/// Returns whether a frame asks for a collection.
fn is_tick(frame: &Frame) -> bool
    ensures { result ≡ is_tick frame.now }
{
    matches!(frame, Frame::Tick)
}

/// Returns whether a frame brings something.
fn brings(frame: &Frame) -> bool
    ensures { result ≡ brings frame.now }
{
    !is_tick(frame)
}

/// Removes from a frame what it asks for, and leaves what it brings.
fn strip_request(frame: &mut Frame)
    ensures same { quiet frame.new ≡ quiet frame.old }
    ensures quiet { quiet frame.new ≡ frame.new }
{
    *frame = match mem::replace(frame, Frame::Tick) {
        Frame::Push(state) => Frame::Pull(state),
        other => other,
    };
}

/// Removes from frames what they ask for.
fn strip_requests(frames: &mut Vec<Frame>)
    ensures same { map quiet frames.new.items ≡ map quiet frames.old.items }
    ensures quiet { All (λ frame. quiet frame ≡ frame) frames.new.items }
{
    for frame in frames.iter_mut() {
        strip_request(frame);
    }
}

/// Removes the frames that bring nothing.
fn drop_ticks(frames: &mut Vec<Frame>)
    ensures { frames.new.items ≡ filter brings frames.old.items }
{
    frames.retain(|frame| brings(frame));
}

/// Returns whether a Push is among frames.
fn any_push(frames: &[Frame]) -> bool
    ensures { result ≡ list_any is_push frames.now }
{
    frames.iter().any(|frame| is_push(frame))
}

/// Returns whether a Tick is among frames.
fn any_tick(frames: &[Frame]) -> bool
    ensures { result ≡ list_any is_tick frames.now }
{
    frames.iter().any(|frame| is_tick(frame))
}

/// Splits what was said: what its frames bring is to be taken at once, and what they ask for is owed once, however often they
/// ask. It takes no memory.
pub fn defer_requests(said: SessionOutput) -> Deferred
    ensures said { spoken result.said ≡ deferred (spoken said) }
    ensures asks { result.asks ≡ list_any is_push said.frames.items }
    ensures ticks { result.ticks ≡ list_any is_tick said.frames.items }
{
    let mut said = said;
    let asks = any_push(said.frames.as_slice());
    let ticks = any_tick(said.frames.as_slice());
    drop_ticks(&mut said.frames);
    strip_requests(&mut said.frames);
    Deferred { said, asks, ticks }
}
