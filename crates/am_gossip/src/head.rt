//! The complete header of a frame.

ghost use Rattle.std.specs.Prelude.{◌≤◌};

use crate::kind::FrameKind;

/// A complete header of a frame: its kind, the length of its payload, and its own length.
#[derive(Clone, Copy)]
pub struct Head {
    pub kind: FrameKind,
    pub size: usize,
    pub len: usize,
    ghost not_large: { size ≤ 67_108_864 },
    ghost short: { len ≤ 11 },
}
