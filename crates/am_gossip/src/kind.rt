//! The kinds of frames.

ghost use Rattle.std.specs.Prelude.{◌≡◌};
ghost use Rattle.am_gossip.specs.Kinds.{kind_at, code_of, limit};

/// The purpose of a frame.
#[derive(Clone, Copy, Debug, PartialEq, Eq)]
pub enum FrameKind {
    /// Some versions of one state.
    Delta,
    /// Whole states, which the receiver answers.
    Push,
    /// Whole states, as an answer.
    Pull,
    /// An empty frame: it is time to collect.
    Tick,
}

impl FrameKind {
    /// Returns the kind that a frame's first byte names, if there is one.
    pub fn from_code(code: u8) -> Option<FrameKind>
        ensures { result ≡ kind_at code }
    {
        match code {
            1 => Some(FrameKind::Delta),
            2 => Some(FrameKind::Push),
            3 => Some(FrameKind::Pull),
            4 => Some(FrameKind::Tick),
            _ => None,
        }
    }

    /// Returns the first byte of its frames.
    pub fn code(self) -> u8
        ensures { result ≡ code_of self }
    {
        match self {
            FrameKind::Delta => 1,
            FrameKind::Push => 2,
            FrameKind::Pull => 3,
            FrameKind::Tick => 4,
        }
    }

    /// Returns the maximum length of its frames' payloads.
    pub fn limit(self) -> u64
        ensures { result ≡ limit self }
    {
        match self {
            FrameKind::Delta => 4_194_304,
            FrameKind::Push | FrameKind::Pull => 67_108_864,
            FrameKind::Tick => 0,
        }
    }
}
