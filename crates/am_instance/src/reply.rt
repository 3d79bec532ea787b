//! The answer of a step.

ghost use Rattle.std.specs.Prelude.{◌≡◌};
ghost use Rattle.am_instance.specs.Sendings.{sent_by};

use crate::frame_sender::FrameSender;
use am_dedup::Decision;
use am_gossip::{Frame, Place};
use am_matcher::Mutes;
use am_nflog::MeshEntry;
use am_silence::{MeshSilence, SilenceError, State};
use am_wire::Text;

/// The answer to an event. States are those at the event's moment.
#[derive(Drop)]
pub enum Reply {
    /// Silences and their states, in the order of their identifiers.
    Silences(Vec<(MeshSilence, State)>),
    Silence(MeshSilence, State),
    /// The identifier of the silence that was created or updated.
    Posted(Text),
    Deleted,
    /// The reason why a request is refused, which is never a lack of memory.
    Refused(SilenceError),
    /// True if the entry of a notification changed the log.
    Logged(bool),
    Decided(Decision),
    Muted(Mutes),
    /// The silences in view in the order of their identifiers, and the entries in view in the order of their keys.
    Shown {
        silences: Vec<(MeshSilence, State)>,
        log: Vec<MeshEntry>,
    },
    Nothing,
}

/// The numbers of frames that were left out.
#[derive(Clone, Copy, PartialEq, Eq)]
pub struct Unsent {
    /// The number of frames for which there was no memory.
    pub memory: usize,
    /// The number of frames whose payload was over the limit of its kind.
    pub limit: usize,
}

/// Copies of the versions that an event made here, in the order in which they were taken.
#[derive(Drop)]
pub struct Made {
    pub silences: Vec<MeshSilence>,
    pub log: Option<MeshEntry>,
}

/// The outcome of a step.
#[derive(Drop)]
pub struct Outcome {
    pub reply: Reply,
    /// The frames to be sent, in order, each with the place of its peer.
    pub frames: Vec<(Place, Frame)>,
    pub unsent: Unsent,
    pub made: Made,
}

impl Outcome {
    /// Returns the reply and the frames that the step sends.
    pub fn into_parts(self) -> (Reply, FrameSender)
        ensures reply { result.0 ≡ self.reply }
        ensures sent { result.1 ≡ sent_by self }
    {
        let outbox = FrameSender {
            frames: self.frames,
            unsent: self.unsent,
        };
        (self.reply, outbox)
    }
}
