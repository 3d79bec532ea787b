//! The work on an answer, a stretch at a time.

use crate::answer_state::{AnswerState, OwnState};
use crate::candidate::Candidate;
use crate::pending_versions::PendingVersions;
use crate::told::{Telling, ToldRows};
use am_gossip::{Frame, FullState, Part, StateKey};
use am_memberlist::{Answer, AnswerError};
use am_merge::Held;
use am_nflog::MeshEntry;
use am_silence::MeshSilence;
use am_version_order::Moment;
use am_wire::{Message, Unknown};
use std::alloc::{AllocError, Global};

/// The maximum number of bytes to which an answer is unpacked.
const MOST_UNPACKED: usize = 67_108_864;

/// The number of codes that are unpacked in a stretch.
const CODES: usize = 4_096;

/// The number of bytes of the states in which rows are searched for in a stretch.
const SEARCHED: usize = 65_536;

/// The progress of the work on an answer.
#[derive(Drop)]
pub enum AnswerWork {
    /// The answer is being unpacked.
    Answer(Answer),
    /// The rows of both states are searched for in the message.
    Rows(Telling),
    /// The silences are looked at. The row of the log waits.
    Silences(ToldRows, AnswerState<MeshSilence>),
    /// The log with this row is looked at.
    Entries(Vec<u8>, AnswerState<MeshEntry>),
}

/// The result of a stretch.
#[derive(Drop)]
pub struct Stretch {
    /// The frame for the member to take.
    pub frame: Option<Frame>,
    /// The work that is left, or `None` once all is done.
    pub left: Option<AnswerWork>,
}

/// Returns a frame that brings one part.
fn frame_of(alloc: Global, part: Part) -> Result<Frame, AllocError> {
    let mut parts = Vec::with_capacity(alloc, 1)?;
    parts.push(part)?;
    Ok(Frame::Pull(FullState::new(parts)))
}

/// Returns a frame that brings a part, if there is one.
fn some_frame(alloc: Global, part: Option<Part>) -> Result<Option<Frame>, AllocError> {
    match part {
        Some(part) => Ok(Some(frame_of(alloc, part)?)),
        None => Ok(None),
    }
}

impl AnswerWork {
    /// Returns all the work on an answer.
    pub fn new(alloc: Global, answer: Vec<u8>) -> AnswerWork {
        AnswerWork::Answer(Answer::new(alloc, answer, MOST_UNPACKED))
    }

    /// Does another stretch, by the policy for unknown fields, beside a member that holds these versions. What the replica is
    /// given goes to its pending versions.
    ///
    /// # Errors
    ///
    /// The first [`AnswerError`]; nothing is left then.
    pub fn resume(
        self,
        alloc: Global,
        unknown: Unknown,
        silences: &Held<MeshSilence>,
        entries: &Held<MeshEntry>,
        pending_versions: &mut PendingVersions,
        now: Moment,
    ) -> Result<Stretch, AnswerError> {
        match self {
            AnswerWork::Answer(answer) => unpack_on(alloc, answer),
            AnswerWork::Rows(telling) => search_on(alloc, telling),
            AnswerWork::Silences(rows, side) => {
                let own = OwnState {
                    held: silences,
                    unknown,
                    now,
                };
                resume_silences(alloc, rows, side, &own, pending_versions)
            }
            AnswerWork::Entries(row, side) => {
                let own = OwnState {
                    held: entries,
                    unknown,
                    now,
                };
                resume_entries(alloc, row, side, &own, pending_versions)
            }
        }
    }
}

/// Unpacks a stretch of an answer.
fn unpack_on(alloc: Global, answer: Answer) -> Result<Stretch, AnswerError> {
    Ok(goes_on(match answer.resume(alloc, CODES)? {
        Answer::Message(message) => AnswerWork::Rows(Telling::begin(alloc, &message)?),
        answer => AnswerWork::Answer(answer),
    }))
}

/// Searches on for the rows of a message.
fn search_on(alloc: Global, telling: Telling) -> Result<Stretch, AnswerError> {
    Ok(goes_on(match telling.resume(alloc, SEARCHED)? {
        Telling::Found(rows) => AnswerWork::Silences(rows, AnswerState::new(alloc, StateKey::Sil)),
        telling => AnswerWork::Rows(telling),
    }))
}

/// Returns a stretch in which nothing comes in and this work is left.
fn goes_on(work: AnswerWork) -> Stretch {
    Stretch {
        frame: None,
        left: Some(work),
    }
}

/// Looks at a stretch of the state with this row, and returns a frame that brings what comes in. What the replica is given goes
/// to its pending versions in the end.
fn look_at<V: Candidate + Message>(
    alloc: Global,
    side: &mut AnswerState<V>,
    row: &[u8],
    own: &OwnState<'_, V>,
    pending_versions: &mut PendingVersions,
) -> Result<Option<Frame>, AnswerError>
where
    V::Key: Drop,
{
    let part = side.resume(alloc, row, own)?;
    pending_versions.count_dropped(side.take_dropped());
    let frame = some_frame(alloc, part)?;
    if side.is_done() {
        let (key, given) = side.take_given(alloc);
        pending_versions.give(key, given)?;
    }
    Ok(frame)
}

/// Looks at a stretch of the silences.
fn resume_silences(
    alloc: Global,
    rows: ToldRows,
    side: AnswerState<MeshSilence>,
    own: &OwnState<'_, MeshSilence>,
    pending_versions: &mut PendingVersions,
) -> Result<Stretch, AnswerError> {
    let mut side = side;
    let frame = look_at(alloc, &mut side, &rows.silences, own, pending_versions)?;
    pending_versions.count(side.take_tally(alloc))?;
    let left = if side.is_done() {
        AnswerWork::Entries(rows.entries, AnswerState::new(alloc, StateKey::Nfl))
    } else {
        AnswerWork::Silences(rows, side)
    };
    Ok(Stretch {
        frame,
        left: Some(left),
    })
}

/// Looks at a stretch of the log.
fn resume_entries(
    alloc: Global,
    row: Vec<u8>,
    side: AnswerState<MeshEntry>,
    own: &OwnState<'_, MeshEntry>,
    pending_versions: &mut PendingVersions,
) -> Result<Stretch, AnswerError> {
    let mut side = side;
    let frame = look_at(alloc, &mut side, &row, own, pending_versions)?;
    pending_versions.lack(side.take_tally(alloc).passed);
    let left = if side.is_done() {
        None
    } else {
        Some(AnswerWork::Entries(row, side))
    };
    Ok(Stretch { frame, left })
}
