//! Both states, handed out part by part.

ghost use Rattle.std.specs.Prelude.{◌≡◌, ℕ, ◌+◌, ◌<◌, ◌≤◌, List, length, is_none, None, Some, IfOk, MatchOption};
ghost use Rattle.std.specs.List.{list_any};
ghost use Rattle.std.specs.Option.{option_copied};
ghost use Rattle.am_silence.specs.Mesh.{Mesh, mesh_version};
ghost use Rattle.am_nflog.specs.Mesh.{Mesh as LogMesh, mesh_version as entry_version};
ghost use Rattle.am_gossip.specs.Frames.{states};
ghost use Rattle.am_snapshot.specs.Encodings.{row_encoding};
ghost use Rattle.am_snapshot.specs.Pieces.{IsPiece};
ghost use Rattle.am_instance.specs.Handings.{HandsLog, HandsSilences, IsHandedOut, alone, is_nfl, is_sil, left_of, names_both};

use crate::frame_sender::both_parts;
use crate::instance::Instance;
use am_gossip::{FullState, Part, StateKey};
use am_merge::{Held, Iter};
use am_nflog::{LogKey, MeshEntry};
use am_silence::MeshSilence;
use am_snapshot::{RowPiece, row_piece};
use am_version_order::Version;
use am_wire::{Bytes, Text};
use std::alloc::{AllocError, Global};

/// The progress in handing out both states. The rest of a state goes on from a key, or from its start if there is none.
#[derive(Drop)]
pub enum Handout {
    /// Silences are left, from the identifier on, and the whole log.
    Silences(Option<Text>),
    /// All silences are handed out, and the log is left from the key on.
    Log(Option<LogKey>),
}

impl Handout {
    /// Returns the progress before the first part. Nothing is allocated.
    pub fn new() -> Handout
        ensures { result ≡ Handout.Silences None }
    {
        Handout::Silences(None)
    }
}

/// A part of both states.
#[derive(Drop)]
pub struct HandedPart {
    pub state: FullState,
    /// The progress after this part, or `None` if it is the last.
    pub next: Option<Handout>,
}

impl Instance {
    /// Returns the next part of everything that is held, live or not, and the progress after it. The maps are read as they
    /// are at this call.
    ///
    /// Pieces of one state each come first. The last part has the rest of both states, and is the only one that names both.
    /// The rows of a part have at most `most` bytes together, unless a single version has more: then the part has nothing
    /// else. Such a part may be over the limit of its frame's kind, in which case the writer of the frame refuses it.
    ///
    /// # Errors
    ///
    /// [`AllocError`] if memory runs out.
    pub fn hand_out(&self, handout: Handout, most: usize) -> Result<HandedPart, AllocError>
        ensures part { IfOk result (IsHandedOut most self.now.silences self.now.log handout) }
        ensures last { IfOk result (λ handed. is_none handed.next ≡ names_both handed.state) }
    {
        match handout {
            Handout::Silences(from) => {
                let piece = row_piece(self.alloc, left_of(&self.silences, from.as_ref()), most)?;
                hand_silences(self.alloc, piece, &self.log, most)
            }
            Handout::Log(from) => {
                let piece = row_piece(self.alloc, left_of(&self.log, from.as_ref()), most)?;
                hand_log(self.alloc, piece)
            }
        }
    }
}

/// Returns the versions that are left of a map.
fn left_of<'a, V: Version>(held: &'a Held<V>, from: Option<&V::Key>) -> Iter<'a, V>
    ensures { result ≡ left_of V.seen V.Key.cmp held.now (option_copied from.entry) }
{
    match from {
        Some(key) => held.iter_from(key),
        None => held.iter(),
    }
}

/// Returns the next part if silences are left, starting with their first piece, and the whole log.
fn hand_silences(
    alloc: Global,
    silences: RowPiece<Text>,
    log: &Held<MeshEntry>,
    most: usize,
) -> Result<HandedPart, AllocError>
    ensures part { IfOk result (λ handed. (left : List Mesh) → IsPiece mesh_version most left silences →
        HandsSilences most left log.now handed.state handed.next) }
    ensures last { IfOk result (λ handed. is_none handed.next ≡ names_both handed.state) }
{
    let RowPiece { row, next } = silences;
    match next {
        Some(key) => hand_alone(alloc, StateKey::Sil, row, Handout::Silences(Some(key))),
        None => match log_beside(alloc, row.as_slice().len(), log, most)? {
            Some(of_log) => hand_last(alloc, row, of_log),
            None => hand_alone(alloc, StateKey::Sil, row, Handout::Log(None)),
        },
    }
}

/// Returns the next part if only entries of the log are left, starting with their first piece.
fn hand_log(alloc: Global, log: RowPiece<LogKey>) -> Result<HandedPart, AllocError>
    ensures part { IfOk result (λ handed. (most : ℕ) (left : List LogMesh) → IsPiece entry_version most left log →
        HandsLog most left handed.state handed.next) }
    ensures last { IfOk result (λ handed. is_none handed.next ≡ names_both handed.state) }
{
    let RowPiece { row, next } = log;
    match next {
        Some(key) => hand_alone(alloc, StateKey::Nfl, row, Handout::Log(Some(key))),
        None => hand_last(alloc, Bytes::new(Vec::new(alloc)), row),
    }
}

/// Returns the row of the log if it fits beside `used` bytes.
fn log_beside(
    alloc: Global,
    used: usize,
    log: &Held<MeshEntry>,
    most: usize,
) -> Result<Option<Bytes>, AllocError>
    ensures { IfOk result (λ row. MatchOption row (most < used + length (row_encoding entry_version log.now))
        (λ bytes. (bytes ≡ row_encoding entry_version log.now) × (used + length bytes ≤ most))) }
{
    let Some(room) = most.checked_sub(used) else {
        return Ok(None);
    };
    let RowPiece { row, next } = row_piece(alloc, log.iter(), room)?;
    if next.is_some() || row.as_slice().len() > room {
        return Ok(None);
    }
    Ok(Some(row))
}

/// Returns a part with this row alone, and the progress after it.
fn hand_alone(
    alloc: Global,
    key: StateKey,
    row: Bytes,
    next: Handout,
) -> Result<HandedPart, AllocError>
    ensures { IfOk result (λ handed. handed ≡ record { state = alone key row; next = Some next }) }
{
    let mut parts = Vec::with_capacity(alloc, 1)?;
    parts.push(Part { key, bytes: row })?;
    Ok(HandedPart {
        state: FullState::new(parts),
        next: Some(next),
    })
}

/// Returns the last part.
fn hand_last(alloc: Global, silences: Bytes, log: Bytes) -> Result<HandedPart, AllocError>
    ensures { IfOk result (λ handed. handed ≡ record { state = states silences log; next = None }) }
{
    Ok(HandedPart {
        state: both_parts(alloc, silences, log)?,
        next: None,
    })
}

/// Returns whether there are parts of both states, as in the last one that is handed out. Nothing is allocated.
pub fn names_both(state: &FullState) -> bool
    ensures { result ≡ names_both state.now }
{
    has_silences(state.parts()) && has_entries(state.parts())
}

/// Returns whether there is a part of the silences.
fn has_silences(parts: &[Part]) -> bool
    ensures { result ≡ list_any (λ p. is_sil p.key) parts.now }
{
    parts.iter().any(|part| is_sil(part.key))
}

/// Returns whether there is a part of the log.
fn has_entries(parts: &[Part]) -> bool
    ensures { result ≡ list_any (λ p. is_nfl p.key) parts.now }
{
    parts.iter().any(|part| is_nfl(part.key))
}

fn is_sil(key: StateKey) -> bool
    ensures { result ≡ is_sil key }
{
    key == StateKey::Sil
}

fn is_nfl(key: StateKey) -> bool
    ensures { result ≡ is_nfl key }
{
    key == StateKey::Nfl
}
