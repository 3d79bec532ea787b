//! The silences of lines: versions that are written, and posts.

ghost use Rattle.std.specs.Prelude.{◌≡◌, ◌≤◌, length, IfOk, OnOk};
ghost use Rattle.am_wire.specs.Limits.{most};
ghost use Rattle.am_silence.specs.Mesh.{writes_mesh_silence};
ghost use Rattle.am_cluster.specs.Versions.{wants, silence_of};
ghost use Rattle.am_cluster.specs.LineEvents.{posted};

use crate::lines::VersionLine;
use crate::texts::{no_text, text_of};
use am_schedule::{PostLine, SilenceLine, Word};
use am_silence::{MatcherKind, MatcherRef, Matchers, MeshSilence, Posted, Silence};
use am_version_order::Moment;
use am_wire::Text;
use std::alloc::{AllocError, Global};

/// Returns the one matcher, which wants the value of a label.
fn wanted(alloc: Global, name: &Word, value: &Word) -> Result<Matchers, AllocError>
    ensures matchers { IfOk result (λ matchers. matchers ≡ wants name.now value.now) }
    ensures short { (length name.now ≤ 1024) × (length value.now ≤ 1024) }
{
    let mut matchers = Matchers::none(alloc);
    let matcher = MatcherRef::new(MatcherKind::Equal, name.as_str(), value.as_str());
    matchers.push(alloc, &matcher)?;
    Ok(matchers)
}

/// Returns the silence of a line.
#[tactic(auto, using(crate::proofs::Lengths::silence_fits))]
fn silence(alloc: Global, line: &SilenceLine) -> Result<Silence, AllocError>
    ensures silence { IfOk result (λ silence. silence ≡ (silence_of line.now).silence) }
    ensures fits { OnOk result (length (writes_mesh_silence (silence_of line.now)) ≤ most) }
{
    Ok(Silence {
        id: text_of(alloc, &line.id)?,
        matchers: wanted(alloc, &line.name, &line.value)?,
        starts_at: line.starts,
        ends_at: line.ends,
        updated_at: line.updated,
        created_by: no_text(alloc),
        comment: no_text(alloc),
    })
}

impl VersionLine<MeshSilence> for SilenceLine {
    ghost version_of = { silence_of };

    ghost updated_of = { λ line. line.updated };

    fn updated(&self) -> Moment {
        self.updated
    }

    #[tactic(auto, using(crate::proofs::ReadAgain::silence_again))]
    fn version(&self, alloc: Global) -> Result<MeshSilence, AllocError> {
        let silence = silence(alloc, self)?;
        // The silence fits, so an error means that memory ran out.
        match MeshSilence::new(alloc, silence, self.expires) {
            Ok(version) => Ok(version),
            Err(_) => Err(AllocError),
        }
    }
}

/// Copies the identifier that is posted, if there is one.
fn identifier(alloc: Global, id: &Option<Word>) -> Result<Option<Text>, AllocError>
    ensures { IfOk result (λ copy. copy ≡ id.now) }
{
    match id {
        Some(id) => Ok(Some(text_of(alloc, id)?)),
        None => Ok(None),
    }
}

/// Returns the post of a line.
pub(crate) fn post(alloc: Global, line: &PostLine) -> Result<Posted, AllocError>
    ensures { IfOk result (λ post. post ≡ posted line.now) }
{
    Ok(Posted {
        id: identifier(alloc, &line.id)?,
        matchers: wanted(alloc, &line.name, &line.value)?,
        starts_at: line.starts,
        ends_at: line.ends,
        created_by: no_text(alloc),
        comment: no_text(alloc),
    })
}
