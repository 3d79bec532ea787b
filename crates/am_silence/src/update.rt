//! The rule by which a post updates a silence in place.

ghost use Rattle.std.specs.Prelude.{◌≡◌, ◌==◌, ◌↔◌, IsTrue};
ghost use Rattle.am_silence.specs.Plans.{same_matchers, second_of, allows_update, may_update, MayUpdate};

use crate::iter::MatcherIter;
use crate::mesh::MeshSilence;
use crate::plan::Posted;
use crate::state::State;
use am_version_order::Moment;

/// Returns whether a post at `now` updates the silence in place.
pub fn may_update(held: &MeshSilence, posted: &Posted, now: Moment) -> bool
    ensures test { result ≡ may_update held.now.silence posted.now now }
    ensures rule { IsTrue result ↔ MayUpdate held.now.silence posted.now now }
{
    same_matchers(posted.matchers.iter(), held.matchers())
        && match held.state_at(now) {
            State::Active => {
                same_second(posted.starts_at, held.starts_at()) && posted.ends_at >= now
            }
            State::Pending => posted.starts_at >= now,
            State::Expired => false,
        }
}

// Returns whether the matchers are the same, in the same order, which means that they have the same canonical encoding.
fn same_matchers(posted: MatcherIter<'_>, held: MatcherIter<'_>) -> bool
    ensures test { result ≡ same_matchers posted.entry held.entry }
    ensures equal { IsTrue result ↔ (posted.entry ≡ held.entry) }
{
    posted.as_text() == held.as_text()
}

// Returns whether the moments are in the same second.
fn same_second(a: Moment, b: Moment) -> bool
    ensures { result ≡ (second_of a == second_of b) }
{
    a.parts().0 == b.parts().0
}
