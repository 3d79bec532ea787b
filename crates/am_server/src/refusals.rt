//! The refusals that a member makes by itself, in place of a step's reply.

ghost use Rattle.am_http.specs.Lines.{line_seen};
ghost use Rattle.am_server.specs.Talks.{IsOwnLine};

use am_http::{Cause, Refusal};
use am_member::PatternCompilation;

/// Returns the refusal of a post for which there is no room.
pub fn state_too_large() -> Refusal
    ensures { IsOwnLine (line_seen result) }
{
    Refusal::new(500, "state too large")
}

/// Returns the refusal of a request for which there is no memory.
pub fn out_of_memory() -> Refusal
    ensures { IsOwnLine (line_seen result) }
{
    Cause::Memory.refusal()
}

/// Returns the refusal of a list with a filter that takes too much.
pub fn filter_too_large() -> Refusal
    ensures { IsOwnLine (line_seen result) }
{
    Cause::BadFilter.refusal()
}

/// Returns the refusal of a request whose patterns take too much.
pub fn patterns_too_large(compilation: &PatternCompilation) -> Refusal
    ensures { IsOwnLine (line_seen result) }
{
    compilation.refusal()
}

/// Returns the refusal of a post whose patterns can't be kept beside those of the silences that are held.
pub fn too_many_patterns() -> Refusal
    ensures { IsOwnLine (line_seen result) }
{
    Refusal::new(400, "too many patterns")
}
