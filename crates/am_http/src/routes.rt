//! The calls on silences that API v2 has.

ghost use Rattle.std.specs.Prelude.{◌≡◌, ◌≢◌, ◌==◌, MatchOption, List, ℕ};
ghost use Rattle.std.specs.List.{before_first, after_first};
ghost use Rattle.am_http.specs.Paths.{IsCallOf, IsPathOf, path_of, query_of};

use crate::cause::{Cause, Resource};

/// A call on silences.
#[derive(Clone, Copy, Debug)]
pub enum Call<'a> {
    /// A list of all silences that pass the filters of the query, which isn't decoded.
    List { query: &'a str },
    /// The silence with the identifier.
    Get { id: &'a str },
    /// A posted silence.
    Post,
    /// The end of the silence with the identifier.
    Delete { id: &'a str },
}

/// The path of all silences.
const SILENCES: &str = "/api/v2/silences";

/// The beginning of the path of one silence, which its identifier follows.
const SILENCE: &str = "/api/v2/silence/";

/// Returns the path and the query of a target, cut at the first `?`.
fn cut(target: &str) -> (&str, &str)
    ensures path { result.0.now ≡ path_of target.now }
    ensures query { result.1.now ≡ query_of target.now }
{
    match target.split_once('?') {
        Some(parts) => parts,
        None => (target, ""),
    }
}

/// Returns the identifier in the path of one silence.
fn id_in(path: &str) -> Option<&str>
    ensures { MatchOption result ((id : List ℕ) → ¬ (IsPathOf path.now id)) (λ id. IsPathOf path.now id.now) }
{
    let id = path.strip_prefix(SILENCE)?;
    if id.is_empty() || id.contains('/') {
        return None;
    }
    Some(id)
}

/// Returns the call that a request with this method and target asks for.
///
/// # Errors
///
/// [`Cause::NoSuchPath`] for any other path, and [`Cause::MethodNotAllowed`] for a path that doesn't have this method.
pub fn call_of<'a>(method: &str, target: &'a str) -> Result<Call<'a>, Cause>
    // PROMISE: A method and a path are one call, or the line of their fault.
    ensures { IsCallOf method.now target.now result }
{
    let (path, query) = cut(target);
    if path == SILENCES {
        return match method {
            "GET" => Ok(Call::List { query }),
            "POST" => Ok(Call::Post),
            _ => Err(Cause::MethodNotAllowed(Resource::Silences)),
        };
    }
    let Some(id) = id_in(path) else {
        return Err(Cause::NoSuchPath);
    };
    match method {
        "GET" => Ok(Call::Get { id }),
        "DELETE" => Ok(Call::Delete { id }),
        _ => Err(Cause::MethodNotAllowed(Resource::Silence)),
    }
}
