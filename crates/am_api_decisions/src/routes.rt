//! The calls on decisions.

ghost use Rattle.std.specs.Prelude.{◌≡◌, codes, nat_eq, string_bytes};
ghost use Rattle.std.specs.List.{before_first, after_first, starts_with};
ghost use Rattle.am_http.specs.Paths.{path_of, query_of};
ghost use Rattle.am_api_decisions.specs.Calls.{IsCallOf, is_below};

use crate::cause::{DecisionCause, DecisionResource};
use am_http::Request;

/// A call on decisions.
#[derive(Clone, Copy)]
pub enum DecisionCall<'a> {
    /// The question whether a group is to be notified, on the terms of the query, which is not decoded.
    Decide { query: &'a str },
    /// The notice that a group was notified.
    Notified,
    /// The live entries of the log.
    Log,
    /// The alerts of the last messages.
    Alerts,
}

/// The beginning of the paths of all calls on decisions.
const FRONT: &[u8] = b"/v1/";

/// Returns whether a request is for one of these calls: its path begins with `/v1/`, whatever its method. All others are for the
/// silences.
pub fn is_for_decisions(request: &Request) -> bool
    ensures { result ≡ is_below (string_bytes request.now.target) }
{
    request.target.as_bytes().starts_with(FRONT)
}

/// Returns the path and the query of a target, cut at the first `?`.
fn cut(target: &str) -> (&str, &str)
    ensures path { result.0.now ≡ path_of target.now }
    ensures query { result.1.now ≡ query_of target.now }
{
    match target.split_once('?') {
        Some(parts) => parts,
        None => (target, ""),
    }
}

/// Returns the call that a request with this method and target makes.
///
/// # Errors
///
/// [`DecisionCause::NoSuchPath`] for any other path, and [`DecisionCause::MethodNotAllowed`] for another method on one of the paths.
pub fn call_of<'a>(method: &str, target: &'a str) -> Result<DecisionCall<'a>, DecisionCause>
    ensures { IsCallOf method.now target.now result }
{
    let (path, query) = cut(target);
    match path {
        "/v1/decide" => match method {
            "POST" => Ok(DecisionCall::Decide { query }),
            _ => Err(DecisionCause::MethodNotAllowed(DecisionResource::Decisions)),
        },
        "/v1/notified" => match method {
            "POST" => Ok(DecisionCall::Notified),
            _ => Err(DecisionCause::MethodNotAllowed(DecisionResource::Notices)),
        },
        "/v1/log" => match method {
            "GET" => Ok(DecisionCall::Log),
            _ => Err(DecisionCause::MethodNotAllowed(DecisionResource::Entries)),
        },
        "/v1/alerts" => match method {
            "GET" => Ok(DecisionCall::Alerts),
            _ => Err(DecisionCause::MethodNotAllowed(DecisionResource::Alerts)),
        },
        _ => Err(DecisionCause::NoSuchPath),
    }
}
