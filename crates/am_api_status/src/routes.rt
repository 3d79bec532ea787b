//! The calls by which a member is asked about itself.

ghost use Rattle.std.specs.Prelude.{◌≡◌, codes};
ghost use Rattle.std.specs.List.{before_first, after_first};
ghost use Rattle.am_http.specs.Paths.{path_of};
ghost use Rattle.am_http.specs.Lines.{line_seen};
ghost use Rattle.am_api_status.specs.Calls.{IsCallOn, IsNamed, not_allowed_line};

use am_http::Refusal;

/// The resource that a path of these calls names.
#[derive(Clone, Copy, Debug, PartialEq, Eq)]
pub enum StatusResource {
    /// `/`: the page for people.
    Page,
    /// `/-/healthy`: whether the member runs.
    Healthy,
    /// `/-/ready`: whether the member answers requests.
    Ready,
    /// `/api/v2/status`: the member's name, and the options that it was started with.
    Status,
    /// `/api/v2/receivers`: an empty list.
    Receivers,
    /// `/metrics`: the member's figures.
    Metrics,
}

/// A call that asks for the resource of a path.
#[derive(Clone, Copy, Debug, PartialEq, Eq)]
pub struct StatusCall {
    pub resource: StatusResource,
    /// True if the reply has its head alone, as HEAD wants it.
    pub is_bare: bool,
}

/// Returns the path of a target, cut at the first `?`.
fn path_of(target: &str) -> &str
    ensures { result.now ≡ path_of target.now }
{
    match target.split_once('?') {
        Some((path, _)) => path,
        None => target,
    }
}

/// Returns the resource that the path of a target names, if it is one of these. All other paths are for the silences and for
/// decisions.
pub fn resource_of(target: &str) -> Option<StatusResource>
    // PROMISE: A path names one page about the member, or none.
    ensures { IsNamed (path_of target.now) result }
{
    match path_of(target) {
        "/" => Some(StatusResource::Page),
        "/-/healthy" => Some(StatusResource::Healthy),
        "/-/ready" => Some(StatusResource::Ready),
        "/api/v2/status" => Some(StatusResource::Status),
        "/api/v2/receivers" => Some(StatusResource::Receivers),
        "/metrics" => Some(StatusResource::Metrics),
        _ => None,
    }
}

/// Returns the line of the table for any other method.
const fn not_allowed() -> Refusal
    ensures { line_seen result ≡ not_allowed_line }
{
    Refusal {
        status: 405,
        text: "method not allowed",
        allow: Some("GET, HEAD"),
        is_bare: false,
    }
}

/// Returns the call that a request with this method makes on a resource.
///
/// # Errors
///
/// The line `method not allowed` if the method is neither GET nor HEAD.
pub fn call_of(resource: StatusResource, method: &str) -> Result<StatusCall, Refusal>
    ensures { IsCallOn resource method.now result }
{
    match method {
        "GET" => Ok(StatusCall {
            resource,
            is_bare: false,
        }),
        "HEAD" => Ok(StatusCall {
            resource,
            is_bare: true,
        }),
        _ => Err(not_allowed()),
    }
}
