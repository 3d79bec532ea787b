//! A line of the table of statuses.

ghost use Rattle.http.specs.StatusCode.{IsStatusCode};

/// A line of the table of statuses.
#[derive(Clone, Copy)]
pub struct Refusal {
    pub status: u16,
    /// The text of the body.
    pub text: &'static str,
    /// The methods that the path has, if another was asked for.
    pub allow: Option<&'static str>,
    /// True if the reply has its head alone.
    pub is_bare: bool,
    pub ghost is_status: { IsStatusCode status },
}
