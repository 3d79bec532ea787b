//! Reports on the calm of members.

ghost use Rattle.std.specs.Prelude.{◌≡◌};
ghost use Rattle.am_cluster.specs.Firsts.{earlier};

/// The report on a member: that it was calm, or the line of the first step at which it wasn't.
#[derive(Clone, Copy, Debug)]
pub struct CalmReport {
    /// True if the member was calm at each step so far.
    pub calm: bool,
    /// The line of the first step at which the member wasn't calm.
    pub first_fault: Option<u64>,
}

/// Returns the smaller of two numbers, or the only one.
pub(super) fn earlier(first: Option<usize>, second: Option<usize>) -> Option<usize>
    ensures { result ≡ earlier first second }
{
    match (first, second) {
        (Some(first), Some(second)) => Some(first.min(second)),
        (Some(only), None) | (None, Some(only)) => Some(only),
        (None, None) => None,
    }
}
