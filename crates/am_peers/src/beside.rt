//! Names of Alertmanagers beside a member, among the names of the members.

ghost use Rattle.std.specs.Prelude.{◌≡◌, ◌++◌, IfOk, string_bytes};
ghost use Rattle.am_peers.specs.Names.{behind_all, shown};

use std::alloc::{AllocError, Global};

/// The prefix of such a name: as text it sorts behind all names that users give.
const BEHIND_ALL: &str = "\u{10FFFF}";

/// Returns the name of an Alertmanager as it stands among the names of the members, behind all others.
///
/// # Errors
///
/// [`AllocError`] if memory runs out.
pub fn name_beside(alloc: Global, name: &str) -> Result<String, AllocError>
    ensures { IfOk result (λ it. string_bytes it ≡ behind_all ++ name.now) }
{
    let mut beside = String::new(alloc);
    beside.push_str(BEHIND_ALL)?;
    beside.push_str(name)?;
    Ok(beside)
}

/// Returns the name of a member as it is shown.
pub fn shown_name(name: &str) -> &str
    ensures { result.now ≡ shown name.now }
{
    name.strip_prefix(BEHIND_ALL).unwrap_or(name)
}
