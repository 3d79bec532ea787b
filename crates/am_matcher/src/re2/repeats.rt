//! Names that come twice.

ghost use Rattle.std.specs.Prelude.{◌≡◌, ◌≢◌, true, not, if◌then◌else◌, ℕ, List, map, bytes_eq, string_bytes, AllPairs, IfOk, MatchOption};
ghost use Rattle.std.specs.BTreeSet.{contains_text};

use std::alloc::{AllocError, Global};
use std::collections::BTreeSet;

/// Keeps a name, and returns whether it wasn't kept before.
fn keep(seen: &mut BTreeSet<String>, name: &String) -> Result<bool, AllocError>
    ensures added { IfOk result (λ added. added ≡ not (contains_text seen.old (string_bytes name.now))) }
    ensures kept { IfOk result (λ added. (bytes : List ℕ) → contains_text seen.new bytes
        ≡ (if bytes_eq (string_bytes name.now) bytes then true else contains_text seen.old bytes)) }
{
    let name = name.clone()?;
    let added = seen.insert(name)?;
    Ok(added)
}

/// Returns the place of a name that comes before it too, or `None` if all names differ.
pub fn repeated(alloc: Global, names: &[String]) -> Result<Option<usize>, AllocError>
    ensures { IfOk result (λ place. MatchOption place (AllPairs ◌≢◌ (map string_bytes names.now)) (λ _. ¬ AllPairs ◌≢◌ (map string_bytes names.now))) }
{
    let mut seen: BTreeSet<String> = BTreeSet::new(alloc);
    for (place, name) in names.iter().enumerate() {
        if !keep(&mut seen, name)? {
            return Ok(Some(place));
        }
    }
    Ok(None)
}
