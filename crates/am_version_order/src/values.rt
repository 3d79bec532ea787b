//! The fact that versions are values of their type.

ghost use Rattle.std.specs.Prelude.{All};

use crate::version::Version;

/// States that versions are values of their type. Calling it has no effect.
pub fn versions_are_values<V: Version>(versions: &[V])
    ensures { All V.is_value versions.now }
{
    for version in versions {
        let _content = version.canonical();
    }
}
