//! Versions that are written as the merge sees them.

ghost use Rattle.std.specs.Prelude.{◌≡◌};

use crate::message::Message;
use am_version_order::Version;

/// A version whose canonical bytes, as the merge sees them, are its text as a message, so that it can be read back.
pub trait Record: Version + Message {
    /// A version is a value of both traits at once, and its text is its content.
    ghost written: { (v : Self) → Self.Version.is_value v →
        Self.Message.is_value v × ((Self.seen v).content ≡ Self.writes v) };
}
