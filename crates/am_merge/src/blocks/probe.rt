//! The probes by which a search compares.

ghost use Rattle.std.specs.Prelude.{◌≡◌};
ghost use Rattle.std.specs.declared.cmp.Ordering.{Ordering};

use std::cmp::Ordering;

/// A probe for what is searched for among items.
pub trait Probe<T> {
    /// The position of an item: `Less` is before what is searched for, `Greater` behind it.
    ghost order: { Self → T → Ordering };

    /// Returns the position of the item.
    fn compare(&self, item: &T) -> Ordering
        ensures { result ≡ order self.now item.now };
}
