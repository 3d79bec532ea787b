//! A list of calls that only clauses read. It takes no memory.

ghost use Rattle.std.specs.Prelude.{◌≡◌, List, [], ◌∷◌, ◌++◌};
ghost use Rattle.std.specs.Borrow.{ftrue};
ghost use Rattle.am_store.specs.Calls.{Event, event_of};

use std::marker::Model;

/// The calls that were made so far. Only clauses read it, and it takes no memory.
#[derive(Drop)]
pub struct DiskCalls {
    pub ghost events: { List Event },
}

impl Model for DiskCalls {
    ghost also_owns = { λ _. ftrue };
}

impl DiskCalls {
    pub(crate) fn new() -> DiskCalls
        ensures { result.events ≡ [] }
    {
        DiskCalls {}
    }

    /// Returns the same calls and one more, with its number, 1 if it was done, up to two texts, and the record of a new file.
    pub(crate) fn with(
        _before: &DiskCalls,
        _numbers: &[u64],
        _first: &[u8],
        _second: &[u8],
        _file: &DiskCalls,
    ) -> DiskCalls
        ensures { result.events ≡ _before.now.events ++ event_of _numbers.now _first.now _second.now _file.now.events ∷ [] }
    {
        DiskCalls {}
    }
}
