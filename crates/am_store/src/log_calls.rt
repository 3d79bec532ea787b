//! A list of calls that only clauses read. It takes no memory.

ghost use Rattle.std.specs.Prelude.{◌≡◌, List, [], ◌∷◌};
ghost use Rattle.std.specs.Borrow.{ftrue};
ghost use Rattle.am_store.specs.Events.{Event, event_of};

use std::marker::{Model, PhantomData};

/// The calls that were made so far. Only clauses read it, and it takes no memory.
#[derive(Drop)]
pub struct LogCalls {
    marker: PhantomData<u8>,
    pub ghost events: { List Event },
}

impl Model for LogCalls {
    ghost also_owns = { λ _. ftrue };
}

impl LogCalls {
    pub(crate) fn new() -> LogCalls
        ensures { result.events ≡ [] }
    {
        LogCalls {
            marker: PhantomData,
        }
    }

    /// Records a call by the numbers of an `Event`: its kind, an offset or a length, and 1 for success.
    pub(crate) fn note(&mut self, _numbers: &[u64], _bytes: &[u8])
        ensures { self.new.events ≡ event_of _numbers.now _bytes.now ∷ self.old.events }
    {}
}
