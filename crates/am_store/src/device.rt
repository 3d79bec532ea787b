//! A file as the log sees it: its content, and what a crash may leave of it.

ghost use Rattle.std.specs.Prelude.{◌≡◌, ◌≤◌, List, ℕ, length, take, OnOk};
ghost use Rattle.am_store.specs.Device.{Only, Follows, Torn, Cut, Holds, Elapses, HasCause};

use crate::log_error::LogError;

/// A file that is written and synced. Its contract is what a disk does; [`crate::Memory`] meets it, and [`crate::LogFile`] does
/// if the disk does what its model says.
pub trait Device {
    /// The bytes that a read would return.
    ghost seen: { Self → List ℕ };

    /// The contents that a crash at this moment may leave.
    ghost may_leave: { Self → List ℕ → Type 0 };

    /// The moment, as a number that never falls.
    ghost moment: { Self → ℕ };

    /// The contents that a crash at some moment from that one on might have left, during a call or between two.
    ghost left_since: { Self → ℕ → List ℕ → Type 0 };

    /// The number of times that the disk has failed.
    ghost faults: { Self → ℕ };

    /// Writes over what is there, and past the end. Until a sync, a crash may leave any bytes in the range.
    fn write_at(&mut self, at: u64, bytes: &[u8]) -> Result<(), LogError>
        requires { at ≤ length (seen self.old) }
        ensures written { OnOk result (Holds (seen self.old) at bytes.now (seen self.new)) }
        ensures crash { Follows (Torn at (length bytes.now)) (may_leave self.old) (may_leave self.new) }
        ensures time { Elapses (moment self.old) (moment self.new) (left_since self.old) (left_since self.new) (may_leave self.new) }
        ensures cause { HasCause (faults self.old) (faults self.new) result };

    /// Cuts the file to a length.
    fn cut(&mut self, len: u64) -> Result<(), LogError>
        requires { len ≤ length (seen self.old) }
        ensures cut { OnOk result (seen self.new ≡ take len (seen self.old)) }
        ensures crash { Follows (Cut len) (may_leave self.old) (may_leave self.new) }
        ensures time { Elapses (moment self.old) (moment self.new) (left_since self.old) (left_since self.new) (may_leave self.new) }
        ensures cause { HasCause (faults self.old) (faults self.new) result };

    /// Syncs the file: after that, a crash leaves what a read returns.
    fn sync(&mut self) -> Result<(), LogError>
        ensures durable { OnOk result (Only (seen self.old) (may_leave self.new)) }
        ensures seen { seen self.new ≡ seen self.old }
        ensures crash { (c : List ℕ) → may_leave self.new c → may_leave self.old c }
        ensures time { Elapses (moment self.old) (moment self.new) (left_since self.old) (left_since self.new) (may_leave self.new) }
        ensures cause { HasCause (faults self.old) (faults self.new) result };

    /// States that a crash may leave all that was written.
    ghost seen_may_stay: { (file : Self) → may_leave file (seen file) };

    /// States that this moment is one of those since an earlier one.
    ghost counts_now: { (file : Self) (t : ℕ) (c : List ℕ) → t ≤ moment file → may_leave file c → left_since file t c };

    /// States that there is no other moment since this one.
    ghost only_now: { (file : Self) (c : List ℕ) → left_since file (moment file) c → may_leave file c };
}
