//! The two operations of a log on its file, each of which is on the disk when it returns.

ghost use Rattle.std.specs.Prelude.{◌≡◌, ◌≤◌, length, take, OnOk};
ghost use Rattle.am_store.specs.Device.{Only, Torn, Cut, Holds, LeavesOnly, HasCause};

use crate::device::Device;
use crate::log_error::LogError;

/// Writes the bytes over what is there, and past the end.
pub(crate) fn write_down<D: Device>(device: &mut D, at: u64, bytes: &[u8]) -> Result<(), LogError>
    requires place { at ≤ length (D.seen device.old) }
    requires durable { Only (D.seen device.old) (D.may_leave device.old) }
    ensures written { OnOk result (Holds (D.seen device.old) at bytes.now (D.seen device.new)) }
    ensures durable { OnOk result (Only (D.seen device.new) (D.may_leave device.new)) }
    ensures any_moment { LeavesOnly D.moment D.left_since device.old device.new
        (Torn at (length bytes.now) (D.seen device.old)) }
    ensures cause { HasCause (D.faults device.old) (D.faults device.new) result }
{
    device.write_at(at, bytes)?;
    device.sync()
}

/// Cuts the file to a length.
pub(crate) fn shorten<D: Device>(device: &mut D, len: u64) -> Result<(), LogError>
    requires place { len ≤ length (D.seen device.old) }
    requires durable { Only (D.seen device.old) (D.may_leave device.old) }
    ensures cut { OnOk result (D.seen device.new ≡ take len (D.seen device.old)) }
    ensures durable { OnOk result (Only (D.seen device.new) (D.may_leave device.new)) }
    ensures any_moment { LeavesOnly D.moment D.left_since device.old device.new (Cut len (D.seen device.old)) }
    ensures cause { HasCause (D.faults device.old) (D.faults device.new) result }
{
    device.cut(len)?;
    device.sync()
}
