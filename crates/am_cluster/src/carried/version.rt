//! A version of either state.

ghost use Rattle.std.specs.Prelude.{◌≡◌};
ghost use Rattle.am_instance.specs.Deliveries.{Delivery};
ghost use Rattle.am_cluster.specs.Contents.{delivery_of, IsValue};

use am_nflog::MeshEntry;
use am_silence::MeshSilence;
use am_version_order::Version;
use am_wire::Message;

/// A version that a frame carries.
#[derive(Drop)]
pub enum AnyVersion {
    /// A version of a silence.
    Silence(MeshSilence),
    /// A version of an entry of the log.
    Entry(MeshEntry),
}

/// A version of a state that frames carry.
pub trait FrameVersion: Message {
    /// The version as what is delivered.
    ghost delivered: { Self → Delivery };

    /// Returns the version as one of either state.
    fn carried(self) -> AnyVersion
        ensures same { delivery_of result ≡ delivered self }
        ensures value { IsValue (delivery_of result) };
}

impl FrameVersion for MeshSilence {
    ghost use Rattle.am_instance.specs.Deliveries.Delivery.{OfSilence};

    ghost delivered = { OfSilence };

    fn carried(self) -> AnyVersion {
        let _content = self.canonical();
        AnyVersion::Silence(self)
    }
}

impl FrameVersion for MeshEntry {
    ghost use Rattle.am_instance.specs.Deliveries.Delivery.{OfEntry};

    ghost delivered = { OfEntry };

    fn carried(self) -> AnyVersion {
        let _content = self.canonical();
        AnyVersion::Entry(self)
    }
}
