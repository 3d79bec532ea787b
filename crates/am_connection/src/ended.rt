//! Outcomes of connections.

ghost use Rattle.std.specs.Prelude.{◌≡◌};
ghost use Rattle.am_connection.specs.Connections.{AddsAll, effects_of};
ghost use Rattle.am_member.specs.Incoming.{no_effects};

use am_gossip::Frame;
use am_instance::{FrameSender, Place, Unsent};
use am_member::StepEffects;
use am_peers::ConnectionFault;
use std::alloc::Global;

/// The outcome of a connection that has ended.
#[derive(Drop)]
pub struct Ended {
    /// The frames to be sent, in order, each with the place of the peer to which it goes.
    pub frames: Vec<(Place, Frame)>,
    /// The counts of frames that were left out.
    pub unsent: Unsent,
    /// True if a Tick was among the steps that were made.
    pub ticked: bool,
    /// The reason why the connection ended before its input did.
    pub fault: Option<ConnectionFault>,
}

impl Ended {
    /// Returns the outcome of a connection whose steps had these effects.
    pub(crate) fn new(effects: StepEffects, fault: Option<ConnectionFault>) -> Ended
        ensures effects { effects_of result ≡ effects }
        ensures fault { result.fault ≡ fault }
    {
        let StepEffects { outbox, ticked } = effects;
        let FrameSender { frames, unsent } = outbox;
        Ended {
            frames,
            unsent,
            ticked,
            fault,
        }
    }
}

/// Returns the effects of no step. It takes no memory.
pub fn no_effects(alloc: Global) -> StepEffects
    ensures { result ≡ no_effects }
{
    StepEffects {
        outbox: FrameSender::new(alloc),
        ticked: false,
    }
}

/// Adds the effects of more steps. Frames for which there is no memory are counted.
pub fn add(effects: &mut StepEffects, more: StepEffects)
    ensures { AddsAll more effects.old effects.new }
{
    let StepEffects { outbox, ticked } = more;
    effects.ticked |= ticked;
    effects.outbox.add(outbox);
}
