//! The steps of frames that came from a peer.

ghost use Rattle.std.specs.Prelude.{◌≡◌, ℕ, OnOk, OnErr, IfErr, Err};
ghost use Rattle.am_instance.specs.OneStep.{IsStep};
ghost use Rattle.am_instance.specs.Steps.{collects};
ghost use Rattle.am_instance.specs.declared.event.Event.TheVariants as events;
ghost use Rattle.am_member.specs.Incoming.{MakesAll, MakesStep, StopsAt, so_far};

use crate::session_answer::StepEffects;
use am_gossip::Frame;
use am_instance::{Event, Instance, Place, StepError};
use am_version_order::Moment;

fn is_tick(frame: &Frame) -> bool
    ensures { (sender : ℕ) → result ≡ collects (events.Frame sender frame.now) }
{
    matches!(frame, Frame::Tick)
}

/// Makes the step of a frame.
fn make_step(
    instance: &mut Instance,
    effects: &mut StepEffects,
    sender: Place,
    frame: Frame,
    now: Moment,
) -> Result<(), StepError>
    ensures made { OnOk result (MakesStep sender now frame (so_far instance.old effects.old) (so_far instance.new effects.new)) }
    ensures stopped { IfErr result (λ e. IsStep instance.old (events.Frame sender frame) now (Err e) instance.new) }
    ensures kept { OnErr result (effects.new ≡ effects.old) }
{
    let ticks = is_tick(&frame);
    let outcome = instance.step(Event::Frame { sender, frame }, now)?;
    effects.add(outcome, ticks);
    Ok(())
}

/// Makes the steps of frames, up to the first one that is refused.
///
/// # Errors
///
/// The reason why that one is refused. The steps before it stand.
pub fn make_steps(
    instance: &mut Instance,
    effects: &mut StepEffects,
    sender: Place,
    frames: Vec<Frame>,
    now: Moment,
) -> Result<(), StepError>
    ensures made { OnOk result (MakesAll sender now frames.items (so_far instance.old effects.old) (so_far instance.new effects.new)) }
    ensures stopped { IfErr result (StopsAt sender now frames.items (so_far instance.old effects.old) (so_far instance.new effects.new)) }
{
    for frame in frames {
        make_step(instance, effects, sender, frame, now)?;
    }
    Ok(())
}
