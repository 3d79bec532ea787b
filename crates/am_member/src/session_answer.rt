//! The answers to what connections say.

ghost use Rattle.std.specs.Prelude.{◌≡◌, None};
ghost use Rattle.am_instance.specs.Sendings.{sent_by};
ghost use Rattle.am_member.specs.Incoming.{Adds, no_effects};

use am_api_silences::ReplyBuilder;
use am_instance::{FrameSender, Outcome};
use am_peers::ConnectionFault;
use std::alloc::Global;

/// The effects of steps besides those on the instance.
#[derive(Drop)]
pub struct StepEffects {
    pub outbox: FrameSender,
    /// True if a Tick was among the steps that were made.
    pub ticked: bool,
}

impl StepEffects {
    /// Returns the effects of no step. It takes no memory.
    pub(crate) fn none(alloc: Global) -> StepEffects
        ensures { result ≡ no_effects }
    {
        StepEffects {
            outbox: FrameSender::new(alloc),
            ticked: false,
        }
    }

    /// Adds the effects of one more step. Frames for which there is no memory are counted.
    pub(crate) fn add(&mut self, outcome: Outcome, ticks: bool)
        ensures { Adds (sent_by outcome) ticks self.old self.new }
    {
        let (_, outbox) = outcome.into_parts();
        self.ticked |= ticks;
        self.outbox.add(outbox);
    }
}

/// The answer to what a connection said.
#[derive(Drop)]
pub struct SessionAnswer {
    /// The reply, if a request was answered. That of a list is still to be written.
    pub reply: Option<ReplyBuilder>,
    pub effects: StepEffects,
    /// The reason why nothing more is heard of the connection.
    pub fault: Option<ConnectionFault>,
}

impl SessionAnswer {
    /// Returns an answer without a reply, of no step. It takes no memory.
    pub(crate) fn nothing(alloc: Global) -> SessionAnswer
        ensures reply { result.reply ≡ None }
        ensures effects { result.effects ≡ no_effects }
        ensures fault { result.fault ≡ None }
    {
        SessionAnswer {
            reply: None,
            effects: StepEffects::none(alloc),
            fault: None,
        }
    }
}
