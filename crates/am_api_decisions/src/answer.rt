//! The answer whether to notify, and why.

ghost use Rattle.std.specs.Prelude.{◌≡◌, MatchOption, false};
ghost use Rattle.am_http.specs.Lines.{line_seen};
ghost use Rattle.am_api_silences.specs.ReplyBuilder.{IsNoMemory};
ghost use Rattle.am_api_silences.specs.Replies.{Says, line_bytes};
ghost use Rattle.am_api_decisions.specs.Answers.{reason_text, why_text};
ghost use Rattle.am_api_decisions.specs.Settling.{GivesReason, is_notified};

use crate::replies::{short, tell};
use am_api_silences::ResponseBytes;
use am_dedup::Reason;
use am_http::Refusal;
use am_matcher::Labels;
use am_nflog::Hashes;
use am_silence_json::moments::MomentText;
use am_wire::Text;
use std::alloc::Global;

/// The reason why a group is notified or not.
#[derive(Clone, Copy)]
pub enum Why {
    Notify(Reason),
    /// Something in the group is notified for one of these reasons, though not every alert was checked against the silences.
    Unjudged,
    /// Everything in the group was notified, and the repeat interval isn't over.
    Skip,
    /// Each alert is muted by a silence.
    Muted,
}

/// Returns the name of a reason.
fn reason_text(reason: Reason) -> &'static str
    ensures { result.now ≡ reason_text reason }
{
    match reason {
        Reason::First => "First",
        Reason::NewFiring => "NewFiring",
        Reason::AllResolved => "AllResolved",
        Reason::NewResolved => "NewResolved",
        Reason::Repeat => "Repeat",
    }
}

impl Why {
    /// Returns its name.
    pub fn text(self) -> &'static str
        ensures { result.now ≡ why_text self }
    {
        match self {
            Why::Notify(reason) => reason_text(reason),
            Why::Unjudged => "Unjudged",
            Why::Skip => "Skip",
            Why::Muted => "Muted",
        }
    }

    /// Returns whether the group is to be notified.
    pub fn is_notified(self) -> bool
        ensures { result ≡ is_notified self }
    {
        match self {
            Why::Notify(_) | Why::Unjudged => true,
            Why::Skip => false,
            Why::Muted => false,
        }
    }
}

/// The reply to a question.
#[derive(Drop)]
pub struct ReasonedReply {
    pub reply: ResponseBytes,
    /// The reason that the reply gives, or `None` if it says why nothing is decided.
    pub why: Option<Why>,
}

impl ReasonedReply {
    /// Returns whether the group is to be notified. A refusal decides nothing.
    pub fn is_notified(&self) -> bool
        ensures { MatchOption self.now.why (result ≡ false) (λ why. result ≡ is_notified why) }
    {
        match self.why {
            Some(why) => why.is_notified(),
            None => false,
        }
    }

    /// Returns the one whose reply says that there is no memory for another.
    pub(crate) fn short() -> ReasonedReply
        ensures short { IsNoMemory result.reply }
        ensures reason { GivesReason result.why result.reply }
    {
        ReasonedReply {
            reply: short(),
            why: None,
        }
    }

    /// Returns the one whose reply is a refusal.
    pub(crate) fn refusal(alloc: Global, line: &Refusal) -> ReasonedReply
        ensures line { Says (λ bytes. bytes ≡ line_bytes (line_seen line.now)) result.reply }
        ensures reason { GivesReason result.why result.reply }
    {
        ReasonedReply {
            reply: tell(alloc, line),
            why: None,
        }
    }
}

/// A muted alert, and identifiers of silences that mute it.
#[derive(Drop)]
pub struct Muted {
    pub labels: Labels,
    pub silenced_by: Vec<Text>,
    /// The number of further silences that mute the alert.
    pub more: u64,
}

/// The answer whether to notify, with all that is to be logged after that was done.
#[derive(Drop)]
pub struct DecisionReply {
    /// The moment of the decision.
    pub decided_at: MomentText,
    /// The hashes of the alerts that fire and aren't muted.
    pub firing: Hashes,
    pub group_key: Text,
    /// The number of the integration in its receiver.
    pub index: u32,
    pub integration: Text,
    pub muted: Vec<Muted>,
    pub notify: bool,
    pub reason: Why,
    pub receiver: Text,
    /// The repeat interval, in seconds.
    pub repeat: u64,
    /// The hashes of the alerts that are resolved and aren't muted.
    pub resolved: Hashes,
    /// The length of each member's turn, in seconds.
    pub turn_seconds: u64,
}
