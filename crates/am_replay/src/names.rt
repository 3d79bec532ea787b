//! The names of replies in a line.

ghost use Rattle.std.specs.Prelude.{◌≡◌};
ghost use Rattle.am_replay.specs.Printed.{decision_word, kind_word, refusal_word, yes_or_no};

use crate::refusal::LineRefusal;
use am_dedup::{Decision, Reason};
use am_gossip::FrameKind;

/// Returns `yes` or `no`.
pub fn yes_or_no(answer: bool) -> &'static str
    ensures { result.now ≡ yes_or_no answer }
{
    if answer { "yes" } else { "no" }
}

/// Returns the name of a decision: the reason why a group is notified, or that it isn't.
pub fn decision_name(decision: Decision) -> &'static str
    ensures { result.now ≡ decision_word decision }
{
    match decision {
        Decision::Skip => "Skip",
        Decision::Notify(Reason::First) => "First",
        Decision::Notify(Reason::NewFiring) => "NewFiring",
        Decision::Notify(Reason::AllResolved) => "AllResolved",
        Decision::Notify(Reason::NewResolved) => "NewResolved",
        Decision::Notify(Reason::Repeat) => "Repeat",
    }
}

/// Returns the name of a kind of frames.
pub fn kind_name(kind: FrameKind) -> &'static str
    ensures { result.now ≡ kind_word kind }
{
    match kind {
        FrameKind::Delta => "Delta",
        FrameKind::Push => "Push",
        FrameKind::Pull => "Pull",
        FrameKind::Tick => "Tick",
    }
}

/// Returns the name of a kind of refusal.
pub fn refusal_name(refusal: LineRefusal) -> &'static str
    ensures { result.now ≡ refusal_word refusal }
{
    match refusal {
        LineRefusal::NotFound => "NotFound",
        LineRefusal::NoMatcher => "NoMatcher",
        LineRefusal::EmptyName => "EmptyName",
        LineRefusal::BadPattern => "BadPattern",
        LineRefusal::AllMatchEmpty => "AllMatchEmpty",
        LineRefusal::EndNotAfterStart => "EndNotAfterStart",
        LineRefusal::EndInPast => "EndInPast",
        LineRefusal::AlreadyExpired => "AlreadyExpired",
        LineRefusal::Newer => "Newer",
        LineRefusal::IdInUse => "IdInUse",
        LineRefusal::TooLarge => "TooLarge",
        LineRefusal::Memory => "Memory",
        LineRefusal::MomentBack => "MomentBack",
        LineRefusal::UnknownPeer => "UnknownPeer",
        LineRefusal::Stopped => "Stopped",
        LineRefusal::Running => "Running",
        LineRefusal::NoFrame => "NoFrame",
    }
}
