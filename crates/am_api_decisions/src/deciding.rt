//! A decision that is being made.

ghost use Rattle.std.specs.Prelude.{◌≡◌, ◌==◌, ℕ, List, [], ◌∷◌, OnOk, IfErr, length};
ghost use Rattle.am_http.specs.Lines.{line_seen};
ghost use Rattle.am_api_decisions.specs.Asking.{HoldsSame, IsMutesStep, StopsAt, counted_with};
ghost use Rattle.am_api_decisions.specs.Deciding.{IsGoingOn, underway_of};
ghost use Rattle.am_api_decisions.specs.Settling.{GivesReason, IsBrokenOff, IsDecided};

use crate::alerts::ask;
use crate::answer::ReasonedReply;
use crate::group::Group;
use crate::message::Alert;
use crate::parsed_call::Question;
use crate::settling::{JudgedGroup, Judgement, settle};
use crate::table;
use crate::tally::AlertTally;
use crate::timing::Timing;
use am_http::Refusal;
use am_instance::Instance;
use am_version_order::Moment;
use std::alloc::Global;
use std::marker::Model;
use std::vec::IntoIter;

/// A decision that is being made: the alerts that are still to be asked for the silences that mute them, and the tally of the
/// others.
#[derive(Drop)]
pub struct Deciding {
    group: Group,
    left: IntoIter<Alert>,
    tally: AlertTally,
    /// The number of bytes of the longest value of a label in all alerts.
    longest: usize,
}

impl Model for Deciding {
    ghost use Rattle.std.specs.Prelude.{◌≡◌, length};
    ghost use Rattle.std.specs.Vec.Iter.{into_iter_items, into_iter_len};
    ghost use Rattle.am_api_decisions.specs.Deciding.{Underway};

    ghost Value = { Underway };

    ghost view = { λ d. record { group = d.group; left = into_iter_items d.left; counted = d.tally } };

    ghost invariant = { λ d. into_iter_len d.left ≡ length (into_iter_items d.left) };
}

/// Asks for the silences that mute an alert, and counts the alert.
fn ask_one(
    alloc: Global,
    instance: &mut Instance,
    alert: Alert,
    tally: &mut AlertTally,
    now: Moment,
) -> Result<(), Refusal>
    ensures asked { OnOk result ((ids : List (List ℕ)) × IsMutesStep now alert.labels ids instance.old instance.new
        × (tally.new ≡ counted_with tally.old (record { alert = alert; ids = ids } ∷ []))) }
    ensures stopped { IfErr result (λ refusal. StopsAt now alert.labels instance.old (line_seen refusal) instance.new) }
{
    let ids = ask(alloc, instance, &alert.labels, now)?;
    match tally.add(alloc, alert, ids) {
        Ok(()) => Ok(()),
        Err(_) => Err(table::out_of_memory()),
    }
}

impl Deciding {
    /// Begins with a question none of whose alerts has been asked. Takes no memory.
    pub fn new(alloc: Global, question: Question) -> Deciding
        ensures { result ≡ underway_of question }
    {
        let longest = question.longest_value();
        let Question { message, terms } = question;
        let group = Group {
            group_key: message.group_key,
            receiver: message.receiver,
            terms,
        };
        Deciding {
            group,
            left: message.alerts.into_iter(),
            tally: AlertTally::new(alloc),
            longest,
        }
    }

    /// Asks for the silences that mute the next `most` alerts, or all that are left, each by one step at `now`.
    ///
    /// # Errors
    ///
    /// The line that says why not all of them were asked: `clock ran back` if `now` is before the moment of the last event, or
    /// `out of memory`. The steps that were made until then stand; they change nothing but that moment.
    pub fn resume(
        self,
        alloc: Global,
        instance: &mut Instance,
        most: usize,
        now: Moment,
    ) -> Result<Deciding, Refusal>
        ensures asked { IsGoingOn now most self instance.old result instance.new }
        // PROMISE: Asking alerts, in any stretches, changes nothing but the moment.
        ensures same { HoldsSame instance.old instance.new }
    {
        let Deciding {
            group,
            mut left,
            mut tally,
            longest,
        } = self;
        for _count in 0..most {
            match left.next() {
                Some(alert) => ask_one(alloc, instance, alert, &mut tally, now)?,
                None => break,
            }
        }
        Ok(Deciding {
            group,
            left,
            tally,
            longest,
        })
    }

    /// Returns the number of bytes of the longest value of a label in the alerts of the question.
    pub fn longest_value(&self) -> usize {
        self.longest
    }

    /// Returns whether all alerts have been asked.
    pub fn is_asked(&self) -> bool
        ensures { result ≡ (length self.now.left == 0) }
    {
        self.left.len() == 0
    }

    /// Decides whether to notify, and returns the reply. The alerts that are left are asked, as by
    /// [`Deciding::resume`], and then one step decides over those that no silence mutes, all at the moment of the timing. If every
    /// alert is muted, no step is made. The reply gives that moment, to the millisecond, and the length of the turns.
    pub fn decide(self, alloc: Global, instance: &mut Instance, timing: Timing) -> ReasonedReply
        // PROMISE: The decision is over all alerts that no silence mutes, and its reply is the text of that answer.
        ensures decided { IsDecided timing self instance.old result.reply instance.new }
        // PROMISE: The reason that is handed on for counting is the one that the reply tells.
        ensures reason { GivesReason result.why result.reply }
        ensures same { HoldsSame instance.old instance.new }
    {
        let count = self.left.len();
        match self.resume(alloc, instance, count, timing.now) {
            Ok(deciding) => {
                let Deciding {
                    group,
                    left: _,
                    tally,
                    longest: _,
                } = deciding;
                let whole = JudgedGroup {
                    group,
                    tally,
                    judgement: Judgement::Whole,
                };
                settle(alloc, instance, whole, timing)
            }
            Err(refusal) => ReasonedReply::refusal(alloc, &refusal),
        }
    }

    /// Decides whether to notify without asking the alerts that are left, and returns the reply: those alerts count
    /// as if no silence muted them. One step decides over these and those that no silence mutes; if the group is to be notified,
    /// the reply says that it isn't judged.
    pub fn break_off(self, alloc: Global, instance: &mut Instance, timing: Timing) -> ReasonedReply
        // PROMISE: A decision that is broken off leaves out no alert that wasn't asked, and says so.
        ensures decided { IsBrokenOff timing self instance.old result.reply instance.new }
        ensures reason { GivesReason result.why result.reply }
        ensures same { HoldsSame instance.old instance.new }
    {
        let Deciding {
            group,
            left,
            mut tally,
            longest: _,
        } = self;
        match tally.add_unasked(alloc, left) {
            Ok(()) => {
                let partial = JudgedGroup {
                    group,
                    tally,
                    judgement: Judgement::Partial,
                };
                settle(alloc, instance, partial, timing)
            }
            Err(_) => ReasonedReply::short(),
        }
    }
}
