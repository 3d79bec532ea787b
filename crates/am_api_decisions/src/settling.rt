//! The answer to a decision, once all alerts of its group have been asked.

ghost use Rattle.std.specs.Prelude.{◌≡◌, IfOk};
ghost use Rattle.serde_json.specs.Written.{compact_text};
ghost use Rattle.am_api_decisions.specs.Answers.{answer_data};
ghost use Rattle.am_api_silences.specs.Replies.{Says, good_bytes};
ghost use Rattle.am_api_decisions.specs.Settling.{GivesReason, IsAnswerBytes, IsAnswerOf, IsDecidedByStep, IsSettled, why_of};
ghost use Rattle.am_api_decisions.specs.Settling.{IsDecisionBytes};

use crate::answer::{DecisionReply, ReasonedReply, Why};
use crate::group::Group;
use crate::replies::good;
use crate::reply_bytes::write_answer;
use crate::table;
use crate::tally::AlertTally;
use crate::terms::Terms;
use crate::timing::Timing;
use am_api_silences::ResponseBytes;
use am_dedup::Decision;
use am_instance::{Instance, Reply};
use am_nflog::Hashes;
use am_silence_json::moments::write_moment;
use std::alloc::{AllocError, Global};

/// The part of a group's alerts that was held against the silences.
#[derive(Clone, Copy, PartialEq, Eq)]
pub enum Judgement {
    /// All of the alerts.
    Whole,
    /// Not all of the alerts: the others count as if no silence muted them.
    Partial,
}

/// A group whose alerts have been counted, and the part of them that was held against the silences.
#[derive(Drop)]
pub struct JudgedGroup {
    pub group: Group,
    pub tally: AlertTally,
    pub judgement: Judgement,
}

/// Returns why a group is notified, or why not.
fn why_of(judgement: Judgement, decision: Decision) -> Why
    ensures { result ≡ why_of judgement decision }
{
    match (judgement, decision) {
        (_, Decision::Skip) => Why::Skip,
        (Judgement::Whole, Decision::Notify(reason)) => Why::Notify(reason),
        (Judgement::Partial, Decision::Notify(_)) => Why::Unjudged,
    }
}

/// Returns the answer that says what is decided of a group, and why.
fn answer_of(timing: Timing, group: Group, tally: AlertTally, why: Why) -> DecisionReply
    ensures { IsAnswerOf timing group tally why result }
{
    let AlertTally {
        firing,
        resolved,
        muted,
    } = tally;
    let Group {
        group_key,
        receiver,
        terms,
    } = group;
    let Terms {
        repeat,
        send_resolved: _,
        waits: _,
        integration,
        index,
    } = terms;
    DecisionReply {
        decided_at: write_moment(timing.now),
        firing: Hashes::new(firing),
        group_key,
        index,
        integration,
        muted,
        notify: why.is_notified(),
        reason: why,
        receiver,
        repeat: repeat.seconds,
        resolved: Hashes::new(resolved),
        turn_seconds: timing.turn_seconds,
    }
}

/// Returns the reply with an answer.
fn answered(alloc: Global, answer: &DecisionReply) -> Result<Vec<u8>, AllocError>
    ensures { IfOk result (λ bytes. bytes.items ≡ good_bytes (compact_text (answer_data answer.now))) }
{
    let body = write_answer(Vec::new(alloc), answer)?;
    let bytes = good(alloc, &body)?;
    Ok(bytes)
}

/// Returns the reply that says what is decided of a group, and why.
fn told_of(
    alloc: Global,
    timing: Timing,
    group: Group,
    tally: AlertTally,
    why: Why,
) -> ReasonedReply
    ensures says { Says (IsAnswerBytes timing group tally why) result.reply }
    ensures reason { GivesReason result.why result.reply }
{
    let answer = answer_of(timing, group, tally, why);
    match answered(alloc, &answer) {
        Ok(bytes) => ReasonedReply {
            reply: ResponseBytes::Own(bytes),
            why: Some(why),
        },
        Err(_) => ReasonedReply::short(),
    }
}

/// Returns the reply that says what a step decided of a group.
fn told_by(alloc: Global, judged: JudgedGroup, timing: Timing, reply: Reply) -> ReasonedReply
    ensures says { Says (IsDecisionBytes judged.judgement timing judged.group judged.tally reply) result.reply }
    ensures reason { GivesReason result.why result.reply }
{
    match reply {
        Reply::Decided(decision) => {
            let JudgedGroup {
                group,
                tally,
                judgement,
            } = judged;
            let why = why_of(judgement, decision);
            told_of(alloc, timing, group, tally, why)
        }
        _ => ReasonedReply::short(),
    }
}

/// Makes the step that decides over the alerts that no silence mutes.
fn decide_by_step(
    alloc: Global,
    instance: &mut Instance,
    judged: JudgedGroup,
    timing: Timing,
) -> ReasonedReply
    ensures decided { IsDecidedByStep judged.judgement timing judged.group judged.tally instance.old result.reply instance.new }
    ensures reason { GivesReason result.why result.reply }
{
    let Ok(event) = judged.group.event(alloc, &judged.tally) else {
        return ReasonedReply::short();
    };
    match instance.step(event, timing.now) {
        Ok(outcome) => told_by(alloc, judged, timing, outcome.reply),
        Err(error) => ReasonedReply::refusal(alloc, &table::refused(error)),
    }
}

/// Settles the decision on a group whose alerts have been counted, and returns the reply.
pub fn settle(
    alloc: Global,
    instance: &mut Instance,
    judged: JudgedGroup,
    timing: Timing,
) -> ReasonedReply
    ensures settled { IsSettled judged.judgement timing judged.group judged.tally instance.old result.reply instance.new }
    ensures reason { GivesReason result.why result.reply }
{
    if judged.tally.has_none() {
        let JudgedGroup {
            group,
            tally,
            judgement: _,
        } = judged;
        return told_of(alloc, timing, group, tally, Why::Muted);
    }
    decide_by_step(alloc, instance, judged, timing)
}
