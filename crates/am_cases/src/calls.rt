//! Requests for decisions that come to a member: what they ask, and how they are answered.

use crate::members::{posted, print_held};
use am_api_decisions::{
    Deciding, ParsedCall, Question, RecentAlerts, Timing, begin_log, is_for_decisions, log_notice,
    parse_call,
};
use am_api_silences::{PendingAnswer, ReplyBuilder, ResponseBytes, refuse};
use am_http::{Read, Refusal, Request, read_request};
use am_instance::{FrameSender, Instance};
use am_part_cases::common::{Case, CaseFault, cut, phrase};
use am_part_cases::{given, say};
use am_version_order::Moment;

/// The way that a request is answered.
#[derive(Clone, Copy)]
struct Calling {
    /// The moment of the first alerts' steps, or of the only one.
    now: Moment,
    /// The moment of the steps after those.
    then: Moment,
    /// The number of alerts or entries that come first.
    most: usize,
}

/// Returns an answer with which nothing is sent.
fn quiet(case: &Case, reply: ResponseBytes) -> PendingAnswer {
    PendingAnswer {
        making: ReplyBuilder::Whole(reply),
        outbox: FrameSender::new(case.alloc),
    }
}

/// Returns the decision: the first alerts are asked, and then the others, in a turn of 15 s.
fn decided(
    case: &Case,
    instance: &mut Instance,
    question: Question,
    calling: Calling,
) -> PendingAnswer {
    let deciding = Deciding::new(case.alloc, question);
    match deciding.resume(case.alloc, instance, calling.most, calling.now) {
        Ok(deciding) => {
            let timing = Timing {
                now: calling.then,
                turn_seconds: 15,
            };
            quiet(case, deciding.decide(case.alloc, instance, timing).reply)
        }
        Err(refusal) => refuse(case.alloc, &refusal),
    }
}

/// Returns the live entries of the log: the first ones, and then the others.
fn told(case: &Case, instance: &Instance, calling: Calling) -> Result<PendingAnswer, Refusal> {
    let writing = begin_log(case.alloc, instance, calling.now)?;
    let writing = writing.resume(case.alloc, calling.most)?;
    Ok(quiet(case, writing.finish(case.alloc)))
}

/// Returns the answer to a request.
fn answered(
    case: &Case,
    instance: &mut Instance,
    request: &Request,
    calling: Calling,
) -> PendingAnswer {
    match parse_call(case.alloc, request) {
        Err(refusal) => refuse(case.alloc, &refusal),
        Ok(ParsedCall::Decide(question)) => {
            case.put(if question.waits() { "" } else { "at once: " });
            decided(case, instance, question, calling)
        }
        Ok(ParsedCall::Notified(notice)) => log_notice(case.alloc, instance, notice, calling.now),
        Ok(ParsedCall::Log) => match told(case, instance, calling) {
            Ok(answer) => answer,
            Err(refusal) => refuse(case.alloc, &refusal),
        },
        // (a case has no messages but its own)
        Ok(ParsedCall::Alerts) => quiet(case, RecentAlerts::new(case.alloc).told(case.alloc)),
    }
}

/// Returns the request that a text spells. If it is posted to a target, the text is only its body.
fn request_in(case: &Case, phrases: &str, text: &str) -> Option<Request> {
    let bytes = match phrase(phrases, "post ") {
        "" => case.unescaped(text),
        target => posted(case, target, text),
    };
    match read_request(case.alloc, bytes.as_slice(), true) {
        Read::Whole(request) => return Some(request),
        Read::Refused(refusal) if refusal.status == 500 => case.fail(CaseFault::Memory),
        _ => case.fail(CaseFault::Words),
    }
    None
}

/// Answers `call at T, then T, first N, post TARGET: TEXT`.
pub fn call(case: &Case, instance: &mut Instance, rest: &str) {
    let (phrases, text) = cut(rest, ": ");
    given!(request = request_in(case, phrases, text));
    if !is_for_decisions(&request) {
        return case.put("for the silences\n");
    }
    let now = phrase(phrases, "at ");
    let calling = Calling {
        now: case.moment(now),
        then: case.moment(match phrase(phrases, "then ") {
            "" => now,
            then => then,
        }),
        most: phrase(phrases, "first ").parse::<usize>().unwrap_or(0),
    };
    let PendingAnswer { making, outbox } = answered(case, instance, &request, calling);
    let reply = making.finish(case.alloc);
    if reply.as_slice().ends_with(b"\"out of memory\"") {
        case.fail(CaseFault::Memory);
    }
    case.say_text(reply.as_slice());
    if !outbox.frames.is_empty() {
        print_held(case, "holds ", instance);
        say!(case; ", sends ", outbox.frames.len());
    }
}
