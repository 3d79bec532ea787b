//! Cases of instances, their requests and connections, of clusters, and of the command line.

use crate::calls::call;
use crate::clusters::{replay, steps};
use crate::connections::{connect, say_sent};
use crate::members::{begin, hold, say_state};
use am_diagnostics::{TickVerdict, judge_tick};
use am_instance::Instance;
use am_part_cases::common::{Case, Printed, cut};
use am_part_cases::{parts, say, say_some};
use am_peers::{AddressWord, address_of, later_moment, number_within, peer_of, port_of};
use std::time::Duration;

/// Answers a case about the current member, if there is one, or about none.
pub fn answer(case: &Case, member: &mut Option<Instance>, is_whole: bool, verb: &str, rest: &str) {
    if verb == "new" {
        return begin(case, member, rest);
    }
    let Some(instance) = member else {
        return alone(case, verb, rest);
    };
    match verb {
        "hold" => hold(case, instance, rest),
        "state" => say_state(case, instance),
        "ask" | "connect" | "hear" => connect(case, instance, is_whole, verb, rest),
        "call" => call(case, instance, rest),
        _ => alone(case, verb, rest),
    }
}

fn alone(case: &Case, verb: &str, rest: &str) {
    match verb {
        "whole" => {}
        "send" if !rest.starts_with("in pieces of ") => say_sent(case, rest),
        "replay" => replay(case, rest),
        "steps" => steps(case, rest),
        "port" => say!(case; ?port_of(rest)),
        "peer" => say_some!(case; peer = peer_of(rest); ?peer.name, " at ", peer.address),
        "address" =>
            say_some!(case; address = address_of(rest); address, ", as ", AddressWord(address)),
        "number" => say_number(case, rest),
        "clock" => say_clock(case, rest),
        "tick" => say_tick(case, rest),
        _ => parts::answer(case, verb, rest),
    }
}

/// Answers `number LEAST to MOST: WORD`.
fn say_number(case: &Case, rest: &str) {
    let (bounds, word) = cut(rest, ":");
    let (least, most) = cut(bounds, " to ");
    let word = word.strip_prefix(' ').unwrap_or(word);
    say!(case; ?number_within(case.number(least), case.number(most), word));
}

/// Reads a time in seconds, or in seconds `and` nanoseconds.
fn time_of(case: &Case, text: &str) -> Duration {
    let (seconds, nanos) = text.split_once(" and ").unwrap_or((text, "0"));
    let time = Duration::from_secs(case.number(seconds));
    time.saturating_add(Duration::from_nanos(case.number(nanos)))
}

/// Answers `clock TIME, last MOMENT`, where a time since 1970 is seconds, or seconds `and` nanoseconds.
fn say_clock(case: &Case, rest: &str) {
    let (clock, last) = cut(rest, ", last ");
    say!(case; @later_moment(time_of(case, clock), case.moment(last)));
}

/// Answers `tick ahead TIME, retention TIME` with the outcome of a Tick whose moment is this far ahead of the time that has
/// passed.
fn say_tick(case: &Case, rest: &str) {
    let (_, times) = cut(rest, "ahead ");
    let (ahead, retention) = cut(times, ", retention ");
    match judge_tick(time_of(case, ahead), time_of(case, retention)) {
        TickVerdict::Made => say!(case; "made"),
        TickVerdict::HeldBack => say!(case; "held back"),
    }
}
