//! Clusters after each line of a schedule, and schedules that are played.

use crate::members::{name_at, print_held};
use am_cluster::{Cluster, ClusterError, SettleError};
use am_part_cases::common::{Brittle, Case, CaseFault, Cut, Pieces, TriedCall, cut};
use am_part_cases::parts::print_frame;
use am_part_cases::{given, put, say};
use am_replay::{ReplayError, run};
use am_schedule::{FaultKind, Line, parse};

/// Answers `steps LINE; ..` with the states of the members of a schedule's cluster after each of its lines, and the frames that
/// the line sent.
pub fn steps(case: &Case, rest: &str) {
    given!(lines = case.made(rest.replace(case.alloc, "; ", "\n")));
    let schedule = parse(case.alloc, lines.as_bytes()).map_err(|error| error.kind);
    given!(schedule = case.sound(schedule, FaultKind::Memory));
    let mut names = Vec::new(case.alloc);
    for name in schedule.names.as_slice() {
        case.push(&mut names, case.text(name.as_str()));
    }
    let cluster = Cluster::new(case.alloc, names, schedule.retention, schedule.peer_timeout);
    given!(mut cluster = case.made(cluster));
    for (line, number) in schedule.lines.as_slice() {
        play_line(case, &mut cluster, line, *number);
    }
}

/// Makes a line, and prints the states of the members after it; if memory runs out, prints them and tries once more.
fn play_line(case: &Case, cluster: &mut Cluster, line: &Line, number: u64) {
    let last = cluster.in_flight().last().map_or(0, |flight| flight.number);
    if finds_no_memory(cluster, line, number) {
        case.put("no memory at ");
        say_members(case, cluster, number);
        if finds_no_memory(cluster, line, number) {
            case.fail(CaseFault::Memory);
        }
    }
    say_members(case, cluster, number);
    say_flights(case, cluster, last);
}

fn finds_no_memory(cluster: &mut Cluster, line: &Line, number: u64) -> bool {
    match line {
        Line::Step(step) => matches!(cluster.step(step, number), Err(ClusterError::Memory)),
        Line::Settle(now) => cluster.settle(*now, number) == Err(SettleError::Memory),
        _ => false,
    }
}

fn say_members(case: &Case, cluster: &Cluster, number: u64) {
    put!(case; "line ", number, ":");
    for place in 0..u64::MAX {
        let Some(instance) = cluster.instance(place) else {
            break;
        };
        put!(case; " ", name_at(instance.config(), place));
        print_held(case, " ", instance);
        put!(case; if cluster.calm(place).calm { "" } else { " uncalm" });
        put!(case; if cluster.durable(place) { "," } else { " lossy," });
    }
    say!(case; " ", cluster.in_flight().len(), " frames");
}

/// Prints the frames in flight after one with a number, each with its addressee.
fn say_flights(case: &Case, cluster: &Cluster, last: u64) {
    for flight in cluster.in_flight() {
        if flight.number > last
            && let Some(instance) = cluster.instance(flight.addressee)
        {
            put!(case; "to ", name_at(instance.config(), flight.addressee), " ");
            print_frame(case, &flight.frame, "", " none");
            case.put("\n");
        }
    }
}

#[derive(Clone, Copy)]
struct Playing;

impl TriedCall for Playing {
    fn make(&self, case: &Case, reader: &mut Pieces<'_>, writer: &mut Brittle) -> Option<Cut> {
        match run(case.alloc, reader, writer) {
            Ok(()) => case.put("played"),
            Err(ReplayError::Read { at }) => return Some(("Read", at as u64)),
            Err(ReplayError::Write { written }) => return Some(("Write", written)),
            Err(ReplayError::Memory { .. }) => case.fail(CaseFault::Memory),
            Err(error) => case.debug(error),
        }
        None
    }
}

/// Answers `replay PHRASES: TEXT`.
pub fn replay(case: &Case, rest: &str) {
    let (phrases, text) = cut(rest, ": ");
    let text = case.unescaped(text);
    let writer = case.make(&Playing, &case.how(phrases, text.as_slice()));
    case.say_text(writer.taken.as_slice());
}
