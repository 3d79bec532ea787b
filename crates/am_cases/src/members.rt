//! The member that the cases go through: its start, and what it holds.

use am_instance::{Config, ConfigError, Instance};
use am_merge::Held;
use am_part_cases::common::{Case, Printed, Spelled, cut, first};
use am_part_cases::{given, put, say, say_some};
use am_wire::Text;

/// Answers `new at MOMENT NAME PEER ..`: begins a member that holds nothing, keeps versions for 100 s after their end and waits
/// 15 s for each member before it. Prints its configuration, or why there is none.
pub fn begin(case: &Case, member: &mut Option<Instance>, text: &str) {
    let (now, names) = first(first(text).1);
    let (own, peers) = first(names);
    given!(retention = case.seconds("100"));
    given!(peer_timeout = case.seconds("15"));
    given!(name = Text::spelled(case, own));
    let (now, peers) = (case.moment(now), case.list(peers, " "));
    let config = Config::new(case.alloc, name, peers, retention, peer_timeout);
    given!(config = case.got(config, ConfigError::Memory));
    say_config(case, &config);
    let instance = Instance::start(config, Held::new(case.alloc), Held::new(case.alloc), now);
    if case.is_fine() {
        *member = Some(instance);
    }
}

/// Returns a copy of a member, which holds the same.
pub fn copied(case: &Case, instance: &Instance) -> Option<Instance> {
    let config = case.made(instance.config().try_clone())?;
    let silences = case.made(instance.silences().try_clone())?;
    let log = case.made(instance.log().try_clone())?;
    Some(Instance::start(config, silences, log, instance.last()))
}

/// Answers `hold at MOMENT SILENCES / ENTRIES`: begins the member anew, with these versions.
pub fn hold(case: &Case, instance: &mut Instance, text: &str) {
    let (now, versions) = first(first(text).1);
    let (silences, log) = cut(versions, " / ");
    given!(config = case.made(instance.config().try_clone()));
    let (silences, log) = (case.held(silences), case.held(log));
    let holding = Instance::start(config, silences, log, case.moment(now));
    if case.is_fine() {
        *instance = holding;
    }
}

/// Prints the place and the names of the members, how long versions are kept, and when a member is due that began to wait at 0
/// s.
pub fn say_config(case: &Case, config: &Config) {
    put!(case; "place ", config.place(), " of");
    for name in config.members() {
        put!(case; " ", name.as_str());
    }
    put!(case; ", keeps ", ?config.retention(), ", due ");
    say_some!(case; due = config.due_from(case.moment("0")); @due);
}

/// Returns the name of the member at a place.
pub fn name_at(config: &Config, place: u64) -> &str {
    match config.members().get(place as usize) {
        Some(name) => name.as_str(),
        None => "nobody",
    }
}

/// Prints everything that is held.
pub fn say_state(case: &Case, instance: &Instance) {
    for version in instance.silences().iter() {
        say!(case; @version);
    }
    for entry in instance.log().iter() {
        say!(case; @entry);
    }
    print_held(case, "holds ", instance);
    case.put("\n");
}

/// Prints a text, the numbers of silences and entries that are held, and the moment of the last event.
pub fn print_held(case: &Case, before: &str, instance: &Instance) {
    put!(case; before, instance.silences().len(), " ", instance.log().len());
    put!(case; " at ", @instance.last());
}

/// Returns a request that posts a text with escapes to a target.
pub fn posted(case: &Case, target: &str, text: &str) -> Vec<u8> {
    let body = case.unescaped(text);
    let (size, mut whole) = (body.len(), Vec::new(case.alloc));
    if let Some(head) = case.made(format!(in case.alloc;
        "POST {target} HTTP/1.1\r\ncontent-length: {size}\r\n\r\n"
    )) {
        case.append(&mut whole, head.as_bytes());
        case.append(&mut whole, body.as_slice());
    }
    whole
}
