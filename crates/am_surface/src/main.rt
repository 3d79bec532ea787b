//! Calls each public function of the crates once, with the types of its arguments and its result written out: if a name is
//! removed or a type changes, this no longer compiles. Says for each crate whether its calls answered as they should, and then
//! whether each thing holds that only several crates together show: of maps, runs, members, limits.
#![tactic(auto)]

mod answers;
mod api_silences;
mod blocks;
mod collect;
mod connection;
mod dedup;
mod gossip;
mod instance;
mod journal;
mod laws;
mod limits;
mod lists;
mod maps;
mod matcher;
mod members;
mod merge;
mod nflog;
mod notes;
mod replay;
mod runs;
mod samples;
mod schedule;
mod silence;
mod sizes;
mod snapshot;
mod turns;
mod version_order;
mod wire;

use std::io;
use std::process::ExitCode;

fn main(rt: HostRuntime) -> ExitCode {
    match say_all(&rt) {
        Ok(()) => ExitCode::SUCCESS,
        Err(_) => ExitCode::FAILURE,
    }
}

fn say_all(rt: &HostRuntime) -> io::Result<()> {
    laws::calls();
    say_versions(rt)?;
    say_rules(rt)?;
    say_members(rt)?;
    tell_lists(rt)?;
    tell_runs(rt)?;
    tell_logs(rt)?;
    tell_sizes(rt)?;
    tell_connections(rt)
}

fn say_versions(rt: &HostRuntime) -> io::Result<()> {
    let alloc = rt.alloc();
    say(rt, "am_version_order", version_order::calls(alloc))?;
    say(rt, "am_wire", wire::calls(alloc))?;
    say(rt, "am_silence", silence::calls(alloc))?;
    say(rt, "am_nflog", nflog::calls(alloc))?;
    say(rt, "am_merge", merge::calls(alloc))
}

fn say_rules(rt: &HostRuntime) -> io::Result<()> {
    let alloc = rt.alloc();
    say(rt, "am_collect", collect::calls(alloc))?;
    say(rt, "am_snapshot", snapshot::calls(alloc))?;
    say(rt, "am_dedup", dedup::calls(alloc))?;
    say(rt, "am_matcher", matcher::calls(alloc))?;
    say(rt, "am_gossip", gossip::calls(alloc))
}

fn say_members(rt: &HostRuntime) -> io::Result<()> {
    let alloc = rt.alloc();
    say(rt, "am_instance", instance::calls(alloc))?;
    say(rt, "am_api_silences", api_silences::calls(alloc))?;
    say(rt, "am_api_silences, with a step", answers::calls(alloc))?;
    say(rt, "am_connection", connection::calls(alloc))?;
    say(rt, "am_schedule", schedule::calls(alloc))?;
    say(rt, "am_replay", replay::calls(alloc))
}

fn tell_lists(rt: &HostRuntime) -> io::Result<()> {
    let alloc = rt.alloc();
    let kept = lists::are_given_back(alloc);
    tell(rt, "lists: they are given back", kept)?;
    let alike = blocks::agree_with_plain_lists(alloc);
    tell(rt, "blocks: they agree with plain lists", alike)?;
    let merged = maps::all_merge_as_lists(alloc);
    tell(rt, "maps: large ones merge as lists do", merged)?;
    let agreed = maps::agree_with_a_plain_list(alloc);
    tell(rt, "maps: they agree with a plain list", agreed)
}

fn tell_runs(rt: &HostRuntime) -> io::Result<()> {
    let alloc = rt.alloc();
    let alike = runs::are_told_as_by_loops(alloc);
    tell(rt, "runs: they are told of as by plain loops", alike)?;
    let missed = runs::miss_what_was_lost(alloc);
    tell(
        rt,
        "runs: what was lost far away is missed until it comes again",
        missed,
    )
}

fn tell_logs(rt: &HostRuntime) -> io::Result<()> {
    let alloc = rt.alloc();
    let dropped = journal::drops_a_torn_block(alloc);
    tell(rt, "journal: a torn block is dropped", dropped)?;
    let written = journal::writes_batches(alloc);
    tell(rt, "journal: batches are written", written)?;
    let opened = journal::opens_a_file_again(rt);
    tell(rt, "journal: a file is opened again", opened)
}

fn tell_sizes(rt: &HostRuntime) -> io::Result<()> {
    let alloc = rt.alloc();
    let rows = Some(sizes::bound_versions_and_rows(alloc));
    tell(rt, "sizes: versions and rows have no byte more", rows)?;
    let posts = Some(sizes::bound_posts_and_ends(alloc));
    tell(
        rt,
        "sizes: versions of posts and ends have no byte more",
        posts,
    )?;
    let members = sizes::bound_members(alloc);
    tell(
        rt,
        "sizes: a member makes no version of a byte more",
        members,
    )?;
    let inputs = Some(sizes::bound_inputs(alloc));
    tell(rt, "sizes: an input has no byte more", inputs)
}

fn tell_connections(rt: &HostRuntime) -> io::Result<()> {
    let timed = Some(members::follow_clocks());
    tell(
        rt,
        "members: the next moment is the clock's if it can be read",
        timed,
    )?;
    let ended = limits::end_connections(rt.alloc());
    tell(rt, "limits: a byte more ends a connection", ended)?;
    let listed = turns::list_a_silence(rt);
    tell(
        rt,
        "turns: a peer's silence is listed over a socket",
        listed,
    )
}

/// Prints whether the calls of a crate answered as they should.
fn say(rt: &HostRuntime, name: &str, answer: Option<()>) -> io::Result<()> {
    match answer {
        Some(()) => println!(rt; "{name} answers"),
        None => println!(rt; "{name} answers otherwise"),
    }
}

/// Prints what holds, or else that it doesn't, or that memory or a device failed before that was known.
fn tell(rt: &HostRuntime, what: &str, holds: Option<bool>) -> io::Result<()> {
    match holds {
        Some(true) => println!(rt; "{what}"),
        Some(false) => println!(rt; "not so: {what}"),
        None => println!(rt; "not known: {what}"),
    }
}
