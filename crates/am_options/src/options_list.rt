//! The options of a member as text: as they stand on its command line, one per line.

use crate::options::Options;
use am_matcher::Dialect;
use am_peers::{AddressWord, Peer};
use am_version_order::{Interval, Moment};
use am_wire::Unknown;
use std::alloc::{AllocError, Global};
use std::fmt;
use std::net::SocketAddr;
use std::time::Duration;

/// The options that a member was started with.
#[derive(Drop)]
struct Words<'a, 'b>(&'b Options<'a>);

/// The value of an option.
#[derive(Clone, Copy)]
enum OptionValue<'a, 'b> {
    /// None: the option is given or not.
    Flag(bool),
    /// A text, if the option is given.
    Text(Option<&'a str>),
    /// A number, if the option is given.
    Number(Option<u64>),
    /// An address, if the option is given.
    Address(Option<SocketAddr>),
    /// A text for each time that the option is given.
    Texts(&'b [&'a str]),
    /// A peer for each time that the option is given.
    Peers(&'b [Peer<'a>]),
}

/// Returns the number of whole seconds in an interval.
pub fn seconds_in(interval: Interval) -> u64 {
    let Some(epoch) = Moment::from_parts(0, 0) else {
        return 0;
    };
    let (seconds, _) = epoch.capped_add(interval).parts();
    seconds.unsigned_abs()
}

/// Returns a time as a value in seconds.
fn seconds<'a, 'b>(time: Option<Duration>) -> OptionValue<'a, 'b> {
    OptionValue::Number(time.map(|time| time.as_secs()))
}

/// Returns the options in the order of the help, with their values.
fn table<'a, 'b>(options: &'b Options<'a>) -> [(&'static str, OptionValue<'a, 'b>); 32] {
    let dialect = match options.dialect {
        Dialect::Regex => "regex",
        Dialect::Re2 => "re2",
    };
    let connections = options.connections;
    let ends = connections < u64::MAX;
    [
        ("name", OptionValue::Text(Some(options.name))),
        ("listen", OptionValue::Address(Some(options.address))),
        ("peer", OptionValue::Peers(&options.peers)),
        ("peers-listen", OptionValue::Address(options.peers_address)),
        ("secret", OptionValue::Text(options.secret)),
        ("open-peers", OptionValue::Flag(options.opens_peers)),
        ("gossip", OptionValue::Peers(&options.replicas)),
        ("patterns", OptionValue::Text(Some(dialect))),
        (
            "keep-unknown",
            OptionValue::Flag(options.unknown == Unknown::Keep),
        ),
        ("host", OptionValue::Texts(&options.hosts)),
        ("sil", OptionValue::Text(Some(options.silences))),
        ("nfl", OptionValue::Text(Some(options.log))),
        (
            "retention",
            OptionValue::Number(Some(options.retention_seconds)),
        ),
        (
            "peer-timeout",
            OptionValue::Number(Some(seconds_in(options.peer_timeout))),
        ),
        (
            "connections",
            OptionValue::Number(ends.then_some(connections)),
        ),
        ("time-limit", seconds(Some(options.time_limit))),
        ("decide-limit", seconds(Some(options.decide_limit))),
        (
            "at-once",
            OptionValue::Number(Some(u64::from(options.at_once))),
        ),
        (
            "waiting",
            OptionValue::Number(Some(u64::from(options.waiting))),
        ),
        (
            "most-unfinished",
            OptionValue::Number(Some(options.most_unfinished as u64)),
        ),
        (
            "most-bytes",
            OptionValue::Number(Some(u64::from(options.most_bytes))),
        ),
        (
            "lines-a-second",
            OptionValue::Number(Some(u64::from(options.lines))),
        ),
        ("tick-every", seconds(options.tick_every)),
        ("trust-clock", OptionValue::Flag(options.trusts_clock)),
        ("pull-every", seconds(options.pull_every)),
        ("save-every", seconds(options.save_every)),
        ("gossip-every", seconds(Some(options.gossip_every))),
        ("log", OptionValue::Flag(options.keeps_log)),
        ("pull-first", OptionValue::Flag(options.pull_first)),
        ("pull-first-limit", seconds(Some(options.pull_first_limit))),
        (
            "stop-at-input-end",
            OptionValue::Flag(options.stop_at_input_end),
        ),
        ("least-repeat", OptionValue::Number(options.least_repeat)),
    ]
}

/// Writes an option as often as it is given.
fn write_option<W: fmt::Write>(
    f: &mut fmt::Formatter<W>,
    name: &str,
    value: OptionValue<'_, '_>,
) -> fmt::Result {
    match value {
        OptionValue::Flag(true) => write!(f, "--{name}\n"),
        OptionValue::Text(Some(text)) => write!(f, "--{name} {text}\n"),
        OptionValue::Number(Some(number)) => write!(f, "--{name} {number}\n"),
        OptionValue::Address(Some(address)) => {
            let word = AddressWord(address);
            write!(f, "--{name} {word}\n")
        }
        OptionValue::Texts(texts) => {
            for text in texts {
                write!(f, "--{name} {text}\n")?;
            }
            Ok(())
        }
        OptionValue::Peers(peers) => write_peers(f, name, peers),
        _ => Ok(()),
    }
}

/// Writes an option that names peers, with their addresses.
fn write_peers<W: fmt::Write>(
    f: &mut fmt::Formatter<W>,
    option: &str,
    peers: &[Peer<'_>],
) -> fmt::Result {
    for peer in peers {
        let name = peer.name;
        let address = AddressWord(peer.address);
        write!(f, "--{option} {name}={address}\n")?;
    }
    Ok(())
}

impl fmt::Display for Words<'_, '_> {
    fn fmt<W: fmt::Write>(&self, f: &mut fmt::Formatter<W>) -> fmt::Result {
        for (name, value) in &table(self.0) {
            write_option(f, name, *value)?;
        }
        Ok(())
    }
}

/// Returns the options as text.
pub fn options_text(alloc: Global, options: &Options<'_>) -> Result<String, AllocError> {
    let words = Words(options);
    format!(in alloc; "{words}")
}
