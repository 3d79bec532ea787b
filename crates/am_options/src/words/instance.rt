//! The words of `instance`.

use super::arguments::{Argument, FROM_ONE, HOUR, Rule, TEXT, Takes, U16, U32, with_arguments};
use super::{Mistake, ensure, seconds_of, time_of, unknown_of};
use crate::job::Job;
use crate::options::Options;
use am_matcher::Dialect;
use am_peers::{Peer, address_of, is_loopback, peer_of};
use am_store::are_one_file;
use am_version_order::Interval;
use am_wire::Unknown;
use clap::builder::ValueParser;
use clap::{ArgMatches, Command};
use std::alloc::{AllocError, Global};
use std::net::SocketAddr;
use std::rt::Files;

/// Returns the command.
pub fn command<'a>(alloc: Global) -> Result<Command<'a>, AllocError> {
    let command = Command::new(alloc, "instance")
        .about(
            "Runs one member: serves the silences of API v2 to people and tools, and frames to its peers",
        )
        .after_help(AFTER);
    with_arguments(alloc, command, ARGUMENTS)
}

/// The options, in the order of the help.
const ARGUMENTS: &[Argument] = &[
    // the member, and the others that it knows
    Argument {
        name: "name",
        takes: Takes::Value("NAME", TEXT),
        rule: Rule::Required,
        help: "Its name among the members, 1 to 255 bytes",
    },
    Argument {
        name: "listen",
        takes: Takes::Value("ADDRESS:PORT", TEXT),
        rule: Rule::Required,
        help: "The address at which it listens, for HTTP and for the frames of peers alike, as 10.0.0.1:9093 or [::1]:9093; a port alone is one of 127.0.0.1",
    },
    Argument {
        name: "peer",
        takes: Takes::Values("NAME=ADDRESS:PORT"),
        rule: Rule::Optional,
        help: "Another member and the address at which it listens, or its port alone on 127.0.0.1, cut at the last '='; any number of times",
    },
    Argument {
        name: "peers-listen",
        takes: Takes::Value("ADDRESS:PORT", TEXT),
        rule: Rule::Optional,
        help: "The address at which it listens for the frames of peers, and for nothing else; --listen then hears no frames",
    },
    Argument {
        name: "secret",
        takes: Takes::Value("FILE", TEXT),
        rule: Rule::Optional,
        help: "The file of a secret that all members have, 16 to 4096 bytes: frames go out sealed by it, and others are refused",
    },
    Argument {
        name: "open-peers",
        takes: Takes::Nothing,
        rule: Rule::Without("secret"),
        help: "Hears frames without --secret also at an address that other machines reach: whoever reaches it can change silences",
    },
    // what it takes from others, and its files
    Argument {
        name: "gossip",
        takes: Takes::Values("NAME=ADDRESS:PORT"),
        rule: Rule::Optional,
        help: "An Alertmanager beside which it runs, and the address of its gossip (--cluster.listen-address), or its port alone on 127.0.0.1: each holds what the other does; any number of times, each by a name of its own",
    },
    Argument {
        name: "patterns",
        takes: Takes::Named("DIALECT", ValueParser::Names(&["regex", "re2"])),
        rule: Rule::Optional,
        help: "Which regular expressions patterns are: regex, or re2, as an Alertmanager means them, which refuses more posts; without it re2 with --gossip, and else regex",
    },
    Argument {
        name: "keep-unknown",
        takes: Takes::Nothing,
        rule: Rule::Optional,
        help: "Keeps the fields of versions that aren't known here, as those of a later Alertmanager, and sends them on; with --gossip it always does, and without either they are dropped",
    },
    Argument {
        name: "host",
        takes: Takes::Values("NAME"),
        rule: Rule::Optional,
        help: "A name by which it is asked beside 127.0.0.1, localhost and the address of --listen, as that of a proxy; any number of times. Under any other it answers 403, and so it does the page of another site",
    },
    Argument {
        name: "sil",
        takes: Takes::Value("FILE", TEXT),
        rule: Rule::Required,
        help: "The file of the silences; where there is none, it holds none",
    },
    Argument {
        name: "nfl",
        takes: Takes::Value("FILE", TEXT),
        rule: Rule::Required,
        help: "The file of the notification log; where there is none, it is empty",
    },
    // how long it keeps things and others may take, and how much it takes at once
    Argument {
        name: "retention",
        takes: Takes::Value("S", SECONDS),
        rule: Rule::Default("432000"),
        help: "For how many seconds a silence is kept after its end, 1 to 999999999",
    },
    Argument {
        name: "peer-timeout",
        takes: Takes::Value("S", SECONDS),
        rule: Rule::Default("15"),
        help: "For how many seconds members wait for one another before they notify, 1 to 999999999",
    },
    Argument {
        name: "connections",
        takes: Takes::Value("N", FROM_ONE),
        rule: Rule::Optional,
        help: "After how many connections it saves both files and ends, 1 to 18446744073709551615; without it, it goes on",
    },
    Argument {
        name: "time-limit",
        takes: Takes::Value("S", HOUR),
        rule: Rule::Default("5"),
        help: "For how many seconds a connection may last, of a client or to a peer, 1 to 3600",
    },
    Argument {
        name: "decide-limit",
        takes: Takes::Value("S", HOUR),
        rule: Rule::Default("10"),
        help: "How many seconds a decision may take once its turn has come, 1 to 3600; then alerts that aren't held against all silences count as not muted",
    },
    Argument {
        name: "at-once",
        takes: Takes::Value("N", U16),
        rule: Rule::Default("256"),
        help: "How many connections it serves at once, 1 to 65535; one that comes beyond gets the place of the one on which nothing has moved for longest",
    },
    Argument {
        name: "waiting",
        takes: Takes::Value("N", U16),
        rule: Rule::Default("128"),
        help: "How many requests for a decision wait for its turn, 1 to 65535, and no more than half of --at-once; one that comes beyond is answered 503",
    },
    Argument {
        name: "most-unfinished",
        takes: Takes::Value("BYTES", FROM_ONE),
        rule: Rule::Default("134217728"),
        help: "How many bytes of unfinished requests and frames it keeps in all, 1 to 18446744073709551615; beyond, the connection that has most of them is closed",
    },
    Argument {
        name: "most-bytes",
        takes: Takes::Value("BYTES", U32),
        rule: Rule::Default("1073741824"),
        help: "How many bytes a file may have, of the silences or of the log, 1 to 4294967295; a post for which there is no room is answered 500",
    },
    Argument {
        name: "lines-a-second",
        takes: Takes::Value("N", U16),
        rule: Rule::Default("10"),
        help: "How many lines of one kind of fault it prints in a second, 1 to 65535; further ones are counted in a line",
    },
    // what it does by itself, and when it ends
    Argument {
        name: "tick-every",
        takes: Takes::Value("S", SECONDS),
        rule: Rule::Optional,
        help: "Ticks by itself every so many seconds, 1 to 999999999: drops what has expired, and saves both files",
    },
    Argument {
        name: "trust-clock",
        takes: Takes::Nothing,
        rule: Rule::Optional,
        help: "Ticks even where the clock went ahead by more than --retention in a moment; without it, it then drops nothing, and says so each minute",
    },
    Argument {
        name: "pull-every",
        takes: Takes::Value("S", SECONDS),
        rule: Rule::Optional,
        help: "Asks each peer for all it has every so many seconds, 1 to 999999999, and says at the start which spread and flight time that keeps",
    },
    Argument {
        name: "save-every",
        takes: Takes::Value("S", SECONDS),
        rule: Rule::Optional,
        help: "Saves both files every so many seconds, 1 to 999999999, where something may have changed",
    },
    Argument {
        name: "gossip-every",
        takes: Takes::Value("S", SECONDS),
        rule: Rule::Default("60"),
        help: "Asks each --gossip for all it has every so many seconds, 1 to 999999999, and gives back what it lacks; new versions go to it at once",
    },
    Argument {
        name: "log",
        takes: Takes::Nothing,
        rule: Rule::Optional,
        help: "Keeps a log beside each file, and has all it takes there, on the disk, before it is answered or sent on",
    },
    Argument {
        name: "pull-first",
        takes: Takes::Nothing,
        rule: Rule::Optional,
        help: "Answers no request, and no peer that asks for all, before a peer or a --gossip has sent all it has",
    },
    Argument {
        name: "pull-first-limit",
        takes: Takes::Value("S", SECONDS),
        rule: Rule::Default("30"),
        help: "For how many seconds --pull-first waits at the most, 1 to 999999999",
    },
    Argument {
        name: "stop-at-input-end",
        takes: Takes::Nothing,
        rule: Rule::Optional,
        help: "Saves both files and ends where standard input ends",
    },
    Argument {
        name: "least-repeat",
        takes: Takes::Value("S", SECONDS),
        rule: Rule::Optional,
        help: "The smallest repeat interval in seconds, 1 to 999999999: warns where --pull-every asks for more",
    },
];

/// The parser of a number of seconds, of up to 31 years.
const SECONDS: ValueParser<'static> = ValueParser::Unsigned(1, 999_999_999);

/// The values of options that are judged beyond what `clap` does.
#[derive(Clone, Copy)]
struct CheckedOptions {
    address: SocketAddr,
    peers_address: Option<SocketAddr>,
    retention: Interval,
    peer_timeout: Interval,
}

/// The values of options that may be given any number of times.
#[derive(Drop)]
struct Lists<'a> {
    peers: Vec<Peer<'a>>,
    replicas: Vec<Peer<'a>>,
    hosts: Vec<&'a str>,
}

/// Reads the member that the words name. The peers are judged last.
pub fn read_job<'a, R: Files + AllocGlobal>(
    rt: &R,
    args: &ArgMatches<'a>,
) -> Result<Job<'a>, Mistake<'a>> {
    let judged = judge(rt, args)?;
    let lists = read_lists(rt.alloc(), args)?;
    Ok(Job::Instance(options(args, judged, lists)))
}

/// Judges the words, all but the peers.
fn judge<'a, R: Files + AllocGlobal>(
    rt: &R,
    args: &ArgMatches<'a>,
) -> Result<CheckedOptions, Mistake<'a>> {
    let address = address_of(text(args, "listen")).ok_or(Mistake::Value(BAD_LISTEN))?;
    let peers_address = peers_address(args)?;
    judge_words(rt, args, peers_address)?;
    Ok(CheckedOptions {
        address,
        peers_address,
        retention: interval(args, "retention")?,
        peer_timeout: interval(args, "peer-timeout")?,
    })
}

/// Reads the options that may be given any number of times.
fn read_lists<'a>(alloc: Global, args: &ArgMatches<'a>) -> Result<Lists<'a>, Mistake<'a>> {
    let peers = read_peers(alloc, args, "peer")?;
    let replicas = read_peers(alloc, args, "gossip")?;
    let hosts = Vec::from_slice(alloc, args.get_strs("host").unwrap_or(&[]))?;
    Ok(Lists {
        peers,
        replicas,
        hosts,
    })
}

/// Returns the options by which the member is run.
fn options<'a>(args: &ArgMatches<'a>, judged: CheckedOptions, lists: Lists<'a>) -> Options<'a> {
    Options {
        name: text(args, "name"),
        address: judged.address,
        own_host: own_host(text(args, "listen")),
        peers_address: judged.peers_address,
        peers: lists.peers,
        replicas: lists.replicas,
        gossip_every: time_of(args, "gossip-every"),
        dialect: dialect(args),
        unknown: unknown(args),
        secret: args.get_str("secret"),
        opens_peers: args.get_flag("open-peers"),
        hosts: lists.hosts,
        silences: text(args, "sil"),
        log: text(args, "nfl"),
        retention: judged.retention,
        retention_seconds: args.get_one("retention").unwrap_or_default(),
        peer_timeout: judged.peer_timeout,
        connections: args.get_one("connections").unwrap_or(u64::MAX),
        time_limit: time_of(args, "time-limit"),
        decide_limit: time_of(args, "decide-limit"),
        at_once: args.get_one("at-once").unwrap_or_default(),
        waiting: args.get_one("waiting").unwrap_or_default(),
        most_unfinished: args.get_one("most-unfinished").unwrap_or_default(),
        most_bytes: args.get_one("most-bytes").unwrap_or_default(),
        lines: args.get_one("lines-a-second").unwrap_or_default(),
        tick_every: seconds_of(args, "tick-every"),
        trusts_clock: args.get_flag("trust-clock"),
        pull_every: seconds_of(args, "pull-every"),
        save_every: seconds_of(args, "save-every"),
        keeps_log: args.get_flag("log"),
        pull_first: args.get_flag("pull-first"),
        pull_first_limit: time_of(args, "pull-first-limit"),
        stop_at_input_end: args.get_flag("stop-at-input-end"),
        least_repeat: args.get_one("least-repeat"),
    }
}

/// Checks that a listener for peers hears somebody, and checks the hosts, and then the files.
fn judge_words<'a, R: Files + AllocGlobal>(
    rt: &R,
    args: &ArgMatches<'a>,
    peers_address: Option<SocketAddr>,
) -> Result<(), Mistake<'a>> {
    let knows_frames = args.contains_id("secret") || args.get_flag("open-peers");
    ensure(
        knows_frames || peers_address.is_none_or(|address| is_loopback(address)),
        NOBODY_HEARD,
    )?;
    let hosts = args.get_strs("host").unwrap_or(&[]);
    ensure(hosts.iter().all(|host| is_host(host)), BAD_HOST)?;
    let is_one = are_one_file(rt, text(args, "sil"), text(args, "nfl"))?;
    ensure(!is_one, "'--sil <FILE>' and '--nfl <FILE>' name one file")
}

/// Returns the text of an option that `clap` has seen.
fn text<'a>(args: &ArgMatches<'a>, name: &str) -> &'a str {
    args.get_str(name).unwrap_or("")
}

/// Returns what stands before the port of an address.
fn own_host(word: &str) -> Option<&str> {
    let (host, _) = word.rsplit_once(':')?;
    Some(host)
}

/// Returns the address of the listener for peers, if the option is given.
fn peers_address<'a>(args: &ArgMatches<'a>) -> Result<Option<SocketAddr>, Mistake<'a>> {
    match args.get_str("peers-listen") {
        Some(word) => Ok(Some(address_of(word).ok_or(Mistake::Value(BAD_PEERS_LISTEN))?)),
        None => Ok(None),
    }
}

/// Returns the dialect of the patterns: the one that the option names, or else RE2 beside an Alertmanager and `regex`
/// otherwise.
fn dialect(args: &ArgMatches<'_>) -> Dialect {
    match args.get_str("patterns") {
        Some("re2") => Dialect::Re2,
        None if args.contains_id("gossip") => Dialect::Re2,
        _ => Dialect::Regex,
    }
}

/// Returns what to do with the unknown fields of versions: beside an Alertmanager they are always kept.
fn unknown(args: &ArgMatches<'_>) -> Unknown {
    if args.contains_id("gossip") {
        Unknown::Keep
    } else {
        unknown_of(args)
    }
}

/// Returns the interval of an option that is a number of seconds.
fn interval<'a>(args: &ArgMatches<'a>, name: &str) -> Result<Interval, Mistake<'a>> {
    let seconds = args.get_one::<u64>(name).unwrap_or_default();
    Interval::from_seconds(seconds).ok_or(Mistake::Value("an interval is longer than any moment"))
}

/// Returns whether a word is the name of a host, without a port.
fn is_host(word: &str) -> bool {
    !word.is_empty()
        && word.bytes().all(|byte| byte.is_ascii_alphanumeric() || b"-._".contains(&byte))
}

/// Returns the peers that an option names.
fn read_peers<'a>(
    alloc: Global,
    args: &ArgMatches<'a>,
    name: &str,
) -> Result<Vec<Peer<'a>>, Mistake<'a>> {
    let words = args.get_strs(name).unwrap_or(&[]);
    let mut peers = Vec::with_capacity(alloc, words.len())?;
    for word in words {
        let Some(peer) = peer_of(word) else {
            return Err(Mistake::Peer);
        };
        if peers.push(peer).is_err() {
            return Err(Mistake::Memory);
        }
    }
    Ok(peers)
}

const AFTER: &str = "\
Without --tick-every, what has expired is dropped, and both files are saved, when a peer sends a Tick frame, and when the
member ends: after --connections, at --stop-at-input-end, or by SIGTERM or SIGINT where it was started with them blocked:
  env --block-signal=TERM --block-signal=INT am_tool instance --name a --listen 9101 --peer b=9102 \\
    --sil a.sil --nfl a.nfl --tick-every 60 --pull-every 60 --save-every 5 --pull-first
Three machines, a on 10.0.0.1, b on 10.0.0.2 and c on 10.0.0.3, each with the same file of a secret; this is a:
  head -c 32 /dev/urandom | base64 > members.secret && chmod 600 members.secret
  am_tool instance --name a --listen 127.0.0.1:9093 --peers-listen 10.0.0.1:9094 --secret members.secret \\
    --peer b=10.0.0.2:9094 --peer c=10.0.0.3:9094 --sil a.sil --nfl a.nfl --tick-every 60 --pull-every 60 --pull-first
Beside an Alertmanager that gossips on port 9094 of this machine:
  am_tool instance --name a --listen 9101 --gossip am=9094 --sil a.sil --nfl a.nfl --tick-every 60 --save-every 5
The same, with patterns that an Alertmanager may not read, which it is then not given:
  am_tool instance --name a --listen 9101 --gossip am=9094 --patterns regex --sil a.sil --nfl a.nfl --tick-every 60
A Tick is a greeting with a peer's name and the bytes 4 and 0, sent to the port; for a peer b:
  printf '\\0\\1b\\4\\0' >/dev/tcp/127.0.0.1/PORT";

const BAD_LISTEN: &str =
    "invalid value for '--listen <ADDRESS:PORT>': an address and a port are wanted, as 10.0.0.1:9093 or [::1]:9093, or a port \
    alone, from 1 to 65535";

const BAD_PEERS_LISTEN: &str =
    "invalid value for '--peers-listen <ADDRESS:PORT>': an address and a port are wanted, as 10.0.0.1:9094 or [::1]:9094, or a \
    port alone, from 1 to 65535";

const NOBODY_HEARD: &str =
    "'--peers-listen <ADDRESS:PORT>' at an address that other machines reach wants '--secret <FILE>', or '--open-peers'";

const BAD_HOST: &str =
    "invalid value for '--host <NAME>': letters, digits, '-', '.' and '_' are wanted, and no port";
