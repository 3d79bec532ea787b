//! The options by which a member is run.

use am_matcher::Dialect;
use am_peers::Peer;
use am_version_order::Interval;
use am_wire::Unknown;
use std::net::SocketAddr;
use std::time::Duration;

/// The options by which a member is run.
#[derive(Drop)]
pub struct Options<'a> {
    /// The member's name among the members.
    pub name: &'a str,
    /// The address at which the member listens.
    pub address: SocketAddr,
    /// The host of that address, as it was written, unless a port alone was.
    pub own_host: Option<&'a str>,
    /// The address at which the member listens for the frames of peers, if they have one of their own.
    pub peers_address: Option<SocketAddr>,
    /// The other members.
    pub peers: Vec<Peer<'a>>,
    /// The Alertmanagers beside the member, by the addresses of their gossip.
    pub replicas: Vec<Peer<'a>>,
    /// The interval at which the member asks each of them for everything it has.
    pub gossip_every: Duration,
    /// The dialect of the regular expressions in patterns.
    pub dialect: Dialect,
    /// The treatment of the fields of versions that aren't known here.
    pub unknown: Unknown,
    /// The file of the members' secret, if they have one.
    pub secret: Option<&'a str>,
    /// True if frames are heard without a secret, wherever they come from.
    pub opens_peers: bool,
    /// The hosts by which the member is asked, besides `127.0.0.1`, `localhost` and its own address.
    pub hosts: Vec<&'a str>,
    /// The file of the silences.
    pub silences: &'a str,
    /// The file of the notification log.
    pub log: &'a str,
    /// The time for which a silence is kept after its end.
    pub retention: Interval,
    /// The retention in seconds.
    pub retention_seconds: u64,
    /// The time for which members wait for one another before they notify.
    pub peer_timeout: Interval,
    /// The number of connections after which the member ends.
    pub connections: u64,
    /// The most time that one connection may last.
    pub time_limit: Duration,
    /// The most time that a decision may take, from its turn on; after that it goes by what it has judged.
    pub decide_limit: Duration,
    /// The maximum number of connections that are served at once.
    pub at_once: u16,
    /// The maximum number of requests for a decision that wait for their turn.
    pub waiting: u16,
    /// The most bytes of unfinished requests, greetings and frames that the member keeps.
    pub most_unfinished: usize,
    /// The most bytes of the file of one state.
    pub most_bytes: u32,
    /// The most lines of faults of one kind in a second.
    pub lines: u32,
    /// The interval at which the member ticks by itself, if it does.
    pub tick_every: Option<Duration>,
    /// True if the member believes the clock however far it goes ahead.
    pub trusts_clock: bool,
    /// The interval at which the member asks each peer for everything it has, if it does by itself.
    pub pull_every: Option<Duration>,
    /// The interval at which the member saves if something may have changed, if it does by itself.
    pub save_every: Option<Duration>,
    /// True if what the member takes is in a log on the disk before it is answered.
    pub keeps_log: bool,
    /// True if the member answers nothing before a peer has answered its first pull, or is no longer waited for.
    pub pull_first: bool,
    /// The most time for which it waits for that answer.
    pub pull_first_limit: Duration,
    /// True if the member ends when standard input does.
    pub stop_at_input_end: bool,
    /// The smallest repeat interval, in seconds.
    pub least_repeat: Option<u64>,
}
