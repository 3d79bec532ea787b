//! The member that other modules use, and the moment of its next event.

use am_instance::{Config, Instance};
use am_merge::Held;
use am_peers::next_moment;
use am_version_order::{Interval, Moment};
use am_wire::Text;
use std::alloc::Global;
use std::io;
use std::rt::Clock;
use std::time::Duration;

/// The bytes that the peer `b` writes: its greeting, and a Delta of the silence `a`, which matches job `x` from 10 s to 100 s,
/// was updated at 10 s and expires at 200 s.
pub const PEER: &[u8] = &[
    0x00, 0x01, 0x62, 0x01, 0x28, 0x0A, 0x03, 0x73, 0x69, 0x6C, 0x12, 0x21, 0x20, 0x0A, 0x19, 0x0A,
    0x01, 0x61, 0x12, 0x08, 0x12, 0x03, 0x6A, 0x6F, 0x62, 0x1A, 0x01, 0x78, 0x1A, 0x02, 0x08, 0x0A,
    0x22, 0x02, 0x08, 0x64, 0x2A, 0x02, 0x08, 0x0A, 0x12, 0x03, 0x08, 0xC8, 0x01,
];

/// Returns the moment that is `seconds` seconds after 1970.
pub fn at(seconds: i64) -> Moment {
    Moment::from_parts(seconds, 0).unwrap_or(Moment::LEAST)
}

/// Returns the configuration of the member `a` of `a`, `b` and `c`, or `None` if memory runs out.
pub fn config(alloc: Global) -> Option<Config> {
    let mut peers = Vec::new(alloc);
    peers.push(Text::copied(alloc, "c").ok()?).ok()?;
    peers.push(Text::copied(alloc, "b").ok()?).ok()?;
    let name = Text::copied(alloc, "a").ok()?;
    let retention = Interval::from_nanos(100_000_000_000).unwrap();
    let peer_timeout = Interval::from_nanos(15_000_000_000).unwrap();
    Config::new(alloc, name, peers, retention, peer_timeout).ok()
}

/// Returns that member, which holds nothing, at 10 s, or `None` if memory runs out.
pub fn instance(alloc: Global) -> Option<Instance> {
    let config = config(alloc)?;
    Some(Instance::start(config, Held::new(alloc), Held::new(alloc), at(10)))
}

/// A clock that always says the same, or can't be read.
#[derive(Clone, Copy)]
struct FixedClock(Option<Duration>);

impl Clock for FixedClock {
    fn monotonic(&self) -> io::Result<Duration> {
        self.since_1970()
    }

    fn since_1970(&self) -> io::Result<Duration> {
        self.0.ok_or(io::Error::from(io::ErrorKind::Unsupported))
    }
}

/// Returns whether the next moment is the clock's if that can be read, and else the last one.
pub fn follow_clocks() -> bool {
    next_moment(&FixedClock(Some(Duration::from_secs(20))), at(10)) == at(20)
        && next_moment(&FixedClock(None), at(10)) == at(10)
}
