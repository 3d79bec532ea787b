//! The start of a member.

use super::guarding::{hosts_of, opening};
use super::pending_frames::PendingFrames;
use super::server::Server;
use super::server_state::ServerState;
use crate::live::live;
use crate::running::Member;
use am_alertmanager::Replicas;
use am_api_decisions::RecentAlerts;
use am_backend::{Backend, MemberRuntime, SystemBackend, config_of, lock_of, secret_of};
use am_diagnostics::{Fault, HasAudience, report, signals, status};
use am_instance::{Config, ConfigError, Instance, Place};
use am_member::PatternsAhead;
use am_options::{Options, Started};
use am_peer_auth::{CHALLENGE, Lock};
use am_peers::{Peer, shown_name};
use am_reactor::{Entrances, Limits, Peers, listen};
use am_server::{Intervals, StateTransfer, Timers, Turns};
use rand::make_rng;
use rand::rngs::StdRng;
use std::alloc::{AllocError, Global};
use std::io::{ErrorKind, Input};
use std::net::{Net, SocketAddr};
use std::random::RandomSource;
use std::rt::{Clock, Files};
use std::time::Instant;

/// The maximum number of bytes that wait for a peer while a connection to it is open.
const MOST_WAITING: usize = 134_217_728;

/// The maximum number of bytes that an Alertmanager beside the member answers.
const MOST_ANSWER: usize = 67_125_248;

/// Runs a member, prints why it ends early, and returns the exit status of the program.
pub fn run<'a, R: MemberRuntime + HasAudience>(rt: &'a R, options: &'a Options<'a>) -> u8 {
    match run_on(rt, options) {
        Ok(None) => status::DONE,
        // (a state that is too large to be saved is no refused input)
        Ok(Some(fault)) => fault.status().max(status::OUTSIDE),
        Err(fault) => report(rt, fault),
    }
}

/// Runs a member until it is told to end or has taken its connections, and then saves both states. Returns the fault that it
/// ended with, which is reported: that of the listener, or else the one of the last save.
///
/// # Errors
///
/// The first [`Fault`] of the start, in the order of names, secret, silences, log, listeners.
fn run_on<'a, R: MemberRuntime>(
    rt: &'a R,
    options: &'a Options<'a>,
) -> Result<Option<Fault>, Fault> {
    let config = config_of(rt.alloc(), options)?;
    let secret = secret_of(rt, options)?;
    let lock = lock_of(options, &secret);
    let (instance, backend) = SystemBackend::load(rt, options, config, lock)?;
    run_kept(rt, options, lock, instance, backend)
}

/// Runs the member that has this instance and this backend.
fn run_kept<R: MemberRuntime, U: Backend + Drop>(
    rt: &R,
    options: &Options<'_>,
    lock: Option<Lock<'_>>,
    instance: Instance,
    backend: U,
) -> Result<Option<Fault>, Fault> {
    let server = server_with(rt, options, instance.config(), backend)?;
    let entrances = entrances(rt, options)?;
    let mut member = Member {
        instance,
        lock,
        server,
    };
    Ok(run_member(rt, options, &mut member, entrances))
}

/// Returns the listeners.
fn entrances<R: Net>(rt: &R, options: &Options<'_>) -> Result<Entrances, Fault> {
    let main = match listen(rt, options.address) {
        Ok(listener) => listener,
        Err(error) => return Err(Fault::Listen(error.kind(), options.address)),
    };
    let Some(address) = options.peers_address else {
        return Ok(Entrances { main, peers: None });
    };
    match listen(rt, address) {
        Ok(listener) => Ok(Entrances {
            main,
            peers: Some(listener),
        }),
        Err(error) => Err(Fault::Listen(error.kind(), address)),
    }
}

/// Runs a member that listens. Returns the fault that it ended with, which is reported.
fn run_member<R: Clock + Eprint + Input + Net, U: Backend>(
    rt: &R,
    options: &Options<'_>,
    member: &mut Member<'_, U>,
    entrances: Entrances,
) -> Option<Fault> {
    begin(rt, member);
    let failed = serve(rt, options, member, entrances);
    member.server.state.backend.end(&member.instance, failed)
}

/// Reports the start of a member, and does what that leaves to be done.
fn begin<R: Eprint, U: Backend>(rt: &R, member: &mut Member<'_, U>) {
    let instance = &member.instance;
    let backend = &mut member.server.state.backend;
    if backend.has_room_for_line() {
        tell_start(rt, instance, backend.options());
    }
    backend.tell_torn(instance.config());
    backend.save_owed(instance);
}

/// Prints that a member listens, and the times that it keeps.
fn tell_start<R: Eprint>(rt: &R, instance: &Instance, options: &Options<'_>) {
    let started = Started {
        options,
        silences: instance.silences().len(),
        entries: instance.log().len(),
    };
    let _ = eprintln!(rt; "am_tool: {started}");
    am_options::report(rt, options);
}

/// The reason that nobody is served, or no longer.
#[derive(Clone, Copy)]
enum Unserved {
    Memory,
    Listener(ErrorKind),
}

/// Returns that reason as a fault.
fn fault_of(why: Unserved) -> Fault {
    match why {
        Unserved::Memory => Fault::Config(ConfigError::Memory),
        Unserved::Listener(kind) => Fault::Accept(kind),
    }
}

/// Serves whoever connects, until the member is told to end or has taken its connections. Returns the fault for which it
/// doesn't, or no longer, which is reported.
fn serve<R: Clock + Input + Net, U: Backend>(
    rt: &R,
    options: &Options<'_>,
    member: &mut Member<'_, U>,
    entrances: Entrances,
) -> Option<Fault> {
    match serve_peers(rt, options, member, entrances) {
        Ok(()) => None,
        Err(why) => {
            let config = member.instance.config();
            let backend = &mut member.server.state.backend;
            backend.tell_of(config, None, fault_of(why));
            Some(fault_of(why))
        }
    }
}

/// Serves whoever connects, and the peers.
fn serve_peers<R: Clock + Input + Net, U: Backend>(
    rt: &R,
    options: &Options<'_>,
    member: &mut Member<'_, U>,
    entrances: Entrances,
) -> Result<(), Unserved> {
    let alloc = member.server.state.alloc;
    let Ok(greeting) = opening(alloc, options.name, member.lock.is_some()) else {
        return Err(Unserved::Memory);
    };
    let Ok(links) = member.server.state.addresses.clone() else {
        return Err(Unserved::Memory);
    };
    let Ok(asked) = member.server.state.asked.clone() else {
        return Err(Unserved::Memory);
    };
    let peers = Peers {
        links: &links,
        greeting: &greeting,
        awaited: awaited(member.lock.is_some()),
        asked: &asked,
    };
    match live(alloc, rt, entrances, peers, member, limits(options)) {
        Ok(()) => Ok(()),
        Err(error) => Err(Unserved::Listener(error.kind())),
    }
}

/// Returns the number of bytes that a peer answers with before frames go out: those of a challenge if frames are sealed.
fn awaited(is_sealed: bool) -> usize {
    if is_sealed { CHALLENGE } else { 0 }
}

/// Returns the limits of connections.
fn limits(options: &Options<'_>) -> Limits {
    Limits {
        at_once: options.at_once,
        connections: options.connections,
        time: options.time_limit,
        link_bytes: MOST_WAITING,
        answer_bytes: MOST_ANSWER,
        held_bytes: options.most_unfinished,
        unread_bytes: options.most_unfinished / 2,
        watch_input: options.stop_at_input_end,
    }
}

/// The state that is kept of each peer, by place.
#[derive(Drop)]
struct PeerLinks {
    addresses: Vec<Option<SocketAddr>>,
    awaited: Vec<Place>,
    transfers: Vec<StateTransfer>,
    pending_frames: Vec<PendingFrames>,
}

/// The state that is kept of each Alertmanager beside the member, by place.
#[derive(Drop)]
struct AlertmanagersBeside {
    asked: Vec<Option<SocketAddr>>,
    replicas: Replicas,
}

/// The state that is kept of all members.
#[derive(Drop)]
struct MemberPlaces<'a> {
    hosts: Vec<&'a str>,
    links: PeerLinks,
    beside: AlertmanagersBeside,
}

/// Returns the server of a member that has this backend.
fn server_with<'a, R: AllocGlobal + Clock + Files + RandomSource, U: Backend + Drop>(
    rt: &R,
    options: &Options<'a>,
    config: &Config,
    backend: U,
) -> Result<Server<'a, U>, Fault> {
    let random = random(rt)?;
    let duties = duties(rt, options)?;
    match places_of(rt.alloc(), config, options) {
        Ok(places) => Ok(server_of(rt.alloc(), options, backend, places, random, duties)),
        Err(_) => Err(Fault::Config(ConfigError::Memory)),
    }
}

/// Returns the server with all these parts.
fn server_of<'a, U>(
    alloc: Global,
    options: &Options<'a>,
    backend: U,
    places: MemberPlaces<'a>,
    random: StdRng,
    duties: Timers,
) -> Server<'a, U> {
    let MemberPlaces {
        hosts,
        links,
        beside,
    } = places;
    let PeerLinks {
        addresses,
        awaited,
        transfers,
        pending_frames,
    } = links;
    let AlertmanagersBeside { asked, replicas } = beside;
    let waiting = options.waiting.min(options.at_once / 2);
    let state = ServerState {
        alloc,
        backend,
        hosts,
        addresses,
        asked,
        random,
        duties,
        transfers,
        pending_frames,
        awaited,
        turns: Turns::new(waiting),
        ahead: PatternsAhead::new(),
        recent: RecentAlerts::new(alloc),
        round: 0,
        stops: false,
        turns_away: false,
    };
    Server { state, replicas }
}

/// Returns the state of all members before any is heard.
fn places_of<'a>(
    alloc: Global,
    config: &Config,
    options: &Options<'a>,
) -> Result<MemberPlaces<'a>, AllocError> {
    let links = links_of(alloc, config, options)?;
    let beside = beside_of(alloc, config, options)?;
    let hosts = hosts_of(alloc, options)?;
    Ok(MemberPlaces {
        hosts,
        links,
        beside,
    })
}

/// Returns the state of each peer before any is heard.
fn links_of(
    alloc: Global,
    config: &Config,
    options: &Options<'_>,
) -> Result<PeerLinks, AllocError> {
    let addresses = addresses(alloc, config, &options.peers)?;
    let awaited = peer_places(alloc, &addresses)?;
    let transfers = transfers(alloc, addresses.len())?;
    let pending_frames = pending_frames(alloc, addresses.len())?;
    Ok(PeerLinks {
        addresses,
        awaited,
        transfers,
        pending_frames,
    })
}

/// Returns the state of each Alertmanager beside the member before any is asked.
fn beside_of(
    alloc: Global,
    config: &Config,
    options: &Options<'_>,
) -> Result<AlertmanagersBeside, AllocError> {
    let asked = asked(alloc, config, &options.replicas)?;
    let replicas = Replicas::new(alloc, &asked, options.gossip_every, config.unknown())?;
    Ok(AlertmanagersBeside { asked, replicas })
}

/// Returns the timers of what the member does by itself from now on.
fn duties<R: Clock + Files>(rt: &R, options: &Options<'_>) -> Result<Timers, Fault> {
    match Instant::now(rt) {
        Ok(now) => Ok(Timers::new(&intervals(options), signals::are_blocked(rt), now)),
        Err(error) => Err(Fault::Clock(error.kind())),
    }
}

/// Returns the intervals of what the member does by itself.
fn intervals(options: &Options<'_>) -> Intervals {
    let is_alone = options.peers.is_empty() && options.replicas.is_empty();
    let waits = options.pull_first && !is_alone;
    Intervals {
        tick: options.tick_every,
        pull: options.pull_every,
        save: options.save_every,
        first_pull: if waits {
            Some(options.pull_first_limit)
        } else {
            None
        },
    }
}

/// Returns the generator that random bits are drawn from.
fn random<R: RandomSource>(rt: &R) -> Result<StdRng, Fault> {
    match make_rng(rt) {
        Ok(random) => Ok(random),
        Err(error) => Err(Fault::Random(error.kind())),
    }
}

/// Returns the addresses at which peers listen, by the places of members.
fn addresses(
    alloc: Global,
    config: &Config,
    peers: &[Peer<'_>],
) -> Result<Vec<Option<SocketAddr>>, AllocError> {
    let mut addresses = Vec::with_capacity(alloc, config.members().len())?;
    for name in config.members() {
        let peer = peers.iter().find(|peer| peer.name == name.as_str());
        addresses.push(peer.map(|peer| peer.address))?;
    }
    Ok(addresses)
}

/// Returns the addresses at which the Alertmanagers beside the member are asked, by the places of members.
fn asked(
    alloc: Global,
    config: &Config,
    replicas: &[Peer<'_>],
) -> Result<Vec<Option<SocketAddr>>, AllocError> {
    let mut asked = Vec::with_capacity(alloc, config.members().len())?;
    for name in config.members() {
        asked.push(address_beside(replicas, name.as_str()))?;
    }
    Ok(asked)
}

/// Returns the address of the Alertmanager that has a name among the members.
fn address_beside(replicas: &[Peer<'_>], name: &str) -> Option<SocketAddr> {
    let shown = shown_name(name);
    if shown.len() == name.len() {
        return None;
    }
    let replica = replicas.iter().find(|replica| replica.name == shown)?;
    Some(replica.address)
}

/// Returns what each of `count` members is handed, which is nothing yet.
fn transfers(alloc: Global, count: usize) -> Result<Vec<StateTransfer>, AllocError> {
    let mut transfers = Vec::with_capacity(alloc, count)?;
    for _ in 0..count {
        transfers.push(StateTransfer::none())?;
    }
    Ok(transfers)
}

/// Returns what goes to each of `count` members, which is nothing yet.
fn pending_frames(alloc: Global, count: usize) -> Result<Vec<PendingFrames>, AllocError> {
    let mut pending_frames = Vec::with_capacity(alloc, count)?;
    for _ in 0..count {
        pending_frames.push(PendingFrames::new(alloc))?;
    }
    Ok(pending_frames)
}

/// Returns the places of the peers, which are those with a known address.
fn peer_places(alloc: Global, addresses: &[Option<SocketAddr>]) -> Result<Vec<Place>, AllocError> {
    let mut places = Vec::with_capacity(alloc, addresses.len())?;
    for (place, address) in addresses.iter().enumerate() {
        if address.is_some() {
            places.push(place as Place)?;
        }
    }
    Ok(places)
}
