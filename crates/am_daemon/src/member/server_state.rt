//! The part of a member that answers those who connect to it.

ghost use Rattle.std.specs.Prelude.{◌≡◌};
ghost use Rattle.am_daemon.specs.Offers.{OnlyCounts, for_peers, nothing_put_by, with_put_by};
ghost use Rattle.am_daemon.specs.Sending.{outlets};

use super::links::{address_of, hand_nothing, plan_exchanges};
use super::pending_frames::PendingFrames;
use am_api_decisions::RecentAlerts;
use am_backend::{Backend, DISK, sooner};
use am_diagnostics::Fault;
use am_instance::{Config, Instance, Place};
use am_member::PatternsAhead;
use am_peer_auth::CHALLENGE;
use am_reactor::LinkFault;
use am_server::{StateTransfer, Timers, Turns};
use rand::rngs::StdRng;
use rand_core::Rng;
use std::alloc::Global;
use std::net::SocketAddr;
use std::time::{Duration, Instant};

/// The part of a member that answers those who connect to it, with what it remembers for that.
#[derive(Drop)]
pub struct ServerState<'a, U> {
    pub alloc: Global,
    /// The files of the member's state, its printed lines, and its figures.
    pub backend: U,
    /// The names by which the member is asked, beside `127.0.0.1` and `localhost`.
    pub hosts: Vec<&'a str>,
    /// The addresses at which peers listen, by the places of members.
    pub addresses: Vec<Option<SocketAddr>>,
    /// The addresses at which the Alertmanagers beside the member are asked, by place.
    pub asked: Vec<Option<SocketAddr>>,
    pub random: StdRng,
    pub duties: Timers,
    /// The part of the member's state that is still to be handed to each peer, by place.
    pub transfers: Vec<StateTransfer>,
    /// The frames that go to each peer over its link if they are sealed, by place.
    pub pending_frames: Vec<PendingFrames>,
    /// The peers that haven't pushed all they have since the start.
    pub awaited: Vec<Place>,
    /// The number of requests for decisions that wait.
    pub turns: Turns,
    /// The patterns of silences that are still to be compiled before alerts are held against these.
    pub ahead: PatternsAhead,
    /// The alerts of the most recent messages that the member was asked about.
    pub recent: RecentAlerts,
    /// The number of times that a request has begun to wait for the Alertmanagers beside the member, which is the round in
    /// which they are asked from now on.
    pub round: u64,
    /// True if the member is to stop.
    pub stops: bool,
    /// True if the member's stop has ended the first pull, so that what waits for it is turned away.
    pub turns_away: bool,
}

/// Returns 128 random bits.
pub fn random_bits(random: &mut StdRng) -> u128 {
    let high = random.next_u64();
    let low = random.next_u64();
    u128::from(high) << 64 | u128::from(low)
}

/// Returns 32 random bytes, which the frames of one connection answer.
pub fn random_challenge(random: &mut StdRng) -> [u8; CHALLENGE] {
    let mut challenge = [0u8; CHALLENGE];
    random.fill_bytes(&mut challenge);
    challenge
}

impl<U: Backend> ServerState<'_, U> {
    /// Returns whether nobody may greet by a name, because it is that of the disk or of a replica.
    pub(super) fn is_inner(&self, config: &Config, name: &str) -> bool {
        if self.backend.commit_state().is_on() && name == DISK {
            return true;
        }
        match config.place_named(name) {
            Some(place) => address_of(&self.asked, place as usize).is_some(),
            None => false,
        }
    }

    /// Asks each peer for all that it has, and hands it all that is held here.
    pub(super) fn pull_from_peers(&mut self)
        ensures stays { outlets U.store_of U.outbound self.new ≡ outlets U.store_of U.outbound self.old }
        ensures peers { for_peers U.outbound U.sealed_by self.new ≡ for_peers U.outbound U.sealed_by self.old }
    {
        plan_exchanges(&mut self.transfers, &self.addresses);
    }

    /// Checks whether the first pull is over, whether the clock is behind, which lines are due, and whether the member is to
    /// stop.
    pub(super) fn look_around(&mut self, instance: &Instance, now: Instant)
        ensures stays { outlets U.store_of U.outbound self.new ≡ outlets U.store_of U.outbound self.old }
        ensures peers { for_peers U.outbound U.sealed_by self.new ≡ for_peers U.outbound U.sealed_by self.old }
    {
        if self.duties.is_first_pull_over(now) {
            self.backend.tell_of(instance.config(), None, Fault::NoPull);
            self.duties.end_first_pull(now);
        }
        if self.duties.is_clock_due(now) {
            self.backend.look_at_clock(instance, now);
        }
        self.backend.settle_due_lines(instance.config(), now);
        if self.duties.is_signal_due(now) && self.backend.is_told_to_end() {
            self.stops = true;
        }
    }

    /// Ends the first pull because the member stops. What waits for it is turned away.
    pub(super) fn give_up_first_pull(&mut self, now: Instant)
        ensures { for_peers U.outbound U.sealed_by self.new ≡ for_peers U.outbound U.sealed_by self.old }
    {
        if self.duties.waits_for_pull() {
            self.turns_away = true;
            self.duties.end_first_pull(now);
        }
    }

    /// Ends the first pull, since all that the peers have is here.
    pub(super) fn end_first_pull(&mut self)
        ensures stays { outlets U.store_of U.outbound self.new ≡ outlets U.store_of U.outbound self.old }
        ensures peers { for_peers U.outbound U.sealed_by self.new ≡ for_peers U.outbound U.sealed_by self.old }
    {
        if let Some(now) = self.backend.now() {
            self.duties.end_first_pull(now);
        }
    }

    /// Gives up the link to a peer, and returns the address at which the peer listens.
    pub(super) fn lose_link(&mut self, peer: usize, fault: LinkFault) -> Option<SocketAddr>
        ensures { for_peers U.outbound U.sealed_by self.new ≡ with_put_by peer nothing_put_by (for_peers U.outbound U.sealed_by self.old) }
    {
        hand_nothing(&mut self.transfers, peer);
        let dropped = self.close_link(peer);
        self.backend.drop_frames(peer, dropped, fault);
        address_of(&self.addresses, peer)
    }

    /// Rewrites files, and returns the time until there is more to be done.
    pub(super) fn left(&mut self, instance: &Instance, now: Instant) -> Option<Duration>
        ensures { OnlyCounts (for_peers U.outbound U.sealed_by self.old) (for_peers U.outbound U.sealed_by self.new) }
    {
        let work = self.backend.compact(instance, now);
        let lines = sooner(self.duties.left(now), self.backend.lines_left(now));
        sooner(work, lines)
    }
}
