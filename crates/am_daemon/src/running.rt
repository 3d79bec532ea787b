//! A running member: its instance, and the server that acts on it.

ghost use Rattle.std.specs.Prelude.{◌≡◌, ⊤, slice_get};
ghost use Rattle.am_backend.specs.CommitStates.{disk_of, uncommitted as uncommitted_in};
ghost use Rattle.am_server.specs.Answered.{ByItself};
ghost use Rattle.am_server.specs.Talks.{pending_in, talk_of};
ghost use Rattle.am_http.specs.Sessions.{name_of, over as ended_under};
ghost use Rattle.am_server.specs.Talking.{Does, fresh_talk};
ghost use Rattle.am_daemon.specs.Members.{IsSameMember};
ghost use Rattle.am_daemon.specs.Offers.{GivesPart, IsGiven, IsLost, IsOffered, for_peers};
ghost use Rattle.am_daemon.specs.Sending.{ActsForPeers, PassesOn, outlets};

use crate::member::server::Server;
use am_backend::Backend;
use am_instance::Instance;
use am_peer_auth::Lock;
use am_reactor::{Broken, Entrance, LinkFault, PeerBytes, Service, Wake};
use am_server::{ConnectionState, MemberService};
use std::io::ErrorKind;
use std::time::Instant;

/// A running member. Its instance isn't part of its server, so that only a call that is handed the instance makes steps of it.
#[derive(Drop)]
pub struct Member<'a, U> {
    /// The instance that the member holds.
    pub instance: Instance,
    /// The lock by which the frames of its peers are opened, if they are sealed.
    pub lock: Option<Lock<'a>>,
    /// The server, which acts on the instance.
    pub server: Server<'a, U>,
}

impl<U: Backend> Service for Member<'_, U> {
    type Session = ConnectionState;

    ghost pending = { λ connection. pending_in (talk_of connection) };

    ghost over = { λ connection. connection.session ≡ ended_under (name_of connection.session) };

    ghost waits = { λ _ _. ⊤ };

    ghost is_held_back = { λ _ _. ⊤ };

    ghost due = { λ _ _. ⊤ };

    ghost uncommitted = { λ member. uncommitted_in (U.store_of member.server.state.backend).commit_state };

    ghost loses = { λ member peer _ member'. IsSameMember member member'
        × IsLost peer (for_peers U.outbound U.sealed_by member.server.state) (for_peers U.outbound U.sealed_by member'.server.state) };

    ghost gives = { λ member peer answer bytes member'. IsSameMember member member'
        × IsGiven member.instance.config peer answer bytes (for_peers U.outbound U.sealed_by member.server.state) (for_peers U.outbound U.sealed_by member'.server.state)
        × GivesPart member.instance peer answer bytes (for_peers U.outbound U.sealed_by member.server.state)
        (slice_get member.server.state.transfers.items peer) (slice_get member'.server.state.transfers.items peer) };

    ghost answers = { λ member _ _ member'. IsSameMember member member'
        × (for_peers U.outbound U.sealed_by member'.server.state ≡ for_peers U.outbound U.sealed_by member.server.state) };

    ghost asks = { λ member _ _ member'. IsSameMember member member'
        × (for_peers U.outbound U.sealed_by member'.server.state ≡ for_peers U.outbound U.sealed_by member.server.state) };

    ghost offers = { λ member peer bytes member'. IsSameMember member member'
        × IsOffered peer bytes (for_peers U.outbound U.sealed_by member.server.state) (for_peers U.outbound U.sealed_by member'.server.state) };

    ghost begins = { λ member connection member'. IsSameMember member member' × (talk_of connection ≡ fresh_talk)
        × (for_peers U.outbound U.sealed_by member'.server.state ≡ for_peers U.outbound U.sealed_by member.server.state) };

    ghost acts = { λ member member'. ((member'.lock ≡ member.lock) × ByItself member.instance member'.instance)
        × ActsForPeers (disk_of (U.store_of member.server.state.backend).commit_state) member.instance (for_peers U.outbound U.sealed_by member.server.state)
        member'.instance (for_peers U.outbound U.sealed_by member'.server.state) };

    ghost does = { λ member connection deed member' connection'. ((member'.lock ≡ member.lock)
        × PassesOn member.instance (outlets U.store_of U.outbound member.server.state) member'.instance (outlets U.store_of U.outbound member'.server.state))
        × Does member.lock deed member.instance (talk_of connection) member'.instance (talk_of connection') };

    fn begin(&mut self, entrance: Entrance) -> ConnectionState {
        self.server.begin(entrance)
    }

    fn feed(&mut self, session: &mut ConnectionState, piece: &[u8]) {
        self.server
            .feed(&mut self.instance, session, self.lock, piece);
    }

    fn end(&mut self, session: &mut ConnectionState) {
        self.server.end(&mut self.instance, session);
    }

    fn broken(&mut self, session: &mut ConnectionState, broken: Broken) {
        self.server.broken(self.instance.config(), session, broken);
    }

    fn waits(&self, session: &ConnectionState) -> bool {
        session.waits()
    }

    fn may_resume(&self) -> bool {
        self.server.may_resume()
    }

    fn resume(&mut self, session: &mut ConnectionState) {
        self.server.resume(&mut self.instance, session);
    }

    fn has_uncommitted(&self) -> bool {
        self.server.has_uncommitted()
    }

    fn commit(&mut self) {
        self.server.commit(&self.instance);
    }

    fn is_held_back(&self, session: &ConnectionState) -> bool {
        session.is_held_back()
    }

    fn release(&mut self, session: &mut ConnectionState) {
        self.server.release(session);
    }

    fn due(&self, session: &ConnectionState) -> Option<Instant> {
        self.server.due(session)
    }

    fn reach_deadline(&mut self, session: &mut ConnectionState) {
        self.server.reach_deadline(&mut self.instance, session);
    }

    fn abandon_wait(&mut self, session: &mut ConnectionState) {
        self.server.abandon_wait(session);
    }

    fn output<'a>(&self, session: &'a ConnectionState) -> &'a [u8] {
        session.output()
    }

    fn sent(&mut self, session: &mut ConnectionState, count: usize) {
        session.sent(count);
        self.server.count_done(session);
    }

    fn is_over(&self, session: &ConnectionState) -> bool {
        session.session.is_over()
    }

    fn held(&self, session: &ConnectionState) -> usize {
        session.held()
    }

    fn unread(&self, session: &ConnectionState) -> usize {
        session.unread()
    }

    fn outgoing(&mut self) -> Option<PeerBytes> {
        self.server.outgoing(self.instance.config())
    }

    fn question(&mut self) -> Option<PeerBytes> {
        self.server.next_question(&self.instance)
    }

    fn answered(&mut self, peer: usize, answer: Vec<u8>) {
        self.server.replicas.answered(peer, answer);
    }

    fn more(&mut self, peer: usize, answer: &[u8]) -> Option<Vec<u8>> {
        self.server.more(&self.instance, peer, answer)
    }

    fn lost(&mut self, peer: usize, fault: LinkFault) {
        self.server.lost(self.instance.config(), peer, fault);
    }

    fn wake(&mut self, now: Instant) -> Wake {
        self.server.wake(&mut self.instance, now)
    }

    fn input_ended(&mut self) {
        self.server.state.stops = true;
    }

    fn accept_failed(&mut self, kind: ErrorKind) {
        self.server.accept_failed(self.instance.config(), kind);
    }
}

impl<'a, U: Backend> MemberService for Member<'a, U> {
    ghost use Rattle.am_server.specs.Talks.{talk_of};
    ghost use Rattle.am_server.proofs.Talking.{acts_alone, call_alone, does_lives, fresh_in_accord, none_replied, replied_in_accord};
    ghost use Rattle.am_server.specs.Talking.{IsInAccord, IsReplied};

    ghost instance_of = { λ member. member.instance };

    ghost accords = { λ connection. IsInAccord (talk_of connection) };

    ghost is_so = { IsReplied };

    ghost so_of_none = { none_replied };

    ghost so_of_accord = { λ connection. replied_in_accord (talk_of connection) };

    ghost begins_fresh = { λ member connection member' begins. record { same = begins.0.1; accord = fresh_in_accord (talk_of connection) begins.1 } };

    ghost acts_alone = { λ member member' call.
        let alone = acts_alone member.instance member'.instance (call_alone (λ m. m.instance) ⟦<Member<'a, U> as Service>⟧ (λ _ _ acts. acts.0.1) (λ _ _ _ _ lost. lost.0.1)
        (λ _ _ _ _ answered. answered.0.1) (λ _ _ _ _ _ given. given.0.1) (λ _ _ _ _ offered. offered.0.1) (λ _ _ _ _ asked. asked.0.1) member member' call) in
        record { deeds = alone.0; own = alone.1; life = alone.2 } };

    ghost does_for_one = { λ member connection deed member' connection' does number session_phases passed turns accord.
        does_lives number session_phases member.instance member'.instance turns passed (talk_of connection) (talk_of connection') member.lock deed accord does.1 };
}
