//! The work that a member does for the loop that serves it.

ghost use Rattle.std.specs.Prelude.{◌≡◌, ◌⊎◌, false, true, IfNone, IfSome, slice_get};
ghost use Rattle.std.specs.Option.{option_map};
ghost use Rattle.am_http.specs.Sessions.{SaysEnd, Spoken, name_of, over as ended_under};
ghost use Rattle.am_server.specs.Answered.{ByItself, ForPages, IsAnswered};
ghost use Rattle.am_server.specs.Talking.{IsLetIn, IsScreened, IsTakenUp, fresh_talk};
ghost use Rattle.am_server.specs.Talks.{IsGivenOn, IsReleased, Lasts, talk_of};
ghost use Rattle.am_backend.specs.CommitStates.{disk_of, kept, uncommitted as uncommitted_in};
ghost use Rattle.am_backend.specs.Stores.{IsKept};
ghost use Rattle.am_daemon.specs.Offers.{GivesPart, IsAtRest, IsGiven, IsLost, IsOffered, OnlyCounts, for_peers};
ghost use Rattle.am_daemon.specs.Sending.{IsWoken, PassesOn, outlets};

use super::counting::{count_broken, count_where_done};
use super::guarding::accepted_at;
use super::links::address_of;
use super::server::Server;
use super::server_state::random_challenge;
use am_backend::{Backend, Counted, place_of, sooner};
use am_diagnostics::Fault;
use am_instance::{Config, Instance, Place};
use am_peer_auth::Lock;
use am_peers::ConnectionFault;
use am_reactor::{Broken, Entrance, Failure, LinkFault, PeerBytes, Wake};
use am_server::ConnectionState;
use std::io::ErrorKind;
use std::time::Instant;

/// Returns the fault of a connection that was closed before its end, or `None` if its client left before the reply.
fn fault_of(broken: Broken, is_over: bool) -> Option<Fault> {
    let write = ConnectionFault::Write {
        written: broken.written,
    };
    let read = ConnectionFault::Read { at: broken.read };
    Some(match broken.why {
        Failure::Write(_) | Failure::Unread => Fault::Connection(write),
        Failure::Time if is_over => Fault::Connection(write),
        Failure::Read(_) | Failure::Time => Fault::Connection(read),
        Failure::Crowded => Fault::Crowded(broken.read),
        Failure::Unfinished => Fault::Unfinished(broken.read),
        Failure::Left => return None,
    })
}

// (the calls of a `Service`; only one that is handed the instance to be changed makes steps of it)
impl<U: Backend> Server<'_, U> {
    /// Returns the state of a connection that came by an entrance.
    pub fn begin(&mut self, entrance: Entrance) -> ConnectionState
        ensures talk { talk_of result ≡ fresh_talk }
        ensures peers { for_peers U.outbound U.sealed_by self.new.state ≡ for_peers U.outbound U.sealed_by self.old.state }
    {
        self.state.backend.count(Counted::Begun);
        let accepts = accepted_at(self.state.backend.options(), entrance);
        ConnectionState::new(self.state.alloc, accepts)
    }

    /// Takes what came on a connection, and answers what was said by it. `lock` is the one by which frames are opened.
    pub fn feed(
        &mut self,
        instance: &mut Instance,
        connection: &mut ConnectionState,
        lock: Option<Lock<'_>>,
        piece: &[u8],
    )
        ensures heard { IsScreened instance.old (talk_of connection.old) instance.new (talk_of connection.new)
            ⊎ IsLetIn lock.entry piece.now instance.old (talk_of connection.old) instance.new (talk_of connection.new) }
        // PROMISE: What the steps of what comes over a connection send to peers waits behind what waited before, in order, or memory ran out, and just those frames are counted as not sent.
        ensures sent { PassesOn instance.old (outlets U.store_of U.outbound self.old.state) instance.new (outlets U.store_of U.outbound self.new.state) }
    {
        if let Some(refusal) = connection.screen(piece, self.state.hosts.as_slice()) {
            return self.state.refuse(connection, &refusal);
        }
        let challenge = random_challenge(&mut self.state.random);
        let heard = connection
            .authenticator
            .feed(&mut connection.session, lock, challenge, piece);
        self.state.hear_authenticated(instance, connection, heard);
    }

    /// Answers what was said by the end of a connection's input.
    pub fn end(&mut self, instance: &mut Instance, connection: &mut ConnectionState)
        ensures heard { (said : Spoken) × SaysEnd connection.old.session said × IsAnswered said instance.old
            (record (talk_of connection.old) { session = ended_under (name_of connection.old.session) }) instance.new (talk_of connection.new) }
        ensures sent { PassesOn instance.old (outlets U.store_of U.outbound self.old.state) instance.new (outlets U.store_of U.outbound self.new.state) }
    {
        let heard = connection.authenticator.end(&mut connection.session);
        self.state.hear_authenticated(instance, connection, heard);
    }

    /// Counts and reports a connection that was closed before its end.
    pub fn broken(&mut self, config: &Config, connection: &mut ConnectionState, broken: Broken)
        ensures talk { talk_of connection.new ≡ talk_of connection.old }
        ensures stays { outlets U.store_of U.outbound self.new.state ≡ outlets U.store_of U.outbound self.old.state }
        ensures peers { for_peers U.outbound U.sealed_by self.new.state ≡ for_peers U.outbound U.sealed_by self.old.state }
    {
        if connection.turn().is_some() {
            self.state.turns.end();
        }
        count_broken(&mut self.state.backend, &mut connection.account, broken.why);
        if let Some(fault) = fault_of(broken, connection.session.is_over()) {
            let peer = place_of(config, connection.session.name());
            self.state.backend.tell_of(config, peer, fault);
        }
    }

    /// Returns whether connections that wait may go on.
    pub fn may_resume(&self) -> bool {
        !self.state.duties.waits_for_pull()
    }

    /// Goes on with a connection that waits.
    pub fn resume(&mut self, instance: &mut Instance, connection: &mut ConnectionState)
        ensures taken_up { IsTakenUp (talk_of connection.old).waiting instance.old (talk_of connection.old) instance.new (talk_of connection.new) }
        ensures sent { PassesOn instance.old (outlets U.store_of U.outbound self.old.state) instance.new (outlets U.store_of U.outbound self.new.state) }
    {
        self.state.resume(instance, connection);
    }

    /// Returns whether something was done since the last commit that is to be committed.
    pub fn has_uncommitted(&self) -> bool
        ensures { result ≡ uncommitted_in (U.store_of self.now.state.backend).commit_state }
    {
        self.state.backend.commit_state().has_changes()
    }

    /// Commits what was done so far.
    pub fn commit(&mut self, instance: &Instance)
        ensures kept { IsKept instance.now (U.store_of self.old.state.backend) (U.store_of self.new.state.backend) }
        ensures committed { uncommitted_in (U.store_of self.new.state.backend).commit_state ≡ false }
        ensures peers { OnlyCounts (for_peers U.outbound U.sealed_by self.old.state) (for_peers U.outbound U.sealed_by self.new.state) }
    {
        self.state.backend.keep(instance);
    }

    /// Has the reply go out that waited for a commit.
    pub fn release(&mut self, connection: &mut ConnectionState)
        requires { uncommitted_in (U.store_of self.old.state.backend).commit_state ≡ false }
        ensures same { self.new ≡ self.old }
        ensures lasts { Lasts (talk_of connection.old) (talk_of connection.new) }
        // PROMISE: A reply that says that something changed goes out after a commit only if the commit has kept everything, and otherwise a line with status 500 does.
        ensures kept { IsReleased (kept (U.store_of self.old.state.backend).commit_state) connection.old.work (talk_of connection.new).saying }
        ensures committed { uncommitted_in (U.store_of self.new.state.backend).commit_state ≡ false }
    {
        let is_kept = self.state.backend.commit_state().is_kept();
        connection.release(self.state.alloc, is_kept);
    }

    /// Returns the moment for which the reply of a connection waits, if one does.
    pub fn due(&self, connection: &ConnectionState) -> Option<Instant> {
        match connection.turn() {
            Some(turn) => Some(turn.due(self.are_heard(turn))),
            None => connection.limit(),
        }
    }

    /// Goes on with a connection whose moment has come.
    pub fn reach_deadline(&mut self, instance: &mut Instance, connection: &mut ConnectionState)
        ensures steps { ForPages instance.old instance.new }
        ensures lasts { Lasts (talk_of connection.old) (talk_of connection.new) }
        ensures given { IsGivenOn instance.old (talk_of connection.old).saying instance.new (talk_of connection.new).saying }
        ensures sent { PassesOn instance.old (outlets U.store_of U.outbound self.old.state) instance.new (outlets U.store_of U.outbound self.new.state) }
    {
        self.tell_missed(instance.config(), connection);
        self.state.resume_in_turn(instance, connection);
    }

    /// Turns away a connection that waits, since the member stops.
    pub fn abandon_wait(&self, connection: &mut ConnectionState)
        ensures { Lasts (talk_of connection.old) (talk_of connection.new) }
    {
        let said = connection.take_waiting();
        connection.refuse_unready(self.state.alloc, said);
    }

    /// Counts what is done of a connection.
    pub fn count_done(&mut self, connection: &mut ConnectionState)
        ensures talk { talk_of connection.new ≡ talk_of connection.old }
        ensures stays { outlets U.store_of U.outbound self.new.state ≡ outlets U.store_of U.outbound self.old.state }
        ensures peers { for_peers U.outbound U.sealed_by self.new.state ≡ for_peers U.outbound U.sealed_by self.old.state }
    {
        count_where_done(&mut self.state.backend, connection);
    }

    /// Returns what is given for the next peer, if anything is.
    pub fn outgoing(&mut self, config: &Config) -> Option<PeerBytes>
        // PROMISE: What is given for a peer is the encoding of just the frames that wait for it, in order, each once; or, if frames are sealed, these are put by for it, behind those before, and a link is opened; or none waits, and a link is opened for what is held.
        ensures offered { IfSome result (λ it. IsOffered it.peer it.bytes.items (for_peers U.outbound U.sealed_by self.old.state) (for_peers U.outbound U.sealed_by self.new.state)) }
        // PROMISE: Nothing is given only if something is still to be committed, and then all that waits for peers waits on; or if no frame waits any more.
        ensures rested { IfNone result (((uncommitted_in (U.store_of self.old.state.backend).commit_state ≡ true) × (for_peers U.outbound U.sealed_by self.new.state ≡ for_peers U.outbound U.sealed_by self.old.state))
            ⊎ IsAtRest (for_peers U.outbound U.sealed_by self.old.state) (for_peers U.outbound U.sealed_by self.new.state)) }
        ensures committed { IfSome result (λ it. uncommitted_in (U.store_of self.old.state.backend).commit_state ≡ false) }
    {
        if self.state.backend.commit_state().has_changes() {
            return None;
        }
        match self.next_outgoing(config) {
            Some(outgoing) => Some(outgoing),
            None => self.state.open_link(),
        }
    }

    /// Returns what is given for a peer that has answered with these bytes, if anything is.
    pub fn more(&mut self, instance: &Instance, peer: usize, answer: &[u8]) -> Option<Vec<u8>>
        requires { uncommitted_in (U.store_of self.old.state.backend).commit_state ≡ false }
        // PROMISE: What a link is given once its peer has answered is the encoding of just the frames that were put by for that peer, in order, each once, or else of one part of all that is held, sealed, if it is, for their places in the connection; if there is no memory for it, these frames are counted as not sent.
        ensures given { IsGiven instance.now.config peer answer.now (option_map (λ bytes. bytes.items) result)
            (for_peers U.outbound U.sealed_by self.old.state) (for_peers U.outbound U.sealed_by self.new.state) }
        // PROMISE: If nothing is put by for a peer that has answered, its link is given the next part of all that is held, from where its transfer is, and the transfer goes on behind it.
        ensures part { GivesPart instance.now peer answer.now (option_map (λ bytes. bytes.items) result) (for_peers U.outbound U.sealed_by self.old.state)
            (slice_get self.old.state.transfers.items peer) (slice_get self.new.state.transfers.items peer) }
    {
        self.state.backend.count_all_out(peer);
        self.state.next_encoding(instance, peer, answer)
    }

    /// Reports a link to a peer, or an exchange with a replica, that is lost.
    pub fn lost(&mut self, config: &Config, peer: usize, fault: LinkFault)
        // PROMISE: When a link is lost, just the frames that were put by for its peer are dropped; all others wait on.
        ensures { IsLost peer (for_peers U.outbound U.sealed_by self.old.state) (for_peers U.outbound U.sealed_by self.new.state) }
    {
        let address = match address_of(&self.state.asked, peer) {
            Some(address) => {
                self.replicas.lost(peer);
                Some(address)
            }
            None => self.state.lose_link(peer, fault),
        };
        let fault = Fault::Lost(fault, address);
        self.state
            .backend
            .tell_of(config, Some(peer as Place), fault);
    }

    /// Does what is due, and returns the time until there is more to be done.
    pub fn wake(&mut self, instance: &mut Instance, now: Instant) -> Wake
        ensures steps { ByItself instance.old instance.new }
        // PROMISE: What waits for peers waits on when a member is woken, and behind it waits just what the step of an Alertmanager's frame sends, in order, or memory ran out for that.
        ensures sent { IsWoken (disk_of (U.store_of self.old.state.backend).commit_state) instance.old (for_peers U.outbound U.sealed_by self.old.state) instance.new (for_peers U.outbound U.sealed_by self.new.state) }
    {
        self.do_duties(instance, now);
        if self.state.stops {
            self.state.give_up_first_pull(now);
            return Wake::Stop;
        }
        let gossip = self.gossip(instance, now);
        Wake::GoOn(sooner(gossip, self.state.left(instance, now)))
    }

    /// Reports a connection that couldn't be accepted.
    pub fn accept_failed(&mut self, config: &Config, kind: ErrorKind)
        ensures peers { for_peers U.outbound U.sealed_by self.new.state ≡ for_peers U.outbound U.sealed_by self.old.state }
    {
        self.state.backend.count(Counted::NotAccepted);
        self.state
            .backend
            .tell_of(config, None, Fault::Accept(kind));
    }
}
