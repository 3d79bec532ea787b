//! The choice of whose frames are heard, by the entrance that a connection comes in at.

ghost use Rattle.am_http.specs.Sessions.{spoken};
ghost use Rattle.am_server.specs.Answered.{IsAnswered};
ghost use Rattle.am_server.specs.Talks.{talk_of};
ghost use Rattle.am_daemon.specs.Sending.{PassesOn, outlets};

use super::counting::count_where_done;
use super::server_state::ServerState;
use am_backend::{Backend, place_of};
use am_diagnostics::Fault;
use am_gossip::FrameError;
use am_instance::Instance;
use am_options::Options;
use am_peer_auth::{AcceptedProtocols, Heard, SEALED};
use am_peers::{greeting, is_loopback};
use am_reactor::Entrance;
use am_server::ConnectionState;
use std::alloc::{AllocError, Global};

/// Returns what is heard at an entrance: frames without a secret are heard only if nobody but this machine reaches the
/// entrance, or if that is wanted.
pub fn accepted_at(options: &Options<'_>, entrance: Entrance) -> AcceptedProtocols {
    match (options.peers_address, entrance) {
        (Some(_), Entrance::Main) => AcceptedProtocols::Requests,
        (_, Entrance::Peers) => AcceptedProtocols::Frames,
        (None, Entrance::Main) => {
            let is_guarded = options.secret.is_some() || is_loopback(options.address);
            if is_guarded || options.opens_peers {
                AcceptedProtocols::Both
            } else {
                AcceptedProtocols::Requests
            }
        }
    }
}

/// Returns the names by which a member is asked: those of its options, and its own address.
///
/// # Errors
///
/// [`AllocError`] if memory runs out.
pub fn hosts_of<'a>(alloc: Global, options: &Options<'a>) -> Result<Vec<&'a str>, AllocError> {
    let mut hosts = Vec::from_slice(alloc, options.hosts.as_slice())?;
    if let Some(host) = options.own_host {
        hosts.push(host)?;
    }
    Ok(hosts)
}

/// Returns the greeting that begins each connection to a peer. If frames are sealed, a byte that says so comes before it.
///
/// # Errors
///
/// [`FrameError`] if the name is invalid, or memory ran out.
pub fn opening(alloc: Global, name: &str, is_sealed: bool) -> Result<Vec<u8>, FrameError> {
    let greeting = greeting(alloc, name)?;
    if !is_sealed {
        return Ok(greeting);
    }
    let mut sealed = Vec::from_slice(alloc, &[SEALED])?;
    sealed.extend_from_slice(&greeting)?;
    Ok(sealed)
}

impl<U: Backend> ServerState<'_, U> {
    /// Answers what the authenticator of a connection found, reports why no more is heard, and counts the connection if it is
    /// done.
    pub(super) fn hear_authenticated(
        &mut self,
        instance: &mut Instance,
        connection: &mut ConnectionState,
        heard: Heard,
    )
        ensures answered { IsAnswered (spoken heard.said) instance.old (talk_of connection.old) instance.new (talk_of connection.new) }
        ensures sent { PassesOn instance.old (outlets U.store_of U.outbound self.old) instance.new (outlets U.store_of U.outbound self.new) }
    {
        let Heard { said, fault } = heard;
        self.hear(instance, connection, said);
        if let Some(fault) = fault {
            let config = instance.config();
            let peer = place_of(config, connection.session.name());
            self.backend.tell_of(config, peer, Fault::Gate(fault));
        }
        count_where_done(&mut self.backend, connection);
    }
}
