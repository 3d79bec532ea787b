//! A member that a loop serves.

ghost use Rattle.std.specs.Prelude.{[], ℕ, Option};
ghost use Rattle.am_server.specs.Talks.{talk_of};
ghost use Rattle.am_reactor.specs.History.{IsCall, Leads, Line, no_lines};
ghost use Rattle.am_reactor.specs.Peered.{LoopGoesFromNone};
ghost use Rattle.am_reactor.specs.Streams.{arrived_over, gone_over};
ghost use Rattle.am_server.specs.MemberService.{IsAlwaysLived};
ghost use Rattle.am_server.specs.Talking.{IsInAccord, IsReplied};

use crate::running::Member;
use am_backend::Backend;
use am_reactor::{Entrances, Limits, NotedStream, Peers, Service};
use am_server::ConnectionState;
use std::alloc::Global;
use std::io::{self, Input};
use std::net::Net;
use std::rt::Clock;

/// Has a member serve the connections of listeners, as [`am_server::run`] does.
///
/// # Errors
///
/// The same as those of [`am_server::run`].
pub fn live<'a, U: Backend, R: Net + Clock + Input>(
    alloc: Global,
    rt: &R,
    entrances: Entrances,
    peers: Peers<'_>,
    member: &mut Member<'a, U>,
    limits: Limits,
) -> io::Result<()>
    // PROMISE: At each moment, what the program's member holds comes of one life of its connections; and over the stream of each just one reply goes out, behind its challenge if frames are sealed: that of its own request's step; the decision, the outcome of a notice or the log's list that its own request asks for; the line of a refusal with a status from 400 on; or a page about the member or the recent alerts.
    ensures lived { (left : ℕ → Option (Line ConnectionState NotedStream))
        × (history : Leads ⟦<Member<'a, U> as Service>⟧ (IsCall ⟦<Member<'a, U> as Service>⟧) arrived_over gone_over member.old no_lines member.new left)
        × IsAlwaysLived ⟦<Member<'a, U> as Service>⟧ (IsCall ⟦<Member<'a, U> as Service>⟧) arrived_over gone_over
        (λ (m : Member U). m.instance) (λ (connection : ConnectionState). IsInAccord (talk_of connection)) IsReplied
        member.old [] member.old no_lines history.happenings member.new left history.happens }
    // (for the links to its peers and the exchanges with them, by what its server says of the bytes that it gives)
    ensures peered { LoopGoesFromNone ⟦<Member<'a, U> as Service>⟧ member.old member.new }
{
    am_server::run(alloc, rt, entrances, peers, member, limits)
}
