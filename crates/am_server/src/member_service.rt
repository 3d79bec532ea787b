//! The life of a member that a loop runs: what comes of its connections, in whatever order, is turns of that life, one after
//! another.

ghost use Rattle.std.specs.Prelude.{[], ℕ, List, Option};
ghost use Rattle.am_http.specs.Sessions.{SessionPhase, fresh};
ghost use Rattle.am_instance.specs.InstanceStates.{InstanceState};
ghost use Rattle.am_member.specs.Lives.{Turn};
ghost use Rattle.am_reactor.specs.Deeds.{Deed};
ghost use Rattle.am_reactor.specs.History.{IsCall, Leads, Line, no_lines};
ghost use Rattle.am_reactor.specs.Peered.{LoopGoesFromNone};
ghost use Rattle.am_reactor.specs.Streams.{arrived_over, gone_over};
ghost use Rattle.am_server.specs.MemberService.{ActsAlone, BeginsFresh, DoesForOne, IsAlwaysLived, Passed, nothing_passed};

use am_reactor::{Entrances, Limits, NotedStream, Peers, Service};
use std::alloc::Global;
use std::io::{self, Input};
use std::net::Net;
use std::rt::Clock;

/// A service that is a member: its calls are turns of its connections, steps for programs that send pages, and steps that it makes
/// by itself.
pub trait MemberService: Service {
    /// The instance that the member holds.
    ghost instance_of: { Self → InstanceState };

    /// The accord of a session with the bytes that passed over its connection, with how far the connection has come in the
    /// member's life, and with the turns that it had there.
    ghost accords: { Self.Session → Passed → SessionPhase → List Turn → Type 0 };

    /// A property of the bytes that passed over a connection, of how far the connection came and of its turns, whether it is
    /// still open or not.
    ghost is_so: { Passed → SessionPhase → List Turn → Type 0 };

    ghost begins_fresh: { (service : Self) (session : Self.Session) (service' : Self) → Self.begins service session service' →
        BeginsFresh instance_of accords service session service' };

    ghost so_of_none: { is_so nothing_passed fresh [] };

    ghost so_of_accord: { (session : Self.Session) (passed : Passed) (session_phase : SessionPhase) (turns : List Turn) →
        accords session passed session_phase turns → is_so passed session_phase turns };

    ghost acts_alone: { (service : Self) (service' : Self) → IsCall Self.Service service service' →
        ActsAlone instance_of service service' };

    ghost does_for_one: { (service : Self) (session : Self.Session) (deed : Deed) (service' : Self) (session' : Self.Session) →
        Self.does service session deed service' session' → DoesForOne instance_of accords service session deed service' session' };
}

/// Serves the connections of listeners as [`am_reactor::run`] does. Its history is a life of the member: turns of the
/// connections, each by its number, and steps that the member made for programs that send pages or by itself: for a connection only
/// the former, and for none only Ticks and frames of Alertmanagers that it asked. The links to peers and the
/// exchanges with them are as [`am_reactor::run`] says.
///
/// # Errors
///
/// The same as those of [`am_reactor::run`].
pub fn run<S: MemberService, R: Net + Clock + Input>(
    alloc: Global,
    rt: &R,
    entrances: Entrances,
    peers: Peers<'_>,
    service: &mut S,
    limits: Limits,
) -> io::Result<()>
    // PROMISE: At each moment, a member that the loop runs has lived a life: one list of steps, of just the bytes that each connection's own stream brought, in order; and just what its session sent has gone out over that stream, each byte once.
    ensures lived { (left : ℕ → Option (Line S.Session NotedStream))
        × (history : Leads S.Service (IsCall S.Service) arrived_over gone_over service.old no_lines service.new left)
        × IsAlwaysLived S.Service (IsCall S.Service) arrived_over gone_over S.instance_of S.accords S.is_so service.old [] service.old no_lines history.happenings service.new left history.happens }
    ensures peered { LoopGoesFromNone S.Service service.old service.new }
{
    am_reactor::run(alloc, rt, entrances, peers, service, limits)
}
