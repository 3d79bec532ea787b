//! Laws about all that a member does for the loop that serves it.

ghost use Rattle.std.specs.Prelude.{◌⊎◌, ℕ, List};
ghost use Rattle.std.specs.List.{Contains};
ghost use Rattle.am_backend.specs.CommitStates.{disk_of};
ghost use Rattle.am_gossip.specs.declared.frame.Frame.{Frame};
ghost use Rattle.am_daemon.specs.Accounts.{Account, AddsUp, IsAccountOver};
ghost use Rattle.am_daemon.specs.Histories.{AreCalls, IsSentIn};
ghost use Rattle.am_daemon.specs.Offers.{for_peers};
ghost use Rattle.am_daemon.specs.declared.running.Member.{Member};

use crate::running::Member;
use am_backend::Backend;
use am_reactor::Service;

/// States where the frames come from that wait for peers, whatever calls a loop makes of a member.
pub fn only_steps_have_frames_wait<'a, U: Backend>()
    // PROMISE: Whatever calls a loop makes of a member, each frame that then waits for a peer waited before, or the steps of one of the calls sent it.
    ensures { (first : Member U) (between : List (Member U)) (last : Member U) (queued : ℕ × Frame) → AreCalls ⟦<Member<'a, U> as Service>⟧ first between last →
        Contains (U.outbound last.server.state.backend).frames queued →
        Contains (U.outbound first.server.state.backend).frames queued ⊎ IsSentIn (λ (member : Member U). member.instance) queued first between last }
{}

/// States what becomes of the frames for a peer, whatever calls a loop makes of a member.
pub fn each_frame_goes_once<'a, U: Backend>()
    // PROMISE: Whatever calls a loop makes of a member, each frame that its steps send to a peer waits, in order, until all that wait for that peer leave at once: their bytes are given, or they are put by until the peer's link answers, and then go at once, sealed. Or they leave or go unsent. None goes twice, and none is passed over.
    ensures { (peer : ℕ) (first : Member U) (between : List (Member U)) (last : Member U) → AreCalls ⟦<Member<'a, U> as Service>⟧ first between last →
        (account : Account)
        × IsAccountOver (λ (member : Member U). member.instance) (λ (member : Member U). for_peers U.outbound U.sealed_by member.server.state)
        (λ (member : Member U). disk_of (U.store_of member.server.state.backend).commit_state) peer account first between last
        × AddsUp peer account (for_peers U.outbound U.sealed_by first.server.state) (for_peers U.outbound U.sealed_by last.server.state) }
{}
