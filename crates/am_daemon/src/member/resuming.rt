//! The work that waits for its place in the line, and continues there.

ghost use Rattle.std.specs.Prelude.{◌≡◌};
ghost use Rattle.am_http.specs.Sessions.{spoken};
ghost use Rattle.am_server.specs.Answered.{ForPages, IsAnswered};
ghost use Rattle.am_server.specs.Calls.{IsProgressOf};
ghost use Rattle.am_server.specs.Talks.{IsGiven, IsGivenOn, KeepsGone, Lasts, Rests, talk_of};
ghost use Rattle.am_server.specs.Talks.Saying.{Silent};
ghost use Rattle.am_http.specs.declared.request.Request.{Request};
ghost use Rattle.am_server.specs.Talking.{IsTakenUp};
ghost use Rattle.am_daemon.specs.Sending.{PassesOn, outlets};

use super::server_state::ServerState;
use super::telling::tell;
use am_backend::Backend;
use am_http::session::SessionOutput;
use am_instance::Instance;
use am_server::{CallProgress, ConnectionState, ConnectionWork};
use std::mem;

impl<U: Backend> ServerState<'_, U> {
    /// Continues what is still to be done for a connection. What waits for its turn goes on waiting.
    pub(super) fn resume(&mut self, instance: &mut Instance, connection: &mut ConnectionState)
        ensures taken_up { IsTakenUp (talk_of connection.old).waiting instance.old (talk_of connection.old) instance.new (talk_of connection.new) }
        ensures sent { PassesOn instance.old (outlets U.store_of U.outbound self.old) instance.new (outlets U.store_of U.outbound self.new) }
    {
        match mem::replace(&mut connection.work, ConnectionWork::Nothing) {
            ConnectionWork::Request(said) => self.answer_late(instance, connection, said),
            ConnectionWork::Compiling(said, compilation) => self.resume_compilation(
                instance,
                connection,
                said,
                compilation,
            ),
            ConnectionWork::Building(making) => connection.resume(self.alloc, making),
            ConnectionWork::Call(call) => self.resume_call(instance, connection, call),
            other => connection.set(other),
        }
    }

    /// Continues the answer to a request that isn't about silences.
    fn resume_call(
        &mut self,
        instance: &mut Instance,
        connection: &mut ConnectionState,
        call: CallProgress,
    )
        ensures steps { ForPages instance.old instance.new }
        ensures rests { Rests (talk_of connection.old) (talk_of connection.new) }
        ensures gone { KeepsGone (talk_of connection.old).saying (talk_of connection.new).saying }
        ensures given { (request : Request) → (talk_of connection.old).saying ≡ Silent → IsProgressOf request call →
            IsGiven request instance.old instance.new (talk_of connection.new).saying }
        ensures sent { PassesOn instance.old (outlets U.store_of U.outbound self.old) instance.new (outlets U.store_of U.outbound self.new) }
    {
        match call {
            CallProgress::Turn(turn) => connection.put_off(CallProgress::Turn(turn)),
            CallProgress::Due(due) => {
                let called = self.answer_due(instance, due);
                self.follow_call(connection, called);
            }
            CallProgress::Deciding(deciding) => {
                let called = self.resume_decision(instance, deciding);
                self.follow_call(connection, called);
            }
            CallProgress::Log(writing) => connection.resume_log(self.alloc, writing),
            CallProgress::Counting(state_count) => {
                let told = self.resume_count(instance, state_count);
                tell(self.alloc, connection, told);
            }
        }
    }

    /// Answers a request that has waited. If it waited for a first pull that a stop has ended, it is turned away.
    fn answer_late(
        &mut self,
        instance: &mut Instance,
        connection: &mut ConnectionState,
        said: SessionOutput,
    )
        ensures answered { IsAnswered (spoken said) instance.old (talk_of connection.old) instance.new (talk_of connection.new) }
        ensures sent { PassesOn instance.old (outlets U.store_of U.outbound self.old) instance.new (outlets U.store_of U.outbound self.new) }
    {
        if self.turns_away {
            connection.refuse_unready(self.alloc, Some(said));
        } else {
            self.judge(instance, connection, said);
        }
    }

    /// Answers a request whose moment has come.
    pub(super) fn resume_in_turn(
        &mut self,
        instance: &mut Instance,
        connection: &mut ConnectionState,
    )
        ensures steps { ForPages instance.old instance.new }
        ensures lasts { Lasts (talk_of connection.old) (talk_of connection.new) }
        ensures given { IsGivenOn instance.old (talk_of connection.old).saying instance.new (talk_of connection.new).saying }
        ensures sent { PassesOn instance.old (outlets U.store_of U.outbound self.old) instance.new (outlets U.store_of U.outbound self.new) }
    {
        match mem::replace(&mut connection.work, ConnectionWork::Nothing) {
            ConnectionWork::Call(call) => {
                let called = self.take_moment(instance, call);
                self.follow_call(connection, called);
            }
            other => connection.set(other),
        }
    }
}
