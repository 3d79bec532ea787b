//! Requests whose patterns are compiled before they are answered, one in each turn of the loop; and posts that there is no room
//! for, or none for their patterns.

ghost use Rattle.std.specs.Prelude.{◌≡◌, IfErr, IfOk, IfSome, IsTrue};
ghost use Rattle.am_http.specs.Lines.{line_seen};
ghost use Rattle.am_http.specs.Sessions.{spoken};
ghost use Rattle.am_server.specs.Answered.{IsAnswered};
ghost use Rattle.am_server.specs.Talks.{IsClosed, IsOwnLine, IsRequest, talk_of};
ghost use Rattle.am_daemon.specs.Sending.{PassesOn, outlets};

use super::server_state::ServerState;
use am_api_silences::{Read, Refusal};
use am_backend::Backend;
use am_http::session::SessionOutput;
use am_instance::Instance;
use am_member::{Judged, PatternCompilation};
use am_server::{
    ConnectionState, is_call, out_of_memory, patterns_too_large, post_bytes, state_too_large,
    too_many_patterns,
};
use std::alloc::{AllocError, Global};

/// Returns the patterns of what was said to an instance, if there are any.
fn judging_of(
    alloc: Global,
    instance: &Instance,
    said: &SessionOutput,
) -> Result<Option<PatternCompilation>, AllocError>
    ensures { IfOk result (λ found. IfSome found (λ _. IsRequest (spoken said.now))) }
{
    match &said.request {
        Some(Read::Whole(request)) => PatternCompilation::of(
            alloc,
            instance.config().dialect(),
            request,
        ),
        _ => Ok(None),
    }
}

impl<U: Backend> ServerState<'_, U> {
    /// Answers what was said, or keeps it until its patterns are compiled.
    pub(super) fn judge(
        &mut self,
        instance: &mut Instance,
        connection: &mut ConnectionState,
        said: SessionOutput,
    )
        ensures answered { IsAnswered (spoken said) instance.old (talk_of connection.old) instance.new (talk_of connection.new) }
        ensures sent { PassesOn instance.old (outlets U.store_of U.outbound self.old) instance.new (outlets U.store_of U.outbound self.new) }
    {
        if is_call(&said) {
            self.answer_call(instance, connection, said);
        } else if !self.refuses(instance, connection, &said) {
            self.begin_judging(instance, connection, said);
        }
    }

    /// Refuses a post that there is no room for, and returns whether it did.
    fn refuses(
        &mut self,
        instance: &Instance,
        connection: &mut ConnectionState,
        said: &SessionOutput,
    ) -> bool
        ensures refused { IsTrue result → IsClosed (talk_of connection.old) (talk_of connection.new) }
        ensures heard { ¬ IsTrue result → talk_of connection.new ≡ talk_of connection.old }
        ensures stays { outlets U.store_of U.outbound self.new ≡ outlets U.store_of U.outbound self.old }
    {
        match post_bytes(said) {
            Some(bytes) if !self.backend.has_room_for_post(instance, bytes) => {
                connection.refuse(self.alloc, &state_too_large());
                true
            }
            _ => false,
        }
    }

    /// Answers what was said, which isn't refused, or keeps it until its patterns are compiled.
    fn begin_judging(
        &mut self,
        instance: &mut Instance,
        connection: &mut ConnectionState,
        said: SessionOutput,
    )
        ensures answered { IsAnswered (spoken said) instance.old (talk_of connection.old) instance.new (talk_of connection.new) }
        ensures sent { PassesOn instance.old (outlets U.store_of U.outbound self.old) instance.new (outlets U.store_of U.outbound self.new) }
    {
        let alloc = self.alloc;
        match judging_of(alloc, instance, &said) {
            Ok(Some(compilation)) => connection.judge_later(said, compilation),
            Ok(None) => self.answer(instance, connection, said),
            Err(_) => connection.refuse(alloc, &out_of_memory()),
        }
    }

    /// Compiles the next pattern of a request, and returns whether none is left. Those of a post are kept then.
    ///
    /// # Errors
    ///
    /// The [`Refusal`] of the request.
    fn is_compiled(
        &mut self,
        instance: &mut Instance,
        compilation: &mut PatternCompilation,
    ) -> Result<bool, Refusal>
        ensures same { instance.new ≡ instance.old }
        ensures refused { IfErr result (λ refusal. IsOwnLine (line_seen refusal)) }
        ensures stays { outlets U.store_of U.outbound self.new ≡ outlets U.store_of U.outbound self.old }
    {
        match compilation.resume() {
            Ok(Judged::More) => Ok(false),
            Ok(Judged::Done) => self.is_kept(instance, compilation),
            Ok(Judged::TooMuch) => Err(patterns_too_large(compilation)),
            Err(_) => Err(out_of_memory()),
        }
    }

    /// Keeps the patterns of a post beside those of the silences that are held, which are compiled first, some in each turn. Returns
    /// whether that is done.
    ///
    /// # Errors
    ///
    /// The [`Refusal`] of the request.
    fn is_kept(
        &mut self,
        instance: &mut Instance,
        compilation: &mut PatternCompilation,
    ) -> Result<bool, Refusal>
        ensures same { instance.new ≡ instance.old }
        ensures refused { IfErr result (λ refusal. IsOwnLine (line_seen refusal)) }
        ensures stays { outlets U.store_of U.outbound self.new ≡ outlets U.store_of U.outbound self.old }
    {
        let now = self.backend.next_moment(instance.last());
        match self.ahead.keep(instance, compilation, now) {
            Ok(Judged::More) => Ok(false),
            Ok(Judged::Done) => Ok(true),
            Ok(Judged::TooMuch) => Err(too_many_patterns()),
            Err(_) => Err(out_of_memory()),
        }
    }

    /// Compiles the next pattern of a request. If none is left, the request is answered.
    pub(super) fn resume_compilation(
        &mut self,
        instance: &mut Instance,
        connection: &mut ConnectionState,
        said: SessionOutput,
        compilation: PatternCompilation,
    )
        ensures answered { IsRequest (spoken said) → IsAnswered (spoken said) instance.old (talk_of connection.old) instance.new (talk_of connection.new) }
        ensures sent { PassesOn instance.old (outlets U.store_of U.outbound self.old) instance.new (outlets U.store_of U.outbound self.new) }
    {
        let mut compilation = compilation;
        match self.is_compiled(instance, &mut compilation) {
            Ok(true) => self.answer_by(instance, connection, said, compilation),
            Ok(false) => connection.judge_later(said, compilation),
            Err(refusal) => connection.refuse(self.alloc, &refusal),
        }
    }

    /// Answers a request with its compiled patterns.
    fn answer_by(
        &mut self,
        instance: &mut Instance,
        connection: &mut ConnectionState,
        said: SessionOutput,
        compilation: PatternCompilation,
    )
        ensures answered { IsAnswered (spoken said) instance.old (talk_of connection.old) instance.new (talk_of connection.new) }
        ensures sent { PassesOn instance.old (outlets U.store_of U.outbound self.old) instance.new (outlets U.store_of U.outbound self.new) }
    {
        if self.refuses(instance, connection, &said) {
            return;
        }
        let own = instance.swap_patterns(compilation.into_patterns());
        self.answer(instance, connection, said);
        let _ = instance.swap_patterns(own);
    }
}
