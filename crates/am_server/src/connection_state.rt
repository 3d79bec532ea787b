//! A connection that is served.

ghost use Rattle.std.specs.Prelude.{◌≡◌, ◌≤◌, [], drop, length, take, true, Some, None, IfSome, IsSome};
ghost use Rattle.am_api_silences.specs.Replies.{bytes_of};
ghost use Rattle.am_api_silences.specs.declared.replies.ResponseBytes.{ResponseBytes as Reply};
ghost use Rattle.am_peer_auth.specs.Authenticators.{before};
ghost use Rattle.am_http.specs.Hosts.{texts};
ghost use Rattle.am_http.specs.Lines.{line_seen};
ghost use Rattle.am_http.specs.Sessions.{fresh, nothing, spoken};
ghost use Rattle.am_server.specs.Answered.{SaysBy};
ghost use Rattle.am_instance.specs.InstanceStates.{InstanceState};
ghost use Rattle.am_server.specs.Calls.{IsProgressOf, WhenTold};
ghost use Rattle.am_server.specs.Talks.{Closes, IsClosed, IsGiven, IsOwnLine, IsReleased, IsReplyTo, IsRequest, IsScreenedBy, IsUnheld, Keeps, KeepsBy, KeepsGone, KeepsIf, Lasts, Rests, Stays, TellsLine, WaitsAs, pending_in, pending_of, put_next, said_next, sent_in, sent_on, talk_of};
ghost use Rattle.am_server.specs.Talks.Saying.{Silent};

use crate::counting::{RequestRecord, StateCount};
use crate::refusals::filter_too_large;
use crate::turns::{Due, Turn, bytes_of_request, is_list_call, is_long_post};
use am_api_decisions::{Deciding, LogWriting};
use am_api_silences::{PendingAnswer, Read, Refusal, ReplyBuilder, Request, ResponseBytes, refuse};
use am_gossip::Frame;
use am_http::session::{Session, SessionOutput};
use am_http::{Cause, Screened};
use am_instance::names_both;
use am_member::{PatternCompilation, is_list_request};
use am_peer_auth::{AcceptedProtocols, Authenticator};
use std::alloc::{AllocError, Global};
use std::mem;
use std::time::Instant;

/// The maximum number of silences of a list that are judged or written in a turn of the loop.
const STRETCH: usize = 512;

/// A connection, and the work that is left to do for it.
pub struct ConnectionState {
    /// The authenticator before the session.
    pub authenticator: Authenticator,
    pub session: Session,
    /// True if it is known where the request comes from.
    is_screened: bool,
    /// The work that is left to do for the connection.
    pub work: ConnectionWork,
    /// The record of the connection's request.
    pub account: RequestRecord,
}

// (so that crates above cite one drop, and don't prove those of all that is inside)
impl Drop for ConnectionState {
    fn drop(self) {
        let ConnectionState {
            authenticator: _,
            session: _,
            is_screened: _,
            work: _,
            account: _,
        } = self;
    }
}

/// The work that is left to do for a connection.
#[derive(Drop)]
pub enum ConnectionWork {
    Nothing,
    /// A request waits: for its place in the line, or until the first pull is over.
    Request(SessionOutput),
    /// Some patterns of a request are still to be compiled.
    Compiling(SessionOutput, PatternCompilation),
    /// A list is being sifted or written; its step was made.
    Building(ReplyBuilder),
    /// A request that isn't about silences is being answered.
    Call(CallProgress),
    /// A reply waits for the next commit.
    Uncommitted(UncommittedReply),
    /// A reply is going out, or went out.
    Reply(OutgoingResponse),
}

/// The progress of the answer to a request that isn't about silences.
#[derive(Drop)]
pub enum CallProgress {
    /// A request for a decision waits for this member's turn, or until Alertmanagers have been heard.
    Turn(Turn),
    /// A request waits for its place in the line.
    Due(Due),
    /// Some alerts of a decision are still to be held against the silences.
    Deciding(PendingDecision),
    /// The entries of the log are being written.
    Log(LogWriting),
    /// The silences are being counted for the member's figures.
    Counting(StateCount),
}

/// A decision that is being made.
#[derive(Drop)]
pub struct PendingDecision {
    pub deciding: Deciding,
    /// The request, if Alertmanagers are still to be heard before the answer is that the group is to be notified.
    pub unheard: Option<Request>,
    /// The moment when the decision is broken off; without it, the decision goes on for as long as a connection may last.
    pub limit: Option<Instant>,
}

impl ConnectionWork {
    /// Returns the number of bytes of a request that the work keeps.
    fn held(&self) -> usize {
        match self {
            ConnectionWork::Request(said) | ConnectionWork::Compiling(said, _) => bytes_kept(said),
            ConnectionWork::Call(CallProgress::Turn(turn)) => turn.bytes(),
            ConnectionWork::Call(CallProgress::Due(due)) => bytes_of_request(&due.request),
            ConnectionWork::Call(
                CallProgress::Deciding(
                    PendingDecision {
                        unheard: Some(request),
                        ..
                    },
                ),
            ) => bytes_of_request(request),
            _ => 0,
        }
    }
}

/// Returns the number of bytes of a request that are kept with the output of a session.
fn bytes_kept(said: &SessionOutput) -> usize {
    match &said.request {
        Some(Read::Whole(request)) => bytes_of_request(request),
        _ => 0,
    }
}

/// A reply that waits for the next commit.
#[derive(Drop)]
pub struct UncommittedReply {
    pub reply: ResponseBytes,
    /// True if the request has changed something.
    pub is_change: bool,
}

/// A reply that is going out.
#[derive(Drop)]
pub struct OutgoingResponse {
    pub reply: ResponseBytes,
    /// The number of its bytes that went out.
    pub written: usize,
}

impl OutgoingResponse {
    /// Returns the bytes that are still to be written.
    fn left(&self) -> &[u8]
        ensures { result.now ≡ drop self.now.written (bytes_of self.now.reply) }
    {
        let reply = self.reply.as_slice();
        if self.written < reply.len() {
            &reply[self.written..]
        } else {
            &[]
        }
    }
}

impl ConnectionState {
    /// Begins a connection before its first byte; `accepts` says what is heard of it. Takes no memory.
    pub fn new(alloc: Global, accepts: AcceptedProtocols) -> ConnectionState
        ensures { talk_of result ≡ record { auth_phase = before; session = fresh; waiting = None; saying = Silent } }
    {
        ConnectionState {
            authenticator: Authenticator::new(alloc, accepts),
            session: Session::new(alloc),
            is_screened: false,
            work: ConnectionWork::Nothing,
            account: RequestRecord::new(),
        }
    }

    /// Sets the work that is left to do for the connection.
    // (one function, so that the drops of all former work are proved once)
    pub fn set(&mut self, work: ConnectionWork)
        ensures { self.new ≡ record (self.old) { work = work } }
    {
        self.work = work;
    }

    /// Keeps a request that has to wait, and returns any other: lists and long posts wait for their turn, and all requests for the
    /// first pull.
    pub fn hold(&mut self, said: SessionOutput, waits_for_pull: bool) -> Option<SessionOutput>
        ensures held { result ≡ None → IsRequest (spoken said) × (talk_of self.new ≡ record (talk_of self.old) { waiting = Some (spoken said); saying = Silent }) }
        ensures given { IfSome result (λ given. (given ≡ said) × (talk_of self.new ≡ talk_of self.old)) }
    {
        if must_wait(&said, waits_for_pull) {
            self.set(ConnectionWork::Request(said));
            return None;
        }
        Some(said)
    }

    /// Returns the refusal of a request that names a host or a site other than this member's, now that the next piece has come.
    pub fn screen(&mut self, piece: &[u8], hosts: &[&str]) -> Option<Refusal>
        ensures same { talk_of self.new ≡ talk_of self.old }
        // PROMISE: A request is turned away as foreign only if it names a host or an origin that isn't the member's.
        ensures refused { IfSome result (λ refusal. IsScreenedBy self.old.session piece.now (texts hosts.now) (line_seen refusal)) }
        ensures own { IfSome result (λ refusal. IsOwnLine (line_seen refusal)) }
    {
        if self.is_screened {
            return None;
        }
        match self.session.screen(piece, hosts) {
            Ok(Screened::Open) => None,
            Ok(Screened::Known) => {
                self.is_screened = true;
                None
            }
            Ok(Screened::Foreign { what, to_head }) => Some(what.refusal(to_head)),
            Err(_) => Some(Cause::Memory.refusal()),
        }
    }

    /// Has a whole reply go out, unless one does already.
    fn say(&mut self, reply: ResponseBytes)
        ensures said { talk_of self.new ≡ record (talk_of self.old) { waiting = None; saying = said_next reply (talk_of self.old).saying } }
        ensures unheld { IsUnheld self.new.work }
    {
        if !matches!(self.work, ConnectionWork::Reply(_)) {
            self.set(ConnectionWork::Reply(OutgoingResponse { reply, written: 0 }));
        }
    }

    /// Answers a request with the line of a refusal, whatever it asks for, and hears no more.
    pub fn refuse(&mut self, alloc: Global, refusal: &Refusal)
        ensures refused { IsOwnLine (line_seen refusal.now) → IsClosed (talk_of self.old) (talk_of self.new) }
        ensures closes { Closes (talk_of self.old) (talk_of self.new) }
        ensures gone { KeepsGone (talk_of self.old).saying (talk_of self.new).saying }
        ensures line { (reply : Reply) × TellsLine (line_seen refusal.now) reply × ((talk_of self.new).saying ≡ said_next reply (talk_of self.old).saying) }
        ensures told { KeepsIf (λ owed. WhenTold (IsReplyTo owed) (line_seen refusal.now)) (talk_of self.old).saying (talk_of self.new).saying }
    {
        self.session.stop();
        let PendingAnswer { making, .. } = refuse(alloc, refusal);
        self.say(making.finish(alloc));
    }

    /// Refuses a request that waited for the first pull, if nobody waits for that any more, or not for as long as it may take.
    pub fn refuse_unready(&mut self, alloc: Global, said: Option<SessionOutput>)
        ensures { IsClosed (talk_of self.old) (talk_of self.new) }
    {
        let method = match &said {
            Some(said) => method_of(said),
            None => b"".as_slice(),
        };
        self.refuse(alloc, &Refusal::new(503, "not ready").told_to(method));
    }

    /// Has a reply go out, if there is one. A list waits until it is written.
    pub fn reply_with(&mut self, alloc: Global, reply: Option<ReplyBuilder>)
        ensures stays { Stays (talk_of self.old) (talk_of self.new) }
        ensures says { SaysBy reply (talk_of self.old).saying (talk_of self.new).saying }
        ensures unheld { IsSome reply → IsUnheld self.new.work }
    {
        match reply {
            Some(making) if making.is_whole() => self.say(making.finish(alloc)),
            Some(making) => self.make(making),
            None => {}
        }
    }

    /// Has a reply wait until it is written, unless one goes out already.
    fn make(&mut self, making: ReplyBuilder)
        ensures stays { Stays (talk_of self.old) (talk_of self.new) }
        ensures says { KeepsBy making (talk_of self.old).saying (talk_of self.new).saying }
        ensures unheld { IsUnheld self.new.work }
    {
        if !matches!(self.work, ConnectionWork::Reply(_)) {
            self.set(ConnectionWork::Building(making));
        }
    }

    /// Has a whole reply go out, or one saying that there was no memory for it.
    pub fn tell(&mut self, alloc: Global, reply: Result<Vec<u8>, AllocError>)
        ensures rests { Rests (talk_of self.old) (talk_of self.new) }
        ensures gone { KeepsGone (talk_of self.old).saying (talk_of self.new).saying }
    {
        match reply {
            Ok(bytes) => self.say(ResponseBytes::Own(bytes)),
            Err(_) => self.refuse(alloc, &Cause::Memory.refusal()),
        }
    }

    /// Returns whether nothing is left to be heard, done or written.
    pub fn is_done(&self) -> bool {
        let is_idle = match &self.work {
            ConnectionWork::Nothing => true,
            ConnectionWork::Reply(outgoing) => outgoing.left().is_empty(),
            _ => false,
        };
        self.session.is_over() && is_idle
    }

    /// Returns the three digits of the status of the reply that is going out.
    pub fn status(&self) -> &[u8] {
        match &self.work {
            ConnectionWork::Reply(outgoing) => outgoing.reply.as_slice().get(9..12).unwrap_or(b""),
            _ => b"",
        }
    }

    /// Has the reply wait for the next commit, if it is whole and none of it went out. `is_change` says whether the request has
    /// changed something.
    pub fn hold_back(&mut self, is_change: bool)
        ensures stays { Stays (talk_of self.old) (talk_of self.new) }
        ensures says { Keeps (talk_of self.old).saying (talk_of self.new).saying }
        ensures waits { IsUnheld self.old.work → WaitsAs is_change self.new.work }
    {
        let work = match mem::replace(&mut self.work, ConnectionWork::Nothing) {
            ConnectionWork::Reply(OutgoingResponse { reply, written: 0 }) =>
                ConnectionWork::Uncommitted(UncommittedReply { reply, is_change }),
            other => other,
        };
        self.set(work);
    }

    /// Returns whether a reply waits for the next commit.
    pub fn is_held_back(&self) -> bool {
        matches!(self.work, ConnectionWork::Uncommitted(_))
    }

    /// Has the reply that waited for a commit go out; `is_kept` says whether the commit has kept everything.
    pub fn release(&mut self, alloc: Global, is_kept: bool)
        ensures lasts { Lasts (talk_of self.old) (talk_of self.new) }
        // PROMISE: A reply that waited for a commit goes out as it is if the commit has kept everything or the request has changed nothing, and otherwise a line with status 500 does.
        ensures kept { IsReleased is_kept self.old.work (talk_of self.new).saying }
    {
        match mem::replace(&mut self.work, ConnectionWork::Nothing) {
            ConnectionWork::Uncommitted(held) if is_kept || !held.is_change => self.say(held.reply),
            ConnectionWork::Uncommitted(_) => self.refuse(
                alloc,
                &Refusal::new(500, "held, but not kept on disk"),
            ),
            other => self.set(other),
        }
    }

    /// Has the line of a refusal go out, unless a reply does already.
    fn say_line(&mut self, alloc: Global, refusal: &Refusal)
        ensures stays { Stays (talk_of self.old) (talk_of self.new) }
        ensures keeps { IsOwnLine (line_seen refusal.now) → Keeps (talk_of self.old).saying (talk_of self.new).saying }
    {
        let answer = refuse(alloc, refusal);
        self.say(answer.making.finish(alloc));
    }

    /// Judges or writes another stretch of a list. If none is left, the list goes out. If a filter might keep everyone waiting, the
    /// list is refused.
    pub fn resume(&mut self, alloc: Global, making: ReplyBuilder)
        ensures stays { Stays (talk_of self.old) (talk_of self.new) }
        ensures says { KeepsBy making (talk_of self.old).saying (talk_of self.new).saying }
    {
        if making.is_too_dear() {
            self.say_line(alloc, &filter_too_large());
        } else if making.is_whole() {
            self.say(making.finish(alloc));
        } else {
            self.make(making.resume(STRETCH));
        }
    }

    /// Keeps a request some of whose patterns are still to be compiled.
    pub fn judge_later(&mut self, said: SessionOutput, compilation: PatternCompilation)
        ensures { talk_of self.new ≡ record (talk_of self.old) { waiting = Some (spoken said); saying = Silent } }
    {
        self.set(ConnectionWork::Compiling(said, compilation));
    }

    /// Puts off what is left to do for a request that isn't about silences, unless a reply goes out already.
    pub fn put_off(&mut self, call: CallProgress)
        ensures stays { Stays (talk_of self.old) (talk_of self.new) }
        ensures gone { KeepsGone (talk_of self.old).saying (talk_of self.new).saying }
        ensures puts { (talk_of self.new).saying ≡ put_next call (talk_of self.old).saying }
    {
        if !matches!(self.work, ConnectionWork::Reply(_)) {
            self.set(ConnectionWork::Call(call));
        }
    }

    /// Writes another stretch of the log. If none is left, the log goes out.
    pub fn resume_log(&mut self, alloc: Global, writing: LogWriting)
        ensures rests { Rests (talk_of self.old) (talk_of self.new) }
        ensures gone { KeepsGone (talk_of self.old).saying (talk_of self.new).saying }
        // PROMISE: The log that is written in stretches is answered whole, as it was when that began.
        ensures given { (request : Request) (start : InstanceState) (end : InstanceState) → (talk_of self.old).saying ≡ Silent →
            IsProgressOf request (CallProgress.Log writing) → IsGiven request start end (talk_of self.new).saying }
    {
        if writing.is_written() {
            return self.say(writing.finish(alloc));
        }
        match writing.resume(alloc, STRETCH) {
            Ok(writing) => self.put_off(CallProgress::Log(writing)),
            Err(refusal) => self.refuse(alloc, &refusal),
        }
    }

    /// Takes out the request that waits, if one does.
    pub fn take_waiting(&mut self) -> Option<SessionOutput>
        ensures stays { Stays (talk_of self.old) (talk_of self.new) }
        ensures says { (talk_of self.new).saying ≡ (talk_of self.old).saying }
    {
        match mem::replace(&mut self.work, ConnectionWork::Nothing) {
            ConnectionWork::Request(said) => Some(said),
            other => {
                self.set(other);
                None
            }
        }
    }

    /// Returns whether something waits for its place in the line.
    pub fn waits(&self) -> bool {
        match &self.work {
            ConnectionWork::Request(_)
            | ConnectionWork::Compiling(_, _)
            | ConnectionWork::Building(_) => true,
            ConnectionWork::Call(call) => !matches!(call, CallProgress::Turn(_)),
            ConnectionWork::Nothing | ConnectionWork::Uncommitted(_) | ConnectionWork::Reply(_) =>
                false,
        }
    }

    /// Returns the request for a decision that waits, if one does.
    pub fn turn(&self) -> Option<&Turn> {
        match &self.work {
            ConnectionWork::Call(CallProgress::Turn(turn)) => Some(turn),
            _ => None,
        }
    }

    /// Returns the latest moment for the answer that is being made, or waits for its place in the line, if there is one.
    pub fn limit(&self) -> Option<Instant> {
        match &self.work {
            ConnectionWork::Call(CallProgress::Due(due)) => due.limit,
            ConnectionWork::Call(CallProgress::Deciding(deliberation)) => deliberation.limit,
            _ => None,
        }
    }

    /// Returns the number of bytes that came and are kept.
    pub fn held(&self) -> usize {
        let coming = self
            .session
            .waiting()
            .saturating_add(self.authenticator.waiting());
        coming.saturating_add(self.work.held())
    }

    /// Returns the number of bytes of a whole reply. Those that went out are kept, too, for as long as the connection is.
    pub fn unread(&self) -> usize {
        match &self.work {
            ConnectionWork::Uncommitted(held) => held.reply.as_slice().len(),
            ConnectionWork::Reply(outgoing) => outgoing.reply.as_slice().len(),
            _ => 0,
        }
    }

    /// Returns what is still to be written, or a first part of it: the challenge comes before a reply.
    pub fn output(&self) -> &[u8]
        ensures first_part { result.now ≡ take (length result.now) (pending_in (talk_of self.now)) }
        ensures has_byte { result.now ≡ [] → pending_in (talk_of self.now) ≡ [] }
    {
        let challenge = self.authenticator.output();
        if challenge.is_empty() {
            self.reply_left()
        } else {
            challenge
        }
    }

    /// Notes that `count` bytes of what was still to be written went out.
    pub fn sent(&mut self, count: usize)
        requires within { count ≤ length (pending_in (talk_of self.old)) }
        ensures sent { talk_of self.new ≡ sent_in count (talk_of self.old) }
        ensures rest { pending_in (talk_of self.new) ≡ drop count (pending_in (talk_of self.old)) }
    {
        let challenge = self.authenticator.output().len();
        self.authenticator.sent(count.min(challenge));
        self.reply_sent(count.saturating_sub(challenge));
    }

    /// Returns the bytes of a reply that are still to be written.
    fn reply_left(&self) -> &[u8]
        ensures { result.now ≡ pending_of (talk_of self.now).saying }
    {
        match &self.work {
            ConnectionWork::Reply(outgoing) => outgoing.left(),
            _ => &[],
        }
    }

    /// Notes that `count` bytes of a reply went out.
    fn reply_sent(&mut self, count: usize)
        requires within { count ≤ length (pending_of (talk_of self.old).saying) }
        ensures { talk_of self.new ≡ record (talk_of self.old) { saying = sent_on count (talk_of self.old).saying } }
    {
        if let ConnectionWork::Reply(outgoing) = &mut self.work {
            let end = outgoing.reply.as_slice().len().max(outgoing.written);
            outgoing.written = end.min(outgoing.written.saturating_add(count));
        }
    }
}

/// Returns whether a request has to wait.
fn must_wait(said: &SessionOutput, waits_for_pull: bool) -> bool
    ensures { result ≡ true → IsRequest (spoken said.now) }
{
    match &said.request {
        Some(read) => {
            waits_for_pull || is_list_request(read) || is_list_call(read) || is_long_post(read)
        }
        None => false,
    }
}

/// Returns the method of the request that was said, if one was.
fn method_of(said: &SessionOutput) -> &[u8] {
    match &said.request {
        Some(Read::Whole(request)) => request.method.as_bytes(),
        _ => b"",
    }
}

/// Returns whether nothing was said.
pub fn is_nothing(said: &SessionOutput) -> bool
    ensures { result ≡ true → spoken said.now ≡ nothing }
{
    said.frames.is_empty() && said.request.is_none() && said.fault.is_none()
}

/// Returns whether a frame is the last part of everything a peer has, as it was asked for.
fn is_last_of_pull(frame: &Frame) -> bool {
    match frame {
        Frame::Pull(state) => names_both(state),
        _ => false,
    }
}

/// Returns whether everything a peer has is here, with what was said.
pub fn ends_pull(said: &SessionOutput) -> bool {
    said.frames.iter().any(is_last_of_pull)
}

/// Returns whether what was said may change what the member holds.
pub fn may_change(said: &SessionOutput) -> bool {
    match &said.request {
        Some(Read::Whole(request)) => request.method.as_str() != "GET",
        _ => !said.frames.is_empty(),
    }
}
