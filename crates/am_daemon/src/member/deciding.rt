//! Decisions for programs that send pages. A question is answered at once, or at this member's turn. The answer that a group is
//! to be notified is given only when the Alertmanagers beside the member have been heard since the question, or their time is
//! over.

ghost use Rattle.std.specs.Prelude.{◌≡◌, ◌==◌, IfErr, IfOk, ℕ, not, true};
ghost use Rattle.am_api_silences.specs.declared.reply_builder.ReplyBuilder.{ReplyBuilder as Making};
ghost use Rattle.am_http.specs.Lines.{line_seen};
ghost use Rattle.am_http.specs.Sessions.{spoken};
ghost use Rattle.am_instance.specs.InstanceStates.{InstanceState};
ghost use Rattle.am_api_decisions.specs.ParsedCalls.{IsAsked};
ghost use Rattle.am_api_decisions.specs.Asking.{HoldsSame};
ghost use Rattle.am_server.specs.Answered.{ForPages};
ghost use Rattle.am_server.specs.Calls.{AnswersQuestion, IsOnly, IsProgressOf, IsUnderway, WhenTold};
ghost use Rattle.am_server.specs.Calls.CallCause.{Stops};
ghost use Rattle.am_server.specs.Talks.{Closes, IsGiven, KeepsGone, Rests, WaitsAs, talk_of};
ghost use Rattle.am_server.specs.Talks.Saying.{Silent};
ghost use Rattle.am_server.specs.Waiting.{request_of};
ghost use Rattle.am_daemon.specs.Calling.{Follows, GivesOrWaits, IsCalled, IsPutOff, IsTurnedAwayFor};
ghost use Rattle.am_daemon.specs.Sending.{IsQuiet, PassesOn, outlets};
ghost use Rattle.am_backend.specs.CommitStates.{came, uncommitted};

use super::counting::{count_decided, count_decision};
use super::server_state::ServerState;
use super::telling::time_between;
use am_api_decisions::{
    Deciding, Notice, ParsedCall, Question, ReasonedReply, Timing, begin_log, log_notice,
    parse_call,
};
use am_api_silences::{PendingAnswer, Read, Refusal, ReplyBuilder, Request};
use am_backend::{Backend, Counted, Incoming};
use am_http::session::SessionOutput;
use am_instance::Instance;
use am_member::PatternsAhead;
use am_metrics::StepLabel;
use am_options::seconds_in;
use am_server::{
    CallProgress, ConnectionState, Due, PendingDecision, Turn, TurnStage, Turns, is_long,
    request_bytes,
};
use am_version_order::Moment;
use std::alloc::Global;
use std::time::{Duration, Instant};

/// The approximate number of times that an alert is held against a silence between two looks at the clock.
const STRETCH: usize = 1_024;

/// The time, in microseconds, for which alerts are held against silences in a turn of the loop: about as long as a stretch of a
/// list takes.
const ENOUGH: u64 = 1_000;

/// The least number of silences that an alert is counted as held against, since each alert has a cost of its own.
const BESIDE: usize = 64;

/// The most steps that the long searches for one alert may take, which is about a second's work.
const MOST_STEPS: usize = 200_000_000;

/// The most time that the searches for one alert of a decision may take.
#[derive(Clone, Copy)]
enum Searches {
    Short,
    /// They are long, so the clock is looked at after each alert.
    Long,
    /// They would keep everyone waiting, so no more alerts are held against the silences.
    TooLong,
}

/// The progress of a decision up to a moment.
#[derive(Drop)]
struct Reached {
    deciding: Deciding,
    now: Moment,
    /// The searches for the alerts that are left.
    searches: Searches,
}

/// The outcome of a call by a program that sends pages.
#[derive(Drop)]
pub enum Called {
    /// There is no reply.
    Nothing,
    /// The call waits, or goes on in a later turn of the loop.
    Later(CallProgress),
    /// The call is refused.
    Refused(Refusal),
    /// The reply is made; the number counts the changes before its step sent anything.
    Made(ReplyBuilder, u64),
}

/// Returns the number of alerts that are held against this many silences between two looks at the clock.
fn stretch_over(silences: usize) -> usize {
    (STRETCH / silences.max(BESIDE)).max(1)
}

/// Returns whether a turn that began at `begun` has held alerts against silences for long enough now.
fn is_enough(begun: Option<Instant>, now: Option<Instant>) -> bool {
    match (begun, now) {
        (Some(begun), Some(now)) => {
            now.saturating_duration_since(begun) >= Duration::from_micros(ENOUGH)
        }
        _ => true,
    }
}

/// Returns how long the searches for one alert of a decision may take, by the patterns that are kept, those that are compiled for it
/// since there is no room for them, and the longest value of a label.
fn searches_for(instance: &Instance, ahead: &PatternsAhead, deciding: &Deciding) -> Searches {
    let longest = deciding.longest_value();
    let kept = instance.patterns().long_steps(longest);
    match kept.saturating_add(ahead.steps_beyond(longest)) {
        0 => Searches::Short,
        1..=MOST_STEPS => Searches::Long,
        _ => Searches::TooLong,
    }
}

/// Compiles patterns of silences for as long as a turn of the loop may take, and returns whether none is left.
fn compile_on<U: Backend>(
    backend: &U,
    ahead: &mut PatternsAhead,
    instance: &mut Instance,
    begun: Option<Instant>,
) -> bool
    ensures { instance.new ≡ instance.old }
{
    let now = backend.next_moment(instance.last());
    for _ in 0..u64::MAX {
        if ahead.resume(instance, now) {
            return true;
        }
        if is_enough(begun, backend.now()) {
            break;
        }
    }
    false
}

/// Holds more of the alerts against the silences, for as long as a turn of the loop may take, or all that are left. None is held
/// against them before their patterns are compiled, or if that might take too long.
fn ask_on<U: Backend>(
    backend: &U,
    ahead: &mut PatternsAhead,
    alloc: Global,
    instance: &mut Instance,
    deciding: Deciding,
) -> Result<Reached, Refusal>
    ensures steps { ForPages instance.old instance.new }
    ensures same { HoldsSame instance.old instance.new }
    ensures asked { IfOk result (λ reached. (question : Question) → IsUnderway question deciding → IsUnderway question reached.deciding) }
    ensures stopped { IfErr result (λ refusal. (question : Question) → IsUnderway question deciding →
        WhenTold (λ reply. AnswersQuestion question instance.old reply instance.new) (line_seen refusal)) }
{
    let begun = backend.now();
    let mut now = instance.last();
    if !compile_on(backend, ahead, instance, begun) {
        let searches = Searches::Short;
        return Ok(Reached {
            deciding,
            now,
            searches,
        });
    }
    let searches = searches_for(instance, ahead, &deciding);
    let most = match searches {
        Searches::Short => stretch_over(instance.silences().len()),
        Searches::Long => 1,
        Searches::TooLong => {
            return Ok(Reached {
                deciding,
                now,
                searches,
            });
        }
    };
    let mut left = deciding;
    for _ in 0..u64::MAX {
        now = backend.next_moment(instance.last());
        left = left.resume(alloc, instance, most, now)?;
        if left.is_asked() || is_enough(begun, backend.now()) {
            break;
        }
    }
    Ok(Reached {
        deciding: left,
        now,
        searches,
    })
}

/// Returns when it is this member's turn to answer a question that came now, or `None` if it answers at once.
fn turn_of<U: Backend>(backend: &U, instance: &Instance, question: &Question) -> Option<Instant> {
    if !question.waits() {
        return None;
    }
    let now = backend.next_moment(instance.last());
    let wait = time_between(now, instance.due_from(now)?);
    if wait == Duration::ZERO {
        return None;
    }
    backend.now()?.checked_add(wait)
}

/// Returns whether a limit has come by now.
fn is_over(limit: Option<Instant>, now: Option<Instant>) -> bool {
    match (limit, now) {
        (Some(limit), Some(now)) => limit <= now,
        _ => false,
    }
}

/// The time for which a request waits at most.
#[derive(Clone, Copy)]
struct Span {
    since: Instant,
    limit: Instant,
}

/// Returns the refusal of a request that comes while the member stops.
fn refused_by_stop() -> Called
    ensures { IsTurnedAwayFor Stops result }
{
    Called::Refused(Refusal::new(503, "member stops"))
}

/// Keeps a request waiting, or refuses it if too many wait.
fn wait_for_turn(turns: &mut Turns, turn: Turn) -> Called
    ensures { IsPutOff (request_of turn) result }
{
    if turns.begin() {
        Called::Later(CallProgress::Turn(turn))
    } else {
        Called::Refused(Refusal::new(503, "too many wait"))
    }
}

impl<U: Backend> ServerState<'_, U> {
    /// Answers a call of a program that sends pages, or keeps it until its turn.
    pub(super) fn answer_call(
        &mut self,
        instance: &mut Instance,
        connection: &mut ConnectionState,
        said: SessionOutput,
    )
        ensures steps { ForPages instance.old instance.new }
        ensures closes { Closes (talk_of connection.old) (talk_of connection.new) }
        ensures gone { KeepsGone (talk_of connection.old).saying (talk_of connection.new).saying }
        // PROMISE: A program that sends pages is replied what it asks for: the decision of its question, what came of its notice, or the log's list.
        ensures given { (request : Request) → (spoken said).request ≡ Some (Read.Whole request) → (talk_of connection.old).saying ≡ Silent →
            IsGiven request instance.old instance.new (talk_of connection.new).saying }
        ensures sent { PassesOn instance.old (outlets U.store_of U.outbound self.old) instance.new (outlets U.store_of U.outbound self.new) }
    {
        connection.session.stop();
        let SessionOutput { request, .. } = said;
        let Some(Read::Whole(request)) = request else {
            return;
        };
        let called = self.take_up(instance, request);
        self.follow_call(connection, called);
    }

    /// Continues a connection with the outcome of its call: a reply waits for the next commit if anything came since the last
    /// one.
    pub(super) fn follow_call(&self, connection: &mut ConnectionState, called: Called)
        ensures rests { Rests (talk_of connection.old) (talk_of connection.new) }
        ensures gone { KeepsGone (talk_of connection.old).saying (talk_of connection.new).saying }
        ensures follows { Follows called (talk_of connection.old).saying (talk_of connection.new).saying }
        ensures waits { (making : Making) (changes : ℕ) → called ≡ Called.Made making changes → uncommitted (U.store_of self.now.backend).commit_state ≡ true
            → WaitsAs (not (came (U.store_of self.now.backend).commit_state == changes)) connection.new.work }
    {
        match called {
            Called::Nothing => {}
            Called::Later(call) => connection.put_off(call),
            Called::Refused(refusal) => connection.refuse(self.alloc, &refusal),
            Called::Made(making, changes) => self.reply_by(connection, making, changes),
        }
    }

    /// Answers a request, or keeps it until its turn. A long one isn't read before its place in the line has come.
    fn take_up(&mut self, instance: &mut Instance, request: Request) -> Called
        ensures steps { ForPages instance.old instance.new }
        ensures called { IsCalled request instance.old result instance.new }
        ensures sent { PassesOn instance.old (outlets U.store_of U.outbound self.old) instance.new (outlets U.store_of U.outbound self.new) }
    {
        let due = Due {
            request,
            stage: TurnStage::Unread,
            limit: self.decide_limit(),
        };
        self.answer_in_line(instance, due)
    }

    /// Returns when a decision that begins now is broken off.
    fn decide_limit(&self) -> Option<Instant> {
        let now = self.backend.now()?;
        now.checked_add(self.backend.options().decide_limit)
    }

    /// Answers a request, or keeps it waiting for its place in the line if it is long.
    fn answer_in_line(&mut self, instance: &mut Instance, due: Due) -> Called
        ensures steps { ForPages instance.old instance.new }
        ensures called { IsCalled due.request instance.old result instance.new }
        ensures sent { PassesOn instance.old (outlets U.store_of U.outbound self.old) instance.new (outlets U.store_of U.outbound self.new) }
    {
        if is_long(&due.request) {
            Called::Later(CallProgress::Due(due))
        } else {
            self.answer_due(instance, due)
        }
    }

    /// Begins to answer a request whose place in the line has come.
    pub(super) fn answer_due(&mut self, instance: &mut Instance, due: Due) -> Called
        ensures steps { ForPages instance.old instance.new }
        ensures called { IsCalled due.request instance.old result instance.new }
        ensures sent { PassesOn instance.old (outlets U.store_of U.outbound self.old) instance.new (outlets U.store_of U.outbound self.new) }
    {
        if due.stage == TurnStage::Unread {
            self.answer_unread(instance, due.request, due.limit)
        } else {
            self.answer_in_turn(instance, due)
        }
    }

    /// Reads what a request asks, and answers it or keeps it until its turn.
    fn answer_unread(
        &mut self,
        instance: &mut Instance,
        request: Request,
        limit: Option<Instant>,
    ) -> Called
        ensures steps { ForPages instance.old instance.new }
        ensures called { IsCalled request instance.old result instance.new }
        ensures sent { PassesOn instance.old (outlets U.store_of U.outbound self.old) instance.new (outlets U.store_of U.outbound self.new) }
    {
        match parse_call(self.alloc, &request) {
            Ok(ParsedCall::Decide(question)) => match turn_of(&self.backend, instance, &question) {
                Some(due) => wait_for_turn(&mut self.turns, Turn::new(request, due)),
                None => {
                    let unheard = self.unheard(request);
                    self.begin_deciding(instance, question, unheard, limit)
                }
            },
            Ok(ParsedCall::Notified(notice)) => self.log_in_room(
                instance,
                notice,
                request_bytes(&request),
            ),
            Ok(ParsedCall::Log) => self.list_log(instance),
            Ok(ParsedCall::Alerts) => self.list_recent(),
            Err(refusal) => Called::Refused(refusal),
        }
    }

    /// Returns the request if there are Alertmanagers to be heard.
    fn unheard(&self, request: Request) -> Option<Request>
        ensures { IsOnly request result }
    {
        if self.asked.iter().any(|address| address.is_some()) {
            Some(request)
        } else {
            None
        }
    }

    /// Answers a request whose moment has come, or puts it into the line. If the member stops, the request is turned away.
    fn take_turn(&mut self, instance: &mut Instance, turn: Turn) -> Called
        ensures steps { ForPages instance.old instance.new }
        ensures called { IsCalled (request_of turn) instance.old result instance.new }
        ensures sent { PassesOn instance.old (outlets U.store_of U.outbound self.old) instance.new (outlets U.store_of U.outbound self.new) }
    {
        self.turns.end();
        if self.stops {
            return refused_by_stop();
        }
        let due = turn.into_due(self.decide_limit());
        self.answer_in_line(instance, due)
    }

    /// Continues a call whose moment has come. If the member stops, the call is turned away.
    pub(super) fn take_moment(&mut self, instance: &mut Instance, call: CallProgress) -> Called
        ensures steps { ForPages instance.old instance.new }
        ensures called { (request : Request) → IsProgressOf request call → IsCalled request instance.old result instance.new }
        ensures sent { PassesOn instance.old (outlets U.store_of U.outbound self.old) instance.new (outlets U.store_of U.outbound self.new) }
    {
        match call {
            CallProgress::Turn(turn) => self.take_turn(instance, turn),
            CallProgress::Due(_) | CallProgress::Deciding(_) if self.stops => refused_by_stop(),
            CallProgress::Due(due) => self.answer_due(instance, due),
            CallProgress::Deciding(deliberation) => self.resume_decision(instance, deliberation),
            other => Called::Later(other),
        }
    }

    /// Begins to answer a request that no longer waits.
    fn answer_in_turn(&mut self, instance: &mut Instance, due: Due) -> Called
        ensures steps { ForPages instance.old instance.new }
        ensures called { IsCalled due.request instance.old result instance.new }
        ensures sent { PassesOn instance.old (outlets U.store_of U.outbound self.old) instance.new (outlets U.store_of U.outbound self.new) }
    {
        let Due {
            request,
            stage,
            limit,
        } = due;
        match parse_call(self.alloc, &request) {
            Ok(ParsedCall::Decide(question)) => {
                let unheard = if stage == TurnStage::Heard {
                    None
                } else {
                    self.unheard(request)
                };
                self.begin_deciding(instance, question, unheard, limit)
            }
            Ok(_) => Called::Nothing,
            Err(refusal) => Called::Refused(refusal),
        }
    }

    /// Begins to answer a question, by the limit at the latest. `unheard` is its request if Alertmanagers are still to be
    /// heard.
    fn begin_deciding(
        &mut self,
        instance: &mut Instance,
        question: Question,
        unheard: Option<Request>,
        limit: Option<Instant>,
    ) -> Called
        ensures steps { ForPages instance.old instance.new }
        ensures called { (request : Request) → IsAsked request (Ok (ParsedCall.Decide question)) → IsOnly request unheard → IsCalled request instance.old result instance.new }
        ensures quiet { IsQuiet instance.old (outlets U.store_of U.outbound self.old) instance.new (outlets U.store_of U.outbound self.new) }
    {
        let alerts = question.message.alerts.len() as u64;
        self.backend.count(Counted::Steps(StepLabel::Mutes, alerts));
        // (if there is no memory for it, its alerts aren't among the recent ones that are listed)
        let _ = self.recent.note(self.alloc, &question.message);
        let deciding = Deciding::new(self.alloc, question);
        let deliberation = PendingDecision {
            deciding,
            unheard,
            limit,
        };
        self.resume_decision(instance, deliberation)
    }

    /// Holds more of the alerts against the silences, for as long as a turn of the loop may take. If none is left, the time is
    /// over, or one might take too long, the decision is made.
    pub(super) fn resume_decision(
        &mut self,
        instance: &mut Instance,
        deliberation: PendingDecision,
    ) -> Called
        ensures steps { ForPages instance.old instance.new }
        ensures called { (request : Request) → IsProgressOf request (CallProgress.Deciding deliberation) → IsCalled request instance.old result instance.new }
        ensures quiet { IsQuiet instance.old (outlets U.store_of U.outbound self.old) instance.new (outlets U.store_of U.outbound self.new) }
    {
        let PendingDecision {
            deciding,
            unheard,
            limit,
        } = deliberation;
        if is_over(limit, self.backend.now()) {
            return self.break_off(instance, deciding, unheard);
        }
        match ask_on(
            &self.backend,
            &mut self.ahead,
            self.alloc,
            instance,
            deciding,
        ) {
            Ok(reached) => self.decide_or_put_off(instance, reached, unheard, limit),
            Err(refusal) => Called::Refused(refusal),
        }
    }

    /// Makes the decision if no alert is left, or if holding one against the silences might take too long. Otherwise it is made in a
    /// later turn.
    fn decide_or_put_off(
        &mut self,
        instance: &mut Instance,
        reached: Reached,
        unheard: Option<Request>,
        limit: Option<Instant>,
    ) -> Called
        ensures steps { ForPages instance.old instance.new }
        ensures called { (request : Request) (question : Question) (start : InstanceState) → HoldsSame start instance.old →
            IsAsked request (Ok (ParsedCall.Decide question)) → IsUnderway question reached.deciding → IsOnly request unheard →
            IsCalled request start result instance.new }
        ensures quiet { IsQuiet instance.old (outlets U.store_of U.outbound self.old) instance.new (outlets U.store_of U.outbound self.new) }
    {
        let Reached {
            deciding,
            now,
            searches,
        } = reached;
        if deciding.is_asked() {
            self.decide(instance, deciding, unheard, now)
        } else if matches!(searches, Searches::TooLong) {
            self.break_off(instance, deciding, unheard)
        } else {
            Called::Later(CallProgress::Deciding(PendingDecision {
                deciding,
                unheard,
                limit,
            }))
        }
    }

    /// Decides although some alerts haven't been held against the silences: these count as muted by no silence.
    fn break_off(
        &mut self,
        instance: &mut Instance,
        deciding: Deciding,
        unheard: Option<Request>,
    ) -> Called
        ensures steps { ForPages instance.old instance.new }
        ensures called { (request : Request) (question : Question) (start : InstanceState) → HoldsSame start instance.old →
            IsAsked request (Ok (ParsedCall.Decide question)) → IsUnderway question deciding → IsOnly request unheard →
            IsCalled request start result instance.new }
        ensures quiet { IsQuiet instance.old (outlets U.store_of U.outbound self.old) instance.new (outlets U.store_of U.outbound self.new) }
    {
        let now = self.backend.next_moment(instance.last());
        let turn_seconds = seconds_in(self.backend.options().peer_timeout);
        let verdict = deciding.break_off(self.alloc, instance, Timing { now, turn_seconds });
        count_decided(&mut self.backend, verdict.why);
        self.answer_or_hear(verdict, unheard)
    }

    /// Decides after all alerts have been held against the silences. If Alertmanagers are still to be heard, the answer that
    /// the group is to be notified waits for them.
    fn decide(
        &mut self,
        instance: &mut Instance,
        deciding: Deciding,
        unheard: Option<Request>,
        now: Moment,
    ) -> Called
        ensures steps { ForPages instance.old instance.new }
        ensures called { (request : Request) (question : Question) (start : InstanceState) → HoldsSame start instance.old →
            IsAsked request (Ok (ParsedCall.Decide question)) → IsUnderway question deciding → IsOnly request unheard →
            IsCalled request start result instance.new }
        ensures quiet { IsQuiet instance.old (outlets U.store_of U.outbound self.old) instance.new (outlets U.store_of U.outbound self.new) }
    {
        let turn_seconds = seconds_in(self.backend.options().peer_timeout);
        let verdict = deciding.decide(self.alloc, instance, Timing { now, turn_seconds });
        count_decided(&mut self.backend, verdict.why);
        self.answer_or_hear(verdict, unheard)
    }

    /// Answers with a decision, or keeps its request waiting for exchanges with the Alertmanagers, which begin now.
    fn answer_or_hear(&mut self, verdict: ReasonedReply, unheard: Option<Request>) -> Called
        ensures gives { GivesOrWaits verdict.reply unheard result }
        ensures stays { outlets U.store_of U.outbound self.new ≡ outlets U.store_of U.outbound self.old }
    {
        let is_notified = verdict.is_notified();
        let ReasonedReply { reply, why } = verdict;
        match (unheard, self.span()) {
            (Some(request), Some(span)) if is_notified => { self.wait_for_exchanges(request, span) }
            _ => {
                count_decision(&mut self.backend, why);
                Called::Made(
                    ReplyBuilder::Whole(reply),
                    self.backend.commit_state().changes(),
                )
            }
        }
    }

    /// Returns the time for which a request waits for exchanges if it begins to wait now.
    fn span(&self) -> Option<Span> {
        let since = self.backend.now()?;
        let limit = since.checked_add(self.backend.options().time_limit)?;
        Some(Span { since, limit })
    }

    /// Keeps a request waiting for exchanges with the Alertmanagers that begin in a new round.
    fn wait_for_exchanges(&mut self, request: Request, span: Span) -> Called
        ensures put_off { IsPutOff request result }
        ensures stays { outlets U.store_of U.outbound self.new ≡ outlets U.store_of U.outbound self.old }
    {
        let Span { since, limit } = span;
        self.round = self.round.saturating_add(1);
        let turn = Turn::for_exchanges(request, self.round, since, limit);
        wait_for_turn(&mut self.turns, turn)
    }

    /// Logs what was notified if the log has room for this many bytes.
    fn log_in_room(&mut self, instance: &mut Instance, notice: Notice, bytes: u64) -> Called
        ensures steps { ForPages instance.old instance.new }
        ensures called { (request : Request) → IsAsked request (Ok (ParsedCall.Notified notice)) → IsCalled request instance.old result instance.new }
        ensures sent { PassesOn instance.old (outlets U.store_of U.outbound self.old) instance.new (outlets U.store_of U.outbound self.new) }
    {
        if !self.backend.has_room_for_notice(instance, bytes) {
            return Called::Refused(Refusal::new(500, "state too large"));
        }
        self.backend.take(Incoming {
            silences: 0,
            log: bytes,
            may_change: true,
        });
        self.log(instance, notice)
    }

    /// Logs what was notified.
    fn log(&mut self, instance: &mut Instance, notice: Notice) -> Called
        ensures steps { ForPages instance.old instance.new }
        ensures called { (request : Request) → IsAsked request (Ok (ParsedCall.Notified notice)) → IsCalled request instance.old result instance.new }
        // PROMISE: What the step of a notice sends to peers waits behind what waited before, in order, or memory ran out, and just those frames are counted as not sent.
        ensures sent { PassesOn instance.old (outlets U.store_of U.outbound self.old) instance.new (outlets U.store_of U.outbound self.new) }
    {
        let now = self.backend.next_moment(instance.last());
        let PendingAnswer { making, outbox } = log_notice(self.alloc, instance, notice, now);
        let changes = self.backend.commit_state().changes();
        self.backend.follow(instance.config(), None, outbox, None);
        Called::Made(making, changes)
    }

    /// Begins to write the log's live entries.
    fn list_log(&self, instance: &Instance) -> Called
        ensures { (request : Request) → IsAsked request (Ok ParsedCall.Log) → IsCalled request instance.now result instance.now }
    {
        let now = self.backend.next_moment(instance.last());
        match begin_log(self.alloc, instance, now) {
            Ok(writing) => Called::Later(CallProgress::Log(writing)),
            Err(refusal) => Called::Refused(refusal),
        }
    }

    /// Lists the alerts of the most recent messages.
    fn list_recent(&self) -> Called
        ensures { (request : Request) (stand : InstanceState) → IsAsked request (Ok ParsedCall.Alerts) → IsCalled request stand result stand }
    {
        let reply = self.recent.told(self.alloc);
        Called::Made(
            ReplyBuilder::Whole(reply),
            self.backend.commit_state().changes(),
        )
    }
}
