//! Requests of people and tools to an instance.

ghost use Rattle.std.specs.Prelude.{◌≡◌, [], ◌∷◌, is_some, None, true, OnErr, IfOk, IfErr};
ghost use Rattle.std.specs.Option.{option_copied};
ghost use Rattle.am_silence.specs.Ids.{id_text};
ghost use Rattle.am_silence.specs.Plans.{versions};
ghost use Rattle.am_silence.specs.Refusals.{unread_refusal};
ghost use Rattle.am_silence.specs.declared.error.SilenceError.TheVariants as silence_errors;
ghost use Rattle.am_matcher.specs.Matching.{has_regexp};
ghost use Rattle.am_matcher.specs.Dialects.{IsVerdictIn};
ghost use Rattle.am_instance.specs.InstanceStates.{silence_at};
ghost use Rattle.am_gossip.specs.declared.refusals.StepError.TheVariants as errors;
ghost use Rattle.am_instance.specs.declared.event.Event.TheVariants as events;
ghost use Rattle.am_instance.specs.declared.event.Request.TheVariants as requests;
ghost use Rattle.am_instance.specs.Configs.{peers_but};
ghost use Rattle.am_instance.specs.Deliveries.Delivery.{OfSilence};
ghost use Rattle.am_instance.specs.declared.reply.Reply.TheVariants as replies;
ghost use Rattle.am_instance.specs.Changes.{only_if};
ghost use Rattle.am_instance.specs.Sendings.{Sends, deltas_to, nothing_sent, sent_by};
ghost use Rattle.am_instance.specs.Replies.{AreSilencesMade, IsNothing, posted_id, posted_over};
ghost use Rattle.am_instance.specs.Steps.{IsPlanned, IsPutHere, IsTurnedAway, IsWork, is_changed, post_refusal};

use crate::event::Request;
use crate::frame_sender::FrameSender;
use crate::frames::outcome;
use crate::instance::Instance;
use crate::reply::{Made, Outcome, Reply};
use crate::views::{silence_in_view, silences_shown};
use am_gossip::{StateKey, StepError};
use am_matcher::Filter;
use am_merge::{Held, Taken};
use am_silence::{
    Matchers, MeshSilence, Plan, Posted, SilenceError, Verdict, fresh_id, plan_expire, plan_post,
    refused_unread,
};
use am_version_order::{Moment, Version};
use am_wire::Text;
use std::alloc::{AllocError, Global};

impl Instance {
    /// Answers a request.
    pub(crate) fn answer(&mut self, request: Request, now: Moment) -> Result<Outcome, StepError>
        ensures { IsWork self.old (events.Request request) now result self.new }
    {
        match request {
            Request::List { filters } => self.list(filters, now),
            Request::Get { id } => self.get(&id, now),
            Request::Post { posted, bits } => self.post(posted, bits, now),
            Request::Delete { id } => self.delete(&id, now),
        }
    }

    /// Answers with the silences in view that pass all filters.
    fn list(&self, mut filters: Vec<Filter>, now: Moment) -> Result<Outcome, StepError>
        ensures { IsWork self.now (events.Request (requests.List filters)) now result self.now }
    {
        let rows = silences_shown(self.alloc, &self.silences, &mut filters, now)?;
        Ok(quiet(self.alloc, Reply::Silences(rows)))
    }

    /// Answers with the silence with this identifier.
    fn get(&self, id: &Text, now: Moment) -> Result<Outcome, StepError>
        ensures { IsWork self.now (events.Request (requests.Get id.now)) now result self.now }
    {
        let Some(version) = silence_in_view(&self.silences, id, now) else {
            return Ok(quiet(self.alloc, Reply::Refused(SilenceError::NotFound)));
        };
        let state = version.state_at(now);
        let copy = version.try_clone(self.alloc)?;
        Ok(quiet(self.alloc, Reply::Silence(copy, state)))
    }

    /// Creates or updates a silence.
    fn post(&mut self, posted: Posted, bits: u128, now: Moment) -> Result<Outcome, StepError>
        ensures { IsWork self.old (events.Request (requests.Post posted bits)) now result self.new }
    {
        if let Some(error) = self.refused_unread(&posted, now) {
            return self.refuse(error);
        }
        let verdict = self.judge(&posted.matchers)?;
        match self.plan(posted, verdict, bits, now) {
            Ok(plan) => self.carry_out(plan, now),
            Err(error) => self.refuse(error),
        }
    }

    /// Returns the reason why a post is refused before its patterns are read, or `None`.
    fn refused_unread(&self, posted: &Posted, now: Moment) -> Option<SilenceError>
        ensures { result ≡ unread_refusal (posted_over now self.now.silences posted.now.id) posted.now }
    {
        let held = posted_over(&self.silences, posted.id.as_ref(), now);
        refused_unread(held, posted)
    }

    /// Answers that a request is refused with this error.
    fn refuse(&self, error: SilenceError) -> Result<Outcome, StepError>
        ensures refused { IfOk result (IsTurnedAway error) }
        ensures memory { IfErr result (λ e. (e ≡ errors.Memory 0) × (error ≡ silence_errors.Memory)) }
    {
        match error {
            SilenceError::Memory => Err(StepError::Memory { taken: 0 }),
            error => Ok(quiet(self.alloc, Reply::Refused(error))),
        }
    }

    /// Returns the verdict on posted matchers.
    fn judge(&mut self, matchers: &Matchers) -> Result<Verdict, AllocError>
        ensures verdict { IfOk result (IsVerdictIn self.new.config.dialect matchers.now) }
        ensures memory { OnErr result (has_regexp matchers.now ≡ true) }
        ensures same { self.new ≡ self.old }
    {
        let dialect = self.config.dialect();
        self.patterns.verdict_in(dialect, matchers)
    }

    /// Returns the plan of a post whose matchers were judged, or the reason why it is refused.
    fn plan(
        &self,
        posted: Posted,
        verdict: Verdict,
        bits: u128,
        now: Moment,
    ) -> Result<Plan, SilenceError>
        requires { IsVerdictIn self.now.config.dialect posted.matchers verdict }
        ensures planned { IsPlanned self.now posted bits now result }
        ensures memory { IfErr result (λ e. e ≡ silence_errors.Memory → post_refusal self.now posted bits now verdict ≡ None) }
    {
        let id_held = self.is_fresh_held(bits);
        let held = posted_over(&self.silences, posted.id.as_ref(), now);
        let retention = self.config.retention();
        plan_post(
            self.alloc, held, posted, verdict, now, bits, id_held, retention,
        )
    }

    /// Returns whether the identifier made of random bits is held, live or not. If there is no memory for a copy of the
    /// identifier, all held ones are compared.
    fn is_fresh_held(&self, bits: u128) -> bool
        ensures { result ≡ is_some (silence_at self.now.silences (id_text bits)) }
    {
        let fresh = fresh_id(bits);
        match Text::copied(self.alloc, fresh.as_str()) {
            Ok(id) => is_held(&self.silences, &id),
            Err(_) => is_among(&self.silences, fresh.as_str()),
        }
    }

    /// Takes the versions of a plan, the new silence first.
    fn carry_out(&mut self, plan: Plan, now: Moment) -> Result<Outcome, StepError>
        ensures done { IfOk result (λ outcome. IsPutHere self.old (versions plan) (replies.Posted (posted_id plan)) now outcome self.new) }
        ensures err { IfErr result (λ e. e ≡ errors.Memory 0) }
        ensures unchanged { OnErr result (self.new ≡ self.old) }
    {
        let id = posted_id(&plan).try_clone(self.alloc)?;
        let reply = Reply::Posted(id);
        match plan {
            Plan::Update(version) => self.put_one(version, reply, now),
            Plan::Create(version) => self.put_one(version, reply, now),
            Plan::Replace { new, old } => self.put_pair(new, old, reply, now),
        }
    }

    /// Ends a silence.
    fn delete(&mut self, id: &Text, now: Moment) -> Result<Outcome, StepError>
        ensures { IsWork self.old (events.Request (requests.Delete id.now)) now result self.new }
    {
        let held = silence_in_view(&self.silences, id, now);
        match plan_expire(self.alloc, held, now, self.config.retention()) {
            Ok(version) => self.put_one(version, Reply::Deleted, now),
            Err(error) => self.refuse(error),
        }
    }

    /// Takes a version of a silence that was made here, and sends it on if it changes the map.
    fn put_one(
        &mut self,
        version: MeshSilence,
        reply: Reply,
        now: Moment,
    ) -> Result<Outcome, StepError>
        ensures put { IfOk result (λ outcome. IsPutHere self.old (version ∷ []) reply now outcome self.new) }
        ensures err { IfErr result (λ e. e ≡ errors.Memory 0) }
        ensures unchanged { OnErr result (self.new ≡ self.old) }
    {
        let made = copies_of_one(self.alloc, &version)?;
        let taken = self.silences.take(version, now)?;
        let mut outbox = FrameSender::new(self.alloc);
        self.send_on(taken, &made[0], &mut outbox);
        Ok(made_outcome(reply, outbox, made))
    }

    /// Takes a new silence and the end of another, or neither, and sends on the versions that change the map.
    fn put_pair(
        &mut self,
        new: MeshSilence,
        old: MeshSilence,
        reply: Reply,
        now: Moment,
    ) -> Result<Outcome, StepError>
        ensures put { IfOk result (λ outcome. IsPutHere self.old (new ∷ old ∷ []) reply now outcome self.new) }
        ensures err { IfErr result (λ e. e ≡ errors.Memory 0) }
        ensures unchanged { OnErr result (self.new ≡ self.old) }
    {
        let alloc = self.alloc;
        let made = copies_of_pair(alloc, &new, &old)?;
        let (first, second) = self.silences.take_pair(new, old, now)?;
        let mut outbox = FrameSender::new(alloc);
        self.send_on(first, &made[0], &mut outbox);
        self.send_on(second, &made[1], &mut outbox);
        Ok(made_outcome(reply, outbox, made))
    }

    /// Sends a version that was made here to all peers, if taking it changed the map.
    fn send_on(&self, taken: Taken, version: &MeshSilence, outbox: &mut FrameSender)
        ensures { Sends (deltas_to (peers_but self.now.config self.now.config.place)
            (only_if (is_changed taken) (OfSilence version.now))) outbox.old outbox.new }
    {
        if is_changed(taken) {
            outbox.send_version(
                self.route(self.config.place()),
                StateKey::Sil,
                version.canonical(),
            );
        }
    }
}

/// Returns whether an identifier is held, live or not.
fn is_held(silences: &Held<MeshSilence>, id: &Text) -> bool
    ensures { result ≡ is_some (silence_at silences.now id.now) }
{
    silences.get(id).is_some()
}

/// Returns the same as [`is_held`], by comparing one silence after the other. Nothing is allocated.
fn is_among(silences: &Held<MeshSilence>, id: &str) -> bool
    ensures { result ≡ is_some (silence_at silences.now id.now) }
{
    for silence in silences.iter() {
        if silence.key().as_str().cmp(id).is_eq() {
            return true;
        }
    }
    false
}

/// Returns the silence in view with the posted identifier, if there is one.
fn posted_over<'a>(
    silences: &'a Held<MeshSilence>,
    id: Option<&Text>,
    now: Moment,
) -> Option<&'a MeshSilence>
    ensures { option_copied result ≡ posted_over now silences.now (option_copied id.entry) }
{
    match id {
        Some(id) => silence_in_view(silences, id, now),
        None => None,
    }
}

/// Returns whether a version that was taken changed the map.
pub(crate) fn is_changed(taken: Taken) -> bool
    ensures { result ≡ is_changed taken }
{
    matches!(taken, Taken::Changed)
}

/// Returns a copy of a version.
fn copies_of_one(alloc: Global, version: &MeshSilence) -> Result<Vec<MeshSilence>, AllocError>
    ensures { IfOk result (λ copies. copies.items ≡ version.now ∷ []) }
{
    let mut copies = Vec::with_capacity(alloc, 1)?;
    copies.push(version.try_clone(alloc)?)?;
    Ok(copies)
}

/// Returns copies of two versions, in order.
fn copies_of_pair(
    alloc: Global,
    first: &MeshSilence,
    second: &MeshSilence,
) -> Result<Vec<MeshSilence>, AllocError>
    ensures { IfOk result (λ copies. copies.items ≡ first.now ∷ second.now ∷ []) }
{
    let mut copies = Vec::with_capacity(alloc, 2)?;
    copies.push(first.try_clone(alloc)?)?;
    copies.push(second.try_clone(alloc)?)?;
    Ok(copies)
}

/// Returns the identifier of the silence that a plan creates or updates.
fn posted_id(plan: &Plan) -> &Text
    ensures { result.now ≡ posted_id plan.now }
{
    match plan {
        Plan::Update(version) | Plan::Create(version) => version.key(),
        Plan::Replace { new, .. } => new.key(),
    }
}

/// Returns an outcome in which nothing was made here, and nothing is sent.
pub(crate) fn quiet(alloc: Global, reply: Reply) -> Outcome
    ensures reply { result.reply ≡ reply }
    ensures sent { sent_by result ≡ nothing_sent }
    ensures made { IsNothing result.made }
{
    outcome(alloc, reply, FrameSender::new(alloc))
}

/// Returns an outcome in which these silences were made here.
fn made_outcome(reply: Reply, outbox: FrameSender, silences: Vec<MeshSilence>) -> Outcome
    ensures reply { result.reply ≡ reply }
    ensures sent { sent_by result ≡ outbox }
    ensures made { AreSilencesMade result.made silences.items }
{
    let FrameSender { frames, unsent } = outbox;
    Outcome {
        reply,
        frames,
        unsent,
        made: Made {
            silences,
            log: None,
        },
    }
}
