//! The effects of an event on a member and on the cluster.

ghost use Rattle.std.specs.Prelude.{◌≡◌, ◌<◌, ◌≤◌, All, IfOk, IfSome, length, map};
ghost use Rattle.am_wire.specs.declared.unknown.Unknown.TheVariants.{Drop};
ghost use Rattle.am_silence.specs.Mesh.{IsMesh};
ghost use Rattle.am_nflog.specs.Mesh.{IsMesh as IsLogMesh};
ghost use Rattle.am_instance.specs.Laws.{HasMaps};
ghost use Rattle.am_instance.specs.OneStep.{IsStep};
ghost use Rattle.am_instance.specs.Steps.{IsAccepted, brought};
ghost use Rattle.am_cluster.specs.BothStates.{log_state, silence_state};
ghost use Rattle.am_cluster.specs.Contents.{IsValue, delivery_of};
ghost use Rattle.am_cluster.specs.Recorded.{HasSource};
ghost use Rattle.am_cluster.specs.Acting.{CanHappen, HasActed};
ghost use Rattle.am_cluster.specs.Events.{CanHave, IsEvent};
ghost use Rattle.am_cluster.specs.Lives.{OfMember};
ghost use Rattle.am_cluster.specs.Recording.{ComesWith, IsNoRefusal, IsRoomFor};

use crate::carried::{AnyVersion, SplitVersions, versions_in_frame};
use crate::cluster::Cluster;
use crate::error::ClusterError;
use crate::flight::Flight;
use crate::journal::Journal;
use crate::recording::{PendingDelivery, kind_of, write_answer};
use crate::step_laws::{
    collecting_leaves_nothing_out, few_are_made, sent_frames_are_sound, steps_are_possible,
    values_are_delivered,
};
use crate::writing::Entry;
use am_instance::{Event, Instance, Outcome, Reply, StepError};
use am_runs::DeliverySource;
use am_version_order::{Moment, Version, versions_are_values};
use am_wire::Unknown;
use std::alloc::{AllocError, Global};

/// Returns the versions that an event brings from a peer.
fn brought_by(alloc: Global, event: &Event) -> Result<Vec<AnyVersion>, AllocError>
    ensures versions { IfOk result (λ versions. map delivery_of versions.items ≡ brought Drop event.now) }
    ensures values { IfOk result (λ versions. All IsValue (map delivery_of versions.items)) }
{
    match event {
        Event::Frame { frame, .. } => versions_in_frame(alloc, Unknown::Drop, frame),
        _ => Ok(Vec::new(alloc)),
    }
}

/// Returns the versions that come with an event, and all the room that is needed to record it.
fn coming_with(alloc: Global, event: &Event) -> Result<PendingDelivery, AllocError>
    ensures coming { IfOk result (λ coming. ComesWith coming event.now) }
    ensures values { IfOk result (λ coming. All IsValue (brought Drop event.now)) }
    ensures room { IfOk result (λ coming. IsRoomFor coming.parted (length coming.versions.items)) }
{
    let versions = brought_by(alloc, event)?;
    let parted = SplitVersions::with_room(alloc, versions.len().max(1))?;
    Ok(PendingDelivery {
        kind: kind_of(event),
        versions,
        parted,
    })
}

/// States that the versions that a step made are values of their types. Nothing is changed.
fn made_are_values(answer: &Result<Outcome, StepError>)
    ensures silences { IfOk answer.now (λ outcome. All IsMesh outcome.made.silences.items) }
    ensures log { IfOk answer.now (λ outcome. IfSome outcome.made.log IsLogMesh) }
{
    if let Ok(outcome) = answer {
        versions_are_values(&outcome.made.silences);
        if let Some(entry) = &outcome.made.log {
            let _content = entry.canonical();
        }
    }
}

/// Makes the step of a member's instance, and states that the versions that it made and holds then are values of their
/// types.
fn step_of(instance: &mut Instance, event: Event, now: Moment) -> Result<Outcome, StepError>
    requires { IsAccepted instance.old event now }
    ensures step { IsStep instance.old event now result instance.new }
    ensures not_refused { IsNoRefusal result }
    ensures silences { IfOk result (λ outcome. All IsMesh outcome.made.silences.items) }
    ensures log { IfOk result (λ outcome. IfSome outcome.made.log IsLogMesh) }
    ensures held_silences { All IsMesh instance.new.silences }
    ensures held_log { All IsLogMesh instance.new.log }
    ensures maps { HasMaps instance.new }
{
    let answer = instance.step(event, now);
    made_are_values(&answer);
    instance.silences().has_values();
    instance.log().has_values();
    answer
}

/// Makes the step of an instance, and records it.
fn step_and_record(
    alloc: Global,
    instance: &mut Instance,
    journal: &mut Journal,
    flights: &mut Vec<Flight>,
    entry: &Entry,
    coming: PendingDelivery,
    event: Event,
) -> Result<Reply, ClusterError>
    requires ready { CanHappen journal.old entry.now event instance.old }
    requires coming { ComesWith coming event }
    requires values { All IsValue (brought Drop event) }
    requires room { IsRoomFor coming.parted (length coming.versions.items) }
    requires enough { 0 < journal.old.room }
    ensures { HasActed journal.old flights.old.items entry.now event instance.old result journal.new flights.new.items instance.new }
{
    steps_are_possible();
    values_are_delivered();
    few_are_made();
    collecting_leaves_nothing_out();
    sent_frames_are_sound();
    let answer = step_of(instance, event, entry.moment);
    write_answer(alloc, journal, flights, entry, coming, answer)
}

impl Cluster {
    /// Applies an event to the member at a place, which is able to take it.
    pub(crate) fn apply_event(
        &mut self,
        place: usize,
        event: Event,
        source: DeliverySource,
        now: Moment,
        line: u64,
    ) -> Result<Reply, ClusterError>
        requires within { place < length self.old.replicas }
        requires ready { OfMember self.old place (λ replica. CanHave replica event now) }
        requires silences { HasSource silence_state Drop (length self.old.replicas) self.old.silences now event source }
        requires log { HasSource log_state Drop (length self.old.replicas) self.old.log now event source }
        ensures { OfMember self.old place (λ replica. IsEvent self.old place replica event source now line result self.new) }
    {
        self.journal.is_told_of_both();
        let coming = coming_with(self.alloc, &event)?;
        self.journal.make_room(1)?;
        let entry = Entry {
            place,
            moment: now,
            source,
            line,
        };
        let instance = &mut self.members[place].instance;
        let (journal, flights) = (&mut self.journal, &mut self.flights);
        step_and_record(
            self.alloc, instance, journal, flights, &entry, coming, event,
        )
    }
}
