//! Laws of the steps of instances as steps of runs.

ghost use Rattle.std.specs.Prelude.{◌≡◌, ℕ, map, All, None, IfSome};
ghost use Rattle.am_wire.specs.declared.unknown.Unknown.{Unknown};
ghost use Rattle.am_silence.specs.Mesh.{IsMesh};
ghost use Rattle.am_nflog.specs.Mesh.{IsMesh as IsLogMesh};
ghost use Rattle.am_gossip.specs.declared.frame.Frame.TheVariants.{Pull};
ghost use Rattle.am_instance.specs.declared.event.Event.{Event};
ghost use Rattle.am_instance.specs.declared.event.Event.TheVariants as events;
ghost use Rattle.am_instance.specs.declared.reply.Made.{Made};
ghost use Rattle.am_instance.specs.Configs.{Settings};
ghost use Rattle.am_instance.specs.Deliveries.Delivery.{OfSilence, OfEntry};
ghost use Rattle.am_instance.specs.InstanceStates.{InstanceState};
ghost use Rattle.am_instance.specs.Steps.{brought, delivers, fault_of};
ghost use Rattle.am_instance.specs.Sendings.{whole_state};
ghost use Rattle.am_cluster.specs.BothStates.{log_state, silence_state};
ghost use Rattle.am_cluster.specs.Contents.{held_in, IsReadable, IsValue};
ghost use Rattle.am_cluster.specs.StepLaws.{FramesAreFlights, FramesComeFromFlights, LentMapsAreItsLenders, MembersGoOn};
ghost use Rattle.am_cluster.specs.StepLaws.{OthersStay, OwnMemberChanges, StartsGoOn, StepsArePossible};

pub use crate::sent::{collecting_leaves_nothing_out, few_are_made, sent_frames_are_sound};

/// States that a member's map goes on as its past does: after a step it is what the past with the recorded step leaves.
pub fn members_go_on()
    ensures silences { MembersGoOn silence_state }
    ensures log { MembersGoOn log_state }
{}

/// States that a recorded step changes the member at its place, and no other one.
pub fn only_the_member_changes()
    ensures silences { OwnMemberChanges silence_state }
    ensures log { OwnMemberChanges log_state }
    ensures other_silences { OthersStay silence_state }
    ensures other_logs { OthersStay log_state }
{}

/// States that a member that is started goes on with the map that was saved of it, from the moment of the start.
pub fn starts_go_on()
    ensures silences { StartsGoOn silence_state }
    ensures log { StartsGoOn log_state }
{}

/// States that a step of an instance that is a member of a run can have happened in it.
pub fn steps_are_possible()
    ensures silences { StepsArePossible silence_state }
    ensures log { StepsArePossible log_state }
{}

/// States that what a step brought and made are values, if each part is.
pub fn values_are_delivered()
    ensures { (unknown : Unknown) (event : Event) (made : Made) → All IsValue (brought unknown event) → All IsMesh made.silences.items → IfSome made.log IsLogMesh →
        All IsValue (delivers unknown event made) }
{}

/// States that a Pull of the maps of a running member brings them whole, without a fault, and that they come from that member.
pub fn lent_maps_come_from_their_lender()
    ensures silences { LentMapsAreItsLenders silence_state }
    ensures log { LentMapsAreItsLenders log_state }
    ensures sound { (config : Settings) (sender now : ℕ) (lent : InstanceState) → All (IsReadable config.unknown) (map OfSilence lent.silences) →
        All (IsReadable config.unknown) (map OfEntry lent.log) →
        fault_of config now (events.Frame sender (Pull (whole_state lent.silences lent.log))) ≡ None }
    ensures whole { (unknown : Unknown) (sender : ℕ) (lent : InstanceState) → All (IsReadable unknown) (map OfSilence lent.silences) →
        All (IsReadable unknown) (map OfEntry lent.log) →
        brought unknown (events.Frame sender (Pull (whole_state lent.silences lent.log))) ≡ held_in lent.silences lent.log }
{}

/// States that the frames that a step left in flight are the flights that its recorded step adds.
pub fn frames_are_flights()
    ensures silences { FramesAreFlights silence_state }
    ensures log { FramesAreFlights log_state }
{}

/// States that what a frame brings comes from its flight.
pub fn frames_come_from_their_flights()
    ensures silences { FramesComeFromFlights silence_state }
    ensures log { FramesComeFromFlights log_state }
{}
