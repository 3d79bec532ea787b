//! Laws of steps that are answered, and of the steps by which a cluster goes on. They hold of the values that contracts see
//! before and after a call.

ghost use Rattle.std.specs.Prelude.{◌≡◌, ℕ, Ok, Result, Some};
ghost use Rattle.am_instance.specs.declared.event.Event.{Event};
ghost use Rattle.am_instance.specs.declared.reply.Reply.{Reply};
ghost use Rattle.am_schedule.specs.declared.step.Action.{Action};
ghost use Rattle.am_cluster.specs.Answered.{Asks, GoesOnBy, Replies, moment_of};
ghost use Rattle.am_cluster.specs.Clusters.{IsCluster};
ghost use Rattle.am_cluster.specs.declared.error.ClusterError.{ClusterError};
ghost use Rattle.am_cluster.specs.declared.error.SettleError.{SettleError};
ghost use Rattle.am_cluster.specs.Replicas.{Extends};
ghost use Rattle.am_cluster.specs.Settling.{IsSettle};
ghost use Rattle.am_cluster.specs.Steps.{IsStepped};
ghost use Rattle.am_cluster.specs.Worlds.{Replica, World};

/// States that a step with a moment that is answered, by a member or as a delivery, extends both runs by one step with that
/// moment.
pub fn answered_steps_go_on()
    ensures { (old new : World) (action : Action) (now line : ℕ) (reply : Reply) → IsCluster old → moment_of action ≡ Some now →
        IsStepped old action line (Ok reply) new → GoesOnBy old new now }
{}

/// States that the answer to a line that asks a member for an event is the reply of that member, in its state before the
/// step.
pub fn answered_steps_reply()
    ensures { (old new : World) (action : Action) (now line place : ℕ) (replica : Replica) (event : Event) (reply : Reply) →
        Asks old action place replica event now → IsStepped old action line (Ok reply) new → Replies replica event now reply }
{}

/// States that any step, answered or refused, extends both runs by its record, with its moment and its line, or leaves them
/// as they are.
pub fn steps_go_on()
    ensures { (old new : World) (action : Action) (line : ℕ) (result : Result Reply ClusterError) → IsCluster old →
        IsStepped old action line result new → Extends old new (moment_of action) line }
{}

/// States that any settle extends both runs by its records, with its moment and its line, or leaves them as they are.
pub fn settles_go_on()
    ensures { (old new : World) (now line : ℕ) (result : Result Unit SettleError) →
        IsSettle old now line result new → Extends old new (Some now) line }
{}
