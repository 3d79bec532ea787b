//! Laws of the frames that a step of an instance sent, and of the number of versions that it made.

ghost use Rattle.std.specs.Prelude.{◌≡◌, ◌≤◌, [], ℕ, length, All, None, true, Ok};
ghost use Rattle.am_gossip.specs.declared.frame.Frame.{Frame};
ghost use Rattle.am_instance.specs.declared.event.Event.{Event};
ghost use Rattle.am_instance.specs.declared.event.Event.TheVariants as events;
ghost use Rattle.am_instance.specs.declared.reply.Outcome.{Outcome};
ghost use Rattle.am_instance.specs.Configs.{is_peer};
ghost use Rattle.am_instance.specs.Deliveries.{first_fault, parts_of, rows_in};
ghost use Rattle.am_instance.specs.OneStep.{IsStep};
ghost use Rattle.am_instance.specs.Replies.{IsNothing};
ghost use Rattle.am_instance.specs.InstanceStates.{InstanceState, HoldsWhole};
ghost use Rattle.am_instance.specs.Steps.{collects};
ghost use Rattle.am_cluster.specs.Recorded.{AreValues};

/// States that if nothing of what is held is lost, no row of a frame that a step sent is at fault, and each frame goes to a peer.
pub fn sent_frames_are_sound()
    // PROMISE: No frame that is sent has a fault.
    ensures sound { (old new : InstanceState) (event : Event) (now : ℕ) (outcome : Outcome) → IsStep old event now (Ok outcome) new →
        AreValues old.config.unknown event outcome new → HoldsWhole old →
        All (λ frame. first_fault (rows_in old.config.unknown (parts_of frame.1)) ≡ None) outcome.frames.items }
    ensures addressed { (old new : InstanceState) (event : Event) (now : ℕ) (outcome : Outcome) → IsStep old event now (Ok outcome) new →
        All (λ frame. is_peer old.config frame.0 ≡ true) outcome.frames.items }
{}

/// States that an event that collects sends no frame, and leaves none out.
pub fn collecting_leaves_nothing_out()
    ensures frames { (old new : InstanceState) (event : Event) (now : ℕ) (outcome : Outcome) → collects event ≡ true →
        IsStep old event now (Ok outcome) new → outcome.frames.items ≡ [] }
    ensures memory { (old new : InstanceState) (event : Event) (now : ℕ) (outcome : Outcome) → collects event ≡ true →
        IsStep old event now (Ok outcome) new → outcome.unsent.memory ≡ 0 }
    ensures limit { (old new : InstanceState) (event : Event) (now : ℕ) (outcome : Outcome) → collects event ≡ true →
        IsStep old event now (Ok outcome) new → outcome.unsent.limit ≡ 0 }
{}

/// States that a step makes at most two silences, and one that takes a frame makes nothing.
pub fn few_are_made()
    ensures silences { (old new : InstanceState) (event : Event) (now : ℕ) (outcome : Outcome) → IsStep old event now (Ok outcome) new →
        length outcome.made.silences.items ≤ 2 }
    ensures arrivals { (old new : InstanceState) (sender : ℕ) (frame : Frame) (now : ℕ) (outcome : Outcome) →
        IsStep old (events.Frame sender frame) now (Ok outcome) new → IsNothing outcome.made }
{}
