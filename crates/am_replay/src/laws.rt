//! Laws of all runs of a cluster, of a cluster's states, and of all steps of an instance; and the law that a member prints
//! the versions that it shows.

ghost use Rattle.std.specs.Prelude.{◌≡◌, ℕ, List, Some};
ghost use Rattle.am_instance.specs.InstanceStates.{InstanceState};
ghost use Rattle.am_instance.specs.Replies.{IsReply};
ghost use Rattle.am_instance.specs.declared.event.Event.TheVariants as events;
ghost use Rattle.am_instance.specs.declared.reply.Made.{Made};
ghost use Rattle.am_instance.specs.declared.reply.Reply.{Reply};
ghost use Rattle.am_schedule.specs.declared.step.LineEvent.{LineEvent};
ghost use Rattle.am_report.specs.Views.{view_text};
ghost use Rattle.am_replay.specs.Texts.{reply_text};

pub use am_cluster::laws::{
    answered_steps_go_on, answered_steps_reply, durable_members_lose_nothing,
    durable_members_show_what_came, durable_runs_are_timely_by_what_came,
    first_is_told_after_a_spread, first_is_told_exactly, first_is_told_where_old_ones_ended,
    members_agree_on_what_is_old, members_reply_as_the_bare_sets, members_show_the_bare_sets,
    members_with_equal_sets_mute_alike, members_with_equal_sets_reply_alike, settles_go_on,
    steps_go_on, timely_runs_bring_all_in_time, worked_restarts,
};
pub use am_instance::laws::{
    calm_steps_reply_as_the_bare_sets, cuts_change_no_event, equal_sets_show_alike,
    equal_views_mute_alike, equal_views_reply_alike, steps_show_the_bare_sets,
    what_is_shown_replies,
};
pub use am_runs::laws::{
    calm_members_show_the_bare_set, nothing_shown_after_a_spread, nothing_shown_exactly,
    one_step_more, settled, taking_a_map_joins_it, timely_runs_are_calm, views_agree, worked_runs,
};

/// States that the view of a member's maps is printed for the reply to a Show.
pub fn a_show_prints_the_view()
    ensures { (stand : InstanceState) (name : List ℕ) (event : LineEvent) (now : ℕ) (reply : Reply) (made : Made) →
        IsReply stand events.Show now reply made →
        reply_text name event reply ≡ view_text (Some name) now stand.silences stand.log }
{}
