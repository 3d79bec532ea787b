//! Laws of all members of a cluster, as it is after any steps. They do nothing.

mod answered;
mod durable;
mod first;
mod later;
mod shown;

pub use answered::{answered_steps_go_on, answered_steps_reply, settles_go_on, steps_go_on};
pub use durable::{
    durable_members_lose_nothing, durable_members_show_what_came,
    durable_runs_are_timely_by_what_came, timely_runs_bring_all_in_time, worked_restarts,
};
pub use first::{first_is_told_after_a_spread, first_is_told_exactly};
pub use later::{first_is_told_where_old_ones_ended, members_agree_on_what_is_old};
pub use shown::{
    members_reply_as_the_bare_sets, members_show_the_bare_sets, members_with_equal_sets_mute_alike,
    members_with_equal_sets_reply_alike,
};
