//! The laws of maps, of steps and of runs, which do nothing.

use am_merge::laws::{
    join_exists, join_is_associative, join_is_commutative, join_is_idempotent, join_is_unique,
    sweep_and_join_commute,
};
use am_nflog::MeshEntry;
use am_replay::laws::{
    calm_members_show_the_bare_set, calm_steps_reply_as_the_bare_sets, equal_sets_show_alike,
    first_is_told_after_a_spread, settled, steps_show_the_bare_sets, timely_runs_are_calm,
    views_agree,
};
use am_silence::MeshSilence;

/// Calls the public laws of am_merge and am_replay.
pub fn calls() {
    of_joins();
    of_sweeps();
    of_steps();
    of_runs();
}

fn of_joins() {
    join_exists::<MeshSilence>();
    join_is_unique::<MeshSilence>();
    join_is_commutative::<MeshSilence>();
    join_is_associative::<MeshSilence>();
    join_is_idempotent::<MeshSilence>();
}

fn of_sweeps() {
    sweep_and_join_commute::<MeshEntry>();
}

fn of_steps() {
    steps_show_the_bare_sets();
    equal_sets_show_alike();
    calm_steps_reply_as_the_bare_sets();
}

fn of_runs() {
    calm_members_show_the_bare_set::<MeshSilence>();
    timely_runs_are_calm::<MeshSilence>();
    views_agree::<MeshEntry>();
    settled::<MeshEntry>();
    first_is_told_after_a_spread();
}
