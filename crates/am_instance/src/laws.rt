//! Laws about runs of an instance.

ghost use Rattle.std.specs.Prelude.{◌≡◌, ◌≤◌, ℕ, ◌+◌, List, [], length, None, All, Contains, true};
ghost use Rattle.std.specs.List.{flat_map};
ghost use Rattle.std.specs.Ordering.{nat_cmp};
ghost use Rattle.std.specs.Cmp.Lexicographic.{slice_cmp};
ghost use Rattle.am_silence.specs.Mesh.{IsMesh, Mesh, mesh_version};
ghost use Rattle.am_nflog.specs.Mesh.{IsMesh as IsLogMesh, Mesh as LogMesh, mesh_version as entry_version};
ghost use Rattle.am_nflog.specs.Keys.{key_cmp};
ghost use Rattle.am_nflog.specs.LogKeys.{LogKey};
ghost use Rattle.am_gossip.specs.Streams.{fed_in, stream_of};
ghost use Rattle.am_matcher.specs.declared.labels.Label.{Label};
ghost use Rattle.am_matcher.specs.Mutes.{AreMutedIn};
ghost use Rattle.am_matcher.specs.declared.dialect.Dialect.{Dialect};
ghost use Rattle.am_merge.specs.Maps.{IsMap, at, if_live, swept};
ghost use Rattle.am_merge.specs.Views.{IsViewAt};
ghost use Rattle.am_collect.specs.Events.{HaveSame, taken};
ghost use Rattle.am_collect.specs.Calm.{IsCalm};
ghost use Rattle.am_instance.specs.Deliveries.{to_silences, to_log};
ghost use Rattle.am_snapshot.specs.Encodings.{row_encoding};
ghost use Rattle.am_instance.specs.Handings.{AreHandedOut, IsHandedOut, is_nfl, is_sil, rows_of};
ghost use Rattle.am_instance.specs.InstanceStates.{InstanceState};
ghost use Rattle.am_instance.specs.Sendings.{whole_state};
ghost use Rattle.am_instance.specs.declared.event.Event.{Event};
ghost use Rattle.am_instance.specs.declared.handing.HandedPart.{HandedPart};
ghost use Rattle.am_instance.specs.declared.handing.Handout.TheVariants.{Silences};
ghost use Rattle.am_instance.specs.declared.reply.Made.{Made};
ghost use Rattle.am_instance.specs.declared.reply.Reply.{Reply};
ghost use Rattle.am_instance.specs.Replies.{IsReply, silence_in_view, entry_in_view};
ghost use Rattle.am_instance.specs.Laws.{AreCalmSteps, AreMade, Happened, HasMaps, ShowSame, all_entries, all_silences};
ghost use Rattle.am_instance.specs.Bare.{IsBareReply, IsView, asks_shown};
ghost use Rattle.am_instance.specs.Laws.{asks_views, events_of_stream, run_events};

use am_collect::laws::{calm_events_show_the_bare_set, calm_keepers_agree};
use am_gossip::laws::cuts_change_nothing;
use am_merge::laws::a_map_goes_on_from_a_key;
use am_nflog::MeshEntry;
use am_silence::MeshSilence;
use am_version_order::Version;

/// States what an instance shows after any steps from any maps and moment. Each map for which the steps were calm shows the
/// same as the bare set of all versions that the instance began with or that were delivered, at every key and at every
/// moment from the last step on.
pub fn steps_show_the_bare_sets()
    // PROMISE: After calm steps a replica shows what everything that it ever took would show.
    ensures silences { (start new : InstanceState) (steps : List Happened) (now : ℕ) (id : List ℕ) →
        IsMap mesh_version (slice_cmp nat_cmp) start.silences → AreMade start steps new →
        IsCalm mesh_version start.silences start.last (run_events to_silences steps) → new.last ≤ now →
        IsViewAt mesh_version (taken start.silences (run_events to_silences steps)) now id (silence_in_view now new.silences id) }
    ensures log { (start new : InstanceState) (steps : List Happened) (now : ℕ) (key : LogKey) →
        IsMap entry_version key_cmp start.log → AreMade start steps new →
        IsCalm entry_version start.log start.last (run_events to_log steps) → new.last ≤ now →
        IsViewAt entry_version (taken start.log (run_events to_log steps)) now key (entry_in_view now new.log key) }
{
    calm_events_show_the_bare_set::<MeshSilence>();
    calm_events_show_the_bare_set::<MeshEntry>();
}

/// States that two instances that began with or were delivered the same versions in calm steps, in any order and however
/// often, show the same from the later of their last moments on.
pub fn equal_sets_show_alike()
    ensures { (start begin one other : InstanceState) (steps others : List Happened) (now : ℕ) →
        AreCalmSteps start steps one → AreCalmSteps begin others other →
        HaveSame (all_silences start steps) (all_silences begin others) → HaveSame (all_entries start steps) (all_entries begin others) →
        All IsMesh (all_silences start steps) → All IsLogMesh (all_entries start steps) →
        one.last ≤ now → other.last ≤ now → ShowSame now one other }
{
    calm_keepers_agree::<MeshSilence>();
    calm_keepers_agree::<MeshEntry>();
}

/// States that maps that show the same at each key have one view.
fn equal_views_are_one<V: Version>()
    ensures { (map other : List V) (now : ℕ) → IsMap V.seen V.Key.cmp map → IsMap V.seen V.Key.cmp other →
        ((key : V.Key) → if_live V.seen now (at V.seen V.Key.cmp map key) ≡ if_live V.seen now (at V.seen V.Key.cmp other key)) →
        swept V.seen now map ≡ swept V.seen now other }
{}

/// States that two instances that show the same give the same replies to events that are answered from the views alone.
pub fn equal_views_reply_alike()
    // PROMISE: Replicas that show the same answer alike.
    ensures { (one other : InstanceState) (event : Event) (now : ℕ) (reply : Reply) (made : Made) → HasMaps one → HasMaps other →
        ShowSame now one other →
        asks_views event ≡ true → IsReply one event now reply made → IsReply other event now reply made }
{
    equal_views_are_one::<MeshSilence>();
    equal_views_are_one::<MeshEntry>();
}

/// States that a silence that mutes an alert at one of two instances mutes it at the other, if both show the same and have
/// patterns of the same dialect, and unless the other reports its patterns as broken.
pub fn equal_views_mute_alike()
    ensures { (dialect : Dialect) (one other : InstanceState) (now : ℕ) (labels : List Label) (ids broken others broken_too : List (List ℕ)) →
        HasMaps one → HasMaps other → ShowSame now one other →
        AreMutedIn dialect labels now one.silences ids broken → AreMutedIn dialect labels now other.silences others broken_too →
        (id : List ℕ) → Contains ids id → ¬ Contains broken_too id → Contains others id }
{
    equal_views_are_one::<MeshSilence>();
}

/// States that the live versions of a map that shows at each key what a bare set shows are the view of that set.
fn live_versions_are_the_view<V: Version>()
    ensures { (map set : List V) (now : ℕ) → IsMap V.seen V.Key.cmp map →
        ((key : V.Key) → IsViewAt V.seen set now key (if_live V.seen now (at V.seen V.Key.cmp map key))) →
        IsView V.seen V.Key.cmp set now (swept V.seen now map) }
{}

/// States that an instance that shows at each identifier and at each key of the log what bare sets show gives the replies
/// of those sets to events that are answered from what is shown.
pub fn what_is_shown_replies()
    ensures { (stand : InstanceState) (silences : List Mesh) (log : List LogMesh) (event : Event) (now : ℕ) (reply : Reply) (made : Made) →
        HasMaps stand → ((id : List ℕ) → IsViewAt mesh_version silences now id (silence_in_view now stand.silences id)) →
        ((key : LogKey) → IsViewAt entry_version log now key (entry_in_view now stand.log key)) →
        asks_shown event ≡ true → IsReply stand event now reply made →
        IsBareReply stand.config.dialect silences log event now reply }
{
    live_versions_are_the_view::<MeshSilence>();
    live_versions_are_the_view::<MeshEntry>();
}

/// States that, after calm steps from any maps and moment, replies are those of the bare sets of all versions that the
/// instance began with or that were delivered. This holds of a list, a single silence, a decision, both views and the mutes
/// of an alert, at every moment from the last step on.
pub fn calm_steps_reply_as_the_bare_sets()
    // PROMISE: After calm steps its lists, silences, decisions and mutes are those of everything that it ever took.
    ensures { (start new : InstanceState) (steps : List Happened) (event : Event) (now : ℕ) (reply : Reply) (made : Made) →
        AreCalmSteps start steps new → HasMaps new → new.last ≤ now → asks_shown event ≡ true → IsReply new event now reply made →
        IsBareReply new.config.dialect (all_silences start steps) (all_entries start steps) event now reply }
{
    steps_show_the_bare_sets();
    what_is_shown_replies();
}

/// States that the frames of a peer's stream are the same events wherever the stream was cut.
pub fn cuts_change_no_event()
    ensures { (sender : ℕ) (pieces : List (List ℕ)) →
        events_of_stream sender (fed_in (stream_of []) pieces) ≡ events_of_stream sender (stream_of (flat_map (λ piece. piece) pieces)) }
{
    cuts_change_nothing();
}

/// States that all parts that are handed out of maps that stay as they are have, one after the other, the row of each
/// state.
pub fn parts_have_all_that_is_held()
    // PROMISE: A full state that is sent part by part is complete.
    ensures silences { (most : ℕ) (silences : List Mesh) (log : List LogMesh) (parts : List HandedPart) →
        IsMap mesh_version (slice_cmp nat_cmp) silences → IsMap entry_version key_cmp log →
        AreHandedOut most silences log (Silences None) parts →
        rows_of is_sil (flat_map (λ p. p.state) parts) ≡ row_encoding mesh_version silences }
    ensures log { (most : ℕ) (silences : List Mesh) (log : List LogMesh) (parts : List HandedPart) →
        IsMap mesh_version (slice_cmp nat_cmp) silences → IsMap entry_version key_cmp log →
        AreHandedOut most silences log (Silences None) parts →
        rows_of is_nfl (flat_map (λ p. p.state) parts) ≡ row_encoding entry_version log }
{
    a_map_goes_on_from_a_key::<MeshSilence>();
    a_map_goes_on_from_a_key::<MeshEntry>();
}

/// States that a single part has both states whole if they fit it.
pub fn small_states_are_one_part()
    ensures { (most : ℕ) (silences : List Mesh) (log : List LogMesh) (handed : HandedPart) →
        length (row_encoding mesh_version silences) + length (row_encoding entry_version log) ≤ most →
        IsHandedOut most silences log (Silences None) handed →
        (handed.state ≡ whole_state silences log) × (handed.next ≡ None) }
{}
