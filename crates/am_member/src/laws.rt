//! Laws over the definitions that the contracts cite.

ghost use Rattle.std.specs.Prelude.{◌≡◌, ℕ, List, true, Some, Contains};
ghost use Rattle.std.specs.List.{AllByRecursion};
ghost use Rattle.am_http.specs.declared.request.Read.TheVariants.{Whole};
ghost use Rattle.am_http.specs.declared.request.Request.{Request};
ghost use Rattle.am_instance.specs.Configs.{AreMembers};
ghost use Rattle.am_instance.specs.InstanceStates.{InstanceState};
ghost use Rattle.am_instance.specs.Laws.{AreMade, Happened, HasMaps, all_entries, all_silences};
ghost use Rattle.am_http.specs.Sessions.{Says, SessionPhase, fresh};
ghost use Rattle.am_member.specs.Lives.{AreCalm, AreStepsOfAll, Deed, IsBareAnswer, IsHeardOut, IsLife, IsTurn, ShowsBareSets, Turn};
ghost use Rattle.am_member.specs.Lives.{bytes_in, said_in, session_phases_in, turns_of};
ghost use Rattle.am_peers.specs.Outgoing.{is_name};

use am_http::session::laws::pieces_are_their_bytes;
use am_instance::laws::{calm_steps_reply_as_the_bare_sets, steps_show_the_bare_sets};

/// States that a member's name is one that a greeting may have: what a member sends is never refused for its own name.
pub fn names_of_members_are_sent()
    ensures { (names : List (List ℕ)) (own : ℕ) (name : List ℕ) → AreMembers names own → Contains names name → is_name name ≡ true }
{}

/// States that a connection said what all its bytes say, whatever came of other connections between them.
pub fn connections_say_what_their_bytes_say()
    ensures { (session_phases : ℕ → SessionPhase) (start new : InstanceState) (deeds : List Deed) (connection : ℕ) →
        IsLife session_phases start deeds new → session_phases connection ≡ fresh → AllByRecursion IsHeardOut (turns_of connection deeds) →
        Says fresh (bytes_in (turns_of connection deeds)) (said_in (turns_of connection deeds)) (session_phases_in session_phases deeds connection) }
{
    pieces_are_their_bytes();
}

/// States that a member's life is steps of its instance, one after the other: the turns of any connections in any interleaving,
/// whose events are those of what was said, each at the moment of its turn; and between them the steps that the member made by
/// itself.
pub fn lives_are_steps()
    // PROMISE: Any interleaving of connections is one list of steps.
    ensures { (session_phases : ℕ → SessionPhase) (start new : InstanceState) (deeds : List Deed) → IsLife session_phases start deeds new →
        (steps : List Happened) × AreStepsOfAll start deeds steps × AreMade start steps new }
{}

/// States that a member shows, from the last of its steps on, what the bare sets show of all versions that it began with or that
/// were delivered to it by requests and peers, for each map that the steps were calm for; its Ticks are among the steps.
pub fn lives_show_the_bare_sets()
    ensures { (session_phases : ℕ → SessionPhase) (start new : InstanceState) (deeds : List Deed) → HasMaps start →
        IsLife session_phases start deeds new →
        (steps : List Happened) × AreStepsOfAll start deeds steps × ShowsBareSets start steps new }
{
    lives_are_steps();
    steps_show_the_bare_sets();
}

/// States that the bytes of the reply to a request for a list or a silence are, after calm steps, those that the bare sets give of
/// all that came before it, however long they take to be written.
pub fn lives_reply_as_the_bare_sets()
    // PROMISE: After calm steps a list's reply is, byte for byte, that of everything that came.
    ensures { (session_phases : ℕ → SessionPhase) (start stand : InstanceState) (deeds : List Deed) (turn : Turn) (request : Request) →
        HasMaps start → HasMaps stand → IsLife session_phases start deeds stand →
        IsTurn (session_phases_in session_phases deeds turn.connection) stand turn → turn.said.request ≡ Some (Whole request) →
        (steps : List Happened) × AreStepsOfAll start deeds steps × (AreCalm start steps →
        IsBareAnswer stand.config.dialect (all_silences start steps) (all_entries start steps) request turn.bits turn.now turn.answer) }
{
    lives_are_steps();
    calm_steps_reply_as_the_bare_sets();
}
