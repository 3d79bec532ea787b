//! Laws about the definitions that the contracts cite: it makes no difference where a connection is cut.

ghost use Rattle.std.specs.Prelude.{List, ℕ, ◌++◌};
ghost use Rattle.std.specs.List.{flat_map};
ghost use Rattle.am_http.specs.Sessions.{SessionPhase, fresh, Spoken, and_then, Says, SaysAll};

/// States that two pieces, one after the other, say what both joined say, and leave the connection at the same place.
pub fn cuts_change_nothing()
    // PROMISE: How a connection is cut into pieces makes no difference.
    ensures { (old mid new : SessionPhase) (first second : List ℕ) (said later : Spoken) → Says old first said mid → Says mid second later new
        → Says old (first ++ second) (and_then said later) new }
{}

/// States that any pieces of a connection, from its first byte on, say what their bytes say.
pub fn pieces_are_their_bytes()
    ensures { (pieces : List (List ℕ)) (said : Spoken) (new : SessionPhase) → SaysAll fresh pieces said new
        → Says fresh (flat_map (λ piece. piece) pieces) said new }
{}
