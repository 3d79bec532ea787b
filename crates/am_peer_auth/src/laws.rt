//! Laws about the definitions in the contracts: which challenge, number, names and frame a sum covers, and that cuts change
//! nothing.

ghost use Rattle.std.specs.Prelude.{◌≡◌, ℕ, ◌<◌, ◌^◌, List, ◌++◌, length, Ok, Result};
ghost use Rattle.am_gossip.specs.declared.frame.Frame.{Frame};
ghost use Rattle.am_peer_auth.specs.declared.seal.Lock.{Lock};
ghost use Rattle.am_peer_auth.specs.declared.seal.SealError.{SealError};
ghost use Rattle.am_peer_auth.specs.Openings.{Opens};
ghost use Rattle.am_peer_auth.specs.declared.sequence.Sequence.{Sequence};
ghost use Rattle.am_peer_auth.specs.Seals.{sealed_message};
ghost use Rattle.am_peer_auth.specs.Sequences.{after};

/// States that the message covered by a sum determines the challenge, the number, the sender, the addressee and the frame: no other
/// five have the same bytes.
pub fn messages_are_told_apart()
    // PROMISE: No other challenge, number, sender, addressee and frame are summed as the same bytes.
    ensures { (place elsewhere : Sequence) (sender addressee encoding other whom what : List ℕ) → length place.challenge ≡ 32 → length elsewhere.challenge ≡ 32
        → place.number < 2 ^ 64 → elsewhere.number < 2 ^ 64 → length sender < 2 ^ 64 → length addressee < 2 ^ 64 → length other < 2 ^ 64
        → length whom < 2 ^ 64 → sealed_message place sender addressee encoding ≡ sealed_message elsewhere other whom what
        → (place ≡ elsewhere) × (sender ≡ other) × (addressee ≡ whom) × (encoding ≡ what) }
{}

/// States that two pieces of a sealed stream, one after another, open to the same as both joined, if the second is opened from the
/// place after the frames of the first.
pub fn cuts_change_nothing()
    ensures { (lock : Lock) (sender : List ℕ) (place : Sequence) (first second rest : List ℕ) (frames more : List Frame) (ending : Result (List ℕ) SealError)
        → Opens lock sender place first frames (Ok rest) → Opens lock sender (after (length frames) place) (rest ++ second) more ending
        → Opens lock sender place (first ++ second) (frames ++ more) ending }
{}
