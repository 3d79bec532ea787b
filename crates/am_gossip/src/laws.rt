//! Laws of the definitions that the contracts cite: each text is a stream in only one way, however it is cut into pieces,
//! and what is written is read back.

ghost use Rattle.std.specs.Prelude.{◌≡◌, ℕ, ◌≤◌, ◌⊎◌, List, ◌++◌, [], length, take, All, Some, None, Ok};
ghost use Rattle.std.specs.List.{flat_map};
ghost use Rattle.am_gossip.specs.declared.frame.Frame.{Frame};
ghost use Rattle.am_gossip.specs.Kinds.{limit};
ghost use Rattle.am_gossip.specs.Frames.{kind_of, payload_encoding, frame_encoding};
ghost use Rattle.am_gossip.specs.Hellos.{hello_of, IsHello};
ghost use Rattle.am_gossip.specs.Streams.{Stream, stream_of, goes_on, fed_in};
ghost use Rattle.am_gossip.specs.Grammar.{IsFrame, IsStream};

/// States that bytes are read as the only stream that they are: frames, and then a rest with neither a frame nor a fault at
/// its front, or bytes with a fault at their front.
pub fn streams_are_the_grammar()
    ensures read { (bytes : List ℕ) → IsStream (stream_of bytes) bytes }
    ensures found { (s : Stream) (bytes : List ℕ) → IsStream s bytes → s ≡ stream_of bytes }
    ensures unique { (s t : Stream) (bytes : List ℕ) → IsStream s bytes → IsStream t bytes → s ≡ t }
{}

/// States that two pieces are read as both joined are, and so is any list of pieces.
pub fn cuts_change_nothing()
    ensures cut { (first second : List ℕ) → stream_of (first ++ second) ≡ goes_on (stream_of first) second }
    // PROMISE: How a peer's bytes are cut makes no difference.
    ensures pieces { (pieces : List (List ℕ)) → fed_in (stream_of []) pieces ≡ stream_of (flat_map (λ piece. piece) pieces) }
{}

/// States that the canonical encoding of a frame whose payload is within its kind's limit is one of its encodings, and that
/// such encodings, one after another, are read as their frames.
pub fn frames_are_read_again()
    ensures frame { (f : Frame) → length (payload_encoding f) ≤ limit (kind_of f) → IsFrame f (frame_encoding f) }
    // PROMISE: A frame that was written is read again.
    ensures stream { (fs : List Frame) → All (λ f. length (payload_encoding f) ≤ limit (kind_of f)) fs →
        stream_of (flat_map frame_encoding fs) ≡ record { frames = fs; ending = Ok [] } }
{}

/// States that a greeting is read if and only if there is one at the front, and that more bytes change the result only if
/// more were needed.
pub fn greetings_are_the_grammar()
    ensures found { (bytes name : List ℕ) (len : ℕ) → hello_of bytes ≡ Ok (Some (name, len)) → (len ≤ length bytes)
        × IsHello name (take len bytes) }
    ensures read { (name text later : List ℕ) → IsHello name text → hello_of (text ++ later) ≡ Ok (Some (name, length text)) }
    ensures stays { (bytes later : List ℕ) → (hello_of (bytes ++ later) ≡ hello_of bytes) ⊎ (hello_of bytes ≡ Ok None) }
{}
