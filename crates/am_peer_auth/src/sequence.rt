//! The place of a frame in its connection.

ghost use Rattle.std.specs.Prelude.{◌≡◌, ◌+◌, ◌≤◌, ◌^◌, IfSome, None};
ghost use Rattle.am_peer_auth.specs.Sequences.{first_in, next_in};

/// The number of bytes in a challenge.
pub const CHALLENGE: usize = 32;

/// A frame's place in its connection: the challenge that the receiver made for the connection, and the number of frames before it.
#[derive(Clone, Copy)]
pub struct Sequence {
    pub challenge: [u8; CHALLENGE],
    pub number: u64,
}

impl Sequence {
    /// Returns the place of the first frame after a challenge.
    pub fn new(challenge: [u8; CHALLENGE]) -> Sequence
        ensures { result ≡ first_in challenge }
    {
        Sequence {
            challenge,
            number: 0,
        }
    }

    /// Returns the place of the next frame, if there is a number for one.
    pub fn next(self) -> Option<Sequence>
        ensures next { IfSome result (λ next. next ≡ next_in self) }
        ensures none { result ≡ None → 2 ^ 64 ≤ self.number + 1 }
    {
        let challenge = self.challenge;
        let number = self.number.checked_add(1)?;
        Some(Sequence { challenge, number })
    }
}
