//! The progress of exchanges with a replica, by the rounds in which they began.

ghost use Rattle.std.specs.Prelude.{◌≡◌, nat_le, nat_lt};

/// The exchanges with a replica, by rounds. A round is a number that grows whenever somebody wants to hear the replicas anew: an
/// exchange that began in a round tells whatever the replica held when that round began.
#[derive(Clone, Copy)]
pub struct Rounds {
    /// The round in which the last exchange began.
    begun: u64,
    /// The round in which the last exchange began that is over, even if it was lost.
    over: u64,
    /// The round in which the last exchange began that was taken as a whole.
    heard: u64,
}

impl Rounds {
    /// Returns the rounds before an exchange began.
    pub fn none() -> Rounds
        ensures { result ≡ record { begun = 0; over = 0; heard = 0 } }
    {
        Rounds {
            begun: 0,
            over: 0,
            heard: 0,
        }
    }

    /// Returns whether an exchange is to begin for those who want to hear the replica anew since a round.
    pub fn lacks(&self, round: u64) -> bool
        ensures { result ≡ nat_lt self.now.begun round }
    {
        self.begun < round
    }

    /// Records that an exchange begins in a round.
    pub fn begin(&mut self, round: u64)
        ensures { self.new ≡ record (self.old) { begun = round } }
    {
        self.begun = round;
    }

    /// Records that the last exchange was taken as a whole.
    pub fn hear(&mut self)
        ensures { self.new ≡ record (self.old) { over = self.old.begun; heard = self.old.begun } }
    {
        self.over = self.begun;
        self.heard = self.begun;
    }

    /// Records that the last exchange is lost.
    pub fn lose(&mut self)
        ensures { self.new ≡ record (self.old) { over = self.old.begun } }
    {
        self.over = self.begun;
    }

    /// Returns whether an exchange that began in a round or later is over.
    pub fn is_over(&self, round: u64) -> bool
        ensures { result ≡ nat_le round self.now.over }
    {
        round <= self.over
    }

    /// Returns whether an exchange that began in a round or later was taken as a whole.
    pub fn is_heard(&self, round: u64) -> bool
        ensures { result ≡ nat_le round self.now.heard }
    {
        round <= self.heard
    }
}
