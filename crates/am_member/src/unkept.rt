//! The patterns of silences that there is no room for.

/// The number of bytes that are counted for each pattern beside its text, its states and their transitions.
const BESIDE_STATES: usize = 20 << 10;

/// The least number of bytes that are counted for a state of a pattern.
const STATE_BYTES: usize = 160;

/// The number of steps of a search that take as long as compiling what one byte is counted for.
const STEPS_PER_BYTE: usize = 4;

/// The number of bytes whose compiling takes longer than anybody may wait for it.
const TOO_MANY_BYTES: usize = 64 << 20;

/// The sizes of patterns that there is no room for, so that they are compiled anew for each alert.
#[derive(Clone, Copy)]
pub struct Unkept {
    /// The number of bytes that are counted for them.
    bytes: usize,
    /// The number of these bytes that are counted for texts, states and transitions, which is what compiling takes time for.
    compiled: usize,
}

impl Unkept {
    /// Returns the sizes of no patterns.
    pub fn none() -> Unkept {
        Unkept {
            bytes: 0,
            compiled: 0,
        }
    }

    /// Returns the sizes of patterns that weren't looked at: the largest.
    pub fn unknown() -> Unkept {
        Unkept {
            bytes: usize::MAX,
            compiled: usize::MAX,
        }
    }

    /// Adds a pattern for which this many bytes are counted.
    pub fn add(&mut self, bytes: usize) {
        self.bytes = self.bytes.saturating_add(bytes);
        self.compiled = self
            .compiled
            .saturating_add(bytes.saturating_sub(BESIDE_STATES));
    }

    /// Returns whether they take so long to compile that it makes no difference how many more there are.
    pub fn are_too_many(self) -> bool {
        self.compiled > TOO_MANY_BYTES
    }

    /// Returns the number of steps of a search that take as long as compiling them and searching for them in a text of `length`
    /// bytes, at most.
    pub fn steps(self, length: usize) -> usize {
        let states = self.bytes / STATE_BYTES;
        let searched = states.saturating_mul(length);
        searched.saturating_add(self.compiled.saturating_mul(STEPS_PER_BYTE))
    }
}
