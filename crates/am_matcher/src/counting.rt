//! The number of bytes that are counted for a pattern.

ghost use Rattle.std.specs.Prelude.{◌≡◌, ◌+◌, ◌-◌, ◌*◌, ◌^◌, min, nat_lt, if◌then◌else◌};

/// The approximate size of a table that searches fill, in bytes. If it is too small, searches go on without it.
pub const SEARCH_BYTES: usize = 16 << 10;

/// The number of bytes that are counted for each pattern, whatever its text is.
const OWN_BYTES: usize = 4 << 10;

/// The number of bytes that are counted for a state: for itself, its rank, its places in the lists of edges and of states,
/// the notes of a step about it, and its places in the engine that follows all states at once.
const STATE_BYTES: usize = 160;

/// The number of bytes that are counted for a transition: for itself, and for its edge backwards.
const TRANSITION_BYTES: usize = 24;

/// Returns the number of bytes that are counted for a pattern: those of its text, of its states and transitions, and of the
/// tables that searches may fill, as if all were full. Spare room of lists isn't counted.
pub fn counted(text: usize, states: usize, transitions: usize, tables: usize) -> usize
    ensures { result ≡ min (4_096 + text + 160 * states + 24 * transitions + 16_384 * tables) (2 ^ 64 - 1) }
{
    OWN_BYTES
        .saturating_add(text)
        .saturating_add(STATE_BYTES.saturating_mul(states))
        .saturating_add(TRANSITION_BYTES.saturating_mul(transitions))
        .saturating_add(SEARCH_BYTES.saturating_mul(tables))
}

/// The number of steps above which a search is long.
const SHORT_STEPS: usize = 1 << 20;

/// Returns the number of steps that a search takes at most with this many states in a text of `length` bytes, or 0 if it isn't a
/// long search.
pub fn long_steps_with(states: usize, length: usize) -> usize
    ensures { result ≡ min (if nat_lt 1_048_576 (states * length) then states * length else 0) (2 ^ 64 - 1) }
{
    let steps = states.saturating_mul(length);
    if steps > SHORT_STEPS { steps } else { 0 }
}
