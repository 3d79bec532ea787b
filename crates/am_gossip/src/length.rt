//! The reading of lengths byte by byte.

ghost use Rattle.std.specs.Prelude.{List, ℕ};
ghost use Rattle.am_gossip.specs.Lengths.{IsGroups, Continues};

use crate::groups::Groups;

/// The maximum number of groups in a number, minus one.
const LAST_PLACE: usize = 9;

/// The effect of one more byte on a number.
#[derive(Clone, Copy)]
pub enum Next {
    /// Another byte follows.
    More(Groups),
    /// The byte was the last one of this number.
    Whole(u64),
    /// The number has more than 64 bits.
    TooLong,
}

/// Reads the next byte of a number.
pub fn next_group(groups: Groups, byte: u8) -> Next
    ensures { (bytes : List ℕ) → IsGroups groups bytes → Continues bytes byte result }
{
    let group = u64::from(byte);
    if groups.places == LAST_PLACE {
        return if group < 2 {
            Next::Whole(groups.value + group * groups.scale)
        } else {
            Next::TooLong
        };
    }
    if group < 128 {
        return Next::Whole(groups.value + group * groups.scale);
    }
    Next::More(Groups {
        value: groups.value + group % 128 * groups.scale,
        scale: groups.scale * 128,
        places: groups.places + 1,
    })
}
