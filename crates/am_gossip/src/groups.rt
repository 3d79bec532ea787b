//! The groups of a number.

ghost use Rattle.std.specs.Prelude.{◌≡◌, ◌<◌, ◌≤◌, ◌^◌};

/// The groups of a number read so far, each of which says that another follows.
#[derive(Clone, Copy)]
pub struct Groups {
    /// The number that the groups represent.
    pub value: u64,
    /// The factor of the next group.
    pub scale: u64,
    /// The number of groups.
    pub places: usize,
    ghost below: { value < scale },
    ghost scale_is: { scale ≡ 128 ^ places },
    ghost few: { places ≤ 9 },
}

impl Groups {
    /// Returns no groups.
    pub fn none() -> Self
        ensures value { result.value ≡ 0 }
        ensures places { result.places ≡ 0 }
    {
        Groups {
            value: 0,
            scale: 1,
            places: 0,
        }
    }
}
