//! Versions of a type of this crate's own, and the numbers that runs follow from.

ghost use Rattle.std.specs.Prelude.{◌≡◌};
ghost use Rattle.std.proofs.Common.{refl, sym};
ghost use Rattle.std.specs.declared.cmp.Ordering.TheVariants.{Equal};
ghost use Rattle.std.specs.Cmp.{ranked};

use am_version_order::{Interval, Moment, Version};
use std::alloc::{AllocError, Global};

/// Two bytes under a letter. The first byte is the bucket, unless it is 0.
#[derive(Clone, Copy, PartialEq, Eq)]
pub struct Note {
    pub id: u8,
    pub updated: Moment,
    pub expires: Moment,
    pub content: [u8; 2],
}

/// Returns the moment that is `seconds` seconds after the least one.
pub fn at(seconds: u32) -> Moment {
    match Interval::from_seconds(u64::from(seconds)) {
        Some(span) => Moment::LEAST.capped_add(span),
        None => Moment::LEAST,
    }
}

/// Returns a number that follows from two others, as if it were drawn.
pub fn mixed(seed: u64, number: u64) -> u64 {
    let spread = seed
        .wrapping_mul(0x9E37_79B9_7F4A_7C15)
        .wrapping_add(number.wrapping_mul(0xBF58_476D_1CE4_E5B9));
    (spread ^ (spread >> 31)).wrapping_mul(0x94D0_49BB_1331_11EB) >> 20
}

impl Version for Note {
    ghost use Rattle.std.specs.Prelude.{[], take, slice_index_or, if◌then◌else◌, ◌==◌};

    type Key = u8;

    ghost seen = { λ note. record { key = note.id; updated = note.updated; expires = note.expires; content = note.content } };

    ghost bucket_of = { λ note. if slice_index_or note.content 0 0 == 0 then [] else take 1 note.content };

    ghost head_of = { λ _. 0 };

    ghost is_value = { λ _. Unit {0} };

    fn key(&self) -> &u8 {
        &self.id
    }

    fn head(_key: &u8) -> u64 {
        0
    }

    fn try_key(&self, _alloc: Global) -> Result<u8, AllocError> {
        Ok(self.id)
    }

    fn updated(&self) -> Moment {
        self.updated
    }

    fn expires(&self) -> Moment {
        self.expires
    }

    fn canonical(&self) -> &[u8] {
        &self.content
    }

    fn bucket(&self) -> &[u8] {
        if self.content[0] == 0 {
            &[]
        } else {
            &self.content[..1]
        }
    }

    fn try_clone(&self, _alloc: Global) -> Result<Self, AllocError> {
        Ok(*self)
    }

    ghost exact_keys = { λ x y tie. ranked x y Equal (sym tie) };

    ghost heads = { λ x y. refl };

    ghost exact = { λ v w _ _ same i. record { id = (same i).key; updated = (same i).updated; expires = (same i).expires; content = (same i).content } };
}
