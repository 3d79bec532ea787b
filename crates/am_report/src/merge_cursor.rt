//! A source on a walk over several in the order of their keys.

ghost use Rattle.std.specs.Prelude.{◌≡◌, None};
ghost use Rattle.std.specs.Option.{option_copied};

use crate::compared::Compared;
use am_merge::{Held, Iter};
use am_version_order::{Moment, Version};
use std::marker::Model;

/// A source on a walk: what it holds at the key that the walk has reached, and what comes behind.
#[derive(Drop)]
pub struct MergeCursor<'a, V: Version> {
    name: &'a str,
    here: Option<&'a V>,
    next: Option<&'a V>,
    rest: Iter<'a, V>,
}

impl<'a, V: Version> Model for MergeCursor<'a, V> {
    ghost use Rattle.std.specs.Option.{option_copied};
    ghost use Rattle.am_report.specs.Sources.{MergeCursor, front_of};

    ghost Value = { MergeCursor V };

    ghost view = { λ cursor. record {
      name = cursor.name.now;
      here = option_copied cursor.here;
      left = front_of (option_copied cursor.next) cursor.rest;
    } };
}

impl<'a, V: Version> MergeCursor<'a, V> {
    ghost use Rattle.am_report.specs.Differences.{compared_of};
    ghost use Rattle.am_report.specs.Sources.{begins_at, come_to};
    ghost use Rattle.am_report.specs.Walks.{head_of};
    ghost use Rattle.am_merge.specs.Maps.{IsMap};

    /// Returns a source before the first of its keys.
    #[tactic(auto, using(crate::proofs::Loops::front_is))]
    pub fn new(name: &'a str, held: &'a Held<V>) -> Self
        ensures start { result ≡ record { name = name.now; here = None; left = held.now } }
        ensures order { IsMap V.seen V.Key.cmp held.now }
    {
        let mut rest = held.iter();
        let next = rest.next();
        MergeCursor {
            name,
            here: None,
            next,
            rest,
        }
    }

    /// Returns the source's name.
    pub fn name(&self) -> &'a str
        ensures { result.now ≡ self.now.name }
    {
        self.name
    }

    /// Returns what the source holds at the key that the walk has reached.
    pub fn here(&self) -> Option<&'a V>
        ensures { option_copied result ≡ self.now.here }
    {
        self.here
    }

    /// Returns what the source holds there, if it is compared.
    pub fn compared(&self, compared: Compared, now: Moment) -> Option<&'a V>
        ensures { option_copied result ≡ compared_of V.seen compared now self.now.here }
    {
        let version = self.here?;
        match compared {
            Compared::Held => Some(version),
            Compared::Shown if now < version.expires() => Some(version),
            Compared::Shown => None,
        }
    }

    /// Returns the first version that is left.
    #[tactic(auto, using(crate::proofs::Loops::head_is))]
    pub fn next_version(&self) -> Option<&'a V>
        ensures { option_copied result ≡ head_of self.now.left }
    {
        self.next
    }

    /// Returns whether the first version that is left has the key.
    fn begins_at(&self, key: &V::Key) -> bool
        ensures { result ≡ begins_at V.seen V.Key.cmp key.now self.now.left }
    {
        match self.next {
            Some(version) => version.key().cmp(key).is_eq(),
            None => false,
        }
    }

    /// Advances to a key that isn't behind the first one that is left.
    #[tactic(auto, using(crate::proofs::Loops::front_is, crate::proofs::Loops::at_key, crate::proofs::Loops::not_at_key))]
    pub fn come_to(&mut self, key: &V::Key)
        ensures { self.new ≡ come_to V.seen V.Key.cmp key.now self.old }
    {
        if self.begins_at(key) {
            let next = self.rest.next();
            self.here = self.next;
            self.next = next;
        } else {
            self.here = None;
        }
    }
}
