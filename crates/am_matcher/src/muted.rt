//! The silences that mute an alert.

ghost use Rattle.std.specs.Prelude.{◌≡◌};

use am_wire::Text;
use std::marker::Model;

/// Ids of silences. Contracts see their list.
#[derive(Drop)]
pub struct Ids {
    ids: Vec<Text>,
}

impl Model for Ids {
    ghost use Rattle.std.specs.Prelude.{List, ℕ};

    ghost Value = { List (List ℕ) };

    ghost view = { λ i. i.ids.items };
}

impl Ids {
    /// Returns these ids. Nothing is allocated.
    pub fn new(ids: Vec<Text>) -> Ids
        ensures { result ≡ ids.items }
    {
        Ids { ids }
    }

    /// Returns the identifiers.
    pub fn as_slice(&self) -> &[Text]
        ensures { result.now ≡ self.now }
    {
        self.ids.as_slice()
    }

    /// Returns the vector of the ids. Nothing is allocated.
    pub fn into_vec(self) -> Vec<Text>
        ensures { result.items ≡ self }
    {
        self.ids
    }
}

/// The silences that mute an alert, and those that can't be judged, each in the order of their ids.
#[derive(Drop)]
pub struct Mutes {
    /// The active silences that aren't broken and whose matchers all match.
    pub ids: Ids,
    /// The active silences with a broken pattern, which `regex` refuses or which isn't taken as one of RE2, and those that
    /// have unknown fields and no matchers.
    pub broken: Ids,
}
