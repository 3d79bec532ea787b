//! The keys of a post and of a shown silence.

ghost use Rattle.std.specs.Prelude.{◌≡◌};
ghost use Rattle.am_silence_json.specs.Posts.{key_text};
ghost use Rattle.am_silence_json.specs.Shown.{shown_key_text};

/// A key of a post. The variants are in the order in which keys are tested.
#[derive(Clone, Copy, Debug, PartialEq, Eq)]
pub enum JsonKey {
    Id,
    Matchers,
    StartsAt,
    EndsAt,
    CreatedBy,
    Comment,
}

impl JsonKey {
    /// Returns the name of the key.
    pub fn text(self) -> &'static str
        ensures { result.now ≡ key_text self }
    {
        match self {
            JsonKey::Id => "id",
            JsonKey::Matchers => "matchers",
            JsonKey::StartsAt => "startsAt",
            JsonKey::EndsAt => "endsAt",
            JsonKey::CreatedBy => "createdBy",
            JsonKey::Comment => "comment",
        }
    }
}

/// A key of a shown silence. The variants are in the order in which keys are tested.
#[derive(Clone, Copy, Debug)]
pub enum ShownKey {
    Id,
    StartsAt,
    EndsAt,
    UpdatedAt,
    CreatedBy,
    Comment,
    Matchers,
}

impl ShownKey {
    /// Returns the name of the key.
    pub fn text(self) -> &'static str
        ensures { result.now ≡ shown_key_text self }
    {
        match self {
            ShownKey::Id => "id",
            ShownKey::StartsAt => "startsAt",
            ShownKey::EndsAt => "endsAt",
            ShownKey::UpdatedAt => "updatedAt",
            ShownKey::CreatedBy => "createdBy",
            ShownKey::Comment => "comment",
            ShownKey::Matchers => "matchers",
        }
    }
}
