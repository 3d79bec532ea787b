//! The keys of messages and notices.

ghost use Rattle.std.specs.Prelude.{◌≡◌};
ghost use Rattle.am_api_decisions.specs.Keys.{key_text};

/// A key of a message or of a notice.
#[derive(Clone, Copy, Debug, PartialEq, Eq)]
pub enum MessageKey {
    GroupKey,
    Receiver,
    Alerts,
    Labels,
    Status,
    Integration,
    Index,
    Repeat,
    Notify,
    Firing,
    Resolved,
    DecidedAt,
}

impl MessageKey {
    /// Returns the name of the key.
    pub fn text(self) -> &'static str
        ensures { result.now ≡ key_text self }
    {
        match self {
            MessageKey::GroupKey => "groupKey",
            MessageKey::Receiver => "receiver",
            MessageKey::Alerts => "alerts",
            MessageKey::Labels => "labels",
            MessageKey::Status => "status",
            MessageKey::Integration => "integration",
            MessageKey::Index => "index",
            MessageKey::Repeat => "repeat",
            MessageKey::Notify => "notify",
            MessageKey::Firing => "firing",
            MessageKey::Resolved => "resolved",
            MessageKey::DecidedAt => "decidedAt",
        }
    }
}
