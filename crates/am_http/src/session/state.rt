//! The state of a session.

ghost use Rattle.std.specs.Prelude.{◌≡◌, length, string_bytes};
ghost use Rattle.std.specs.Option.{option_copied, option_map};
ghost use Rattle.am_http.specs.Sessions.{name_of, waiting_in};
ghost use Rattle.am_http.specs.States.{phase_in};

use am_gossip::Feeder;

/// The frames of a peer's connection.
#[derive(Drop)]
pub struct Hearing {
    /// The name in its greeting.
    pub name: String,
    /// The number of bytes that have come.
    pub count: usize,
    /// The reader of the stream behind the greeting.
    pub feeder: Feeder,
}

/// The state of a session's connection.
#[derive(Drop)]
pub enum SessionState {
    /// No byte came.
    Fresh,
    /// The bytes of a request so far.
    Asking(Vec<u8>),
    /// The bytes of a greeting so far.
    Greeting(Vec<u8>),
    Hearing(Hearing),
    /// The name in the greeting, if one came; nothing more is heard.
    Over(Option<String>),
}

impl SessionState {
    /// Returns the name in the greeting, if one came.
    pub fn name(&self) -> Option<&str>
        ensures { option_copied result ≡ name_of (phase_in self.now) }
    {
        match self {
            SessionState::Hearing(hearing) => Some(hearing.name.as_str()),
            SessionState::Over(Some(name)) => Some(name.as_str()),
            _ => None,
        }
    }

    /// Returns the number of bytes that wait for the rest of what they begin.
    pub fn waiting(&self) -> usize
        ensures { result ≡ length (waiting_in (phase_in self.now)) }
    {
        match self {
            SessionState::Fresh | SessionState::Over(_) => 0,
            SessionState::Asking(bytes) | SessionState::Greeting(bytes) => bytes.len(),
            SessionState::Hearing(hearing) => hearing.feeder.waiting(),
        }
    }

    /// Returns the name in the greeting, if one came.
    pub fn into_name(self) -> Option<String>
        ensures { option_map string_bytes result ≡ name_of (phase_in self) }
    {
        match self {
            SessionState::Hearing(hearing) => Some(hearing.name),
            SessionState::Over(name) => name,
            _ => None,
        }
    }
}
