//! The kinds of faults that a member distinguishes when it prints.

use crate::fault::Fault;
use am_memberlist::AnswerError;
use am_peer_auth::AuthFault;
use am_peers::ConnectionFault;
use am_reactor::LinkFault;

/// The kind of a fault of a member: there is one for each word with which a line begins.
#[derive(Clone, Copy)]
pub enum FaultKind {
    Silences,
    Log,
    Accept,
    Unsent,
    Connect,
    Send,
    Read,
    Write,
    TooLarge,
    Frame,
    UnknownName,
    Step,
    Clock,
    Crowded,
    Unfinished,
    /// A frame that isn't sealed as it should be.
    Seal,
    /// Another fault at the gate of a connection.
    Gate,
    Gossip,
    Unheard,
    Withheld,
    FieldsDropped,
    /// None of these.
    Other,
}

impl FaultKind {
    /// All kinds.
    pub const ALL: [FaultKind; FaultKind::COUNT] = [
        FaultKind::Silences,
        FaultKind::Log,
        FaultKind::Accept,
        FaultKind::Unsent,
        FaultKind::Connect,
        FaultKind::Send,
        FaultKind::Read,
        FaultKind::Write,
        FaultKind::TooLarge,
        FaultKind::Frame,
        FaultKind::UnknownName,
        FaultKind::Step,
        FaultKind::Clock,
        FaultKind::Crowded,
        FaultKind::Unfinished,
        FaultKind::Seal,
        FaultKind::Gate,
        FaultKind::Gossip,
        FaultKind::Unheard,
        FaultKind::Withheld,
        FaultKind::FieldsDropped,
        FaultKind::Other,
    ];

    /// The number of kinds.
    pub const COUNT: usize = 22;
}

impl Fault {
    /// Returns the kind of the fault.
    pub(crate) fn kind(&self) -> FaultKind {
        match self {
            Fault::Silences(_) => FaultKind::Silences,
            Fault::Log(_) => FaultKind::Log,
            Fault::Accept(_) => FaultKind::Accept,
            Fault::UnsentMemory(_) | Fault::UnsentLimit(_) => FaultKind::Unsent,
            Fault::Lost(LinkFault::Connect(_), _) => FaultKind::Connect,
            Fault::Lost(_, _) => FaultKind::Send,
            Fault::Connection(fault) => kind_of_connection(fault),
            Fault::ClockBehind(_) | Fault::ClockCaughtUp | Fault::ClockAhead(_) => {
                FaultKind::Clock
            }
            Fault::Crowded(_) => FaultKind::Crowded,
            Fault::Unfinished(_) => FaultKind::Unfinished,
            Fault::Gate(AuthFault::Seal(_) | AuthFault::Unsealed | AuthFault::Cut) => {
                FaultKind::Seal
            }
            Fault::Gate(_) => FaultKind::Gate,
            Fault::Gossip(AnswerError::Row(_) | AnswerError::Memory) => FaultKind::Other,
            Fault::Gossip(_) => FaultKind::Gossip,
            Fault::Unheard => FaultKind::Unheard,
            Fault::WithheldPattern(_) | Fault::WithheldMatcher(_) => FaultKind::Withheld,
            Fault::FieldsDropped(_) => FaultKind::FieldsDropped,
            _ => FaultKind::Other,
        }
    }
}

/// Returns the kind of a fault of a connection.
fn kind_of_connection(fault: &ConnectionFault) -> FaultKind {
    match fault {
        ConnectionFault::Read { .. } => FaultKind::Read,
        ConnectionFault::Write { .. } => FaultKind::Write,
        ConnectionFault::TooLarge => FaultKind::TooLarge,
        ConnectionFault::Frame(_) => FaultKind::Frame,
        ConnectionFault::UnknownName => FaultKind::UnknownName,
        ConnectionFault::Step(_) => FaultKind::Step,
    }
}
