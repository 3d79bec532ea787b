//! The meanings of faults, and what is to be done about them: one sentence for people for each kind.

use crate::fault::Fault;
use am_gossip::{ConfigError, FrameError, StepError};
use am_memberlist::{AnswerError, LzwError};
use am_peer_auth::{AuthFault, SealError, SecretFault};
use am_peers::{ConnectionFault, ServerFault};
use am_reactor::LinkFault;
use am_silence_json::ListError;
use am_snapshot::SnapshotError;
use am_store::FileFault;
use am_wire::WireError;
use std::io::ErrorKind;

const MEMORY: &str = "memory ran out";

const READ: &str = "a read failed after so many bytes";

const WRITE: &str = "a write failed after so many bytes, which went out";

const LOST_READ: &str =
    "the connection failed, or its time was over, after so many bytes that came";

const NO_ANSWER: &str =
    "the connection failed, or its time was over, before anything came; is this the right port, and without TLS?";

const LOST_WRITE: &str =
    "the connection failed, or its time was over, after so many bytes that went out";

const CROWDED: &str =
    "a connection gave its place to another one, after so many bytes that came; --at-once has how many there may be";

const UNFINISHED: &str =
    "a connection kept too much that wasn't finished, after so many bytes that came; --most-unfinished has the limit";

const CLOCK_BEHIND: &str = "the clock is so many seconds behind the last event; is it set right?";

const CLOCK_AHEAD: &str =
    "the clock went so many seconds further than time did, so nothing that has expired is dropped; set it right and restart, or see --trust-clock";

const NO_PULL: &str =
    "no peer answered the first pull in time, so requests are answered without it";

const TORN: &str =
    "so many bytes at the end of the log were being written when the last process ended, and nobody was told of them; they are cut off";

const LINES_LOST: &str = "so many faults were not told, since nobody read the lines before";

const UNSENT_MEMORY: &str =
    "memory ran out for so many frames to peers; a pull brings what they had";

const UNSENT_LIMIT: &str =
    "so many frames to peers were over their limit; a pull brings what they had";

const UNHEARD: &str =
    "a decision to notify was said before this Alertmanager was heard, as its time was over or the exchange failed";

const WITHHELD_PATTERN: &str =
    "this silence isn't sent there, since RE2 may not read a pattern of it, and the Alertmanager would page for everything";

const WITHHELD_MATCHER: &str =
    "this silence isn't sent there, since no Alertmanager can make one with these matchers, or it would mute too much";

const FIELDS_DROPPED: &str =
    "so many matchers, receivers and moments that this Alertmanager told have fields that aren't known here, which are lost; is it of a later release?";

/// Returns the meaning of a fault.
pub fn meaning_of(fault: &Fault) -> &'static str {
    match *fault {
        Fault::Memory(_) => MEMORY,
        Fault::Snapshot(error) => meaning_of_snapshot(error),
        Fault::File(fault) => meaning_of_file(fault),
        Fault::Silences(fault) | Fault::Log(fault) => meaning_of_state(fault),
        Fault::Server(fault) => meaning_of_server(fault),
        Fault::List(error) => meaning_of_list(error),
        Fault::Gossip(error) => meaning_of_answer(error),
        Fault::Peer =>
            "a peer is NAME=ADDRESS:PORT, or NAME=PORT on 127.0.0.1, with a port from 1 to 65535",
        Fault::Config(error) => meaning_of_names(error),
        Fault::Connection(fault) => meaning_of_connection(fault),
        Fault::Lost(fault, _) => meaning_of_link(fault),
        Fault::SilencesTorn(_) | Fault::LogTorn(_) => TORN,
        Fault::Random(_) => "the system gave no random bytes",
        Fault::Listen(kind, _) => meaning_of_listen(kind),
        Fault::Secret(fault) => meaning_of_secret(fault),
        Fault::Gate(fault) => meaning_of_gate(fault),
        Fault::Accept(_) => "a connection that came was not accepted",
        Fault::Crowded(_) => CROWDED,
        Fault::Unfinished(_) => UNFINISHED,
        Fault::Clock(_) => "the system's clock can't be read",
        Fault::ClockBehind(_) => CLOCK_BEHIND,
        Fault::ClockCaughtUp => "the clock is behind the last event no more",
        Fault::ClockAhead(_) => CLOCK_AHEAD,
        Fault::NoPull => NO_PULL,
        Fault::Unheard => UNHEARD,
        Fault::WithheldPattern(_) => WITHHELD_PATTERN,
        Fault::WithheldMatcher(_) => WITHHELD_MATCHER,
        Fault::FieldsDropped(_) => FIELDS_DROPPED,
        Fault::LinesLost(_) => LINES_LOST,
        Fault::UnsentMemory(_) => UNSENT_MEMORY,
        Fault::UnsentLimit(_) => UNSENT_LIMIT,
    }
}

/// Returns the reason why it can't listen.
fn meaning_of_listen(kind: ErrorKind) -> &'static str {
    match kind {
        ErrorKind::AddrInUse => "another process listens at this port",
        ErrorKind::AddrNotAvailable => "this machine doesn't have this address",
        _ => "the system doesn't let it listen at this port",
    }
}

/// Returns the reason why the secret isn't read.
fn meaning_of_secret(fault: SecretFault) -> &'static str {
    match fault {
        SecretFault::File(kind) => meaning_of_file(FileFault::File(kind)),
        SecretFault::Read(_) => READ,
        SecretFault::Short => "the file of --secret has fewer than 16 bytes, but for a line feed",
        SecretFault::Long => "the file of --secret has over 4,096 bytes",
        SecretFault::Memory => MEMORY,
    }
}

/// Returns the reason why no more is heard of a connection at its authenticator.
fn meaning_of_gate(fault: AuthFault) -> &'static str {
    match fault {
        AuthFault::Frames =>
            "frames came where none are heard; --secret, --peers-listen and --open-peers say where they are",
        AuthFault::Requests => "a request came at --peers-listen, where only frames are heard",
        AuthFault::Unsealed =>
            "frames came unsealed, and this member has a --secret; has the peer one?",
        AuthFault::Cut => "the connection ended in a sealed frame, of which nothing is taken",
        AuthFault::Seal(SealError::Length) => "the length of a sealed frame is out of its range",
        AuthFault::Seal(SealError::Sum) =>
            "the sum of a frame isn't right, so it isn't taken; has the peer the same --secret, and this member's name, and is it of this release?",
        AuthFault::Seal(SealError::Number) => "a connection has no number for another frame",
        AuthFault::Seal(SealError::NotOneFrame) => "what is sealed isn't one frame",
        AuthFault::Seal(SealError::Memory) => MEMORY,
    }
}

/// Returns the fault of a row.
fn meaning_of_snapshot(error: SnapshotError) -> &'static str {
    match error {
        SnapshotError::Read { .. } => READ,
        SnapshotError::Write { .. } => WRITE,
        SnapshotError::Wire(WireError::WrongType { .. }) => {
            "the field at this byte has another type than its number; is this the other state? (--state, --sil, --nfl)"
        }
        SnapshotError::Wire(error) => meaning_of_wire(error),
        SnapshotError::DuplicateKey =>
            "a key comes twice; fold keeps of each key the version that counts",
        SnapshotError::TooLarge => "the row, or a message in it, has over 67,108,864 bytes",
        SnapshotError::Memory => MEMORY,
    }
}

/// Returns the fault of a message.
fn meaning_of_wire(error: WireError) -> &'static str {
    match error {
        WireError::Truncated { .. } => "the input ends in what begins at this byte",
        WireError::LongVarint { .. } => "the number at this byte has more than 64 bits",
        WireError::FieldNumber { .. } => "the field at this byte has no possible number",
        WireError::WireType { .. } => "the field at this byte has no known type",
        WireError::WrongType { .. } => "the field at this byte has another type than its number",
        WireError::NotUtf8 { .. } => "the text at this byte is not UTF-8",
        WireError::Timestamp { .. } => "the timestamp at this byte is out of range",
        WireError::MatcherType { .. } => "the matcher at this byte is of no known type",
        WireError::MissingMessage { .. } => "the field of this number is missing",
        WireError::TooLarge => "a message has over 67,108,864 bytes",
        WireError::Memory => MEMORY,
    }
}

/// Returns the reason why a file isn't read or written.
fn meaning_of_file(fault: FileFault) -> &'static str {
    match fault {
        FileFault::File(ErrorKind::NotFound) => "there is no such file or directory",
        FileFault::File(ErrorKind::PermissionDenied) =>
            "the system gives no leave for this file or directory",
        FileFault::File(_) => "the system refuses the file",
        FileFault::Snapshot(error) => meaning_of_snapshot(error),
        FileFault::NotAFile =>
            "a directory, a pipe, a socket or a device stands in the file's place",
        FileFault::Locked => "another process has the file; does the member run already?",
    }
}

/// Returns the reason why a member's state isn't loaded or saved.
fn meaning_of_state(fault: FileFault) -> &'static str {
    match fault {
        FileFault::Snapshot(SnapshotError::Write { .. }) => {
            "the state isn't saved, since a write failed after so many bytes; the file is as it was"
        }
        FileFault::Snapshot(SnapshotError::TooLarge) => {
            "the file, or the state that is to be saved, has more bytes than --most-bytes"
        }
        fault => meaning_of_file(fault),
    }
}

/// Returns the reason why a server didn't answer.
fn meaning_of_server(fault: ServerFault) -> &'static str {
    match fault {
        ServerFault::Connect(kind) => meaning_of_connect(kind),
        ServerFault::Write { .. } => LOST_WRITE,
        ServerFault::Read { at: 0 } => NO_ANSWER,
        ServerFault::Read { .. } => LOST_READ,
        ServerFault::TooLarge => "the reply has over 67,125,248 bytes",
        ServerFault::NoHead => "the reply is none of HTTP; is this an Alertmanager or a member?",
        ServerFault::Status(_) =>
            "the reply's status isn't 200; is this an Alertmanager or a member?",
        ServerFault::Memory => MEMORY,
    }
}

/// Returns the fault of a replica's answer by gossip.
fn meaning_of_answer(error: AnswerError) -> &'static str {
    match error {
        AnswerError::Nothing => {
            "the connection was closed without an answer; is this the port of its gossip (--cluster.listen-address), and without TLS?"
        }
        AnswerError::Kind(ENCRYPTED) => "the answer is encrypted, which is not spoken",
        AnswerError::Kind(LABELLED) => "the cluster has a label, which is not spoken",
        AnswerError::Kind(ALERT) => "the answer is of TLS, which is not spoken",
        AnswerError::Kind(HTTP) =>
            "the answer is of HTTP; the port of its gossip is wanted (--cluster.listen-address)",
        AnswerError::Kind(_) =>
            "the answer begins with no type of message that is one; is this the port of its gossip (--cluster.listen-address)?",
        AnswerError::Cut => "the answer ends in the middle",
        AnswerError::Form => "the answer has a value of another form than memberlist writes",
        AnswerError::Compression(_) => "the answer is compressed in another way than by LZW",
        AnswerError::Nodes => "the answer tells of over 65,536 nodes",
        AnswerError::Length => "the answer has other bytes than it says",
        AnswerError::Unpacking(error) => meaning_of_lzw(error),
        AnswerError::Wire(error) => meaning_of_wire(error),
        AnswerError::Twice => "the answer has the state twice",
        AnswerError::Error => "the replica told an error; am_tool pull prints it",
        AnswerError::NoState => "the replica tells of no such state",
        AnswerError::Row(error) => meaning_of_snapshot(SnapshotError::from(error)),
        AnswerError::Memory => MEMORY,
    }
}

/// The first bytes by which answers are told apart that aren't read: of one that is encrypted, one that has a label, an alert of TLS
/// (RFC 8446, section 5.1), and the `H` of HTTP.
const ENCRYPTED: u8 = 10;

const LABELLED: u8 = 244;

const ALERT: u8 = 21;

const HTTP: u8 = 72;

/// Returns the fault of compressed bytes.
fn meaning_of_lzw(error: LzwError) -> &'static str {
    match error {
        LzwError::Cut => "what is compressed in the answer ends in the middle",
        LzwError::Code => "what is compressed in the answer has a code that stands for nothing",
        LzwError::TooLong => "the answer unpacks to over 268,435,456 bytes",
        LzwError::Memory => MEMORY,
    }
}

/// Returns the reason why there is no connection.
fn meaning_of_connect(kind: ErrorKind) -> &'static str {
    match kind {
        ErrorKind::ConnectionRefused => "nothing listens there",
        ErrorKind::TimedOut => "nothing answers there in time",
        _ => "nothing is reached there",
    }
}

/// Returns the fault of a list that a server replied.
fn meaning_of_list(error: ListError) -> &'static str {
    match error {
        ListError::BadJson => "the reply is no JSON",
        ListError::NoList => "the reply is JSON and no list",
        ListError::Wrong(_, _) => {
            "of the silence at this place of the list, what stands at this key is missing or of another kind"
        }
        ListError::TooLarge(_) => "the silence at this place of the list has over 67,108,864 bytes",
        ListError::Memory => MEMORY,
    }
}

/// Returns the fault of the names of members.
fn meaning_of_names(error: ConfigError) -> &'static str {
    match error {
        ConfigError::EmptyName => "a member's name has no byte",
        ConfigError::LongName => "a member's name has over 255 bytes",
        ConfigError::SameName => "two members have one name",
        ConfigError::Memory => MEMORY,
    }
}

/// Returns the reason why a connection ended early.
fn meaning_of_connection(fault: ConnectionFault) -> &'static str {
    match fault {
        ConnectionFault::Read { .. } => LOST_READ,
        ConnectionFault::Write { .. } => LOST_WRITE,
        ConnectionFault::TooLarge => "over 134,217,728 bytes came on one connection",
        ConnectionFault::Frame(error) => meaning_of_frame(error),
        ConnectionFault::UnknownName =>
            "who greeted so is no peer of this member; --peer names those",
        ConnectionFault::Step(error) => meaning_of_step(error),
    }
}

/// Returns the fault of a greeting or a frame.
fn meaning_of_frame(error: FrameError) -> &'static str {
    match error {
        FrameError::Kind =>
            "no frame begins with this byte; did a peer send it, or has it a --secret, and this member none?",
        FrameError::Length => "the length of a greeting or a frame is out of its range",
        FrameError::Wire(error) => meaning_of_wire(error),
        FrameError::UnknownState => "a part of a frame is of no known state",
        FrameError::Ended => "the stream ended with an earlier fault",
        FrameError::Memory => MEMORY,
    }
}

/// Returns the reason why a step was refused.
fn meaning_of_step(error: StepError) -> &'static str {
    match error {
        StepError::MomentBack { .. } =>
            "the step's moment is before that of the last event, which is this",
        StepError::UnknownPeer => "no peer has this place",
        StepError::Frame(error) => meaning_of_frame(error),
        StepError::Memory { .. } =>
            "memory ran out when so many versions were taken; a pull brings the others",
    }
}

/// Returns the reason why what waited for a peer is lost.
fn meaning_of_link(fault: LinkFault) -> &'static str {
    match fault {
        LinkFault::Connect(kind) => meaning_of_connect(kind),
        LinkFault::Write { .. } | LinkFault::Time { .. } => LOST_WRITE,
        LinkFault::Read { .. } => LOST_READ,
        LinkFault::Unanswered { .. } =>
            "the peer didn't answer with a challenge; is it of a release before 0.2.0? All members with a --secret have to be of this one",
        LinkFault::TooLong => "over 67,125,248 bytes came back",
        LinkFault::Full => "over 134,217,728 bytes wait for this peer; does it hang?",
        LinkFault::Memory => "memory ran out for what waits for this peer",
        LinkFault::NoPeer => "no member has this place",
    }
}
