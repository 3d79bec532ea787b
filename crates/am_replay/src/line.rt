//! Lines of output, other than those of views.

ghost use Rattle.std.specs.Prelude.{◌≡◌, ◌++◌, OnOk, codes, string_bytes};
ghost use Rattle.am_replay.specs.Printed.{line_text};

use crate::names::{decision_name, kind_name, refusal_name, yes_or_no};
use crate::refusal::LineRefusal;
use am_dedup::Decision;
use am_gossip::FrameKind;
use am_report::{EscapedWord, Owner, Texts};
use am_wire::Text;
use std::alloc::AllocError;
use std::fmt::{self, Display};

/// A line of output. Members are given by their names.
#[derive(Clone, Copy)]
pub enum OutputLine<'a> {
    /// A silence was made or updated.
    Posted {
        name: &'a str,
        id: &'a str,
    },
    /// A silence was ended.
    Expired {
        name: &'a str,
        id: &'a str,
    },
    /// The entry of a notification was logged, and changed the log or not.
    Logged {
        name: &'a str,
        changed: bool,
    },
    /// A decision about notifying a group was made.
    Decided {
        name: &'a str,
        decision: Decision,
    },
    /// The silences that mute a label set, and those that are broken, were found.
    Muted {
        name: &'a str,
        ids: &'a [Text],
        broken: &'a [Text],
    },
    /// All members agree.
    Settled,
    /// The run is timely so far, or not.
    Timely {
        is_timely: bool,
    },
    /// A frame is in flight.
    Frame {
        number: u64,
        sender: &'a str,
        addressee: &'a str,
        kind: FrameKind,
    },
    /// A step was refused, by a member or by the cluster.
    Refused {
        name: Option<&'a str>,
        refusal: LineRefusal,
    },
    /// A member was calm at all of its events.
    Calm {
        name: &'a str,
    },
    /// A member was calm only before the step of this line.
    Uncalm {
        name: &'a str,
        line: u64,
    },
}

impl Display for OutputLine<'_> {
    ghost use Rattle.std.specs.Prelude.{Some};

    ghost output = { λ line. Some (line_text line) };

    #[tactic(auto, unfolding(crate::specs::Printed::line_text))]
    fn fmt<W: fmt::Write>(&self, f: &mut fmt::Formatter<W>) -> fmt::Result {
        match *self {
            OutputLine::Posted { name, id } => write!(f, "{} posted {}", word(name), word(id)),
            OutputLine::Expired { name, id } => write!(f, "{} expired {}", word(name), word(id)),
            OutputLine::Logged { name, changed } => {
                write!(f, "{} logged {}", word(name), yes_or_no(changed))
            }
            OutputLine::Decided { name, decision } => {
                write!(f, "{} decide {}", word(name), decision_name(decision))
            }
            OutputLine::Muted { name, ids, broken } => {
                let (ids, broken) = (Texts(ids), Texts(broken));
                write!(f, "{} mutes {ids} broken {broken}", word(name))
            }
            OutputLine::Settled => f.write_str("settled"),
            OutputLine::Timely { is_timely } => write!(f, "timely {}", yes_or_no(is_timely)),
            OutputLine::Frame {
                number,
                sender,
                addressee,
                kind,
            } => {
                let (sender, addressee) = (word(sender), word(addressee));
                write!(f, "frame {number} {sender} {addressee} {}", kind_name(kind))
            }
            OutputLine::Refused { name, refusal } => {
                write!(f, "{}refused {}", Owner(name), refusal_name(refusal))
            }
            OutputLine::Calm { name } => write!(f, "calm {}", word(name)),
            OutputLine::Uncalm { name, line } => write!(f, "uncalm {} line {line}", word(name)),
        }
    }
}

/// Returns a text as a word.
fn word(text: &str) -> EscapedWord<'_>
    ensures { result.0.now ≡ text.now }
{
    EscapedWord(text.as_bytes())
}

/// Appends a line and its line end.
///
/// # Errors
///
/// [`AllocError`] if memory runs out.
pub fn append_line(out: &mut String, line: &OutputLine<'_>) -> Result<(), AllocError>
    ensures appended { OnOk result (string_bytes out.new ≡ string_bytes out.old ++ line_text line.now ++ codes "\n") }
{
    writeln!(out, "{line}")
}
