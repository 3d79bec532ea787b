//! The marks of a schedule's lines, which say what each did.

use am_cluster::Cluster;
use am_dedup::Decision;
use am_instance::Place;
use am_replay::{LineAnswer, LineRefusal};
use am_schedule::{Action, Line, LineEvent, Word};
use am_version_order::Moment;

/// The action that a line asks for.
#[derive(Clone, Copy)]
pub enum LineVerb {
    From,
    Notified,
    Decide,
    Start,
    Stop,
    Deliver,
    Lose,
    Settle,
    Post,
    Expire,
    Mutes,
    Show,
    Tick,
    Pull,
    Save,
    Timely,
    Frames,
}

impl LineVerb {
    /// Returns the name of the action.
    pub fn name(self) -> &'static str {
        match self {
            LineVerb::From => "from",
            LineVerb::Notified => "notified",
            LineVerb::Decide => "decide",
            LineVerb::Start => "start",
            LineVerb::Stop => "stop",
            LineVerb::Deliver => "deliver",
            LineVerb::Lose => "lose",
            LineVerb::Settle => "settle",
            LineVerb::Post => "post",
            LineVerb::Expire => "end",
            LineVerb::Mutes => "mutes",
            LineVerb::Show => "show",
            LineVerb::Tick => "tick",
            LineVerb::Pull => "pull",
            LineVerb::Save => "save",
            LineVerb::Timely => "timely",
            LineVerb::Frames => "frames",
        }
    }
}

/// A line of a schedule as it was played.
#[derive(Clone, Copy)]
pub struct LineMark {
    /// The number of the line, counted from 1.
    pub line: u64,
    pub moment: Option<Moment>,
    pub verb: LineVerb,
    /// The member that makes the line's step.
    pub place: Option<Place>,
    /// The peer that a frame comes from without a step that sent it.
    pub peer: Option<Place>,
    /// The number of the frame that the line names.
    pub frame: Option<u64>,
    pub answer: LineAnswer,
}

impl LineMark {
    /// Returns the index of the frame that the line names among all that were sent, counted from 0, if that frame is in flight.
    pub fn flying(&self) -> Option<usize> {
        match self.answer {
            LineAnswer::Refused(LineRefusal::NoFrame) => None,
            _ => Some(self.frame?.checked_sub(1)? as usize),
        }
    }

    /// Returns whether the line was refused.
    pub fn is_refused(&self) -> bool {
        matches!(self.answer, LineAnswer::Refused(_))
    }

    /// Returns whether the line's decision notifies a group.
    pub fn notifies(&self) -> bool {
        matches!(self.answer, LineAnswer::Decided(Decision::Notify(_)))
    }
}

/// Returns what the line of a number did.
pub fn mark_of(cluster: &Cluster, line: &Line, number: u64, answer: LineAnswer) -> LineMark {
    let (verb, moment, name, frame) = parts_of(line);
    LineMark {
        line: number,
        moment,
        verb,
        place: place_of(cluster, name),
        peer: place_of(cluster, peer_of(line)),
        frame,
        answer,
    }
}

/// Returns the action that a line asks for, its moment, its member, and the frame that it names.
fn parts_of(line: &Line) -> (LineVerb, Option<Moment>, Option<&Word>, Option<u64>) {
    match line {
        Line::Step(step) => match step.action() {
            Action::Event { at, name, event } => (verb_of(event), Some(*at), Some(name), None),
            Action::Stop { name } => (LineVerb::Stop, None, Some(name), None),
            Action::Save { name } => (LineVerb::Save, None, Some(name), None),
            Action::Deliver { at, frame } => (LineVerb::Deliver, Some(*at), None, Some(*frame)),
            Action::Lose { frame } => (LineVerb::Lose, None, None, Some(*frame)),
        },
        Line::Settle(now) => (LineVerb::Settle, Some(*now), None, None),
        Line::Timely(..) => (LineVerb::Timely, None, None, None),
        Line::Frames => (LineVerb::Frames, None, None, None),
    }
}

fn verb_of(event: &LineEvent) -> LineVerb {
    match event {
        LineEvent::From { .. } => LineVerb::From,
        LineEvent::Post(_) => LineVerb::Post,
        LineEvent::Expire { .. } => LineVerb::Expire,
        LineEvent::Notified(_) => LineVerb::Notified,
        LineEvent::Decide { .. } => LineVerb::Decide,
        LineEvent::Mutes { .. } => LineVerb::Mutes,
        LineEvent::Show => LineVerb::Show,
        LineEvent::Tick => LineVerb::Tick,
        LineEvent::Pull { .. } => LineVerb::Pull,
        LineEvent::Start => LineVerb::Start,
    }
}

/// Returns the peer that a frame comes from without a step that sent it.
fn peer_of(line: &Line) -> Option<&Word> {
    let Line::Step(step) = line else {
        return None;
    };
    match step.action() {
        Action::Event {
            event: LineEvent::From { peer, .. },
            ..
        } => Some(peer),
        _ => None,
    }
}

/// Returns the place of the member of a name.
fn place_of(cluster: &Cluster, name: Option<&Word>) -> Option<Place> {
    let first = cluster.instance(0)?;
    first.config().place_named(name?.as_str())
}
