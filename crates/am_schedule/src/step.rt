//! The lines of a schedule and their contents.

ghost use Rattle.std.specs.Prelude.{◌≡◌};

use crate::hash_list::HashList;
use crate::items::Items;
use crate::shared::Shared;
use crate::word::Word;
use am_version_order::{Interval, Moment};
use std::marker::Model;

/// A silence version with one matcher, for the value of a label.
#[derive(Drop)]
pub struct SilenceLine {
    pub id: Word,
    pub updated: Moment,
    pub starts: Moment,
    pub ends: Moment,
    pub expires: Moment,
    pub name: Word,
    pub value: Word,
}

/// A log version. `receiver` is the group name; the integration is empty and the index 0.
#[derive(Drop)]
pub struct LogLine {
    pub group: Word,
    pub receiver: Word,
    pub updated: Moment,
    pub expires: Moment,
    pub firing: HashList,
    pub resolved: HashList,
}

/// A version named by a label.
#[derive(Drop)]
pub enum VersionLine {
    Silence(Shared<SilenceLine>),
    Log(Shared<LogLine>),
}

/// Versions of one state, in the order of their labels.
#[derive(Drop)]
pub enum Versions {
    Silences(Items<Shared<SilenceLine>>),
    Log(Items<Shared<LogLine>>),
}

/// A posted silence with one matcher, for the value of a label. Author and comment are empty.
#[derive(Drop)]
pub struct PostLine {
    /// The silence to change, if one is named.
    pub id: Option<Word>,
    /// The bits of a fresh id.
    pub bits: u128,
    pub starts: Moment,
    pub ends: Moment,
    pub name: Word,
    pub value: Word,
}

/// A group of alerts and the alerts of a notification.
#[derive(Drop)]
pub struct GroupLine {
    pub group: Word,
    pub receiver: Word,
    pub firing: HashList,
    pub resolved: HashList,
    pub repeat: Interval,
}

/// A label and its value.
#[derive(Drop)]
pub struct Pair {
    pub name: Word,
    pub value: Word,
}

/// An event at a member at a moment.
#[derive(Drop)]
pub enum LineEvent {
    /// A Delta of these versions comes from a peer.
    From {
        peer: Word,
        versions: Versions,
    },
    Post(PostLine),
    Expire {
        id: Word,
    },
    Notified(GroupLine),
    Decide {
        group: GroupLine,
        resolved_wanted: bool,
    },
    /// The labels have distinct names.
    Mutes {
        labels: Items<Pair>,
    },
    Show,
    Tick,
    /// A Push goes to a peer.
    Pull {
        peer: Word,
    },
    /// The member starts from its last save.
    Start,
}

/// An effect of a line on the cluster.
#[derive(Drop)]
pub enum Action {
    Event {
        at: Moment,
        name: Word,
        event: LineEvent,
    },
    Stop {
        name: Word,
    },
    Save {
        name: Word,
    },
    /// The frame with that number is delivered.
    Deliver {
        at: Moment,
        frame: u64,
    },
    /// The frame with that number is lost.
    Lose {
        frame: u64,
    },
}

/// A step of a cluster. Contracts see its action. Only the reading of a schedule makes one.
#[derive(Drop)]
pub struct Step {
    action: Action,
}

impl Model for Step {
    ghost use Rattle.am_schedule.specs.declared.step.Action.{Action};

    ghost Value = { Action };

    ghost view = { λ s. s.action };
}

impl Step {
    pub(crate) fn new(action: Action) -> Step
        ensures { result ≡ action }
    {
        Step { action }
    }

    /// Returns the action of the step.
    pub fn action(&self) -> &Action
        ensures { result.now ≡ self.now }
    {
        &self.action
    }
}

/// A line of a schedule that is neither the cluster's nor a version's.
#[derive(Drop)]
pub enum Line {
    Step(Step),
    /// All members have to agree at that moment.
    Settle(Moment),
    /// The run so far is tested for being timely within a spread and a flight time.
    Timely(Interval, Interval),
    /// The frames in flight are listed.
    Frames,
}
