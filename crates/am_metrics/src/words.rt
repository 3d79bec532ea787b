//! The words that labels may have. None comes from a client.

/// A label with few values, each of which has a counter.
pub trait CounterLabel: Copy {
    /// Returns the place of the value's counter.
    fn place(self) -> usize;

    /// Returns the word for the value.
    fn word(self) -> &'static str;
}

/// The call of a request.
#[derive(Clone, Copy)]
pub enum RequestLabel {
    List,
    Get,
    Post,
    Delete,
    Decide,
    Notified,
    Log,
    Page,
    Healthy,
    Ready,
    Status,
    Receivers,
    Metrics,
    /// The request is for none of these.
    Other,
}

impl RequestLabel {
    /// All values, in the order in which they are written.
    pub const ALL: &'static [RequestLabel] = &[
        RequestLabel::List,
        RequestLabel::Get,
        RequestLabel::Post,
        RequestLabel::Delete,
        RequestLabel::Decide,
        RequestLabel::Notified,
        RequestLabel::Log,
        RequestLabel::Page,
        RequestLabel::Healthy,
        RequestLabel::Ready,
        RequestLabel::Status,
        RequestLabel::Receivers,
        RequestLabel::Metrics,
        RequestLabel::Other,
    ];
}

impl CounterLabel for RequestLabel {
    fn place(self) -> usize {
        self as usize
    }

    fn word(self) -> &'static str {
        match self {
            RequestLabel::List => "list",
            RequestLabel::Get => "get",
            RequestLabel::Post => "post",
            RequestLabel::Delete => "delete",
            RequestLabel::Decide => "decide",
            RequestLabel::Notified => "notified",
            RequestLabel::Log => "log",
            RequestLabel::Page => "page",
            RequestLabel::Healthy => "healthy",
            RequestLabel::Ready => "ready",
            RequestLabel::Status => "status",
            RequestLabel::Receivers => "receivers",
            RequestLabel::Metrics => "metrics",
            RequestLabel::Other => "other",
        }
    }
}

/// The statuses of replies.
pub const STATUSES: [&str; 11] = [
    "200", "400", "403", "404", "405", "413", "431", "500", "501", "503", "other",
];

/// Returns the place of a status in [`STATUSES`], or that of `other`.
pub fn status_place(status: &[u8]) -> usize {
    for (place, word) in STATUSES.iter().enumerate() {
        if word.as_bytes() == status {
            return place;
        }
    }
    STATUSES.len() - 1
}

/// The cause of a step of the instance.
#[derive(Clone, Copy)]
pub enum StepLabel {
    List,
    Get,
    Post,
    Delete,
    Mutes,
    Decide,
    Notified,
    Delta,
    State,
    Tick,
}

impl StepLabel {
    /// All values, in the order in which they are written.
    pub const ALL: &'static [StepLabel] = &[
        StepLabel::List,
        StepLabel::Get,
        StepLabel::Post,
        StepLabel::Delete,
        StepLabel::Mutes,
        StepLabel::Decide,
        StepLabel::Notified,
        StepLabel::Delta,
        StepLabel::State,
        StepLabel::Tick,
    ];
}

impl CounterLabel for StepLabel {
    fn place(self) -> usize {
        self as usize
    }

    fn word(self) -> &'static str {
        match self {
            StepLabel::List => "list",
            StepLabel::Get => "get",
            StepLabel::Post => "post",
            StepLabel::Delete => "delete",
            StepLabel::Mutes => "mutes",
            StepLabel::Decide => "decide",
            StepLabel::Notified => "notified",
            StepLabel::Delta => "delta",
            StepLabel::State => "state",
            StepLabel::Tick => "tick",
        }
    }
}

/// The kind of a frame in Alertmanager's terms: news of one thing, or all that is held; or a Tick, which Alertmanager doesn't have.
#[derive(Clone, Copy)]
pub enum VersionKind {
    Update,
    FullState,
    Tick,
}

impl VersionKind {
    /// All values, in the order in which they are written.
    pub const ALL: &'static [VersionKind] = &[
        VersionKind::Update,
        VersionKind::FullState,
        VersionKind::Tick,
    ];
}

impl CounterLabel for VersionKind {
    fn place(self) -> usize {
        self as usize
    }

    fn word(self) -> &'static str {
        match self {
            VersionKind::Update => "update",
            VersionKind::FullState => "full_state",
            VersionKind::Tick => "tick",
        }
    }
}

/// The cause of losing frames for a peer.
#[derive(Clone, Copy)]
pub enum CauseLabel {
    Connect,
    Write,
    Time,
    Full,
    Memory,
}

impl CauseLabel {
    /// All values, in the order in which they are written.
    pub const ALL: &'static [CauseLabel] = &[
        CauseLabel::Connect,
        CauseLabel::Write,
        CauseLabel::Time,
        CauseLabel::Full,
        CauseLabel::Memory,
    ];
}

impl CounterLabel for CauseLabel {
    fn place(self) -> usize {
        self as usize
    }

    fn word(self) -> &'static str {
        match self {
            CauseLabel::Connect => "connect",
            CauseLabel::Write => "write",
            CauseLabel::Time => "time",
            CauseLabel::Full => "full",
            CauseLabel::Memory => "memory",
        }
    }
}

/// The reason for withholding a silence from an Alertmanager, which would refuse a pattern, or wouldn't take the matchers.
#[derive(Clone, Copy)]
pub enum WithheldBy {
    Pattern,
    Matcher,
}

impl WithheldBy {
    /// All values, in the order in which they are written.
    pub const ALL: &'static [WithheldBy] = &[WithheldBy::Pattern, WithheldBy::Matcher];
}

impl CounterLabel for WithheldBy {
    fn place(self) -> usize {
        self as usize
    }

    fn word(self) -> &'static str {
        match self {
            WithheldBy::Pattern => "pattern",
            WithheldBy::Matcher => "matcher",
        }
    }
}

/// The reason for closing a connection before its end.
#[derive(Clone, Copy)]
pub enum Failing {
    Read,
    Write,
    Time,
    Crowded,
    Unfinished,
}

impl Failing {
    /// All values, in the order in which they are written.
    pub const ALL: &'static [Failing] = &[
        Failing::Read,
        Failing::Write,
        Failing::Time,
        Failing::Crowded,
        Failing::Unfinished,
    ];
}

impl CounterLabel for Failing {
    fn place(self) -> usize {
        self as usize
    }

    fn word(self) -> &'static str {
        match self {
            Failing::Read => "read",
            Failing::Write => "write",
            Failing::Time => "time",
            Failing::Crowded => "crowded",
            Failing::Unfinished => "unfinished",
        }
    }
}

/// A state that is saved in a file.
#[derive(Clone, Copy)]
pub enum SavedState {
    Silences,
    Log,
}

/// The decision whether to notify a group, with its reason.
#[derive(Clone, Copy)]
pub enum DecisionLabel {
    First,
    NewFiring,
    AllResolved,
    NewResolved,
    Repeat,
    Unjudged,
    Skip,
    /// The decision comes from no step, since no alert is left.
    Muted,
}

impl DecisionLabel {
    /// All values, in the order in which they are written.
    pub const ALL: &'static [DecisionLabel] = &[
        DecisionLabel::First,
        DecisionLabel::NewFiring,
        DecisionLabel::AllResolved,
        DecisionLabel::NewResolved,
        DecisionLabel::Repeat,
        DecisionLabel::Unjudged,
        DecisionLabel::Skip,
        DecisionLabel::Muted,
    ];
}

impl CounterLabel for DecisionLabel {
    fn place(self) -> usize {
        self as usize
    }

    fn word(self) -> &'static str {
        match self {
            DecisionLabel::First => "First",
            DecisionLabel::NewFiring => "NewFiring",
            DecisionLabel::AllResolved => "AllResolved",
            DecisionLabel::NewResolved => "NewResolved",
            DecisionLabel::Repeat => "Repeat",
            DecisionLabel::Unjudged => "Unjudged",
            DecisionLabel::Skip => "Skip",
            DecisionLabel::Muted => "Muted",
        }
    }
}
