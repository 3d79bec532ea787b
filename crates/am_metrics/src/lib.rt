//! Prometheus' text format, and the metrics of a member: what it counts, and the families that its /metrics has.
#![tactic(auto)]

mod beside;
mod counters;
mod family;
mod metrics;
mod peers;
mod saves;
mod sheet;
mod telling;
mod times;
mod words;
mod writing;

pub use beside::AlertmanagerCounts;
pub use counters::Counters;
pub use family::{Family, MetricLabel, MetricType, Number, Sample};
pub use metrics::Metrics;
pub use peers::{PeerCounts, PeerName};
pub use saves::Save;
pub use sheet::{MemberFacts, SilenceCounts};
pub use telling::families;
pub use words::{
    CauseLabel, CounterLabel, DecisionLabel, Failing, RequestLabel, SavedState, StepLabel,
    VersionKind, WithheldBy,
};
pub use writing::write_families;
