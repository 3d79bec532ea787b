//! Families of figures.

ghost use Rattle.std.specs.Prelude.{◌≡◌, ◌<◌};
ghost use Rattle.am_metrics.specs.MetricTypes.{kind_text};

use am_wire::Text;

/// The kind of the figures of a family.
#[derive(Clone, Copy, PartialEq, Eq)]
pub enum MetricType {
    /// The figures only grow, from 0 at the start.
    Counter,
    Gauge,
    /// The figures are the numbers of values up to certain bounds, their sum and their count.
    Histogram,
}

impl MetricType {
    /// Returns the name of the kind.
    pub const fn text(self) -> &'static str
        ensures { result.now ≡ kind_text self }
    {
        match self {
            MetricType::Counter => "counter",
            MetricType::Gauge => "gauge",
            MetricType::Histogram => "histogram",
        }
    }
}

/// A number.
#[derive(Clone, Copy, PartialEq, Eq)]
pub enum Number {
    Whole(u64),
    /// A whole number and a number of billionths.
    Nanos { whole: u64, nanos: u32 },
}

/// A label of a figure.
#[derive(Drop)]
pub struct MetricLabel {
    pub name: &'static str,
    pub value: Text,
}

/// A figure of a family.
#[derive(Drop)]
pub struct Sample {
    /// The ending of the family's name: nothing, or the part of a histogram that this is.
    pub suffix: &'static str,
    pub labels: Vec<MetricLabel>,
    pub number: Number,
}

/// The figures of one name.
#[derive(Drop)]
pub struct Family {
    pub name: &'static str,
    /// The description of the figures.
    pub help: &'static str,
    pub kind: MetricType,
    pub samples: Vec<Sample>,
}
