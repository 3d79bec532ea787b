//! Families of figures in the making.

use crate::counters::Counters;
use crate::family::{Family, MetricLabel, MetricType, Number, Sample};
use crate::peers::PeerName;
use crate::words::CounterLabel;
use am_wire::Text;
use std::alloc::{AllocError, Global};
use std::time::Duration;

/// The numbers of silences, by state.
#[derive(Clone, Copy)]
pub struct SilenceCounts {
    pub pending: u64,
    pub active: u64,
    pub expired: u64,
}

/// The facts about a member that are shown beside its counts.
#[derive(Drop)]
pub struct MemberFacts<'a> {
    /// The version of the program.
    pub version: &'a str,
    /// The number of members, including this one.
    pub members: u64,
    /// The other members.
    pub peers: Vec<PeerName<'a>>,
    /// The Alertmanagers beside the member.
    pub beside: Vec<PeerName<'a>>,
    /// The numbers of silences.
    pub silences: SilenceCounts,
    /// The number of entries in the log.
    pub entries: u64,
    /// The number of requests that wait for the member's turn.
    pub waiting: u64,
    /// The time by which the clock is behind the moment of the last event.
    pub behind: Duration,
    /// True if the member answers requests.
    pub is_ready: bool,
    /// The processor time taken by the member, in hundredths of a second.
    pub ticks: u64,
    /// The number of bytes that the member has in memory.
    pub resident: u64,
    /// The number of files and sockets that the member has open.
    pub files: u64,
}

/// Converts a time into a number of seconds.
pub fn seconds(time: Duration) -> Number {
    Number::Nanos {
        whole: time.as_secs(),
        nanos: time.subsec_nanos(),
    }
}

/// Converts nanoseconds into a number of seconds.
pub fn seconds_of(nanos: u64) -> Number {
    Number::Nanos {
        whole: nanos / 1_000_000_000,
        nanos: (nanos % 1_000_000_000) as u32,
    }
}

/// Returns the labels of a figure from their names and values.
fn labels_of(
    alloc: Global,
    words: &[(&'static str, &str)],
) -> Result<Vec<MetricLabel>, AllocError> {
    let mut labels = Vec::with_capacity(alloc, words.len())?;
    for (name, word) in words {
        let value = Text::copied(alloc, word)?;
        labels.push(MetricLabel { name, value })?;
    }
    Ok(labels)
}

/// Adds a figure with labels.
pub fn add_sample(
    alloc: Global,
    out: &mut Vec<Sample>,
    suffix: &'static str,
    words: &[(&'static str, &str)],
    number: Number,
) -> Result<(), AllocError> {
    let labels = labels_of(alloc, words)?;
    out.push(Sample {
        suffix,
        labels,
        number,
    })?;
    Ok(())
}

/// Adds a family.
pub fn add_family(
    out: &mut Vec<Family>,
    name: &'static str,
    help: &'static str,
    kind: MetricType,
    samples: Vec<Sample>,
) -> Result<(), AllocError> {
    out.push(Family {
        name,
        help,
        kind,
        samples,
    })?;
    Ok(())
}

/// A figure with no label.
#[derive(Clone, Copy)]
pub struct Figure {
    pub name: &'static str,
    pub help: &'static str,
    pub kind: MetricType,
    pub number: Number,
}

/// Adds the families of figures with no label.
pub fn add_singles(
    alloc: Global,
    out: &mut Vec<Family>,
    figures: &[Figure],
) -> Result<(), AllocError> {
    for figure in figures {
        let mut samples = Vec::with_capacity(alloc, 1)?;
        add_sample(alloc, &mut samples, "", &[], figure.number)?;
        add_family(out, figure.name, figure.help, figure.kind, samples)?;
    }
    Ok(())
}

/// Returns the counters for the values of a label as figures.
pub fn by_value<L: CounterLabel>(
    alloc: Global,
    label: &'static str,
    values: &[L],
    counters: &Counters,
) -> Result<Vec<Sample>, AllocError> {
    let mut samples = Vec::with_capacity(alloc, values.len())?;
    for value in values {
        let words = [(label, value.word())];
        let number = Number::Whole(counters.get(value.place()));
        add_sample(alloc, &mut samples, "", &words, number)?;
    }
    Ok(samples)
}

/// Returns numbers as figures, each labelled by its word.
pub fn by_word(
    alloc: Global,
    label: &'static str,
    numbers: &[(&'static str, Number)],
) -> Result<Vec<Sample>, AllocError> {
    let mut samples = Vec::with_capacity(alloc, numbers.len())?;
    for (word, number) in numbers {
        add_sample(alloc, &mut samples, "", &[(label, *word)], *number)?;
    }
    Ok(samples)
}

/// Returns the counters as figures, labelled by peers.
pub fn by_peer(
    alloc: Global,
    label: &'static str,
    peers: &[PeerName<'_>],
    counters: &Counters,
) -> Result<Vec<Sample>, AllocError> {
    let mut samples = Vec::with_capacity(alloc, peers.len())?;
    for peer in peers {
        let number = Number::Whole(counters.get(peer.place));
        add_sample(alloc, &mut samples, "", &[(label, peer.name)], number)?;
    }
    Ok(samples)
}
