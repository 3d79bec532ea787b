//! All figures of a member.

use crate::beside::AlertmanagerCounts;
use crate::counters::Counters;
use crate::family::{Family, MetricType, Number, Sample};
use crate::metrics::Metrics;
use crate::peers::{PeerCounts, PeerName};
use crate::saves::Save;
use crate::sheet::{
    Figure, MemberFacts, SilenceCounts, add_family, add_sample, add_singles, by_peer, by_value,
    by_word, seconds, seconds_of,
};
use crate::times::{BOUND_WORDS, RequestTimes};
use crate::words::{
    CauseLabel, CounterLabel, DecisionLabel, Failing, RequestLabel, STATUSES, StepLabel,
    VersionKind, WithheldBy,
};
use std::alloc::{AllocError, Global};

/// Adds the figure of the program's build.
fn add_build(alloc: Global, out: &mut Vec<Family>, version: &str) -> Result<(), AllocError> {
    let mut samples = Vec::with_capacity(alloc, 1)?;
    let words = [("version", version)];
    add_sample(alloc, &mut samples, "", &words, Number::Whole(1))?;
    add_family(
        out,
        "alertmanager_build_info",
        "1; the label has the version of the program.",
        MetricType::Gauge,
        samples,
    )
}

/// Adds the number of silences in each state.
fn add_silences(
    alloc: Global,
    out: &mut Vec<Family>,
    counts: SilenceCounts,
) -> Result<(), AllocError> {
    let numbers = [
        ("pending", Number::Whole(counts.pending)),
        ("active", Number::Whole(counts.active)),
        ("expired", Number::Whole(counts.expired)),
    ];
    add_family(
        out,
        "alertmanager_silences",
        "Silences held, by state.",
        MetricType::Gauge,
        by_word(alloc, "state", &numbers)?,
    )
}

/// Adds the figures of what the member holds.
fn add_held(
    alloc: Global,
    out: &mut Vec<Family>,
    shown: &MemberFacts<'_>,
) -> Result<(), AllocError> {
    add_build(alloc, out, shown.version)?;
    add_silences(alloc, out, shown.silences)?;
    add_singles(
        alloc,
        out,
        &[
            Figure {
                name: "maityrunga_log_entries",
                help: "Entries of the notification log held, live or not.",
                kind: MetricType::Gauge,
                number: Number::Whole(shown.entries),
            },
            Figure {
                name: "maityrunga_ready",
                help: "1 where it answers requests, 0 while it waits for a first pull or stops.",
                kind: MetricType::Gauge,
                number: Number::Whole(u64::from(shown.is_ready)),
            },
            Figure {
                name: "maityrunga_clock_behind_seconds",
                help: "By how much the clock is behind the moment of the last event.",
                kind: MetricType::Gauge,
                number: seconds(shown.behind),
            },
        ],
    )
}

/// Adds a counter.
fn add_counter(
    out: &mut Vec<Family>,
    name: &'static str,
    help: &'static str,
    samples: Vec<Sample>,
) -> Result<(), AllocError> {
    add_family(out, name, help, MetricType::Counter, samples)
}

/// Adds the figures of what the member did.
fn add_done(
    alloc: Global,
    out: &mut Vec<Family>,
    steps: &Counters,
    decisions: &Counters,
) -> Result<(), AllocError> {
    add_counter(
        out,
        "maityrunga_steps_total",
        "Steps of the replica, by event.",
        by_value(alloc, "event", StepLabel::ALL, steps)?,
    )?;
    add_counter(
        out,
        "maityrunga_decisions_total",
        "Decisions whether to notify, by reason.",
        by_value(alloc, "reason", DecisionLabel::ALL, decisions)?,
    )
}

/// Adds the number of answered requests of one call, by status.
fn add_answered(
    alloc: Global,
    out: &mut Vec<Sample>,
    figures: &Metrics,
    request: RequestLabel,
) -> Result<(), AllocError> {
    for (column, status) in STATUSES.iter().enumerate() {
        let words = [("call", request.word()), ("status", *status)];
        let number = Number::Whole(figures.answered(request, column));
        add_sample(alloc, out, "", &words, number)?;
    }
    Ok(())
}

/// Returns the figures of requests, by call and by status.
fn answered(alloc: Global, figures: &Metrics) -> Result<Vec<Sample>, AllocError> {
    let mut samples = Vec::with_capacity(
        alloc,
        RequestLabel::ALL.len().saturating_mul(STATUSES.len()),
    )?;
    for request in RequestLabel::ALL {
        add_answered(alloc, &mut samples, figures, *request)?;
    }
    Ok(samples)
}

/// Adds the durations of the requests of one call.
fn add_times(
    alloc: Global,
    out: &mut Vec<Sample>,
    times: &RequestTimes,
    request: RequestLabel,
) -> Result<(), AllocError> {
    let mut count: u64 = 0;
    for (bucket, bound) in BOUND_WORDS.iter().enumerate() {
        count = count.saturating_add(times.bucket(request, bucket));
        let words = [("call", request.word()), ("le", *bound)];
        add_sample(alloc, out, "_bucket", &words, Number::Whole(count))?;
    }
    let words = [("call", request.word())];
    add_sample(alloc, out, "_sum", &words, seconds_of(times.sum(request)))?;
    add_sample(alloc, out, "_count", &words, Number::Whole(count))
}

/// Returns the figures of the durations of requests.
fn durations(alloc: Global, times: &RequestTimes) -> Result<Vec<Sample>, AllocError> {
    let mut samples = Vec::new(alloc);
    for request in RequestLabel::ALL {
        add_times(alloc, &mut samples, times, *request)?;
    }
    Ok(samples)
}

/// Adds the figures of requests over HTTP and of their connections.
fn add_requests(
    alloc: Global,
    out: &mut Vec<Family>,
    figures: &Metrics,
    waiting: u64,
) -> Result<(), AllocError> {
    add_counter(
        out,
        "maityrunga_http_requests_total",
        "Requests answered, by call and status.",
        answered(alloc, figures)?,
    )?;
    add_family(
        out,
        "maityrunga_http_request_duration_seconds",
        "From the end of a request to the end of its reply, by call.",
        MetricType::Histogram,
        durations(alloc, &figures.times)?,
    )?;
    add_singles(
        alloc,
        out,
        &[Figure {
            name: "maityrunga_requests_waiting",
            help: "Requests for a decision that wait for this member's turn.",
            kind: MetricType::Gauge,
            number: Number::Whole(waiting),
        }],
    )
}

/// Adds the figures of connections.
fn add_connections(
    alloc: Global,
    out: &mut Vec<Family>,
    figures: &Metrics,
) -> Result<(), AllocError> {
    add_singles(
        alloc,
        out,
        &[
            Figure {
                name: "maityrunga_connections",
                help: "Connections whose session isn't over.",
                kind: MetricType::Gauge,
                number: Number::Whole(figures.begun.saturating_sub(figures.ended)),
            },
            Figure {
                name: "maityrunga_connections_accepted_total",
                help: "Connections accepted.",
                kind: MetricType::Counter,
                number: Number::Whole(figures.begun),
            },
        ],
    )?;
    add_counter(
        out,
        "maityrunga_connections_broken_total",
        "Connections closed before their end, by cause; crowded and unfinished are refused for want of room.",
        by_value(alloc, "cause", Failing::ALL, &figures.failings)?,
    )?;
    add_singles(
        alloc,
        out,
        &[Figure {
            name: "maityrunga_accepts_failed_total",
            help: "Connections that the system refused.",
            kind: MetricType::Counter,
            number: Number::Whole(figures.not_accepted),
        }],
    )
}

/// Adds the number of lost frames for a peer, by cause.
fn add_lost(
    alloc: Global,
    out: &mut Vec<Sample>,
    peer: PeerName<'_>,
    heard: &PeerCounts,
) -> Result<(), AllocError> {
    for cause in CauseLabel::ALL {
        let words = [("peer", peer.name), ("cause", cause.word())];
        let number = Number::Whole(heard.lost(peer.place, *cause));
        add_sample(alloc, out, "", &words, number)?;
    }
    Ok(())
}

/// Returns the figures of lost frames, by peer and cause.
fn lost(
    alloc: Global,
    peers: &[PeerName<'_>],
    heard: &PeerCounts,
) -> Result<Vec<Sample>, AllocError> {
    let mut samples = Vec::new(alloc);
    for peer in peers {
        add_lost(alloc, &mut samples, *peer, heard)?;
    }
    Ok(samples)
}

/// Returns the moments when something was last taken from each peer, as figures labelled by peers.
fn last_heard(
    alloc: Global,
    label: &'static str,
    peers: &[PeerName<'_>],
    heard: &PeerCounts,
) -> Result<Vec<Sample>, AllocError> {
    let mut samples = Vec::with_capacity(alloc, peers.len())?;
    for peer in peers {
        let number = seconds_of(heard.last(peer.place));
        add_sample(alloc, &mut samples, "", &[(label, peer.name)], number)?;
    }
    Ok(samples)
}

/// Adds the number of silences withheld from an Alertmanager, by cause.
fn add_withheld(
    alloc: Global,
    out: &mut Vec<Sample>,
    one: PeerName<'_>,
    beside: &AlertmanagerCounts,
) -> Result<(), AllocError> {
    for cause in WithheldBy::ALL {
        let words = [("alertmanager", one.name), ("cause", cause.word())];
        let number = Number::Whole(beside.withheld(one.place, *cause));
        add_sample(alloc, out, "", &words, number)?;
    }
    Ok(())
}

/// Returns the figures of withheld silences, by Alertmanager and cause.
fn withheld(
    alloc: Global,
    all: &[PeerName<'_>],
    beside: &AlertmanagerCounts,
) -> Result<Vec<Sample>, AllocError> {
    let mut samples = Vec::new(alloc);
    for one in all {
        add_withheld(alloc, &mut samples, *one, beside)?;
    }
    Ok(samples)
}

/// Adds the figures of what is sent to the members and of what comes from them.
fn add_cluster(
    alloc: Global,
    out: &mut Vec<Family>,
    figures: &Metrics,
    members: u64,
) -> Result<(), AllocError> {
    let unsent = [
        ("memory", Number::Whole(figures.unsent_memory)),
        ("limit", Number::Whole(figures.unsent_limit)),
    ];
    add_singles(
        alloc,
        out,
        &[Figure {
            name: "alertmanager_cluster_members",
            help: "Members of the cluster, itself too.",
            kind: MetricType::Gauge,
            number: Number::Whole(members),
        }],
    )?;
    add_counter(
        out,
        "alertmanager_cluster_messages_sent_total",
        "Frames handed to links, by kind.",
        by_value(alloc, "msg_type", VersionKind::ALL, &figures.sent)?,
    )?;
    add_counter(
        out,
        "alertmanager_cluster_messages_received_total",
        "Frames of peers taken, by kind.",
        by_value(alloc, "msg_type", VersionKind::ALL, &figures.taken)?,
    )?;
    add_counter(
        out,
        "maityrunga_frames_unsent_total",
        "Frames lost before a link took them, by cause.",
        by_word(alloc, "cause", &unsent)?,
    )
}

/// Adds the figures of what is sent to each peer and of what comes from it.
fn add_peers(
    alloc: Global,
    out: &mut Vec<Family>,
    heard: &PeerCounts,
    peers: &[PeerName<'_>],
) -> Result<(), AllocError> {
    add_counter(
        out,
        "maityrunga_frames_sent_total",
        "Frames handed to the links to a peer.",
        by_peer(alloc, "peer", peers, &heard.sent)?,
    )?;
    add_counter(
        out,
        "maityrunga_frames_lost_total",
        "Frames lost on the way to a peer, by cause; of a link that fails, all that it carried when last it had sent all.",
        lost(alloc, peers, heard)?,
    )?;
    add_counter(
        out,
        "maityrunga_frames_taken_total",
        "Frames of a peer taken.",
        by_peer(alloc, "peer", peers, &heard.taken)?,
    )?;
    add_family(
        out,
        "maityrunga_peer_last_heard_timestamp_seconds",
        "When a frame of a peer was taken last, since 1970; 0 before that.",
        MetricType::Gauge,
        last_heard(alloc, "peer", peers, heard)?,
    )
}

/// Returns the figures of what is sent to each Alertmanager beside the member and of what comes from it.
fn add_beside(
    alloc: Global,
    out: &mut Vec<Family>,
    figures: &Metrics,
    all: &[PeerName<'_>],
) -> Result<(), AllocError> {
    add_family(
        out,
        "maityrunga_alertmanager_last_heard_timestamp_seconds",
        "When all that an Alertmanager beside it holds was taken last, since 1970; 0 before that.",
        MetricType::Gauge,
        last_heard(alloc, "alertmanager", all, &figures.heard)?,
    )?;
    add_family(
        out,
        "maityrunga_alertmanager_lacked",
        "Versions that an Alertmanager lacked at the last exchange, and was given.",
        MetricType::Gauge,
        by_peer(alloc, "alertmanager", all, &figures.beside.lacked)?,
    )?;
    add_counter(
        out,
        "maityrunga_silences_withheld_total",
        "How often a silence wasn't sent to an Alertmanager that it would hurt, by cause.",
        withheld(alloc, all, &figures.beside)?,
    )
}

/// A figure of the saves of both states.
#[derive(Clone, Copy)]
struct SaveFigure {
    name: &'static str,
    help: &'static str,
    kind: MetricType,
    silences: Number,
    log: Number,
}

/// Returns the figures of the saves.
fn save_figures(silences: &Save, log: &Save) -> [SaveFigure; 4] {
    [
        SaveFigure {
            name: "maityrunga_last_save_timestamp_seconds",
            help: "When the last save was done, since 1970; 0 before the first.",
            kind: MetricType::Gauge,
            silences: seconds(silences.done),
            log: seconds(log.done),
        },
        SaveFigure {
            name: "maityrunga_last_save_duration_seconds",
            help: "How long the last save took that was done.",
            kind: MetricType::Gauge,
            silences: seconds(silences.took),
            log: seconds(log.took),
        },
        SaveFigure {
            name: "maityrunga_saves_total",
            help: "Saves that were done, by state.",
            kind: MetricType::Counter,
            silences: Number::Whole(silences.count),
            log: Number::Whole(log.count),
        },
        SaveFigure {
            name: "maityrunga_saves_failed_total",
            help: "Saves that failed, by state.",
            kind: MetricType::Counter,
            silences: Number::Whole(silences.failed),
            log: Number::Whole(log.failed),
        },
    ]
}

/// Adds the figures of the saves.
fn add_saves(
    alloc: Global,
    out: &mut Vec<Family>,
    silences: &Save,
    log: &Save,
) -> Result<(), AllocError> {
    for figure in &save_figures(silences, log) {
        let numbers = [("sil", figure.silences), ("nfl", figure.log)];
        let samples = by_word(alloc, "state", &numbers)?;
        add_family(out, figure.name, figure.help, figure.kind, samples)?;
    }
    Ok(())
}

/// Adds the figures of the process.
fn add_process(
    alloc: Global,
    out: &mut Vec<Family>,
    figures: &Metrics,
    shown: &MemberFacts<'_>,
) -> Result<(), AllocError> {
    add_singles(
        alloc,
        out,
        &[
            Figure {
                name: "process_start_time_seconds",
                help: "When the process was started, since 1970.",
                kind: MetricType::Gauge,
                number: seconds(figures.start),
            },
            Figure {
                name: "process_cpu_seconds_total",
                help: "Processor time of the process.",
                kind: MetricType::Counter,
                number: Number::Nanos {
                    whole: shown.ticks / 100,
                    nanos: (shown.ticks % 100) as u32 * 10_000_000,
                },
            },
            Figure {
                name: "process_resident_memory_bytes",
                help: "Memory of the process that is in use.",
                kind: MetricType::Gauge,
                number: Number::Whole(shown.resident),
            },
            Figure {
                name: "process_open_fds",
                help: "Files and sockets that the process has open.",
                kind: MetricType::Gauge,
                number: Number::Whole(shown.files),
            },
        ],
    )
}

/// Adds all figures of a member.
fn add_all(
    alloc: Global,
    out: &mut Vec<Family>,
    figures: &Metrics,
    shown: &MemberFacts<'_>,
) -> Result<(), AllocError> {
    add_held(alloc, out, shown)?;
    add_done(alloc, out, &figures.steps, &figures.decisions)?;
    add_requests(alloc, out, figures, shown.waiting)?;
    add_connections(alloc, out, figures)?;
    add_cluster(alloc, out, figures, shown.members)?;
    add_peers(alloc, out, &figures.heard, shown.peers.as_slice())?;
    add_beside(alloc, out, figures, shown.beside.as_slice())?;
    add_saves(alloc, out, &figures.silences, &figures.log)?;
    add_process(alloc, out, figures, shown)
}

/// Returns all figures of a member.
///
/// # Errors
///
/// Returns [`AllocError`] if memory runs out.
pub fn families(
    alloc: Global,
    figures: &Metrics,
    shown: &MemberFacts<'_>,
) -> Result<Vec<Family>, AllocError> {
    let mut out = Vec::with_capacity(alloc, 40)?;
    add_all(alloc, &mut out, figures, shown)?;
    Ok(out)
}
