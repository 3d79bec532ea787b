//! The answers of a member about itself: its calls, and the text of figures.

use crate::common::{Case, cut, first};
use crate::parts::messages;
use am_api_status::{call_of, resource_of};
use am_metrics::{Family, MetricLabel, MetricType, Number, Sample, write_families};

/// The names of labels, in their order.
const LABELS: [&str; 3] = ["a", "b", "c"];

/// Answers cases of calls on the member itself, and of figures.
pub fn answer(case: &Case, verb: &str, rest: &str) {
    match verb {
        "itself" => itself(case, first(rest).0, first(rest).1),
        "figure" => figure(case, rest),
        _ => messages::answer(case, verb, rest),
    }
}

/// Answers `itself METHOD TARGET` with what a target names, and whether the reply to the method has only a head.
fn itself(case: &Case, method: &str, target: &str) {
    let Some(resource) = resource_of(target) else {
        return say!(case; "none of these");
    };
    match call_of(resource, method) {
        Ok(call) => say!(case; ?call.resource, ", bare: ", call.is_bare),
        Err(line) => say!(case; line.status, " ", line.text, ", allow ", line.allow.unwrap_or("-")),
    }
}

/// Returns the number that a word spells: a whole one, or one with a point and a number of billionths.
fn number_of(word: &str) -> Option<Number> {
    let Some((whole, nanos)) = word.split_once('.') else {
        return Some(Number::Whole(word.parse::<u64>().ok()?));
    };
    Some(Number::Nanos {
        whole: whole.parse::<u64>().ok()?,
        nanos: nanos.parse::<u32>().ok()?,
    })
}

/// Returns the labels with these values.
fn labels_of(case: &Case, values: &str) -> Vec<MetricLabel> {
    let mut labels = Vec::new(case.alloc);
    for (name, value) in LABELS.iter().zip(values.split_terminator('|')) {
        let value = case.value(value);
        case.push(&mut labels, MetricLabel { name: *name, value });
    }
    labels
}

/// Answers `figure KIND NUMBER: VALUE|VALUE..` with the text, in brackets, of a family `up` with one figure, whose labels have
/// these values.
fn figure(case: &Case, rest: &str) {
    let (word, rest) = first(rest);
    let (number, values) = cut(rest, ":");
    let mut samples = Vec::new(case.alloc);
    let sample = Sample {
        suffix: "",
        labels: labels_of(case, values.trim_start()),
        number: case.or(number_of(number), Number::Whole(0)),
    };
    case.push(&mut samples, sample);
    let family = Family {
        name: "up",
        help: "A \\ and a \n.",
        kind: match word {
            "counter" => MetricType::Counter,
            "histogram" => MetricType::Histogram,
            _ => MetricType::Gauge,
        },
        samples,
    };
    let mut families = Vec::new(case.alloc);
    case.push(&mut families, family);
    given!(text = case.made(write_families(case.alloc, &families)));
    case.put("[");
    case.print_text(text.as_slice());
    case.put("]\n");
}
