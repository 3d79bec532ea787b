//! Held maps of silences, and keepers, which are maps with the moment of their last event.

use crate::common::{Case, CaseFault, Printed, Spelled, cut, first};
use crate::parts::matchers;
use am_collect::{Keeper, KeeperError, Step};
use am_merge::{FromVersionsError, Held};
use am_silence::MeshSilence;
use am_version_order::{Moment, Version};

type Map = Held<MeshSilence>;

/// Answers cases of maps and keepers: `map STEP; ..`, steps on an empty map; `versions SILENCE, ..`, the map that they make.
pub fn answer(case: &Case, verb: &str, rest: &str) {
    match verb {
        "map" => {
            let mut held = Held::new(case.alloc);
            for words in rest.split("; ") {
                step(case, &mut held, words);
            }
        }
        "versions" => {
            let held = Map::from_versions(case.alloc, case.list(rest, ", "));
            given!(held = case.got(held, FromVersionsError::Memory));
            case.say_held(&held);
        }
        "keeper" => keeper(case, rest),
        _ => matchers::answer(case, verb, rest),
    }
}

fn step(case: &Case, held: &mut Map, text: &str) {
    let (verb, rest) = first(text);
    let (words, word) = cut(rest, "at ");
    let words = words.trim_end();
    match verb {
        "bucket" => say_bucket(case, held, rest),
        "expiry" => say_some!(case; expiry = held.next_expiry(); @expiry),
        "held" => case.say_held(held),
        "take" => {
            given!(version = MeshSilence::spelled(case, words));
            given!(taken = case.made(held.take(version, case.moment(word))));
            say!(case; ?taken);
        }
        "pair" => {
            given!((one, other) = Spelled::spelled(case, words));
            given!(taken = case.made(held.take_pair(one, other, case.moment(word))));
            say!(case; ?taken);
        }
        "merge" => merge(case, held, words, case.moment(word)),
        "sweep" => say!(case; held.sweep(case.moment(word)), " went"),
        _ => case.fail(CaseFault::Words),
    }
}

/// Two versions with `, ` between them.
impl Spelled for (MeshSilence, MeshSilence) {
    fn spelled(case: &Case, words: &str) -> Option<(MeshSilence, MeshSilence)> {
        let (one, other) = cut(words, ", ");
        let one = MeshSilence::spelled(case, one)?;
        Some((one, MeshSilence::spelled(case, other)?))
    }
}

/// Merges versions in. If memory runs out, prints how many of them were taken, and what is held then.
fn merge(case: &Case, map: &mut Map, words: &str, now: Moment) {
    let other = case.held(words);
    match map.merge(&other, now) {
        Ok(changed) => say!(case; changed, " changed"),
        Err(error) => {
            say!(case; "MergeError { taken: ", error.taken, " }");
            case.say_held(map);
            case.fail(CaseFault::Memory);
        }
    }
}

fn say_bucket(case: &Case, held: &Map, pairs: &str) {
    let bytes = case.bytes(pairs);
    let mut count: usize = 0;
    for version in held.in_bucket(bytes.as_slice()) {
        put!(case; version.key().as_str(), " ");
        count = count.saturating_add(1);
    }
    say!(case; "(", count, ")");
}

/// Prints the answer to a call of a keeper, or why it was refused.
macro_rules! say_kept {
    ($case:expr; $kept:expr) => {
        match $kept { Ok(kept) => say!($case; ?kept), Err(refusal) => say_refusal($case, refusal) }
    };
}

fn say_refusal(case: &Case, refusal: KeeperError) {
    match refusal {
        KeeperError::MomentBack { last } => say!(case; "MomentBack ", @last),
        KeeperError::DuplicateKey => say!(case; "DuplicateKey"),
        KeeperError::Memory => case.fail(CaseFault::Memory),
    }
}

/// A step and its moment, `take SILENCE at MOMENT` or `collect at MOMENT`.
impl Spelled for (Step<MeshSilence>, Moment) {
    fn spelled(case: &Case, text: &str) -> Option<(Step<MeshSilence>, Moment)> {
        let (words, word) = cut(text, " at ");
        let now = case.moment(word);
        match first(words) {
            ("collect", _) => Some((Step::Collect, now)),
            (_, words) => Some((Step::Take(MeshSilence::spelled(case, words)?), now)),
        }
    }
}

/// Runs steps, and prints where they stop.
fn run(case: &Case, keeper: &mut Keeper<MeshSilence>, text: &str) {
    let steps = case.list(text, ", ");
    match keeper.run(&steps) {
        Ok(()) => case.put("done\n"),
        Err((_, KeeperError::Memory)) => case.fail(CaseFault::Memory),
        Err((place, refusal)) => {
            put!(case; "stops at ", place, ": ");
            say_refusal(case, refusal);
        }
    }
}

fn keeps(case: &Case, keeper: &mut Keeper<MeshSilence>, text: &str) {
    let (verb, rest) = first(text);
    let (words, word) = cut(rest, "at ");
    let words = words.trim_end();
    match verb {
        "take" | "step" => {
            given!(
                (step, now) = Spelled::spelled(case, text.strip_prefix("step ").unwrap_or(text))
            );
            say_kept!(case; keeper.step(step, now));
        }
        "collect" => say_kept!(case; keeper.collect(case.moment(word))),
        "pair" => {
            given!((one, other) = Spelled::spelled(case, words));
            say_kept!(case; keeper.take_pair(one, other, case.moment(word)));
        }
        "run" => run(case, keeper, rest),
        "view" => {
            let version = keeper.view(&case.text(words), case.moment(word));
            say_some!(case; version = version; @version);
        }
        "held" => case.say_held(keeper.held()),
        _ => case.fail(CaseFault::Words),
    }
}

/// Answers `keeper MOMENT SILENCE, .. merged with SILENCE, ..; STEP; ..`: a keeper that starts with versions, or with a map that
/// was merged, and its steps.
fn keeper(case: &Case, rest: &str) {
    let (map, text) = cut(rest, "; ");
    let (word, words) = first(map);
    let now = case.moment(word);
    let keeper = match words.split_once(" merged with ") {
        Some((words, others)) => {
            let mut map = case.held(words);
            merge(case, &mut map, others, now);
            Some(Keeper::of(map, now))
        }
        None => {
            let keeper = Keeper::start(case.alloc, case.list(words, ", "), now);
            case.got(keeper, KeeperError::Memory)
        }
    };
    given!(mut keeper = keeper);
    for words in text.split("; ") {
        keeps(case, &mut keeper, words);
    }
}
