//! Matchers, filters and mutes; decisions whether a group is notified; and the moments at which an instance is due.

use crate::common::{Case, Printed, Spelled, behind, cut, first};
use crate::parts::patterns;
use am_dedup::{decide_over, due};
use am_matcher::{
    BuildError, Compiled, Dialect, Filter, FilterError, Ids, Labels, Mutes, PatternCache,
};
use am_merge::Held;
use am_nflog::MeshEntry;
use am_silence::{MatcherKind, MatcherRef, Matchers, MeshSilence};
use am_version_order::Moment;
use am_wire::WireError;

type Map = Held<MeshSilence>;

/// Answers cases of matchers, filters, mutes and decisions.
pub fn answer(case: &Case, verb: &str, rest: &str) {
    match verb {
        "matches" => matches(case, rest),
        "verdicts" => verdicts(case, rest, Dialect::Regex),
        "re2-verdicts" => verdicts(case, rest, Dialect::Re2),
        "filter" => filter(case, rest, Dialect::Regex),
        "re2-filter" => filter(case, rest, Dialect::Re2),
        "mutes" => all_mutes(case, rest),
        "many-mutes" => many_mutes(case, rest),
        "decide" => say_decision(case, rest),
        "due" => say_due(case, rest),
        _ => patterns::answer(case, verb, rest),
    }
}

/// Answers `due start MOMENT place N timeout SECONDS`.
fn say_due(case: &Case, rest: &str) {
    let start = case.moment(behind(rest, "start ", "-"));
    let place = case.number(behind(rest, " place ", "-"));
    given!(timeout = case.seconds(behind(rest, " timeout ", "-")));
    say_some!(case; due = due(start, place, timeout); @due);
}

/// Answers `matches SILENCE: VALUE ..` with whether the matcher of a silence matches each of the values.
fn matches(case: &Case, rest: &str) {
    let (pairs, values) = cut(rest, ": ");
    given!(silence = MeshSilence::spelled(case, pairs));
    given!(matcher = case.wanted(silence.matchers().next()));
    given!(matcher = case.made(matcher.copied(case.alloc)));
    let compiled = Compiled::build(case.alloc, &matcher);
    given!(mut compiled = case.got(compiled, BuildError::Memory));
    for (place, word) in values.split(' ').enumerate() {
        let value = case.value(word);
        let is_matched = case.made(compiled.matches(value.as_str()));
        put!(case; if place == 0 { "" } else { " " }, is_matched.unwrap_or(false));
    }
    case.put("\n");
}

/// Answers `verdicts SILENCE, ..` with the verdict on the matchers of each silence, by one cache, and with how many bytes it
/// then keeps.
fn verdicts(case: &Case, list: &str, dialect: Dialect) {
    let mut patterns = PatternCache::new(case.alloc);
    for pairs in list.split(", ") {
        given!(silence = case.silence(pairs));
        let verdict = patterns.verdict_in(dialect, &silence.matchers);
        given!(verdict = case.made(verdict));
        put!(case; ?verdict, ", ");
    }
    say!(case; patterns.size(), " bytes kept");
}

/// Answers `filter [TEXT] of SILENCE` with whether a filter, given with escapes, passes a silence.
fn filter(case: &Case, rest: &str, dialect: Dialect) {
    let (text, pairs) = rest.rsplit_once("] of ").unwrap_or((rest, ""));
    let text = case.value(text.strip_prefix('[').unwrap_or(text));
    let filter = match dialect {
        Dialect::Regex => Filter::parse(case.alloc, text.as_str()),
        Dialect::Re2 => Filter::parse_in(dialect, &PatternCache::new(case.alloc), text.as_str()),
    };
    given!(mut filter = case.got(filter, FilterError::Memory));
    given!(version = MeshSilence::spelled(case, pairs));
    given!(is_passed = case.made(filter.passes_version(&version)));
    say!(case; is_passed);
}

/// Answers `mutes SILENCE, ..; at MOMENT LABEL ..; re2 MOMENT LABEL ..; forget` with the silences that mute labels at
/// moments, by one cache and in either dialect, and once more when it keeps only the patterns of silences. `forget` drops all
/// that is kept.
fn all_mutes(case: &Case, rest: &str) {
    let (silences, text) = cut(rest, "; ");
    let held = case.held(silences);
    let mut patterns = PatternCache::new(case.alloc);
    for words in text.split("; ") {
        match first(words) {
            ("forget", _) => {
                patterns.drop_unused(&Held::new(case.alloc));
                say!(case; "forgotten, ", patterns.size(), " bytes kept");
            }
            ("re2", words) => say_mutes(case, &mut patterns, Dialect::Re2, &held, words),
            (_, words) => say_mutes(case, &mut patterns, Dialect::Regex, &held, words),
        }
    }
}

fn say_mutes(case: &Case, patterns: &mut PatternCache, dialect: Dialect, held: &Map, words: &str) {
    let (word, names) = first(words);
    let now = case.moment(word);
    let labels = Labels::new(case.list(names, " "));
    given!(mutes = case.made(patterns.mutes_in(dialect, held, &labels, now)));
    print_mutes(case, &mutes);
    patterns.drop_unused(held);
    given!(mutes = case.made(patterns.mutes_in(dialect, held, &labels, now)));
    case.put("; again ");
    print_mutes(case, &mutes);
    case.put("\n");
}

fn print_mutes(case: &Case, mutes: &Mutes) {
    print_ids(case, &mutes.ids);
    case.put(" broken ");
    print_ids(case, &mutes.broken);
}

/// Prints identifiers with commas between them, or `-` for none.
fn print_ids(case: &Case, ids: &Ids) {
    let ids = ids.as_slice();
    for (place, id) in ids.iter().enumerate() {
        put!(case; if place > 0 { "," } else { "" }, id.as_str());
    }
    case.put(if ids.is_empty() { "-" } else { "" });
}

/// Answers `many-mutes COUNT SILENCE`: asks one cache twice which of this many silences mute the job x. They are like the one
/// given but for their identifiers and patterns; the patterns of odd numbers are broken.
fn many_mutes(case: &Case, rest: &str) {
    let (count, pairs) = first(rest);
    let mut held = Held::new(case.alloc);
    for number in 0..case.number(count) {
        given!(version = numbered(case, pairs, number));
        case.made(held.take(version, Moment::LEAST));
    }
    let mut patterns = PatternCache::new(case.alloc);
    count_mutes(case, &mut patterns, &held);
    count_mutes(case, &mut patterns, &held);
}

fn numbered(case: &Case, pairs: &str, number: u64) -> Option<MeshSilence> {
    let end = if number % 2 == 0 { "x" } else { "(" };
    let pattern = case.made(format!(in case.alloc; "{number}|{end}"))?;
    let matcher = MatcherRef::new(MatcherKind::Regexp, "job", pattern.as_str());
    let mut silence = case.silence(pairs)?;
    silence.id = case.text(pattern.as_str());
    silence.matchers = Matchers::none(case.alloc);
    case.made(silence.matchers.push(case.alloc, &matcher))?;
    let version = MeshSilence::new(case.alloc, silence, case.moment("200"));
    case.sound(version, WireError::Memory)
}

fn count_mutes(case: &Case, patterns: &mut PatternCache, held: &Map) {
    let labels = Labels::new(case.list("job=x", " "));
    given!(mutes = case.made(patterns.mutes(held, &labels, case.moment("50"))));
    let (ids, broken) = (mutes.ids.as_slice().len(), mutes.broken.as_slice().len());
    say!(case; ids, " mute, ", broken, " broken, ", patterns.size() >> 20, " MiB kept");
}

/// Answers `decide ENTRY; firing LIST resolved LIST wanted no repeat SECONDS at MOMENT`, over an entry or `no entry`.
fn say_decision(case: &Case, rest: &str) {
    let (held, words) = cut(rest, "; ");
    let entry = match held {
        "no entry" => None,
        _ => MeshEntry::spelled(case, held),
    };
    let firing = case.numbers(behind(words, "firing ", "-"));
    let resolved = case.numbers(behind(words, " resolved ", "-"));
    let is_wanted = behind(words, " wanted ", "yes") != "no";
    let now = case.moment(behind(words, " at ", "-"));
    given!(repeat = case.seconds(behind(words, " repeat ", "60")));
    let (firing, resolved) = (firing.as_slice(), resolved.as_slice());
    let decision = decide_over(entry.as_ref(), firing, resolved, repeat, is_wanted, now);
    say!(case; ?decision);
}
