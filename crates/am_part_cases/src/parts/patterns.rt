//! Patterns of RE2, and silences that no Alertmanager can hold.

use crate::common::{Case, Spelled, first};
use crate::parts::seals;
use am_matcher::{BuildError, Compiled, Re2Error, hazard_of, re2_of};
use am_silence::{MatcherKind, MatcherRef, MeshSilence};
use am_wire::Text;

/// Answers cases of patterns of RE2, and of hazards.
pub fn answer(case: &Case, verb: &str, rest: &str) {
    match verb {
        "re2" => translate(case, rest),
        "re2-matches" => matches(case, rest),
        "hazard" => hazard(case, rest),
        _ => seals::answer(case, verb, rest),
    }
}

/// Translates a pattern of RE2 to one of `regex`. If it is refused, prints that, and with `is_where` also where.
fn translated(case: &Case, word: &str, is_where: bool) -> Option<Text> {
    let pattern = case.value(word);
    match re2_of(case.alloc, pattern.as_str()) {
        Err(Re2Error::Refused(at)) if is_where => say!(case; "refused at ", at),
        Err(Re2Error::Refused(_)) => say!(case; "refused"),
        translated => return case.made(translated),
    }
    None
}

/// Answers `re2 PATTERN` with the pattern of `regex`, or with the number of bytes after which it is refused.
fn translate(case: &Case, word: &str) {
    given!(pattern = translated(case, word, true));
    case.print_text(pattern.as_str().as_bytes());
    case.put("\n");
}

/// Answers `re2-matches PATTERN TEXT ..` with the numbers of the texts that match, counted from 1.
fn matches(case: &Case, rest: &str) {
    let (word, texts) = first(rest);
    given!(pattern = translated(case, word, false));
    let matcher = MatcherRef::new(MatcherKind::Regexp, "label", pattern.as_str());
    given!(matcher = case.made(matcher.copied(case.alloc)));
    let compiled = Compiled::build(case.alloc, &matcher);
    given!(mut compiled = case.got(compiled, BuildError::Memory));
    let mut found = false;
    for (place, word) in texts.split(' ').enumerate() {
        let text = case.value(word);
        if case.made(compiled.matches(text.as_str())).unwrap_or(false) {
            case.put(if found { " " } else { "" });
            put!(case; place.saturating_add(1));
            found = true;
        }
    }
    case.put(if found { "\n" } else { "none\n" });
}

/// Answers `hazard SILENCE` with the reason that an Alertmanager can't hold it, or `none`.
fn hazard(case: &Case, words: &str) {
    given!(silence = MeshSilence::spelled(case, words));
    given!(hazard = case.made(hazard_of(case.alloc, &silence)));
    say_some!(case; hazard = hazard; ?hazard);
}
