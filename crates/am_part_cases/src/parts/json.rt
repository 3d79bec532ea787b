//! Moments and silences in JSON: how they are shown, written and read, and how silences are posted.

use crate::common::{Case, CaseFault, Printed, Spelled, first};
use crate::parts::snapshots;
use am_silence::{MeshSilence, Silence, State};
use am_silence_json::laws::reads_again;
use am_silence_json::moments::{read_moment, write_moment};
use am_silence_json::{
    BodyError, ListError, cut_to_shown, read_post, read_silences, write_silence, write_silences,
};
use am_wire::WireError;
use std::alloc::AllocError;

/// Answers cases of JSON: `moment-text read TEXT` and `moment-text written 10.0005`, and those of silences below.
pub fn answer(case: &Case, verb: &str, rest: &str) {
    match (verb, first(rest)) {
        ("json", (verb, rest)) => json(case, verb, rest),
        ("moment-text", ("read", text)) => say_some!(case; now = read_moment(text); @now),
        ("moment-text", (_, word)) => say!(case; write_moment(case.moment(word)).as_str()),
        _ => snapshots::answer(case, verb, rest),
    }
}

/// Prints what is written of silences, and what is read of a body, which has escapes.
fn json(case: &Case, verb: &str, rest: &str) {
    let (alloc, out) = (case.alloc, Vec::new(case.alloc));
    match verb {
        "shows" => {
            given!((version, state) = Spelled::spelled(case, rest));
            say_body(case, write_silence(out, &version, state));
        }
        "lists" => say_body(case, write_silences(out, case.list(rest, ", ").as_slice())),
        "again" => say_read(case, reads_again(alloc, case.list(rest, ", ").as_slice())),
        "reads" => say_read(case, read_silences(alloc, case.unescaped(rest).as_slice())),
        "post" => post(case, rest),
        "cut" => {
            given!(version = MeshSilence::spelled(case, rest));
            given!(shown = case.made(cut_to_shown(alloc, &version)));
            say!(case; @shown);
        }
        _ => case.fail(CaseFault::Words),
    }
}

fn say_body(case: &Case, body: Result<Vec<u8>, AllocError>) {
    given!(body = case.made(body));
    say!(case; str::from_utf8(body.as_slice()).unwrap_or("no text"));
}

/// A version in its state: `active VERSION`.
impl Spelled for (MeshSilence, State) {
    fn spelled(case: &Case, row: &str) -> Option<(MeshSilence, State)> {
        let (word, words) = first(row);
        let state = match word {
            "pending" => State::Pending,
            "active" => State::Active,
            "expired" => State::Expired,
            _ => return case.wanted(None),
        };
        Some((MeshSilence::spelled(case, words)?, state))
    }
}

fn say_read(case: &Case, read: Result<Vec<MeshSilence>, ListError>) {
    match read {
        Ok(silences) => case.say_versions(silences.as_slice()),
        Err(ListError::Memory) => case.fail(CaseFault::Memory),
        Err(ListError::BadJson) => say!(case; ?ListError::BadJson, ": bad JSON"),
        Err(ListError::NoList) => say!(case; ?ListError::NoList, ": no list"),
        Err(ListError::Wrong(place, key)) => {
            say!(case; ?ListError::Wrong(place, key), ": bad silence ", place, ": ", key)
        }
        Err(ListError::TooLarge(place)) => {
            say!(case; ?ListError::TooLarge(place), ": silence ", place, " too large")
        }
    }
}

/// Prints what a body posts, as a version that is updated at 10 s and expires at 200 s, or why it is refused.
fn post(case: &Case, body: &str) {
    let body = case.unescaped(body);
    let read = read_post(case.alloc, body.as_slice());
    if let Err(BodyError::Wrong(key)) = read {
        return say!(case; ?BodyError::Wrong(key), ": ", key.text());
    }
    given!(posted = case.got(read, BodyError::Memory));
    case.put(if posted.id.is_none() {
        "no identifier, "
    } else {
        ""
    });
    let silence = Silence {
        id: posted.id.unwrap_or(case.text("")),
        matchers: posted.matchers,
        starts_at: posted.starts_at,
        ends_at: posted.ends_at,
        updated_at: case.moment("10"),
        created_by: posted.created_by,
        comment: posted.comment,
    };
    let version = MeshSilence::new(case.alloc, silence, case.moment("200"));
    given!(version = case.sound(version, WireError::Memory));
    say!(case; @version);
}
