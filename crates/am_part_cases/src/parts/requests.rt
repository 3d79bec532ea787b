//! Requests and calls; texts, numbers and lists as words; schedules as they are read.

use crate::common::{Case, CaseFault, first};
use crate::parts::figures;
use am_http::{Read, call_of, filter_texts, out_of_memory, read_request};
use am_nflog::HashIter;
use am_report::{EscapedWord, ListedWord, Numbers, Texts};
use am_schedule::{FaultKind, parse};

/// Answers cases of requests and words.
pub fn answer(case: &Case, verb: &str, rest: &str) {
    match verb {
        "request" => request(case, rest),
        "call" => match call_of(first(rest).0, first(rest).1) {
            Ok(call) => say!(case; ?call),
            Err(cause) => say!(case; ?cause),
        },
        "filters" => filters(case, rest),
        "out_of_memory" => case.say_text(out_of_memory()),
        "schedule" => schedule(case, rest),
        "word" => {
            let bytes = case.spelled(rest);
            say!(case; EscapedWord(&bytes), "\n", ListedWord(&bytes));
        }
        "numbers" => {
            let mut numbers = Vec::new(case.alloc);
            for word in rest.split_terminator(' ') {
                case.push(&mut numbers, case.number(word));
            }
            say!(case; Numbers(HashIter::of(&numbers)));
        }
        "texts" => texts(case, rest),
        _ => figures::answer(case, verb, rest),
    }
}

/// Prints what a read yields, with the parts of a request or `whole`.
pub fn print_read(case: &Case, read: &Read, has_parts: bool) {
    match read {
        Read::More => case.put("more"),
        Read::Whole(request) if has_parts => {
            put!(case; request.method.as_str(), " ", request.target.as_str(), " body [");
            case.print_text(&request.body);
            case.put("]");
        }
        Read::Whole(_) => case.put("whole"),
        Read::Refused(refusal) if refusal.status == 500 => case.fail(CaseFault::Memory),
        Read::Refused(refusal) => put!(case; refusal.status, " ", refusal.text),
    }
}

/// Answers `request TEXT` with what bytes are read as when more may follow, and if more has to follow, what they are read as
/// when the input ends.
fn request(case: &Case, text: &str) {
    let bytes = case.spelled(text);
    let open = read_request(case.alloc, bytes.as_slice(), false);
    print_read(case, &open, true);
    if matches!(open, Read::More) {
        case.put("\nat the end: ");
        let ended = read_request(case.alloc, bytes.as_slice(), true);
        print_read(case, &ended, false);
    }
    case.put("\n");
}

/// Answers `filters QUERY` with the filters of a query.
fn filters(case: &Case, query: &str) {
    given!(filters = case.made(filter_texts(case.alloc, query)));
    put!(case; filters.len(), " filters");
    for filter in &filters {
        put!(case; " [", filter.as_str(), "]");
    }
    case.put("\n");
}

/// Answers `texts TEXT|TEXT|..` with the texts as one word; each of them is followed by a `|`.
fn texts(case: &Case, rest: &str) {
    let mut copies = Vec::new(case.alloc);
    for text in rest.split_terminator('|') {
        case.push(&mut copies, case.text(text));
    }
    say!(case; Texts(&copies));
}

/// Answers `schedule TEXT` with the numbers of members and lines of a schedule, or its first fault.
fn schedule(case: &Case, text: &str) {
    let text = case.unescaped(text);
    match parse(case.alloc, text.as_slice()) {
        Ok(schedule) => {
            put!(case; schedule.names.as_slice().len(), " members, ");
            say!(case; schedule.lines.as_slice().len(), " lines");
        }
        Err(error) if error.kind == FaultKind::Memory => case.fail(CaseFault::Memory),
        Err(error) => say!(case; ?error.kind, " ", error.line),
    }
}
