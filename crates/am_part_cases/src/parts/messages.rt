//! Decisions in JSON: messages of a webhook, and notices; hashes of bytes, and of alerts by their labels.

use crate::common::{Case, CaseFault, Printed, first};
use crate::parts::json;
use am_api_decisions::{MessageError, alert_hash, read_message, read_notice, xxh64};
use am_matcher::Labels;
use am_nflog::HashIter;

/// Answers cases of what programs that send pages post, and of hashes: `xxh64 BYTES` and `alert-hash LABEL ..`.
pub fn answer(case: &Case, verb: &str, rest: &str) {
    match (verb, first(rest)) {
        ("page", ("message", body)) => message(case, body),
        ("page", ("notice", body)) => notice(case, body),
        ("page", _) => case.fail(CaseFault::Words),
        ("xxh64", _) => {
            let hash = xxh64(case.bytes(rest).as_slice());
            say!(case; format_args!("{hash:016x}"));
        }
        ("alert-hash", _) => {
            let labels = Labels::new(case.list(rest, " "));
            given!(hash = case.made(alert_hash(case.alloc, &labels)));
            say!(case; hash, format_args!(" {hash:016x}"));
        }
        _ => json::answer(case, verb, rest),
    }
}

/// Returns what was read of a body. If it is refused, prints why, and the name of the key.
fn read<T: Drop>(case: &Case, read: Result<T, MessageError>) -> Option<T> {
    if let Err(MessageError::BadMessage(key)) = read {
        say!(case; ?MessageError::BadMessage(key), ": ", key.text());
        return None;
    }
    case.got(read, MessageError::Memory)
}

/// Answers `page message BODY` with the group key, the receiver, and each alert with its labels.
fn message(case: &Case, body: &str) {
    let body = case.unescaped(body);
    given!(message = read(case, read_message(case.alloc, body.as_slice())));
    put!(case; message.group_key.as_str(), " to ", message.receiver.as_str());
    for alert in &message.alerts {
        put!(case; if alert.is_firing { ", firing" } else { ", resolved" });
        for label in alert.labels.as_slice() {
            put!(case; " ", label.name.as_str(), "=", label.value.as_str());
        }
    }
    case.put("\n");
}

/// Answers `page notice BODY` with the group key, the receiver, the repeat interval, the hashes, and the moment of the
/// decision.
fn notice(case: &Case, body: &str) {
    let body = case.unescaped(body);
    given!(notice = read(case, read_notice(case.alloc, body.as_slice())));
    let receiver = &notice.receiver;
    put!(case; notice.group_key.as_str(), " to ", receiver.group_name.as_str());
    put!(case; "/", receiver.integration.as_str(), "/", receiver.idx, " every ", ?notice.repeat);
    print_hashes(case, " firing ", notice.firing.iter());
    print_hashes(case, " resolved ", notice.resolved.iter());
    if let Some(decided_at) = notice.decided_at {
        put!(case; " decided at ", @decided_at);
    }
    case.put("\n");
}

/// Prints hashes after a word, or nothing if there are none.
fn print_hashes(case: &Case, word: &str, hashes: HashIter<'_>) {
    let mut is_first = true;
    for hash in hashes {
        put!(case; if is_first { word } else { "," }, hash);
        is_first = false;
    }
}
