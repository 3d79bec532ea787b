//! The requests by gossip to running Alertmanagers, and their answers.

use crate::common::{Case, first};
use crate::parts::maps;
use am_gossip::StateKey;
use am_memberlist::{
    AnswerError, LzwError, Said, read_message, request_encoding, row_in, states_encoding, unpack,
    unpack_answer,
};

/// The maximum number of bytes that an answer is unpacked to.
const MOST: usize = 1_000;

/// Answers cases of requests and answers: `unpack MOST BYTES`, `unpack-answer BYTES` and `message BYTES` with what is read of the
/// bytes, `told KEY BYTES` with the row of a state among states, `telling KEY BYTES` with the states that have only this one,
/// given by its row, and `ask BYTES` with a request.
pub fn answer(case: &Case, verb: &str, rest: &str) {
    let (word, pairs) = first(rest);
    match verb {
        "unpack" => {
            let (bytes, most) = (case.bytes(pairs), case.number(word) as usize);
            given!(plain = case.got(unpack(case.alloc, bytes.as_slice(), most), LzwError::Memory));
            case.say_bytes(plain.as_slice());
        }
        "unpack-answer" => {
            let plain = unpack_answer(case.alloc, case.bytes(rest), MOST);
            given!(plain = case.got(plain, AnswerError::Memory));
            case.say_bytes(plain.as_slice());
        }
        "message" => message(case, case.bytes(rest).as_slice()),
        "ask" => {
            let text = request_encoding(case.alloc, case.bytes(rest).as_slice());
            given!(text = case.made(text));
            case.say_bytes(text.as_slice());
        }
        "told" => {
            given!(key = case.wanted(StateKey::from_text(word)));
            told(case, key, case.bytes(pairs).as_slice());
        }
        "telling" => {
            given!(key = case.wanted(StateKey::from_text(word)));
            let text = states_encoding(case.alloc, key, case.bytes(pairs).as_slice());
            given!(text = case.made(text));
            case.say_bytes(text.as_slice());
        }
        _ => maps::answer(case, verb, rest),
    }
}

fn message(case: &Case, bytes: &[u8]) {
    let said = read_message(case.alloc, bytes);
    given!(said = case.got(said, AnswerError::Memory));
    match said {
        Said::States(states) => case.print_bytes("states ", states, "states none"),
        Said::Error(words) => case.print_bytes("error ", words, "error none"),
    }
    case.put("\n");
}

fn told(case: &Case, key: StateKey, bytes: &[u8]) {
    let row = row_in(case.alloc, bytes, key);
    given!(row = case.got(row, AnswerError::Memory));
    match row {
        Some(row) => case.print_bytes("row ", row, "row none"),
        None => case.put("no such state"),
    }
    case.put("\n");
}
