//! Sums of messages under keys, and sealed frames.

use crate::common::{Case, CaseFault, cut};
use crate::parts::frames::print_frame;
use crate::parts::requests;
use am_peer_auth::{
    CHALLENGE, Lock, Opened, Origin, SealError, Sequence, Waiting, hmac_sha256, open_piece, sum_of,
};

/// Answers cases of seals: `hmac KEY | MESSAGE`, `seal SECRET | CHALLENGE | NUMBER | SENDER | ADDRESSEE | TEXT`, and `unseal
/// SECRET | CHALLENGE | NUMBER | ADDRESSEE | SENDER | PIECE | PIECE ..`.
pub fn answer(case: &Case, verb: &str, rest: &str) {
    match verb {
        "hmac" => {
            let (key, message) = cut(rest, "|");
            let (key, message) = (case.bytes(key.trim()), case.bytes(message.trim()));
            case.say_bytes(&hmac_sha256(key.as_slice(), message.as_slice()));
        }
        "seal" => seal(case, rest),
        "unseal" => unseal(case, rest),
        _ => requests::answer(case, verb, rest),
    }
}

/// Reads a place in a connection, and returns it with the words after it, or `None` if the challenge doesn't have 32 bytes.
fn place<'a>(case: &Case, rest: &'a str) -> Option<(Sequence, &'a str)> {
    let (challenge, rest) = cut(rest, "|");
    let (number, rest) = cut(rest, "|");
    let bytes = case.bytes(challenge.trim());
    let (challenge, _) = bytes.as_slice().split_first_chunk::<CHALLENGE>()?;
    let challenge = *challenge;
    let number = case.number(number.trim());
    Some((Sequence { challenge, number }, rest))
}

/// Prints the sum of a frame's text at a place in a connection, from a sender to an addressee.
fn seal(case: &Case, rest: &str) {
    let (secret, rest) = cut(rest, "|");
    let Some((place, rest)) = place(case, rest) else {
        return case.fail(CaseFault::Words);
    };
    let (sender, rest) = cut(rest, "|");
    let (addressee, text) = cut(rest, "|");
    let (secret, text) = (case.bytes(secret.trim()), case.bytes(text.trim()));
    let sum = sum_of(
        secret.as_slice(),
        place,
        sender.trim(),
        addressee.trim(),
        text.as_slice(),
    );
    case.say_bytes(&sum);
}

/// Opens the pieces of a sealed stream from a sender, from a place in its connection on, with a line for each.
fn unseal(case: &Case, rest: &str) {
    let (secret, rest) = cut(rest, "|");
    let Some((mut place, rest)) = place(case, rest) else {
        return case.fail(CaseFault::Words);
    };
    let (name, rest) = cut(rest, "|");
    let (sender, pieces) = cut(rest, "|");
    let secret = case.bytes(secret.trim());
    let lock = Lock {
        secret: secret.as_slice(),
        name: name.trim(),
    };
    let mut waiting = Waiting::new(case.alloc);
    for piece in pieces.split('|') {
        let piece = case.bytes(piece.trim());
        let origin = Origin {
            lock,
            sender: sender.trim(),
            place,
        };
        let opened = open_piece(case.alloc, origin, &mut waiting, piece.as_slice());
        say_opened(case, &opened, waiting.len());
        place = opened.next;
    }
}

/// Prints what a piece opens to: its frames, why none is taken after them, and how many bytes then wait.
fn say_opened(case: &Case, opened: &Opened, waiting: usize) {
    for frame in &opened.frames {
        print_frame(case, frame, " +", "");
        case.put(", ");
    }
    match opened.fault {
        Some(SealError::Memory) => case.fail(CaseFault::Memory),
        Some(fault) => say!(case; ?fault),
        None => say!(case; waiting, " wait"),
    }
}
