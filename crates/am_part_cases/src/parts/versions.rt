//! Versions of either state: read, written, copied and compared; matchers, identifiers and receivers.

use crate::common::{Case, CaseVersion, Printed, Spelled, cut, first};
use crate::parts::frames;
use am_nflog::{MeshEntry, Receiver};
use am_silence::{Matcher, MeshSilence, fresh_id};
use am_version_order::Version;
use am_wire::{Message, Unknown, WireError};

/// Answers cases of versions, of a matcher and a receiver that are read, and of the identifier that bits give.
pub fn answer(case: &Case, verb: &str, rest: &str) {
    match verb {
        "sil" if rest.starts_with("state ") => states(case, first(rest).1),
        "sil" => of_state::<MeshSilence>(case, rest),
        "nfl" => of_state::<MeshEntry>(case, rest),
        "matcher" => written::<Matcher>(case, rest),
        "receiver" => written::<Receiver>(case, rest),
        "fresh" => {
            let bytes = case.bytes(rest);
            let bits: [u8; 16] = case.or(bytes.as_slice().try_into().ok(), [0; 16]);
            say!(case; fresh_id(u128::from_be_bytes(bits)).as_str());
        }
        _ => frames::answer(case, verb, rest),
    }
}

/// Answers `nfl VERB VERSION ..` about log entries, and `sil VERB VERSION ..` about silences; `nfl kept BYTES` reads an entry
/// with its unknown fields.
fn of_state<V: CaseVersion>(case: &Case, text: &str)
where
    V::Key: Drop,
{
    match first(text) {
        ("order", list) => orders::<V>(case, false, list),
        ("keys", list) => orders::<V>(case, true, list),
        ("written", pairs) => written::<V>(case, pairs),
        ("copied", pairs) => copied::<V>(case, pairs),
        ("kept", pairs) => say_read::<V>(case, Unknown::Keep, pairs),
        _ => say_read::<V>(case, Unknown::Drop, text),
    }
}

/// Returns what bytes are read as, given what is done with unknown fields, unless they are refused.
fn read<M: Message>(case: &Case, unknown: Unknown, pairs: &str) -> Option<M> {
    let bytes = case.bytes(pairs);
    let read = match unknown {
        Unknown::Drop => M::decode(case.alloc, bytes.as_slice()),
        Unknown::Keep => M::decode_at(case.alloc, unknown, bytes.as_slice(), 0),
    };
    case.got(read, WireError::Memory)
}

/// Prints what the order of versions looks at, the bucket, and the canonical encoding.
fn say_read<V: CaseVersion>(case: &Case, unknown: Unknown, pairs: &str) {
    given!(version = read::<V>(case, unknown, pairs));
    put!(case; "updated ", @version.updated(), ", expires ", @version.expires(), ", bucket ");
    case.say_bytes(version.bucket());
    say!(case; "written ", @version);
}

/// Prints the bytes of a message that is read, and written twice into one vector.
fn written<M: Message>(case: &Case, pairs: &str) {
    given!(message = read::<M>(case, Unknown::Drop, pairs));
    let mut bytes = Vec::new(case.alloc);
    case.made(message.encode(&mut bytes));
    case.made(message.encode(&mut bytes));
    case.say_bytes(bytes.as_slice());
}

/// Prints how the copies of the key and of a version compare with them, and then the version's copy.
fn copied<V: CaseVersion>(case: &Case, pairs: &str)
where
    V::Key: Drop,
{
    given!(version = V::spelled(case, pairs));
    given!(key = case.made(version.try_key(case.alloc)));
    given!(copy = case.made(version.try_clone(case.alloc)));
    say!(case; ?key.cmp(version.key()), " ", ?version.compare(&copy));
    say!(case; @copy);
}

/// Prints a line for each version: how it, or its key, compares with all of them.
fn orders<V: CaseVersion>(case: &Case, are_keys: bool, text: &str) {
    let list = case.list::<V>(text, ", ");
    for version in &list {
        for (place, other) in list.iter().enumerate() {
            let order = match are_keys {
                true => version.key().cmp(other.key()),
                false => version.compare(other),
            };
            put!(case; if place > 0 { " " } else { "" }, ?order);
        }
        case.put("\n");
    }
}

/// Answers `sil state VERSION at MOMENT ..` with the state of a silence at each of the moments.
fn states(case: &Case, text: &str) {
    let (pairs, moments) = cut(text, " at ");
    given!(version = MeshSilence::spelled(case, pairs));
    for (place, word) in moments.split(' ').enumerate() {
        put!(case; if place > 0 { " " } else { "" }, ?version.state_at(case.moment(word)));
    }
    case.put("\n");
}
