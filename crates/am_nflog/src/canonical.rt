//! A reader of canonical encodings of versions.

ghost use Rattle.std.specs.Prelude.{◌≡◌, IfSome, if◌then◌else◌};
ghost use Rattle.am_wire.specs.Passing.{Passes};
ghost use Rattle.am_wire.specs.Writing.{writes_delimited, writes_number};
ghost use Rattle.am_nflog.specs.Canonical.{IsCanonical, PassesEntry};
ghost use Rattle.am_nflog.specs.Receivers.{writes_receiver, IsReceiver};

use crate::key_parts::KeyParts;
use crate::offsets::Offsets;
use crate::receiver::ReceiverRef;
use am_version_order::Moment;
use am_wire::reading::CanonicalReader;

/// An entry in a canonical encoding: the parts that are read at once, and the places of the others.
#[derive(Drop)]
pub struct CanonicalEntry<'a> {
    pub key: KeyParts<'a>,
    pub resolved: bool,
    pub timestamp: Moment,
    pub places: Offsets,
}

/// Returns the entry of a version and the moment from which it may be forgotten, or `None` if the text isn't canonical.
pub fn read_version(text: &[u8]) -> Option<(CanonicalEntry<'_>, Moment)>
    ensures { IfSome result (λ it. IsCanonical text.now it.0 it.1) }
{
    let mut reader = CanonicalReader::new(text);
    let size = reader.prefix(1)?;
    let begun = reader.at();
    let entry = pass_entry(&mut reader)?;
    if !reader.has_passed(size, begun) {
        return None;
    }
    let expires_at = reader.moment(2)?;
    if !reader.is_over() {
        return None;
    }
    Some((entry, expires_at))
}

/// Passes the text of an entry.
fn pass_entry<'a>(reader: &mut CanonicalReader<'a>) -> Option<CanonicalEntry<'a>>
    ensures { IfSome result (λ entry. PassesEntry entry reader.old reader.new) }
{
    let group_key = reader.part(1)?;
    let receiver = pass_receiver(reader)?;
    let (_, group_hash) = reader.placed_part(3)?;
    let resolved = pass_flag(reader)?;
    let timestamp = reader.moment(5)?;
    let firing_alerts = reader.numbers(6)?;
    let resolved_alerts = reader.numbers(7)?;
    Some(CanonicalEntry {
        key: KeyParts::of(group_key, &receiver),
        resolved,
        timestamp,
        places: Offsets {
            group_hash,
            firing_alerts,
            resolved_alerts,
        },
    })
}

/// Passes a flag as the field 4.
fn pass_flag(reader: &mut CanonicalReader<'_>) -> Option<bool>
    ensures { IfSome result (λ flag. Passes (writes_number 4 (if flag then 1 else 0)) reader.old reader.new) }
{
    match reader.number(4)? {
        0 => Some(false),
        1 => Some(true),
        _ => None,
    }
}

/// Passes a receiver as the field 2.
#[tactic(auto, using(am_wire::proofs::Passings::whole))]
fn pass_receiver<'a>(reader: &mut CanonicalReader<'a>) -> Option<ReceiverRef<'a>>
    ensures passed { IfSome result (λ receiver. Passes (writes_delimited 2 (writes_receiver receiver)) reader.old reader.new) }
    ensures value { IfSome result (λ receiver. IsReceiver receiver) }
{
    let size = reader.prefix(2)?;
    let begun = reader.at();
    let receiver = pass_receiver_text(reader)?;
    if !reader.has_passed(size, begun) {
        return None;
    }
    Some(receiver)
}

/// Passes the text of a receiver.
fn pass_receiver_text<'a>(reader: &mut CanonicalReader<'a>) -> Option<ReceiverRef<'a>>
    ensures passed { IfSome result (λ receiver. Passes (writes_receiver receiver) reader.old reader.new) }
    ensures value { IfSome result (λ receiver. IsReceiver receiver) }
{
    let group_name = reader.text(1)?;
    let integration = reader.text(2)?;
    let idx = reader.number(3)?;
    let idx = index_of(idx)?;
    let receiver = ReceiverRef::new(group_name, integration, idx);
    Some(receiver)
}

/// Returns the number as an integration's index, or `None` if it is too large.
fn index_of(number: u64) -> Option<u32>
    ensures { IfSome result (λ idx. number ≡ idx) }
{
    u32::try_from(number).ok()
}
