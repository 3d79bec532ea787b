//! The decision of whether a group of alerts is notified.

ghost use Rattle.std.specs.Prelude.{◌≡◌, ◌+◌, ◌-◌, ◌%◌, IsTrue, ◌<◌, ◌≤◌, length, option_map, nat_eq, ℕ, Some, None, get_or, Bool};
ghost use Rattle.std.specs.Prelude.{nat_lt, true, false};
ghost use Rattle.std.specs.FinSet.{is_subset};
ghost use Rattle.std.specs.List.{list_any, position};
ghost use Rattle.std.specs.List.Sorted.{IsNonDecreasing};
ghost use Rattle.std.specs.Option.{option_copied};
ghost use Rattle.am_dedup.specs.Decisions.{Hashes, decision, decision_after, logged, noticed, set_of};

use am_nflog::{Entry, HashIter, MeshEntry};
use am_version_order::{Interval, Moment};

// The number of unordered hashes looked for in one walk over the entry's.
const GROUP: usize = 2_048;

// The number of hashes out of order after which the rest are looked for by groups.
const TURNS: usize = 8;

// The number of remainders by which hashes are told apart before a search.
const REMAINDERS: u64 = 32_768;

/// The reason for notifying a group.
#[derive(Clone, Copy, Debug, PartialEq, Eq)]
pub enum Reason {
    /// The log has no entry of the group, and something fires.
    First,
    /// Something fires that the entry doesn't list as firing.
    NewFiring,
    /// Nothing that the entry lists as firing fires any more.
    AllResolved,
    /// Something is resolved that the entry doesn't list as resolved, and resolved alerts are wanted.
    NewResolved,
    /// The repeat interval is over.
    Repeat,
}

/// The decision about a group.
#[derive(Clone, Copy, Debug, PartialEq, Eq)]
pub enum Decision {
    Skip,
    Notify(Reason),
}

// The record of a group's last notification.
#[derive(Drop)]
struct LastNotice<'a> {
    firing: HashIter<'a>,
    resolved: HashIter<'a>,
    timestamp: Moment,
}

/// Decides whether a group is notified at `now`, given its entry in the view of the log, if any. The lists of alert hashes
/// count as sets. This takes no memory. Lists in the order of the entry's take linear time; in any other order each 2,048 hashes
/// take one walk over the entry's, with a look into a table at each, or a binary search at worst.
#[tactic(auto, unfolding(crate::specs::Decisions::decision))]
pub fn decide(
    entry: Option<&Entry>,
    firing: &[u64],
    resolved: &[u64],
    repeat: Interval,
    send_resolved: bool,
    now: Moment,
) -> Decision
    // PROMISE: Whether a group is notified follows from sets of alerts and the last entry.
    ensures { result ≡ decision (option_map logged (option_copied entry.entry)) (set_of firing.now)
        (set_of resolved.now) repeat send_resolved now }
{
    let Some(entry) = entry else {
        return decide_first(firing);
    };
    let notice = LastNotice {
        firing: entry.firing_alerts.iter(),
        resolved: entry.resolved_alerts.iter(),
        timestamp: entry.timestamp,
    };
    decide_after(&notice, firing, resolved, repeat, send_resolved, now)
}

/// Decides the same from a version of the log, whose hashes are read in its text.
#[tactic(auto, unfolding(crate::specs::Decisions::decision))]
pub fn decide_over(
    version: Option<&MeshEntry>,
    firing: &[u64],
    resolved: &[u64],
    repeat: Interval,
    send_resolved: bool,
    now: Moment,
) -> Decision
    ensures { result ≡ decision (option_map logged (option_map (λ m. m.entry) (option_copied version.entry)))
        (set_of firing.now) (set_of resolved.now) repeat send_resolved now }
{
    let Some(version) = version else {
        return decide_first(firing);
    };
    let notice = LastNotice {
        firing: version.firing_alerts(),
        resolved: version.resolved_alerts(),
        timestamp: version.timestamp(),
    };
    decide_after(&notice, firing, resolved, repeat, send_resolved, now)
}

// Decides for a group of which the log has no entry.
#[tactic(auto, using(crate::proofs::Sets::none_is), unfolding(crate::specs::Decisions::decision))]
fn decide_first(firing: &[u64]) -> Decision
    ensures { (resolved : Hashes) (repeat : ℕ) (wanted : Bool) (now : ℕ) →
        result ≡ decision None (set_of firing.now) resolved repeat wanted now }
{
    if firing.is_empty() {
        Decision::Skip
    } else {
        Decision::Notify(Reason::First)
    }
}

// Decides for a group of which the log has an entry.
#[tactic(auto, using(crate::proofs::Sets::none_is), unfolding(crate::specs::Decisions::decision_after))]
fn decide_after(
    notice: &LastNotice<'_>,
    firing: &[u64],
    resolved: &[u64],
    repeat: Interval,
    send_resolved: bool,
    now: Moment,
) -> Decision
    ensures { result ≡ decision_after (noticed notice.now) (set_of firing.now) (set_of resolved.now) repeat send_resolved now }
{
    if !is_within(firing, &notice.firing) {
        Decision::Notify(Reason::NewFiring)
    } else if firing.is_empty() {
        if notice.firing.is_empty() {
            Decision::Skip
        } else {
            Decision::Notify(Reason::AllResolved)
        }
    } else if send_resolved && !is_within(resolved, &notice.resolved) {
        Decision::Notify(Reason::NewResolved)
    } else if is_over(notice.timestamp, repeat, now) {
        Decision::Notify(Reason::Repeat)
    } else {
        Decision::Skip
    }
}

// Returns whether an interval that began at `start` is over.
fn is_over(start: Moment, interval: Interval, now: Moment) -> bool
    ensures { result ≡ nat_lt (start + interval) now }
{
    start.checked_add(interval).is_some_and(|end| end < now)
}

// Returns whether each of the hashes is listed. Each is first looked for after the one found before it, and the rest of
// those in no order by groups.
fn is_within(hashes: &[u64], listed: &HashIter<'_>) -> bool
    ensures { result ≡ is_subset (set_of hashes.now) (set_of listed.now) }
{
    let mut rest = listed.again();
    let mut turns_left = TURNS;
    for (count, hash) in hashes.iter().enumerate() {
        if turns_left == 0 {
            return are_groups_within(&hashes[count..], listed);
        }
        if !skip_past(*hash, &mut rest) {
            rest = listed.again();
            turns_left -= 1;
            if !skip_past(*hash, &mut rest) {
                return false;
            }
        }
    }
    true
}

// Returns whether a hash is among the rest; the rest then begins after it.
fn skip_past(hash: u64, rest: &mut HashIter<'_>) -> bool
    ensures found { result ≡ list_any (λ y. nat_eq y hash) rest.old }
    ensures left { (other : ℕ) → list_any (λ y. nat_eq y other) rest.new ≡ true → list_any (λ y. nat_eq y other) rest.old ≡ true }
{
    while let Some(other) = rest.next() {
        if other == hash {
            return true;
        }
    }
    false
}

// Returns whether each of the hashes is listed, by groups of them.
fn are_groups_within(hashes: &[u64], listed: &HashIter<'_>) -> bool
    ensures { result ≡ is_subset (set_of hashes.now) (set_of listed.now) }
{
    let mut rest = hashes;
    while !rest.is_empty() {
        let (group, behind) = rest.split_at(rest.len().min(GROUP));
        if !is_group_within(group, listed) {
            return false;
        }
        rest = behind;
    }
    true
}

// Returns whether each hash of a group is listed. The group is sorted in an array, so that no memory is taken.
fn is_group_within(group: &[u64], listed: &HashIter<'_>) -> bool
    requires { length group.now ≤ 2048 }
    ensures { result ≡ is_subset (set_of group.now) (set_of listed.now) }
{
    let mut room = [0; GROUP];
    let sorted = &mut room[..group.len()];
    sorted.copy_from_slice(group);
    sorted.sort_unstable();
    is_sorted_within(sorted, listed)
}

// Returns whether each of the sorted hashes is listed.
fn is_sorted_within(sorted: &[u64], listed: &HashIter<'_>) -> bool
    requires fits { length sorted.now ≤ 2048 }
    requires sorted { IsNonDecreasing sorted.now }
    ensures { result ≡ is_subset (set_of sorted.now) (set_of listed.now) }
{
    let marks = marks_of(sorted, listed);
    for place in 0..sorted.len() {
        if is_new(sorted, place) && !marks[place] {
            return false;
        }
    }
    true
}

// Returns whether only other hashes stand before this place.
fn is_new(sorted: &[u64], place: usize) -> bool
    requires within { place < length sorted.now }
    requires sorted { IsNonDecreasing sorted.now }
    ensures first { IsTrue result → position (λ y. nat_eq y (get_or sorted.now place 0)) sorted.now ≡ Some place }
    ensures again { result ≡ false → (0 < place) × (get_or sorted.now (place - 1) 0 ≡ get_or sorted.now place 0) }
{
    place == 0 || sorted[place - 1] < sorted[place]
}

// Returns which of the sorted hashes are listed, marked at their first places.
fn marks_of(sorted: &[u64], listed: &HashIter<'_>) -> [bool; GROUP]
    requires fits { length sorted.now ≤ 2048 }
    requires sorted { IsNonDecreasing sorted.now }
    ensures { (hash place : ℕ) → position (λ y. nat_eq y hash) sorted.now ≡ Some place →
        get_or result place false ≡ list_any (λ y. nat_eq y hash) listed.now }
{
    let met = remainders_of(sorted);
    let mut marks = [false; GROUP];
    for hash in listed.again() {
        if let Some(place) = met_place_of(hash, sorted, &met) {
            marks[place] = true;
        }
    }
    marks
}

// Returns, for each remainder of a hash, the place after one of the hashes with it, or 0 if there is none.
fn remainders_of(hashes: &[u64]) -> [u16; REMAINDERS as usize]
    requires { length hashes.now ≤ 2048 }
    ensures { (i : ℕ) → i < length hashes.now → nat_eq (get_or result (get_or hashes.now i 0 % 32768) 0) 0 ≡ false }
{
    let mut met = [0; REMAINDERS as usize];
    for (place, hash) in hashes.iter().enumerate() {
        met[(*hash % REMAINDERS) as usize] = place as u16 + 1;
    }
    met
}

// Returns the first place of a hash among sorted ones with these remainders. Most hashes that are not among them are ruled
// out by their remainder, and most others stand at the place noted for it.
fn met_place_of(hash: u64, sorted: &[u64], met: &[u16; REMAINDERS as usize]) -> Option<usize>
    requires sorted { IsNonDecreasing sorted.now }
    requires met { (i : ℕ) → i < length sorted.now → nat_eq (get_or met.now (get_or sorted.now i 0 % 32768) 0) 0 ≡ false }
    ensures { result ≡ position (λ y. nat_eq y hash) sorted.now }
{
    let behind = met[(hash % REMAINDERS) as usize] as usize;
    if behind == 0 {
        None
    } else if is_first_place(hash, sorted, behind - 1) {
        Some(behind - 1)
    } else {
        sorted_place_of(hash, sorted)
    }
}

// Returns whether a hash stands first at this place.
fn is_first_place(hash: u64, sorted: &[u64], place: usize) -> bool
    requires { IsNonDecreasing sorted.now }
    ensures { IsTrue result → position (λ y. nat_eq y hash) sorted.now ≡ Some place }
{
    place < sorted.len() && sorted[place] == hash && is_new(sorted, place)
}

// Returns the first place of a hash among sorted ones.
fn sorted_place_of(hash: u64, sorted: &[u64]) -> Option<usize>
    requires { IsNonDecreasing sorted.now }
    ensures { result ≡ position (λ y. nat_eq y hash) sorted.now }
{
    let place = sorted.partition_point(|other| *other < hash);
    if place < sorted.len() && sorted[place] == hash {
        Some(place)
    } else {
        None
    }
}
