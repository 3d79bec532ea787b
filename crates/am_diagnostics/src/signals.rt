//! Blocked signals that tell a member to end.
//!
//! The kit can't catch a signal. A signal that was blocked when the member was started stays pending, and the system shows it in
//! the file `status` of the process (proc(5)): `SigBlk` has the blocked signals, `SigPnd` and `ShdPnd` the pending ones.

use std::fs;
use std::io::Read;
use std::rt::Files;

/// The file in which the system shows the signals of this process.
const STATUS: &str = "/proc/self/status";

/// The number of bytes of the file that are read: it has some 1,500.
const PIECE: usize = 4_096;

/// SIGINT and SIGTERM, numbers 2 and 15, as bits of a mask.
const TO_END: u64 = 1 << 1 | 1 << 14;

/// Returns the mask of a line with this name, or 0 for another line.
fn mask_of(line: &str, name: &str) -> u64 {
    match line.strip_prefix(name) {
        Some(digits) => u64::from_str_radix(digits.trim(), 16).unwrap_or(0),
        None => 0,
    }
}

/// Returns the masks of the lines of a text with one of these names, joined.
fn masks_in(text: &str, names: &[&str]) -> u64 {
    let mut joined = 0;
    for line in text.lines() {
        for name in names {
            joined |= mask_of(line, name);
        }
    }
    joined
}

/// Returns the masks of the lines of the file with one of these names, joined, or 0 if the file can't be read. Takes no memory.
fn masks<R: Files>(rt: &R, names: &[&str]) -> u64 {
    let Ok(mut file) = fs::open(rt, STATUS) else {
        return 0;
    };
    let mut piece = [0u8; PIECE];
    let Ok(count) = file.read(&mut piece) else {
        return 0;
    };
    match str::from_utf8(&piece[..count]) {
        Ok(text) => masks_in(text, names),
        Err(_) => 0,
    }
}

/// Returns whether SIGTERM or SIGINT is blocked.
pub fn are_blocked<R: Files>(rt: &R) -> bool {
    masks(rt, &["SigBlk:"]) & TO_END != 0
}

/// Returns whether SIGTERM or SIGINT came, and is pending.
pub fn is_told_to_end<R: Files>(rt: &R) -> bool {
    masks(rt, &["SigPnd:", "ShdPnd:"]) & TO_END != 0
}
