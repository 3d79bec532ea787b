//! The system's figures of the process (proc(5)).

use std::fs;
use std::io::Read;
use std::rt::Files;

/// The file of the processor time, among other things.
const STAT: &str = "/proc/self/stat";

/// The file of the memory.
const STATM: &str = "/proc/self/statm";

/// The directory of the open files; its length is their number, from Linux 6.2 on.
const FILES: &str = "/proc/self/fd";

/// The number of bytes of each file that are read: they have some 400.
const PIECE: usize = 2_048;

/// The number of bytes in a page of memory.
const PAGE_BYTES: u64 = 4_096;

/// The resources that the process takes. One that can't be read is 0.
#[derive(Clone, Copy)]
pub struct Process {
    /// The processor time, in hundredths of a second.
    pub ticks: u64,
    /// The number of the process's bytes that are in memory.
    pub resident: u64,
    /// The number of files and sockets that are open.
    pub files: u64,
}

/// Returns the number at a place among the words of a text, or 0 if there is none.
fn number_at(text: &str, place: usize) -> u64 {
    match text.split_ascii_whitespace().nth(place) {
        Some(word) => word.parse::<u64>().unwrap_or(0),
        None => 0,
    }
}

/// Returns the processor time in a text of the file: the process's own and the system's, after the name of the program, which
/// stands in brackets.
fn ticks_in(text: &str) -> u64 {
    match text.rsplit_once(')') {
        Some((_, rest)) => number_at(rest, 11).saturating_add(number_at(rest, 12)),
        None => 0,
    }
}

/// Returns the number of pages that are in memory, in a text of the file.
fn pages_in(text: &str) -> u64 {
    number_at(text, 1)
}

/// A number in one of the files.
#[derive(Clone, Copy)]
enum Wanted {
    Ticks,
    Pages,
}

/// Returns the number in the text of its file.
fn wanted_in(text: &str, wanted: Wanted) -> u64 {
    match wanted {
        Wanted::Ticks => ticks_in(text),
        Wanted::Pages => pages_in(text),
    }
}

/// Returns the number in a file, or 0 if the file can't be read. Takes no memory.
fn read_number<R: Files>(rt: &R, path: &str, wanted: Wanted) -> u64 {
    let Ok(mut file) = fs::open(rt, path) else {
        return 0;
    };
    let mut piece = [0u8; PIECE];
    let Ok(count) = file.read(&mut piece) else {
        return 0;
    };
    match str::from_utf8(&piece[..count]) {
        Ok(text) => wanted_in(text, wanted),
        Err(_) => 0,
    }
}

/// Returns the number of files that the process has open.
fn files<R: Files>(rt: &R) -> u64 {
    match fs::metadata(rt, FILES) {
        Ok(found) => found.len(),
        Err(_) => 0,
    }
}

impl Process {
    /// Reads the resources that the process takes now.
    pub fn now<R: Files>(rt: &R) -> Process {
        Process {
            ticks: read_number(rt, STAT, Wanted::Ticks),
            resident: read_number(rt, STATM, Wanted::Pages).saturating_mul(PAGE_BYTES),
            files: files(rt),
        }
    }
}
