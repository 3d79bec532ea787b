//! Files that have lost their names, given back to the system a piece at a time.
//!
//! Closing a file waits while the system gives back its bytes: if the disk is told of that at once, 20 ms for 20 MB. So a file
//! that is replaced or removed is kept open, and is made shorter by a piece each turn, before it is closed.
//!
//! Nobody may miss the bytes that go. A crash doesn't: the disk has the directory without the name by then. Nor does a reader
//! that comes by another name, or through a hard link: a file that has a name isn't made shorter. A reader that opened it before
//! it lost its name may still be reading, and no lock tells of all such readers; so the file stays whole until the file of the
//! state is written anew once more, and a [`WholeFile`](crate::WholeFile) tells a reader that takes longer that the file was made
//! shorter.

use crate::opening::is_there;
use crate::whole_file::is_named;
use std::alloc::Global;
use std::fs::{File, OpenOptions};
use std::rt::Files;

/// The number of bytes that are given back in a turn.
const PIECE: u64 = 262_144;

/// Files that have lost their names, kept open.
#[derive(Drop)]
pub struct SpentFiles {
    files: Vec<File>,
}

impl SpentFiles {
    /// Returns no files.
    pub fn none(alloc: Global) -> SpentFiles {
        SpentFiles {
            files: Vec::new(alloc),
        }
    }

    /// Keeps one more file, if it was opened. If memory runs out, the file is closed.
    pub fn keep(&mut self, file: Option<File>) {
        if let Some(file) = file {
            let _ = self.files.push(file);
        }
    }

    /// Makes the last file shorter by a piece, or closes it if less is left. Returns whether there are any files left.
    pub fn give_back(&mut self) -> bool {
        let is_left = match self.files.last() {
            Some(file) => is_shortened(file),
            None => return false,
        };
        if !is_left {
            let _ = self.files.pop();
        }
        !self.files.is_empty()
    }

    /// Closes all files, however long that takes.
    pub fn close(&mut self) {
        self.files.clear();
    }
}

/// Makes a file shorter by a piece, if it has no name and more bytes than that. Returns whether it did.
fn is_shortened(file: &File) -> bool {
    let Ok(found) = file.metadata() else {
        return false;
    };
    !is_named(&found)
        && found.len() > PIECE
        && file.set_len(found.len().saturating_sub(PIECE)).is_ok()
}

/// Opens a file that is about to lose its name. Returns `None` if it isn't there or can't be opened: then the system gives back
/// all of it once the name is gone.
pub fn opened_to_go<R: Files<File = File>>(rt: &R, path: &str) -> Option<File> {
    if !matches!(is_there(rt, path), Ok(true)) {
        return None;
    }
    let mut how = OpenOptions::new();
    how.read(true).write(true);
    match how.open(rt, path) {
        Ok(file) => Some(file),
        Err(_) => None,
    }
}
