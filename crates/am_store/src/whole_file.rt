//! Files that are read while a member may put others in their place.

use crate::file_fault::FileFault;
use std::fs::{self, File, Metadata};
use std::io::{self, ErrorKind, Read};
use std::os::unix::fs::MetadataExt;
use std::rt::Files;

/// Returns whether a file has a name in some directory.
pub fn is_named(found: &Metadata) -> bool {
    found.nlink() > 0
}

/// A file that is read to its end or not at all: a member that replaced or removed it makes it shorter, once it saves again, and
/// then its end is a fault.
#[derive(Drop)]
pub struct WholeFile {
    file: File,
    /// The size of the file in bytes when it was opened, and had its name.
    size: u64,
}

impl WholeFile {
    /// Opens the file at a path. If it loses its name meanwhile, the file that stands there then is opened.
    ///
    /// # Errors
    ///
    /// The error that the system reports.
    pub fn open<R: Files<File = File>>(rt: &R, path: &str) -> Result<WholeFile, FileFault> {
        let (file, found) = opened(rt, path)?;
        let (file, found) = if is_named(&found) {
            (file, found)
        } else {
            opened(rt, path)?
        };
        Ok(WholeFile {
            file,
            size: found.len(),
        })
    }
}

/// Opens a file, and returns it with what the system knows of it.
fn opened<R: Files<File = File>>(rt: &R, path: &str) -> Result<(File, Metadata), FileFault> {
    let file = fs::open(rt, path)?;
    let found = file.metadata()?;
    Ok((file, found))
}

/// Reading fails with [`ErrorKind::UnexpectedEof`] if the file has become shorter by the time its end is reached.
impl Read for WholeFile {
    fn read(&mut self, buf: &mut [u8]) -> io::Result<usize> {
        let read = self.file.read(buf)?;
        if read == 0 && self.file.metadata()?.len() < self.size {
            return Err(io::Error::from(ErrorKind::UnexpectedEof));
        }
        Ok(read)
    }
}
