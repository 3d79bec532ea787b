//! The secret of members, in a file.

use am_wire::{Stop, fill};
use std::fs;
use std::io::ErrorKind;
use std::os::unix::fs::PermissionsExt;
use std::rt::Files;
use thiserror::Error;

/// The minimum number of bytes in a secret.
const LEAST: usize = 16;

/// The maximum number of bytes in a secret.
const MOST: usize = 4_096;

/// The permissions of users other than the owner and the group of a file (chmod(1)).
const OTHERS: u32 = 0o7;

/// The reason for not reading a secret. It is printed as its name and number.
#[derive(Clone, Copy, Debug, PartialEq, Eq, Error)]
pub enum SecretFault {
    /// The system refuses the file.
    #[error("File {0:?}")]
    File(ErrorKind),
    /// A read failed, after this many bytes.
    #[error("Read {0}")]
    Read(u64),
    /// The secret has fewer than 16 bytes.
    #[error("Short")]
    Short,
    /// The secret has more than 4,096 bytes.
    #[error("Long")]
    Long,
    #[error("Memory")]
    Memory,
}

/// A secret read from its file.
#[derive(Drop)]
pub struct Secret {
    pub bytes: Vec<u8>,
    /// True if users other than the owner and the group of the file may read or write it.
    pub is_open: bool,
}

/// Reads the secret in a file: all of it, except for one line feed at its end.
///
/// # Errors
///
/// Returns the first [`SecretFault`].
pub fn read_secret<R: Files + AllocGlobal>(rt: &R, path: &str) -> Result<Secret, SecretFault> {
    let bytes = read_file(rt, path)?;
    let bytes = without_line_feed(bytes);
    if bytes.len() < LEAST {
        return Err(SecretFault::Short);
    }
    let is_open = match fs::metadata(rt, path) {
        Ok(found) => found.permissions().mode() & OTHERS != 0,
        Err(_) => false,
    };
    Ok(Secret { bytes, is_open })
}

/// Reads the bytes of a file that has no more than a secret and a line feed may have.
fn read_file<R: Files + AllocGlobal>(rt: &R, path: &str) -> Result<Vec<u8>, SecretFault> {
    let mut file = match fs::open(rt, path) {
        Ok(file) => file,
        Err(error) => return Err(SecretFault::File(error.kind())),
    };
    let mut bytes = Vec::new(rt.alloc());
    match fill(&mut file, &mut bytes, MOST + 2) {
        Ok(false) if bytes.len() <= MOST => Ok(bytes),
        Ok(false) if bytes.last() == Some(&b'\n') => Ok(bytes),
        Ok(_) => Err(SecretFault::Long),
        Err(Stop::Read) => Err(SecretFault::Read(bytes.len() as u64)),
        Err(Stop::Memory) => Err(SecretFault::Memory),
    }
}

/// Removes one line feed from the end of the bytes.
fn without_line_feed(bytes: Vec<u8>) -> Vec<u8> {
    let mut bytes = bytes;
    if bytes.last() == Some(&b'\n') {
        bytes.pop();
    }
    bytes
}
