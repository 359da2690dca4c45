//! Storing a file of the system: an older one is there until the new one is whole.

use arrayvec::ArrayString;
use std::fs::{Metadata, OpenFile, OpenOptions};
use std::io::{Error, ErrorKind, Write};
use std::os::unix::fs::{MetadataExt, chown};
use std::rt::Files;
use std::{fs, io};

/// Linux takes no path of more bytes.
const MAX_PATH: usize = 4_096;

/// What the name of a new file has after the name that it is to take. The first that is free is taken.
const ENDINGS: [&str; 4] = [".part", ".part2", ".part3", ".part4"];

/// A regular file of one name. A device, a pipe, a link, or a file of several names stays what it is.
fn is_plain(older: &Metadata) -> bool {
    older.is_file() && older.nlink() <= 1
}

/// No file may be made or named there, or it can't be as the older one is.
fn is_not_allowed(fault: &Error) -> bool {
    matches!(
        fault.kind(),
        ErrorKind::PermissionDenied | ErrorKind::InvalidFilename | ErrorKind::Unsupported
    )
}

/// A new file beside a name, and its own name.
fn open_beside<R: Files>(rt: &R, name: &str) -> io::Result<(ArrayString<MAX_PATH>, R::File)> {
    for ending in ENDINGS {
        let mut beside = ArrayString::new();
        if beside.try_push_str(name).is_err() || beside.try_push_str(ending).is_err() {
            return Err(Error::from(ErrorKind::InvalidFilename));
        }
        let mut how = OpenOptions::new();
        match how.write(true).create_new(true).open(rt, beside.as_str()) {
            Ok(file) => return Ok((beside, file)),
            Err(fault) if fault.kind() == ErrorKind::AlreadyExists => {}
            Err(fault) => return Err(fault),
        }
    }
    Err(Error::from(ErrorKind::AlreadyExists))
}

/// Gives a new file the older one's owner and permissions, and its bytes.
fn fill<R: Files>(
    rt: &R,
    beside: &str,
    mut file: R::File,
    older: Option<&Metadata>,
    bytes: &[u8],
) -> io::Result<()> {
    if let Some(older) = older {
        chown(rt, beside, Some(older.uid()), Some(older.gid()))?;
        file.set_permissions(older.permissions())?;
    }
    file.write_all(bytes)
}

/// Writes a file beside a name, and gives it the name once it is whole. Where that fails, no new file is left.
fn replace<R: Files>(rt: &R, name: &str, older: Option<&Metadata>, bytes: &[u8]) -> io::Result<()> {
    if older.is_some() {
        // A file that may not be written isn't replaced either.
        OpenOptions::new().write(true).open(rt, name)?;
    }
    let (beside, file) = open_beside(rt, name)?;
    let done = match fill(rt, beside.as_str(), file, older, bytes) {
        Ok(()) => fs::rename(rt, beside.as_str(), name),
        Err(fault) => Err(fault),
    };
    if done.is_err() {
        let _ = fs::remove_file(rt, beside.as_str());
    }
    done
}

/// Makes a name hold the bytes. A regular file, or none, is replaced by a whole new one, so that a write that fails
/// leaves the older one. Anything else is written where it is, and so is a file whose folder takes no new one.
pub fn store_file<R: Files>(rt: &R, name: &str, bytes: &[u8]) -> io::Result<()> {
    let older = match fs::symlink_metadata(rt, name) {
        Ok(older) if is_plain(&older) => Some(older),
        Err(fault) if fault.kind() == ErrorKind::NotFound => None,
        _ => return fs::write(rt, name, bytes),
    };
    match replace(rt, name, older.as_ref(), bytes) {
        Err(fault) if is_not_allowed(&fault) => fs::write(rt, name, bytes),
        done => done,
    }
}
