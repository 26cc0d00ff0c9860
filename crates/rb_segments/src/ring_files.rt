//! The files of a ring beside its segments: `RING.ring` holds its size and start, `RING.end` marks an orderly end. The
//! folder has a lock file.

use crate::names::ring_path;
use std::alloc::Global;
use std::fs::{File, OpenFile, TryLockError};
use std::io::{Error, ErrorKind, Read, Write};
use std::rt::Files;
use std::{fs, io};
use thiserror::Error as ErrorText;

/// The first words of a ring's file, with the version of the format.
const WORDS: &str = "heskavo-segments 1 size ";

/// The size and the start of a ring, as its file stores them.
#[derive(Clone, Copy, Debug, PartialEq, Eq)]
pub struct SegmentedRing {
    /// The ring's size in bytes.
    pub size: u64,
    /// The position of the first record ever.
    pub start: u64,
}

/// The reason why a ring's directory was refused.
#[derive(Debug, Drop, ErrorText)]
pub enum DirectoryFault {
    /// Another host writes to the folder.
    #[error("another host writes to this folder")]
    Locked,
    /// The folder has a ring of this name with this other size.
    #[error("the ring of this folder has another size: {0}")]
    Size(u64),
    /// The ring's file does not have the format that hosts write.
    #[error("the file of the ring is damaged")]
    Damaged,
    /// A system call failed.
    #[error("{0}")]
    Device(Error),
}

impl From<Error> for DirectoryFault {
    fn from(error: Error) -> DirectoryFault {
        DirectoryFault::Device(error)
    }
}

/// Locks the folder for this host. Returns the lock file, which keeps the lock until it is dropped.
pub fn lock_folder<R: Files<File = File>>(
    rt: &R,
    alloc: Global,
    folder: &str,
) -> Result<File, DirectoryFault> {
    let path = ring_path(alloc, folder, "host", "lock").map_err(Error::from)?;
    let file = File::create(rt, path.as_str())?;
    match file.try_lock() {
        Ok(()) => Ok(file),
        Err(TryLockError::WouldBlock) => Err(DirectoryFault::Locked),
        Err(TryLockError::Error(error)) => Err(DirectoryFault::Device(error)),
    }
}

/// Returns a ring's size and start from its file, or `None` if it has no file.
pub fn ring_numbers<R: Files>(
    rt: &R,
    alloc: Global,
    folder: &str,
    ring: &str,
) -> Result<Option<SegmentedRing>, DirectoryFault> {
    let path = ring_path(alloc, folder, ring, "ring").map_err(Error::from)?;
    let Some(text) = read_if_exists(rt, alloc, path.as_str())? else {
        return Ok(None);
    };
    match parse_numbers(text.as_str()) {
        Some(numbers) => Ok(Some(numbers)),
        None => Err(DirectoryFault::Damaged),
    }
}

/// Creates a ring's file in the folder, and returns the size and the start that the file holds.
///
/// If the ring has a file with this size already, removes the mark of an orderly end instead. Refuses a ring of another
/// size without changing anything.
pub fn enter_ring<R: Files>(
    rt: &R,
    alloc: Global,
    folder: &str,
    ring: &str,
    numbers: SegmentedRing,
) -> Result<SegmentedRing, DirectoryFault> {
    let found = ring_numbers(rt, alloc, folder, ring)?;
    let Some(found) = found else {
        let (size, start) = (numbers.size, numbers.start);
        let text = format!(in alloc; "{WORDS}{size} start {start}\n").map_err(Error::from)?;
        put_file(rt, alloc, folder, ring, "ring", text.as_str())?;
        return Ok(numbers);
    };
    if found.size != numbers.size {
        return Err(DirectoryFault::Size(found.size));
    }
    let end = ring_path(alloc, folder, ring, "end").map_err(Error::from)?;
    match fs::remove_file(rt, end.as_str()) {
        Err(error) if error.kind() != ErrorKind::NotFound => Err(DirectoryFault::Device(error)),
        _ => Ok(found),
    }
}

/// Marks an orderly end of the ring's tape at this position.
pub fn mark_end<R: Files>(
    rt: &R,
    alloc: Global,
    folder: &str,
    ring: &str,
    position: u64,
) -> io::Result<()> {
    let text = format!(in alloc; "{position}\n")?;
    put_file(rt, alloc, folder, ring, "end", text.as_str())
}

/// Returns the position at which the ring's tape ended in order, or `None` if it did not.
pub fn marked_end<R: Files>(
    rt: &R,
    alloc: Global,
    folder: &str,
    ring: &str,
) -> io::Result<Option<u64>> {
    let path = ring_path(alloc, folder, ring, "end")?;
    let Some(text) = read_if_exists(rt, alloc, path.as_str())? else {
        return Ok(None);
    };
    Ok(
        text.as_str()
            .strip_suffix('\n')
            .and_then(|digits| digits.parse().ok()),
    )
}

// Writes a file under a temporary name, syncs it, and renames it, so that readers see either the old file or the
// complete new one.
fn put_file<R: Files>(
    rt: &R,
    alloc: Global,
    folder: &str,
    ring: &str,
    ending: &str,
    text: &str,
) -> io::Result<()> {
    let path = ring_path(alloc, folder, ring, ending)?;
    let new = format!(in alloc; "{path}.new")?;
    let mut file = File::create(rt, new.as_str())?;
    file.write_all(text.as_bytes())?;
    file.sync_all()?;
    fs::rename(rt, new.as_str(), path.as_str())?;
    File::open(rt, folder)?.sync_all()
}

// Returns the text of a file, or `None` if there is none.
fn read_if_exists<R: Files>(rt: &R, alloc: Global, path: &str) -> io::Result<Option<String>> {
    let mut file = match File::open(rt, path) {
        Ok(file) => file,
        Err(error) if error.kind() == ErrorKind::NotFound => return Ok(None),
        Err(error) => return Err(error),
    };
    let mut text = String::new(alloc);
    file.read_to_string(&mut text)?;
    Ok(Some(text))
}

// Parses the line of a ring's file.
fn parse_numbers(line: &str) -> Option<SegmentedRing> {
    let (size, start) = line
        .strip_prefix(WORDS)?
        .strip_suffix('\n')?
        .split_once(" start ")?;
    Some(SegmentedRing {
        size: size.parse().ok()?,
        start: start.parse().ok()?,
    })
}
