//! Segments in a directory of the file system.

use crate::names::{segment_path, segment_position};
use crate::segment_file::SegmentFile;
use crate::store::SegmentStore;
use crate::stored_segment::StoredSegment;
use rb_io::DeviceFault;
use std::alloc::Global;
use std::fs::{File, OpenFile, OpenOptions};
use std::io::{ErrorKind, Read, Seek, SeekFrom};
use std::rt::Files;
use std::{fs, io};

/// The size in bytes of the buffer for file names.
const PIECE: usize = 4096;

/// A store that keeps the segments of a ring as the files `FOLDER/RING.POSITION.tape` of a directory. Contracts say
/// nothing about the bytes in the file system.
#[derive(Drop)]
pub struct DirectoryStore<'a, R> {
    rt: &'a R,
    alloc: Global,
    folder: &'a str,
    ring: &'a str,
    /// The error of the last call that failed.
    pub error: Option<io::Error>,
}

impl<'a, R: Files> DirectoryStore<'a, R> {
    /// Returns a store for the ring's segments in an existing directory, without reading it.
    pub fn new(rt: &'a R, alloc: Global, folder: &'a str, ring: &'a str) -> DirectoryStore<'a, R> {
        DirectoryStore {
            rt,
            alloc,
            folder,
            ring,
            error: None,
        }
    }

    // Converts the result of a system call, and keeps its error.
    fn keep_error<T>(&mut self, answer: io::Result<T>) -> Result<T, DeviceFault> {
        match answer {
            Ok(value) => Ok(value),
            Err(error) => {
                self.error = Some(error);
                Err(DeviceFault)
            }
        }
    }

    // Syncs the directory itself, so that a created file is found after a power failure.
    fn sync_folder(&self) -> io::Result<()> {
        File::open(self.rt, self.folder)?.sync_all()
    }

    fn create_file(&self, position: u64) -> io::Result<SegmentFile<R::File>> {
        let path = segment_path(self.alloc, self.folder, self.ring, position)?;
        let file = File::create_new(self.rt, path.as_str())?;
        self.sync_folder()?;
        SegmentFile::new(self.alloc, file)
    }

    fn delete_file(&self, position: u64) -> io::Result<()> {
        let path = segment_path(self.alloc, self.folder, self.ring, position)?;
        fs::remove_file(self.rt, path.as_str())
    }

    fn read_file(&self, alloc: Global, position: u64) -> io::Result<Vec<u8>> {
        let path = segment_path(self.alloc, self.folder, self.ring, position)?;
        let mut file = File::open(self.rt, path.as_str())?;
        let mut bytes = Vec::new(alloc);
        file.read_to_end(&mut bytes)?;
        Ok(bytes)
    }

    fn reopen_file(&self, position: u64, length: u64) -> io::Result<SegmentFile<R::File>> {
        let path = segment_path(self.alloc, self.folder, self.ring, position)?;
        let mut how = OpenOptions::new();
        how.read(true).write(true);
        let mut file = how.open(self.rt, path.as_str())?;
        file.set_len(length)?;
        file.seek(SeekFrom::End(0))?;
        SegmentFile::new(self.alloc, file)
    }
}

impl<'a, R: Files> DirectoryStore<'a, R> {
    fn list_files(&self, alloc: Global) -> io::Result<Vec<StoredSegment>> {
        let mut list = Vec::new(alloc);
        let names = read_names(self.rt, alloc, self.folder)?;
        for name in names.as_slice().split(|byte| *byte == 0) {
            let Ok(name) = str::from_utf8(name) else {
                continue;
            };
            if let Some(position) = segment_position(self.ring, name)
                && let Some(length) = self.length_of(position)?
            {
                list.push(StoredSegment { position, length })?;
            }
        }
        list.sort_by_key(|segment| segment.position)?;
        Ok(list)
    }

    // Returns the length of a segment, or `None` if it was deleted meanwhile.
    fn length_of(&self, position: u64) -> io::Result<Option<u64>> {
        let path = segment_path(self.alloc, self.folder, self.ring, position)?;
        match fs::metadata(self.rt, path.as_str()) {
            Ok(found) => Ok(Some(found.len())),
            Err(error) if error.kind() == ErrorKind::NotFound => Ok(None),
            Err(error) => Err(error),
        }
    }
}

// Reads the names of a directory's files. Each ends with a zero byte.
fn read_names<R: Files>(rt: &R, alloc: Global, folder: &str) -> io::Result<Vec<u8>> {
    let path = format!(in alloc; "{folder}/")?;
    let mut dir = rt.open_dir(path.as_str())?;
    let mut names = Vec::new(alloc);
    let mut piece = [0; PIECE];
    for _ in 0..u64::MAX {
        let count = dir.read(&mut piece)?;
        if count == 0 {
            break;
        }
        names.extend_from_slice(&piece[..count])?;
    }
    Ok(names)
}

impl<'a, R: Files> SegmentStore<SegmentFile<R::File>> for DirectoryStore<'a, R> {
    ghost use Rattle.std.specs.Prelude.{⊤, None};

    ghost segments = { λ store. None };

    ghost created = { λ store. None };

    ghost is_synced = { λ store file. ⊤ };

    fn create(&mut self, position: u64) -> Result<SegmentFile<R::File>, DeviceFault> {
        let created = self.create_file(position);
        self.keep_error(created)
    }

    fn sync(&mut self, file: &SegmentFile<R::File>) -> Result<(), DeviceFault> {
        let synced = file.sync();
        self.keep_error(synced)
    }

    fn close(&mut self, _position: u64, _file: &SegmentFile<R::File>) -> Result<(), DeviceFault> {
        Ok(())
    }

    fn delete_oldest(&mut self, position: u64) -> Result<(), DeviceFault> {
        let deleted = self.delete_file(position);
        self.keep_error(deleted)
    }

    fn list(&mut self, alloc: Global) -> Result<Vec<StoredSegment>, DeviceFault> {
        let listed = self.list_files(alloc);
        self.keep_error(listed)
    }

    fn read_newest(&mut self, alloc: Global, position: u64) -> Result<Vec<u8>, DeviceFault> {
        let read = self.read_file(alloc, position);
        self.keep_error(read)
    }

    fn reopen(&mut self, position: u64, length: u64) -> Result<SegmentFile<R::File>, DeviceFault> {
        let reopened = self.reopen_file(position, length);
        self.keep_error(reopened)
    }
}
