//! The bytes of a ring's segments, one segment after the other.

ghost use Rattle.std.specs.Prelude.{◌≤◌, length, IfOk};

use crate::next_segment::{NextSegment, next_place};
use crate::whole_records::{front_span, whole_length};
use rb_segments::segment_path;
use std::alloc::Global;
use std::fs::{File, OpenFile};
use std::io;
use std::io::{Error, ErrorKind, Read, Seek, SeekFrom};
use std::rt::{Clock, Files};
use std::time::Duration;

/// The interval at which it looks for more: 50 milliseconds.
const LOOK_MILLIS: u64 = 50;

/// Reads the whole records of a ring's segments. At the end of the newest segment it waits until the host writes more. The
/// input ends once the host has marked the end of the tape. It never returns a part of an incomplete record, because a
/// restart of the host would cut it off.
#[derive(Drop)]
pub struct SegmentReader<'a, R: Files> {
    rt: &'a R,
    alloc: Global,
    folder: &'a str,
    ring: &'a str,
    file: Option<R::File>,
    // The position of the open segment.
    opened: u64,
    // The position of the next byte.
    position: u64,
    // The number of bytes left of a whole record that was longer than the caller's buffer.
    owed: u64,
    /// The position of the oldest segment, if the next records were deleted.
    pub oldest: Option<u64>,
}

impl<'a, R: Files> SegmentReader<'a, R> {
    /// Returns a reader of the ring's segments from `position` on, in the segment that is named `opened`. Nothing is read yet.
    pub fn new(
        rt: &'a R,
        alloc: Global,
        folder: &'a str,
        ring: &'a str,
        opened: u64,
        position: u64,
    ) -> SegmentReader<'a, R> {
        SegmentReader {
            rt,
            alloc,
            folder,
            ring,
            file: None,
            opened,
            position,
            owed: 0,
            oldest: None,
        }
    }

    // Opens the segment of this position. Returns whether it exists.
    fn open(&mut self, opened: u64) -> io::Result<bool> {
        let path = segment_path(self.alloc, self.folder, self.ring, opened)?;
        match File::open(self.rt, path.as_str()) {
            Ok(file) => {
                self.file = Some(file);
                self.opened = opened;
                Ok(true)
            }
            Err(error) if error.kind() == ErrorKind::NotFound => Ok(false),
            Err(error) => Err(error),
        }
    }

    // Opens the next segment if there is one. Returns whether more may come.
    fn go_on(&mut self) -> io::Result<NextSegment> {
        let next = if self.file.is_none() {
            self.opened
        } else {
            self.position
        };
        if next != self.opened || self.file.is_none() {
            if self.open(next)? {
                return Ok(NextSegment::More);
            }
        }
        let place = next_place(self.rt, self.alloc, self.folder, self.ring, self.position)?;
        if let NextSegment::Deleted(oldest) = place {
            self.oldest = Some(oldest);
            return Err(Error::from(ErrorKind::NotFound));
        }
        Ok(place)
    }
}

// Reads whole records at this offset of the file. Returns the number of their bytes, and the number of bytes that are
// left of the last record.
fn read_whole<F: Read + Seek + OpenFile>(
    file: &mut F,
    at: u64,
    owed: u64,
    buf: &mut [u8],
) -> io::Result<(usize, u64)>
    ensures bound { IfOk result (λ r. r.0 ≤ length buf.new) }
{
    file.seek(SeekFrom::Start(at))?;
    let count = file.read(buf)?;
    if owed > 0 {
        let given = owed.min(count as u64);
        return Ok((given as usize, owed - given));
    }
    let whole = whole_length(&buf[..count]);
    if whole > 0 {
        return Ok((whole, 0));
    }
    // The record may be longer than the buffer.
    match front_span(&buf[..count]) {
        Some(span) if span > count as u64 && at.saturating_add(span) <= file.metadata()?.len() => {
            Ok((count, span - count as u64))
        }
        Some(_) => Ok((0, 0)),
        None if count >= 8 => Ok((count, 0)),
        None => Ok((0, 0)),
    }
}

impl<'a, R: Files + Clock> Read for SegmentReader<'a, R> {
    fn read(&mut self, buf: &mut [u8]) -> io::Result<usize> {
        for _ in 0..u64::MAX {
            if let Some(file) = &mut self.file {
                let at = self.position.saturating_sub(self.opened);
                let (count, owed) = read_whole(file, at, self.owed, buf)?;
                self.owed = owed;
                if count > 0 || buf.is_empty() {
                    self.position = self.position.saturating_add(count as u64);
                    return Ok(count);
                }
            }
            match self.go_on()? {
                NextSegment::Ended => return Ok(0),
                NextSegment::Waiting => self.rt.sleep(Duration::from_millis(LOOK_MILLIS)),
                _ => {}
            }
        }
        Ok(0)
    }
}
