//! The command `follow`: prints the records of a ring's segments, also while a host writes them.

ghost use Rattle.std.specs.Prelude.{◌≡◌, IfOk, IfSome, OnOk};
ghost use Rattle.rb_tape_commands.specs.Follow.{FollowsRing};

use crate::buffers::tape_buffered;
use crate::next_segment::segments;
use crate::segment_reader::SegmentReader;
use crate::tape_refusal::TapeRefusal;
use crate::whole_records::front_span;
use rb_json::LineForm;
use rb_segments::{DirectoryFault, ring_numbers, segment_path};
use std::alloc::Global;
use std::fs::File;
use std::io;
use std::io::{Error, Read, Seek, SeekFrom, Write};
use std::rt::{Clock, Files};
use thiserror::Error as ErrorText;

/// Why `follow` ended before the end of the tape.
#[derive(Debug, Drop, ErrorText)]
pub enum FollowRefusal {
    /// The directory has no such ring.
    #[error("the folder has no such ring")]
    NoRing,
    /// The records at the requested position were deleted. This is the position of the oldest one that is left.
    #[error("deleted; the oldest record is at {0}")]
    Deleted(u64),
    /// No record starts at the requested position.
    #[error("no record starts there")]
    NoRecord,
    /// The ring's file is damaged, or could not be read.
    #[error("{0}")]
    Directory(DirectoryFault),
    /// A refusal of `tape`.
    #[error("{0}")]
    Tape(TapeRefusal),
}

impl From<Error> for FollowRefusal {
    fn from(error: Error) -> FollowRefusal {
        FollowRefusal::Directory(DirectoryFault::Device(error))
    }
}

/// Prints a line for each record of a ring's segments, as `tape` does, from the record at `from` on, or from the oldest
/// one. At the end of the newest segment it waits for more. It returns once the host has ended the tape in order.
///
/// The contract says of which records the lines are: of some that stand one after the other in a ring, from `from` on. No
/// contract knows the bytes of a file, so it can't say that they are those of the segments.
pub fn follow<R: Files + Clock, W: Write>(
    rt: &R,
    alloc: Global,
    folder: &str,
    ring: &str,
    from: Option<u64>,
    out: &mut W,
    form: LineForm,
) -> Result<(), FollowRefusal>
    ensures printed { OnOk result (FollowsRing form from (W.contents out.old) (W.contents out.new)) }
{
    let numbers = match ring_numbers(rt, alloc, folder, ring) {
        Ok(Some(numbers)) => numbers,
        Ok(None) => return Err(FollowRefusal::NoRing),
        Err(fault) => return Err(FollowRefusal::Directory(fault)),
    };
    let (opened, position) = first_place(rt, alloc, folder, ring, numbers.start, from)?;
    let mut reader = SegmentReader::new(rt, alloc, folder, ring, opened, position);
    let printed = tape_buffered(alloc, &mut reader, out, numbers.size, position, form);
    match (printed, reader.oldest) {
        (Ok(()), _) => Ok(()),
        (Err(TapeRefusal::Device), Some(oldest)) => Err(FollowRefusal::Deleted(oldest)),
        (Err(refusal), _) => Err(FollowRefusal::Tape(refusal)),
    }
}

// Returns the position of the segment to begin with, and that of the first record.
fn first_place<R: Files>(
    rt: &R,
    alloc: Global,
    folder: &str,
    ring: &str,
    start: u64,
    from: Option<u64>,
) -> Result<(u64, u64), FollowRefusal>
    ensures begins { IfOk result (λ places. IfSome from (λ position. places.1 ≡ position)) }
{
    let list = segments(rt, alloc, folder, ring)?;
    let oldest = list.first().map_or(start, |segment| segment.position);
    let Some(from) = from else {
        return Ok((oldest, oldest));
    };
    if from < oldest {
        return Err(FollowRefusal::Deleted(oldest));
    }
    let mut opened = oldest;
    for segment in list.iter() {
        if segment.position <= from {
            opened = segment.position;
        }
    }
    if from > opened {
        let path = segment_path(alloc, folder, ring, opened).map_err(Error::from)?;
        let mut file = File::open(rt, path.as_str())?;
        if !is_record_end(&mut file, from - opened)? {
            return Err(FollowRefusal::NoRecord);
        }
    }
    Ok((opened, from))
}

// Whether a whole record of the segment ends at this offset.
fn is_record_end<F: Read + Seek>(file: &mut F, offset: u64) -> io::Result<bool> {
    let mut at = 0;
    let mut header = [0; 8];
    for _ in 0..offset {
        file.seek(SeekFrom::Start(at))?;
        let count = file.read(&mut header)?;
        let Some(span) = front_span(&header[..count]) else {
            return Ok(false);
        };
        at = at.saturating_add(span);
        if at >= offset {
            return Ok(at == offset);
        }
    }
    Ok(false)
}
