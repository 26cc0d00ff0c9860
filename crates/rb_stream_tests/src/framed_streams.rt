//! Tests of streams of frames, lines and contexts of one length, which a reader gives a few bytes at a time.

ghost use Rattle.std.specs.Prelude.{◌≡◌, ◌<◌};
ghost use Rattle.rb_source.specs.declared.framing.Framing.TheVariants.{Fixed};
ghost use Rattle.rb_source.specs.Form.{IsForm};

use super::given::same;
use rb_source::{
    ContextCounts, Filled, Fit, Form, FramedReader, Framing, Piece, Source, SourceFault,
};
use std::alloc::{AllocError, Global};
use std::io::{Error, ErrorKind, Read, Result as IoResult};
use std::process::Abort;
use std::rt::HostRuntime;

// A reader that gives its bytes, `most` at a time, and then the end. Its read number `fails_at`, counted from 0, fails.
#[derive(Drop)]
struct CutReader<'a> {
    rest: &'a [u8],
    most: usize,
    reads: u64,
    fails_at: u64,
    fault: ErrorKind,
}

impl Read for CutReader<'_> {
    fn read(&mut self, buf: &mut [u8]) -> IoResult<usize> {
        let read = self.reads;
        self.reads = read.saturating_add(1);
        if read == self.fails_at {
            return Err(Error::from(self.fault));
        }
        let count = self.rest.len().min(buf.len()).min(self.most);
        let (front, rest) = self.rest.split_at(count);
        buf[..count].copy_from_slice(front);
        self.rest = rest;
        Ok(count)
    }
}

fn cut_reader(bytes: &[u8], most: usize) -> CutReader<'_> {
    CutReader {
        rest: bytes,
        most,
        reads: 0,
        fails_at: u64::MAX,
        fault: ErrorKind::Other,
    }
}

// What a source gave until it ended or failed: the contexts one after the other, each followed by a bar; how it ended;
// and its counts.
#[derive(Drop)]
struct Given {
    text: Vec<u8>,
    end: Result<Filled, SourceFault>,
    counts: ContextCounts,
}

// Fills pieces from the source until it ends or fails, and appends the contexts to `text`.
fn drain<R: Read>(
    alloc: Global,
    source: &mut FramedReader<R>,
    text: &mut Vec<u8>,
) -> Result<Result<Filled, SourceFault>, AllocError> {
    for _ in 0..10_000 {
        let mut piece = Piece::new(alloc, source.ctx_len())?;
        match source.fill(&mut piece) {
            Ok(Filled::More) => {
                for at in 0..piece.len() {
                    text.extend_from_slice(piece.get(at))?;
                    text.push(b'|')?;
                }
            }
            end => return Ok(end),
        }
    }
    Ok(Ok(Filled::More))
}

fn outcome<R: Read + Drop>(
    alloc: Global,
    reader: R,
    framing: Framing,
    form: Form,
) -> Result<Given, AllocError>
    requires lawful { IsForm form }
    requires some { framing ≡ Fixed → 0 < form.len }
{
    let mut source = FramedReader::new(alloc, reader, framing, form)?;
    let mut text = Vec::new(alloc);
    let end = drain(alloc, &mut source, &mut text)?;
    Ok(Given {
        text,
        end,
        counts: source.counts(),
    })
}

// Returns what a source gives.
fn given_by<T: Abort + AllocGlobal, R: Read + Drop>(
    rt: &T,
    reader: R,
    framing: Framing,
    form: Form,
) -> Given
    requires lawful { IsForm form }
    requires some { framing ≡ Fixed → 0 < form.len }
{
    outcome(rt.alloc(), reader, framing, form).expect(rt, "memory")
}

const EXACT: Form = Form {
    len: 3,
    fit: Fit::Exact,
    with_length: false,
};

const PAD: Form = Form {
    len: 3,
    fit: Fit::Pad,
    with_length: false,
};

const CUT: Form = Form {
    len: 3,
    fit: Fit::Cut,
    with_length: true,
};

// Whether a source gave this text, with this end and these counts.
fn is_given(it: &Given, text: &[u8], end: Result<Filled, SourceFault>, counts: [u64; 3]) -> bool {
    let counted = [it.counts.given, it.counts.skipped, it.counts.cut];
    it.text.as_slice() == text && it.end == end && counted == counts
}

// Ends the test unless the stream gives this, with this end and these counts, for several sizes of reads; reads of one
// byte cut it at every place.
fn gives<T: Abort + AllocGlobal>(
    rt: &T,
    framing: Framing,
    form: Form,
    stream: &[u8],
    text: &[u8],
    end: Result<Filled, SourceFault>,
    counts: [u64; 3],
)
    requires lawful { IsForm form }
    requires some { framing ≡ Fixed → 0 < form.len }
{
    for most in [1, 2, 3, 5, 64] {
        let it = given_by(rt, cut_reader(stream, most), framing, form);
        same(rt, &is_given(&it, text, end, counts), &true);
    }
}

const FRAMES: &[u8] = b"\x03\0\0\0abc\0\0\0\0\x01\0\0\0d\x04\0\0\0efgh\x03\0\0\0ijk";

#[test]
fn frames_are_given_however_the_reads_cut_them(rt: HostRuntime) {
    let over = Ok(Filled::End);
    let padded = b"abc|\0\0\0|d\0\0|ijk|";
    let cut = b"\x03\0\0\0abc|\0\0\0\0\0\0\0|\x01\0\0\0d\0\0|\x04\0\0\0efg|\x03\0\0\0ijk|";
    gives(
        &rt,
        Framing::Frames,
        EXACT,
        FRAMES,
        b"abc|ijk|",
        over,
        [2, 3, 0],
    );
    gives(&rt, Framing::Frames, PAD, FRAMES, padded, over, [4, 1, 0]);
    gives(&rt, Framing::Frames, CUT, FRAMES, cut, over, [5, 0, 1]);
    gives(&rt, Framing::Frames, PAD, b"", b"", over, [0, 0, 0]);
}

#[test]
fn contexts_of_one_length_are_given_however_the_reads_cut_them(rt: HostRuntime) {
    let over = Ok(Filled::End);
    let inside = Err(SourceFault::EndsInside(2));
    gives(
        &rt,
        Framing::Fixed,
        EXACT,
        b"abcdef",
        b"abc|def|",
        over,
        [2, 0, 0],
    );
    gives(
        &rt,
        Framing::Fixed,
        EXACT,
        b"abcdefg",
        b"abc|def|",
        inside,
        [2, 0, 0],
    );
    gives(&rt, Framing::Fixed, EXACT, b"", b"", over, [0, 0, 0]);
}

#[test]
fn lines_are_given_however_the_reads_cut_them(rt: HostRuntime) {
    let over = Ok(Filled::End);
    let cut = b"\x03\0\0\0abc|\0\0\0\0\0\0\0|\x04\0\0\0efg|\x01\0\0\0d\0\0|";
    gives(
        &rt,
        Framing::Lines,
        PAD,
        b"abc\n\nefgh\nd",
        b"abc|\0\0\0|d\0\0|",
        over,
        [3, 1, 0],
    );
    gives(
        &rt,
        Framing::Lines,
        CUT,
        b"abc\n\nefgh\nd",
        cut,
        over,
        [4, 0, 1],
    );
    gives(
        &rt,
        Framing::Lines,
        EXACT,
        b"ab\nabcd\n",
        b"",
        over,
        [0, 2, 0],
    );
    gives(
        &rt,
        Framing::Lines,
        EXACT,
        b"abc\n",
        b"abc|",
        over,
        [1, 0, 0],
    );
}

// For each prefix of the frames, the input ends between two of them, or inside one.
#[test]
fn an_input_that_ends_inside_a_frame_fails(rt: HostRuntime) {
    let ends = [(0, 0), (7, 1), (11, 2), (16, 3), (24, 4), (31, 5)];
    for size in 0..FRAMES.len() + 1 {
        let mut end = Err(SourceFault::EndsInside(0));
        for (at, count) in ends {
            if at == size {
                end = Ok(Filled::End);
            } else if at < size {
                end = Err(SourceFault::EndsInside(count));
            }
        }
        let it = given_by(&rt, cut_reader(&FRAMES[..size], 2), Framing::Frames, PAD);
        same(&rt, &it.end, &end);
    }
}

#[test]
fn the_end_mark_ends_a_stream_of_frames(rt: HostRuntime) {
    let over = Ok(Filled::End);
    let stream = b"\x03\0\0\0abc\xff\xff\xff\xff\x03\0\0\0def";
    gives(
        &rt,
        Framing::Frames,
        EXACT,
        stream,
        b"abc|",
        over,
        [1, 0, 0],
    );
}

#[test]
fn a_flush_gives_what_came_before_it_at_once(rt: HostRuntime) {
    let alloc = rt.alloc();
    let stream = b"\xfe\xff\xff\xff\x03\0\0\0abc\xfe\xff\xff\xff\x03\0\0\0def";
    let mut source = FramedReader::new(
        alloc,
        cut_reader(stream, 64),
        Framing::Frames,
        EXACT,
    ).expect(&rt, "memory");
    for word in [b"abc", b"def"] {
        let mut piece = Piece::new(alloc, source.ctx_len()).expect(&rt, "memory");
        same(&rt, &source.fill(&mut piece), &Ok(Filled::More));
        assert!(rt; piece.len() == 1);
        same(&rt, &piece.get(0), &word.as_slice());
    }
    let over = Ok(Filled::End);
    gives(
        &rt,
        Framing::Frames,
        EXACT,
        stream,
        b"abc|def|",
        over,
        [2, 0, 0],
    );
}

// Ends the test unless a context of 200,000 bytes is cut or skipped, and the next one is given.
fn cuts_or_skips<T: Abort + AllocGlobal>(rt: &T, framing: Framing, stream: &[u8], most: usize) {
    let cut = given_by(rt, cut_reader(stream, most), framing, CUT);
    same(
        rt,
        &cut.text.as_slice(),
        &b"\x40\x0d\x03\0abc|\x03\0\0\0xyz|".as_slice(),
    );
    same(
        rt,
        &(cut.end, cut.counts.given, cut.counts.cut),
        &(Ok(Filled::End), 2, 1),
    );
    let padded = given_by(rt, cut_reader(stream, most), framing, PAD);
    same(rt, &padded.text.as_slice(), &b"xyz|".as_slice());
    same(
        rt,
        &(padded.end, padded.counts.given, padded.counts.skipped),
        &(Ok(Filled::End), 1, 1),
    );
}

// Returns `first`, 200,000 letters, and `last`.
fn long_stream(rt: &impl Abort, alloc: Global, first: &[u8], last: &[u8]) -> Vec<u8> {
    let mut stream = Vec::from_slice(alloc, first).expect(rt, "memory");
    for at in 0..200_000u32 {
        stream.push(b'a' + (at % 26) as u8).expect(rt, "memory");
    }
    stream.extend_from_slice(last).expect(rt, "memory");
    stream
}

// Contexts of 200,000 bytes are longer than what is held of a stream.
#[test]
fn a_context_that_does_not_fit_is_cut_or_skipped(rt: HostRuntime) {
    let alloc = rt.alloc();
    let frames = long_stream(&rt, alloc, &[0x40, 0x0d, 0x03, 0], b"\x03\0\0\0xyz");
    let lines = long_stream(&rt, alloc, b"", b"\nxyz");
    for most in [1_000, 4_096, 200_000] {
        cuts_or_skips(&rt, Framing::Frames, frames.as_slice(), most);
        cuts_or_skips(&rt, Framing::Lines, lines.as_slice(), most);
    }
}

// Returns how a source of the frames ends by one call, or by two if the first one fails, and the contexts. Its read
// number `fails_at` fails.
fn drained(
    rt: &impl Abort,
    alloc: Global,
    fails_at: u64,
    fault: ErrorKind,
) -> (
    Result<Filled, SourceFault>,
    Result<Filled, SourceFault>,
    Vec<u8>,
) {
    let mut reader = cut_reader(FRAMES, 3);
    reader.fails_at = fails_at;
    reader.fault = fault;
    let source = FramedReader::new(alloc, reader, Framing::Frames, EXACT);
    let mut source = source.expect(rt, "memory");
    let mut text = Vec::new(alloc);
    let first = drain(alloc, &mut source, &mut text).expect(rt, "memory");
    let second = if first.is_err() {
        drain(alloc, &mut source, &mut text).expect(rt, "memory")
    } else {
        first
    };
    (first, second, text)
}

// After a failed read the next call continues to read; an interrupted read is repeated by the same call.
#[test]
fn a_failed_read_loses_nothing(rt: HostRuntime) {
    let over = Ok(Filled::End);
    for fails_at in 0..12 {
        for (fault, wanted) in [
            (ErrorKind::Other, Err(SourceFault::Read)),
            (ErrorKind::Interrupted, over),
        ] {
            let (first, second, text) = drained(&rt, rt.alloc(), fails_at, fault);
            same(&rt, &(first, second), &(wanted, over));
            same(&rt, &text.as_slice(), &b"abc|ijk|".as_slice());
        }
    }
}
