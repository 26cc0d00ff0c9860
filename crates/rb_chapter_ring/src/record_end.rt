//! The two ways in which a worker commits a record.

ghost use Rattle.std.specs.Prelude.{◌≡◌};
ghost use Rattle.rb_chapter_ring.specs.UntakenRecords.{status_shown};
ghost use Rattle.rb_chapter_ring.specs.RecordEnds.{status_of_end};

use crate::UntakenStatus;

/// What a commit does with the record: the argument `discard` of bpf_ringbuf_commit (Linux kernel/bpf/ringbuf.c).
#[derive(Clone, Copy, PartialEq, Eq)]
pub enum RecordEnd {
    /// The consumer takes its bytes.
    Submit,
    /// The consumer skips it.
    Discard,
}

impl RecordEnd {
    #[inline(always)]
    /// Returns the status of an untaken record after this commit.
    pub(crate) fn status(self) -> UntakenStatus
        ensures status { status_shown result ≡ status_of_end self }
    {
        match self {
            RecordEnd::Submit => UntakenStatus::Waiting,
            RecordEnd::Discard => UntakenStatus::Discarded,
        }
    }
}
