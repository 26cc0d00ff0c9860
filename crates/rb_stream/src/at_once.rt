//! Streams whose workers run contexts at once.

ghost use Rattle.std.specs.Prelude.{◌≡◌, ◌≢◌, ◌↔◌, All, IfErr, IfOk, false, true, vec_len};
ghost use Rattle.rb_workers.specs.Opened.{AreOpened, workers_of};
ghost use Rattle.rb_workers.specs.Rest.{LeavesNothing};
ghost use Rattle.rb_workers.specs.SeatRows.{seat_rows};
ghost use Rattle.rb_workers.specs.Settled.{EachSettled, EndsSettled};
ghost use Rattle.rb_stream.specs.Refusals.{StopsFor, has_other_length, has_unknown_ring};
ghost use Rattle.rb_stream.specs.Streamed.{EndsSource, IsStopped, IsStreamed};

use crate::report::{StreamFault, StreamReport, StreamStop};
use crate::stream_run::run_stream_as;
use rb_dealing::Late;
use rb_source::Source;
use rb_stream_worker::{CountOptions, WhenFull};
use rb_verifier::Verified;
use rb_workers::{Opened, Sink};
use std::alloc::Global;
use std::sync::Wait;
use std::thread::Threads;

/// Runs every program over each context that the source gives, with the opened rings, and closes the rings after the
/// source has ended or failed.
///
/// A thread reads the source and deals its contexts in pieces to the workers, one for each seat of a ring: each piece
/// goes to the next worker in turn whose queue has room. If none has, the reader waits or drops the piece, according to
/// `late`. Each worker has a thread, which runs every program, in order, over each context that is dealt to the worker.
/// Each ring's consumer has a thread, which gives its records and its chapters to the ring's sink, as in
/// `rb_workers::run_jobs`. After all have ended, the calling thread takes what is left, up to the first record that is
/// still busy: if no record of a closed ring is busy, none waits.
///
/// If no thread can be started, its work is done on the calling thread: the reader's first, then the workers', then the
/// consumers'. With `Late::Block`, the reader then waits forever once the workers' queues are full.
///
/// For each program, there is a separate count for each result below the bound, and one for all others together. Without
/// a program, contexts are read and dealt, and nothing runs over them.
///
/// A source that fails ends the stream like one that is over; the report has its fault. The report covers everything
/// that was run.
///
/// # Errors
///
/// `UnknownRing` takes precedence over `ContextLength`, which takes precedence over `NoWorker`; all are returned before
/// anything is read, and everything is handed back unchanged. `Memory` is returned if an allocation fails before the
/// start, for a piece, or for a worker's next run. Then the reader stops, that worker runs nothing more, the others run
/// what was dealt to them, and all rings are handed back open.
///
/// # Memory
///
/// All memory except that of the pieces and of each worker's trace is allocated before the first read. Pieces are
/// reused, so memory does not grow with the number of contexts.
pub fn run_stream<R: Threads + Wait + Sync, I: Source + Send, S: Sink + Send + Drop>(
    rt: &R,
    alloc: Global,
    opened: Vec<Opened<S>>,
    programs: &[Verified],
    source: &mut I,
    late: Late,
    options: CountOptions<'_>,
) -> Result<StreamReport<S>, StreamStop<S>>
    requires opened { AreOpened S.position_of opened.items }
    ensures unknown_ring { StopsFor StreamFault.UnknownRing result ↔ (has_unknown_ring (vec_len opened) programs.now ≡ true) }
    ensures context_length { StopsFor StreamFault.ContextLength result ↔ ((has_unknown_ring (vec_len opened) programs.now ≡ false) × (has_other_length (I.ctx_len_of source.old) programs.now ≡ true)) }
    ensures no_worker { StopsFor StreamFault.NoWorker result ↔ ((has_unknown_ring (vec_len opened) programs.now ≡ false) × (has_other_length (I.ctx_len_of source.old) programs.now ≡ false) × (workers_of opened.items ≡ 0)) }
    ensures nothing_read { IfErr result (λ stop. stop.fault ≢ StreamFault.Memory → (stop.opened ≡ opened) × (source.new ≡ source.old)) }
    ensures stopped { IfErr result (IsStopped S.position_of S.takes I.gives opened.items programs.now source.old source.new) }
    ensures streamed { IfOk result (IsStreamed S.position_of S.takes I.gives opened.items programs.now options.entry.bound source.old source.new) }
    ensures end { IfOk result (λ r. EndsSource I.is_over I.fails source.new r.end) }
    ensures no_strays { IfOk result (λ r. r.strays ≡ 0) }
    ensures nothing_left { IfOk result (λ r. All LeavesNothing r.rings.items) }
    ensures settled { IfOk result (λ r. EachSettled (workers_of opened.items) (seat_rows opened.items) → All EndsSettled r.rings.items) }
{
    run_stream_as(
        rt,
        alloc,
        opened,
        programs,
        source,
        late,
        options,
        &WhenFull::Refuse,
    )
}
