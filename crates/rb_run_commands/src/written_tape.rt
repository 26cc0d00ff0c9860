//! The tape of a run that has ended.

ghost use Rattle.std.specs.Prelude.{◌≡◌, ◌&&◌, Bool, [], true, vec_len, All};
ghost use Rattle.std.specs.Io.KnownBytes.{Keeps};
ghost use Rattle.rb_verifier.specs.Subject.{Subject};
ghost use Rattle.rb_run_commands.specs.RunCommand.{RunsWorkers};
ghost use Rattle.rb_run_commands.specs.TapedRun.{TapesRing, first_tape, tape_position, tape_takes};
ghost use Rattle.rb_run_commands.specs.declared.jobs_request.JobsRequest.{JobsRequest};

use crate::tape_sink::TapeSink;
use rb_io::Outgoing;
use rb_workers::JobsReport;

/// A tape that was written.
#[derive(Drop)]
pub struct WrittenTape<F> {
    /// The writer that it was written to.
    pub writer: F,
    /// Whether all of it was written and flushed.
    pub is_whole: bool,
}

/// Flushes the tape that the sink of a run over one ring wrote, and returns it.
///
/// The sink flushed the writer whenever the consumer had caught up, until that failed once.
pub fn finish_tape<F: Outgoing + Drop, G>(report: JobsReport<TapeSink<'_, F, G>>) -> WrittenTape<F>
    requires one_ring { vec_len report.rings ≡ 1 }
    ensures taped { (writer : F) (subject : Subject) (request : JobsRequest) → RunsWorkers tape_position (tape_takes F.contents F.writes_out) (first_tape writer request) subject request report.entry → All (TapesRing F.contents F.writes_out request.size result.is_whole writer result.writer) report.entry.rings.items }
    ensures handed_on { result.is_whole ≡ true → F.waiting result.writer ≡ [] }
{
    let JobsReport {
        mut rings,
        answers: _,
        strays: _,
        unlogged: _,
    } = report;
    let Some(ended) = rings.pop() else {
        unreachable!()
    };
    let is_out = !ended.sink.failed();
    let mut writer = ended.sink.into_writer();
    let is_whole = write_out_all(&mut writer, is_out);
    WrittenTape { writer, is_whole }
}

// Makes the writer flush. Returns whether the tape is whole, given whether all of it was written to the writer.
fn write_out_all<F: Outgoing>(writer: &mut F, is_out: bool) -> bool
    ensures bytes { Keeps (F.contents writer.old) (F.contents writer.new) }
    ensures nothing_waits { result ≡ true → F.waiting writer.new ≡ [] }
    ensures called { (handed_out : Bool) × F.writes_out writer.old handed_out writer.new × (result ≡ (handed_out && is_out)) }
{
    writer.write_out().is_ok() && is_out
}
