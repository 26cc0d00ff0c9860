//! Laws: what an output wrote for all items of a run.

ghost use Rattle.std.specs.Prelude.{◌≡◌, List};
ghost use Rattle.rb_run_commands.specs.TapedRun.{sink_tape_items};
ghost use Rattle.rb_segments.specs.SegmentTape.{SegmentTape};
ghost use Rattle.rb_workers.specs.Sink.{SinkItem, TakesAll};
ghost use Rattle.rb_outputs.specs.Lines.{SinkLines, WritesLines};
ghost use Rattle.rb_outputs.specs.Outputs.{ContinuesWith, output_takes};
ghost use Rattle.rb_outputs.specs.declared.outputs.RingOutput.{RingOutput};
ghost use Rattle.rb_outputs.specs.declared.outputs.RingOutput.TheVariants.{File, Segments, Stream};
ghost use Rattle.rb_outputs.specs.declared.stream_output.StreamOutput.TheVariants.{Lines};

use rb_io::Outgoing;
use rb_segments::SegmentStore;

/// The law of outputs in segments: after an output received these items, one by one and in this order, it is still an
/// output in segments, and the segments contain the items' records after those that they had before. So they contain the
/// records that the ring's history took, in order, unless a fault ended the tape. The function does nothing; its contract
/// is the law.
pub fn segments_hold_what_was_taken<A: Outgoing, B: Outgoing, S: SegmentStore<F>, F: Outgoing>()
    ensures law { (old : SegmentTape S F) (items : List SinkItem) (new : RingOutput A B S F) → TakesAll (output_takes A.contents A.writes_out B.contents B.writes_out S.segments F.contents) (Segments old) items new → (tape : SegmentTape S F) × (new ≡ Segments tape) × ContinuesWith S.segments F.contents old (sink_tape_items items) tape }
{}

/// The law of outputs of lines, on a stream and in a file: after an output received these items, one by one and in this
/// order, it is still an output of lines, and a prefix of the lines of the items' records was written: all of them unless
/// a write or an allocation failed. So its bytes are the lines that `tape --json` prints for the records that the ring's
/// history took, in order. The function does nothing; its contract is the law.
pub fn lines_hold_what_was_taken<A: Outgoing, B: Outgoing, S: SegmentStore<F>, F: Outgoing>()
    ensures stream { (old : SinkLines A) (items : List SinkItem) (new : RingOutput A B S F) → TakesAll (output_takes A.contents A.writes_out B.contents B.writes_out S.segments F.contents) (Stream (Lines old)) items new → (lines : SinkLines A) × (new ≡ Stream (Lines lines)) × WritesLines A.contents old (sink_tape_items items) lines }
    ensures file { (old : SinkLines B) (items : List SinkItem) (new : RingOutput A B S F) → TakesAll (output_takes A.contents A.writes_out B.contents B.writes_out S.segments F.contents) (File (Lines old)) items new → (lines : SinkLines B) × (new ≡ File (Lines lines)) × WritesLines B.contents old (sink_tape_items items) lines }
{}
