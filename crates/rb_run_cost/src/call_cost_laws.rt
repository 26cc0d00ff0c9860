//! The law that bounds the calls of a run.

ghost use Rattle.rb_run_cost.specs.CallCosts.{CallsStayWithin};

use rb_interp::Helpers;

/// The law that the calls of every run of a verified program, granted or refused, stay within its cost: the number of
/// calls, and for each ring, the records and bytes that they request.
///
/// The run may end with a result, at a record that was handed back, or before its first instruction because its context
/// has the wrong length.
pub fn calls_stay_within_their_cost<H: Helpers>()
    ensures { CallsStayWithin H.Record.bytes_of H.Record.with_bytes }
{}
