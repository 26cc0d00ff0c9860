//! The shared types, and one call of each theorem.

use super::expected::same;
use rb_insn::spelling_laws;
use rb_program::decoding_laws;
use rb_semantics::{
    MemoryRegion, PendingCall, Value, bytes_written_are_read, plain_annotations_are_valid,
    plain_programs_run_alike, pointers_are_not_read, pointers_stored_are_found,
    pointers_stored_leave_zeros, programs_can_start, runs_call_once, runs_end_well,
    steps_are_sound, verified_programs_end_well, writes_take_pointers_out,
};
use rb_verifier::{step_keeps_form, step_keeps_order};

#[test]
fn pointers_differ_by_part_and_offset(rt: HostRuntime) {
    let start = Value::Pointer(MemoryRegion::Record(4), 0);
    let told = [
        start == Value::Pointer(MemoryRegion::Record(4), 0),
        start != Value::Pointer(MemoryRegion::Record(5), 0),
        start != Value::Pointer(MemoryRegion::Record(4), 8),
        start != Value::Pointer(MemoryRegion::Context, 0),
        start != Value::Ring(4),
        start != Value::Number(0),
        Value::Nothing != Value::Number(0),
    ];
    same(&rt, &told, &[true; 7]);
}

#[test]
fn calls_wait_for_different_answers(rt: HostRuntime) {
    let told = [
        PendingCall::Reserve(8) == PendingCall::Reserve(8),
        PendingCall::Reserve(8) != PendingCall::Reserve(16),
        PendingCall::Output != PendingCall::Query,
        PendingCall::GiveBack != PendingCall::Output,
    ];
    same(&rt, &told, &[true; 4]);
}

#[test]
fn laws_can_be_called() {
    spelling_laws();
    decoding_laws();
    step_keeps_order();
    step_keeps_form();
    steps_are_sound();
    programs_can_start();
    runs_end_well();
    verified_programs_end_well();
    runs_call_once();
    plain_annotations_are_valid();
    plain_programs_run_alike();
    bytes_written_are_read();
    writes_take_pointers_out();
    pointers_stored_are_found();
    pointers_stored_leave_zeros();
    pointers_are_not_read();
}
