//! Programs that call helpers, one instruction at a time.

ghost use Rattle.std.specs.Prelude.{◌≡◌, IfSome, false, replicate};
ghost use Rattle.rb_semantics.specs.declared.pending_call.PendingCall.TheVariants.{Reserve, GiveBack};
ghost use Rattle.rb_interp.specs.declared.step.Phase.TheVariants.{Ready, Waiting};

use super::expected::same;
use super::shared::{SUBMIT_42, verified};
use rb_interp::{Answer, Machine, Request, Step};
use rb_lend::{Lent, Sheet};
use rb_verifier::Verified;
use std::alloc::Global;
use std::process::Abort;

const CONTEXT: [u8; 16] = [0; 16];

// A variant of SUBMIT_42 that stores the answer on the stack and loads it again.
const KEEP_AND_SUBMIT_42: &str =
    "1851000000000000 0000000000000000 b702000008000000 b703000000000000
    8500000083000000 7b0af8ff00000000 79a6f8ff00000000 1506040000000000 7a0600002a000000 bf61000000000000
    b702000000000000 8500000084000000 b700000000000000 9500000000000000";

type RunningMachine<'p> = Machine<'p, &'static [u8], Sheet>;

// Answers a reserve: with a record, or with null.
fn answer_reserve(machine: &mut RunningMachine<'_>, len: u32, granted: Option<Sheet>)
    requires waits { machine.old.phase ≡ Waiting (Reserve len) }
    requires zeros { IfSome granted (λ r. r ≡ replicate len 0) }
    ensures ready { machine.new.phase ≡ Ready }
{
    match granted {
        Some(sheet) => machine.answer(Answer::Granted(sheet)),
        None => machine.answer(Answer::Null),
    }
}

// Takes the record that was submitted.
fn answer_submit(machine: &mut RunningMachine<'_>)
    requires waits { machine.old.phase ≡ Waiting GiveBack }
    ensures ready { machine.new.phase ≡ Ready }
{
    machine.answer(Answer::Taken);
}

// Returns the record with which a reserve is answered, if it is granted.
fn record_of(rt: &impl Abort, alloc: Global, len: u32, grants: bool) -> Option<Sheet>
    ensures zeros { IfSome result (λ r. r ≡ replicate len 0) }
{
    if grants {
        Some(Sheet::new(alloc, len).expect(rt, "memory"))
    } else {
        None
    }
}

// Executes one instruction, and records the bytes that it submits. Returns whether it ended the program.
fn has_ended(
    rt: &impl Abort,
    alloc: Global,
    machine: &mut RunningMachine<'_>,
    grants: bool,
    submitted: &mut Vec<u8>,
) -> bool
    requires ready { machine.old.phase ≡ Ready }
    ensures goes_on { result ≡ false → machine.new.phase ≡ Ready }
{
    match machine.step() {
        Step::Went => {}
        Step::Exit(_) => return true,
        Step::Call(Request::Reserve { len, .. }) => {
            answer_reserve(machine, len, record_of(rt, alloc, len, grants));
        }
        Step::Call(Request::Submit { owned, .. }) => {
            let copied = submitted.extend_from_slice(owned.bytes());
            copied.expect(rt, "memory");
            answer_submit(machine);
        }
        Step::Call(_) => rt.panic("another call"),
    }
    false
}

// Ends the test unless the program executes this many instructions to its end and submits these bytes, with reserves
// granted or refused.
fn executes(
    rt: &impl Abort,
    alloc: Global,
    program: &Verified,
    grants: bool,
    wanted: (u32, &[u8]),
) {
    let mut submitted = Vec::new(alloc);
    let mut machine = Machine::new(program, CONTEXT.as_slice()).expect(rt, "a machine");
    for count in 1..=16 {
        if has_ended(rt, alloc, &mut machine, grants, &mut submitted) {
            same(rt, &(count, submitted.as_slice()), &wanted);
            return;
        }
    }
    rt.panic("no end")
}

const FORTY_TWO: [u8; 8] = [42, 0, 0, 0, 0, 0, 0, 0];

#[test]
fn submit_42_executes_each_instruction_once(rt: HostRuntime) {
    let program = verified(&rt, rt.alloc(), SUBMIT_42, 16, 1);
    executes(&rt, rt.alloc(), &program, true, (11, &FORTY_TWO));
    executes(&rt, rt.alloc(), &program, false, (7, &[]));
    drop(program);
}

#[test]
fn a_kept_answer_executes_each_instruction_once(rt: HostRuntime) {
    let program = verified(&rt, rt.alloc(), KEEP_AND_SUBMIT_42, 16, 1);
    executes(&rt, rt.alloc(), &program, true, (13, &FORTY_TWO));
    executes(&rt, rt.alloc(), &program, false, (9, &[]));
    drop(program);
}
