//! The advice for each fault and each rule: what is required, and how to fix the program.

ghost use Rattle.rb_explain.specs.Explanations.{IsPlainText};

use rb_program::{DecodeKind, ShapeFaultKind};
use rb_verifier::Rule;

/// Returns the advice for a decode fault: what is wrong and how to fix the program, as a line without a line feed.
pub(crate) fn decode_advice(kind: DecodeKind) -> &'static str
    ensures plain { IsPlainText result.now }
{
    match kind {
        DecodeKind::Length => {
            "A program is one or more units of eight bytes. Pass the bytes of whole instructions; a wide instruction has two units."
        }
        DecodeKind::TooLong => {
            "A program has at most 4,096 units. Unroll loops less, or split the work over several programs."
        }
        DecodeKind::LeftOut => {
            "This host does not support the instruction: packet access, atomic operations, calls by register, calls of functions of the program, and wide loads other than of a number or of a ring by its index. Inline each function, and use plain loads and stores."
        }
        DecodeKind::BadOpcode => {
            "No instruction has this opcode. Compile for the profile of this host: RFC 9669 without its legacy and atomic instructions."
        }
        DecodeKind::BadRegister => {
            "A register number is above 10. The registers are r0 to r10; the low half of the second byte is the destination, the high half the source."
        }
        DecodeKind::UnusedField => {
            "A field that the instruction does not use is not zero, or a field has a value that the instruction does not allow. Set an unused field to zero."
        }
        DecodeKind::HalfWide => {
            "The second unit of a wide instruction (opcode 18) is missing. Pass all sixteen bytes of the instruction."
        }
        DecodeKind::Memory => "Memory for the program could not be allocated.",
    }
}

/// Returns the advice for a shape fault: what is wrong and how to fix the program, as a line without a line feed.
pub(crate) fn shape_advice(kind: ShapeFaultKind) -> &'static str
    ensures plain { IsPlainText result.now }
{
    match kind {
        ShapeFaultKind::Backward => {
            "The jump leads backward. If it closes a loop, unroll the loop: programs here have no loops, and clang unrolls one at -O2 if its count is a small constant. If it closes no loop, only the order of the instructions is wrong: tools/bpf-hex reorders such a program so that each jump leads forward."
        }
        ShapeFaultKind::OutOfProgram => {
            "The jump leads out of the program. Its distance counts units from the one after the jump, and a wide instruction has two units."
        }
        ShapeFaultKind::IntoWide => {
            "The jump leads to the second unit of a wide instruction. Jump to the first unit, or to the next instruction."
        }
        ShapeFaultKind::FallsOff => {
            "Execution would continue past the last instruction. End each path with exit."
        }
        ShapeFaultKind::Unreachable => {
            "No path leads to this instruction. Remove it, or jump to it."
        }
        ShapeFaultKind::Memory => "Memory for the check could not be allocated.",
    }
}

/// Returns the advice for a rule of verification: what it requires and how to fix the program, as a line without a line
/// feed.
pub(crate) fn rule_advice(rule: Rule) -> &'static str
    ensures plain { IsPlainText result.now }
{
    match rule {
        Rule::Unreadable => {
            "An instruction may only read registers that hold a value on every path to it. Set the register first. After a call, r1 to r5 hold nothing, and after a submit or a discard neither does r0: keep what you need in r6 to r9, or on the stack. Load a pointer from the stack by a single load of eight bytes."
        }
        Rule::FramePointerWritten => {
            "The frame pointer r10 must not be written. Copy it to another register and change the copy."
        }
        Rule::PointerArithmetic => {
            "A pointer to the context, the stack or a record may only be moved by a known number, by a 64-bit addition or subtraction, and at most 2^30 bytes from its start. Use constant offsets, and do other arithmetic only on numbers."
        }
        Rule::OutsidePart => {
            "An access must lie entirely inside the context, the stack (512 bytes below r10) or the record. Check the offset and the size, reserve a longer record, or give the program a longer context (--ctx)."
        }
        Rule::ContextWritten => { "The context is read-only. Write to the stack or to a record." }
        Rule::PointerStored => {
            "A pointer may only be stored to the stack: all eight bytes of it, at an offset from r10 that is a multiple of 8. Store it there, or keep it in r6 to r9."
        }
        Rule::HelperArgument => {
            "Each argument of a helper must be of its kind: a ring below the number of rings (--rings), a number, memory to output, or a pointer to the first byte of the record to submit or discard. Set r1 to r4 accordingly before the call."
        }
        Rule::SizeNotKnown => {
            "The size of a record or an output must be a constant that the verifier knows, and at most 67108864 for a record. Load it as a constant on every path, or branch to a separate call for each size."
        }
        Rule::TooManyReferences => {
            "A program may hold at most four records at once. Submit or discard one before you reserve the next."
        }
        Rule::ReferenceLeft => {
            "Each reserved record must be submitted or discarded before the program ends. Submit or discard it on every path to the exit."
        }
        Rule::ReferencesDiffer => {
            "Paths that meet must hold the same records, and each record must be tested for null on all of them or on none. Submit or discard on each path before they meet, and test for null before they part."
        }
        Rule::ResultNotNumber => {
            "The program must end with a number in r0. Set r0 to a number before exit."
        }
        Rule::PointerCompared => {
            "Pointers must not be compared, except a reservation with null (64-bit == 0 or != 0). Compare the numbers that you load."
        }
        Rule::NullNotTested => {
            "A reservation may be null and must be tested before its use. Branch if it is 0 (if r0 == 0 goto ..) before the access or the call."
        }
        Rule::UnknownHelper => {
            "This host has the helpers 130 to 134: bpf_ringbuf_output, reserve, submit, discard and query. Call one of these."
        }
    }
}
