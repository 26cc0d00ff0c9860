//! The memory regions that a program reaches.

ghost use Rattle.std.specs.Prelude.{◌≡◌, ◌≤◌, ℕ, List, IsSome, take, length, if◌then◌else◌};
ghost use Rattle.rb_lend.specs.Ranges.{written_at};
ghost use Rattle.rb_interp.specs.PartsMemory.{part_with};

use crate::expected::{same, same_bytes, same_of, sheet};
use rb_interp::{Context, Part, Parts, Slot};
use rb_lend::{Lent, Sheet};
use std::alloc::Global;
use std::process::Abort;

/// Clears a range if it may be written. The result tells a caller what happened to the parts.
fn clear_if<C: Context, R: Lent>(
    parts: &mut Parts<C, R>,
    part: Part,
    off: usize,
    len: usize,
) -> bool
    ensures { (w : List ℕ) × (parts.new ≡ (if result then part_with R.with_bytes R.bytes_of parts.old part off w else parts.old)) }
{
    match parts.write(part, off, len) {
        Ok(range) => {
            let bytes = range.into_bytes();
            bytes.fill(0);
            true
        }
        Err(_) => false,
    }
}

/// Returns parts with a record of `n` bytes in the first slot.
fn with_record<'a>(
    rt: &impl Abort,
    alloc: Global,
    context: &'a [u8],
    n: u32,
) -> Parts<&'a [u8], Sheet> {
    let mut parts: Parts<&[u8], Sheet> = Parts::new(context);
    hold(rt, alloc, &mut parts, n, Slot::First);
    parts
}

/// Holds a record of `n` bytes, for which this slot must be the first free one.
fn hold(rt: &impl Abort, alloc: Global, parts: &mut Parts<&[u8], Sheet>, n: u32, free: Slot) {
    match parts.hold(sheet(rt, alloc, n)) {
        Ok(slot) => same(rt, &slot, &free),
        Err(_) => rt.panic("no slot"),
    }
}

// Ends the test, because a range that begins here is out of bounds.
fn outside_at(rt: &impl Abort, off: usize) {
    panic!(rt; "outside at {off}");
}

/// Ends the test if a range of a part is out of bounds, or has other bytes.
fn reads(rt: &impl Abort, parts: &Parts<&[u8], Sheet>, part: Part, off: usize, bytes: &[u8]) {
    match parts.read(part, off, bytes.len()) {
        Ok(found) => same_bytes(rt, found, bytes),
        Err(_) => outside_at(rt, off),
    }
}

/// Ends the test if a range of a part is out of bounds; otherwise fills it.
fn fill<C: Context, R: Lent>(
    rt: &impl Abort,
    parts: &mut Parts<C, R>,
    part: Part,
    off: usize,
    len: usize,
    byte: u8,
) {
    match parts.write(part, off, len) {
        Ok(range) => range.into_bytes().fill(byte),
        Err(_) => outside_at(rt, off),
    }
}

#[test]
fn new_parts_are_zero_bytes_a_context_and_empty_slots(rt: HostRuntime) {
    let context = [5, 6, 7];
    let mut parts: Parts<&[u8], Sheet> = Parts::new(context.as_slice());
    same(&rt, &parts.stack.bytes().len(), &512);
    reads(&rt, &parts, Part::Stack, 0, &[0, 0, 0, 0]);
    reads(&rt, &parts, Part::Stack, 508, &[0, 0, 0, 0]);
    reads(&rt, &parts, Part::Ctx, 0, &[5, 6, 7]);
    let given = [
        given_len(&mut parts, Slot::First),
        given_len(&mut parts, Slot::Fourth),
    ];
    same(&rt, &given, &[None, None]);
    drop(parts);
}

#[test]
fn a_range_is_what_read_lends(rt: HostRuntime) {
    let context = [5, 6, 7];
    let parts: Parts<&[u8], Sheet> = Parts::new(context.as_slice());
    reads(&rt, &parts, Part::Ctx, 1, &[6, 7]);
    same_bytes(&rt, parts.range(Part::Ctx, 1, 2), &[6, 7]);
    drop(parts);
}

const FIRST: Part = Part::Record(Slot::First);

const SECOND: Part = Part::Record(Slot::Second);

#[test]
fn reads_are_outside_at_each_edge(rt: HostRuntime) {
    let context = [5, 6, 7];
    let parts = with_record(&rt, rt.alloc(), context.as_slice(), 4);
    for (part, off, len, outside) in [
        (Part::Stack, 0, 512, false),
        (Part::Stack, 0, 513, true),
        (Part::Stack, 511, 2, true),
        (Part::Stack, 512, 0, false),
        (Part::Stack, 513, 0, true),
        (Part::Stack, 18446744073709551615, 1, true),
        (Part::Ctx, 2, 1, false),
        (Part::Ctx, 2, 2, true),
        (Part::Ctx, 3, 0, false),
        (Part::Ctx, 4, 0, true),
        (FIRST, 1, 3, false),
        (FIRST, 1, 4, true),
        (FIRST, 4, 0, false),
        (FIRST, 5, 0, true),
        (SECOND, 0, 0, true),
    ] {
        let is_outside = parts.read(part, off, len).is_err();
        same_of(&rt, &is_outside, &outside, &(part, off, len));
    }
    drop(parts);
}

#[test]
fn writes_are_outside_at_each_edge(rt: HostRuntime) {
    let context = [5, 6, 7];
    let mut parts = with_record(&rt, rt.alloc(), context.as_slice(), 4);
    for (part, off, len, cleared) in [
        (Part::Stack, 0, 512, true),
        (Part::Stack, 0, 513, false),
        (Part::Stack, 512, 0, true),
        (Part::Stack, 513, 0, false),
        (Part::Ctx, 0, 1, false),
        (Part::Ctx, 0, 0, false),
        (FIRST, 0, 4, true),
        (FIRST, 4, 0, true),
        (FIRST, 3, 2, false),
        (FIRST, 5, 0, false),
        (SECOND, 0, 0, false),
    ] {
        let is_cleared = clear_if(&mut parts, part, off, len);
        same_of(&rt, &is_cleared, &cleared, &(part, off, len));
    }
    drop(parts);
}

#[test]
fn a_write_changes_its_range_alone(rt: HostRuntime) {
    let context = [5, 6, 7];
    let mut parts = with_record(&rt, rt.alloc(), context.as_slice(), 5);
    fill(&rt, &mut parts, Part::Stack, 1, 2, 9);
    fill(&rt, &mut parts, FIRST, 2, 2, 8);
    if parts.can_write(Part::Stack, 510, 2) {
        parts.range_mut(Part::Stack, 510, 2).fill(7);
    }
    reads(&rt, &parts, Part::Stack, 0, &[0, 9, 9, 0]);
    reads(&rt, &parts, Part::Stack, 509, &[0, 7, 7]);
    reads(&rt, &parts, FIRST, 0, &[0, 0, 8, 8, 0]);
    reads(&rt, &parts, Part::Ctx, 0, &[5, 6, 7]);
    drop(parts);
}

/// Returns the length of the record that the parts hand back in place of a fifth one.
fn handed_back(rt: &impl Abort, alloc: Global, parts: &mut Parts<&[u8], Sheet>, n: u32) -> u32 {
    match parts.hold(sheet(rt, alloc, n)) {
        Ok(_) => rt.panic("a fifth was held"),
        Err(back) => back.len(),
    }
}

// Returns the length of the record that a slot releases, if it has one.
fn given_len(parts: &mut Parts<&[u8], Sheet>, slot: Slot) -> Option<u32> {
    match parts.give(slot) {
        Some(given) => Some(given.len()),
        None => None,
    }
}

#[test]
fn a_fifth_record_is_handed_back(rt: HostRuntime) {
    let mut parts: Parts<&[u8], Sheet> = Parts::new([].as_slice());
    hold(&rt, rt.alloc(), &mut parts, 1, Slot::First);
    hold(&rt, rt.alloc(), &mut parts, 2, Slot::Second);
    hold(&rt, rt.alloc(), &mut parts, 3, Slot::Third);
    hold(&rt, rt.alloc(), &mut parts, 4, Slot::Fourth);
    let back = handed_back(&rt, rt.alloc(), &mut parts, 5);
    let given = [
        given_len(&mut parts, Slot::Second),
        given_len(&mut parts, Slot::Second),
    ];
    same(&rt, &(back, given), &(5, [Some(2), None]));
    hold(&rt, rt.alloc(), &mut parts, 6, Slot::Second);
    reads(&rt, &parts, SECOND, 0, &[0; 6]);
    drop(parts);
}

/// Copies the context to the stack and fills two records, while all of them are lent.
fn copy_context<C: Context, R: Lent>(parts: &mut Parts<C, R>, len: usize)
    requires first { IsSome parts.old.records.first }
    requires second { IsSome parts.old.records.second }
    requires on_stack { len ≤ 512 }
    requires in_context { len ≤ length (C.shown parts.old.context) }
    ensures stack { parts.new.stack ≡ written_at 0 parts.old.stack (take len (C.shown parts.old.context)) }
    ensures context { parts.new.context ≡ parts.old.context }
    ensures third { parts.new.records.third ≡ parts.old.records.third }
{
    let stack = parts.stack.range_mut(0, len);
    let context = parts.context.bytes();
    let first = &mut parts.records.first;
    let second = &mut parts.records.second;
    stack.copy_from_slice(&context[..len]);
    if let Some(owned) = first {
        owned.bytes_mut().fill(1);
    }
    if let Some(owned) = second {
        owned.bytes_mut().fill(2);
    }
}

#[test]
fn all_parts_are_lent_at_once(rt: HostRuntime) {
    let context = [5, 6, 7];
    let mut parts: Parts<&[u8], Sheet> = Parts::new(context.as_slice());
    let _ = parts.hold(sheet(&rt, rt.alloc(), 3));
    let _ = parts.hold(sheet(&rt, rt.alloc(), 2));
    copy_context(&mut parts, 3);
    reads(&rt, &parts, Part::Stack, 0, &[5, 6, 7, 0]);
    reads(&rt, &parts, FIRST, 0, &[1, 1, 1]);
    drop(parts);
}

#[test]
fn the_whole_stack_and_a_whole_record_are_lent(rt: HostRuntime) {
    let mut parts: Parts<&[u8], Sheet> = Parts::new([].as_slice());
    parts.stack.range_mut(0, 512).fill(3);
    hold(&rt, rt.alloc(), &mut parts, 2, Slot::First);
    if let Some(record) = &mut parts.records.first {
        record.bytes_mut().fill(4);
    }
    reads(&rt, &parts, Part::Stack, 510, &[3, 3]);
    same(&rt, &parts.records.first.is_some(), &true);
    reads(&rt, &parts, FIRST, 0, &[4, 4]);
    drop(parts);
}
