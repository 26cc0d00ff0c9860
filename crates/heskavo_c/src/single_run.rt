//! The export that runs a program.

ghost use Rattle.std.specs.Prelude.{◌≡◌, ◌≢◌, ◌<◌, ◌≤◌, ◌↔◌, IfOk, IsSome, IsTrue, Some, length};
ghost use Rattle.rb_history.specs.RingModel.{IsRingSize};
ghost use Rattle.rb_world.specs.WorldRuns.{result_of};
ghost use Rattle.rb_world.specs.WorldValue.{world_of};
ghost use Rattle.heskavo_c.specs.Runs.{LeavesOnce, MayRunOnce, RunsInto, WantsTapes};
ghost use Rattle.heskavo_c.specs.Verdicts.{IsRightVerdict};

use crate::load::{are_bounds, load};
use crate::outgoing::put_front;
use crate::run_alone::run_alone;
use crate::run_tapes::tapes_of;
use crate::status::{ARGUMENT, DONE, MEMORY, REFUSED, ROOM};
use crate::verdict::{Verdict, verdict_on};
use rb_history::is_size;
use rb_verifier::Verified;
use rb_world::World;
use std::alloc::{AllocError, Global};

// What a run left: the program's result, and the tapes of its rings with their lengths.
#[derive(Drop)]
struct Left {
    value: u64,
    bytes: Vec<u8>,
    lengths: Vec<u64>,
}

// Returns whether a program may run over a context of `context` bytes and `rings` rings of this size.
fn may_run(context: usize, rings: usize, size: u64) -> bool
    ensures { IsTrue result ↔ MayRunOnce context rings size }
{
    if context > 65_536 || rings > 16 {
        return false;
    }
    is_size(size)
}

// Returns the result of the program of the world's only worker.
fn value_of(world: &World<'_>) -> u64
    requires there { 0 < length world.now.machines }
    requires ended { IsSome (result_of ((world_of world.now).workers 0)) }
    ensures value { result_of ((world_of world.now).workers 0) ≡ Some result }
{
    match world.result(0) {
        Some(value) => value,
        None => unreachable!(),
    }
}

// Runs a program once, and returns what it left.
fn run_once(
    alloc: Global,
    program: &Verified,
    context: &[u8],
    size: u64,
) -> Result<Left, AllocError>
    requires context { length context.now ≡ program.now.ctx_len }
    requires size { IsRingSize size }
    ensures { IfOk result (λ left. LeavesOnce program.now context.now size left.value left.bytes.items left.lengths.items) }
{
    let world = run_alone(alloc, program, context, size)?;
    let value = value_of(&world);
    let (bytes, lengths) = tapes_of(alloc, &world, size, program.rings())?;
    Ok(Left {
        value,
        bytes,
        lengths,
    })
}

#[unsafe(no_mangle)]
/// Verifies a program for `context` and as many rings as `written` has elements, runs it once over fresh rings of
/// `size` bytes, and writes the records that it left in each ring as a tape to `tapes`, the rings' tapes one after the
/// other.
///
/// Returns `DONE` with the program's result in `value` and the length of each tape in `written`. Returns `REFUSED` with
/// the verdict. Returns `ROOM` if the tapes are longer than `tapes`, with their lengths in `written`. Returns
/// `ARGUMENT` if the context is longer than 65,536 bytes, there are more than 16 rings, or no ring has this size.
///
/// If memory for a record of more than 16 bytes that the program requests can't be allocated, the program continues as
/// if the ring had no room. This does not return `MEMORY`.
///
/// Takes time and memory linear in the program and in what it writes.
pub extern "C" fn heskavo_run(
    alloc: Global,
    program: &[u8],
    context: &[u8],
    size: u64,
    tapes: &mut [u8],
    written: &mut [u64],
    value: &mut u64,
    verdict: &mut Verdict,
) -> u32
    ensures ran { result ≡ DONE → RunsInto program.now context.now size value.new tapes.old tapes.new written.new }
    ensures room { result ≡ ROOM → WantsTapes program.now context.now size tapes.old written.new }
    ensures refused { result ≡ REFUSED → IsRightVerdict program.now (length context.now) (length written.old) verdict.new }
    ensures argument { (result ≡ ARGUMENT) ↔ ¬ MayRunOnce (length context.now) (length written.old) size }
    ensures unwritten { result ≢ DONE → (tapes.new ≡ tapes.old) × (value.new ≡ value.old) }
    ensures untold { result ≢ DONE → result ≢ ROOM → written.new ≡ written.old }
    ensures unchanged { result ≢ REFUSED → verdict.new ≡ verdict.old }
    ensures answers { result ≤ ROOM }
{
    if !may_run(context.len(), written.len(), size) {
        return ARGUMENT;
    }
    let ran = match load(alloc, program, context.len() as u32, written.len() as u32) {
        Ok(verified) => run_once(alloc, &verified, context, size),
        Err(Some(refused)) => {
            *verdict = verdict_on(refused);
            return REFUSED;
        }
        Err(None) => return MEMORY,
    };
    let Ok(left) = ran else {
        return MEMORY;
    };
    written.copy_from_slice(left.lengths.as_slice());
    if tapes.len() < left.bytes.len() {
        return ROOM;
    }
    put_front(tapes, left.bytes.as_slice());
    *value = left.value;
    DONE
}
