//! The exports that open and close engines, and load and run their programs.

ghost use Rattle.std.specs.Prelude.{◌≡◌, ◌≢◌, ◌≤◌, ◌↔◌, ◌⊎◌, IfErr, IfOk, IsErrOf, IsTrue, None, Some, length};
ghost use Rattle.heskavo_c.specs.EngineHandles.{CallsEngine, OfEngine};
ghost use Rattle.heskavo_c.specs.Engines.{LoadsProgram, MayLoad, MayOpen, MayRun, RunsLoaded, opened_engine};
ghost use Rattle.heskavo_c.specs.Verdicts.{IsRightVerdict};

use crate::engine_handle::{EngineHandle, put_back, take_out};
use crate::load::{are_bounds, load};
use crate::status::{ARGUMENT, DONE, MEMORY, REFUSED};
use crate::verdict::{Verdict, verdict_on};
use rb_chapter_ring::OpenFault;
use rb_engine::Engine;
use std::alloc::Global;

// Returns an engine with rings of these sizes. The error is `ARGUMENT` if the sizes or the length are out of bounds,
// and `MEMORY` otherwise.
fn opened(alloc: Global, sizes: &[u64], ctx_len: u32) -> Result<Box<Engine>, u32>
    ensures opened { IfOk result (λ engine. engine.value ≡ opened_engine sizes.now ctx_len) }
    ensures argument { IsErrOf result ARGUMENT ↔ ¬ MayOpen sizes.now ctx_len }
    ensures fault { IfErr result (λ status. (status ≡ ARGUMENT) ⊎ (status ≡ MEMORY)) }
{
    if sizes.len() > 16 || !are_bounds(ctx_len, sizes.len() as u32) {
        return Err(ARGUMENT);
    }
    match Engine::open(alloc, sizes, ctx_len) {
        Ok(engine) => match Box::new(alloc, engine) {
            Ok(boxed) => Ok(boxed),
            Err(_) => Err(MEMORY),
        },
        Err(OpenFault::Size) => Err(ARGUMENT),
        Err(_) => Err(MEMORY),
    }
}

#[unsafe(no_mangle)]
/// Opens an engine with a ring of each of these sizes in bytes, for programs with contexts of `ctx_len` bytes, and puts
/// it into the handle.
///
/// Returns `DONE`. Returns `ARGUMENT` if the handle is not closed, a size is not that of a ring, there are more than 16
/// rings, or `ctx_len` is above 65,536.
///
/// Allocates the memory of the rings, which is freed when the engine is closed. Takes time linear in that memory.
pub extern "C" fn heskavo_engine_open(
    alloc: Global,
    sizes: &[u64],
    ctx_len: u32,
    engine: &mut EngineHandle,
) -> u32
    ensures opened { result ≡ DONE → engine.new.value ≡ Some (opened_engine sizes.now ctx_len) }
    ensures argument { (result ≡ ARGUMENT) ↔ ¬ (MayOpen sizes.now ctx_len × (engine.old.value ≡ None)) }
    ensures unchanged { result ≢ DONE → engine.new.value ≡ engine.old.value }
    ensures answers { (result ≡ DONE) ⊎ ((result ≡ ARGUMENT) ⊎ (result ≡ MEMORY)) }
{
    match take_out(engine, alloc) {
        Some(open) => {
            put_back(engine, alloc, open);
            ARGUMENT
        }
        None => match opened(alloc, sizes, ctx_len) {
            Ok(fresh) => {
                put_back(engine, alloc, fresh);
                DONE
            }
            Err(status) => status,
        },
    }
}

#[unsafe(no_mangle)]
/// Closes an engine and frees its memory. The handle may already be closed.
pub extern "C" fn heskavo_engine_close(alloc: Global, engine: &mut EngineHandle)
    ensures closed { engine.new.value ≡ None }
{
    let _closed = take_out(engine, alloc);
}

// Returns whether a program may be added to the engine.
fn may_load(engine: &Engine) -> bool
    ensures { IsTrue result ↔ MayLoad engine.now }
{
    engine.rings() <= 16
        && are_bounds(engine.ctx_len(), engine.rings() as u32)
        && engine.programs() < u32::MAX as usize
}

// Verifies a program and adds it to the engine.
fn load_into(
    alloc: Global,
    engine: &mut Engine,
    program: &[u8],
    number: &mut u32,
    verdict: &mut Verdict,
) -> u32
    ensures loaded { result ≡ DONE → LoadsProgram program.now number.new engine.old engine.new }
    ensures refused { result ≡ REFUSED → IsRightVerdict program.now engine.old.ctx_len (length engine.old.rings) verdict.new }
    ensures argument { (result ≡ ARGUMENT) ↔ ¬ MayLoad engine.old }
    ensures unchanged { result ≢ DONE → (engine.new ≡ engine.old) × (number.new ≡ number.old) }
    ensures unwritten { result ≢ REFUSED → verdict.new ≡ verdict.old }
    ensures answers { result ≤ MEMORY }
{
    if !may_load(engine) {
        return ARGUMENT;
    }
    let (ctx_len, rings) = (engine.ctx_len(), engine.rings() as u32);
    let verified = match load(alloc, program, ctx_len, rings) {
        Ok(verified) => verified,
        Err(Some(refused)) => {
            *verdict = verdict_on(refused);
            return REFUSED;
        }
        Err(None) => return MEMORY,
    };
    match engine.add(verified) {
        Ok(added) => {
            *number = added;
            DONE
        }
        Err(_) => MEMORY,
    }
}

#[unsafe(no_mangle)]
/// Verifies a program for the engine's contexts and rings, and adds it to the engine.
///
/// Returns `DONE` with its number, by which it is run. Returns `REFUSED` with the verdict. Returns `ARGUMENT` if the
/// handle is closed, or if the engine has 2^32 - 1 programs.
pub extern "C" fn heskavo_engine_load(
    alloc: Global,
    engine: &mut EngineHandle,
    program: &[u8],
    number: &mut u32,
    verdict: &mut Verdict,
) -> u32
    ensures loaded { result ≡ DONE → CallsEngine (LoadsProgram program.now number.new) engine.old.value engine.new.value }
    ensures refused { result ≡ REFUSED → OfEngine (λ e. IsRightVerdict program.now e.ctx_len (length e.rings) verdict.new) engine.old.value }
    ensures argument { (result ≡ ARGUMENT) ↔ ¬ OfEngine MayLoad engine.old.value }
    ensures unchanged { result ≢ DONE → (engine.new.value ≡ engine.old.value) × (number.new ≡ number.old) }
    ensures unwritten { result ≢ REFUSED → verdict.new ≡ verdict.old }
    ensures answers { result ≤ MEMORY }
{
    let Some(mut held) = take_out(engine, alloc) else {
        return ARGUMENT;
    };
    let status = load_into(alloc, &mut held, program, number, verdict);
    put_back(engine, alloc, held);
    status
}

// Runs a program over the engine's rings.
fn run_in(engine: &mut Engine, number: u32, context: &[u8], value: &mut u64) -> u32
    ensures ran { result ≡ DONE → RunsLoaded number context.now value.new engine.old engine.new }
    ensures argument { (result ≡ ARGUMENT) ↔ ¬ MayRun number (length context.now) engine.old }
    ensures unchanged { result ≢ DONE → (engine.new ≡ engine.old) × (value.new ≡ value.old) }
    ensures answers { (result ≡ DONE) ⊎ ((result ≡ ARGUMENT) ⊎ (result ≡ MEMORY)) }
{
    if number as usize >= engine.programs() || context.len() != engine.ctx_len() as usize {
        return ARGUMENT;
    }
    match engine.run(number, context) {
        Ok(ended) => {
            *value = ended;
            DONE
        }
        Err(_) => MEMORY,
    }
}

#[unsafe(no_mangle)]
/// Runs the program with this number to its end, over the rings as the previous calls left them.
///
/// Returns `DONE` with the program's result in `value`. Returns `ARGUMENT` if the handle is closed, no program has this
/// number, or the context does not have the length of the engine's contexts. Returns `MEMORY` if nothing ran because
/// memory for the run could not be allocated.
///
/// If memory for a record of more than 16 bytes that the program requests can't be allocated, the program continues as
/// if the ring had no room. This does not return `MEMORY`.
pub extern "C" fn heskavo_engine_run(
    alloc: Global,
    engine: &mut EngineHandle,
    number: u32,
    context: &[u8],
    value: &mut u64,
) -> u32
    ensures ran { result ≡ DONE → CallsEngine (RunsLoaded number context.now value.new) engine.old.value engine.new.value }
    ensures argument { (result ≡ ARGUMENT) ↔ ¬ OfEngine (MayRun number (length context.now)) engine.old.value }
    ensures unchanged { result ≢ DONE → (engine.new.value ≡ engine.old.value) × (value.new ≡ value.old) }
    ensures answers { (result ≡ DONE) ⊎ ((result ≡ ARGUMENT) ⊎ (result ≡ MEMORY)) }
{
    let Some(mut held) = take_out(engine, alloc) else {
        return ARGUMENT;
    };
    let status = run_in(&mut held, number, context, value);
    put_back(engine, alloc, held);
    status
}
