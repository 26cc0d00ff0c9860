//! The verified programs of a script.

ghost use Rattle.std.specs.Prelude.{map, IfOk, IfErr};
ghost use Rattle.std.specs.List.{AllZip};
ghost use Rattle.rb_script.specs.Scripts.{worker_text};
ghost use Rattle.rb_script.specs.Programs.{IsWorkersProgram, HasProgram, IsProgramsFault};
ghost use Rattle.rb_script.specs.inner.ScriptRead.{IsFaultUnless};

use crate::script::ScriptWorker;
use crate::script_fault::ScriptFault;
use rb_program::{ShapeFaultKind, TextFault, from_text, shape};
use rb_verifier::{Refusal, Verified, verify};
use std::alloc::Global;

// Returns each worker's program, verified for this number of rings and the length of the worker's context. Otherwise
// reports the first worker whose program is refused.
pub(crate) fn programs_of(
    alloc: Global,
    workers: &[ScriptWorker<'_>],
    rings: usize,
) -> Result<Vec<Verified>, ScriptFault>
    ensures programs { IfOk result (λ programs. AllZip (IsWorkersProgram rings) (map worker_text workers.now) programs.items) }
    ensures fault { IfErr result (IsProgramsFault rings (map worker_text workers.now)) }
{
    let mut programs = Vec::new(alloc);
    for worker in workers {
        let program = match program_of(alloc, worker, rings) {
            Ok(program) => program,
            Err(fault) => return Err(fault),
        };
        let Ok(()) = programs.push(program) else {
            return Err(ScriptFault::Memory);
        };
    }
    Ok(programs)
}

fn program_of(
    alloc: Global,
    worker: &ScriptWorker<'_>,
    rings: usize,
) -> Result<Verified, ScriptFault>
    ensures program { IfOk result (λ program. IsWorkersProgram rings (worker_text worker.now) program) }
    ensures fault { IfErr result (IsFaultUnless worker.now.line (HasProgram rings (worker_text worker.now))) }
{
    // No program is verified beyond these limits.
    if rings > 16 || worker.context.len() > 65_536 {
        return Err(ScriptFault::Line(worker.line));
    }
    let program = match from_text(alloc, worker.program) {
        Ok(program) => program,
        Err(TextFault::Memory) => return Err(ScriptFault::Memory),
        Err(_) => return Err(ScriptFault::Line(worker.line)),
    };
    program.facts();
    let shape = match shape(alloc, program) {
        Ok(shape) => shape,
        Err(fault) => match fault.kind {
            ShapeFaultKind::Memory => return Err(ScriptFault::Memory),
            _ => return Err(ScriptFault::Line(worker.line)),
        },
    };
    match verify(alloc, shape, worker.context.len() as u32, rings as u32) {
        Ok(verified) => Ok(verified),
        Err(Refusal::Memory) => Err(ScriptFault::Memory),
        Err(_) => Err(ScriptFault::Line(worker.line)),
    }
}
