//! The programs of a stream, read and verified.

ghost use Rattle.std.specs.Prelude.{◌≡◌, ℕ, List, IfErr, IfOk, length, min};
ghost use Rattle.rb_loader.specs.Acceptance.{IsAccepted};
ghost use Rattle.rb_service.specs.Command.{IsAllowed, IsLater};
ghost use Rattle.rb_service.specs.PrintedStream.{AreAcceptedFor};
ghost use Rattle.rb_source.specs.Form.{form_len};

use crate::options::StreamOptions;
use crate::refusal::StreamRefusal;
use rb_loader::{Bounds, ProgramFault, accept, read_text};
use rb_verifier::Verified;
use std::alloc::Global;
use std::fs::File;
use std::io::Read;
use std::rt::Files;

/// Reads and verifies the programs, each for the contexts and the rings of the options.
pub(crate) fn read_programs<'a, T: Files<File = File>>(
    rt: &T,
    alloc: Global,
    options: &StreamOptions<'a>,
) -> Result<Vec<Verified>, StreamRefusal<'a>>
    requires allowed { IsAllowed options.now }
    ensures later { IfErr result IsLater }
    ensures accepted { IfOk result (λ programs. AreAcceptedFor options.now programs.items) }
{
    let bounds = bounds_of(options);
    let mut programs = Vec::new(alloc);
    for at in 0..options.programs.len() {
        let path = options.programs[at];
        let Ok(mut file) = File::open(rt, path) else {
            return Err(StreamRefusal::Open(path));
        };
        match read_accepted(alloc, &mut file, bounds) {
            Ok(program) => {
                programs.reserve(1)?;
                programs.push_reserved(program);
            }
            Err(fault) => return Err(StreamRefusal::Program(path, fault)),
        }
    }
    Ok(programs)
}

// Returns the limits that the programs are verified against. A program may use at most 16 rings.
fn bounds_of(options: &StreamOptions<'_>) -> Bounds
    requires allowed { IsAllowed options.now }
    ensures ctx_len { result.ctx_len ≡ form_len options.now.form }
    ensures rings { result.rings ≡ min (length options.now.rings.items) 16 }
{
    Bounds {
        ctx_len: options.form.ctx_len(),
        rings: options.rings.len().min(16) as u32,
    }
}

// Reads a program's text, and verifies the program.
fn read_accepted<R: Read>(
    alloc: Global,
    input: &mut R,
    bounds: Bounds,
) -> Result<Verified, ProgramFault>
    ensures { IfOk result (λ program. (text : List ℕ) × IsAccepted text bounds.ctx_len bounds.rings program) }
{
    let text = read_text(alloc, input)?;
    accept(alloc, text.as_str(), bounds)
}
