//! The command `sim`: reads a script of a world and writes the lines of its turns.

ghost use Rattle.std.specs.Prelude.{◌≡◌, ◌⊎◌, ℕ, Err, IfErr, IfSome, OnOk};
ghost use Rattle.std.specs.Io.KnownBytes.{Appends, Keeps};
ghost use Rattle.rb_script.specs.Simulated.{BreaksOffSim, IsSimFaultOf, IsTold, PrintsSim};

use crate::script::Script;
use crate::script_fault::ScriptFault;
use crate::turn_watch::TurnWatch;
use rb_io::write_whole;
use rb_json::LineForm;
use rb_loader::{ProgramFault, read_all};
use std::alloc::Global;
use std::io::{Read, Write};
use thiserror::Error;

/// Why a script was not run to its end.
#[derive(Clone, Copy, Debug, PartialEq, Eq, Error)]
pub enum SimFault {
    /// The line with this number, counted from 1, is at fault, or its program is refused.
    #[error("line {0}")]
    Line(usize),
    /// Memory could not be allocated.
    #[error("memory")]
    Memory,
    /// A read or a write failed.
    #[error("device")]
    Device,
}

/// Reads a whole script, verifies its programs and runs its turns in a world. Prints a line for each take and each
/// chapter, and at the end a line for each worker and each ring. With `draw`, also draws each ring on a line after each
/// turn. Each line is in words or a JSON object, as `form` says. Calls the watch after each turn.
///
/// If a line is at fault or a program is refused, returns its number and prints nothing, unless memory runs out or the
/// device fails. If memory runs out, prints the lines of the turns made so far, in the same form, and nothing else. The
/// object of a record needs more memory than its line in words.
pub fn sim<R: Read, W: Write, V: TurnWatch>(
    alloc: Global,
    input: &mut R,
    out: &mut W,
    draw: bool,
    form: LineForm,
    watch: &V,
) -> Result<(), SimFault>
    ensures printed { OnOk result (IfSome (R.remaining input.old) (λ text. PrintsSim form draw text (W.contents out.old) (W.contents out.new))) }
    ensures refused { IfErr result (λ fault. IfSome (R.remaining input.old) (λ text. IsSimFaultOf text fault)) }
    ensures told { IfSome (R.remaining input.old) (λ text. (line : ℕ) → IsSimFaultOf text (SimFault.Line line) → IsTold line result) }
    ensures broken_off { IfSome (R.remaining input.old) (λ text. result ≡ Err SimFault.Memory → BreaksOffSim form draw text (W.contents out.old) (W.contents out.new)) }
    ensures unprinted { (line : ℕ) → result ≡ Err (SimFault.Line line) → Keeps (W.contents out.old) (W.contents out.new) }
{
    let bytes = match read_all(alloc, input) {
        Ok(bytes) => bytes,
        Err(ProgramFault::Memory) => return Err(SimFault::Memory),
        Err(_) => return Err(SimFault::Device),
    };
    sim_text(alloc, bytes.as_slice(), out, draw, form, watch)
}

// Runs the script in `text`, as `sim` does.
fn sim_text<W: Write, V: TurnWatch>(
    alloc: Global,
    text: &[u8],
    out: &mut W,
    draw: bool,
    form: LineForm,
    watch: &V,
) -> Result<(), SimFault>
    ensures printed { OnOk result (PrintsSim form draw text.now (W.contents out.old) (W.contents out.new)) }
    ensures refused { IfErr result (IsSimFaultOf text.now) }
    ensures told { (line : ℕ) → IsSimFaultOf text.now (SimFault.Line line) → IsTold line result }
    ensures broken_off { result ≡ Err SimFault.Memory → BreaksOffSim form draw text.now (W.contents out.old) (W.contents out.new) }
    ensures unprinted { (line : ℕ) → result ≡ Err (SimFault.Line line) → Keeps (W.contents out.old) (W.contents out.new) }
{
    let script = match Script::read(alloc, text) {
        Ok(script) => script,
        Err(ScriptFault::Line(line)) => return Err(SimFault::Line(line)),
        Err(ScriptFault::Memory) => return Err(SimFault::Memory),
    };
    let mut turns = Vec::new(alloc);
    let ends = match script.simulate(alloc, draw, form, &mut turns, watch) {
        Ok(ends) => ends,
        Err(ScriptFault::Line(refused)) => return Err(SimFault::Line(refused)),
        Err(ScriptFault::Memory) => return Err(print_beginning(out, turns.as_slice())),
    };
    if let Err(fault) = print(out, turns.as_slice()) {
        return Err(fault);
    }
    print(out, ends.as_slice())
}

// Prints the lines of the turns before memory ran out. Returns `Memory`, or `Device` if they could not be printed.
fn print_beginning<W: Write>(out: &mut W, lines: &[u8]) -> SimFault
    ensures printed { result ≡ SimFault.Memory → Appends (W.contents out.old) (W.contents out.new) lines.now }
    ensures fault { (result ≡ SimFault.Memory) ⊎ (result ≡ SimFault.Device) }
{
    match print(out, lines) {
        Ok(()) => SimFault::Memory,
        Err(_) => SimFault::Device,
    }
}

fn print<W: Write>(out: &mut W, lines: &[u8]) -> Result<(), SimFault>
    ensures printed { OnOk result (Appends (W.contents out.old) (W.contents out.new) lines.now) }
    ensures fault { IfErr result (λ fault. fault ≡ SimFault.Device) }
{
    match write_whole(out, lines) {
        Ok(()) => Ok(()),
        Err(_) => Err(SimFault::Device),
    }
}
