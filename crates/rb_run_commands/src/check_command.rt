//! Verifies a program from its text, runs it once over fresh rings, and collects the records that it left.

ghost use Rattle.std.specs.Prelude.{◌≡◌, ◌≢◌, ◌≤◌, ℕ, List, Ok, Err, IfErr, IfOk, IfSome, IsErr, OnErr, OnOk, length, map, take};
ghost use Rattle.std.specs.Io.KnownBytes.{Keeps};
ghost use Rattle.rb_jobs.specs.SeatHelpers.{AtRings};
ghost use Rattle.rb_loader.specs.Acceptance.{IsRightFault};
ghost use Rattle.rb_run_commands.specs.Check.{Checks, PrintsCheck, RunsOnce};

use crate::check_lines::lines_of_check;
use crate::drained_rings::drain_rings;
use crate::fresh_rings::{Fresh, fresh_rings};
use crossbeam_queue::ArrayQueue;
use rb_history::Taken;
use rb_io::write_whole;
use rb_jobs::{Gate, Job, run_job};
use rb_json::LineForm;
use rb_loader::{Bounds, ProgramFault, accept, read_text, requested_findings};
use rb_shared_ring::{Seat, SharedRing};
use rb_verifier::Verified;
use rb_workers::used_sheets::UsedSheets;
use std::alloc::{AllocError, Global};
use std::io::{Read, Write};
use std::sync::Wait;

/// The outcome of a run: the program's result, and the records of each ring.
#[derive(Drop)]
pub struct Checked {
    /// The program's result.
    pub value: u64,
    /// The records that were taken from each ring, in the order of the rings' numbers.
    pub records: Vec<Vec<Taken>>,
}

/// Verifies the program whose text is the input, and runs it once over fresh rings of 4,096 bytes with a context of
/// zeros. Prints `accepted`, the result, and a line for each record that it left, in this form; if `portable`, also a
/// line for each unit at which Linux refuses the program. The text is read as by `read_text`. The gate is called before
/// each helper call.
///
/// If the program is refused or memory runs out, nothing is printed.
pub fn check<T: Wait, R: Read, W: Write, G: Gate>(
    rt: &T,
    alloc: Global,
    input: &mut R,
    out: &mut W,
    bounds: Bounds,
    form: LineForm,
    portable: bool,
    gate: &G,
) -> Result<(), ProgramFault>
    ensures printed { OnOk result (IfSome (R.remaining input.old) (λ text. PrintsCheck portable text bounds.ctx_len bounds.rings form (W.contents out.old) (W.contents out.new))) }
    ensures refused { IfErr result (λ fault. IfSome (R.remaining input.old) (λ text. IsRightFault text bounds.ctx_len bounds.rings fault)) }
    ensures nothing_printed { IfErr result (λ fault. fault ≢ ProgramFault.Device → Keeps (W.contents out.old) (W.contents out.new)) }
{
    let text = read_text(alloc, input)?;
    let text = text.as_str();
    let Checked { value, records } = check_text(rt, alloc, text, bounds, gate)?;
    let findings = requested_findings(alloc, text, bounds, form, portable)?;
    let mut printed = lines_of_check(alloc, value, records.as_slice(), form)?;
    printed.extend_from_slice(findings.as_bytes())?;
    match write_whole(out, printed.as_slice()) {
        Ok(()) => Ok(()),
        Err(_) => Err(ProgramFault::Device),
    }
}

/// Verifies a program from its text in hex, and runs it once over fresh rings with a context of zeros.
pub fn check_text<T: Wait, G: Gate>(
    rt: &T,
    alloc: Global,
    text: &str,
    bounds: Bounds,
    gate: &G,
) -> Result<Checked, ProgramFault>
    ensures checked { IfOk result (λ c. Checks text.now bounds.ctx_len bounds.rings c.value (map (λ ring. ring.items) c.records.items)) }
    ensures refused { IfErr result (IsRightFault text.now bounds.ctx_len bounds.rings) }
    ensures no_device { result ≢ Err ProgramFault.Device }
{
    let verified = accept(alloc, text, bounds)?;
    let Fresh {
        rings,
        seats,
        mut consumers,
    } = fresh_rings(rt, alloc, verified.rings())?;
    let (value, mut seats) = run_once(rt, alloc, &verified, rings.as_slice(), seats, gate)?;
    let records = drain_rings(
        rt,
        alloc,
        rings.as_slice(),
        seats.as_mut_slice(),
        consumers.as_mut_slice(),
    )?;
    Ok(Checked { value, records })
}

// Returns the result of a program over a context of zeros, and the seats as the run left them. Its stock has the same
// type as the stocks of `run`'s workers, and its gate may too, so `rbhost` has one copy of the loop that runs a
// program, with the step inlined.
fn run_once<T: Wait, G: Gate>(
    rt: &T,
    alloc: Global,
    verified: &Verified,
    rings: &[SharedRing],
    seats: Vec<Seat>,
    gate: &G,
) -> Result<(u64, Vec<Seat>), AllocError>
    requires rings { verified.now.rings ≤ length rings.now }
    requires seats { AtRings rings.now seats.items }
    ensures ran { IfOk result (λ ran. RunsOnce verified.now (Ok ran.0) seats.items ran.1.items) }
    ensures seats { IfOk result (λ ran. AtRings rings.now ran.1.items) }
{
    let context = vec![in alloc; 0; verified.ctx_len() as usize]?;
    let job = Job {
        worker: 0,
        program: verified,
        ctx: context.as_slice(),
    };
    let sheets = ArrayQueue::new(alloc, 1)?;
    let stock = UsedSheets {
        rt,
        sheets: &sheets,
    };
    let mut calls = 0;
    let (answer, seats) = run_job(rt, alloc, rings, seats, &job, gate, &stock, &mut calls);
    match answer?.result {
        Ok(value) => Ok((value, seats)),
        Err(_) => unreachable!(),
    }
}
