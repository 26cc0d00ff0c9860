//! Every order of the steps of some workers and of the takes of a consumer, over one ring in a separate world each, and
//! the final state of each order. `tools/trials orders` runs it, and compares each line with its own model of a ring.
//!
//! The arguments are TAKES AFTER LAST, and STEPS HEX for each worker. STEPS has the number of turns of each step of
//! that worker, for example 4,5,2, and HEX is its program. TAKES takes of the consumer are interleaved with the steps
//! in each order; AFTER takes follow each step, and LAST takes the last one. The orders come in lexicographic order,
//! where the workers are the letters, and the consumer is the last letter.

mod end_line;
mod order;
mod plan;
mod runs;

use crate::fault::TrialFault;
use plan::OrdersPlan;
use std::alloc::Global;
use std::io::{BufWriter, Write};

/// Reads the plan and prints a line for each of its orders.
pub(crate) fn run<W: Write>(
    alloc: Global,
    words: &[String],
    out: &mut W,
) -> Result<(), TrialFault> {
    let plan = OrdersPlan::read(alloc, words)?;
    write_lines(alloc, &plan, out)
}

fn write_lines<W: Write>(alloc: Global, plan: &OrdersPlan, out: &mut W) -> Result<(), TrialFault> {
    let mut out = BufWriter::new(alloc, out)?;
    runs::run_orders(alloc, plan, &mut out)?;
    out.flush()?;
    Ok(())
}
