//! Runs of programs over contexts.

ghost use Rattle.std.specs.Prelude.{◌≡◌, ◌≤◌, ◌<◌, ◌∷◌, [], drop, false, length, take};
ghost use Rattle.std.specs.List.{All};
ghost use Rattle.rb_stream_worker.specs.ContextRuns.{IsProgramFor, RunsContexts};
ghost use Rattle.rb_stream_worker.specs.declared.when_full.WhenFull.TheVariants.{Refuse};
ghost use Rattle.rb_stream_worker.specs.inner.RanTasks.{TriesContext, TriesTask};

use crate::stream_counts::StreamCounts;
use rb_jobs::{Job, JobRunner, OpenGate, Stock};
use rb_source::Piece;
use rb_verifier::Verified;
use std::sync::Wait;

// Runs program `index` over a context and counts the run. Returns false if an allocation failed: then nothing ran.
fn run_program<'j, R: Wait, K: Stock>(
    runner: &mut JobRunner<'_, 'j, R, OpenGate, K>,
    counts: &mut StreamCounts,
    worker: u32,
    programs: &'j [Verified],
    index: usize,
    context: &'j [u8],
) -> bool
    requires index { index < length programs.now }
    requires fit { All (IsProgramFor (length runner.old.rings) (length context.now)) programs.now }
    requires one_each { length counts.old.results.items ≡ length programs.now }
    ensures rings { runner.new.rings ≡ runner.old.rings }
    ensures ran { TriesTask result worker programs.now (record { program = index; context = context.now }) runner.old.seats runner.new.seats counts.old counts.new }
{
    let job = Job {
        worker,
        program: &programs[index],
        ctx: context,
    };
    let Ok(answer) = runner.run(&job) else {
        return false;
    };
    match answer.result {
        Ok(number) => counts.count_run(index, number, answer.unlogged),
        Err(_) => unreachable!(),
    }
    true
}

// Runs each program over a context, in order, up to the first for which an allocation fails. Returns whether all were
// run.
fn run_programs<'j, R: Wait, K: Stock>(
    runner: &mut JobRunner<'_, 'j, R, OpenGate, K>,
    counts: &mut StreamCounts,
    worker: u32,
    programs: &'j [Verified],
    context: &'j [u8],
) -> bool
    requires fit { All (IsProgramFor (length runner.old.rings) (length context.now)) programs.now }
    requires one_each { length counts.old.results.items ≡ length programs.now }
    ensures rings { runner.new.rings ≡ runner.old.rings }
    ensures ran { TriesContext result worker programs.now context.now runner.old.seats runner.new.seats counts.old counts.new }
{
    for index in 0..programs.len() {
        if !run_program(runner, counts, worker, programs, index, context) {
            return false;
        }
    }
    true
}

// Runs each program over a context and counts the context as run, or otherwise as left.
fn run_context<'j, R: Wait, K: Stock>(
    runner: &mut JobRunner<'_, 'j, R, OpenGate, K>,
    counts: &mut StreamCounts,
    worker: u32,
    programs: &'j [Verified],
    context: &'j [u8],
)
    requires fit { All (IsProgramFor (length runner.old.rings) (length context.now)) programs.now }
    requires one_each { length counts.old.results.items ≡ length programs.now }
    ensures rings { runner.new.rings ≡ runner.old.rings }
    ensures ran { RunsContexts Refuse worker programs.now (context.now ∷ []) runner.old.seats runner.new.seats counts.old counts.new }
{
    if counts.stopped {
        counts.leave(1);
        return;
    }
    if run_programs(runner, counts, worker, programs, context) {
        counts.contexts = counts.contexts.saturating_add(1);
    } else {
        counts.leave(1);
    }
}

/// Runs each program over the contexts of a piece from number `from` up to but excluding number `to`, in order.
pub(crate) fn run_part<'j, R: Wait, K: Stock>(
    runner: &mut JobRunner<'_, 'j, R, OpenGate, K>,
    counts: &mut StreamCounts,
    worker: u32,
    programs: &'j [Verified],
    piece: &'j Piece,
    from: usize,
    to: usize,
)
    requires fit { All (IsProgramFor (length runner.old.rings) piece.now.ctx_len) programs.now }
    requires one_each { length counts.old.results.items ≡ length programs.now }
    requires part { (from ≤ to) × (to ≤ length piece.now.contexts) }
    ensures rings { runner.new.rings ≡ runner.old.rings }
    ensures ran { RunsContexts Refuse worker programs.now (drop from (take to piece.now.contexts)) runner.old.seats runner.new.seats counts.old counts.new }
{
    for at in from..to {
        run_context(runner, counts, worker, programs, piece.get(at));
    }
}
