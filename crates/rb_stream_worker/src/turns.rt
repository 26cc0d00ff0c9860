//! Contexts that are run in turns.

ghost use Rattle.std.specs.Prelude.{◌≡◌, ◌+◌, ◌<◌, ◌≤◌, drop, length, take};
ghost use Rattle.rb_stream_worker.specs.ContextRuns.{IsReadyWorker, IsSameWorker, RunsContexts, WorkerRuns};
ghost use Rattle.rb_stream_worker.specs.declared.when_full.WhenFull.TheVariants.{Refuse, Wait as WaitForRoom};

use crate::context_runs::run_part;
use crate::looks::wait_for_all;
use crate::stream_worker::StreamWorker;
use crate::when_full::{Turns, WhenFull};
use rb_jobs::{JobRunner, OpenGate, Stock};
use rb_source::Piece;
use rb_verifier::Verified;
use std::mem;
use std::sync::Wait;

impl<'w, R: Wait, K: Stock> StreamWorker<'w, R, K> {
    // Returns a runner without seats.
    fn bare_runner<'j>(&self) -> JobRunner<'w, 'j, R, OpenGate, K> {
        JobRunner::new(
            self.rt,
            self.alloc,
            &[],
            Vec::new(self.alloc),
            &OpenGate,
            self.stock,
            0,
        )
    }

    // Runs every program over the contexts of a piece from number `from` up to but excluding number `to`, at once. The
    // runner has the worker's seats meanwhile.
    fn run_at_once<'j>(
        &mut self,
        runner: &mut JobRunner<'w, 'j, R, OpenGate, K>,
        programs: &'j [Verified],
        piece: &'j Piece,
        from: usize,
        to: usize,
    )
        requires ready { IsReadyWorker self.old }
        requires programs { self.old.programs.now ≡ programs.now }
        requires length { piece.now.ctx_len ≡ self.old.ctx_len }
        requires part { (from ≤ to) × (to ≤ length piece.now.contexts) }
        ensures ready { IsReadyWorker self.new }
        ensures same { IsSameWorker self.old self.new }
        ensures ran { RunsContexts Refuse self.old.number self.old.programs.now (drop from (take to piece.now.contexts)) self.old.seats.items self.new.seats.items self.old.counts self.new.counts }
    {
        let seats = mem::replace(&mut self.seats, Vec::new(self.alloc));
        let _none = runner.exchange_seats(self.rings, seats);
        run_part(
            runner,
            &mut self.counts,
            self.number,
            programs,
            piece,
            from,
            to,
        );
        self.seats = runner.exchange_seats(&[], Vec::new(self.alloc));
    }

    // Waits for room in every ring, and then runs a turn: the contexts of a piece from number `from` up to but
    // excluding number `to`. A worker that has stopped does not wait.
    fn take_turn<'j>(
        &mut self,
        runner: &mut JobRunner<'w, 'j, R, OpenGate, K>,
        programs: &'j [Verified],
        piece: &'j Piece,
        turns: &Turns,
        from: usize,
        to: usize,
    )
        requires ready { IsReadyWorker self.old }
        requires programs { self.old.programs.now ≡ programs.now }
        requires turns { self.old.full.now ≡ WaitForRoom turns.now }
        requires length { piece.now.ctx_len ≡ self.old.ctx_len }
        requires part { (from < to) × (to ≤ length piece.now.contexts) × (to ≤ from + turns.now.contexts) }
        ensures ready { IsReadyWorker self.new }
        ensures same { IsSameWorker self.old self.new }
        ensures ran { RunsContexts self.old.full.now self.old.number self.old.programs.now (drop from (take to piece.now.contexts)) self.old.seats.items self.new.seats.items self.old.counts self.new.counts }
    {
        if self.counts.stopped {
            self.counts.leave(to - from);
            return;
        }
        wait_for_all(self.rt, self.rings, &mut self.seats, &turns.limits);
        self.run_at_once(runner, programs, piece, from, to);
    }

    // Runs every program over every context of a piece, in turns.
    fn run_in_turns<'j>(
        &mut self,
        runner: &mut JobRunner<'w, 'j, R, OpenGate, K>,
        programs: &'j [Verified],
        piece: &'j Piece,
        turns: &Turns,
    )
        requires ready { IsReadyWorker self.old }
        requires programs { self.old.programs.now ≡ programs.now }
        requires turns { self.old.full.now ≡ WaitForRoom turns.now }
        requires length { piece.now.ctx_len ≡ self.old.ctx_len }
        ensures ready { IsReadyWorker self.new }
        ensures ran { WorkerRuns self.old piece.now.contexts self.new }
    {
        let end = piece.len();
        let mut from = 0;
        for _ in 0..end {
            if from >= end {
                break;
            }
            let to = turn_end(from, end, turns.contexts);
            self.take_turn(runner, programs, piece, turns, from, to);
            from = to;
        }
    }

    // Runs these programs over every context of a piece, at once or in turns.
    fn run_programs<'j>(&mut self, programs: &'j [Verified], piece: &'j Piece)
        requires ready { IsReadyWorker self.old }
        requires programs { self.old.programs.now ≡ programs.now }
        requires length { piece.now.ctx_len ≡ self.old.ctx_len }
        ensures ready { IsReadyWorker self.new }
        ensures ran { WorkerRuns self.old piece.now.contexts self.new }
    {
        let mut runner = self.bare_runner();
        match self.full {
            WhenFull::Refuse => self.run_at_once(&mut runner, programs, piece, 0, piece.len()),
            WhenFull::Wait(turns) => self.run_in_turns(&mut runner, programs, piece, turns),
        }
    }

    /// Runs every program over every context of a piece, at once or in turns.
    pub(crate) fn run_piece(&mut self, piece: &Piece)
        requires ready { IsReadyWorker self.old }
        requires length { piece.now.ctx_len ≡ self.old.ctx_len }
        ensures ready { IsReadyWorker self.new }
        ensures ran { WorkerRuns self.old piece.now.contexts self.new }
    {
        self.run_programs(self.programs, piece);
    }
}

// Returns the end of a turn that begins at `from`, before the end of the piece.
fn turn_end(from: usize, end: usize, contexts: u32) -> usize
    requires inside { from < end }
    requires some { 1 ≤ contexts }
    ensures more { from + 1 ≤ result }
    ensures inside { result ≤ end }
    ensures few { result ≤ from + contexts }
{
    from + (end - from).min(contexts as usize)
}
