//! The worker as one that runs the pieces of a lane.

use crate::stream_worker::StreamWorker;
use rb_dealing::Work;
use rb_jobs::Stock;
use rb_source::Piece;
use std::sync::Wait;

impl<'w, R: Wait, K: Stock> Work for StreamWorker<'w, R, K> {
    ghost use Rattle.rb_stream_worker.specs.ContextRuns.{IsReadyWorker, WorkerRuns};
    ghost use Rattle.rb_stream_worker.specs.inner.RunLaws.{runs_in_turn, runs_nothing};

    ghost ready = { IsReadyWorker };

    ghost runs = { WorkerRuns };

    ghost runs_none = { runs_nothing };

    ghost runs_both = { runs_in_turn };

    /// Runs every program over every context of the piece, in order, at once or in turns. If an allocation for a run
    /// fails, or if the contexts don't have the length that the programs expect, the worker stops: it leaves the
    /// remaining contexts and all later ones, and counts them.
    ///
    /// Afterwards the worker publishes its counts.
    fn run(&mut self, piece: &Piece) {
        if piece.ctx_len() != self.ctx_len {
            self.counts.leave(piece.len());
            return;
        }
        self.run_piece(piece);
        self.live.publish(self.number, &self.counts, &self.seats);
    }

    /// Returns whether the worker stopped.
    fn is_short(&self) -> bool {
        self.counts.stopped
    }
}
