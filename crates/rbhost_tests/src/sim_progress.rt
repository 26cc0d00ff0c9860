//! What `sim` reports to its watch.

use crate::expected::same;
use crate::fakes::FakeReader;
use rb_json::LineForm;
use rb_script::{TurnWatch, sim};
use std::cell::Cell;

// Six turns: two of a worker, three of a consumer and one of a keeper.
const SCRIPT: &[u8] = b"ring 4096 0\nworker b7000000000000009500000000000000\nw 0 2\nc 0 3\nk 0\n";

const TURNS: usize = 6;

/// Counts the turns that are reported, and those of them that are reported with another total.
#[derive(Drop)]
struct TurnCounts {
    turns: Cell<usize>,
    others: Cell<usize>,
}

impl TurnWatch for TurnCounts {
    fn turned(&self, all: usize) {
        self.turns.set(self.turns.get().saturating_add(1));
        if all != TURNS {
            self.others.set(self.others.get().saturating_add(1));
        }
    }
}

#[test]
fn each_turn_is_reported_with_their_total(rt: HostRuntime) {
    let watch = TurnCounts {
        turns: Cell::new(0),
        others: Cell::new(0),
    };
    let mut reader = FakeReader::new(SCRIPT, 7);
    let mut printed = Vec::new(rt.alloc());
    let ended = sim(
        rt.alloc(),
        &mut reader,
        &mut printed,
        false,
        LineForm::Words,
        &watch,
    );
    same(
        &rt,
        &(ended, watch.turns.get(), watch.others.get()),
        &(Ok(()), TURNS, 0),
    );
}
