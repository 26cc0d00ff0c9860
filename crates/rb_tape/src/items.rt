//! An iterator over records that were taken.

ghost use Rattle.std.specs.Prelude.{◌≡◌};

use crate::item::{Event, Item};
use rb_history::Taken;
use rb_lend::Lent;
use std::marker::Model;

/// An iterator over taken records, including discarded ones, in the order in which they were taken. Each step takes
/// constant time and does not allocate.
#[derive(Drop)]
pub struct Items<'a> {
    rest: &'a [Taken],
}

impl<'a> Model for Items<'a> {
    ghost use Rattle.std.specs.Prelude.{List};
    ghost use Rattle.rb_history.specs.declared.answers.Taken.{Taken};
    ghost use Rattle.rb_tape.specs.Items.{AreRecords};

    ghost Value = { List Taken };

    ghost view = { λ i. i.rest.now };

    ghost invariant = { λ i. AreRecords i.rest.now };
}

impl<'a> Items<'a> {
    ghost use Rattle.rb_tape.specs.Items.{AreRecords};

    /// Returns an iterator over the records that these results of `take` found. Each of the results must have found
    /// one.
    pub fn new(taken: &'a [Taken]) -> Items<'a>
        requires records { AreRecords taken.now }
        ensures value { result ≡ taken.now }
    {
        Items { rest: taken }
    }
}

impl<'a> Iterator for Items<'a> {
    ghost use Rattle.std.specs.Prelude.{length};
    ghost use Rattle.std.specs.Iterator.{at_most};
    ghost use Rattle.rb_tape.specs.Items.{LendsItem};

    type Item = Item<'a>;

    ghost next_gives = { λ old result new. LendsItem old new result };

    ghost remaining = { λ s. at_most (length s) };

    /// Returns the next record.
    fn next(&mut self) -> Option<Item<'a>> {
        if self.rest.is_empty() {
            return None;
        }
        let rest = self.rest;
        let item = match &rest[0] {
            Taken::Event(pos, worker, serial, sheet) => Item::Event(Event {
                pos: *pos,
                worker: *worker,
                serial: *serial,
                bytes: sheet.bytes(),
            }),
            Taken::Skipped(pos, n) => Item::Skip(*pos, *n),
            _ => unreachable!(),
        };
        self.rest = &rest[1..];
        Some(item)
    }
}
