//! An iterator over the submitted records of a batch.

ghost use Rattle.std.specs.Prelude.{◌≡◌};

use rb_history::Taken;
use rb_lend::Lent;
use rb_tape::Event;
use std::marker::Model;

/// An iterator over the submitted records of a batch, in the order in which they were taken. A step takes time linear
/// in the number of discarded records before the next submitted one, and does not allocate.
#[derive(Drop)]
pub struct Events<'a> {
    pub(crate) rest: &'a [Taken],
}

impl<'a> Model for Events<'a> {
    ghost use Rattle.std.specs.Prelude.{List, filter};
    ghost use Rattle.rb_history.specs.declared.answers.Taken.{Taken};
    ghost use Rattle.rb_consumer.specs.Batches.{is_event};

    ghost Value = { List Taken };

    ghost view = { λ i. filter is_event i.rest.now };
}

impl<'a> Iterator for Events<'a> {
    ghost use Rattle.std.specs.Prelude.{length};
    ghost use Rattle.std.specs.Iterator.{at_most};
    ghost use Rattle.rb_consumer.specs.Batches.{LendsEvent};

    type Item = Event<'a>;

    ghost next_gives = { λ old result new. LendsEvent old new result };

    ghost remaining = { λ s. at_most (length s) };

    /// Returns the next submitted record.
    fn next(&mut self) -> Option<Event<'a>> {
        while !self.rest.is_empty() {
            let rest = self.rest;
            self.rest = &rest[1..];
            if let Taken::Event(pos, worker, serial, sheet) = &rest[0] {
                return Some(Event {
                    pos: *pos,
                    worker: *worker,
                    serial: *serial,
                    bytes: sheet.bytes(),
                });
            }
        }
        None
    }
}
