//! The record that a writer has begun. Only contracts read it.

ghost use Rattle.std.specs.Prelude.{◌≡◌};
ghost use Rattle.std.specs.Borrow.{ftrue};
ghost use Rattle.rb_history.specs.TapeBytes.{Item};
ghost use Rattle.rb_tape.specs.inner.ItemCode.{coded_item};

use crate::item::Item;
use std::marker::Model;

/// The record that was begun. A value of this type has no bytes and does nothing when the program runs: only contracts
/// read it.
#[derive(Drop)]
pub(crate) struct Begun {
    ghost item: { Item } by { coded_item },
}

impl Model for Begun {
    ghost also_owns = { λ _. ftrue };
}

// It owns nothing.
unsafe impl Send for Begun {}

unsafe impl Sync for Begun {}

impl Begun {
    ghost use Rattle.rb_tape.specs.Items.{item_of};

    /// Returns the value for this record.
    pub(crate) fn of(_item: &Item<'_>) -> Begun
        ensures item { result.item ≡ item_of _item.now }
    {
        Begun {}
    }
}
