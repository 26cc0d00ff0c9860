//! A record that was taken.

ghost use Rattle.std.specs.Prelude.{◌≡◌, ◌<◌, ◌^◌};
ghost use Rattle.rb_history.specs.TapeBytes.{item_len, item_position, item_span};
ghost use Rattle.rb_tape.specs.Items.{item_of};
ghost use Rattle.rb_tape.specs.inner.RecordParts.{bytes_before_zeros};

use rb_history::span;

/// A submitted record that was taken, with its bytes.
#[derive(Clone, Copy, Debug, PartialEq, Eq)]
pub struct Event<'a> {
    /// The position of the record, in bytes.
    pub pos: u64,
    /// The number of the worker that submitted it.
    pub worker: u32,
    /// The number of records that the ring had granted to that worker before.
    pub serial: u64,
    /// The bytes of the record.
    pub bytes: &'a [u8],
}

/// A record that was taken (Linux Documentation/bpf/ringbuf.rst: discarded records are consumed too, and ignored).
#[derive(Clone, Copy, Debug, PartialEq, Eq)]
pub enum Item<'a> {
    /// A submitted record.
    Event(Event<'a>),
    /// A discarded record that was skipped: its position, and its length in bytes.
    Skip(u64, u32),
}

impl Item<'_> {
    // Returns the record's position.
    pub(crate) fn pos(&self) -> u64
        ensures { result ≡ item_position (item_of self.now) }
    {
        match self {
            Item::Event(event) => event.pos,
            Item::Skip(pos, _) => *pos,
        }
    }

    // Returns the record's length in bytes.
    pub(crate) fn len(&self) -> u32
        requires { item_len (item_of self.now) < 2 ^ 32 }
        ensures { result ≡ item_len (item_of self.now) }
    {
        match self {
            Item::Event(event) => event.bytes.len() as u32,
            Item::Skip(_, n) => *n,
        }
    }

    /// Returns the number of bytes by which the record advances the positions of a ring and of its tape.
    pub fn span(&self) -> u64
        requires len { item_len (item_of self.now) < 2 ^ 32 }
        ensures value { result ≡ item_span (item_of self.now) }
    {
        span(self.len())
    }

    // Returns the bytes between the record's header and its padding zeros; none for a discarded record.
    pub(crate) fn payload(&self) -> &[u8]
        ensures { result.now ≡ bytes_before_zeros (item_of self.now) }
    {
        match self {
            Item::Event(event) => event.bytes,
            Item::Skip(_, _) => &[],
        }
    }
}
