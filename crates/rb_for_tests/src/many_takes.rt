//! Many takes in one call.

ghost use Rattle.std.specs.Prelude.{◌≡◌, ◌+◌, ◌≤◌, ◌++◌, length, vec_len, vec_capacity};
ghost use Rattle.rb_history.specs.ManyTakes.{TakesMany, pushed};

use crate::plain_ring::PlainRing;
use rb_history::Taken;

impl PlainRing {
    /// Takes up to `n` records, as `n` calls of `take` would, appends each event or skipped record to `out`, and
    /// returns their number. It stops before the first take that finds a busy record or none, so it appends neither
    /// `BusyFront` nor `Empty`.
    ///
    /// Allocates nothing, and takes constant time for each record. (Linux Documentation/bpf/ringbuf.rst: records are
    /// consumed in the order of their reservation.)
    pub fn take_many(&mut self, n: usize, out: &mut Vec<Taken>) -> usize
        requires room { vec_len out.old + n ≤ vec_capacity out.old }
        ensures same_ring { self.new.setup ≡ self.old.setup }
        ensures takes { TakesMany n (pushed out.old.items out.new.items) self.old self.new }
        ensures kept { out.new.items ≡ out.old.items ++ pushed out.old.items out.new.items }
        ensures count { result ≡ length (pushed out.old.items out.new.items) }
        ensures capacity { vec_capacity out.new ≡ vec_capacity out.old }
    {
        for count in 0..n {
            match self.take() {
                Taken::BusyFront | Taken::Empty => return count,
                record => out.push_reserved(record),
            }
        }
        n
    }
}
