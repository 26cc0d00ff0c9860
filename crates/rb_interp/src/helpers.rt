//! The helpers that a program may call.

ghost use Rattle.std.specs.Prelude.{◌≡◌, ◌≢◌, ℕ, ◌+◌, ◌<◌, List, [], ◌∷◌, ◌++◌, length, replicate, IfErr, IfSome, is_some, is_ok, Bool, true};
ghost use Rattle.rb_interp.specs.declared.completed_call.Done.{Done};
ghost use Rattle.rb_interp.specs.declared.completed_call.Done.TheVariants.{Reserve, Submit, Discard, Output, Query};
ghost use Rattle.rb_interp.specs.AnsweredCalls.{AnsweredCall, Reserved, Submitted, Discarded, SentOut, Queried};

use crate::completed_call::Done;
use rb_lend::Lent;

/// The ring buffer helpers that a program may call, as in bpf-helpers(7).
///
/// Each call appends one `Done` with its answer to the trace, which must have room for it. None takes a runtime.
/// Between the calls, a program writes to its records without any call.
pub trait Helpers {
    /// A record, from the call that grants it to the call that submits or discards it.
    type Record: Lent + Drop;

    /// The calls so far with their answers, the oldest first.
    ghost trace_of: { Self → List Done };

    /// How many more calls fit in the trace.
    ghost room_of: { Self → ℕ };

    /// Whether there is a ring with this number.
    ghost has_ring: { Self → ℕ → Bool };

    /// Whether these calls with these answers, the oldest first, lead from the first state of the helpers to the
    /// second.
    ghost leads: { Self → List (AnsweredCall Self.Record) → Self → Type 0 };

    /// Whether these helpers keep the records that they grant: each one until it is submitted or discarded. A kept
    /// record is never handed back.
    ghost keeps_records: { Bool };

    /// Whether the helpers keep this record, with its current bytes.
    ghost keeps: { Self → Self.Record → Type 0 };

    /// The name of a record: the number of its ring, and a number that is unique in that ring. Records that are kept at
    /// the same time have different names.
    ghost name_of: { Self.Record → ℕ × ℕ };

    /// Returns a record of `n` zero bytes in the ring with this number, or `None`, which is null to the program
    /// (bpf_ringbuf_reserve).
    fn reserve(&mut self, ring: u32, n: u32, flags: u64) -> Option<Self::Record>
        requires room { 0 < room_of self.old }
        requires ring { has_ring self.old ring ≡ true }
        ensures trace { trace_of self.new ≡ trace_of self.old ++ Reserve ring n flags (is_some result) ∷ [] }
        ensures room { room_of self.new + 1 ≡ room_of self.old }
        ensures rings { has_ring self.new ≡ has_ring self.old }
        ensures called { leads self.old (Reserved ring n flags result ∷ []) self.new }
        ensures kept { keeps_records ≡ true → IfSome result (λ r. keeps self.new r × ((s : Self.Record) → keeps self.old s → name_of s ≢ name_of r)) }
        ensures still_kept { (s : Self.Record) → keeps self.old s → keeps self.new s }
        ensures zeros { IfSome result (λ r. Self.Record.bytes_of r ≡ replicate n 0) };

    /// Submits a record to be consumed, or refuses it and returns the same record (bpf_ringbuf_submit).
    fn submit(&mut self, owned: Self::Record, flags: u64) -> Result<(), Self::Record>
        requires room { 0 < room_of self.old }
        ensures trace { trace_of self.new ≡ trace_of self.old ++ Submit flags (is_ok result) ∷ [] }
        ensures room { room_of self.new + 1 ≡ room_of self.old }
        ensures rings { has_ring self.new ≡ has_ring self.old }
        ensures called { leads self.old (Submitted owned flags (is_ok result) ∷ []) self.new }
        ensures never_back { keeps self.old owned → is_ok result ≡ true }
        ensures let_go { keeps self.new owned → ⊥ }
        ensures still_kept { (s : Self.Record) → keeps self.old s → name_of s ≢ name_of owned → keeps self.new s }
        ensures handed_back { IfErr result (λ back. back ≡ owned) };

    /// Discards a record, which the consumer skips, or refuses it and returns the same record (bpf_ringbuf_discard).
    fn discard(&mut self, owned: Self::Record, flags: u64) -> Result<(), Self::Record>
        requires room { 0 < room_of self.old }
        ensures trace { trace_of self.new ≡ trace_of self.old ++ Discard flags (is_ok result) ∷ [] }
        ensures room { room_of self.new + 1 ≡ room_of self.old }
        ensures rings { has_ring self.new ≡ has_ring self.old }
        ensures called { leads self.old (Discarded owned flags (is_ok result) ∷ []) self.new }
        ensures never_back { keeps self.old owned → is_ok result ≡ true }
        ensures let_go { keeps self.new owned → ⊥ }
        ensures still_kept { (s : Self.Record) → keeps self.old s → name_of s ≢ name_of owned → keeps self.new s }
        ensures handed_back { IfErr result (λ back. back ≡ owned) };

    /// Outputs a copy of the bytes to the ring (bpf_ringbuf_output).
    ///
    /// Returns 0 or a negated error number such as `-EINVAL` or `-EAGAIN`.
    fn output(&mut self, ring: u32, bytes: &[u8], flags: u64) -> i64
        requires room { 0 < room_of self.old }
        requires ring { has_ring self.old ring ≡ true }
        ensures trace { trace_of self.new ≡ trace_of self.old ++ Output ring (length bytes.now) flags result ∷ [] }
        ensures room { room_of self.new + 1 ≡ room_of self.old }
        ensures rings { has_ring self.new ≡ has_ring self.old }
        ensures still_kept { (s : Self.Record) → keeps self.old s → keeps self.new s }
        ensures called { leads self.old (SentOut ring bytes.now flags result ∷ []) self.new };

    /// Returns a number of the ring (bpf_ringbuf_query).
    ///
    /// `what` selects the number: 0 for the bytes that are not consumed yet, 1 for the size, 2 for the consumer
    /// position, 3 for the producer position.
    fn query(&mut self, ring: u32, what: u64) -> u64
        requires room { 0 < room_of self.old }
        requires ring { has_ring self.old ring ≡ true }
        ensures trace { trace_of self.new ≡ trace_of self.old ++ Query ring what result ∷ [] }
        ensures room { room_of self.new + 1 ≡ room_of self.old }
        ensures rings { has_ring self.new ≡ has_ring self.old }
        ensures still_kept { (s : Self.Record) → keeps self.old s → keeps self.new s }
        ensures called { leads self.old (Queried ring what result ∷ []) self.new };

    /// Returns the calls so far with their answers, the oldest first.
    fn trace(&self) -> &[Done]
        ensures { result.now ≡ trace_of self.now };

    /// Returns how many more calls fit in the trace.
    fn room(&self) -> usize
        ensures { result ≡ room_of self.now };

    /// The law that no calls lead from a state to itself.
    ghost leads_by_none: { (h : Self) → leads h [] h };

    /// The law that a record stays kept when it is written to.
    ghost kept_written: { (h : Self) (r : Self.Record) (w : List ℕ) → keeps h r → keeps h (Self.Record.with_bytes r w) };

    /// The law that a record keeps its name when it is written to.
    ghost name_stays: { (r : Self.Record) (w : List ℕ) → name_of (Self.Record.with_bytes r w) ≡ name_of r };

    /// The law that sequences of calls compose.
    ghost leads_on: { (a b c : Self) (first more : List (AnsweredCall Self.Record)) → leads a first b → leads b more c → leads a (first ++ more) c };
}
