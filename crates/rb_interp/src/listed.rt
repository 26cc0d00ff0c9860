//! Helpers that take their answers from a list.

ghost use Rattle.std.specs.Prelude.{◌≡◌, ℕ, ◌+◌, ◌<◌, ◌≤◌, List, [], ◌∷◌, ◌++◌, length, replicate, IfOk, IfErr, IfSome, is_some, is_ok, Bool, true, false, refl, drop, ℤ, pos};
ghost use Rattle.rb_interp.specs.declared.completed_call.Done.{Done};
ghost use Rattle.rb_interp.specs.declared.completed_call.Done.TheVariants.{Reserve, Submit, Discard, Output, Query};
ghost use Rattle.rb_interp.specs.ListedAnswers.{Answers, ListLeads, next_of, output_answer};
ghost use Rattle.rb_interp.specs.AnsweredCalls.{Reserved, Submitted, Discarded, SentOut, Queried};
ghost use Rattle.rb_interp.specs.inner.ListCalls.{none_called, called_on};

use crate::completed_call::Done;
use crate::helpers::Helpers;
use crate::numbers::EAGAIN;
use rb_lend::{Lent, Sheet};
use std::alloc::{AllocError, Global};
use std::marker::Model;

/// Helpers that take their answers from a list, one for each call. They have a ring with every number, and ignore
/// flags.
///
/// The answer `true` grants a record (or null if memory for it can't be allocated), takes a record, or makes an output
/// return 0. The answer `false` returns null, hands a record back, or makes an output return `-EAGAIN`. A query
/// consumes its answer, too, and returns 0. Only `new` and `reserve` allocate.
#[derive(Drop)]
pub struct Listed {
    alloc: Global,
    answers: Vec<bool>,
    next: usize,
    trace: Vec<Done>,
}

impl Model for Listed {
    ghost use Rattle.std.specs.Prelude.{◌+◌, ◌-◌, ◌≤◌, drop, vec_len, vec_capacity};
    ghost use Rattle.rb_interp.specs.ListedAnswers.{Answers};

    ghost Value = { Answers };

    ghost view = { λ h. record { left = drop h.next h.answers.items; trace = h.trace.items } };

    ghost invariant = { λ h. (h.next ≤ vec_len h.answers) × (vec_len h.trace + (vec_len h.answers - h.next) ≤ vec_capacity h.trace) };
}

impl Listed {
    /// Creates helpers with these answers and room for as many calls. The only error is that the trace can't be
    /// allocated.
    pub fn new(alloc: Global, answers: Vec<bool>) -> Result<Listed, AllocError>
        ensures answers { IfOk result (λ h. h.left ≡ answers.items) }
        ensures trace { IfOk result (λ h. h.trace ≡ []) }
    {
        let trace = Vec::with_capacity(alloc, answers.len())?;
        Ok(Listed {
            alloc,
            answers,
            next: 0,
            trace,
        })
    }

    // Returns the answer for the next call.
    fn next_answer(&self) -> bool
        requires { 0 < length self.now.left }
        ensures { result ≡ next_of self.now.left }
    {
        self.answers[self.next]
    }

    // Appends a call to the trace, which has room for it, and consumes its answer.
    #[tactic(auto, using(crate::proofs::Counts::behind_next))]
    fn log(&mut self, done: Done)
        requires { 0 < length self.old.left }
        ensures left { self.new.left ≡ drop 1 self.old.left }
        ensures trace { self.new.trace ≡ self.old.trace ++ done ∷ [] }
    {
        if self.trace.push(done).is_err() {
            unreachable!()
        }
        self.next += 1;
    }
}

impl Helpers for Listed {
    type Record = Sheet;

    ghost trace_of = { λ h. h.trace };

    ghost room_of = { λ h. length h.left };

    ghost has_ring = { λ h ring. true };

    ghost leads = { ListLeads };

    ghost keeps_records = { false };

    ghost keeps = { λ h r. ⊥ };

    ghost name_of = { λ r. (0, 0) };

    ghost kept_written = { λ h r w kept. kept };

    ghost name_stays = { λ r w. refl };

    ghost leads_by_none = { none_called };

    ghost leads_on = { called_on };

    /// Returns a sheet (a buffer) of `n` zero bytes if the next answer is `true` and the sheet can be allocated,
    /// otherwise null.
    fn reserve(&mut self, ring: u32, n: u32, flags: u64) -> Option<Sheet>
        requires room { 0 < length self.old.left }
        ensures trace { self.new.trace ≡ self.old.trace ++ Reserve ring n flags (is_some result) ∷ [] }
        ensures left { self.new.left ≡ drop 1 self.old.left }
        ensures room { length self.new.left + 1 ≡ length self.old.left }
        ensures called { ListLeads self.old (Reserved ring n flags result ∷ []) self.new }
        ensures zeros { IfSome result (λ r. r ≡ replicate n 0) }
        ensures answer { IfSome result (λ _. next_of self.old.left ≡ true) }
    {
        let sheet = if self.next_answer() {
            Sheet::new(self.alloc, n).ok()
        } else {
            None
        };
        self.log(Done::Reserve {
            ring,
            len: n,
            flags,
            granted: sheet.is_some(),
        });
        sheet
    }

    /// Takes the sheet if and only if the next answer is `true`.
    fn submit(&mut self, owned: Sheet, flags: u64) -> Result<(), Sheet>
        requires room { 0 < length self.old.left }
        ensures trace { self.new.trace ≡ self.old.trace ++ Submit flags (is_ok result) ∷ [] }
        ensures left { self.new.left ≡ drop 1 self.old.left }
        ensures room { length self.new.left + 1 ≡ length self.old.left }
        ensures called { ListLeads self.old (Submitted owned flags (is_ok result) ∷ []) self.new }
        ensures handed_back { IfErr result (λ back. back ≡ owned) }
        ensures answer { is_ok result ≡ next_of self.old.left }
    {
        let taken = self.next_answer();
        self.log(Done::Submit { flags, taken });
        if taken { Ok(()) } else { Err(owned) }
    }

    /// Takes the sheet if and only if the next answer is `true`.
    fn discard(&mut self, owned: Sheet, flags: u64) -> Result<(), Sheet>
        requires room { 0 < length self.old.left }
        ensures trace { self.new.trace ≡ self.old.trace ++ Discard flags (is_ok result) ∷ [] }
        ensures left { self.new.left ≡ drop 1 self.old.left }
        ensures room { length self.new.left + 1 ≡ length self.old.left }
        ensures called { ListLeads self.old (Discarded owned flags (is_ok result) ∷ []) self.new }
        ensures handed_back { IfErr result (λ back. back ≡ owned) }
        ensures answer { is_ok result ≡ next_of self.old.left }
    {
        let taken = self.next_answer();
        self.log(Done::Discard { flags, taken });
        if taken { Ok(()) } else { Err(owned) }
    }

    /// Returns 0 if the next answer is `true`, otherwise `-EAGAIN`.
    fn output(&mut self, ring: u32, bytes: &[u8], flags: u64) -> i64
        requires room { 0 < length self.old.left }
        ensures trace { self.new.trace ≡ self.old.trace ++ Output ring (length bytes.now) flags result ∷ [] }
        ensures left { self.new.left ≡ drop 1 self.old.left }
        ensures room { length self.new.left + 1 ≡ length self.old.left }
        ensures called { ListLeads self.old (SentOut ring bytes.now flags result ∷ []) self.new }
        ensures answer { result ≡ output_answer (next_of self.old.left) }
    {
        let answer = if self.next_answer() { 0 } else { -EAGAIN };
        self.log(Done::Output {
            ring,
            len: bytes.len() as u64,
            flags,
            answer,
        });
        answer
    }

    /// Returns 0 for any answer.
    fn query(&mut self, ring: u32, what: u64) -> u64
        requires room { 0 < length self.old.left }
        ensures trace { self.new.trace ≡ self.old.trace ++ Query ring what result ∷ [] }
        ensures left { self.new.left ≡ drop 1 self.old.left }
        ensures room { length self.new.left + 1 ≡ length self.old.left }
        ensures called { ListLeads self.old (Queried ring what result ∷ []) self.new }
        ensures answer { result ≡ 0 }
    {
        self.log(Done::Query {
            ring,
            what,
            answer: 0,
        });
        0
    }

    fn trace(&self) -> &[Done] {
        self.trace.as_slice()
    }

    fn room(&self) -> usize {
        self.answers.len() - self.next
    }
}
