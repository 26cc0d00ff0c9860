//! One ring, for one thread.

ghost use Rattle.std.specs.Prelude.{◌≡◌, ◌≢◌, ◌+◌, ◌<◌, ◌≤◌, ◌↔◌, ◌∷◌, [], ◌++◌, IsErrOf, IsTrue, IfOk, OnOk, OnErr, IfErr, IfSome, IfNone, OnSome, length, replicate};
ghost use Rattle.std.specs.VecDeque.{deque_len, deque_capacity};
ghost use Rattle.std.specs.FinMap.{insert};
ghost use Rattle.rb_history.specs.History.Status.{Busy};
ghost use Rattle.rb_history.specs.Legal.{IsLegal};
ghost use Rattle.rb_history.specs.RingModel.{StandsFor, IsWithinBounds, IsRingSize, IsStartPosition, IsWorkerCount, fresh};
ghost use Rattle.rb_history.specs.Counting.{counts_of};
ghost use Rattle.rb_history.specs.NoticesAndQueries.{IsDue, query_answer};
ghost use Rattle.rb_history.specs.inner.RecordRows.{IsBusyAt};
ghost use Rattle.rb_history.specs.Calls.{Logs, RingHasRoom, HasBusyFront, AllTaken, Takes, Grants, FindsFull, Outputs, Refuses, HoldsReservation, Submits, Discards, Strays, producer_now, consumer_now};

use crate::entry_kinds::is_reserved;
use crate::history_counts::{
    busy_index, discards_in, grants_in, refusals_in, reserved_in, submitted_in,
};
use crate::plain_faults::{PlainOpenFault, Stray};
use crate::plain_reservation::PlainReservation;
use rb_history::{
    AVAIL_DATA, CONS_POS, Counts, Entry, KNOWN_FLAGS, NoGrant, Notice, POSITION_LIMIT, PROD_POS,
    RING_SIZE, RecordState, SetupFault, StoredRecord, Taken, check_setup, notice_for, span,
};
use rb_lend::Sheet;
use std::alloc::Global;
use std::collections::VecDeque;
use std::marker::Model;

/// A ring for one thread, whose records are a plain list (Linux Documentation/bpf/ringbuf.rst), and which keeps its
/// whole history.
///
/// `submit` and `discard` take time linear in the records that were not taken, because they search the list from the
/// front; `counts` takes time linear in the history. The other calls take constant time, apart from a record's bytes
/// and the amortised growth of the lists.
#[derive(Drop)]
pub struct PlainRing {
    size: u64,
    start: u64,
    workers: u32,
    producer: u64,
    consumer: u64,
    history: Vec<Entry>,
    // The number of entries that the current records will still log. The history has spare capacity for them.
    owed: usize,
    // The number of records that each worker was granted.
    serials: Vec<u64>,
    records: VecDeque<StoredRecord>,
}

impl Model for PlainRing {
    ghost use Rattle.rb_history.specs.RingModel.{Ring, contents_code};
    ghost use Rattle.rb_history.specs.contracts.entries.Entry as entry;
    ghost use Rattle.std.specs.Coded.{codes};

    ghost Value = { Ring };

    ghost coded = { Prim.hlevel (codes, contents_code, entry.the_row.coded) };

    ghost use Rattle.rb_for_tests.specs.inner.ListRingBody.{list_ring_shown, ListRingInvariant};

    ghost view = { list_ring_shown };

    ghost invariant = { ListRingInvariant };
}

impl PlainRing {
    /// Returns an empty ring of `size` bytes, whose positions start at `start`, for `workers` workers, or why there is
    /// none. Linear in the workers.
    pub fn new(
        alloc: Global,
        size: u64,
        start: u64,
        workers: u32,
    ) -> Result<PlainRing, PlainOpenFault>
        ensures opened { IfOk result (λ ring. ring ≡ fresh size start workers) }
        ensures size { IsErrOf result (PlainOpenFault.Setup SetupFault.Size) ↔ ¬ IsRingSize size }
        ensures start { IsErrOf result (PlainOpenFault.Setup SetupFault.Start) ↔ (IsRingSize size × ¬ IsStartPosition start) }
        ensures workers { IsErrOf result (PlainOpenFault.Setup SetupFault.Workers) ↔ (IsRingSize size × IsStartPosition start × ¬ IsWorkerCount workers) }
    {
        if let Err(fault) = check_setup(size, start, workers) {
            return Err(PlainOpenFault::Setup(fault));
        }
        let serials = match vec![in alloc; 0; workers as usize] {
            Ok(serials) => serials,
            Err(_) => return Err(PlainOpenFault::Memory),
        };
        Ok(PlainRing {
            size,
            start,
            workers,
            producer: start,
            consumer: start,
            history: Vec::new(alloc),
            owed: 0,
            serials,
            records: VecDeque::new(alloc),
        })
    }

    /// The invariant of every ring: its history is legal, the ring's state represents it, and its numbers are within
    /// bounds. The call does nothing.
    pub fn facts(&self)
        ensures legal { IsLegal self.now.setup self.now.history }
        ensures stands { StandsFor self.now }
        ensures bounded { IsWithinBounds self.now }
    {
        let _ = &self.history;
    }

    /// Returns the whole history since `new`, oldest entry first.
    pub fn history(&self) -> &[Entry]
        ensures entries { result.now ≡ self.now.history }
    {
        self.history.as_slice()
    }

    /// Returns the answer to a query (bpf-helpers(7), bpf_ringbuf_query): `AVAIL_DATA` is the number of bytes between
    /// the two positions; `RING_SIZE`, `CONS_POS` and `PROD_POS` are what they name; any other number gives 0.
    pub fn query(&self, what: u64) -> u64
        ensures answer { result ≡ query_answer self.now.setup self.now.history what }
    {
        match what {
            AVAIL_DATA => self.producer - self.consumer,
            RING_SIZE => self.size,
            CONS_POS => self.consumer,
            PROD_POS => self.producer,
            _ => 0,
        }
    }

    /// Returns the six counts of the history. Linear in the history.
    pub fn counts(&self) -> Counts
        ensures counts { result ≡ counts_of self.now.history }
    {
        let made = grants_in(&self.history);
        let refused = refusals_in(&self.history);
        let discarded = discards_in(&self.history);
        let waiting = submitted_in(&self.records);
        let busy = reserved_in(&self.records);
        Counts {
            made,
            refused,
            consumed: made - busy - waiting - discarded,
            discarded,
            waiting,
            busy,
        }
    }

    /// Grants worker `worker` a record of `n` bytes at the producer position, in a sheet of the same length, which is
    /// zeroed. If there is no room, logs the refusal and hands the sheet back. `Memory` changes nothing and hands the
    /// sheet back too. (bpf-helpers(7), bpf_ringbuf_reserve.)
    pub fn reserve(
        &mut self,
        worker: u32,
        n: u32,
        sheet: Sheet,
    ) -> Result<PlainReservation, (NoGrant, Sheet)>
        requires worker { worker < self.old.setup.workers }
        requires sized { length sheet ≡ n }
        ensures same_ring { self.new.setup ≡ self.old.setup }
        ensures granted { IfOk result (λ r. Grants self.old self.new worker n r.pos r.serial) }
        ensures worker { IfOk result (λ r. r.worker ≡ worker) }
        ensures zeros { IfOk result (λ r. r.bytes ≡ replicate n 0) }
        ensures refused { IfErr result (λ e. Refuses self.old self.new worker n e.0) }
        ensures known_flags { IfErr result (λ e. e.0 ≢ NoGrant.Flags) }
        ensures handed_back { IfErr result (λ e. e.1 ≡ sheet) }
    {
        let mut sheet = sheet;
        match self.grant(worker, n) {
            Err(fault) => Err((fault, sheet)),
            Ok((pos, serial)) => {
                sheet.clear();
                Ok(PlainReservation::new(pos, worker, serial, sheet))
            }
        }
    }

    /// Submits the reservation's bytes to the consumer, or hands the reservation back if no busy record has its four
    /// numbers. Only bits 0 and 1 of the flags are used. Allocates nothing. (bpf-helpers(7), bpf_ringbuf_submit.)
    pub fn submit(&mut self, reservation: PlainReservation, flags: u64) -> Result<Notice, Stray>
        ensures same_ring { self.new.setup ≡ self.old.setup }
        ensures submitted { OnOk result (Submits self.old self.new reservation) }
        ensures notice { IfOk result (λ n. (n ≡ Notice.Due) ↔ IsDue (consumer_now self.old) reservation.pos flags) }
        ensures stray { OnErr result (Strays self.old self.new reservation) }
        ensures handed_back { IfErr result (λ s. s.reservation ≡ reservation) }
    {
        match self.find_busy(&reservation) {
            None => Err(Stray { reservation }),
            Some(index) => {
                let pos = reservation.pos();
                let notice = self.notice(pos, flags);
                self.send(index, pos, reservation.into_sheet());
                Ok(notice)
            }
        }
    }

    /// Discards the reservation's record, so that the consumer skips it, or hands the reservation back if no busy
    /// record has its four numbers. Only bits 0 and 1 of the flags are used. Allocates nothing. (bpf-helpers(7),
    /// bpf_ringbuf_discard.)
    pub fn discard(&mut self, reservation: PlainReservation, flags: u64) -> Result<Notice, Stray>
        ensures same_ring { self.new.setup ≡ self.old.setup }
        ensures discarded { OnOk result (Discards self.old self.new reservation) }
        ensures notice { IfOk result (λ n. (n ≡ Notice.Due) ↔ IsDue (consumer_now self.old) reservation.pos flags) }
        ensures stray { OnErr result (Strays self.old self.new reservation) }
        ensures handed_back { IfErr result (λ s. s.reservation ≡ reservation) }
    {
        match self.find_busy(&reservation) {
            None => Err(Stray { reservation }),
            Some(index) => {
                let pos = reservation.pos();
                let notice = self.notice(pos, flags);
                self.give_up(index, pos, reservation.len());
                Ok(notice)
            }
        }
    }

    /// Grants worker `worker` a record and submits it in the same call, with the sheet's bytes. Unknown flags are
    /// refused first, without an entry; otherwise it refuses as `reserve` does. A refusal hands the sheet back.
    /// (bpf-helpers(7), bpf_ringbuf_output.)
    pub fn output(
        &mut self,
        worker: u32,
        sheet: Sheet,
        flags: u64,
    ) -> Result<Notice, (NoGrant, Sheet)>
        requires worker { worker < self.old.setup.workers }
        ensures same_ring { self.new.setup ≡ self.old.setup }
        ensures granted { OnOk result (Outputs self.old self.new worker sheet) }
        ensures notice { IfOk result (λ n. (n ≡ Notice.Due) ↔ IsDue (consumer_now self.old) (producer_now self.old) flags) }
        ensures known_flags { OnOk result (flags ≤ KNOWN_FLAGS) }
        ensures flags { IfErr result (λ e. (e.0 ≡ NoGrant.Flags) ↔ (KNOWN_FLAGS < flags)) }
        ensures refused { IfErr result (λ e. Refuses self.old self.new worker (length sheet) e.0) }
        ensures handed_back { IfErr result (λ e. e.1 ≡ sheet) }
    {
        if flags > KNOWN_FLAGS {
            return Err((NoGrant::Flags, sheet));
        }
        let index = self.records.len();
        let notice = self.notice(self.producer(), flags);
        match self.grant(worker, sheet.len()) {
            Err(fault) => Err((fault, sheet)),
            Ok((pos, _)) => {
                self.send(index, pos, sheet);
                Ok(notice)
            }
        }
    }

    /// Takes the record at the consumer position: returns a submitted record and skips a discarded one. A busy record
    /// stops it, whatever is waiting after it. Allocates nothing. (Linux Documentation/bpf/ringbuf.rst: records are
    /// consumed in the order of their reservation.)
    pub fn take(&mut self) -> Taken
        ensures same_ring { self.new.setup ≡ self.old.setup }
        ensures takes { Takes self.old self.new result }
        ensures busy_front { (result ≡ Taken.BusyFront) ↔ HasBusyFront self.old }
        ensures empty { (result ≡ Taken.Empty) ↔ AllTaken self.old }
    {
        if self.records.is_empty() {
            return Taken::Empty;
        }
        if is_reserved(&self.records[0]) {
            return Taken::BusyFront;
        }
        let Some(record) = self.records.pop_front() else {
            unreachable!()
        };
        self.history.push_reserved(Entry::Take(record.pos));
        self.owed -= 1;
        self.consumer += span(record.len);
        record.taken()
    }

    // Whether the room rule holds for a record of `n` bytes.
    fn has_room(&self, n: u32) -> bool
        ensures test { IsTrue result ↔ RingHasRoom self.now n }
    {
        let end = self.producer + span(n);
        end <= self.consumer + (self.size - 1) && end <= POSITION_LIMIT
    }

    // Logs that there is no room. Allocates capacity for that one entry.
    fn refuse(&mut self, worker: u32, n: u32) -> NoGrant
        requires worker { worker < self.old.setup.workers }
        requires full { ¬ RingHasRoom self.old n }
        ensures same_ring { self.new.setup ≡ self.old.setup }
        ensures refused { Refuses self.old self.new worker n result }
        ensures known_flags { result ≢ NoGrant.Flags }
    {
        if self.history.reserve(self.owed + 1).is_err() {
            return NoGrant::Memory;
        }
        self.history.push_reserved(Entry::Full(worker, n));
        NoGrant::Full
    }

    // Grants a busy record of `n` bytes, or logs that there is no room. First reserves capacity for all entries that
    // the record will ever log, and for the record itself.
    fn grant(&mut self, worker: u32, n: u32) -> Result<(u64, u64), NoGrant>
        requires worker { worker < self.old.setup.workers }
        ensures same_ring { self.new.setup ≡ self.old.setup }
        ensures granted { IfOk result (λ g. Grants self.old self.new worker n g.0 g.1) }
        ensures shown { IfOk result (λ g. self.new.shown ≡ self.old.shown ++ (record { pos = g.0; len = n; worker = worker; serial = g.1; status = Busy }) ∷ []) }
        ensures refused { IfErr result (λ e. Refuses self.old self.new worker n e) }
        ensures known_flags { IfErr result (λ e. e ≢ NoGrant.Flags) }
    {
        if !self.has_room(n) {
            return Err(self.refuse(worker, n));
        }
        if self.history.reserve(self.owed + 3).is_err() || self.records.reserve(1).is_err() {
            return Err(NoGrant::Memory);
        }
        let pos = self.producer;
        let serial = self.serials[worker as usize];
        self.serials[worker as usize] = serial + 1;
        self.history
            .push_reserved(Entry::Res(worker, serial, n, pos));
        let newest = StoredRecord {
            pos,
            len: n,
            worker,
            serial,
            state: RecordState::Reserved,
        };
        push_last(&mut self.records, newest);
        self.owed += 2;
        self.producer = pos + span(n);
        Ok((pos, serial))
    }

    // Submits the busy record at an index with these bytes.
    fn send(&mut self, index: usize, pos: u64, sheet: Sheet)
        requires { IsBusyAt self.old.shown index pos (length sheet) }
        ensures logged { Logs self.old self.new (Entry.Sub pos ∷ []) }
        ensures contents { self.new.contents ≡ insert self.old.contents pos sheet }
    {
        self.records[index].state = RecordState::Submitted(sheet);
        self.history.push_reserved(Entry::Sub(pos));
        self.owed -= 1;
    }

    // Discards the busy record at an index.
    fn give_up(&mut self, index: usize, pos: u64, len: u32)
        requires { IsBusyAt self.old.shown index pos len }
        ensures logged { Logs self.old self.new (Entry.Dis pos ∷ []) }
        ensures contents { self.new.contents ≡ self.old.contents }
    {
        self.records[index].state = RecordState::Discarded;
        self.history.push_reserved(Entry::Dis(pos));
        self.owed -= 1;
    }

    // Returns whether a notice (a wake-up) is due for the record at `pos`.
    fn notice(&self, pos: u64, flags: u64) -> Notice
        ensures due { (result ≡ Notice.Due) ↔ IsDue (consumer_now self.now) pos flags }
    {
        notice_for(self.consumer, pos, flags)
    }

    fn producer(&self) -> u64
        ensures value { result ≡ producer_now self.now }
    {
        self.producer
    }

    // Returns the index of the reservation's record in the list, if it is busy.
    fn find_busy(&self, reservation: &PlainReservation) -> Option<usize>
        ensures found { IfSome result (λ i. IsBusyAt self.now.shown i reservation.now.pos (length reservation.now.bytes)) }
        ensures busy { OnSome result (HoldsReservation self.now reservation.now) }
        ensures none { IfNone result (¬ HoldsReservation self.now reservation.now) }
    {
        busy_index(&self.records, reservation)
    }
}

// Appends a record. There is room for it.
fn push_last(records: &mut VecDeque<StoredRecord>, newest: StoredRecord)
    requires { deque_len records.old < deque_capacity records.old }
    ensures items { records.new.items ≡ records.old.items ++ newest ∷ [] }
{
    if records.push_back(newest).is_err() {
        unreachable!()
    }
}
