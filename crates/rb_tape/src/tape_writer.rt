//! A writer of a tape.

use crate::begun_record::Begun;
use crate::failures::Failures;
use crate::item::Item;
use crate::items::Items;
use crate::piece::write_from;
use rb_history::span;
use rb_io::{DeviceFault, Outgoing};
use std::io::Write;
use std::marker::Model;

/// Writes records to an underlying writer as a tape, one after the other. No call allocates.
///
/// Each call writes a record in a few parts, so the underlying writer should be a buffered one; flush it at the end.
#[derive(Drop)]
pub struct TapeWriter<W> {
    writer: W,
    size: u64,
    position: u64,
    // The number of bytes of the last record that were written.
    sent: u64,
    // The last record, if some of its bytes are still to be written.
    unfinished: Option<Begun>,
    // The number of failed calls.
    failures: Failures,
}

impl<W> Model for TapeWriter<W> {
    ghost use Rattle.std.specs.Prelude.{◌<◌, IfSome, option_map};
    ghost use Rattle.rb_history.specs.TapeBytes.{item_span, IsItemAt};
    ghost use Rattle.rb_history.specs.RingModel.{IsRingSize};
    ghost use Rattle.rb_tape.specs.TapeOutput.{TapeOutput};

    ghost Value = { TapeOutput W };

    ghost view = { λ t. record { writer = t.writer; size = t.size; position = t.position; sent = t.sent; unfinished = option_map (λ b. b.item) t.unfinished; failures = t.failures.count } };

    ghost invariant = { λ t. IsRingSize t.size × IfSome t.unfinished (λ b. IsItemAt t.size t.position b.item × (t.sent < item_span b.item)) };
}

impl<W: Write> TapeWriter<W> {
    ghost use Rattle.std.specs.Prelude.{◌≡◌, ◌<◌, ◌≤◌, ◌+◌, [], None, Some, is_ok, if◌then◌else◌, take, drop, OnOk, OnErr, IfErr};
    ghost use Rattle.std.specs.Io.KnownBytes.{Appends};
    ghost use Rattle.rb_history.specs.TapeBytes.{item_bytes, item_span, tape, end_of, IsItemAt, AreItemsFrom};
    ghost use Rattle.rb_history.specs.RingModel.{IsRingSize, IsStartPosition};
    ghost use Rattle.rb_tape.specs.Items.{item_of, tape_items, sent_after};
    ghost use Rattle.rb_tape.specs.TapeCalls.{failures_after, fresh_tape, MakesTapeCall, PutsAll};
    ghost use Rattle.rb_tape.specs.TapeCalls.TapeCall.{Put, Resume};
    ghost use Rattle.rb_tape.specs.TapeOutput.{StopsWithin};

    /// Returns a writer for the tape of a ring of `size` bytes whose first record is at `start`. Nothing is written
    /// yet.
    pub fn new(writer: W, size: u64, start: u64) -> TapeWriter<W>
        requires size { IsRingSize size }
        requires start { IsStartPosition start }
        ensures value { result ≡ fresh_tape writer size start }
    {
        TapeWriter {
            writer,
            size,
            position: start,
            sent: 0,
            unfinished: None,
            failures: Failures::none(),
        }
    }

    /// Writes one record: its header, its bytes, and zeros up to a multiple of eight.
    ///
    /// It stops at the first write that fails or accepts nothing. The record is then unfinished: `sent` returns how
    /// many of its bytes were written, and `resume` writes the rest. The position advances once the record is complete.
    pub fn put(&mut self, item: &Item<'_>) -> Result<(), DeviceFault>
        requires finished { self.old.unfinished ≡ None }
        requires stands { IsItemAt self.old.size self.old.position (item_of item.now) }
        ensures bytes { Appends (W.contents self.old.writer) (W.contents self.new.writer) (take self.new.sent (item_bytes self.old.size (item_of item.now))) }
        ensures all_sent { OnOk result (self.new.sent ≡ item_span (item_of item.now)) }
        ensures not_all_sent { OnErr result (self.new.sent < item_span (item_of item.now)) }
        ensures unfinished { self.new.unfinished ≡ (if is_ok result then None else Some (item_of item.now)) }
        ensures failures { self.new.failures ≡ failures_after self.old.failures (is_ok result) }
        ensures size { self.new.size ≡ self.old.size }
        ensures position { self.new.position ≡ (if is_ok result then self.old.position + item_span (item_of item.now) else self.old.position) }
        ensures call { MakesTapeCall W.contents self.old (Put (item_of item.now)) (is_ok result) self.new }
    {
        self.write_on(item, 0)
    }

    /// Writes the records that are left in `items`, one after the other, each as `put` does.
    ///
    /// It stops at the first write that fails or accepts nothing; the error is the record that is then unfinished.
    /// `items` keeps the records after it, which can be written once `resume` has written the rest of the unfinished
    /// one.
    pub fn put_all<'a>(&mut self, items: &mut Items<'a>) -> Result<(), Item<'a>>
        requires finished { self.old.unfinished ≡ None }
        requires stand { AreItemsFrom self.old.size self.old.position (tape_items items.old) }
        ensures none_left { OnOk result (items.new ≡ []) }
        ensures bytes { OnOk result (Appends (W.contents self.old.writer) (W.contents self.new.writer) (tape self.old.size (tape_items items.old))) }
        ensures position { OnOk result (self.new.position ≡ end_of self.old.position (tape_items items.old)) }
        ensures sent { OnOk result (self.new.sent ≡ sent_after self.old.sent (tape_items items.old)) }
        ensures stops { IfErr result (λ item. StopsWithin W W.contents self.old self.new items.old items.new item) }
        ensures not_all_sent { IfErr result (λ item. self.new.sent < item_span (item_of item)) }
        ensures stands { IfErr result (λ item. IsItemAt self.new.size self.new.position (item_of item)) }
        ensures rest { IfErr result (λ item. AreItemsFrom self.new.size (self.new.position + item_span (item_of item)) (tape_items items.new)) }
        ensures finished { OnOk result (self.new.unfinished ≡ None) }
        ensures unfinished { IfErr result (λ item. self.new.unfinished ≡ Some (item_of item)) }
        ensures failures { self.new.failures ≡ failures_after self.old.failures (is_ok result) }
        ensures size { self.new.size ≡ self.old.size }
        ensures call { PutsAll W.contents self.old (tape_items items.old) (tape_items items.new) (is_ok result) self.new }
    {
        while let Some(item) = items.next() {
            if self.put(&item).is_err() {
                return Err(item);
            }
        }
        Ok(())
    }

    /// Writes the remaining bytes of the unfinished record, which `item` must be. It stops as `put` does, and may then
    /// be called again.
    pub fn resume(&mut self, item: &Item<'_>) -> Result<(), DeviceFault>
        requires unfinished { self.old.unfinished ≡ Some (item_of item.now) }
        ensures bytes { Appends (W.contents self.old.writer) (W.contents self.new.writer) (drop self.old.sent (take self.new.sent (item_bytes self.old.size (item_of item.now)))) }
        ensures more { self.old.sent ≤ self.new.sent }
        ensures all_sent { OnOk result (self.new.sent ≡ item_span (item_of item.now)) }
        ensures not_all_sent { OnErr result (self.new.sent < item_span (item_of item.now)) }
        ensures unfinished { self.new.unfinished ≡ (if is_ok result then None else Some (item_of item.now)) }
        ensures failures { self.new.failures ≡ failures_after self.old.failures (is_ok result) }
        ensures size { self.new.size ≡ self.old.size }
        ensures position { self.new.position ≡ (if is_ok result then self.old.position + item_span (item_of item.now) else self.old.position) }
        ensures call { MakesTapeCall W.contents self.old (Resume (item_of item.now)) (is_ok result) self.new }
    {
        self.write_on(item, self.sent)
    }

    #[inline(always)]
    // Writes the record from its byte `from`.
    fn write_on(&mut self, item: &Item<'_>, from: u64) -> Result<(), DeviceFault>
        requires stands { IsItemAt self.old.size self.old.position (item_of item.now) }
        requires from { from < item_span (item_of item.now) }
        ensures bytes { Appends (W.contents self.old.writer) (W.contents self.new.writer) (drop from (take self.new.sent (item_bytes self.old.size (item_of item.now)))) }
        ensures more { from ≤ self.new.sent }
        ensures all_sent { OnOk result (self.new.sent ≡ item_span (item_of item.now)) }
        ensures not_all_sent { OnErr result (self.new.sent < item_span (item_of item.now)) }
        ensures unfinished { self.new.unfinished ≡ (if is_ok result then None else Some (item_of item.now)) }
        ensures failures { self.new.failures ≡ failures_after self.old.failures (is_ok result) }
        ensures size { self.new.size ≡ self.old.size }
        ensures position { self.new.position ≡ (if is_ok result then self.old.position + item_span (item_of item.now) else self.old.position) }
    {
        let sent = write_from(&mut self.writer, self.size, item, from);
        let span = span(item.len());
        self.sent = sent;
        if sent < span {
            self.unfinished = Some(Begun::of(item));
            self.failures = Failures::and_one(&self.failures);
            return Err(DeviceFault);
        }
        self.unfinished = None;
        self.position += span;
        Ok(())
    }

    /// Returns how many bytes of the last record were written; 0 before the first record.
    pub fn sent(&self) -> u64
        ensures value { result ≡ self.now.sent }
    {
        self.sent
    }

    /// Returns the position of the next record, or of the unfinished one.
    pub fn position(&self) -> u64
        ensures value { result ≡ self.now.position }
    {
        self.position
    }

    /// Returns a reference to the underlying writer.
    pub fn writer(&self) -> &W
        ensures value { result.now ≡ self.now.writer }
    {
        &self.writer
    }

    /// Returns the underlying writer, with what was written to it.
    pub fn into_writer(self) -> W
        ensures value { result ≡ self.writer }
    {
        self.writer
    }
}

impl<W: Outgoing> TapeWriter<W> {
    ghost use Rattle.std.specs.Prelude.{◌≡◌, [], None, is_ok, OnOk};
    ghost use Rattle.std.specs.Io.KnownBytes.{Keeps};
    ghost use Rattle.rb_tape.specs.TapeCalls.{failures_after, MakesTapeCall};
    ghost use Rattle.rb_tape.specs.TapeCalls.TapeCall.{WriteOut};

    /// Passes on the bytes that wait in the underlying writer, as `Outgoing::write_out` does. May be called again after
    /// an error.
    pub fn write_out(&mut self) -> Result<(), DeviceFault>
        requires finished { self.old.unfinished ≡ None }
        ensures bytes { Keeps (W.contents self.old.writer) (W.contents self.new.writer) }
        ensures nothing_waits { OnOk result (W.waiting self.new.writer ≡ []) }
        ensures called { W.writes_out self.old.writer (is_ok result) self.new.writer }
        ensures unfinished { self.new.unfinished ≡ None }
        ensures failures { self.new.failures ≡ failures_after self.old.failures (is_ok result) }
        ensures size { self.new.size ≡ self.old.size }
        ensures position { self.new.position ≡ self.old.position }
        ensures sent { self.new.sent ≡ self.old.sent }
        ensures call { MakesTapeCall W.contents self.old WriteOut (is_ok result) self.new }
    {
        if self.writer.write_out().is_ok() {
            return Ok(());
        }
        self.failures = Failures::and_one(&self.failures);
        Err(DeviceFault)
    }
}
