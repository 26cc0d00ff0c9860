//! Tapes of a writer that fails in the middle of a record.

ghost use Rattle.std.specs.Prelude.{◌≡◌};
ghost use Rattle.rb_history.specs.TapeBytes.{AreItemsFrom};
ghost use Rattle.rb_tape.specs.Items.{tape_items};

use super::rings_with_seats::{ROOM, discarded, granted, one_seat, output};
use crate::expected::same_of;
use rb_consumer::Batch;
use rb_io::DeviceFault;
use rb_shared_ring::{Seat, SharedRing};
use rb_tape::{Event, Item, TapeWriter};
use std::alloc::Global;
use std::io;
use std::io::{Error, ErrorKind, Write};
use std::process::Abort;
use std::sync::Wait;

// An in-memory writer that accepts one byte per write, and fails once, at this write. Writes count from 1.
#[derive(Drop)]
struct OneByteWriter {
    taken: Vec<u8>,
    writes: u32,
    fails_at: u32,
    takes_nothing: bool,
}

impl OneByteWriter {
    fn new(alloc: Global, fails_at: u32, takes_nothing: bool) -> OneByteWriter {
        OneByteWriter {
            taken: Vec::new(alloc),
            writes: 0,
            fails_at,
            takes_nothing,
        }
    }
}

impl Write for OneByteWriter {
    fn write(&mut self, buf: &[u8]) -> io::Result<usize> {
        self.writes = self.writes.wrapping_add(1);
        if self.writes == self.fails_at {
            if self.takes_nothing {
                return Ok(0);
            }
            return Err(Error::from(ErrorKind::Interrupted));
        }
        match buf.first() {
            None => Ok(0),
            Some(byte) => {
                self.taken.push(*byte)?;
                Ok(1)
            }
        }
    }

    fn flush(&mut self) -> io::Result<()> {
        Ok(())
    }
}

// How much of the last record a tape sent, the tape's position, and the bytes that its writer accepted.
type Sent = (u64, u64, Vec<u8>);

// Returns the tape's numbers and bytes.
fn sent_by(tape: TapeWriter<OneByteWriter>) -> Sent {
    (tape.sent(), tape.position(), tape.into_writer().taken)
}

// The tape of one record of eight bytes.
const RECORD: [u8; 16] = [8, 0, 0, 0, 0, 0, 0, 0, 0x2a, 0, 0, 0, 0, 0, 0, 0];

// Puts the record with this writer, and resumes it. Returns both answers, the numbers between them, and what was sent.
fn resumed(
    writer: OneByteWriter,
) -> (
    (Result<(), DeviceFault>, (u64, u64), Result<(), DeviceFault>),
    Sent,
) {
    let item = Item::Event(Event {
        pos: 0,
        worker: 0,
        serial: 0,
        bytes: &RECORD[8..],
    });
    let mut tape = TapeWriter::new(writer, 4096, 0);
    let put = tape.put(&item);
    let between = (tape.sent(), tape.position());
    let resumed = if tape.sent() < 16 {
        tape.resume(&item)
    } else {
        put
    };
    ((put, between, resumed), sent_by(tape))
}

#[test]
fn an_unfinished_record_is_resumed(rt: HostRuntime) {
    for takes_nothing in &[false, true] {
        for fails_at in 1..=16 {
            let writer = OneByteWriter::new(rt.alloc(), fails_at, *takes_nothing);
            let (answers, (sent, position, taken)) = resumed(writer);
            same_of(
                &rt,
                &(answers, (sent, position, taken.as_slice())),
                &(
                    (Err(DeviceFault), (u64::from(fails_at) - 1, 0), Ok(())),
                    (16, 16, RECORD.as_slice()),
                ),
                &(fails_at, takes_nothing),
            );
        }
    }
}

// The tape of two records of eight bytes: one submitted, one discarded.
const TWO_RECORDS: [u8; 32] = [
    8, 0, 0, 0, 0, 0, 0, 0, 7, 7, 7, 7, 7, 7, 7, 7, 8, 0, 0, 0x40, 0, 0, 0, 0, 0, 0, 0, 0, 0, 0, 0,
    0,
];

// Writes a batch as a tape with a writer that fails at most once, and resumes after the record that is then unfinished.
fn written(rt: &impl Abort, batch: &Batch, writer: OneByteWriter) -> TapeWriter<OneByteWriter>
    requires { AreItemsFrom 4096 0 (tape_items batch.now.taken) }
{
    let mut tape = TapeWriter::new(writer, 4096, 0);
    let mut items = batch.items();
    if let Err(item) = tape.put_all(&mut items) {
        let Ok(()) = tape.resume(&item) else {
            rt.panic("the record stays unfinished");
        };
        let Ok(()) = tape.put_all(&mut items) else {
            rt.panic("another record is unfinished");
        };
    }
    tape
}

// Outputs a record of eight bytes, and discards another.
fn output_and_discard<R: Wait + Abort>(rt: &R, alloc: Global, ring: &SharedRing, seat: &mut Seat)
    requires { seat.old.ring ≡ ring.now.ring }
{
    output(rt, alloc, ring, seat, 8, 7);
    let given_up = granted(rt, alloc, ring, seat, 8);
    discarded(rt, ring, seat, given_up);
}

// Returns a batch of the two records, taken from a ring.
fn two_records<R: Wait + Abort>(rt: &R, alloc: Global) -> Batch
    ensures { AreItemsFrom 4096 0 (tape_items result.taken) }
{
    let (ring, mut seat, mut consumer) = one_seat(rt, alloc, 1, ROOM);
    output_and_discard(rt, alloc, &ring, &mut seat);
    let mut batch = Batch::with_capacity(alloc, 64).expect(rt, "memory");
    let Ok(2) = batch.fill(rt, &ring, &mut consumer) else {
        rt.panic("not both records");
    };
    batch
}

#[test]
fn a_batch_is_written_as_a_tape(rt: HostRuntime) {
    let batch = two_records(&rt, rt.alloc());
    for fails_at in 1..=33 {
        let writer = OneByteWriter::new(rt.alloc(), fails_at, false);
        let (sent, position, taken) = sent_by(written(&rt, &batch, writer));
        same_of(
            &rt,
            &(sent, position, taken.as_slice()),
            &(16, 32, TWO_RECORDS.as_slice()),
            &fails_at,
        );
    }
}
