//! The ring that threads shared, closed and bound.

ghost use Rattle.std.specs.Prelude.{◌≡◌, ◌∷◌, [], IfSome};

use super::memory::TRIES;
use crate::fault::TrialFault;
use crate::fields::{end_line, print_field};
use rb_chapter_ring::Chapter;
use rb_for_tests::OpenRing;
use rb_history::Counts;
use rb_shared_ring::{BindFault, Closing, NotAll, Seat};
use std::alloc::Global;
use std::io::Print;
use std::sync::Wait;

/// Closes the ring: it is not closed with one of its two seats, and is closed with both. The list has room for them.
pub(crate) fn close<R: Wait + Print>(
    rt: &R,
    opened: OpenRing,
    zero: Seat,
    one: Seat,
) -> Option<Closing>
    requires zero { zero.ring ≡ opened.ring.ring }
    requires one { one.ring ≡ opened.ring.ring }
    requires consumer { opened.consumer.ring ≡ opened.ring.ring }
{
    let back = not_closed(rt, opened, zero)?;
    let (ring, mut seats, consumer) = (back.ring, back.seats, back.consumer);
    print_field(rt, "close: not all with ", &seats.len());
    print_field(rt, " seat", &"\n");
    if seats.push(one).is_err() {
        return None;
    }
    ring.close(rt, seats, consumer).ok()
}

// Checks that the ring is not closed with one seat alone, and returns the ring and its seats.
fn not_closed<R: Wait>(rt: &R, opened: OpenRing, zero: Seat) -> Option<NotAll>
    requires zero { zero.ring ≡ opened.ring.ring }
    requires consumer { opened.consumer.ring ≡ opened.ring.ring }
    ensures ring { IfSome result (λ back. back.ring ≡ opened.ring) }
    ensures seats { IfSome result (λ back. back.seats.items ≡ zero ∷ []) }
    ensures consumer { IfSome result (λ back. back.consumer ≡ opened.consumer) }
{
    let mut seats = opened.seats;
    seats.clear();
    if seats.push(zero).is_err() {
        return None;
    }
    opened.ring.close(rt, seats, opened.consumer).err()
}

/// Binds the chapters to one history, and prints the counts of its records.
pub(crate) fn bind<R: Print>(
    rt: &R,
    alloc: Global,
    closing: Closing,
    chapters: Vec<Chapter>,
) -> Result<(), TrialFault> {
    let (mut closing, mut chapters) = (closing, chapters);
    tell_closing(rt, "close", &closing, chapters.len());
    for _ in 0..TRIES {
        match closing.bind(alloc, chapters) {
            Ok(whole) => {
                print_field(rt, "bind: ", &whole.history().len());
                print_field(rt, " entries", &"\n");
                tell_sum(rt, whole.closing().counts());
                return Ok(());
            }
            Err((BindFault::Memory, back, handed)) => {
                closing = back;
                chapters = handed;
            }
            Err(_) => return Err(TrialFault::Otherwise("bind")),
        }
        tell_closing(rt, "bind memory", &closing, chapters.len());
    }
    Err(TrialFault::Twice("bind"))
}

// Prints the state of the closed ring, and how many chapters there are besides its last.
fn tell_closing<R: Print>(rt: &R, call: &str, closing: &Closing, chapters: usize) {
    print_field(rt, call, &":");
    print_field(rt, " producer ", &closing.producer());
    print_field(rt, " consumer ", &closing.consumer());
    print_field(rt, " chapter ", &closing.chapter().number());
    print_field(rt, " beside ", &chapters);
    end_line(rt);
}

// Prints the counts of the granted records.
fn tell_sum<R: Print>(rt: &R, counts: Counts) {
    print_field(rt, "made ", &counts.made);
    print_field(rt, " = consumed ", &counts.consumed);
    print_field(rt, " + discarded ", &counts.discarded);
    print_field(rt, " + waiting ", &counts.waiting);
    print_field(rt, " + busy ", &counts.busy);
    end_line(rt);
}
