//! Passing one payload through the ring.

ghost use Rattle.std.specs.Prelude.{◌≡◌, ◌<◌, IfOk, IfErr, length};
ghost use Rattle.rb_history.specs.Span.{span};
ghost use Rattle.rb_chapter_ring.specs.ChapterRoom.{MayGrant};
ghost use Rattle.rb_chapter_ring.specs.ChapterCalls.{AllTakenByChapter, producer_by_chapter};
ghost use Rattle.rb_tape_commands.specs.Transfer.{MovesOn, IsRefusal};

use crate::feed_fault::FeedFault;
use rb_chapter_ring::{ReserveFault, RingState};
use rb_history::Taken;
use rb_lend::Sheet;

/// Outputs the payload with this number to a ring in which every record was taken, and takes it. Returns its position
/// and its bytes.
pub(crate) fn transfer_payload(
    ring: &mut RingState,
    payload: Sheet,
    number: u64,
) -> Result<(u64, Sheet), FeedFault>
    requires all_taken { AllTakenByChapter ring.old.state.ring }
    requires chapter_room { MayGrant ring.old.state.ring.chapter }
    requires worker { 0 < ring.old.state.ring.chapter.opening.setup.workers }
    requires room { span (length payload) < ring.old.state.ring.chapter.opening.setup.size }
    ensures moves_on { IfOk result (λ r. MovesOn ring.old.state.ring ring.new.state.ring (length payload)) }
    ensures position { IfOk result (λ r. r.0 ≡ producer_by_chapter ring.old.state.ring) }
    ensures bytes { IfOk result (λ r. r.1 ≡ payload) }
    ensures refused { IfErr result (IsRefusal (producer_by_chapter ring.old.state.ring) number (length payload)) }
{
    ring.facts();
    match ring.output(0, payload, 0) {
        Ok(_) => {}
        // The chapter has room for a grant, so it is the ring that has none, whether or not the refusal could be
        // logged.
        Err((ReserveFault::Full | ReserveFault::ChapterFull, _)) => {
            return Err(FeedFault::Fit(number));
        }
        Err((ReserveFault::Flags | ReserveFault::Foreign | ReserveFault::HandsFull, _)) => {
            unreachable!()
        }
    }
    match ring.take() {
        Taken::Event(position, _, _, payload) => Ok((position, payload)),
        Taken::Skipped(..) | Taken::BusyFront | Taken::Empty => unreachable!(),
    }
}
