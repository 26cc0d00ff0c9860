//! The reader, which deals pieces to the lanes as they arrive.

ghost use Rattle.std.specs.Prelude.{◌≡◌, ◌<◌, ◌≤◌, ◌^◌, [], ◌∷◌, IfErr, IfOk, IfSome, Some, length};
ghost use Rattle.rb_source.specs.Piece.{empty_piece as no_contexts};
ghost use Rattle.rb_dealing.specs.Dealt.{DealtPiece};
ghost use Rattle.rb_dealing.specs.Streams.{IsEndOf};
ghost use Rattle.rb_dealing.specs.inner.Feeds.{DealsGiven, DealsPiece, Fed};

use crate::idle::Idle;
use crate::lane::LaneFeed;
use rb_source::{Filled, Piece, Source, SourceFault};
use rtrb::PushError;
use std::alloc::Global;
use std::sync::Wait;
use std::sync::atomic::{AtomicBool, AtomicU64, Ordering};

/// What happens to a piece if the queues of all workers are full.
#[derive(Clone, Copy, Debug, PartialEq, Eq)]
pub enum Late {
    /// The reader waits until a queue has room. A pipe then fills up, and its writer waits, too (back-pressure).
    Block,
    /// The piece is dropped, and its contexts are counted.
    Drop,
}

/// The reason why a reader ended.
#[derive(Clone, Copy, Debug, PartialEq, Eq)]
pub enum DealEnd {
    /// The source has ended.
    Over,
    /// A piece could not be allocated.
    Memory,
    /// The source failed.
    Failed(SourceFault),
    /// A worker could not continue.
    Short,
}

/// The counts of what a reader has dealt, and why it ended. Each count saturates at `u64::MAX`.
#[derive(Clone, Copy, Debug, PartialEq, Eq)]
pub struct Dealt {
    /// The number of contexts that the source gave.
    pub contexts: u64,
    /// How many of them were dropped.
    pub dropped: u64,
    /// Why the reader ended.
    pub end: DealEnd,
}

// What a reader has dealt so far, and the lane that it tries first for the next piece.
#[derive(Clone, Copy)]
pub(crate) struct Dealing<'d> {
    pub(crate) contexts: u64,
    pub(crate) dropped: u64,
    // Where other threads see how many were dropped.
    pub(crate) live_dropped: &'d AtomicU64,
    pub(crate) next: usize,
}

// Pushes a piece to the first lane that has room for it, from `next` on, wakes the lane up, and returns its index; or
// returns the piece if no lane has room.
fn offer(feeds: &mut [LaneFeed], next: usize, piece: Piece) -> Result<usize, Piece>
    ensures dealt { IfOk result (λ at. (at < length feeds.old) × Fed feeds.old (record { contexts = piece.contexts; worker = Some at } ∷ []) feeds.new) }
    ensures full { IfErr result (λ back. (back ≡ piece) × Fed feeds.old [] feeds.new) }
{
    let mut piece = piece;
    for step in 0..feeds.len() {
        let at = next.wrapping_add(step) % feeds.len();
        match feeds[at].pieces.push(piece) {
            Ok(()) => {
                feeds[at].parker.unpark();
                return Ok(at);
            }
            Err(PushError::Full(back)) => piece = back,
        }
    }
    Err(piece)
}

// Deals a piece to a lane, or to none if all are full and pieces may be dropped. Returns a piece that was dropped.
fn deal_piece<R: Wait>(
    rt: &R,
    feeds: &mut [LaneFeed],
    late: Late,
    dealing: &mut Dealing<'_>,
    piece: Piece,
) -> Option<Piece>
    requires count { dealing.old.dropped < 2 ^ 64 }
    ensures dealt { DealsPiece piece.contexts feeds.old feeds.new dealing.old dealing.new }
    ensures back { IfSome result (λ back. back ≡ piece) }
{
    let count = piece.len() as u64;
    dealing.contexts = dealing.contexts.saturating_add(count);
    let mut idle = Idle::new();
    let mut piece = piece;
    for _ in rt.forever() {
        match offer(feeds, dealing.next, piece) {
            Ok(at) => {
                dealing.next = at.saturating_add(1);
                return None;
            }
            Err(back) => {
                if late == Late::Drop {
                    dealing.dropped = dealing.dropped.saturating_add(count);
                    dealing
                        .live_dropped
                        .store(dealing.dropped, Ordering::SeqCst);
                    return Some(back);
                }
                piece = back;
            }
        }
        idle.wait(rt);
    }
    unreachable!()
}

// Returns an empty piece: one that a lane has run, or else a new one. Returns `None` if it can't be allocated.
fn empty_piece(alloc: Global, feeds: &mut [LaneFeed], ctx_len: u32) -> Option<Piece>
    requires bound { ctx_len ≤ 65536 }
    ensures fed { Fed feeds.old [] feeds.new }
    ensures empty { IfSome result (λ piece. piece ≡ no_contexts ctx_len) }
{
    for at in 0..feeds.len() {
        if let Ok(mut piece) = feeds[at].used.pop()
            && piece.ctx_len() == ctx_len
        {
            piece.clear();
            return Some(piece);
        }
    }
    Piece::new(alloc, ctx_len).ok()
}

/// Deals the contexts of the source to the lanes, until the source ends or fails, a piece can't be allocated, or a
/// worker can't continue.
pub(crate) fn deal<R: Wait, I: Source>(
    rt: &R,
    alloc: Global,
    source: &mut I,
    late: Late,
    feeds: &mut [LaneFeed],
    short: &AtomicBool,
    dealing: &mut Dealing<'_>,
) -> DealEnd
    requires fresh { (dealing.old.contexts ≡ 0) × (dealing.old.dropped ≡ 0) }
    ensures dealt { DealsGiven I.gives source.old source.new feeds.old feeds.new dealing.old dealing.new }
    ensures end { IsEndOf I.is_over I.fails source.new result }
{
    for _ in rt.forever() {
        if short.load(Ordering::SeqCst) {
            return DealEnd::Short;
        }
        let Some(mut piece) = empty_piece(alloc, feeds, source.ctx_len()) else {
            return DealEnd::Memory;
        };
        match source.fill(&mut piece) {
            Ok(Filled::More) => {
                let _dropped = deal_piece(rt, feeds, late, dealing, piece);
            }
            Ok(Filled::End) => return DealEnd::Over,
            Err(fault) => return DealEnd::Failed(fault),
        }
    }
    unreachable!()
}
