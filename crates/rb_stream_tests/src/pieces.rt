//! Tests of pieces and lists, with ample memory.

use super::given::same;
use rb_source::{Filled, ListSource, Piece, Source};
use std::process::Abort;
use std::rt::HostRuntime;

#[test]
fn a_piece_holds_contexts_in_order(rt: HostRuntime) {
    let mut piece = Piece::new(rt.alloc(), 3).expect(&rt, "memory");
    assert!(rt; piece.is_empty() && piece.room() == 21_845 && piece.ctx_len() == 3);
    piece.push(&[1, 2, 3]);
    piece.push(&[4, 5, 6]);
    assert!(rt; !piece.is_full());
    same(&rt, &piece.get(0), &[1, 2, 3].as_slice());
    same(&rt, &piece.get(1), &[4, 5, 6].as_slice());
    same(&rt, &piece.len(), &2);
    piece.clear();
    assert!(rt; piece.is_empty());
}

#[test]
fn a_list_is_given_a_piece_at_a_time(rt: HostRuntime) {
    let contexts: Vec<Vec<u8>> = Vec::new(rt.alloc());
    let mut source = ListSource::new(&contexts, 30_000);
    let mut piece = Piece::new(rt.alloc(), 30_000).expect(&rt, "memory");
    same(&rt, &source.ctx_len(), &30_000);
    same(&rt, &source.fill(&mut piece), &Ok(Filled::End));
    assert!(rt; piece.is_empty());
}
