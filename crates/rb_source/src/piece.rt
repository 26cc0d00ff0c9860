//! A buffer of whole contexts.

ghost use Rattle.std.specs.Prelude.{◌≡◌, ◌≤◌, ◌<◌, ◌+◌, ◌==◌, ◌++◌, ◌∷◌, [], IfOk, length, take, drop, min, nat_le, slice_index_or};
ghost use Rattle.rb_source.specs.Form.{form_len, formed};
ghost use Rattle.rb_source.specs.Piece.{empty_piece, room_for};

use crate::form::{Form, write_formed};
use std::alloc::{AllocError, Global};
use std::marker::Model;

/// The size of a piece in bytes, and so the longest context.
pub const PIECE_SIZE: u32 = 65_536;

/// A buffer of up to 64 KiB that holds whole contexts, all of one length, in the order of their arrival.
///
/// `new` allocates all of its memory, and no other call allocates. `clear` makes it ready for further contexts. A piece
/// holds as many contexts as fit into 64 KiB, and at most 65,536 empty ones.
#[derive(Drop)]
pub struct Piece {
    // Room for `room` contexts. The first `count` contexts are in use, one after the other; the bytes after them are
    // unspecified.
    bytes: Vec<u8>,
    ctx_len: usize,
    room: usize,
    count: usize,
}

impl Model for Piece {
    ghost use Rattle.rb_source.specs.Piece.{PieceContents};
    ghost use Rattle.rb_source.specs.inner.Side.{side_by_side, IsPieceMemory};

    ghost Value = { PieceContents };

    ghost view = { λ p. record { contexts = side_by_side p.ctx_len p.count p.bytes.items; ctx_len = p.ctx_len } };

    ghost invariant = { λ p. IsPieceMemory p.ctx_len p.room p.count p.bytes.items };
}

// Writes a context over the bytes from `at` on.
fn write_at(bytes: &mut Vec<u8>, at: usize, context: &[u8])
    requires { at + length context.now ≤ length bytes.old.items }
    ensures { bytes.new.items ≡ take at bytes.old.items ++ (context.now ++ drop (at + length context.now) bytes.old.items) }
{
    bytes[at..at + context.len()].copy_from_slice(context);
}

// Writes the context of this form over the `len` bytes from `at` on.
fn write_formed_at(
    bytes: &mut Vec<u8>,
    at: usize,
    len: usize,
    form: &Form,
    front: &[u8],
    total: u32,
)
    requires len { len ≡ form_len form.now }
    requires inside { at + len ≤ length bytes.old.items }
    requires front { min total form.now.len ≤ length front.now }
    ensures written { bytes.new.items ≡ take at bytes.old.items ++ (formed form.now front.now total ++ drop (at + len) bytes.old.items) }
{
    write_formed(&mut bytes[at..at + len], form, front, total);
}

impl Piece {
    /// Returns an empty piece for contexts of `ctx_len` bytes, or `AllocError` if its memory can't be allocated.
    pub fn new(alloc: Global, ctx_len: u32) -> Result<Piece, AllocError>
        requires { ctx_len ≤ 65536 }
        ensures empty { IfOk result (λ p. p ≡ empty_piece ctx_len) }
    {
        let ctx_len = ctx_len as usize;
        let room = PIECE_SIZE as usize / ctx_len.max(1);
        Ok(Piece {
            bytes: vec![in alloc; 0; room * ctx_len]?,
            ctx_len,
            room,
            count: 0,
        })
    }

    /// Removes all contexts. Takes constant time.
    pub fn clear(&mut self)
        ensures empty { self.new ≡ empty_piece self.old.ctx_len }
    {
        self.count = 0;
    }

    #[inline]
    /// Returns the length of each context, in bytes.
    pub fn ctx_len(&self) -> u32
        ensures value { result ≡ self.now.ctx_len }
        ensures bound { result ≤ 65536 }
    {
        self.ctx_len as u32
    }

    #[inline]
    /// Returns the number of contexts in the piece.
    pub fn len(&self) -> usize
        ensures value { result ≡ length self.now.contexts }
        ensures bound { result ≤ room_for self.now.ctx_len }
    {
        self.count
    }

    #[inline]
    /// Returns whether the piece holds no context.
    pub fn is_empty(&self) -> bool
        ensures value { result ≡ (length self.now.contexts == 0) }
    {
        self.count == 0
    }

    #[inline]
    /// Returns the maximal number of contexts in the piece: 65,536 divided by their length, or 65,536 if they are
    /// empty.
    pub fn room(&self) -> usize
        ensures value { result ≡ room_for self.now.ctx_len }
    {
        self.room
    }

    #[inline]
    /// Returns whether there is no room for another context. An empty piece always has room for one.
    pub fn is_full(&self) -> bool
        ensures value { result ≡ nat_le (room_for self.now.ctx_len) (length self.now.contexts) }
        ensures some { 0 < room_for self.now.ctx_len }
    {
        self.count >= self.room
    }

    #[inline]
    /// Returns context `index`, counted from 0 in the order of arrival.
    pub fn get(&self, index: usize) -> &[u8]
        requires { index < length self.now.contexts }
        ensures value { result.now ≡ slice_index_or self.now.contexts index [] }
        ensures size { length result.now ≡ self.now.ctx_len }
    {
        let at = index * self.ctx_len;
        &self.bytes[at..at + self.ctx_len]
    }

    #[inline]
    /// Appends a context.
    pub fn push(&mut self, context: &[u8])
        requires size { length context.now ≡ self.old.ctx_len }
        requires room { length self.old.contexts < room_for self.old.ctx_len }
        ensures appended { self.new ≡ record self.old { contexts = self.old.contexts ++ context.now ∷ [] } }
    {
        let at = self.count * self.ctx_len;
        write_at(&mut self.bytes, at, context);
        self.count += 1;
    }

    // Appends the context of this form, given the front of the bytes that arrived and their total number.
    pub(crate) fn push_formed(&mut self, form: &Form, front: &[u8], total: u32)
        requires size { self.old.ctx_len ≡ form_len form.now }
        requires room { length self.old.contexts < room_for self.old.ctx_len }
        requires front { min total form.now.len ≤ length front.now }
        ensures appended { self.new ≡ record self.old { contexts = self.old.contexts ++ formed form.now front.now total ∷ [] } }
    {
        let at = self.count * self.ctx_len;
        write_formed_at(&mut self.bytes, at, self.ctx_len, form, front, total);
        self.count += 1;
    }
}
