//! A source over a list of contexts.

ghost use Rattle.std.specs.Prelude.{◌≡◌, ◌≤◌, ◌<◌, ◌+◌, ◌++◌, ℕ, List, [], length, take, drop, map, All};
ghost use Rattle.rb_source.specs.Piece.{room_for};

use crate::piece::Piece;
use crate::source::{Filled, Source, SourceFault};
use std::marker::Model;

/// A source that gives the contexts of a slice, in order: for tests, and for contexts in memory.
#[derive(Drop)]
pub struct ListSource<'a> {
    rest: &'a [Vec<u8>],
    ctx_len: u32,
}

impl<'a> Model for ListSource<'a> {
    ghost use Rattle.std.specs.Prelude.{◌≡◌, ◌≤◌, map, length, All};
    ghost use Rattle.rb_source.specs.Given.{ListedContexts};

    ghost Value = { ListedContexts };

    ghost view = { λ s. record { rest = map (λ v. v.items) s.rest.now; ctx_len = s.ctx_len } };

    ghost invariant = { λ s. (s.ctx_len ≤ 65536) × All (λ v. length v.items ≡ s.ctx_len) s.rest.now };
}

impl<'a> ListSource<'a> {
    /// Returns a source of these contexts, each of which has `ctx_len` bytes.
    pub fn new(contexts: &'a [Vec<u8>], ctx_len: u32) -> ListSource<'a>
        requires bound { ctx_len ≤ 65536 }
        requires size { All (λ v. length v.items ≡ ctx_len) contexts.now }
        ensures value { result ≡ record { rest = map (λ v. v.items) contexts.now; ctx_len = ctx_len } }
    {
        ListSource {
            rest: contexts,
            ctx_len,
        }
    }
}

// Appends contexts to the piece until it is full or none is left, and returns their number.
fn append(piece: &mut Piece, contexts: &[Vec<u8>]) -> usize
    requires size { All (λ v. length v.items ≡ piece.old.ctx_len) contexts.now }
    ensures bound { result ≤ length contexts.now }
    ensures appended { piece.new ≡ record piece.old { contexts = piece.old.contexts ++ map (λ v. v.items) (take result contexts.now) } }
    ensures full { result < length contexts.now → room_for piece.old.ctx_len ≤ length piece.old.contexts + result }
{
    let mut count = 0;
    while count < contexts.len() && !piece.is_full() {
        piece.push(&contexts[count]);
        count += 1;
    }
    count
}

impl<'a> Source for ListSource<'a> {
    ghost use Rattle.std.specs.Prelude.{◌≡◌, ◌++◌, [], refl};
    ghost use Rattle.rb_source.specs.Given.{both_listed};

    ghost ctx_len_of = { λ s. s.ctx_len };

    ghost gives = { λ old contexts new. (old.rest ≡ contexts ++ new.rest) };

    ghost is_over = { λ s. s.rest ≡ [] };

    ghost fails = { λ _ _. ⊥ };

    ghost gives_nothing = { λ _. refl };

    ghost gives_both = { both_listed };

    fn ctx_len(&self) -> u32 {
        self.ctx_len
    }

    fn fill(&mut self, piece: &mut Piece) -> Result<Filled, SourceFault> {
        let count = append(piece, self.rest);
        self.rest = &self.rest[count..];
        if count == 0 {
            return Ok(Filled::End);
        }
        Ok(Filled::More)
    }
}
