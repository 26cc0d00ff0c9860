//! The hex digits of a text, up to a bound.

ghost use Rattle.std.specs.Prelude.{◌≡◌, ◌++◌, ◌∷◌, [], ℕ, List, true, false, IfOk, string_bytes};
ghost use Rattle.std.specs.List.{list_all};
ghost use Rattle.std.specs.Char.{is_ascii_hexdigit};
ghost use Rattle.rb_loader.specs.inner.Digits.{KeepsOf, has_odd, one_more, shortened};

use std::alloc::{AllocError, Global};
use std::marker::Model;

// The capacity: the digits of the longest program and of two more units. When the list is full, the last unit is
// dropped.
const MOST: usize = 65_568;

// The number of digits after the last unit is dropped.
const STAY: usize = 65_552;

/// The hex digits of a text that is read in pieces.
///
/// For a text that is too long for a program, it keeps fewer digits: still more than a program has, and the same number
/// modulo the digits of a unit.
#[derive(Drop)]
pub(crate) struct Digits {
    kept: Vec<u8>,
}

impl Model for Digits {
    ghost use Rattle.std.specs.Prelude.{◌≡◌, ◌≤◌, ℕ, List, true, length};
    ghost use Rattle.std.specs.List.{list_all};
    ghost use Rattle.std.specs.Char.{is_ascii_hexdigit};

    ghost Value = { List ℕ };

    ghost view = { λ d. d.kept.items };

    ghost invariant = { λ d. (list_all is_ascii_hexdigit d.kept.items ≡ true) × (length d.kept.items ≤ 65568) };
}

impl Digits {
    /// Creates an empty list of digits.
    pub(crate) fn new(alloc: Global) -> Digits
        ensures none { result ≡ [] }
    {
        Digits {
            kept: Vec::new(alloc),
        }
    }

    // Appends a digit.
    fn push(&mut self, digit: u8) -> Result<(), AllocError>
        requires digit { is_ascii_hexdigit digit ≡ true }
        ensures more { IfOk result (λ _. self.new ≡ one_more self.old digit) }
    {
        shorten(&mut self.kept);
        self.kept.push(digit)?;
        Ok(())
    }

    /// Appends the digits of a piece, up to the first byte that is neither a digit nor white space. Returns whether
    /// there is no such byte.
    pub(crate) fn add(&mut self, piece: &[u8]) -> Result<bool, AllocError>
        ensures kept { IfOk result (λ all. all ≡ true → (text : List ℕ) → KeepsOf text self.old → KeepsOf (text ++ piece.now) self.new) }
        ensures odd { IfOk result (λ all. all ≡ false → has_odd piece.now ≡ true) }
    {
        for byte in piece {
            if byte.is_ascii_whitespace() {
                continue;
            }
            if !byte.is_ascii_hexdigit() {
                return Ok(false);
            }
            self.push(*byte)?;
        }
        Ok(true)
    }

    /// Returns the digits as text.
    pub(crate) fn into_text(self) -> String
        ensures text { string_bytes result ≡ self }
        ensures digits { list_all is_ascii_hexdigit self ≡ true }
    {
        match String::from_utf8(self.kept) {
            Ok(text) => text,
            Err(_) => unreachable!(),
        }
    }
}

// Drops the digits of the last unit once the list is full.
fn shorten(kept: &mut Vec<u8>)
    ensures { kept.new.items ≡ shortened kept.old.items }
{
    if kept.len() == MOST {
        kept.truncate(STAY);
    }
}
