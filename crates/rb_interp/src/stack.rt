//! The stack of a program.

ghost use Rattle.std.specs.Prelude.{◌≡◌, ◌+◌, ◌≤◌, take, drop, length, replicate};
ghost use Rattle.std.specs.Borrow.{sem};
ghost use Rattle.rb_interp.specs.Stack.{LendsStackRange};

use rb_lend::Block;
use std::marker::Model;

/// The stack of a program: 512 bytes (Linux include/linux/filter.h, MAX_BPF_STACK), stored inline. Contracts see it as
/// the list of its bytes. Its calls allocate nothing.
#[derive(Drop)]
pub struct Stack {
    block: Block<512>,
}

impl Model for Stack {
    ghost use Rattle.std.specs.Prelude.{List, ℕ};

    ghost Value = { List ℕ };

    ghost view = { λ s. s.block.bytes };
}

impl Stack {
    /// Creates a stack of zero bytes.
    pub(crate) fn new() -> Stack
        ensures { result ≡ replicate 512 0 }
    {
        Stack {
            block: Block { bytes: [0; 512] },
        }
    }

    /// Returns the 512 bytes of the stack.
    pub fn bytes(&self) -> &[u8]
        ensures value { result.now ≡ self.now }
        ensures size { length self.now ≡ 512 }
    {
        self.block.bytes()
    }

    /// Borrows the `len` bytes from index `at` on for writing; they must lie inside the stack. Index 0 is the first
    /// byte. The other bytes are unchanged.
    pub fn range_mut(&mut self, at: usize, len: usize) -> &mut [u8]
        requires { at + len ≤ 512 }
        ensures* writes_back { sem 𝓛 (LendsStackRange self.entry at len result) }
        ensures value { result.now ≡ take len (drop at self.old) }
        ensures length { length result.now ≡ len }
        ensures size { length self.old ≡ 512 }
    {
        self.block.range_mut(at, len)
    }
}
