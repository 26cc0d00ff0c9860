//! Abstract states.

ghost use Rattle.std.specs.Prelude.{◌≡◌, IfOk, IsErr};
ghost use Rattle.rb_verifier.specs.AbstractStates.{value_in, put, entry_state, effect_on_both};
ghost use Rattle.rb_verifier.specs.KeptPointers.{MayKeepPointer};

use crate::places::Places;
use crate::references::Held;
use crate::value::Abs;
use rb_insn::Reg;
use std::alloc::{AllocError, Global};

/// The abstract state before an instruction: the abstract value of each register, the held references, and the contents
/// of the stack.
#[derive(Debug, Drop)]
pub struct AbsState {
    /// The abstract values of r0 to r10.
    pub values: [Abs; 11],
    /// The references that are held.
    pub held: Held,
    /// The abstract contents of the stack.
    pub places: Places,
}

/// The states along the two edges out of an instruction. If it has only one edge, both are equal.
#[derive(Debug, Drop)]
pub struct Effect {
    /// The state along the edge to the next instruction.
    pub next: AbsState,
    /// The state along the edge to the jump's target.
    pub jump: AbsState,
}

impl AbsState {
    /// Returns the state at entry: r1 points to the context, r10 to the stack, the other registers are unreadable, no
    /// reference is held, and the stack holds data.
    ///
    /// Allocates nothing; the references are stored inline.
    pub fn entry(alloc: Global) -> Self
        ensures { result ≡ entry_state }
    {
        let mut values = [Abs::Unreadable; 11];
        values[1] = Abs::Ctx(0);
        values[10] = Abs::Stack(0);
        AbsState {
            values,
            held: Held::new(alloc),
            places: Places::without_pointers(alloc),
        }
    }

    /// Returns a copy of the state. Allocates only if the stack may hold pointers.
    pub fn copy(&self) -> Result<Self, AllocError>
        ensures same { IfOk result (λ copy. copy ≡ self.now) }
        ensures memory { IsErr result → MayKeepPointer self.now.places }
    {
        let places = self.places.copy()?;
        Ok(AbsState {
            values: self.values,
            held: self.held.copy(),
            places,
        })
    }

    /// Returns the abstract value of a register.
    pub(crate) fn value(&self, register: Reg) -> Abs
        ensures { result ≡ value_in self.now register.number }
    {
        self.values[usize::from(register.number)]
    }

    #[inline(always)]
    /// Sets the abstract value of a register.
    pub(crate) fn put(&mut self, register: Reg, value: Abs)
        ensures { self.new ≡ put self.old register.number value }
    {
        self.values[register.index()] = value;
    }

    /// Returns the effect that has this state along both edges.
    pub(crate) fn along_both(self) -> Result<Effect, AllocError>
        ensures same { IfOk result (λ effect. effect ≡ effect_on_both self) }
        ensures memory { IsErr result → MayKeepPointer self.places }
    {
        Ok(Effect {
            next: self.copy()?,
            jump: self,
        })
    }
}
