//! Executes each kind of instruction except calls.

ghost use Rattle.std.specs.Prelude.{◌≡◌, ◌≢◌, ◌<◌, ◌^◌, None, length};
ghost use Rattle.rb_interp.specs.inner.ExecutedInstruction.{IsBranchBy};
ghost use Rattle.byteorder.specs.Endian.{little_number};
ghost use Rattle.rb_insn.specs.ArithmeticAndJumps.{IsArithmetic, IsConditional};
ghost use Rattle.rb_insn.specs.Sizes.{byte_count, signed_byte_count};
ghost use Rattle.rb_semantics.specs.StackPointers.{spill_of};
ghost use Rattle.rb_semantics.specs.ProgramStates.{fill_of, pointed, register, operand_in};
ghost use Rattle.rb_insn.specs.declared.insn.Insn.TheVariants as kind;
ghost use Rattle.rb_semantics.specs.Instructions.{Goes, Ends, Stuck, execute_copy, execute_compute, execute_arithmetic, execute_load, execute_fill, signed_number, execute_store, execute_spill, null_test, execute_compare, execute_exit};
ghost use Rattle.rb_interp.specs.ShownState.{state_of};
ghost use Rattle.rb_interp.specs.inner.NearOffsets.{IsNearValue, LeavesNear};
ghost use Rattle.rb_interp.specs.StoredMemory.{Rewrites};
ghost use Rattle.rb_interp.specs.inner.KeptPointers.{IsKeepable};

use crate::Context;
use crate::byte_numbers::{number_in, signed_number_in};
use crate::compiler_facts::known;
use crate::cpu::Cpu;
use crate::offsets::behind;
use rb_insn::{BinaryOp, Condition, Insn, Operand, Reg, SignedSize, Size, Width, jumps, value};
use rb_lend::Lent;
use rb_program::next_unit;
use rb_semantics::{MemoryRegion, Value};

impl<C: Context, R: Lent> Cpu<C, R> {
    #[inline(always)]
    /// Executes a move of the value of a register: a number, a pointer or a ring.
    pub(crate) fn execute_copy(&mut self, insn: &Insn, dst: Reg, src: Reg)
        requires unit { self.old.unit < 2 ^ 31 }
        requires meant { let s = state_of R.bytes_of C.shown self.old in execute_copy insn.now dst (register s src.number) s ≢ Stuck }
        ensures goes { let s = state_of R.bytes_of C.shown self.old in execute_copy insn.now dst (register s src.number) s ≡ Goes (state_of R.bytes_of C.shown self.new) }
        ensures memory { self.new.memory ≡ self.old.memory }
    {
        self.copy_and_advance(insn, dst, src);
    }

    #[inline(always)]
    /// Executes arithmetic on two numbers.
    pub(crate) fn execute_compute(&mut self, insn: &Insn, dst: Reg, a: Value, b: Value)
        requires unit { self.old.unit < 2 ^ 31 }
        requires arithmetic { IsArithmetic insn.now }
        requires meant { execute_compute insn.now dst a b (state_of R.bytes_of C.shown self.old) ≢ Stuck }
        ensures goes { execute_compute insn.now dst a b (state_of R.bytes_of C.shown self.old) ≡ Goes (state_of R.bytes_of C.shown self.new) }
        ensures memory { self.new.memory ≡ self.old.memory }
    {
        match (a, b) {
            (Value::Number(a), Value::Number(b)) => {
                self.set_and_advance(insn, dst, Value::Number(value(insn, a, b)));
            }
            _ => {
                known(false);
                unreachable!()
            }
        }
    }

    #[inline(always)]
    /// Executes an addition or a subtraction that may move a pointer, or arithmetic on two numbers.
    ///
    /// It changes the number of the register, which is the offset of a pointer, without reading its kind.
    pub(crate) fn execute_arithmetic(
        &mut self,
        insn: &Insn,
        width: Width,
        op: BinaryOp,
        dst: Reg,
        operand: Operand,
    )
        requires unit { self.old.unit < 2 ^ 31 }
        requires insn { insn.now ≡ kind.Binary width op dst operand }
        requires meant { let s = state_of R.bytes_of C.shown self.old in LeavesNear dst (execute_arithmetic width op insn.now dst (register s dst.number) (operand_in s operand) s) }
        ensures goes { let s = state_of R.bytes_of C.shown self.old in execute_arithmetic width op insn.now dst (register s dst.number) (operand_in s operand) s ≡ Goes (state_of R.bytes_of C.shown self.new) }
        ensures memory { self.new.memory ≡ self.old.memory }
    {
        self.registers.facts();
        let b = self.operand_number(operand);
        let a = self.registers.number(dst);
        self.renumber_and_advance(insn, dst, value(insn, a, b));
    }

    #[inline(always)]
    /// Executes a load that zero-extends, or loads a pointer from the stack.
    pub(crate) fn execute_load(
        &mut self,
        insn: &Insn,
        size: Size,
        dst: Reg,
        base: Value,
        offset: i16,
    )
        requires unit { self.old.unit < 2 ^ 31 }
        requires near { IsNearValue base }
        requires meant { let s = state_of R.bytes_of C.shown self.old in execute_fill insn.now dst (little_number (byte_count size)) (fill_of size s.memory base offset) (pointed s.memory base offset (byte_count size)) s ≢ Stuck }
        ensures goes { let s = state_of R.bytes_of C.shown self.old in execute_fill insn.now dst (little_number (byte_count size)) (fill_of size s.memory base offset) (pointed s.memory base offset (byte_count size)) s ≡ Goes (state_of R.bytes_of C.shown self.new) }
        ensures memory { self.new.memory ≡ self.old.memory }
    {
        match base {
            Value::Pointer(place, start) => {
                let at = behind(start, offset);
                match self.memory.found(size, place, at) {
                    Some(pointer) => self.set_and_advance(insn, dst, pointer),
                    None => {
                        let number = number_in(size, self.memory.read(place, at, size.bytes()));
                        self.set_and_advance(insn, dst, Value::Number(number));
                    }
                }
            }
            _ => {
                known(false);
                unreachable!()
            }
        }
    }

    /// Executes a load that sign-extends.
    pub(crate) fn execute_load_signed(
        &mut self,
        insn: &Insn,
        size: SignedSize,
        dst: Reg,
        base: Value,
        offset: i16,
    )
        requires unit { self.old.unit < 2 ^ 31 }
        requires near { IsNearValue base }
        requires meant { let s = state_of R.bytes_of C.shown self.old in execute_load insn.now dst (signed_number (signed_byte_count size)) (pointed s.memory base offset (signed_byte_count size)) s ≢ Stuck }
        ensures goes { let s = state_of R.bytes_of C.shown self.old in execute_load insn.now dst (signed_number (signed_byte_count size)) (pointed s.memory base offset (signed_byte_count size)) s ≡ Goes (state_of R.bytes_of C.shown self.new) }
        ensures memory { self.new.memory ≡ self.old.memory }
    {
        match base {
            Value::Pointer(place, start) => {
                let at = behind(start, offset);
                let bytes = self.memory.read(place, at, size.bytes());
                let number = signed_number_in(size, bytes);
                self.set_and_advance(insn, dst, Value::Number(number));
            }
            _ => {
                known(false);
                unreachable!()
            }
        }
    }

    #[inline(always)]
    /// Executes a store of a register: of a number to any part, or of a pointer to the stack.
    pub(crate) fn store_register(
        &mut self,
        insn: &Insn,
        size: Size,
        base: Value,
        offset: i16,
        from: Value,
    )
        requires unit { self.old.unit < 2 ^ 31 }
        requires near { IsNearValue base }
        requires stack { length self.old.memory.stack ≡ 512 }
        requires meant { execute_spill insn.now base offset (byte_count size) (spill_of size from) from (state_of R.bytes_of C.shown self.old) ≢ Stuck }
        ensures goes { execute_spill insn.now base offset (byte_count size) (spill_of size from) from (state_of R.bytes_of C.shown self.old) ≡ Goes (state_of R.bytes_of C.shown self.new) }
        ensures same { Rewrites R.with_bytes self.old.memory.records self.new.memory.records }
    {
        match from {
            Value::Number(_) => self.store(insn, size, base, offset, from),
            Value::Pointer(_, _) | Value::Ring(_) => self.keep(insn, size, base, offset, from),
            Value::Nothing => {
                known(false);
                unreachable!()
            }
        }
    }

    /// Stores a pointer on the stack.
    fn keep(&mut self, insn: &Insn, size: Size, base: Value, offset: i16, pointer: Value)
        requires unit { self.old.unit < 2 ^ 31 }
        requires near { IsNearValue base }
        requires stack { length self.old.memory.stack ≡ 512 }
        requires pointer { IsKeepable pointer }
        requires meant { execute_spill insn.now base offset (byte_count size) (spill_of size pointer) pointer (state_of R.bytes_of C.shown self.old) ≢ Stuck }
        ensures goes { execute_spill insn.now base offset (byte_count size) (spill_of size pointer) pointer (state_of R.bytes_of C.shown self.old) ≡ Goes (state_of R.bytes_of C.shown self.new) }
        ensures same { Rewrites R.with_bytes self.old.memory.records self.new.memory.records }
    {
        match (size, base) {
            (Size::Double, Value::Pointer(place, start)) => {
                let Some(next) = next_unit(self.unit, insn) else {
                    known(false);
                    unreachable!()
                };
                let at = behind(start, offset);
                self.memory.keep(place, at, pointer);
                self.unit = next;
            }
            _ => {
                known(false);
                unreachable!()
            }
        }
    }

    #[inline(always)]
    /// Stores a number.
    pub(crate) fn store(&mut self, insn: &Insn, size: Size, base: Value, offset: i16, from: Value)
        requires unit { self.old.unit < 2 ^ 31 }
        requires near { IsNearValue base }
        requires stack { length self.old.memory.stack ≡ 512 }
        requires meant { execute_store insn.now base offset (byte_count size) from (state_of R.bytes_of C.shown self.old) ≢ Stuck }
        ensures goes { execute_store insn.now base offset (byte_count size) from (state_of R.bytes_of C.shown self.old) ≡ Goes (state_of R.bytes_of C.shown self.new) }
        ensures same { Rewrites R.with_bytes self.old.memory.records self.new.memory.records }
    {
        match (base, from) {
            (Value::Pointer(place, start), Value::Number(number)) => {
                let Some(next) = next_unit(self.unit, insn) else {
                    known(false);
                    unreachable!()
                };
                let at = behind(start, offset);
                self.memory.store(place, at, size, number);
                self.unit = next;
            }
            _ => {
                known(false);
                unreachable!()
            }
        }
    }

    #[inline(always)]
    /// Executes a conditional jump on two numbers, or a null test of a record pointer.
    pub(crate) fn execute_compare(
        &mut self,
        insn: &Insn,
        width: Width,
        condition: Condition,
        operand: Operand,
        a: Value,
        b: Value,
        distance: i16,
    )
        requires unit { self.old.unit < 2 ^ 31 }
        requires conditional { IsConditional insn.now }
        requires distance { IsBranchBy distance insn.now }
        requires meant { execute_compare insn.now (null_test width condition operand) a b (state_of R.bytes_of C.shown self.old) ≢ Stuck }
        ensures goes { execute_compare insn.now (null_test width condition operand) a b (state_of R.bytes_of C.shown self.old) ≡ Goes (state_of R.bytes_of C.shown self.new) }
        ensures memory { self.new.memory ≡ self.old.memory }
    {
        match (a, b) {
            (Value::Pointer(place, _), _) => match place {
                MemoryRegion::Record(_) => match condition {
                    Condition::Equal => self.follow_branch(insn, false, distance),
                    Condition::NotEqual => self.follow_branch(insn, true, distance),
                    _ => {
                        known(false);
                        unreachable!()
                    }
                },
                MemoryRegion::Stack => {
                    known(false);
                    unreachable!()
                }
                MemoryRegion::Context => {
                    known(false);
                    unreachable!()
                }
            },
            (Value::Number(a), Value::Number(b)) => self.follow_branch(
                insn,
                jumps(insn, a, b),
                distance,
            ),
            _ => {
                known(false);
                unreachable!()
            }
        }
    }

    #[inline(always)]
    /// Executes a conditional jump on two numbers, without reading the kinds of the registers.
    ///
    /// The caller passes the distance, so it is not read from the instruction.
    pub(crate) fn execute_number_compare(
        &mut self,
        insn: &Insn,
        dst: Reg,
        operand: Operand,
        distance: i16,
    )
        requires unit { self.old.unit < 2 ^ 31 }
        requires conditional { IsConditional insn.now }
        requires distance { IsBranchBy distance insn.now }
        requires meant { let s = state_of R.bytes_of C.shown self.old in execute_compare insn.now None (register s dst.number) (operand_in s operand) s ≢ Stuck }
        ensures goes { let s = state_of R.bytes_of C.shown self.old in execute_compare insn.now None (register s dst.number) (operand_in s operand) s ≡ Goes (state_of R.bytes_of C.shown self.new) }
        ensures memory { self.new.memory ≡ self.old.memory }
    {
        let a = self.registers.number(dst);
        let b = self.operand_number(operand);
        self.follow_branch(insn, jumps(insn, a, b), distance);
    }

    /// Returns the result of the program.
    pub(crate) fn result(&self) -> u64
        requires { execute_exit (register (state_of R.bytes_of C.shown self.now) 0) ≢ Stuck }
        ensures { execute_exit (register (state_of R.bytes_of C.shown self.now) 0) ≡ Ends result }
    {
        match self.register(Reg::R0) {
            Value::Number(number) => number,
            _ => {
                known(false);
                unreachable!()
            }
        }
    }
}
