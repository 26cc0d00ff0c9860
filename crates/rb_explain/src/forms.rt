//! Writes the assembly of each form of instruction.

ghost use Rattle.std.specs.Prelude.{◌≡◌, ◌++◌, codes};
ghost use Rattle.std.specs.Fmt.{WritesOnOk};
ghost use Rattle.rb_explain.specs.Assembly.{assembly_of};
ghost use Rattle.rb_explain.specs.AssemblyParts.{register_text, operand_text};
ghost use Rattle.rb_explain.specs.inner.InsnForms.{IsOperation, IsMove, IsLoad, IsStore, IsJumpForm};

use crate::parts::{Access, Distance, Place, Register, Ring, SecondOperand};
use crate::symbols::{
    binary_symbol, byte_order_name, condition_symbol, division_symbol, extend32_type,
    extend64_type, signed_size_type, size_type, swap_width_name,
};
use rb_insn::{Insn, Operand, Reg, Width};
use std::fmt;

/// Writes an operation on one register: `r1 += 8`, `w1 s/= w2`, `r1 = -r1`.
pub(crate) fn write_operation<W: fmt::Write>(insn: Insn, f: &mut fmt::Formatter<W>) -> fmt::Result
    requires { IsOperation insn }
    ensures writes { WritesOnOk W.write_str_gives f.old result (assembly_of insn) f.new }
{
    match insn {
        Insn::Binary {
            width,
            op,
            dst,
            operand,
        } => write_update(
            register(width, dst),
            binary_symbol(op),
            source(width, operand),
            f,
        ),
        Insn::Division {
            width,
            op,
            sign,
            dst,
            operand,
        } => write_update(
            register(width, dst),
            division_symbol(sign, op),
            source(width, operand),
            f,
        ),
        Insn::Negate { width, dst } => {
            let dst = register(width, dst);
            write!(f, "{dst} = -{dst}")
        }
        _ => unreachable!(),
    }
}

// Writes a register, an assignment operator, and the second operand.
fn write_update<W: fmt::Write>(
    dst: Register,
    symbol: &'static str,
    source: SecondOperand,
    f: &mut fmt::Formatter<W>,
) -> fmt::Result
    ensures writes { WritesOnOk W.write_str_gives f.old result
        (register_text dst.width dst.reg ++ codes " " ++ symbol.now ++ codes " " ++ operand_text source.width source.operand) f.new }
{
    write!(f, "{dst} {symbol} {source}")
}

/// Writes a move of a register or an immediate, or a reordering of bytes: `r1 = r2`, `r1 = (s8)r2`, `r1 = be16 r1`.
pub(crate) fn write_move<W: fmt::Write>(insn: Insn, f: &mut fmt::Formatter<W>) -> fmt::Result
    requires { IsMove insn }
    ensures writes { WritesOnOk W.write_str_gives f.old result (assembly_of insn) f.new }
{
    match insn {
        Insn::Move {
            width,
            dst,
            operand,
        } => write!(f, "{} = {}", register(width, dst), source(width, operand)),
        Insn::MoveExtended32 { from, dst, src } => write!(
            f,
            "{} = ({}){}",
            register(Width::W32, dst),
            extend32_type(from),
            register(Width::W32, src)
        ),
        Insn::MoveExtended64 { from, dst, src } => {
            write!(
                f,
                "{} = ({}){}",
                whole(dst),
                extend64_type(from),
                whole(src)
            )
        }
        Insn::Reorder { order, width, dst } => write!(
            f,
            "{} = {}{} {}",
            whole(dst),
            byte_order_name(order),
            swap_width_name(width),
            whole(dst)
        ),
        _ => unreachable!(),
    }
}

/// Writes a load of a number, a ring or bytes: `r1 = 5 ll`, `r1 = map_by_idx(0)`, `r1 = *(u64 *)(r6 + 8)`.
pub(crate) fn write_load<W: fmt::Write>(insn: Insn, f: &mut fmt::Formatter<W>) -> fmt::Result
    requires { IsLoad insn }
    ensures writes { WritesOnOk W.write_str_gives f.old result (assembly_of insn) f.new }
{
    match insn {
        Insn::LoadNumber { dst, value } => {
            write!(f, "{} = {} ll", whole(dst), value.cast_signed())
        }
        Insn::LoadRing { dst, ring } => write!(f, "{} = {}", whole(dst), Ring(ring)),
        Insn::Load {
            size,
            dst,
            base,
            offset,
        } => write!(
            f,
            "{} = {}",
            whole(dst),
            access(size_type(size), base, offset)
        ),
        Insn::LoadSigned {
            size,
            dst,
            base,
            offset,
        } => write!(
            f,
            "{} = {}",
            whole(dst),
            access(signed_size_type(size), base, offset)
        ),
        _ => unreachable!(),
    }
}

/// Writes a store: `*(u64 *)(r10 - 8) = r1`, `*(u8 *)(r0 + 0) = 42`.
pub(crate) fn write_store<W: fmt::Write>(insn: Insn, f: &mut fmt::Formatter<W>) -> fmt::Result
    requires { IsStore insn }
    ensures writes { WritesOnOk W.write_str_gives f.old result (assembly_of insn) f.new }
{
    match insn {
        Insn::StoreImmediate {
            size,
            base,
            offset,
            value,
        } => write!(f, "{} = {value}", access(size_type(size), base, offset)),
        Insn::StoreRegister {
            size,
            base,
            offset,
            src,
        } => write!(
            f,
            "{} = {}",
            access(size_type(size), base, offset),
            whole(src)
        ),
        _ => unreachable!(),
    }
}

/// Writes a jump: `goto +4`, `gotol -3`, `if w2 == 0 goto +4`.
pub(crate) fn write_jump<W: fmt::Write>(insn: Insn, f: &mut fmt::Formatter<W>) -> fmt::Result
    requires { IsJumpForm insn }
    ensures writes { WritesOnOk W.write_str_gives f.old result (assembly_of insn) f.new }
{
    match insn {
        Insn::Jump { distance } => write!(f, "goto {}", Distance(i32::from(distance))),
        Insn::JumpFar { distance } => write!(f, "gotol {}", Distance(distance)),
        Insn::Branch {
            width,
            condition,
            dst,
            operand,
            distance,
        } => write!(
            f,
            "if {} {} {} goto {}",
            register(width, dst),
            condition_symbol(condition),
            source(width, operand),
            Distance(i32::from(distance))
        ),
        _ => unreachable!(),
    }
}

fn register(width: Width, reg: Reg) -> Register
    ensures { result ≡ record { width = width; reg = reg } }
{
    Register { width, reg }
}

fn source(width: Width, operand: Operand) -> SecondOperand
    ensures { result ≡ record { width = width; operand = operand } }
{
    SecondOperand { width, operand }
}

fn access(type_name: &'static str, base: Reg, offset: i16) -> Access
    ensures type_name { result.type_name.now ≡ type_name.now }
    ensures place { result.place ≡ record { base = base; offset = offset } }
{
    Access {
        type_name,
        place: Place { base, offset },
    }
}

// Returns a register at its full width.
fn whole(reg: Reg) -> Register
    ensures { result ≡ record { width = Width.W64; reg = reg } }
{
    register(Width::W64, reg)
}
