//! The parts of assembly: registers, operands, addresses and distances.

ghost use Rattle.std.specs.Prelude.{Some};
ghost use Rattle.rb_explain.specs.AssemblyParts.{register_text, operand_text, place_text, access_text, ring_text, distance_text};

use rb_insn::{Operand, Reg, Width};
use std::fmt;

/// A register at a width: `r1`, `w1`.
#[derive(Clone, Copy)]
pub(crate) struct Register {
    pub(crate) width: Width,
    pub(crate) reg: Reg,
}

impl fmt::Display for Register {
    ghost output = { λ r. Some (register_text r.width r.reg) };

    fn fmt<W: fmt::Write>(&self, f: &mut fmt::Formatter<W>) -> fmt::Result {
        let number = self.reg.number;
        match self.width {
            Width::W64 => write!(f, "r{number}"),
            Width::W32 => write!(f, "w{number}"),
        }
    }
}

/// The second operand at a width: `r2`, `w2`, `-5`.
#[derive(Clone, Copy)]
pub(crate) struct SecondOperand {
    pub(crate) width: Width,
    pub(crate) operand: Operand,
}

impl fmt::Display for SecondOperand {
    ghost output = { λ s. Some (operand_text s.width s.operand) };

    fn fmt<W: fmt::Write>(&self, f: &mut fmt::Formatter<W>) -> fmt::Result {
        match self.operand {
            Operand::Immediate(value) => write!(f, "{value}"),
            Operand::Register(reg) => {
                let register = Register {
                    width: self.width,
                    reg,
                };
                register.fmt(f)
            }
        }
    }
}

/// An address in memory: `r1 + 8`, `r10 - 8`.
#[derive(Clone, Copy)]
pub(crate) struct Place {
    pub(crate) base: Reg,
    pub(crate) offset: i16,
}

impl fmt::Display for Place {
    ghost output = { λ p. Some (place_text p.base p.offset) };

    fn fmt<W: fmt::Write>(&self, f: &mut fmt::Formatter<W>) -> fmt::Result {
        let base = Register {
            width: Width::W64,
            reg: self.base,
        };
        let far = self.offset.unsigned_abs();
        if self.offset < 0 {
            write!(f, "{base} - {far}")
        } else {
            write!(f, "{base} + {far}")
        }
    }
}

/// The bytes of a type at an address: `*(u64 *)(r1 + 8)`.
#[derive(Clone, Copy)]
pub(crate) struct Access {
    pub(crate) type_name: &'static str,
    pub(crate) place: Place,
}

impl fmt::Display for Access {
    ghost output = { λ a. Some (access_text a.type_name.now a.place.base a.place.offset) };

    fn fmt<W: fmt::Write>(&self, f: &mut fmt::Formatter<W>) -> fmt::Result {
        let type_name = self.type_name;
        let place = self.place;
        write!(f, "*({type_name} *)({place})")
    }
}

/// A ring by its number: `map_by_idx(0)`.
#[derive(Clone, Copy)]
pub(crate) struct Ring(pub(crate) u32);

impl fmt::Display for Ring {
    ghost output = { λ r. Some (ring_text r.0) };

    fn fmt<W: fmt::Write>(&self, f: &mut fmt::Formatter<W>) -> fmt::Result {
        let number = self.0;
        write!(f, "map_by_idx({number})")
    }
}

/// The distance of a jump: `+4`, `-3`.
#[derive(Clone, Copy)]
pub(crate) struct Distance(pub(crate) i32);

impl fmt::Display for Distance {
    ghost output = { λ d. Some (distance_text d.0) };

    fn fmt<W: fmt::Write>(&self, f: &mut fmt::Formatter<W>) -> fmt::Result {
        let far = self.0.unsigned_abs();
        if self.0 < 0 {
            write!(f, "-{far}")
        } else {
            write!(f, "+{far}")
        }
    }
}
