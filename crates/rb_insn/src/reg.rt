//! Registers.

ghost use Rattle.std.specs.Prelude.{◌≡◌, ◌≤◌, ◌↔◌, IsSome, IfSome};

/// One of the eleven registers r0 to r10 (RFC 9669, section 3.1).
#[derive(Clone, Copy, Debug, PartialEq, Eq)]
pub struct Reg {
    /// The register's number, 0 to 10.
    pub number: u8,
    ghost bounded: { number ≤ 10 },
}

impl Reg {
    /// The result of a call and of the program.
    pub const R0: Reg = Reg { number: 0 };
    /// The first argument of a call; at entry, the context.
    pub const R1: Reg = Reg { number: 1 };
    /// The second argument.
    pub const R2: Reg = Reg { number: 2 };
    /// The third argument.
    pub const R3: Reg = Reg { number: 3 };
    /// The fourth argument.
    pub const R4: Reg = Reg { number: 4 };
    /// The fifth argument.
    pub const R5: Reg = Reg { number: 5 };
    /// The first of the registers that a call preserves.
    pub const R6: Reg = Reg { number: 6 };
    /// Preserved by calls.
    pub const R7: Reg = Reg { number: 7 };
    /// Preserved by calls.
    pub const R8: Reg = Reg { number: 8 };
    /// Preserved by calls.
    pub const R9: Reg = Reg { number: 9 };
    /// The frame pointer, which points to the end of the stack; no instruction writes it.
    pub const R10: Reg = Reg { number: 10 };

    /// Returns the register with this number, or `None` if the number is above 10.
    pub fn new(number: u8) -> Option<Reg>
        ensures found { IsSome result ↔ (number ≤ 10) }
        ensures value { IfSome result (λ reg. reg.number ≡ number) }
    {
        if number <= 10 {
            Some(Reg { number })
        } else {
            None
        }
    }

    /// Returns the register's number as an index into an array of eleven.
    pub fn index(self) -> usize
        ensures value { result ≡ self.number }
        ensures bound { result ≤ 10 }
    {
        self.number as usize
    }
}
