//! The explanation of a program.

use rb_program::{DecodeFault, ShapeFault};
use rb_verifier::Rule as BrokenRule;

/// Why a program is refused: the first fault of the first layer that has one.
#[derive(Clone, Copy)]
pub enum Reason {
    /// The text, without its white space, is not pairs of hex digits.
    Text,
    /// The bytes are not a program.
    Decode(DecodeFault),
    /// The program is not well shaped.
    Shape(ShapeFault),
    /// The program breaks a rule of verification.
    Rule {
        /// The lowest unit at which a rule is broken.
        unit: u32,
        /// The first rule that is broken there.
        rule: BrokenRule,
    },
}

/// The explanation of a program.
#[derive(Drop)]
pub struct Explanation {
    /// The text, in complete lines.
    pub text: String,
    /// Why the program is refused, or `None` if it is accepted.
    pub reason: Option<Reason>,
}
