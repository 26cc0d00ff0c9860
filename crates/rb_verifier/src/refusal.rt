//! Why a program is refused.

use crate::Rule;
use thiserror::Error;

/// The reason why a program is refused.
#[derive(Clone, Copy, Debug, PartialEq, Eq, Error)]
pub enum Refusal {
    /// The program breaks a rule.
    #[error("unit {unit}: {rule}")]
    Rule {
        /// The lowest unit at which a rule is broken.
        unit: u32,
        /// The first rule that is broken there.
        rule: Rule,
    },
    /// Memory for the verification could not be allocated; this says nothing about the program.
    #[error("out of memory")]
    Memory,
}
