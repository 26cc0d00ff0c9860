//! The verifier, for hosts that run programs of others.
//!
//! `verify` makes one pass over a program in unit order. It returns a `Verified` if and only if the program has a valid
//! annotation, which is an abstract state for each unit under which all checks hold. Otherwise it returns the lowest
//! unit that breaks a rule and the first rule broken there. A `Verified` keeps its annotation, and its program never
//! gets stuck (`rb_semantics`). Time and memory are linear in the number of units: one abstract step for each
//! instruction, and at most one join for each edge.
//!
//! The checks of one instruction are an abstract step over an `AbsState`, which describes the registers, the stack and
//! the held records. `step` returns the first rule (V1 to V15, `Rule`) that the instruction breaks, or the state along
//! each edge out of it. `join` returns the least state above two, and `step_keeps_order` states that a step is
//! monotone.
//!
//! The abstract values, their order and the fifteen rules are this project's own profile. The rule on references is the
//! kernel verifier's (Documentation/bpf/verifier.rst): a reserved record must be submitted or discarded on every path,
//! and a reservation must be tested against null before its use.
#![tactic(auto)]

mod arithmetic;
mod arrivals;
mod branch_forms;
mod branches;
mod calls;
mod extents;
mod helper;
mod join_order;
mod kept_pointers;
mod limits;
mod operation;
mod operation_forms;
mod places;
mod reference_changes;
mod references;
mod refusal;
mod rule;
mod state;
mod step_laws;
mod sweep;
mod value;
mod value_checks;
mod verification;
mod verified;
mod verifier_step;

pub use helper::Helper;
pub use join_order::{below, join};
pub use limits::Limits;
pub use operation::Operation;
pub use places::Places;
pub use references::{Held, Reference};
pub use refusal::Refusal;
pub use rule::{Rule, StepFault};
pub use state::{AbsState, Effect};
pub use step_laws::{step_keeps_form, step_keeps_order};
pub use value::Abs;
pub use verification::verify;
pub use verified::Verified;
pub use verifier_step::{step, step_in_place};
