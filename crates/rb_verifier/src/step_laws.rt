//! The laws of the abstract step.

ghost use Rattle.rb_verifier.specs.StepOrder.{StepKeepsOrder};
ghost use Rattle.rb_verifier.specs.Forms.{StepKeepsForm};

/// States that a step is monotone: checks that hold in a state hold in every state below it, and the effects are
/// ordered likewise.
pub fn step_keeps_order()
    ensures { StepKeepsOrder }
{}

/// States that a step keeps the form of states: the state along each edge has eleven values, and at most four
/// references to records that were reserved at earlier units.
pub fn step_keeps_form()
    ensures { StepKeepsForm }
{}
