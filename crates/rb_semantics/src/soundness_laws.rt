//! The laws on the meaning of verified programs.

ghost use Rattle.rb_semantics.specs.PlainPrograms.{PlainAnnotationsAreValid, PlainProgramsRunAlike};
ghost use Rattle.rb_semantics.specs.RunEndings.{ProgramsCanStart, RunsCallOnce, RunsEndWell, VerifiedProgramsEndWell};
ghost use Rattle.rb_semantics.specs.Soundness.{StepsAreSound};

/// States that each step from a state that agrees with a valid annotation has a meaning.
///
/// The step leads to such a state at a later unit, makes a call after which the program is in such a state for every
/// answer, or ends the program with no record held.
pub fn steps_are_sound()
    ensures { StepsAreSound }
{}

/// States that a verified program starts in a state that agrees with its annotation, if the context has the right
/// length.
pub fn programs_can_start()
    ensures { ProgramsCanStart }
{}

/// States that a run from such a state is never stuck, if each call gets an answer of the kind that it waits for.
///
/// If the run returns a result, it has submitted or discarded every record that was held at its start or granted since.
pub fn runs_end_well()
    ensures { RunsEndWell }
{}

/// States that the run of a verified program over a context of the right length is never stuck, if each call gets an
/// answer of the kind that it waits for.
///
/// If the run returns a result, it has submitted or discarded every record that it was granted.
pub fn verified_programs_end_well()
    ensures { VerifiedProgramsEndWell }
{}

/// States that a run from such a state makes no more calls than there are CALL instructions from its unit on.
pub fn runs_call_once()
    ensures { RunsCallOnce }
{}

/// States that the verifier accepts every program that it accepted before it supported pointers on the stack.
///
/// An annotation is valid if it is valid under the plain rules, by which a load produces a number and a store takes
/// one, and if it has data in every place of the stack.
pub fn plain_annotations_are_valid()
    ensures { PlainAnnotationsAreValid }
{}

/// States that the programs accepted by the plain rules run as they did before.
///
/// Under the plain meaning, in which a load produces a number and a store takes one, and under the full meaning, such a
/// program makes the same calls with the same bytes and ends in the same way, for the same answers.
pub fn plain_programs_run_alike()
    ensures { PlainProgramsRunAlike }
{}
