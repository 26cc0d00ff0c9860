//! The records of a ring that a program holds.

ghost use Rattle.std.specs.Prelude.{◌≡◌, ◌*◌, ◌+◌, ◌≤◌, ◌^◌, ℕ, length, count_by, sum_by};
ghost use Rattle.rb_program.specs.Program.{unit_count};
ghost use Rattle.rb_program.specs.Shape.{IsInstructionStart};
ghost use Rattle.rb_verifier.specs.Annotation.{state_at};
ghost use Rattle.rb_cost.specs.Paths.{IsMost};
ghost use Rattle.rb_cost.specs.Requests.{is_of_ring, held_span};

use rb_history::span;
use rb_program::Program;
use rb_verifier::{AbsState, Reference};

/// Returns how many of the references are to records of a ring.
fn held_records(references: &[Reference], ring: u32) -> u64
    ensures { result ≡ count_by (is_of_ring ring) references.now }
{
    references
        .iter()
        .filter(|reference| reference.ring == ring)
        .count() as u64
}

/// Returns how many bytes of a ring the records of the references occupy.
fn held_bytes(references: &[Reference], ring: u32) -> u64
    requires { length references.now ≤ 4 }
    ensures { result ≡ sum_by (held_span ring) references.now }
{
    let mut bytes = 0;
    for reference in references {
        if reference.ring == ring {
            bytes += span(reference.size);
        }
    }
    bytes
}

/// The maximum that is held of a ring before an instruction.
#[derive(Clone, Copy)]
pub(crate) struct MostHeld {
    /// The number of records.
    pub(crate) records: u64,
    /// The number of bytes that they occupy.
    pub(crate) bytes: u64,
}

/// Returns the maximum that is held of a ring before an instruction of the program.
pub(crate) fn most_held(program: &Program, states: &[AbsState], ring: u32) -> MostHeld
    requires count { length states.now ≡ unit_count program.now }
    requires first { IsInstructionStart program.now 0 }
    ensures records { IsMost (IsInstructionStart program.now) (λ unit. count_by (is_of_ring ring) (state_at states.now unit).held) result.records }
    ensures bytes { IsMost (IsInstructionStart program.now) (λ unit. sum_by (held_span ring) (state_at states.now unit).held) result.bytes }
{
    let mut most = MostHeld {
        records: 0,
        bytes: 0,
    };
    for unit in 0..program.units() {
        if let Some(_) = program.at(unit) {
            let references = states[unit as usize].held.as_slice();
            most.records = most.records.max(held_records(references, ring));
            most.bytes = most.bytes.max(held_bytes(references, ring));
        }
    }
    most
}
