//! The meaning of eBPF programs, of one instruction and of whole runs, for interpreters and for proofs about programs.
//!
//! `specs/Instructions.antt` defines the instructions (RFC 9669), `specs/HelperCalls.antt` the helper calls
//! (bpf-helpers(7)), and `specs/ProgramRuns.antt` the runs. What the RFC leaves open is this project's own profile.
//!
//! The laws are contracts here. A verified program never gets stuck (`steps_are_sound`), terminates, and submits or
//! discards every record that it was granted (`verified_programs_end_well`). Memory keeps what is stored, both bytes
//! and pointers (`bytes_written_are_read`, `pointers_stored_are_found`).
//!
//! This crate has no code to run; its types are those that the definitions share with code.
#![tactic(auto)]

mod memory_laws;
mod pending_call;
mod soundness_laws;
mod value;

pub use memory_laws::{
    bytes_written_are_read, pointers_are_not_read, pointers_stored_are_found,
    pointers_stored_leave_zeros, writes_take_pointers_out,
};
pub use pending_call::PendingCall;
pub use soundness_laws::{
    plain_annotations_are_valid, plain_programs_run_alike, programs_can_start, runs_call_once,
    runs_end_well, steps_are_sound, verified_programs_end_well,
};
pub use value::{MemoryRegion, Value};
