//! The library for C, and for languages that call C: verification, explanation, costs and runs of eBPF programs that
//! write to BPF ring buffers; the records of tapes (files of records) and of rings of Linux; and engines, which keep
//! rings and verified programs between calls.
//!
//! Each export is a thin wrapper of a call of a proved crate, and states the clauses of that call again. A premise that
//! a C caller can't be held to is tested, and a violation is returned as a status (`status.rt`). No state is kept
//! between calls, except in the engines that a caller opens and holds. No call takes a lock or starts a thread.
//! `include/heskavo_host.h` has the declarations.
//!
//! A program is its bytes, eight per unit, in the format of RFC 9669. Memory is allocated by the caller's `malloc`, and
//! freed before a call returns, except that of an open engine.
#![tactic(auto)]

mod engine_answers;
mod engine_handle;
mod engine_programs;
mod engine_records;
mod explanation;
mod linux_page;
mod linux_record;
mod load;
mod loose;
mod outgoing;
mod program_cost;
mod run_alone;
mod run_tapes;
mod single_run;
mod status;
mod tapes;
mod verdict;
mod verification;
mod version;

pub use engine_answers::{RingCounts, heskavo_engine_counts, heskavo_engine_query};
pub use engine_handle::EngineHandle;
pub use engine_programs::{
    heskavo_engine_close, heskavo_engine_load, heskavo_engine_open, heskavo_engine_run,
};
pub use engine_records::{TakenRecord, heskavo_engine_put, heskavo_engine_take};
pub use explanation::heskavo_explain;
pub use linux_page::{LinuxPage, heskavo_linux_page};
pub use linux_record::{LinuxRecord, heskavo_linux_record};
pub use program_cost::{ProgramCost, ProgramRingCost, heskavo_cost};
pub use single_run::heskavo_run;
pub use status::{ARGUMENT, BROKEN, DONE, EMPTY, FAULT, FULL, MEMORY, MORE, REFUSED, ROOM};
pub use tapes::{TapeRecord, heskavo_tape_next, heskavo_tape_put, heskavo_tape_put_discarded};
pub use verdict::{BYTES, RULES, SHAPE, Verdict};
pub use verification::heskavo_verify;
pub use version::heskavo_version;
