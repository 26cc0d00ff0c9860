//! Jobs: a job is one run of a verified program (RFC 9669, with the helper calls of bpf-helpers(7)) over a worker's
//! seats (its handles to shared rings).
//!
//! `run_job` runs one program. A `JobRunner` runs many programs one after another, as rb_workers does: its helpers,
//! with the memory for their calls, and the room of its machine live as long as the runner.
//!
//! Proved: the result is the one that the program's semantics gives under the calls that were made. The counts of the
//! worker's seats grow exactly by these calls. No record is handed back to the program, so it submitted and discarded
//! as many records as it made (`jobs_give_back`). The seats are returned, whatever the result.
//!
//! Before each helper call, a `Gate` is called while no lock is held; this is tested, not proved.
//!
//! # Helpers over seats
//!
//! `SeatHelpers` implements `bpf_ringbuf_reserve`, `submit`, `discard`, `output` and `query` as bpf-helpers(7) defines
//! them. Each call uses the seat at the ring that it names, and is appended to a trace. Several threads can run
//! programs over the same rings if each worker has its own helpers.
//!
//! Proved: each call is one call of the shared ring that it names, with exactly the record, bytes and flags that it was
//! given, and has the result that this ring gives over its whole history. A call changes only its ring's seat; a call
//! with bad flags changes none. The trace has each call with its result. Each null for flags 0 and each -EAGAIN is
//! either recorded as a refusal in a ring's history, or counted as unlogged because the ring had no room for entries or
//! memory could not be allocated. A granted record is accepted when it is submitted or discarded, whatever other
//! threads did meanwhile (`specs/KeptRecords.antt`). The consequences for the seats' counts are stated as laws
//! (`seats_rise`).
#![tactic(auto)]

mod call_answers;
mod job;
mod job_laws;
mod job_run;
mod no_record;
mod ring_calls;
mod seat_helpers;
mod seat_laws;
mod sheets;
mod stock;

pub use job::{Gate, Job, JobAnswer, OpenGate};
pub use job_laws::jobs_give_back;
pub use job_run::{JobRunner, run_job};
pub use seat_helpers::SeatHelpers;
pub use seat_laws::{helpers_lead, seats_go_on, seats_may_answer, seats_rise};
pub use stock::{NoStock, SHORT, Stock};
