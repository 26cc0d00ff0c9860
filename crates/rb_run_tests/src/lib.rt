//! Tests of the other crates' public calls that are not rows: theorems, the helpers' list, references, single
//! instructions of a program, helpers over seats, jobs, jobs on threads, worlds, and engines. Programs and their messages
//! are rows of `rb_program_rows`.
//!
//! Tests end with `drop` of what has many fields, since the prover then reads one call in place of a step for each field.
#![tactic(auto)]

#[cfg(test)]
mod engines;
#[cfg(test)]
mod expected;
#[cfg(test)]
mod jobs;
#[cfg(test)]
mod laws;
#[cfg(test)]
mod listed_helpers;
#[cfg(test)]
mod programs;
#[cfg(test)]
mod references;
#[cfg(test)]
mod seats;
#[cfg(test)]
mod shared;
#[cfg(test)]
mod waits;
#[cfg(test)]
mod workers;
#[cfg(test)]
mod worlds;
