//! Tests of the ring's crates through their public calls: the examples of their module docs, and what is not a row of
//! `rb_ring_rows`: values that no ring creates, devices that fail, conclusions of a caller, and threads.
//!
//! Tests end with `drop` of what has many fields, since the prover then reads one call in place of a step for each field.
#![tactic(auto)]

#[cfg(test)]
mod batches;
#[cfg(test)]
mod chapter_entries;
#[cfg(test)]
mod closed_rings;
#[cfg(test)]
mod examples;
#[cfg(test)]
mod expected;
#[cfg(test)]
mod histories;
#[cfg(test)]
mod keeper_threads;
#[cfg(test)]
mod parts;
#[cfg(test)]
mod rings_with_seats;
#[cfg(test)]
mod tape_reader;
#[cfg(test)]
mod threads;
#[cfg(test)]
mod wait_backoff;
