//! Tests of streams by public calls alone: contexts as they come, and how they are dealt to workers; a worker, and whole
//! streams on threads; tapes in segments, in memory and in a directory that `follow` reads; outputs of lines.
#![tactic(auto)]

#[cfg(test)]
mod dealt;
#[cfg(test)]
mod examples;
#[cfg(test)]
mod followed;
#[cfg(test)]
mod framed_streams;
#[cfg(test)]
mod given;
#[cfg(test)]
mod in_memory;
#[cfg(test)]
mod lines;
#[cfg(test)]
mod live;
#[cfg(test)]
mod pieces;
#[cfg(test)]
mod refused;
#[cfg(test)]
mod runs;
#[cfg(test)]
mod service;
#[cfg(test)]
mod stalled_consumer;
#[cfg(test)]
mod waiting;
#[cfg(test)]
mod worker;
