//! The refusals of `stream`, and which of them follow from its options alone.

ghost use Rattle.std.specs.Prelude.{◌≡◌, ◌↔◌, All, IfErr, IfNone, IfSome, IsTrue, OnOk};
ghost use Rattle.rb_history.specs.RingModel.{IsRingSize};
ghost use Rattle.rb_service.specs.Command.{HasContexts, IsAllowed, IsLater, IsRightRefusal, IsWrongFirst};

use crate::options::{NamedRing, StreamOptions};
use crate::service::ServiceFault;
use rb_history::{is_size, is_worker_count};
use rb_loader::ProgramFault;
use rb_source::Framing;
use std::alloc::AllocError;
use thiserror::Error;

/// Why `stream` ended with a refusal.
#[derive(Clone, Copy, Debug, PartialEq, Eq, Error)]
pub enum StreamRefusal<'a> {
    /// Contexts would be longer than 65,536 bytes, or `fixed` ones would have no bytes.
    #[error("context length")]
    Context,
    /// The ring with this name is the first whose size is not a power of two from 4,096 to 67,108,864.
    #[error("size of ring {0}")]
    Size(&'a str),
    /// The number of workers is not 1 to 256.
    #[error("workers")]
    Workers,
    /// This file could not be opened.
    #[error("file {0}")]
    Open(&'a str),
    /// The program in this file was refused.
    #[error("program {0}: {1}")]
    Program(&'a str, ProgramFault),
    /// The directory of segments could not be created or locked.
    #[error("directory {0}")]
    Folder(&'a str),
    /// Another host writes to the directory of segments.
    #[error("directory {0}: another host writes to it")]
    Locked(&'a str),
    /// The directory of segments has the ring with this name, and this other size.
    #[error("ring {0} has size {1} in the directory")]
    OtherSize(&'a str, u64),
    /// The segments of this ring in the directory are damaged, or could not be read or created.
    #[error("segments of ring {0}")]
    Segments(&'a str),
    /// The input could not be read. All contexts before that were run or dropped.
    #[error("input cannot be read")]
    Input,
    /// The input ends inside the context with this number, counted from 0. All contexts before it were run or dropped.
    #[error("input ends inside context {0}")]
    EndsInside(u64),
    /// The tape of this ring was not written completely.
    #[error("tape of ring {0}")]
    Tape(&'a str),
    /// This file of metrics could not be written at the end.
    #[error("metrics {0}")]
    Metrics(&'a str),
    /// Workers are to wait for room, and the ring of this name is the first that has no room for one context of every
    /// worker. The number is the size of the smallest ring that has.
    #[error("size of ring {0}: one context of every worker needs {1}")]
    Small(&'a str, u64),
    /// The same, and no ring has room for one context of every worker.
    #[error("size of ring {0}: one context of every worker fits no ring")]
    NoneFits(&'a str),
    /// The stream did not start, or it stopped.
    #[error("{0}")]
    Service(ServiceFault),
    /// Memory to start the stream or to print the counters could not be allocated.
    #[error("memory")]
    Memory,
}

impl<'a> From<AllocError> for StreamRefusal<'a> {
    ghost use Rattle.std.specs.Prelude.{◌≡◌};
    ghost use Rattle.rb_service.specs.declared.refusal.StreamRefusal.TheVariants.{Memory};

    ghost from_gives = { λ _ made. made ≡ Memory };

    fn from(_error: AllocError) -> StreamRefusal<'a> {
        StreamRefusal::Memory
    }
}

// Returns whether contexts have an allowed length, and at least one byte if only their length separates them.
fn has_contexts(options: &StreamOptions<'_>) -> bool
    ensures value { IsTrue result ↔ HasContexts options.now }
{
    if !options.form.is_lawful() {
        return false;
    }
    match options.framing {
        Framing::Fixed => options.form.len > 0,
        Framing::Frames => true,
        Framing::Lines => true,
    }
}

// Returns the first ring whose size is wrong.
fn find_wrong<'a>(rings: &[NamedRing<'a>]) -> Option<NamedRing<'a>>
    ensures found { IfSome result (IsWrongFirst rings.now) }
    ensures right { IfNone result (All (λ r. IsRingSize r.size) rings.now) }
{
    for at in 0..rings.len() {
        let ring = rings[at];
        if !is_size(ring.size) {
            return Some(ring);
        }
    }
    None
}

/// Returns the refusal of a service with this fault. If a ring is too small, the refusal has the ring's name.
pub(crate) fn refusal_of<'a>(options: &StreamOptions<'a>, fault: ServiceFault) -> StreamRefusal<'a>
    ensures later { IsLater result }
{
    let ServiceFault::TooSmall(small) = fault else {
        return StreamRefusal::Service(fault);
    };
    let Some(ring) = options.rings.get(small.ring) else {
        return StreamRefusal::Service(fault);
    };
    match small.least {
        Some(least) => StreamRefusal::Small(ring.name, least),
        None => StreamRefusal::NoneFits(ring.name),
    }
}

/// Returns the first refusal that follows from the options alone: of the contexts, of the rings' sizes in order, or of
/// the number of workers.
pub(crate) fn check_options<'a>(options: &StreamOptions<'a>) -> Result<(), StreamRefusal<'a>>
    ensures refused { IfErr result (IsRightRefusal options.now) }
    ensures allowed { OnOk result (IsAllowed options.now) }
{
    if !has_contexts(options) {
        return Err(StreamRefusal::Context);
    }
    if let Some(ring) = find_wrong(options.rings.as_slice()) {
        return Err(StreamRefusal::Size(ring.name));
    }
    if !is_worker_count(options.workers) {
        return Err(StreamRefusal::Workers);
    }
    Ok(())
}
