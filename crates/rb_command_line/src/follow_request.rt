//! The command `follow`: what its words request, and its status.

ghost use Rattle.std.specs.Prelude.{◌≡◌, ◌≤◌};
ghost use Rattle.rb_tape_commands.specs.Follow.{FollowsRing};

use crate::option_values::{Values, decimal};
use clap::Error;
use rb_json::LineForm;
use rb_tape_commands::follow;
use std::alloc::Global;
use std::io::Write;
use std::rt::Files;
use std::time::Clock;

/// What is requested of `follow`.
#[derive(Clone, Copy)]
pub struct FollowRequest<'a> {
    /// The directory of the segments.
    pub folder: &'a str,
    /// The name of the ring.
    pub ring: &'a str,
    /// The position of the first record, the oldest one if none is given.
    pub from: Option<u64>,
    /// How a record is printed.
    pub form: LineForm,
}

impl<'a> Values<'_, 'a> {
    /// Returns what is requested of `follow`.
    pub(crate) fn follow(&self) -> Result<FollowRequest<'a>, Error> {
        let from = match self.options.get_str("from") {
            None => None,
            Some(text) => match decimal(text) {
                Some(position) => Some(position),
                None => return Err(self.refused("from", "a decimal number")),
            },
        };
        Ok(FollowRequest {
            folder: self.options.get_str("dir").unwrap_or(""),
            ring: self.options.get_str("name").unwrap_or(""),
            from,
            form: self.form(),
        })
    }
}

/// Follows the ring's segments until the host ends its tape in order, and returns the status: 0, or 1 if it was refused,
/// with a line on `err` that begins with `refused `.
pub(crate) fn carry_out_follow<T: Files + Clock, W: Write, E: Write>(
    rt: &T,
    alloc: Global,
    asked: &FollowRequest<'_>,
    out: &mut W,
    err: &mut E,
) -> u8
    ensures status { result ≤ 1 }
    ensures printed { result ≡ 0 → FollowsRing asked.now.form asked.now.from (W.contents out.old) (W.contents out.new) }
{
    match follow(
        rt,
        alloc,
        asked.folder,
        asked.ring,
        asked.from,
        out,
        asked.form,
    ) {
        Ok(()) => 0,
        Err(refusal) => {
            let _ = writeln!(err, "refused {refusal}");
            1
        }
    }
}
