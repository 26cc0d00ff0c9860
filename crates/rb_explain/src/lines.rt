//! The line of an instruction.

ghost use Rattle.std.specs.Prelude.{◌≡◌, ◌++◌, Some, OnOk, codes, string_bytes};
ghost use Rattle.rb_explain.specs.Lines as lines;

use crate::Assembly;
use rb_insn::Insn;
use rb_verifier::Helper;
use std::alloc::{AllocError, Global};
use std::fmt;
use std::fmt::Write;

/// Returns the name of a helper (bpf-helpers(7)).
pub(crate) fn helper_name(helper: Helper) -> &'static str
    ensures { result.now ≡ lines.helper_name helper }
{
    match helper {
        Helper::Output => "bpf_ringbuf_output",
        Helper::Reserve => "bpf_ringbuf_reserve",
        Helper::Submit => "bpf_ringbuf_submit",
        Helper::Discard => "bpf_ringbuf_discard",
        Helper::Query => "bpf_ringbuf_query",
    }
}

// The note after a call: the helper's name.
#[derive(Clone, Copy)]
struct CallNote(Insn);

impl fmt::Display for CallNote {
    ghost output = { λ note. Some (lines.call_text note.0) };

    fn fmt<W: fmt::Write>(&self, f: &mut fmt::Formatter<W>) -> fmt::Result {
        match self.0 {
            Insn::Call { helper } => match Helper::from_number(helper) {
                Some(helper) => write!(f, "  # {}", helper_name(helper)),
                None => f.write_str("  # not a helper of this host"),
            },
            _ => f.write_str(""),
        }
    }
}

/// Appends the line of the instruction at a unit: its unit, its bytes, its assembly, and the helper if it is a call.
pub(crate) fn push_line(
    alloc: Global,
    text: &mut String,
    unit: u32,
    insn: &Insn,
) -> Result<(), AllocError>
    ensures added { OnOk result (string_bytes text.new ≡ string_bytes text.old ++ lines.line_text unit insn.now) }
{
    let mut spelling = [0; 16];
    let count = insn.spell(&mut spelling);
    let bytes = hex::encode(alloc, &spelling[..count])?;
    let (assembly, call) = (Assembly(*insn), CallNote(*insn));
    write!(text, "{unit:>4}: {bytes:<32}  {assembly}{call}\n")
}

/// Appends the line of a unit's bytes.
pub(crate) fn push_bytes(
    alloc: Global,
    text: &mut String,
    unit: u32,
    bytes: &[u8],
) -> Result<(), AllocError>
    ensures added { OnOk result
        (string_bytes text.new ≡ string_bytes text.old ++ (lines.unit_text unit ++ codes ": " ++ lines.bytes_column bytes.now ++ codes "\n")) }
{
    let bytes = hex::encode(alloc, bytes)?;
    write!(text, "{unit:>4}: {bytes:<32}\n")
}
