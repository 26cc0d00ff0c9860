//! The sizes of rings for workers that wait for room.

ghost use Rattle.std.specs.Prelude.{◌≡◌, ◌++◌, IfOk, OnOk, string_bytes};
ghost use Rattle.rb_waiting.specs.TurnSizes.{TurnsNeedTheirSizes, none_text, ring_text, size_text, turn_sizes, turn_sizes_text};

use rb_cost::{Cost, least_ring};
use rb_json::LineForm;
use std::alloc::{AllocError, Global};
use std::fmt::Write;

/// The sizes of a ring for workers that wait for room.
#[derive(Clone, Copy, Debug, PartialEq, Eq)]
pub struct TurnSizes {
    /// The smallest size with which turns are possible, if there is one.
    pub smallest: Option<u64>,
    /// The smallest size with which turns have 16 contexts, if there is one.
    pub longest: Option<u64>,
}

/// Returns the sizes of a ring from which all programs together request at most `bytes` for one context.
pub fn turn_sizes(workers: u32, bytes: u64) -> TurnSizes
    ensures sizes { result ≡ turn_sizes workers bytes }
{
    let one_each = u128::from(workers) * u128::from(bytes);
    TurnSizes {
        smallest: least_ring(one_each),
        longest: least_ring(32 * one_each),
    }
}

/// The law that turns are possible in rings of the smallest size and larger ones, and that they have 16 contexts in
/// rings of the other size and larger ones. The function does nothing; its contract is the law.
pub fn turns_need_their_sizes()
    ensures { TurnsNeedTheirSizes }
{}

// Appends that no ring is large enough for turns of this many contexts.
fn push_none(text: &mut String, form: LineForm, ring: usize, turn: u32) -> Result<(), AllocError>
    ensures added { OnOk result (string_bytes text.new ≡ string_bytes text.old ++ none_text form ring turn) }
{
    match form {
        LineForm::Words => write!(text, "ring {ring} turn {turn} size none\n"),
        LineForm::Json => write!(text, "{{\"ring\":{ring},\"turn\":{turn},\"size\":null}}\n"),
    }
}

// Appends the size of a ring whose turns have this many contexts, or that none is large enough.
fn push_size(
    text: &mut String,
    form: LineForm,
    ring: usize,
    turn: u32,
    size: Option<u64>,
) -> Result<(), AllocError>
    ensures added { OnOk result (string_bytes text.new ≡ string_bytes text.old ++ size_text form ring turn size) }
{
    match (form, size) {
        (LineForm::Words, Some(size)) => write!(text, "ring {ring} turn {turn} size {size}\n"),
        (LineForm::Json, Some(size)) => write!(
            text,
            "{{\"ring\":{ring},\"turn\":{turn},\"size\":{size}}}\n"
        ),
        (_, None) => push_none(text, form, ring, turn),
    }
}

// Appends both sizes of a ring.
fn push_sizes(
    text: &mut String,
    form: LineForm,
    ring: usize,
    workers: u32,
    bytes: u64,
) -> Result<(), AllocError>
    ensures added { OnOk result (string_bytes text.new ≡ string_bytes text.old ++ ring_text form ring workers bytes) }
{
    let sizes = turn_sizes(workers, bytes);
    push_size(text, form, ring, 1, sizes.smallest)?;
    push_size(text, form, ring, 16, sizes.longest)
}

/// Returns two lines for each ring, as text or as JSON objects: `ring I turn 1 size N` with the smallest size with
/// which workers can wait for room, if they run a program of this cost alone, and `ring I turn 16 size N` with the
/// smallest one with which a turn has 16 contexts. N is `none` (`null`) if no size is large enough. Returns `Err` if an
/// allocation fails.
pub fn turn_sizes_text(
    alloc: Global,
    cost: &Cost,
    form: LineForm,
    workers: u32,
) -> Result<String, AllocError>
    ensures text { IfOk result (λ text. string_bytes text ≡ turn_sizes_text form workers cost.now) }
{
    let mut text = String::new(alloc);
    for (ring, ring_cost) in cost.rings.iter().enumerate() {
        push_sizes(&mut text, form, ring, workers, ring_cost.bytes)?;
    }
    Ok(text)
}
