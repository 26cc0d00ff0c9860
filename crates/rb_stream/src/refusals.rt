//! Why a stream is refused before it starts.

ghost use Rattle.std.specs.Prelude.{◌≡◌, []};
ghost use Rattle.rb_stream.specs.Refusals.{has_other_length, has_unknown_ring};

use rb_source::Source;
use rb_verifier::Verified;

/// Whether some program was verified for more rings than there are, and whether some was verified for another length of
/// contexts.
#[derive(Clone, Copy)]
pub(crate) struct Unfit {
    pub(crate) rings: bool,
    pub(crate) length: bool,
}

/// Returns which of the two holds for the programs, given `rings` rings and contexts of this length.
pub(crate) fn find_unfit(programs: &[Verified], rings: usize, ctx_len: u32) -> Unfit
    ensures rings { result.rings ≡ has_unknown_ring rings programs.now }
    ensures length { result.length ≡ has_other_length ctx_len programs.now }
{
    let mut unfit = Unfit {
        rings: false,
        length: false,
    };
    for program in programs {
        if program.rings() as usize > rings {
            unfit.rings = true;
        }
        if program.ctx_len() != ctx_len {
            unfit.length = true;
        }
    }
    unfit
}

/// The law for each `Source` that one that is not called gives nothing. The function does nothing; its contract is the
/// law.
pub(crate) fn gives_nothing<I: Source>()
    ensures law { (s : _) → I.gives s [] s }
{}
