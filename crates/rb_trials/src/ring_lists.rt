//! Lists of one ring.

ghost use Rattle.std.specs.Prelude.{IfOk};
ghost use Rattle.rb_workers.specs.Opened.{AreOpened, IsOpened};

use crate::fault::TrialFault;
use rb_workers::{NullSink, Opened};
use std::alloc::Global;

/// Returns a list of one ring for `workers` workers, or an error if the list can't be allocated.
pub(crate) fn list_of_one(
    alloc: Global,
    workers: u32,
    ring: Opened<NullSink>,
) -> Result<Vec<Opened<NullSink>>, TrialFault>
    requires { IsOpened (λ s. s.position) workers ring }
    ensures { IfOk result (λ rings. AreOpened (λ s. s.position) rings.items) }
{
    match vec![in alloc; ring] {
        Ok(rings) => Ok(rings),
        Err(_) => Err(TrialFault::Memory),
    }
}
