//! Questions to a CPU from C, and another moment for a cyclic.

ghost use Rattle.std.specs.Prelude.{◌≡◌};
ghost use Rattle.cyc_border.specs.Border.{AsksPending, CallsTotals, CallsReprogram, CallsBeginRemove};

use crate::numbers::Denied;
use cyc_cpu::{Hard, Removal, Totals};
use cyc_types::{CyclicId, Moment, Raise, Refusal};

/// Gives the cyclic another next expiration.
pub fn reprogram<R: Raise>(cpu: &mut Hard<R>, id: u64, moment: i64) -> Result<(), Denied>
    ensures { CallsReprogram R.Raise id moment result cpu.old cpu.new }
{
    let moment = Moment::new(moment)?;
    let Some(id) = CyclicId::new(id) else {
        return Err(Denied::Refused(Refusal::NoCyclic));
    };
    cpu.reprogram(id, moment)?;
    Ok(())
}

/// The calls of the cyclic that are outstanding.
pub fn pending_of<R: Raise>(cpu: &mut Hard<R>, id: u64) -> Result<u32, Denied>
    ensures { AsksPending R.Raise id result cpu.old cpu.new }
{
    let Some(id) = CyclicId::new(id) else {
        return Err(Denied::Refused(Refusal::NoCyclic));
    };
    match cpu.pending(id) {
        Some(pending) => Ok(pending),
        None => Err(Denied::Refused(Refusal::NoCyclic)),
    }
}

/// The counts of the cyclic.
pub fn totals_at<R: Raise>(cpu: &mut Hard<R>, id: u64) -> Result<Totals, Denied>
    ensures { CallsTotals R.Raise id result cpu.old cpu.new }
{
    let Some(id) = CyclicId::new(id) else {
        return Err(Denied::Refused(Refusal::NoCyclic));
    };
    match cpu.totals(id) {
        Some(totals) => Ok(totals),
        None => Err(Denied::Refused(Refusal::NoCyclic)),
    }
}

/// Begins the removal of the cyclic.
pub fn begin_remove<R: Raise>(cpu: &mut Hard<R>, id: u64) -> Result<Removal, Denied>
    ensures { CallsBeginRemove R.Raise id result cpu.old cpu.new }
{
    let Some(id) = CyclicId::new(id) else {
        return Err(Denied::Refused(Refusal::NoCyclic));
    };
    Ok(cpu.begin_remove(id)?)
}
