//! The removal of a cyclic: its beginning, its polls and its receipt.

ghost use Rattle.std.specs.Prelude.{◌≡◌, ◌≤◌, ℕ};
ghost use Rattle.cyc_cpu.specs.Cpu.{CpuView};
ghost use Rattle.cyc_cpu.specs.Laws.{IsLawful};
ghost use Rattle.cyc_cpu.specs.Gone.{HasLeft, IsOff};

use crate::hard::Hard;
use crate::leaving::{poll_at, remove_at};
use cyc_timers::Record;
use cyc_types::{CyclicId, Moment, Raise, Receipt, Refusal};

/// What the beginning of a removal found.
#[derive(Clone, Copy, Debug, PartialEq, Eq)]
pub enum Removal {
    /// No call was outstanding: the cyclic is gone.
    Done(Receipt),
    /// So many calls are outstanding, and the removal is open until they are made.
    Kept(u32),
}

/// The receipt of a cyclic with these counts.
fn receipt_of(id: CyclicId, kept: Record) -> Receipt
    requires { kept.lost ≤ kept.expired }
    ensures id { result.id ≡ id }
    ensures sent { result.sent ≡ kept.expired }
    ensures lost { result.lost ≡ kept.lost }
{
    Receipt {
        id,
        sent: u128::from(kept.expired),
        lost: u128::from(kept.lost),
    }
}

impl<R: Raise> Hard<R> {
    ghost use Rattle.cyc_cpu.specs.Calls.{CpuChanges, BeginRemove, PollRemove};

    /// Begins the removal of a cyclic (`cyclic_remove_here`): from now on it never expires. It is done at once where no call
    /// of it is outstanding, as at high level. Else it stays open, and `poll_remove` answers once the soft interrupt has made
    /// those calls.
    ///
    /// Refuses with NoCyclic where the id is not here, then with Busy while a removal is open. Takes no memory.
    pub fn begin_remove(&mut self, id: CyclicId) -> Result<Removal, Refusal>
        ensures { CpuChanges R.Raise self.old (BeginRemove id result) self.new }
    {
        self.table.law();
        let Some(index) = self.table.find(id) else {
            return Err(Refusal::NoCyclic);
        };
        if let Some(removed) = self.removal {
            return Err(Refusal::Busy(removed));
        }
        let kept = self.table.record(index);
        let left = remove_at(id, kept.level, &mut self.lock, &mut self.low);
        if left > 0 {
            self.table.reprogram(id, index, Moment::NEVER);
            self.removal = Some(id);
            return Ok(Removal::Kept(left));
        }
        self.table.remove(id);
        Ok(Removal::Done(receipt_of(id, kept)))
    }

    /// Ends the open removal where the last of its calls was made, and gives the receipt, with the counts that the cyclic
    /// carried in. None where no removal is open, or calls are still outstanding. Takes no memory.
    pub fn poll_remove(&mut self) -> Option<Receipt>
        ensures { CpuChanges R.Raise self.old (PollRemove result) self.new }
    {
        self.table.law();
        let id = self.removal?;
        let Some(index) = self.table.find(id) else {
            unreachable!()
        };
        let kept = self.table.record(index);
        if !poll_at(id, kept.level, &mut self.lock, &mut self.low) {
            return None;
        }
        self.table.remove(id);
        self.removal = None;
        Some(receipt_of(id, kept))
    }
}

/// Where a cyclic has left a CPU, by a removal that has answered or to another CPU, no cyclic there has its id, and it is a
/// stay of neither end: no call of it can be raised until the id is put in anew.
///
/// It does nothing when it runs: its clause is the law.
pub fn leaving_law<R: Raise>()
    ensures { (id : ℕ) (v w : CpuView R) → IsLawful R.view v → HasLeft R.Raise id v w → IsOff R.view id w }
{}
