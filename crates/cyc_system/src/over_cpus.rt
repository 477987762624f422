//! The calls that go over several CPUs or over all cyclics of one.

use crate::going_offline::offline;
use crate::juggling::juggle;
use crate::returning::online;
use crate::system::System;
use cyc_agreement::SystemRemoval;
use cyc_types::{CyclicId, JuggleReport, Level, Moment, Raise, Receipt, Refusal, When};

impl<R: Raise> System<R> {
    ghost use Rattle.cyc_system.specs.Calls.{Changes, AddOmni, Online, Juggle, Offline, BeginRemove, PollRemove};

    /// Adds an omnipresent cyclic, which has a component on each online CPU, and gives its id (`cyclic_add_omni`). The component
    /// of CPU `c` starts `c` times the skew after the start, and never later than never.
    ///
    /// Refuses with BadNow where `now` is never, then with IdsSpent where the last id was given; then, CPU by CPU in rising
    /// number, with Full, Busy or Expanding; then with Memory. All memory, that of one more cyclic on each online CPU and of a
    /// record, is taken before the first CPU grows. A refused call spends no id.
    pub fn add_omni(
        &mut self,
        level: Level,
        when: When,
        skew: Moment,
        now: Moment,
    ) -> Result<CyclicId, Refusal>
        ensures { Changes R.Raise self.old (AddOmni level when skew now result) self.new }
    {
        let last = self.last;
        let id = cyc_agreement::add_omni(
            &mut self.cpus,
            &mut self.records,
            last,
            level,
            when,
            skew,
            now,
        )?;
        self.last = id.number();
        Ok(id)
    }

    /// Takes a CPU back that was offline (`cyclic_online`). It gets a component of each omnipresent cyclic whose removal is not
    /// open, which begins again from its start and carries the counts that it left here.
    ///
    /// Refuses with NoCpu, then with Online where the CPU takes part already, then with BadNow where `now` is never, then with
    /// Expanding where its last switch of banks is not over, then with Memory, which it takes for all those components.
    pub fn online(&mut self, cpu: u32, now: Moment) -> Result<(), Refusal>
        ensures { Changes R.Raise self.old (Online cpu now result) self.new }
    {
        online(&mut self.cpus, &mut self.records, cpu, now)
    }

    /// Moves the cyclics of a CPU to others (`cyclic_juggle`). By rising id, each that is not omnipresent is counted as bound;
    /// else as pending, where calls of it are outstanding; else as refused, where the online CPU with the fewest cyclics at that
    /// moment, other than this one, answers Full, Busy, Expanding or Memory; else it moves there with its id, its next expiration
    /// and its counts.
    ///
    /// Refuses with NoCpu, then with Offline, then with LastCpu where no other CPU is online, then with Busy while a removal is
    /// open there. Takes no memory but that of the destinations.
    pub fn juggle(&mut self, cpu: u32) -> Result<JuggleReport, Refusal>
        ensures { Changes R.Raise self.old (Juggle cpu result) self.new }
    {
        self.cpus.law();
        self.records.law();
        let answer = juggle(&mut self.cpus, &mut self.records, cpu);
        self.cpus.law();
        self.records.law();
        answer
    }

    /// Takes a CPU offline (`cyclic_offline`). Its cyclics that are not omnipresent move as in a juggle; then the components of
    /// the omnipresent ones leave it, and the counts that they had here are kept.
    ///
    /// Refuses with NoCpu, then with Offline, then with LastCpu where no other CPU is online, then with Busy while a removal is
    /// open there. Then, where what moved stays moved, with Left where a cyclic that is not omnipresent remains, and with Pending
    /// where calls of a component are outstanding. Takes no memory but that of the destinations.
    pub fn offline(&mut self, cpu: u32) -> Result<(), Refusal>
        ensures { Changes R.Raise self.old (Offline cpu result) self.new }
    {
        self.cpus.law();
        self.records.law();
        let answer = offline(&mut self.cpus, &mut self.records, cpu);
        self.cpus.law();
        self.records.law();
        answer
    }

    /// Begins the removal of a cyclic on every CPU that has it (`cyclic_remove`): from now on it never expires. It is done at
    /// once where no call of it is outstanding, and the receipt adds up all its stays on all CPUs. Else it stays open, with so
    /// many calls, until `poll_remove` answers. The id is never given again.
    ///
    /// Refuses with NoCyclic where no cyclic has the id, then with Busy where a removal is open on a CPU that has the cyclic, its
    /// own too: that of the CPU with the smallest number. Takes no memory.
    pub fn begin_remove(&mut self, id: CyclicId) -> Result<SystemRemoval, Refusal>
        ensures { Changes R.Raise self.old (BeginRemove id result) self.new }
    {
        cyc_agreement::begin_remove(&mut self.cpus, &mut self.records, id)
    }

    /// Asks every CPU on which the removal of the cyclic is open whether its calls are made (the end of `cyclic_remove`). The
    /// receipt, which adds up all its stays on all CPUs, comes when the last of them has answered.
    ///
    /// Refuses with NoCyclic where no removal of this id is open. Takes no memory.
    pub fn poll_remove(&mut self, id: CyclicId) -> Result<Option<Receipt>, Refusal>
        ensures { Changes R.Raise self.old (PollRemove id result) self.new }
    {
        cyc_agreement::poll_remove(&mut self.cpus, &mut self.records, id)
    }
}
